//! Keywords: the first token of a line says what kind of statement the line holds, and the first of an order what kind of order.
ghost use Rattle.std.specs.Prelude.{◌≡◌, Some};
ghost use Rattle.routine.specs.Keywords.{keyword_of, kind_of, names_pair};

/// The kinds of statements.
#[derive(Clone, Copy, Debug)]
pub enum Keyword {
    /// Words of the routine.
    Words,
    /// The order of levels.
    Order,
    /// Numbers of the rows.
    Rows,
    /// Values of one row, by name.
    Row,
    /// The second set of rows.
    Second,
    /// Judges the routine.
    Judge,
    /// Fills levels in.
    Fill,
    /// Pools both sets of rows.
    Pool,
    /// Tells the largest remaining number.
    Remaining,
    /// Joins two levels.
    Join,
    /// Clears the boards.
    Clear,
    /// Puts a byte into each board.
    Put,
    /// Runs the boards.
    Run,
    /// Reads a byte of each board.
    Read,
}

/// The kinds of orders that are not made of others.
#[derive(Clone, Copy)]
pub enum Kind {
    Chain,
    Compartments,
    Table,
}

impl Keyword {
    /// The keyword that a token is, if it is one.
    #[tactic(auto, unfolding(crate::specs::Keywords::keyword_of))]
    pub fn from_token(token: &[u8]) -> Option<Keyword>
        ensures { result ≡ keyword_of token.now }
    {
        match token {
            b"words" => Some(Keyword::Words),
            b"order" => Some(Keyword::Order),
            b"rows" => Some(Keyword::Rows),
            b"row" => Some(Keyword::Row),
            b"second" => Some(Keyword::Second),
            b"judge" => Some(Keyword::Judge),
            b"fill" => Some(Keyword::Fill),
            b"pool" => Some(Keyword::Pool),
            b"remaining" => Some(Keyword::Remaining),
            b"join" => Some(Keyword::Join),
            b"clear" => Some(Keyword::Clear),
            b"put" => Some(Keyword::Put),
            b"run" => Some(Keyword::Run),
            b"read" => Some(Keyword::Read),
            _ => None,
        }
    }

    /// How the keyword is written.
    #[tactic(auto, unfolding(crate::specs::Keywords::keyword_of))]
    pub(crate) fn name(self) -> &'static str
        ensures { keyword_of result.now ≡ Some self }
    {
        match self {
            Keyword::Words => "words",
            Keyword::Order => "order",
            Keyword::Rows => "rows",
            Keyword::Row => "row",
            Keyword::Second => "second",
            Keyword::Judge => "judge",
            Keyword::Fill => "fill",
            Keyword::Pool => "pool",
            Keyword::Remaining => "remaining",
            Keyword::Join => "join",
            Keyword::Clear => "clear",
            Keyword::Put => "put",
            Keyword::Run => "run",
            Keyword::Read => "read",
        }
    }
}

impl Kind {
    /// The kind of order that a token names, if it names one.
    #[tactic(auto, unfolding(crate::specs::Keywords::kind_of))]
    pub(crate) fn from_token(token: &[u8]) -> Option<Kind>
        ensures { result ≡ kind_of token.now }
    {
        match token {
            b"chain" => Some(Kind::Chain),
            b"compartments" => Some(Kind::Compartments),
            b"table" => Some(Kind::Table),
            _ => None,
        }
    }
}

/// Whether a token announces an order that is made of two.
#[tactic(auto, unfolding(crate::specs::Keywords::names_pair))]
pub(crate) fn is_pair(token: &[u8]) -> bool
    ensures { result ≡ names_pair token.now }
{
    matches!(token, b"pair")
}
