//! What the judge may refuse for, in layers: faults of words, of rows, and of the flow of levels.
ghost use Rattle.std.specs.Prelude.{◌≡◌};
ghost use Rattle.verdicts.specs.Verdict.{number_of};
ghost use Rattle.judge.specs.declared.faults.JudgeFault.TheVariants.{Words, Rows, Flow};
ghost use Rattle.judge.specs.Faults.{row_refusal, flow_refusal, judge_refusal};

use words::fault::WordFault;

/// A fault of rows.
#[derive(Clone, Copy)]
pub enum RowFault {
    /// There are not as many numbers as the rows of all words and the finish row take.
    Count,
    /// No level has the code in this column of this row.
    // The column's number, as the refusal carries it.
    NotHeld { row: u16, column: u16 },
    /// The row has not the shape of one: its region, its function, or where it begins or ends.
    Shape { row: u16 },
}

impl RowFault {
    /// Its number in the table of refusals.
    pub fn number(self) -> u8
        ensures { result ≡ number_of (row_refusal self) }
    {
        match self {
            RowFault::Count => 3,
            RowFault::NotHeld { .. } => 4,
            RowFault::Shape { .. } => 5,
        }
    }
}

/// A fault of where words lead, or of what they do to levels. Addresses are of the word that is at fault and of the next word
/// on one of its edges; the latter is kept in 32 bits, as routes have it.
#[derive(Clone, Copy)]
pub enum FlowFault {
    /// A call or a return stands inside a region.
    Inside { at: u16 },
    /// An edge or a call leaves the listing or its function.
    Bounds { at: u16 },
    /// Outside every region, something above level 0 decides where the word leads.
    Deciding { at: u16 },
    /// The edge from inside a region neither ends the region in time nor stays in it.
    Time { at: u16, next: u32 },
    /// The level of a place after the word does not flow to its level in the next row; `REGION` stands for the region level.
    Level { at: u16, next: u32, place: u16 },
}

impl FlowFault {
    /// Its number in the table of refusals.
    pub fn number(self) -> u8
        ensures { result ≡ number_of (flow_refusal self) }
    {
        match self {
            FlowFault::Bounds { .. } => 6,
            FlowFault::Inside { .. } => 7,
            FlowFault::Deciding { .. } => 8,
            FlowFault::Time { .. } => 9,
            FlowFault::Level { .. } => 10,
        }
    }
}

/// What is wrong with a routine: with its words, with its rows, or with the flow of levels.
#[derive(Clone, Copy)]
pub enum JudgeFault {
    /// The words are no listing.
    Words(WordFault),
    /// The rows are no rows of these words, on their own.
    Rows(RowFault),
    /// The words do not keep to the rows.
    Flow(FlowFault),
}

impl JudgeFault {
    /// Its number in the table of refusals.
    pub fn number(self) -> u8
        ensures { result ≡ number_of (judge_refusal self) }
    {
        match self {
            JudgeFault::Words(fault) => fault.number(),
            JudgeFault::Rows(fault) => fault.number(),
            JudgeFault::Flow(fault) => fault.number(),
        }
    }
}

// Written by hand for its `from_gives`: clauses name what `?` makes, and a derived `From` says nothing of it.
impl From<WordFault> for JudgeFault {
    ghost from_gives = { λ f r. r ≡ Words f };

    fn from(f: WordFault) -> JudgeFault {
        JudgeFault::Words(f)
    }
}

impl From<RowFault> for JudgeFault {
    ghost from_gives = { λ f r. r ≡ Rows f };

    fn from(f: RowFault) -> JudgeFault {
        JudgeFault::Rows(f)
    }
}

impl From<FlowFault> for JudgeFault {
    ghost from_gives = { λ f r. r ≡ Flow f };

    fn from(f: FlowFault) -> JudgeFault {
        JudgeFault::Flow(f)
    }
}
