//! How files come out, and the exit status that tells it.
ghost use Rattle.std.specs.Prelude.{◌≡◌};
ghost use Rattle.program.specs.Standings.{worse, status_by};

/// How a file comes out.
#[derive(Clone, Copy)]
pub enum Standing {
    /// It was carried out, asks for a judgement, and is accepted.
    Accepted,
    /// It was carried out, and is refused or not judged.
    Unaccepted,
    /// It cannot be read, or is malformed.
    Unread,
}

impl Standing {
    /// The worse of two.
    pub(crate) fn or_worse(self, other: Standing) -> Standing
        ensures { result ≡ worse self other }
    {
        match (self, other) {
            (Standing::Unread, _) | (_, Standing::Unread) => Standing::Unread,
            (Standing::Unaccepted, _) | (_, Standing::Unaccepted) => Standing::Unaccepted,
            (Standing::Accepted, Standing::Accepted) => Standing::Accepted,
        }
    }

    /// The exit status of files of which the worst came out so, by whether they are checked.
    pub(crate) fn status(self, check: bool) -> u8
        ensures { result ≡ status_by check self }
    {
        match self {
            Standing::Accepted => 0,
            Standing::Unaccepted => u8::from(check),
            Standing::Unread => 1 + u8::from(check),
        }
    }
}
