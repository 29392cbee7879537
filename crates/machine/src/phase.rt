//! What a board may be doing, and how a run may end.
ghost use Rattle.std.specs.Prelude.{◌≡◌};
ghost use Rattle.machine.specs.Calls.{phase_of};

/// What stops a board for good before its routine has ended.
#[derive(Clone, Copy, PartialEq, Eq)]
pub enum Stop {
    /// A call while 16 returns are held already.
    Deep,
    /// The next address lies outside the listing.
    Off,
}

/// What a board may be doing.
#[derive(Clone, Copy, PartialEq, Eq)]
pub enum Phase {
    /// Bytes may be put.
    Loading,
    /// A run was spent before the routine ended, and may go on.
    Running,
    /// The routine has ended, and bytes may be read.
    Ended,
    /// The board was stopped.
    Stopped(Stop),
}

/// How a run may end, with what it carries.
#[derive(Clone, Copy, PartialEq, Eq)]
pub enum Ending {
    /// The next word would pass the limit, which is carried.
    Spent(u32),
    /// The routine ended; the cycle count is carried.
    Ended(u32),
    /// The board was stopped; the cycle count is carried.
    Stopped(Stop, u32),
}

/// The phase that an ending leaves a board in.
impl From<Ending> for Phase {
    ghost from_gives = { λ ending phase. phase ≡ phase_of ending };

    fn from(ending: Ending) -> Phase {
        match ending {
            Ending::Spent(_) => Phase::Running,
            Ending::Ended(_) => Phase::Ended,
            Ending::Stopped(stop, _) => Phase::Stopped(stop),
        }
    }
}
