//! The laws of the lexical layer. Each call answers nothing: its contract is the law.
ghost use Rattle.text.specs.Laws.{LinesStand, TokensStand, NumbersStand, AssignmentsStand, ChecksStand};

/// A file is made of its lines.
pub fn lines_stand()
    ensures { LinesStand }
{}

/// A line gives tokens, and any tokens can be written.
pub fn tokens_stand()
    ensures { TokensStand }
{}

/// Numbers read back as they were written.
pub fn numbers_stand()
    ensures { NumbersStand }
{}

/// Assignments are split at the first `=`.
pub fn assignments_stand()
    ensures { AssignmentsStand }
{}

/// The first byte that cannot stand in a routine file is refused.
pub fn checks_stand()
    ensures { ChecksStand }
{}
