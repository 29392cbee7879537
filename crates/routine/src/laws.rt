//! The law of reading. The call answers nothing: its contract is the law.
ghost use Rattle.routine.specs.Laws.{ReadingStands};

/// Tokens of a statement, and lines of a file, that are all well formed give their words in their order, and else the first that is not
/// decides. A token is quoted by its first 32 bytes, and a quote tells whether there are more.
pub fn reading_stands()
    ensures { ReadingStands }
{}
