//! Orders as they are written, before it is known whether they can be made.

/// An order of a simple kind, as it is written.
// Unlike those of `Simple`, these sizes and bytes may be wrong.
#[derive(Drop)]
pub enum SimpleText {
    /// A chain of so many levels.
    Chain(u16),
    /// So many compartments.
    Compartments(u16),
    /// A table of so many levels, with its join bytes.
    Table { levels: u16, bytes: Vec<u8> },
}

/// An order, as it is written.
#[derive(Drop)]
pub enum OrderText {
    /// An order of a simple kind.
    Simple(SimpleText),
    /// A pair of two such orders.
    Pair(SimpleText, SimpleText),
}
