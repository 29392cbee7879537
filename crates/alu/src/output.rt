//! What the arithmetic gives: a value and the flags.

/// A value and the flags.
#[derive(Clone, Copy)]
pub struct Output<V> {
    pub value: V,
    pub carry: bool,
    pub zero: bool,
}

/// A byte and the flags.
pub type ByteOutput = Output<u8>;

/// A 16-bit number and the flags.
pub type WordOutput = Output<u16>;
