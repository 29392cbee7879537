//! Bytes that a board is lent.
ghost use Rattle.std.specs.Prelude.{◌≡◌, length};

/// Bytes that a board can be lent as its memory: 65,536 of them.
#[derive(Drop)]
pub struct Memory<'m> {
    pub(crate) bytes: &'m mut [u8],
    ghost size: { length bytes.now ≡ 65536 },
}

pub mod lending;
