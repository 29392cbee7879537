//! What a put or a read names.

/// A register by its number, or an address of the memory.
#[derive(Clone, Copy)]
pub enum Location {
    Register(u8),
    Memory(u16),
}
