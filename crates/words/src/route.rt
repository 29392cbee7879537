//! Routes: where an instruction leads from its address.

/// The next addresses of an instruction. They are kept in 32 bits, since they may lie past every 16-bit address, and one
/// that would lie below 0 is `NOWHERE`.
#[derive(Clone, Copy)]
pub enum Route {
    /// On to one address.
    To(u32),
    /// Always diverted to this address.
    Jump(u32),
    /// On to the first address, or diverted to the second.
    Fork(u32, u32),
    /// Into the function at this address.
    Call(u32),
    /// Back to where the function was called from.
    Return,
}
