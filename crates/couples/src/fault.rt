//! Why a couple is not made, or does not live.

use board::fault::MakingFault;

/// Why a couple cannot be made, with the bytes of both boards, handed back.
#[derive(Drop)]
pub struct Unmade<'m, 'n> {
    pub fault: MakingFault,
    pub left: &'m mut [u8],
    pub right: &'n mut [u8],
}

/// Why a list of calls is not worked.
#[derive(Clone, Copy)]
pub enum LifeFault {
    /// There is room for fewer answers than there are calls.
    Room,
    /// The boards cannot be made.
    Making(MakingFault),
}
