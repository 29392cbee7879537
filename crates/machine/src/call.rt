//! What two machines are asked to do.

/// A call on a couple of machines whose bytes are named by an `L`: a run has one limit and a read one location, and a put has one
/// location and a byte for each machine.
#[derive(Clone, Copy)]
pub enum Call<L> {
    /// Everything is 0 again.
    Clear,
    /// A byte is put, on the left machine and on the right one.
    Put { location: L, left: u8, right: u8 },
    /// The machines run up to a limit of cycles.
    Run { limit: u32 },
    /// A byte is read.
    Read { location: L },
}
