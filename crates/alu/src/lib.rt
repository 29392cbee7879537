//! The arithmetic and logic of the chip: from bytes, 16-bit numbers and the flags before to values and the flags after.
//!
//! It stands on `words` for the names of the operations. It knows nothing of registers, memory, addresses or cycles: where a
//! result goes is for those above.
#![tactic(auto)]

pub mod arithmetic;
pub mod output;
