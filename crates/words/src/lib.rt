//! The words of a routine: instructions, their encodings, their cycles, where they lead, and listings of them.
//!
//! This is the lowest layer: it may use the definitions of verdicts, and knows nothing of boards, of levels or of secrets.
#![tactic(auto)]

mod codes;
mod decoding;
mod encoding;
pub mod fault;
pub mod instruction;
pub mod listing;
mod pricing;
pub mod route;
pub mod routing;
