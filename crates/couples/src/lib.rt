//! Couples: two boards on the same words, each with a memory of its own, that are given one call after another, both the same
//! ones but for the bytes of a put. A leak of a secret shows between two such boards and nowhere else.
//!
//! It stands on `board` for the calls and on the definitions of `secrecy` for what a call on both is; it knows nothing of levels
//! and judges nothing.
#![tactic(auto)]

pub mod answers;
pub mod fault;
pub mod living;
pub mod working;
