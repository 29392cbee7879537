//! The AVR chip, said once: what every instruction makes of registers, flags and memory, which way it goes, and from which
//! places each written place comes.
//!
//! The effects are definitions in specs/, made of those of `alu`, and `specs/Chip` ties them to the words as a machine in the
//! sense of `machine`. The code has the table of sources, which levels follow, and what a put or a read names.
//! Nothing here runs: boards stand above, and levels are unknown to it.
#![tactic(auto)]

pub mod location;
pub mod pointer;
pub mod sources;
pub mod table;
