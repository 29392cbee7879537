//! What a word does to levels: the level of each place after it, and the level of what decides where it leads.
//!
//! It may use the words, the chip's table of sources, the layout of rows, and of an order its interface. Whoever checks rows or fills
//! them in asks here.
#![tactic(auto)]

pub mod leveling;
