//! Routines that benchmarks judge and fill in: of any length, each of words of one shape.
//!
//! It may use the layout of rows. Which words a shape has is for its measure alone, and no contract says it.
#![tactic(auto)]

mod making;
mod placing;

use std::fmt;

/// What a routine is made of.
#[derive(Clone, Copy)]
pub enum Shape {
    /// Words that go on, and a ret.
    Straight,
    /// Branches, each with two edges, and a ret.
    Branches,
    /// A first half of calls of the second half, which is one function of returns, so that each return has an edge for each call.
    Returns,
    /// Words that join one register to another, and a ret.
    Spreads,
    /// Such words and branches onward by turns, and a ret.
    Forks,
    /// Blocks of copies from register to register, and at the end of each block branches to ever earlier words of it: loops in loops,
    /// and a loop around all of them.
    Loops,
    /// Words that join one register to another, each with a jump back to the one that follows it: the last ones come first.
    Backward,
    /// Calls of one function, which has many returns, all of which are reached.
    Calls,
    /// Functions of which each calls the next one.
    Nested,
    /// Loops one after another, each of which moves levels on by one register a turn. Only one register leaves a loop, together with
    /// one that no loop touches.
    Rotations,
    /// The same, and in the last loop calls of one function of many returns.
    RotatedCalls,
}

// By hand: the kit derives texts for errors only.
impl fmt::Display for Shape {
    fn fmt<W: fmt::Write>(&self, f: &mut fmt::Formatter<W>) -> fmt::Result {
        f.write_str(match self {
            Shape::Straight => "straight",
            Shape::Branches => "branches",
            Shape::Returns => "returns",
            Shape::Spreads => "spreads",
            Shape::Forks => "forks",
            Shape::Loops => "loops",
            Shape::Backward => "backward",
            Shape::Calls => "calls",
            Shape::Nested => "nested",
            Shape::Rotations => "rotations",
            Shape::RotatedCalls => "rotated calls",
        })
    }
}
