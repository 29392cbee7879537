//! The worklist: rows whose words are left to be looked at.
ghost use Rattle.std.specs.Prelude.{◌≡◌, ℕ, ◌/◌, ◌<◌, ◌≤◌, true, false, not, ◌&&◌, ◌||◌, ◌==◌, length, MatchOption};
ghost use Rattle.filling.specs.Worklists.{lists, BitsFrom, NextFrom};

/// How many rows one block stands for, one bit for each.
const BITS: u16 = 64;

/// How many blocks there are: enough for the rows of the longest listing and its finish row.
const BLOCKS: usize = 17;

/// A set of rows. The next row from any other on is found in a few steps, however few rows there are.
#[derive(Clone, Copy)]
pub(crate) struct Worklist {
    blocks: [u64; BLOCKS],
}

impl Worklist {
    /// The list of the first row alone.
    pub(crate) fn of_first() -> Worklist
        ensures { (row : ℕ) → lists result.blocks row ≡ (row == 0) }
    {
        let mut list = Worklist {
            blocks: [0; BLOCKS],
        };
        list.add(0);
        list
    }

    /// Lists a row.
    pub(crate) fn add(&mut self, row: u16)
        requires { row < 1088 }
        ensures { (other : ℕ) → lists self.new.blocks other ≡ (other == row || lists self.old.blocks other) }
    {
        self.blocks[usize::from(row / BITS)] |= 1 << (row % BITS);
    }

    /// Takes a row from the list.
    pub(crate) fn remove(&mut self, row: u16)
        requires { row < 1088 }
        ensures { (other : ℕ) → lists self.new.blocks other ≡ (not (other == row) && lists self.old.blocks other) }
    {
        self.blocks[usize::from(row / BITS)] &= !(1 << (row % BITS));
    }

    /// The bits of a block, without those of rows below one that is in it or before it.
    fn bits_from(&self, block: usize, from: u16) -> u64
        requires block { block < 17 }
        requires before { from / 64 ≤ block }
        ensures { BitsFrom self.now.blocks block from result }
    {
        let bits = self.blocks[block];
        if block == usize::from(from / BITS) {
            bits & (u64::MAX << (from % BITS))
        } else {
            bits
        }
    }

    /// The first listed row from one on.
    pub(crate) fn next(&self, from: u16) -> Option<u16>
        ensures { NextFrom self.now.blocks from result }
    {
        for block in usize::from(from / BITS)..BLOCKS {
            let bits = self.bits_from(block, from);
            if bits > 0 {
                return Some(block as u16 * BITS + bits.trailing_zeros() as u16);
            }
        }
        None
    }
}
