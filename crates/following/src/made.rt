//! Balanced routines at random.
use row_layout::{COLUMNS, Column};
use std::alloc::{AllocError, Global};

/// Numbers that look random, the same ones in each run.
#[derive(Drop)]
pub(crate) struct Random {
    state: u32,
}

impl Random {
    /// The first of them.
    pub(crate) fn new() -> Random {
        Random { state: 1 }
    }

    /// A number below a limit of 1 or more.
    pub(crate) fn below(&mut self, limit: u16) -> u16 {
        self.state = self.state.wrapping_mul(1664525).wrapping_add(1013904223);
        (self.state >> 16) as u16 % limit.max(1)
    }
}

/// A routine with a region of two arms, and its rows.
#[derive(Drop)]
pub(crate) struct Made {
    pub words: Vec<u16>,
    pub rows: Vec<u16>,
    /// How many edges leave words inside the region.
    pub edges: usize,
}

/// cpi r16, 0.
const COMPARE: u16 = 0x3000;
/// breq to the word behind it.
const BRANCH: u16 = 0xF001;
/// rjmp to the word behind it.
const JUMP: u16 = 0xC000;
/// nop.
const REST: u16 = 0x0000;
/// ret.
const RETURN: u16 = 0x9508;
/// The address of the branch.
const FORK: usize = 1;

impl Made {
    /// A routine of which both arms take the same time, with numbers at random in the rows of its arms. The row of the branch is right.
    pub(crate) fn at_random(heap: Global, random: &mut Random) -> Result<Made, AllocError> {
        let cycles = random.below(40);
        let on = arm(heap, random, cycles)?;
        let aside = arm(heap, random, cycles.saturating_add(1))?;
        let mut words = Vec::new(heap);
        words.push(COMPARE)?;
        words.push(BRANCH + 8 * count(&on).saturating_add(1).min(63))?;
        words.extend_from_slice(on.as_slice())?;
        words.push(JUMP + count(&aside).min(63))?;
        words.extend_from_slice(aside.as_slice())?;
        words.push(RETURN)?;
        let join = words.len().saturating_sub(1);
        let mut made = Made {
            words,
            rows: Vec::new(heap),
            edges: join,
        };
        made.fill_rows(random, join, cycles)?;
        Ok(made)
    }

    /// Gives all rows their levels, the row of the branch its region, and the rows of both arms numbers at random.
    fn fill_rows(
        &mut self,
        random: &mut Random,
        join: usize,
        cycles: u16,
    ) -> Result<(), AllocError> {
        let count = self.words.len().saturating_add(1);
        self.rows.resize(count.saturating_mul(COLUMNS), 0)?;
        for row in 0..count {
            self.set(row, Column::Register(16), 1);
            self.set(row, Column::Carry, 1);
            self.set(row, Column::Zero, 1);
        }
        self.put(FORK, join, u32::from(cycles) + 3);
        for row in FORK + 1..join {
            if random.below(2) == 0 {
                let anywhere = usize::from(random.below(4)).min(join);
                let remaining = random.below(90);
                self.put(row, anywhere, u32::from(remaining) + 1);
            }
        }
        Ok(())
    }

    /// Puts a row into a region.
    fn put(&mut self, row: usize, join: usize, remaining: u32) {
        self.set(row, Column::Region, 1);
        self.set(row, Column::Join, join.min(1023) as u32);
        self.set(row, Column::Remaining, remaining);
    }

    /// Writes a number of a row, if it has 16 bits.
    pub(crate) fn set(&mut self, row: usize, column: Column, value: u32) {
        let start = row.saturating_mul(COLUMNS);
        let index = start.saturating_add(column.index());
        if let Some(cell) = self.rows.get_mut(index)
            && let Ok(value) = u16::try_from(value)
        {
            *cell = value;
        }
    }
}

/// Words that take so many cycles together: nops, and jumps to the next word, which take two.
fn arm(heap: Global, random: &mut Random, cycles: u16) -> Result<Vec<u16>, AllocError> {
    let mut words = Vec::new(heap);
    let mut left = cycles;
    for _ in 0..cycles {
        if left >= 2 && random.below(2) == 0 {
            words.push(JUMP)?;
            left -= 2;
        } else if left > 0 {
            words.push(REST)?;
            left -= 1;
        }
    }
    Ok(words)
}

/// How many words there are.
fn count(words: &Vec<u16>) -> u16 {
    words.len().min(1023) as u16
}
