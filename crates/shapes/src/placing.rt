//! The words of each shape, address by address.
use crate::Shape;

/// The word of nop.
const NOP: u16 = 0x0000;

/// The word of ret.
const RET: u16 = 0x9508;

/// The word of a branch to the next word.
const BRANCH: u16 = 0xF001;

/// How many words a block of loops has: copies in its first half, branches in its second.
const BLOCK: u16 = 64;

/// The first register that loops of `Shape::Rotations` move levels through; the last one is `LAST`.
const FIRST: u16 = 16;

/// The last register.
const LAST: u16 = 31;

/// How many registers there are.
const REGISTERS: u16 = 32;

/// How many words one loop of `Shape::Rotations` has: two that bring in levels, as many as clear all registers but the last, as many as
/// move levels from one register to the one before, and a branch.
const TURN: u16 = 2 + 2 * (LAST - FIRST) + 1;

/// Where in it the loop begins.
const HEAD: u16 = 2 + (LAST - FIRST);

/// The word of an operation on two registers, from its word on two registers 0.
fn two(operation: u16, d: u16, r: u16) -> u16 {
    let (d, r) = (d % REGISTERS, r % REGISTERS);
    operation | (r / 16 * 0x200) | (d * 0x10) | (r % 16)
}

/// mov: copies r to d.
fn copy(d: u16, r: u16) -> u16 {
    two(0x2C00, d, r)
}

/// or: joins r to d. It leaves C alone.
fn join(d: u16, r: u16) -> u16 {
    two(0x2800, d, r)
}

/// eor of a register with itself, which clears it.
fn clear(d: u16) -> u16 {
    two(0x2400, d, d)
}

/// How far a word leads, from the next one on, as its last bits have it.
fn distance(at: u16, target: u16) -> u16 {
    target.wrapping_sub(at).wrapping_sub(1)
}

/// brcs to a target at most 64 words away.
fn branch(at: u16, target: u16) -> u16 {
    0xF000 | (distance(at, target) % 0x80 * 8)
}

/// rjmp to a target.
fn jump(at: u16, target: u16) -> u16 {
    0xC000 | (distance(at, target) % 0x1000)
}

/// rcall of a target.
fn call(at: u16, target: u16) -> u16 {
    0xD000 | (distance(at, target) % 0x1000)
}

/// Two registers for the word at an address: others for each of the next 32 words.
fn registers(at: u16) -> (u16, u16) {
    let at = at % 0x400;
    (at * 7, at * 13 / 3)
}

/// A word that joins one register to another.
fn spread(at: u16) -> u16 {
    let (d, r) = registers(at);
    join(d, r)
}

/// The last three words of a loop that begins at an address, and of its routine: a branch past the jump back, that jump, and a ret.
fn closing(at: u16, head: u16, left: u16) -> u16 {
    match left {
        3 => branch(at, at.saturating_add(2)),
        2 => jump(at, head),
        _ => RET,
    }
}

/// The word in a block of loops.
fn looping(at: u16) -> u16 {
    let place = at % BLOCK;
    if place < BLOCK / 2 {
        let (d, r) = registers(at);
        copy(d, r)
    } else {
        // The later the branch, the earlier its target.
        branch(at, at - place + (BLOCK - 1 - place))
    }
}

/// The word of a routine that is laid out backward.
fn backward(at: u16, len: u16) -> u16 {
    match at {
        0 => jump(at, len.saturating_sub(2)),
        1 => RET,
        2 => branch(at, 1),
        3 => jump(at, 0),
        _ if at % 2 == 0 => spread(at),
        _ => jump(at, at.saturating_sub(3)),
    }
}

/// A word of a function of many returns: one that joins registers, a branch past a ret, or the ret.
fn returning(at: u16, place: u16) -> u16 {
    match place {
        0 => spread(at),
        1 => branch(at, at.saturating_add(2)),
        _ => RET,
    }
}

/// The word in a function of `Shape::Nested`.
fn nesting(at: u16) -> u16 {
    match at % 3 {
        0 => spread(at),
        1 => call(at, at.saturating_add(2)),
        _ => RET,
    }
}

/// The word in the loop of that number: levels come in by the last register, and leave by the first.
fn rotating(at: u16, turn: u16) -> u16 {
    match at % TURN {
        0 => copy(LAST, if turn == 0 { 0 } else { FIRST }),
        1 => join(LAST, turn),
        place if place < HEAD => clear(FIRST + (place - 2)),
        place if place + 1 < TURN => {
            let d = FIRST + (place - HEAD);
            copy(d, d + 1)
        }
        _ => branch(at, at.saturating_sub(TURN - 1 - HEAD)),
    }
}

/// The word of loops that rotate levels, up to an end: as many loops as half of that has room for. The last one has all the rest, which
/// is of one word.
fn rotation(at: u16, end: u16, rest: u16) -> u16 {
    let loops = (end / 2 / TURN).clamp(1, FIRST);
    let last = (loops - 1) * TURN;
    let left = end.saturating_sub(at);
    if left <= 3 {
        closing(at, last + HEAD, left)
    } else if at < last + TURN - 1 {
        rotating(at, at / TURN)
    } else {
        rest
    }
}

/// The word at an address of a routine of `len` words.
pub(crate) fn word(shape: Shape, at: u16, len: u16) -> u16 {
    let half = len / 2;
    let left = len.saturating_sub(at);
    match shape {
        Shape::Backward => backward(at, len),
        Shape::Rotations => rotation(at, len, NOP),
        Shape::RotatedCalls if at < half => rotation(at, half, call(at, half)),
        Shape::Loops if left <= 3 => closing(at, 0, left),
        _ if left <= 1 => RET,
        Shape::Straight => NOP,
        Shape::Branches => BRANCH,
        Shape::Returns if at.saturating_add(1) < half => call(at, half),
        Shape::Returns => RET,
        Shape::Spreads => spread(at),
        Shape::Forks if at % 2 == 0 => spread(at),
        Shape::Forks => branch(at, at + 1 + (at % REGISTERS).min(left - 2)),
        Shape::Loops => looping(at),
        Shape::Calls | Shape::RotatedCalls if left <= 2 => RET,
        Shape::Calls if at.saturating_add(1) < half => call(at, half),
        Shape::Calls if at < half => RET,
        Shape::Calls => returning(at, (at - half) % 3),
        Shape::RotatedCalls => returning(at, 1 + (at - half) % 2),
        Shape::Nested if left <= 3 => RET,
        Shape::Nested => nesting(at),
    }
}

/// The function of a row: 0, or that of calls and returns.
pub(crate) fn function(shape: Shape, row: u16, len: u16) -> u16 {
    match shape {
        Shape::Returns | Shape::Calls | Shape::RotatedCalls if row >= len / 2 && row < len => len
            / 2,
        Shape::Nested if row < len => row - row % 3,
        _ => 0,
    }
}
