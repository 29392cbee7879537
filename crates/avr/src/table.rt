//! The table of sources: the places that an instruction writes, and the places that each new value is made from.
ghost use Rattle.std.specs.Prelude.{◌≡◌, ◌+◌, [], ◌∷◌};
ghost use Rattle.std.specs.Option.{option_map, option_to_list};
ghost use Rattle.avr.specs.Table.{row, lookup, unlike as unlike_of, flags_only, binary_rows, unary_rows, pair_rows, back_rows, load_row, store_row, origins_of, places_of, written_of, deciders_of};
ghost use Rattle.avr.specs.Lists.{list_of};
ghost use Rattle.avr.specs.Exact.{TableExact};

use crate::pointer::Pointer;
use crate::sources::Sources;
use crate::sources::listing::listed;
use alu::arithmetic::counterpart;
use words::instruction::{BinaryOp, Flag, Instruction, Mode, UnaryOp};

// A place has the number of its column in a row.
/// The place of the carry flag; the registers are the places below 32.
pub const CARRY: u16 = 32;
/// The place of the zero flag.
pub const ZERO: u16 = 33;
/// The place of the whole memory.
pub const MEMORY: u16 = 34;

/// What sub and eor make their result from: both operands, but nothing where the second is the register d itself, since then the
/// result is 0.
fn unlike(d: u16, second: Option<u8>) -> Sources
    ensures { list_of result ≡ unlike_of d (option_to_list second) }
{
    if second.map(u16::from) == Some(d) {
        Sources::none()
    } else {
        listed(&[d], second)
    }
}

/// What a place comes from in an operation on the register d and on a second register, or on a constant.
fn binary(op: BinaryOp, d: u8, second: Option<u8>, place: u16) -> Option<Sources>
    ensures { option_map list_of result ≡ lookup place (binary_rows op d (option_to_list second)) }
{
    let d = u16::from(d);
    let flag = place == CARRY || place == ZERO;
    match op {
        BinaryOp::Add if place == d || flag => Some(listed(&[d], second)),
        BinaryOp::Sub if place == d || flag => Some(unlike(d, second)),
        BinaryOp::Cp if flag => Some(listed(&[d], second)),
        BinaryOp::Mul if place == 0 || place == 1 || flag => Some(listed(&[d], second)),
        BinaryOp::And | BinaryOp::Or if place == d || place == ZERO => Some(listed(&[d], second)),
        BinaryOp::Eor if place == d || place == ZERO => Some(unlike(d, second)),
        BinaryOp::Adc if place == d || flag => Some(listed(&[d, CARRY], second)),
        BinaryOp::Sbc if place == d || place == CARRY => Some(listed(&[d, CARRY], second)),
        BinaryOp::Cpc if place == CARRY => Some(listed(&[d, CARRY], second)),
        BinaryOp::Sbc | BinaryOp::Cpc if place == ZERO => Some(listed(&[d, CARRY, ZERO], second)),
        BinaryOp::Mov if place == d => Some(listed(&[], second)),
        _ => None,
    }
}

/// What a place comes from in an operation on one register.
fn unary(op: UnaryOp, d: u8, place: u16) -> Option<Sources>
    ensures { option_map list_of result ≡ lookup place (unary_rows op d) }
{
    let d = u16::from(d);
    let flag = place == CARRY || place == ZERO;
    match op {
        UnaryOp::Neg | UnaryOp::Lsr if place == d || flag => Some(listed(&[d], None)),
        UnaryOp::Ror if place == d || flag => Some(listed(&[d, CARRY], None)),
        UnaryOp::Inc | UnaryOp::Dec if place == d || place == ZERO => Some(listed(&[d], None)),
        _ => None,
    }
}

/// What a place comes from where the pair at d is written from its own two bytes.
fn pair(d: u8, place: u16) -> Option<Sources>
    ensures { option_map list_of result ≡ lookup place (pair_rows d) }
{
    let d = u16::from(d);
    (place == d || place == d + 1).then(|| listed(&[d, d + 1], None))
}

/// What a place comes from where a mode writes its pointer back.
fn write_back(mode: Mode, place: u16) -> Option<Sources>
    ensures { option_map list_of result ≡ lookup place (back_rows mode) }
{
    pair(mode.written_back()?, place)
}

/// What a place comes from where the pair at d and the flags are written from the pair.
fn wide(d: u8, place: u16) -> Option<Sources>
    ensures { option_map list_of result ≡ lookup place (row d (d ∷ ((d + 1) ∷ [])) ∷ (row (d + 1) (d ∷ ((d + 1) ∷ [])) ∷ flags_only (d ∷ ((d + 1) ∷ [])))) }
{
    let d = u16::from(d);
    let written = place == d || place == d + 1 || place == CARRY || place == ZERO;
    written.then(|| listed(&[d, d + 1], None))
}

/// What the register d comes from where it is loaded by the pointer at `pointer`, if that is the place.
fn loaded(d: u8, pointer: u8, place: u16) -> Option<Sources>
    ensures { option_map list_of result ≡ lookup place (load_row d pointer ∷ []) }
{
    let pointer = u16::from(pointer);
    (place == u16::from(d)).then(|| listed(&[MEMORY, pointer, pointer + 1], None))
}

/// What the memory comes from where the register r is stored by the pointer at `pointer`, if that is the place.
fn stored(r: u8, pointer: u8, place: u16) -> Option<Sources>
    ensures { option_map list_of result ≡ lookup place (store_row r pointer ∷ []) }
{
    let pointer = u16::from(pointer);
    (place == MEMORY).then(|| listed(&[MEMORY, pointer, pointer + 1], Some(r)))
}

/// What a place comes from in a copy of one pair to another.
fn copied(d: u8, r: u8, place: u16) -> Option<Sources>
    ensures { option_map list_of result ≡ lookup place (row d (r ∷ []) ∷ (row (d + 1) ((r + 1) ∷ []) ∷ [])) }
{
    let (d, r) = (u16::from(d), u16::from(r));
    if place == d {
        Some(listed(&[r], None))
    } else {
        (place == d + 1).then(|| listed(&[r + 1], None))
    }
}

/// What a place comes from in an instruction.
fn entry(instruction: Instruction, place: u16) -> Option<Sources>
    ensures { option_map list_of result ≡ origins_of instruction place }
{
    match instruction {
        Instruction::Binary { op, d, r } => binary(op, d, Some(r), place),
        Instruction::Immediate { op, d, .. } => binary(counterpart(op), d, None, place),
        Instruction::Wide { d, .. } => wide(d, place),
        Instruction::Movw { d, r } => copied(d, r, place),
        Instruction::Unary { op, d } => unary(op, d, place),
        Instruction::Load { mode, d } => loaded(d, mode.pointer(), place).or(write_back(
            mode, place,
        )),
        Instruction::Store { mode, r } => stored(r, mode.pointer(), place).or(write_back(
            mode, place,
        )),
        Instruction::LoadDisplaced { base, d, .. } => loaded(d, base.pointer(), place),
        Instruction::StoreDisplaced { base, r, .. } => stored(r, base.pointer(), place),
        Instruction::Clc if place == CARRY => Some(Sources::none()),
        _ => None,
    }
}

/// What a place comes from where an instruction writes it; none where it does not. The table is exact: of whatever a word
/// decodes to, a written place holds afterwards what is a function of the places it comes from, every other place keeps what
/// it holds, and which way the instruction goes is a function of its deciding places.
#[tactic(auto, using(crate::proofs::Sounds::exact))]
pub fn comes_from(instruction: Instruction, place: u16) -> Option<Sources>
    ensures sources { option_map list_of result ≡ origins_of instruction place }
    ensures exact { TableExact }
{
    entry(instruction, place)
}

/// The places that an operation on the register d writes.
fn written_by(op: BinaryOp, d: u8) -> Sources
    ensures { list_of result ≡ places_of (binary_rows op d []) }
{
    let d = u16::from(d);
    match op {
        BinaryOp::Add | BinaryOp::Sub | BinaryOp::Adc | BinaryOp::Sbc => listed(
            &[d, CARRY, ZERO],
            None,
        ),
        BinaryOp::Cp | BinaryOp::Cpc => listed(&[CARRY, ZERO], None),
        BinaryOp::And | BinaryOp::Eor | BinaryOp::Or => listed(&[d, ZERO], None),
        BinaryOp::Mul => listed(&[0, 1, CARRY], Some(ZERO as u8)),
        BinaryOp::Mov => listed(&[d], None),
        BinaryOp::Cpse => Sources::none(),
    }
}

/// A place, and the pair that a mode writes back.
fn with_pointer(place: u16, mode: Mode) -> Sources
    ensures { list_of result ≡ place ∷ places_of (back_rows mode) }
{
    match mode.written_back() {
        None => listed(&[place], None),
        Some(pointer) => listed(&[place, u16::from(pointer), u16::from(pointer) + 1], None),
    }
}

/// The places that an instruction writes: those of its rows in the table.
pub fn written(instruction: Instruction) -> Sources
    ensures { list_of result ≡ written_of instruction }
{
    match instruction {
        Instruction::Binary { op, d, .. } => written_by(op, d),
        Instruction::Immediate { op, d, .. } => written_by(counterpart(op), d),
        Instruction::Wide { d, .. } => listed(
            &[u16::from(d), u16::from(d) + 1, CARRY],
            Some(ZERO as u8),
        ),
        Instruction::Movw { d, .. } => listed(&[u16::from(d), u16::from(d) + 1], None),
        Instruction::Unary {
            op: UnaryOp::Inc | UnaryOp::Dec,
            d,
        } => listed(&[u16::from(d), ZERO], None),
        Instruction::Unary { d, .. } => listed(&[u16::from(d), CARRY, ZERO], None),
        Instruction::Load { mode, d } => with_pointer(u16::from(d), mode),
        Instruction::Store { mode, .. } => with_pointer(MEMORY, mode),
        Instruction::LoadDisplaced { d, .. } => listed(&[u16::from(d)], None),
        Instruction::StoreDisplaced { .. } => listed(&[MEMORY], None),
        Instruction::Clc => listed(&[CARRY], None),
        Instruction::Nop
        | Instruction::Ret
        | Instruction::Rjmp { .. }
        | Instruction::Rcall { .. }
        | Instruction::Branch { .. } => Sources::none(),
    }
}

/// The places that decide which way an instruction goes: none, unless it forks.
pub fn deciders(instruction: Instruction) -> Sources
    ensures { list_of result ≡ deciders_of instruction }
{
    match instruction {
        Instruction::Binary {
            op: BinaryOp::Cpse,
            d,
            r,
        } => listed(&[u16::from(d), u16::from(r)], None),
        Instruction::Branch {
            flag: Flag::Carry,
            ..
        } => listed(&[CARRY], None),
        Instruction::Branch {
            flag: Flag::Zero,
            ..
        } => listed(&[ZERO], None),
        _ => Sources::none(),
    }
}
