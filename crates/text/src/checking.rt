//! Whether bytes can be a routine file at all.
ghost use Rattle.std.specs.Prelude.{◌≡◌, ◌≤◌, length, count_by};
ghost use Rattle.text.specs.Bytes.{newline};
ghost use Rattle.text.specs.Refusals.{checked};

use crate::bytes::{cut, is_allowed};

/// A byte that cannot stand in a routine file, and the line that it stands on, counted from 1.
#[derive(Clone, Copy, Debug, PartialEq, Eq)]
pub struct BadByte {
    pub line: usize,
    pub byte: u8,
}

/// Refuses the first byte that cannot stand in a routine file.
pub fn is_text(bytes: &[u8]) -> Result<(), BadByte>
    ensures { result ≡ checked bytes.now }
{
    let (front, rest) = cut(bytes, is_allowed);
    match rest.first() {
        Some(byte) => Err(BadByte {
            line: 1 + newlines(front),
            byte: *byte,
        }),
        None => Ok(()),
    }
}

/// How many newlines there are.
fn newlines(bytes: &[u8]) -> usize
    ensures value { result ≡ count_by newline bytes.now }
    ensures within { result ≤ length bytes.now }
{
    bytes.iter().filter(|byte| **byte == b'\n').count()
}
