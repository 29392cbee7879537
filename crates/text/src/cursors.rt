//! Cursors over the lines of a file and over the tokens of a line.
ghost use Rattle.std.specs.Prelude.{◌≡◌, drop};
ghost use Rattle.std.specs.Iterator.{item_count};
ghost use Rattle.std.specs.Option.{option_map};
ghost use Rattle.text.specs.Lines.{file_left, lines_left, GivesLine};
ghost use Rattle.text.specs.Tokens.{tokens_left, GivesToken};
ghost use Rattle.text.specs.Refusals.{assigned};

use crate::bytes::{cut, is_blank, is_solid};

/// The lines of a file that are still to come.
#[derive(Clone, Copy)]
pub struct Lines<'a> {
    rest: &'a [u8],
}

/// The tokens of a line that are still to come.
#[derive(Clone, Copy)]
pub struct Line<'a> {
    rest: &'a [u8],
}

impl<'a> Lines<'a> {
    /// All lines of a file.
    pub fn new(bytes: &'a [u8]) -> Lines<'a>
        ensures { file_left result ≡ bytes.now }
    {
        Lines { rest: bytes }
    }
}

impl<'a> Iterator for Lines<'a> {
    type Item = Line<'a>;

    ghost next_gives = { GivesLine };

    ghost remaining = { item_count lines_left };

    /// The next line, or `None` at the end of the file.
    fn next(&mut self) -> Option<Line<'a>> {
        if self.rest.is_empty() {
            return None;
        }
        let (line, rest) = cut(self.rest, |byte| byte != b'\n');
        self.rest = past_first(rest);
        Some(Line { rest: line })
    }
}

impl<'a> Iterator for Line<'a> {
    type Item = &'a [u8];

    ghost next_gives = { GivesToken };

    ghost remaining = { item_count tokens_left };

    /// The next token, or `None` where only blanks and perhaps a comment are left.
    fn next(&mut self) -> Option<&'a [u8]> {
        let (_, bytes) = cut(self.rest, is_blank);
        let (token, rest) = cut(bytes, is_solid);
        self.rest = rest;
        if token.is_empty() { None } else { Some(token) }
    }
}

/// What a token holds before its first `=` and behind it, or `None` where it has no `=`.
pub fn assignment(token: &[u8]) -> Option<(&[u8], &[u8])>
    ensures { option_map (λ p. (p.0.now, p.1.now)) result ≡ assigned token.now }
{
    let (name, rest) = cut(token, |byte| byte != b'=');
    let (_, value) = rest.split_first()?;
    Some((name, value))
}

/// All bytes but the first, if there is one.
fn past_first(bytes: &[u8]) -> &[u8]
    ensures { result.now ≡ drop 1 bytes.now }
{
    match bytes {
        [_, rest @ ..] => rest,
        [] => bytes,
    }
}
