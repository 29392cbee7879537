//! Quotes of tokens.
ghost use Rattle.std.specs.Prelude.{◌≡◌};
ghost use Rattle.routine.specs.Quotes.{quote_of, quoted, is_cut};

use std::fmt;

/// How many bytes of a token are quoted at most.
const QUOTE_LENGTH: usize = 32;

/// The first bytes of a token, and how many bytes the token has.
#[derive(Clone, Copy, Debug)]
pub struct Quote {
    /// Zeros where the token is shorter.
    bytes: [u8; QUOTE_LENGTH],
    length: usize,
}

impl Quote {
    /// The quote of a token.
    pub(crate) fn new(token: &[u8]) -> Quote
        ensures { result ≡ quote_of token.now }
    {
        let mut bytes = [0; QUOTE_LENGTH];
        let count = QUOTE_LENGTH.min(token.len());
        bytes[..count].copy_from_slice(&token[..count]);
        Quote {
            bytes,
            length: token.len(),
        }
    }

    /// The bytes that are quoted.
    fn quoted(&self) -> &[u8]
        ensures { result.now ≡ quoted self.now }
    {
        let count = self.length.min(QUOTE_LENGTH);
        &self.bytes[..count]
    }

    /// Whether the token has more bytes than are quoted.
    fn is_cut(&self) -> bool
        ensures { result ≡ is_cut self.now }
    {
        self.length > QUOTE_LENGTH
    }
}

impl fmt::Display for Quote {
    /// Shows the bytes between backticks, and dots behind them where the token goes on. What is no printable ASCII is escaped, so that a
    /// quote stays on its line.
    fn fmt<W: fmt::Write>(&self, f: &mut fmt::Formatter<W>) -> fmt::Result {
        write!(f, "`{}`", self.quoted().escape_ascii())?;
        if self.is_cut() {
            f.write_str("...")?;
        }
        Ok(())
    }
}
