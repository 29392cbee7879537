//! Numbers: decimal digits, or hexadecimal digits after `0x`.
ghost use Rattle.std.specs.Prelude.{◌≡◌, ◌+◌, ◌*◌, Some};
ghost use Rattle.std.specs.Option.{option_map};
ghost use Rattle.std.specs.Str.Parse.{digits_value};
ghost use Rattle.std.specs.Char.{digit_value};
ghost use Rattle.text.specs.Kinds.{radix, is_digit_of};
ghost use Rattle.text.specs.Numbers.{numeral, hex_digits, number_of, limited};

use crate::bytes::cut;

/// The base that a number is written in.
#[derive(Clone, Copy)]
pub enum Base {
    Decimal = 10,
    Hexadecimal = 16,
}

impl Base {
    /// How many digits the base has.
    fn radix(self) -> u32
        ensures { result ≡ radix self }
    {
        self as u32
    }

    /// Whether a byte is a digit of the base.
    fn has(self, byte: u8) -> bool
        ensures { result ≡ is_digit_of self byte }
    {
        char::from(byte).is_digit(self.radix())
    }
}

/// Why a token is not taken as a number.
#[derive(Clone, Copy, Debug, PartialEq, Eq)]
pub enum NumberFault {
    /// It does not write a number.
    NoNumber,
    /// Its number is above what the caller allows.
    TooLarge,
}

/// The number that a token writes, if it is at most `most`.
pub fn number(token: &[u8], most: u32) -> Result<u32, NumberFault>
    ensures { result ≡ limited most (number_of token.now) }
{
    match after_prefix(token) {
        Some(digits) => read(digits, Base::Hexadecimal, most),
        None => read(token, Base::Decimal, most),
    }
}

/// What follows `0x` or `0X`, if a token begins so.
fn after_prefix(token: &[u8]) -> Option<&[u8]>
    ensures { option_map (λ x. x.now) result ≡ hex_digits token.now }
{
    match token {
        [b'0', b'x' | b'X', digits @ ..] => Some(digits),
        _ => None,
    }
}

/// The number that digits of a base write, if it is at most `most`.
fn read(digits: &[u8], base: Base, most: u32) -> Result<u32, NumberFault>
    ensures { result ≡ limited most (numeral base digits.now) }
{
    let (_, rest) = cut(digits, |byte| base.has(byte));
    if digits.is_empty() || !rest.is_empty() {
        return Err(NumberFault::NoNumber);
    }
    weigh(digits, base, most)
}

/// The sum of the digits, each weighed by its place, if it is at most `most`.
fn weigh(digits: &[u8], base: Base, most: u32) -> Result<u32, NumberFault>
    ensures { result ≡ limited most (Some (digits_value (radix base) digits.now)) }
{
    let mut sum = 0u32;
    for digit in digits {
        let more = appended(sum, base, *digit);
        if more > u64::from(most) {
            return Err(NumberFault::TooLarge);
        }
        sum = more as u32;
    }
    Ok(sum)
}

/// The number that one more digit makes of a number.
fn appended(number: u32, base: Base, digit: u8) -> u64
    ensures { result ≡ number * radix base + digit_value digit }
{
    // 36 for what is no digit in any base, as the definition has it.
    let value = char::from(digit).to_digit(36).unwrap_or(36);
    u64::from(number) * u64::from(base.radix()) + u64::from(value)
}
