//! The sizes of numbers.
ghost use Rattle.std.specs.Prelude.{◌≡◌, ℕ, ◌≤◌};

/// A number of so many bits.
pub(crate) trait Number: Copy {
    ghost MOST: { ℕ };

    ghost value: { Self → ℕ };

    /// The largest.
    const MOST: u32;

    /// A number that is not larger.
    fn from_number(number: u32) -> Self
        requires { number ≤ MOST }
        ensures { value result ≡ number };
}

impl Number for u8 {
    ghost MOST = { 0xFF };

    ghost value = { λ n. n };

    const MOST: u32 = 0xFF;

    fn from_number(number: u32) -> u8 {
        number as u8
    }
}

impl Number for u16 {
    ghost MOST = { 0xFFFF };

    ghost value = { λ n. n };

    const MOST: u32 = 0xFFFF;

    fn from_number(number: u32) -> u16 {
        number as u16
    }
}

impl Number for u32 {
    ghost MOST = { 0xFFFFFFFF };

    ghost value = { λ n. n };

    const MOST: u32 = 0xFFFFFFFF;

    fn from_number(number: u32) -> u32 {
        number
    }
}
