//! Pointers: the pairs of registers that loads and stores go by.
ghost use Rattle.std.specs.Prelude.{◌≡◌, ℕ, ◌<◌};
ghost use Rattle.avr.specs.Effects.{pointer_pair, base_pair};

use words::instruction::{Base, Mode};

/// What names a pointer.
// `Mode::written_back` of words has these numbers too, of the modes that write back: none stands for X.
pub trait Pointer {
    ghost pair: { Self → ℕ };

    /// The low register of the pointer.
    fn pointer(self) -> u8
        ensures value { result ≡ pair self }
        ensures small { result < 31 };
}

impl Pointer for Mode {
    ghost pair = { pointer_pair };

    fn pointer(self) -> u8 {
        match self {
            Mode::X | Mode::XInc | Mode::XDec => 26,
            Mode::YInc | Mode::YDec => 28,
            Mode::ZInc | Mode::ZDec => 30,
        }
    }
}

impl Pointer for Base {
    ghost pair = { base_pair };

    fn pointer(self) -> u8 {
        match self {
            Base::Y => 28,
            Base::Z => 30,
        }
    }
}
