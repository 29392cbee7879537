//! What the program prints of cycles and next addresses.
use std::fmt;
use words::instruction::Instruction;
use words::route::Route;

/// The cycles of an instruction that leads on by a route: two numbers where it may divert.
#[derive(Clone, Copy)]
pub struct Cycles {
    pub instruction: Instruction,
    pub route: Route,
}

impl fmt::Display for Cycles {
    fn fmt<W: fmt::Write>(&self, f: &mut fmt::Formatter<W>) -> fmt::Result {
        let on = self.instruction.cycles(false);
        let diverted = self.instruction.cycles(true);
        match self.route {
            Route::To(_) => write!(f, "cycles {on}"),
            Route::Fork(_, _) => write!(f, "cycles {on} or {diverted}"),
            Route::Jump(_) | Route::Call(_) | Route::Return => write!(f, "cycles {diverted}"),
        }
    }
}

/// An address of a listing of `len` words, or one outside it.
#[derive(Clone, Copy)]
struct Address {
    at: u32,
    len: u16,
}

impl fmt::Display for Address {
    fn fmt<W: fmt::Write>(&self, f: &mut fmt::Formatter<W>) -> fmt::Result {
        let at = self.at;
        if at < u32::from(self.len) {
            write!(f, "{at}")
        } else {
            f.write_str("outside")
        }
    }
}

/// The addresses that are next after the one at `at`, in a listing of `len` words.
#[derive(Clone, Copy)]
pub struct Next {
    pub at: u16,
    pub route: Route,
    pub len: u16,
}

impl Next {
    /// An address of the same listing.
    fn address(self, at: u32) -> Address {
        Address { at, len: self.len }
    }
}

impl fmt::Display for Next {
    fn fmt<W: fmt::Write>(&self, f: &mut fmt::Formatter<W>) -> fmt::Result {
        match self.route {
            Route::To(to) | Route::Jump(to) => {
                let to = self.address(to);
                write!(f, "next {to}")
            }
            Route::Fork(on, aside) => {
                let on = self.address(on);
                let aside = self.address(aside);
                write!(f, "next {on} or {aside}")
            }
            Route::Call(into) => {
                let into = self.address(into);
                let back = self.address(u32::from(self.at) + 1);
                write!(f, "next {into}, back to {back}")
            }
            Route::Return => f.write_str("next return"),
        }
    }
}
