//! The orders, and the levels of the first row under each.
use std::fmt;

/// An order, with levels for the registers.
#[derive(Clone, Copy)]
pub(crate) enum Setting {
    /// A chain of 2: every other register is secret.
    Short,
    /// A chain of 256: each register has a level of its own, and earlier ones lie above later ones.
    Long,
    /// 16 compartments: each register is in one of them.
    Sets,
}

impl Setting {
    /// The level of a register in the first row.
    pub(crate) fn level(self, register: u8) -> u16 {
        match self {
            Setting::Short => u16::from(register % 2),
            Setting::Long => 255 - 8 * u16::from(register % 32),
            Setting::Sets => 1 << (register % 16),
        }
    }
}

// By hand: the kit derives texts for errors only.
impl fmt::Display for Setting {
    fn fmt<W: fmt::Write>(&self, f: &mut fmt::Formatter<W>) -> fmt::Result {
        f.write_str(match self {
            Setting::Short => "chain of 2",
            Setting::Long => "chain of 256",
            Setting::Sets => "16 compartments",
        })
    }
}
