//! The registers of a node of a script.
ghost use Rattle.std.specs.Prelude.{◌≡◌};
ghost use Rattle.script_told.specs.Bus.{first_bank, values_after};

use resource_manager::Registers;
use std::marker::Model;

/// The registers of a node, and its count of resets when they were last used.
#[derive(Clone, Copy)]
pub(crate) struct Bank {
    resets: u32,
    registers: Registers,
}

impl Model for Bank {
    ghost use Rattle.script_told.specs.Bus.{Bank};

    ghost Value = { Bank };

    ghost view = { λ b. record { resets = b.resets; values = b.registers } };

    ghost inverse = { λ v. record { resets = v.resets; registers = v.values } };
}

impl Bank {
    /// Registers that were never used.
    pub fn new() -> Bank
        ensures { result ≡ first_bank }
    {
        Bank {
            resets: 0,
            registers: Registers::new(),
        }
    }

    /// These registers, used when their node counts so many resets.
    pub fn used(resets: u32, registers: Registers) -> Bank
        ensures { result ≡ record { resets = resets; values = registers } }
    {
        Bank { resets, registers }
    }

    /// The registers when their node counts so many resets, each of which restores the initial
    /// values.
    pub fn after(&self, resets: u32) -> Registers
        ensures { result ≡ values_after resets self.now }
    {
        if self.resets == resets {
            self.registers
        } else {
            Registers::new()
        }
    }
}
