// Step code.

ghost use Rattle.std.specs.Prelude.{◌≡◌, ◌<◌, ◌-◌, ◌^◌};
ghost use Rattle.std.specs.List.{sum_by};
ghost use Rattle.lt_base.specs.Sizes.{cut};
ghost use Rattle.lt_step.specs.Size.{let_size};
ghost use Rattle.lt_step.specs.Operand.{expression};
ghost use Rattle.lt_step.specs.Code.{GoodCode};

use crate::operand::Operand;
use crate::size::lets_size;
use lt_base::{Clock, List, Value};
use std::marker::Model;

/// Puts an operand's value into a slot where the guard is present, and an absence where it is not. The guard's numbers are slots.
#[derive(Drop)]
pub struct Let {
    pub slot: u32,
    pub guard: Clock,
    pub operand: Operand,
}

// Contracts see the operand without pointers.
impl Model for Let {
    ghost use Rattle.lt_step.specs.Operand.{expression};
    ghost use Rattle.lt_step.specs.Code.{LetForm, coded_let};

    ghost Value = { LetForm };

    ghost coded = { coded_let };

    ghost view = { λ l. record { slot = l.slot; guard = l.guard; operand = expression l.operand } };
}

/// Puts an operand's value into a slot for the next instant where the guard is present. The slot holds `first` before the
/// first instant.
#[derive(Drop)]
pub struct Keep {
    pub slot: u32,
    pub guard: Clock,
    pub operand: Operand,
    pub first: Value,
}

impl Model for Keep {
    ghost use Rattle.lt_step.specs.Operand.{expression};
    ghost use Rattle.lt_step.specs.Code.{KeepForm, coded_keep};

    ghost Value = { KeepForm };

    ghost coded = { coded_keep };

    ghost view = { λ k. record { slot = k.slot; guard = k.guard; operand = expression k.operand; first = k.first } };
}

/// What one step does. The inputs are in the first slots; the lets are taken in order, then the outputs are read, and then the
/// keeps are taken in order.
#[derive(Drop)]
pub struct Code {
    pub lets: List<Let>,
    pub keeps: List<Keep>,
    /// The slots of the outputs.
    pub outs: List<u32>,
    /// The number of slots.
    pub slots: u32,
    /// The number of slot reads and writes that one step can make.
    pub size: u64,
}

impl Model for Code {
    ghost use Rattle.lt_step.specs.Code.{StepCode, coded_code, GoodCode};

    ghost Value = { StepCode };

    ghost coded = { coded_code };

    ghost view = { λ c. record { lets = c.lets; keeps = c.keeps; outs = c.outs; slots = c.slots; size = c.size } };

    ghost invariant = { λ c. GoodCode (record { lets = c.lets; keeps = c.keeps; outs = c.outs; slots = c.slots; size = c.size }) };
}

impl Code {
    pub(crate) fn new(
        lets: List<Let>,
        keeps: List<Keep>,
        outs: List<u32>,
        slots: u32,
        size: u64,
    ) -> Code
        requires { GoodCode (record { lets = lets; keeps = keeps; outs = outs; slots = slots; size = size }) }
        ensures { result ≡ record { lets = lets; keeps = keeps; outs = outs; slots = slots; size = size } }
    {
        Code {
            lets,
            keeps,
            outs,
            slots,
            size,
        }
    }

    /// The number of slot reads and writes that the lets can make, cut at the greatest number.
    pub fn lets_size(&self) -> u64
        ensures { result ≡ cut (sum_by let_size self.now.lets) }
    {
        lets_size(&self.lets)
    }

    /// What the type keeps, for callers.
    pub fn invariant_holds(&self)
        ensures good { GoodCode self.now }
        ensures numbers { self.now.slots < 2 ^ 32 }
    {
        let _slots = self.slots;
    }
}
