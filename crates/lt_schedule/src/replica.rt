// What takes the events of a schedule.
ghost use Rattle.std.specs.Prelude.{◌≡◌, ◌<◌, ◌-◌, ◌^◌, ℕ, List, length, Err};
ghost use Rattle.lt_rows.specs.declared.fault.RowFault.TheVariants.{NotCsv};
ghost use Rattle.lt_schedule.specs.Rules.{Rules};
ghost use Rattle.lt_schedule.specs.Taken.{JudgesLine, StopCounted, IsMemoryStop};

use crate::Stop;
use lt_base::Steps;
use std::sync::ledger::Ledger;

/// Stands for the state to which a list of events leads, and takes the events of a schedule one after another. `W` is the
/// outside on which it acts.
pub trait Replica<W>: Drop {
    type Event;

    type Offence;

    /// What lines read as, and how events are judged.
    ghost rules: { Self → Rules Self.Event Self.Offence };

    /// With its outside, and after so many steps, it stands for the state to which these events lead.
    ghost stands: { Self → W → (steps : ℕ) → List Self.Event → Type 0 };

    /// What no call changes, from a replica and its outside to later ones.
    ghost keeps: { Self → W → Self → W → Type 0 };

    /// The outside's count of faults.
    ghost faults: { W → ℕ };

    /// The outside never wants memory.
    ghost prompt: { W → Type 0 };

    /// Takes the event of a row's line, where the line reads as an event that has no offence.
    fn take_line<L: Ledger>(
        &mut self,
        line: &[u8],
        outside: &mut W,
        steps: &mut Steps<L>,
    ) -> Result<(), Stop<Self::Offence>>
        requires count { faults outside.old < 2 ^ 64 - 1 }
        requires stands { (before : List Self.Event) × stands self.old outside.old steps.old before }
        ensures cause { StopCounted (faults outside.old) (faults outside.new) result }
        ensures prompt { prompt outside.old → ¬ IsMemoryStop result }
        ensures keeps { keeps self.old outside.old self.new outside.new }
        ensures takes { (before : List Self.Event) → stands self.old outside.old steps.old before
            → JudgesLine (rules self.old) line.now (stands self.new outside.new steps.new) before result };

    /// The offence of a list that stops here.
    fn missing(&self) -> Option<Self::Offence>
        ensures { (outside : W) (steps : ℕ) (before : List Self.Event) → stands self.now outside steps before → result ≡ (rules self.now).missing before };

    /// A line that is too long reads as no event.
    ghost long: { (r : Self) (line : List ℕ) → 4096 < length line → (rules r).reads line ≡ Err NotCsv };

    ghost keeps_same: { (r : Self) (w : W) → keeps r w r w };

    ghost keeps_on: { (a : Self) (u : W) (b : Self) (v : W) (c : Self) (w : W) → keeps a u b v → keeps b v c w → keeps a u c w };

    ghost keeps_rules: { (a : Self) (v : W) (b : Self) (w : W) → keeps a v b w → rules b ≡ rules a };

    ghost keeps_prompt: { (a : Self) (v : W) (b : Self) (w : W) → keeps a v b w → prompt v → prompt w };
}
