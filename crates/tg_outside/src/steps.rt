ghost use Rattle.std.specs.Prelude.{◌≡◌, ◌+◌, ◌-◌, ◌^◌, min};

use crate::trace::{Trace, blank, note};
use std::marker::Model;

/// What hears of each step.
pub trait StepLedger {
    /// Notes one step.
    fn mark(&mut self);
}

/// A ledger that marks nothing.
#[derive(Clone, Copy, Debug)]
pub struct Silent;

impl StepLedger for Silent {
    fn mark(&mut self) {}
}

/// A ledger that counts its marks, and stays at the greatest number.
#[derive(Debug, Drop)]
pub struct Tally {
    marks: u64,
}

impl Model for Tally {
    ghost use Rattle.std.specs.Prelude.{ℕ};

    ghost Value = { ℕ };

    ghost view = { λ it. it.marks };
}

impl Tally {
    /// No mark yet.
    pub fn new() -> Tally
        ensures { result ≡ 0 }
    {
        Tally { marks: 0 }
    }

    /// How many marks there were; it stays at the greatest number.
    pub fn marks(&self) -> u64
        ensures { result ≡ self.now }
    {
        self.marks
    }
}

impl StepLedger for Tally {
    fn mark(&mut self)
        ensures { self.new ≡ min (self.old + 1) (2 ^ 64 - 1) }
    {
        self.marks = self.marks.saturating_add(1);
    }
}

/// How many steps were taken: contracts see the number, which has no bound. It is what `tick` counted, no more and no
/// less, since nothing else changes it and generic code can't make a ledger of its own. That the ledger hears of each step
/// is tested alone.
#[derive(Drop)]
pub struct Steps<L: StepLedger> {
    ledger: L,
    marks: Trace,
}

impl<L: StepLedger> Model for Steps<L> {
    ghost use Rattle.std.specs.Prelude.{ℕ, length};

    ghost Value = { ℕ };

    ghost view = { λ it. length it.marks.bytes };
}

impl<L: StepLedger> Steps<L> {
    /// No step counted yet.
    pub fn new(ledger: L) -> Steps<L>
        ensures { result ≡ 0 }
    {
        Steps {
            ledger,
            marks: blank(),
        }
    }

    /// Counts one step, and marks the ledger.
    pub fn tick(&mut self)
        ensures { self.new ≡ self.old + 1 }
    {
        note(&mut self.marks, 1);
        self.ledger.mark();
    }

    /// The ledger that hears of each step.
    pub fn ledger(&self) -> &L {
        &self.ledger
    }
}
