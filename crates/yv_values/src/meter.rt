//! The count of steps.
ghost use Rattle.std.specs.Prelude.{◌≡◌, ◌+◌};
ghost use Rattle.yv_values.specs.Count.{count_up};

use std::marker::Model;

/// A meter that counts a validation's steps. It stops at 2 to the 64 less 1.
#[derive(Drop)]
pub struct Meter {
    steps: u64,
}

impl Model for Meter {
    ghost use Rattle.std.specs.Prelude.{ℕ};

    ghost Value = { ℕ };

    ghost view = { λ m. m.steps };
}

impl Meter {
    /// A count of no steps.
    pub fn new() -> Meter
        ensures { result ≡ 0 }
    {
        Meter { steps: 0 }
    }

    /// The steps so far.
    pub fn steps(&self) -> u64
        ensures { result ≡ self.now }
    {
        self.steps
    }

    /// Counts one step: the visit of a schema node at a data node.
    pub fn visit(&mut self)
        ensures { self.new ≡ count_up (self.old + 1) }
    {
        self.visit_all(1);
    }

    /// Counts so many steps at once: as many visits.
    pub fn visit_all(&mut self, count: u64)
        ensures { self.new ≡ count_up (self.old + count) }
    {
        self.steps = self.steps.saturating_add(count);
    }
}
