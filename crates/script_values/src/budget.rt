//! The most entries that a run may have.

ghost use Rattle.std.specs.Prelude.{◌≡◌, ◌≤◌};

use std::marker::Model;

/// The most entries that a run may have: at least 1.
#[derive(Clone, Copy)]
pub struct Budget {
    entries: u32,
}

impl Model for Budget {
    ghost use Rattle.std.specs.Prelude.{ℕ, ◌≤◌};

    ghost Value = { ℕ };

    ghost view = { λ b. b.entries };

    ghost invariant = { λ b. 1 ≤ b.entries };

    ghost inverse = { λ n. record { entries = n } };
}

impl Budget {
    /// A budget of this many entries.
    pub fn of(entries: u32) -> Budget
        requires some { 1 ≤ entries }
        ensures { result ≡ entries }
    {
        Budget { entries }
    }

    /// How many entries these are.
    pub fn entries(self) -> u32
        ensures value { result ≡ self }
        ensures some { 1 ≤ result }
    {
        self.entries
    }
}
