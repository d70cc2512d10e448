//! Elements of two lists that were compared, and found to be the same.

ghost use Rattle.std.specs.Prelude.{◌≡◌, ◌≢◌, ℕ, IsTrue, true, false, slice_index_or};

use std::marker::Model;

/// A mark for each number below 2048.
#[derive(Drop)]
pub(crate) struct Compared {
    marks: [bool; 2048],
}

impl Model for Compared {
    ghost use Rattle.std.specs.Prelude.{Bool, List};

    ghost Value = { List Bool };

    ghost view = { λ c. c.marks };
}

impl Compared {
    /// No mark.
    pub(crate) fn none() -> Compared
        ensures { (k : ℕ) → slice_index_or result k false ≡ false }
    {
        Compared {
            marks: [false; 2048],
        }
    }

    /// Whether a number is marked; one that has no mark is not.
    pub(crate) fn has(&self, k: u32) -> bool
        ensures { IsTrue result → slice_index_or self.now k false ≡ true }
    {
        let k = k as usize;
        k < self.marks.len() && self.marks[k]
    }

    /// Marks a number, where it has a mark.
    pub(crate) fn note(&mut self, k: u32)
        ensures { (x : ℕ) → slice_index_or self.new x false ≡ true → x ≢ k → slice_index_or self.old x false ≡ true }
    {
        let k = k as usize;
        if k < self.marks.len() {
            self.marks[k] = true;
        }
    }
}
