//! The weights of a block of variables.

ghost use Rattle.std.specs.Prelude.{◌≡◌, ◌↔◌, IsTrue, nat_eq};
ghost use Rattle.std.specs.Cmp.Lexicographic.{pointwise};
ghost use Rattle.std.specs.Cmp.{partial_equiv_from_equiv};
ghost use Rattle.std.proofs.lemmas.Cmp.{nat_list_eq_equiv};

use std::marker::Model;

/// BlockWeights of variables, in their order. A contract sees them as a list, so that a definition can
/// make a block from numbers.
#[derive(Debug, Drop)]
pub struct BlockWeights {
    list: Vec<u64>,
}

impl Model for BlockWeights {
    ghost use Rattle.std.specs.Prelude.{List, ℕ};

    ghost Value = { List ℕ };

    ghost view = { λ w. w.list.items };
}

impl PartialEq for BlockWeights {
    ghost eq = { pointwise nat_eq };

    ghost laws = { partial_equiv_from_equiv nat_list_eq_equiv };

    fn eq(&self, other: &BlockWeights) -> bool
        ensures eq { result ≡ pointwise nat_eq self.now other.now }
        ensures same { IsTrue result ↔ (self.now ≡ other.now) }
    {
        self.list == other.list
    }
}

impl Eq for BlockWeights {
    ghost laws = { nat_list_eq_equiv };
}

impl BlockWeights {
    /// These numbers as weights, in their own memory.
    pub fn of(list: Vec<u64>) -> BlockWeights
        ensures { result ≡ list.items }
    {
        BlockWeights { list }
    }

    /// The numbers, in the memory of the weights.
    pub fn into_vec(self) -> Vec<u64>
        ensures { result.items ≡ self }
    {
        self.list
    }

    /// The numbers, the first variable's first.
    pub fn as_slice(&self) -> &[u64]
        ensures { result.now ≡ self.now }
    {
        &self.list
    }
}
