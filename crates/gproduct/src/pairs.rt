//! Pairs of variables that don't commute.

ghost use Rattle.std.specs.Prelude.{◌≡◌, ◌<◌, ◌≤◌, IsTrue, IsFalse, IfOk, length};
ghost use Rattle.monomials.specs.Polynomials.{Each};
ghost use Rattle.gproduct.specs.Inside.Passing.{IsCommuting, IsPair, HasNoncommuting, IsFree};

use crate::kinds::{MOST_VARIABLES, kind_at};
use algebra::Algebra;
use closed_forms::PairKind;
use monomials::Expo;
use std::alloc::{AllocError, Global};

/// The variables of numbers i < j, counted from 1.
#[derive(Clone, Copy)]
pub(crate) struct Pair {
    pub(crate) i: u8,
    pub(crate) j: u8,
}

impl Pair {
    // Whether these are two variables of the algebra, in order, that don't commute.
    fn is_noncommuting(self, alg: &Algebra) -> bool
        requires { 1 ≤ self.i }
        ensures pair { IsTrue result → IsPair alg.now.order.vars self }
        ensures commuting { IsFalse result → self.i < self.j → self.j ≤ alg.now.order.vars →
            IsCommuting alg.now self.i self.j }
    {
        if self.i >= self.j || usize::from(self.j) > alg.n() {
            return false;
        }
        match kind_at(alg, self.i, self.j) {
            Some(PairKind::Commuting) => false,
            _ => true,
        }
    }

    // Whether `left` has the higher variable and `right` the lower one.
    fn meets(self, left: &Expo, right: &Expo) -> bool
        requires left { IsPair (length left.now) self }
        requires right { IsPair (length right.now) self }
        ensures { IsFalse result → IsFree left.now right.now self }
    {
        left.get(self.j) > 0 && right.get(self.i) > 0
    }
}

/// The pairs of variables that don't commute.
pub(crate) fn noncommuting(alloc: Global, alg: &Algebra) -> Result<Vec<Pair>, AllocError>
    ensures { IfOk result (λ pairs. HasNoncommuting alg.now pairs.items) }
{
    let _n = alg.n();
    let mut pairs = Vec::new(alloc);
    for place in 0..MOST_VARIABLES * (MOST_VARIABLES - 1) {
        let (i, j) = (place / MOST_VARIABLES + 1, place % MOST_VARIABLES + 1);
        let pair = Pair { i, j };
        if pair.is_noncommuting(alg) {
            pairs.push(pair)?;
        }
    }
    Ok(pairs)
}

/// Whether none of the pairs has its higher variable in `left` and its lower one in `right`. Takes no
/// memory.
pub(crate) fn none_meets(pairs: &[Pair], left: &Expo, right: &Expo) -> bool
    requires left { Each (IsPair (length left.now)) pairs.now }
    requires right { Each (IsPair (length right.now)) pairs.now }
    ensures { IsTrue result → Each (IsFree left.now right.now) pairs.now }
{
    for pair in pairs {
        if pair.meets(left, right) {
            return false;
        }
    }
    true
}
