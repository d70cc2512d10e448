//! What exchanges powers of two variables.

ghost use Rattle.std.specs.Prelude.{◌≡◌, ◌+◌, ◌<◌, ◌≤◌, ◌++◌, replicate, IfOk};
ghost use Rattle.gpoly.specs.Terms.{pairs_of};
ghost use Rattle.word_model.specs.Words.{Algebra as GAlgebra, normal_form};
ghost use Rattle.word_model.specs.declared.events.Place.{Place};

use algebra::Algebra;
use gpoly::Term;
use std::alloc::{AllocError, Global};
use word_model::events::Place;

/// Exchanges powers of two variables of an algebra.
pub(crate) trait Exchange {
    // The algebra.
    ghost over: { Self → GAlgebra };

    // The places that it knows, and keeps.
    ghost knows: { Self → Place → Type 0 };

    /// The algebra. Takes no memory.
    fn algebra(&self) -> &Algebra
        ensures { result.now ≡ over self.now };

    /// The product x_j^a' x_i^b' for exponents a' up to a and b' up to b. Its terms are put into
    /// `terms`, in place of what was there.
    fn power_terms(
        &mut self,
        alloc: Global,
        i: u8,
        j: u8,
        a: u16,
        b: u16,
        terms: &mut Vec<Term>,
    ) -> Result<(u16, u16), AllocError>
        requires first { 1 ≤ i }
        requires ordered { i < j }
        requires last { j ≤ (over self.old).order.vars }
        requires a_some { 1 ≤ a }
        requires b_some { 1 ≤ b }
        requires reach { a + b ≤ 4095 }
        ensures value { IfOk result (λ r. pairs_of terms.new.items ≡ normal_form (over self.old) (replicate r.0 j ++ replicate r.1 i)) }
        ensures a_within { IfOk result (λ r. (1 ≤ r.0) × (r.0 ≤ a)) }
        ensures b_within { IfOk result (λ r. (1 ≤ r.1) × (r.1 ≤ b)) }
        ensures algebra { over self.new ≡ over self.old }
        ensures kept { (place : Place) → knows self.old place → knows self.new place };
}
