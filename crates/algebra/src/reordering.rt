//! The same relations under another order.

ghost use Rattle.std.specs.Prelude.{◌≡◌, ℕ, None, IfOk, IfErr, OnOk};
ghost use Rattle.monomials.specs.Orders.{order_cmp};
ghost use Rattle.monomials.specs.Polynomials.{Polynomial, from_terms};
ghost use Rattle.word_model.specs.Words.{Word, normal_form};
ghost use Rattle.word_model.specs.Conditions.{relations_fault};
ghost use Rattle.word_model.specs.Products.{product};
ghost use Rattle.algebra.specs.Reordered.{reordered, ReportsOrdering};

use crate::{Algebra, AlgebraFault};
use monomials::Order;
use std::alloc::Global;

impl Algebra {
    /// The same algebra with its polynomials sorted by another order of its variables. `Ordering`
    /// names the first pair whose polynomial is not below x_i x_j in that order; no condition else
    /// depends on the order.
    pub fn reordered(&self, alloc: Global, order: &Order) -> Result<Algebra, AlgebraFault>
        requires { order.now.vars ≡ self.now.order.vars }
        ensures algebra { IfOk result (λ a. a ≡ reordered order.now self.now) }
        ensures accepted { OnOk result (relations_fault (reordered order.now self.now) ≡ None) }
        ensures fault { IfErr result (ReportsOrdering (reordered order.now self.now)) }
        ensures normal_forms { IfOk result (λ a. (w : Word) → normal_form a w
            ≡ from_terms (order_cmp order.now.rows) self.now.p (normal_form self.now w)) }
        ensures products { IfOk result (λ a. (f g : Polynomial) → product a f g
            ≡ from_terms (order_cmp order.now.rows) self.now.p (product self.now f g)) }
    {
        let _n = self.n();
        let presentation = self.presentation.reordered(alloc, order)?;
        presentation.test_pairs()?;
        Ok(Algebra { presentation })
    }
}
