//! Tests of algebras and polynomials against each other.

ghost use Rattle.std.specs.Prelude.{◌≡◌, ℕ, suc, ◌<◌, ◌↔◌, IsTrue, length, slice_index, EachIndex};
ghost use Rattle.monomials.specs.Orders.{order_cmp};
ghost use Rattle.monomials.specs.Polynomials.{HasNumbers, HasVars, IsPolynomial};
ghost use Rattle.gpoly.specs.Terms.{pairs_of};
ghost use Rattle.algebra.specs.Inside.Falling.{IsStrictlyFalling};

use crate::Algebra;
use gpoly::{GPoly, Term};
use monomials::Order;
use std::cmp::Ordering;

impl Algebra {
    /// Whether the algebras have the same field, order and relations.
    pub fn same(&self, other: &Algebra) -> bool
        ensures { IsTrue result ↔ (self.now ≡ other.now) }
    {
        self.presentation.same(&other.presentation)
    }

    /// Whether any polynomial is one of this algebra: sorted by its order, in its variables, and
    /// with numbers of its field.
    pub fn fits(&self, f: &GPoly) -> bool
        ensures { IsTrue result ↔ IsPolynomial self.now.p self.now.order f.now }
    {
        let terms = f.terms();
        are_terms(terms, self.field().p(), self.n()) && is_falling(self.order(), terms)
    }
}

// Whether the numbers are below p, and the monomials in n variables.
fn are_terms(terms: &[Term], p: u32, n: usize) -> bool
    ensures { IsTrue result ↔ (HasNumbers p (pairs_of terms.now) × HasVars n (pairs_of terms.now)) }
{
    for term in terms {
        if term.coef >= p || term.mono.len() != n {
            return false;
        }
    }
    true
}

// Whether each monomial is above the next.
fn is_falling(order: &Order, terms: &[Term]) -> bool
    requires { HasVars order.now.vars (pairs_of terms.now) }
    ensures { IsTrue result ↔ IsStrictlyFalling (order_cmp order.now.rows) (pairs_of terms.now) }
{
    for i in 1..terms.len() {
        if order.compare(&terms[i - 1].mono, &terms[i].mono) != Ordering::Greater {
            return false;
        }
    }
    true
}
