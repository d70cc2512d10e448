//! Terms that a monomial passes: the product with them is made by adding exponents.

ghost use Rattle.std.specs.Prelude.{◌≡◌, ◌+◌, ◌<◌, ◌≤◌, IfOk, length};
ghost use Rattle.monomials.specs.Monomials.{degree};
ghost use Rattle.monomials.specs.Polynomials.{HasNumbers, HasVars, IsPolynomial, poly_degree};
ghost use Rattle.gpoly.specs.Terms.{pairs_of};
ghost use Rattle.gproduct.specs.Inside.Passing.{IsParted, IsSplit};

use crate::seat::TableSeat;
use gpoly::{GPoly, Term};
use monomials::Expo;
use std::alloc::{AllocError, Global};

/// A product with a monomial on the left in two parts: what comes of the terms that it passes, and the
/// other terms as they are.
#[derive(Drop)]
pub(crate) struct SplitProduct {
    pub(crate) passed: GPoly,
    pub(crate) rest: GPoly,
}

// The products of `coef * mono` with the terms that it passes, and the other terms.
fn parted(
    alloc: Global,
    seat: &TableSeat,
    coef: u32,
    mono: &Expo,
    terms: &[Term],
) -> Result<(Vec<Term>, Vec<Term>), AllocError>
    requires in_range { coef < seat.now.algebra.p }
    requires vars { length mono.now ≡ seat.now.algebra.order.vars }
    requires numbers { HasNumbers seat.now.algebra.p (pairs_of terms.now) }
    requires term_vars { HasVars seat.now.algebra.order.vars (pairs_of terms.now) }
    requires within { degree mono.now + poly_degree (pairs_of terms.now) ≤ 4095 }
    ensures { IfOk result (λ r. IsParted seat.now.algebra coef mono.now (pairs_of terms.now)
        (pairs_of r.0.items) (pairs_of r.1.items)) }
{
    let algebra = seat.algebra();
    let _n = algebra.n();
    let field = algebra.field();
    let mut passed = Vec::new(alloc);
    let mut rest = Vec::new(alloc);
    for term in terms {
        if seat.passes(mono, &term.mono) {
            let coef = field.mul(coef, term.coef);
            let mono = mono.plus(&term.mono);
            passed.push(Term { coef, mono })?;
        } else {
            rest.push(*term)?;
        }
    }
    Ok((passed, rest))
}

/// Splits the product of `coef * mono` with `f`.
pub(crate) fn split(
    alloc: Global,
    seat: &TableSeat,
    coef: u32,
    mono: &Expo,
    f: &GPoly,
) -> Result<SplitProduct, AllocError>
    requires sorted { IsPolynomial seat.now.algebra.p seat.now.algebra.order f.now }
    requires in_range { coef < seat.now.algebra.p }
    requires vars { length mono.now ≡ seat.now.algebra.order.vars }
    requires within { degree mono.now + poly_degree f.now ≤ 4095 }
    ensures { IfOk result (λ r. IsSplit seat.now.algebra coef mono.now f.now r.passed r.rest) }
{
    let algebra = seat.algebra();
    let _n = algebra.n();
    let (field, order) = (algebra.field(), algebra.order());
    let (passed, rest) = parted(alloc, seat, coef, mono, f.terms())?;
    let passed = GPoly::from_terms(alloc, field, order, &passed)?;
    let rest = GPoly::from_terms(alloc, field, order, &rest)?;
    Ok(SplitProduct { passed, rest })
}
