//! Products of monomials, multiplied out.

ghost use Rattle.std.specs.Prelude.{◌≡◌, ℕ, ◌+◌, ◌-◌, ◌*◌, ◌%◌, ◌<◌, ◌≤◌, ◌∷◌, ◌++◌, [], IfOk, OnOk, length, map};
ghost use Rattle.monomials.specs.Monomials.{degree, power};
ghost use Rattle.monomials.specs.Orders.{order_cmp};
ghost use Rattle.monomials.specs.Polynomials.{HasNumbers, IsPolynomial, from_terms, poly_degree};
ghost use Rattle.gpoly.specs.Terms.{pairs_of};
ghost use Rattle.word_model.specs.Products.{product};
ghost use Rattle.word_model.specs.Words.{word_value};
ghost use Rattle.gproduct.specs.Inside.Factors.{AreTerms, IsCrossing, IsReady, IsExchange, ProductSum, factor_count, products_in, words_of};
ghost use Rattle.word_model.specs.declared.events.Place.{Place};

use crate::exchange::Exchange;
use crate::front::{Crossing, Front, join_front};
use crate::pending::Pending;
use gpoly::{GPoly, Term};
use monomials::Expo;
use prime_field::Field;
use std::alloc::{AllocError, Global};

// Adds k times the product of `left`, a term and `right`, before `tail`, for each of the terms.
fn push_each(
    pending: &mut Pending,
    field: Field,
    coef: u32,
    left: &Expo,
    terms: &[Term],
    right: &Expo,
    tail: &[Expo],
) -> Result<(), AllocError>
    requires counted { factor_count pending.old.open.items ≡ length pending.old.factors.items }
    requires in_range { coef < field }
    requires numbers { HasNumbers field (pairs_of terms.now) }
    ensures counted { OnOk result (factor_count pending.new.open.items ≡ length pending.new.factors.items) }
    ensures products { OnOk result (products_in pending.new.open.items pending.new.factors.items
        ≡ products_in pending.old.open.items pending.old.factors.items
        ++ map (λ t. ((coef * t.0) % field, tail.now ++ (right.now ∷ t.1 ∷ left.now ∷ []))) (pairs_of terms.now)) }
{
    for term in terms {
        let coef = field.mul(coef, term.coef);
        pending.push(coef, tail, &[*right, term.mono, *left])?;
    }
    Ok(())
}

// Swaps powers of the two variables of a crossing, and adds the products that come of it.
fn push_swapped<E: Exchange>(
    alloc: Global,
    swaps: &mut E,
    pending: &mut Pending,
    terms: &mut Vec<Term>,
    coef: u32,
    crossing: &Crossing,
    tail: &[Expo],
) -> Result<(), AllocError>
    requires counted { factor_count pending.old.open.items ≡ length pending.old.factors.items }
    requires in_range { coef < (E.over swaps.old).p }
    requires crossing { IsCrossing (E.over swaps.old).order.vars crossing.now }
    requires reach { degree crossing.now.left + degree crossing.now.right ≤ 4095 }
    ensures counted { OnOk result (factor_count pending.new.open.items ≡ length pending.new.factors.items) }
    ensures products { OnOk result ((added : ProductSum) × (IsExchange (E.over swaps.old) coef crossing.now tail.now added
        × (products_in pending.new.open.items pending.new.factors.items
        ≡ products_in pending.old.open.items pending.old.factors.items ++ added))) }
    ensures algebra { E.over swaps.new ≡ E.over swaps.old }
    ensures kept { (place : Place) → E.knows swaps.old place → E.knows swaps.new place }
{
    let Crossing {
        left,
        high,
        right,
        low,
    } = *crossing;
    let (a, b) = (left.get(high), right.get(low));
    let (a, b) = swaps.power_terms(alloc, low, high, a, b, terms)?;
    let n = swaps.algebra().n();
    let left = left.minus(&Expo::power(n, high, a));
    let right = right.minus(&Expo::power(n, low, b));
    let field = swaps.algebra().field();
    push_each(pending, field, coef, &left, terms, &right, tail)
}

// Multiplies all products out. Equal monomials are not added up.
fn sorted_terms<E: Exchange>(
    alloc: Global,
    swaps: &mut E,
    pending: &mut Pending,
) -> Result<Vec<Term>, AllocError>
    requires counted { factor_count pending.old.open.items ≡ length pending.old.factors.items }
    requires ready { IsReady (E.over swaps.old).p (E.over swaps.old).order.vars
        (products_in pending.old.open.items pending.old.factors.items) }
    ensures counted { IfOk result (λ r. factor_count pending.new.open.items ≡ length pending.new.factors.items) }
    ensures empty { IfOk result (λ r. pending.new.open.items ≡ []) }
    ensures value { IfOk result (λ r. from_terms (order_cmp (E.over swaps.old).order.rows) (E.over swaps.old).p (pairs_of r.items)
        ≡ word_value (E.over swaps.old) (words_of (products_in pending.old.open.items pending.old.factors.items))) }
    ensures terms { IfOk result (λ r. AreTerms (E.over swaps.old).p (E.over swaps.old).order.vars (pairs_of r.items)) }
    ensures algebra { E.over swaps.new ≡ E.over swaps.old }
    ensures kept { (place : Place) → E.knows swaps.old place → E.knows swaps.new place }
{
    let n = swaps.algebra().n();
    let mut factors = Vec::new(alloc);
    let mut terms = Vec::new(alloc);
    let mut sorted = Vec::new(alloc);
    while let Some(coef) = pending.pop(&mut factors)? {
        match join_front(n, &mut factors) {
            Front::Sorted(mono) => sorted.push(Term { coef, mono })?,
            Front::Crossed(crossing) => push_swapped(
                alloc, swaps, pending, &mut terms, coef, &crossing, &factors,
            )?,
        }
    }
    Ok(sorted)
}

/// Multiplies all products out: answers their sum, and leaves none.
pub fn multiply_out<E: Exchange>(
    alloc: Global,
    swaps: &mut E,
    pending: &mut Pending,
) -> Result<GPoly, AllocError>
    requires counted { factor_count pending.old.open.items ≡ length pending.old.factors.items }
    requires ready { IsReady (E.over swaps.old).p (E.over swaps.old).order.vars
        (products_in pending.old.open.items pending.old.factors.items) }
    ensures counted { IfOk result (λ r. factor_count pending.new.open.items ≡ length pending.new.factors.items) }
    ensures empty { IfOk result (λ r. pending.new.open.items ≡ []) }
    ensures value { IfOk result (λ r. r ≡ word_value (E.over swaps.old)
        (words_of (products_in pending.old.open.items pending.old.factors.items))) }
    ensures sorted { IfOk result (λ r. IsPolynomial (E.over swaps.old).p (E.over swaps.old).order r) }
    ensures algebra { E.over swaps.new ≡ E.over swaps.old }
    ensures kept { (place : Place) → E.knows swaps.old place → E.knows swaps.new place }
{
    let sorted = sorted_terms(alloc, swaps, pending)?;
    let algebra = swaps.algebra();
    GPoly::from_terms(alloc, algebra.field(), algebra.order(), &sorted)
}

// Adds the products of `mono` with each of the terms behind it.
fn push_before(pending: &mut Pending, mono: &Expo, terms: &[Term]) -> Result<(), AllocError>
    requires { factor_count pending.old.open.items ≡ length pending.old.factors.items }
    ensures counted { OnOk result (factor_count pending.new.open.items ≡ length pending.new.factors.items) }
    ensures products { OnOk result (products_in pending.new.open.items pending.new.factors.items
        ≡ products_in pending.old.open.items pending.old.factors.items
        ++ map (λ t. (t.0, t.1 ∷ mono.now ∷ [])) (pairs_of terms.now)) }
{
    for term in terms {
        pending.push(term.coef, &[], &[term.mono, *mono])?;
    }
    Ok(())
}

/// The product of a power of a variable with `f`, by multiplying out.
pub(crate) fn crossed_times<E: Exchange>(
    alloc: Global,
    swaps: &mut E,
    pending: &mut Pending,
    v: u8,
    exponent: u16,
    f: &GPoly,
) -> Result<GPoly, AllocError>
    requires counted { factor_count pending.old.open.items ≡ length pending.old.factors.items }
    requires empty { pending.old.open.items ≡ [] }
    requires first { 1 ≤ v }
    requires last { v ≤ (E.over swaps.old).order.vars }
    requires sorted { IsPolynomial (E.over swaps.old).p (E.over swaps.old).order f.now }
    requires within { exponent + poly_degree f.now ≤ 4095 }
    ensures counted { IfOk result (λ r. factor_count pending.new.open.items ≡ length pending.new.factors.items) }
    ensures empty { IfOk result (λ r. pending.new.open.items ≡ []) }
    ensures value { IfOk result (λ r. r ≡ product (E.over swaps.old) ((1, power (E.over swaps.old).order.vars v exponent) ∷ []) f.now) }
    ensures sorted { IfOk result (λ r. IsPolynomial (E.over swaps.old).p (E.over swaps.old).order r) }
    ensures algebra { E.over swaps.new ≡ E.over swaps.old }
    ensures kept { (place : Place) → E.knows swaps.old place → E.knows swaps.new place }
{
    let n = swaps.algebra().n();
    push_before(pending, &Expo::power(n, v, exponent), f.terms())?;
    multiply_out(alloc, swaps, pending)
}
