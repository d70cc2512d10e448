//! The product of two powers in the wrong order, as terms.

ghost use Rattle.std.specs.Prelude.{◌≡◌, ◌<◌, ◌≤◌, ◌+◌, ◌*◌, ◌%◌, ◌^◌, ◌∷◌, [], ◌++◌, replicate, IsTrue, IfOk, OnOk, IfSome};
ghost use Rattle.monomials.specs.Polynomials.{cons_nonzero};
ghost use Rattle.gpoly.specs.Terms.{pairs_of};
ghost use Rattle.word_model.specs.Words.{normal_form};
ghost use Rattle.closed_forms.specs.Forms.{closed_form};
ghost use Rattle.closed_forms.specs.Kinds.{IsProper, HasKind};
ghost use Rattle.gproduct.specs.Places.{IsPlace, place_value};
ghost use Rattle.gproduct.specs.Seats.{Knows, Keeps};
ghost use Rattle.gproduct.specs.Inside.Swaps.{IsSwap, swap_word};

use crate::exchange::Exchange;
use crate::place::MOST_EXPONENT;
use crate::seat::{Learned, TableSeat};
use crate::swap::Swap;
use algebra::Algebra;
use closed_forms::PairKind;
use gpoly::{GPoly, Term};
use monomials::Expo;
use prime_field::Field;
use std::alloc::{AllocError, Global};
use word_model::events::Place;

/// The product x_j^a' x_i^b' for exponents a' up to a and b' up to b, as great as a closed form or a
/// place has them at once. Its terms are put into `terms`, in place of what was there.
pub(crate) fn power_terms(
    alloc: Global,
    seat: &mut TableSeat,
    i: u8,
    j: u8,
    a: u16,
    b: u16,
    terms: &mut Vec<Term>,
) -> Result<(u16, u16), AllocError>
    requires first { 1 ≤ i }
    requires ordered { i < j }
    requires last { j ≤ seat.old.algebra.order.vars }
    requires a_some { 1 ≤ a }
    requires b_some { 1 ≤ b }
    requires reach { a + b ≤ 4095 }
    ensures value { IfOk result (λ r. pairs_of terms.new.items ≡ normal_form seat.old.algebra (replicate r.0 j ++ replicate r.1 i)) }
    ensures a_within { IfOk result (λ r. (1 ≤ r.0) × (r.0 ≤ a)) }
    ensures b_within { IfOk result (λ r. (1 ≤ r.1) × (r.1 ≤ b)) }
    ensures algebra { seat.new.algebra ≡ seat.old.algebra }
    ensures kept { Keeps seat.old seat.new }
{
    let swap = Swap { i, j, a, b };
    if let Some(kind) = seat.kind(i, j)
        && formula_terms(alloc, seat.algebra(), &kind, swap, terms)?
    {
        return Ok((a, b));
    }
    let place = cut(swap);
    place_terms(alloc, seat, place, terms)?;
    Ok((u16::from(place.a), u16::from(place.b)))
}

impl<'t, 'r> Exchange for TableSeat<'t, 'r> {
    ghost over = { λ s. s.algebra };

    ghost knows = { Knows };

    fn algebra(&self) -> &Algebra {
        TableSeat::algebra(self)
    }

    fn power_terms(
        &mut self,
        alloc: Global,
        i: u8,
        j: u8,
        a: u16,
        b: u16,
        terms: &mut Vec<Term>,
    ) -> Result<(u16, u16), AllocError> {
        power_terms(alloc, self, i, j, a, b, terms)
    }
}

// The place with the same variables, and with exponents up to those of a place.
pub(crate) fn cut(swap: Swap) -> Place
    requires a_some { 1 ≤ swap.a }
    requires b_some { 1 ≤ swap.b }
    ensures i { result.i ≡ swap.i }
    ensures j { result.j ≡ swap.j }
    ensures a_some { 1 ≤ result.a }
    ensures a_within { result.a ≤ swap.a }
    ensures a_small { result.a ≤ 16 }
    ensures b_some { 1 ≤ result.b }
    ensures b_within { result.b ≤ swap.b }
    ensures b_small { result.b ≤ 16 }
{
    Place {
        i: swap.i,
        j: swap.j,
        a: swap.a.min(MOST_EXPONENT) as u8,
        b: swap.b.min(MOST_EXPONENT) as u8,
    }
}

// Puts the product's terms into `terms`, where that takes no table: it is one term, or the exponents
// are above those of a place. Whether it did.
pub(crate) fn formula_terms(
    alloc: Global,
    alg: &Algebra,
    kind: &PairKind,
    swap: Swap,
    terms: &mut Vec<Term>,
) -> Result<bool, AllocError>
    requires swap { IsSwap alg.now swap }
    requires kind { HasKind alg.now swap.i swap.j kind.now }
    ensures { IfOk result (λ done. IsTrue done → pairs_of terms.new.items ≡ normal_form alg.now (swap_word swap)) }
{
    let n = alg.n();
    if let Some(number) = number_of_one(alg.field(), kind, swap.a, swap.b) {
        put_one(terms, number, swap.monomial(n, swap.b, swap.a))?;
        return Ok(true);
    }
    if swap.a <= MOST_EXPONENT && swap.b <= MOST_EXPONENT {
        return Ok(false);
    }
    let value = swap.by_formula(alloc, alg, kind)?;
    put(terms, &value)?;
    Ok(true)
}

// The number of the product's term, where the formula of the kind has one alone.
fn number_of_one(field: Field, kind: &PairKind, a: u16, b: u16) -> Option<u32>
    requires proper { IsProper field kind.now }
    requires reach { a + b ≤ 4095 }
    ensures value { IfSome result (λ number. closed_form field kind.now a b ≡ cons_nonzero number (b, a) []) }
    ensures in_range { IfSome result (λ number. number < field) }
{
    let _p = field.p();
    match *kind {
        PairKind::Commuting => Some(1),
        PairKind::Quasi { q } => Some(field.pow(q, u32::from(a) * u32::from(b))),
        _ => None,
    }
}

// Puts the value of a place into `terms`, and lets the seat learn it.
fn place_terms(
    alloc: Global,
    seat: &mut TableSeat,
    place: Place,
    terms: &mut Vec<Term>,
) -> Result<(), AllocError>
    requires place { IsPlace seat.old.algebra place }
    ensures value { OnOk result (pairs_of terms.new.items ≡ place_value seat.old.algebra place) }
    ensures algebra { seat.new.algebra ≡ seat.old.algebra }
    ensures kept { Keeps seat.old seat.new }
{
    if let Some(value) = seat.known(place) {
        return put(terms, value);
    }
    if seat.kind(place.i, place.j).is_none() {
        learn_row(alloc, seat, place)?;
        learn_column(alloc, seat, place)?;
    }
    match seat.learn(alloc, place)? {
        Learned::Shared => put_known(seat, place, terms),
        Learned::Own(value) => put(terms, &value),
    }
}

// Lets the seat learn the products of one letter with the powers on the right, up to that of the place:
// all later values are made from these.
fn learn_row(alloc: Global, seat: &mut TableSeat, place: Place) -> Result<(), AllocError>
    requires { IsPlace seat.old.algebra place }
    ensures algebra { seat.new.algebra ≡ seat.old.algebra }
    ensures kept { Keeps seat.old seat.new }
{
    for b in 1..place.b + 1 {
        seat.learn(alloc, Place { a: 1, b, ..place })?;
    }
    Ok(())
}

// Lets the seat learn the products of lower powers on the left with the power on the right: each value is
// made from the one before.
fn learn_column(alloc: Global, seat: &mut TableSeat, place: Place) -> Result<(), AllocError>
    requires { IsPlace seat.old.algebra place }
    ensures algebra { seat.new.algebra ≡ seat.old.algebra }
    ensures kept { Keeps seat.old seat.new }
{
    for a in 1..place.a {
        seat.learn(alloc, Place { a, ..place })?;
    }
    Ok(())
}

// Puts the value of a place that the seat knows into `terms`.
fn put_known(seat: &TableSeat, place: Place, terms: &mut Vec<Term>) -> Result<(), AllocError>
    requires place { IsPlace seat.now.algebra place }
    requires known { Knows seat.now place }
    ensures { OnOk result (pairs_of terms.new.items ≡ place_value seat.now.algebra place) }
{
    match seat.known(place) {
        Some(value) => put(terms, value),
        None => unreachable!(),
    }
}

// Puts the terms of a polynomial in place of what was there.
pub(crate) fn put(terms: &mut Vec<Term>, value: &GPoly) -> Result<(), AllocError>
    ensures { OnOk result (pairs_of terms.new.items ≡ value.now) }
{
    terms.clear();
    terms.extend_from_slice(value.terms())
}

// Puts one term, unless its number is zero, in place of what was there.
fn put_one(terms: &mut Vec<Term>, coef: u32, mono: Expo) -> Result<(), AllocError>
    ensures { OnOk result (pairs_of terms.new.items ≡ cons_nonzero coef mono []) }
{
    terms.clear();
    if coef != 0 {
        terms.push(Term { coef, mono })?;
    }
    Ok(())
}
