//! First values of places without a closed form: from smaller ones, a letter at a time, with like
//! terms added up after each.

ghost use Rattle.std.specs.Prelude.{◌≡◌, ◌+◌, ◌<◌, ◌≤◌, ◌++◌, replicate, IfOk, IfSome, IsTrue};
ghost use Rattle.gpoly.specs.Terms.{pairs_of};
ghost use Rattle.word_model.specs.Words.{normal_form};
ghost use Rattle.closed_forms.specs.Kinds.{HasKind};
ghost use Rattle.gproduct.specs.Places.{IsPlace, place_value, place_word};
ghost use Rattle.gproduct.specs.Inside.Swaps.{IsSwap, swap_word};

use crate::exchange::Exchange;
use crate::kinds::kind_at;
use crate::multiplying::crossed_times;
use crate::pending::Pending;
use crate::place::swap_of;
use crate::powers::{cut, formula_terms, put};
use crate::seat::TableSeat;
use crate::swap::{Swap, letters_product};
use algebra::Algebra;
use closed_forms::PairKind;
use gpoly::{GPoly, Term};
use std::alloc::{AllocError, Global};
use word_model::events::Place;

/// Exchanges powers by closed forms and the relations alone.
#[derive(Drop)]
pub(crate) struct Plain<'r> {
    pub(crate) algebra: &'r Algebra,
}

impl<'r> Exchange for Plain<'r> {
    ghost over = { λ s. s.algebra.now };

    ghost knows = { λ _ _. Unit {0} };

    fn algebra(&self) -> &Algebra {
        self.algebra
    }

    fn power_terms(
        &mut self,
        alloc: Global,
        i: u8,
        j: u8,
        a: u16,
        b: u16,
        terms: &mut Vec<Term>,
    ) -> Result<(u16, u16), AllocError> {
        let algebra = self.algebra;
        let _n = algebra.n();
        let kind = kind_at(algebra, i, j);
        plain_terms(alloc, algebra, kind, Swap { i, j, a, b }, terms)
    }
}

/// Exchanges powers by what a seat knows, closed forms and the relations: it learns nothing.
#[derive(Drop)]
pub(crate) struct Known<'s, 't, 'r> {
    pub(crate) seat: &'s TableSeat<'t, 'r>,
}

impl<'s, 't, 'r> Exchange for Known<'s, 't, 'r> {
    ghost over = { λ s. s.seat.now.algebra };

    ghost knows = { λ _ _. Unit {0} };

    fn algebra(&self) -> &Algebra {
        self.seat.algebra()
    }

    fn power_terms(
        &mut self,
        alloc: Global,
        i: u8,
        j: u8,
        a: u16,
        b: u16,
        terms: &mut Vec<Term>,
    ) -> Result<(u16, u16), AllocError> {
        known_terms(alloc, self.seat, Swap { i, j, a, b }, terms)
    }
}

// The product of the powers, by the formula of their relation's kind, and else of one letter each, by
// the relation.
fn plain_terms(
    alloc: Global,
    alg: &Algebra,
    kind: Option<PairKind>,
    swap: Swap,
    terms: &mut Vec<Term>,
) -> Result<(u16, u16), AllocError>
    requires swap { IsSwap alg.now swap }
    requires a_some { 1 ≤ swap.a }
    requires b_some { 1 ≤ swap.b }
    requires kind { IfSome kind (λ kind. HasKind alg.now swap.i swap.j kind) }
    ensures value { IfOk result (λ r. pairs_of terms.new.items ≡ normal_form alg.now (replicate r.0 swap.j ++ replicate r.1 swap.i)) }
    ensures a_within { IfOk result (λ r. (1 ≤ r.0) × (r.0 ≤ swap.a)) }
    ensures b_within { IfOk result (λ r. (1 ≤ r.1) × (r.1 ≤ swap.b)) }
{
    match kind {
        Some(kind) => {
            let value = swap.by_formula(alloc, alg, &kind)?;
            put(terms, &value)?;
            Ok((swap.a, swap.b))
        }
        None => {
            let value = letters_product(alloc, alg, swap.i, swap.j)?;
            put(terms, &value)?;
            Ok((1, 1))
        }
    }
}

// Puts the value of a place into `terms`, where the seat knows it. Whether it does.
fn put_if_known(seat: &TableSeat, place: Place, terms: &mut Vec<Term>) -> Result<bool, AllocError>
    requires { IsPlace seat.now.algebra place }
    ensures { IfOk result (λ done. IsTrue done → pairs_of terms.new.items ≡ place_value seat.now.algebra place) }
{
    match seat.known(place) {
        None => Ok(false),
        Some(value) => {
            put(terms, value)?;
            Ok(true)
        }
    }
}

// The product of the powers, or of lower ones: by what the seat knows, and else as above.
fn known_terms(
    alloc: Global,
    seat: &TableSeat,
    swap: Swap,
    terms: &mut Vec<Term>,
) -> Result<(u16, u16), AllocError>
    requires swap { IsSwap seat.now.algebra swap }
    requires a_some { 1 ≤ swap.a }
    requires b_some { 1 ≤ swap.b }
    ensures value { IfOk result (λ r. pairs_of terms.new.items ≡ normal_form seat.now.algebra (replicate r.0 swap.j ++ replicate r.1 swap.i)) }
    ensures a_within { IfOk result (λ r. (1 ≤ r.0) × (r.0 ≤ swap.a)) }
    ensures b_within { IfOk result (λ r. (1 ≤ r.1) × (r.1 ≤ swap.b)) }
{
    let kind = seat.kind(swap.i, swap.j);
    if let Some(kind) = kind
        && formula_terms(alloc, seat.algebra(), &kind, swap, terms)?
    {
        return Ok((swap.a, swap.b));
    }
    let place = cut(swap);
    if put_if_known(seat, place, terms)? {
        return Ok((u16::from(place.a), u16::from(place.b)));
    }
    let first = Place { a: 1, ..place };
    if put_if_known(seat, first, terms)? {
        return Ok((1, u16::from(first.b)));
    }
    plain_terms(alloc, seat.algebra(), kind, swap, terms)
}

/// Puts the letters x_j that are missing in front of `value`, the product of the first `count` with
/// `x_i^b`, one after another: after each, like terms are added up.
pub(crate) fn raised<E: Exchange>(
    alloc: Global,
    swaps: &mut E,
    swap: Swap,
    count: u16,
    mut value: GPoly,
) -> Result<GPoly, AllocError>
    requires swap { IsSwap (E.over swaps.old) swap }
    requires count { count ≤ swap.a }
    requires value { value ≡ normal_form (E.over swaps.old) (replicate count swap.j ++ replicate swap.b swap.i) }
    ensures { IfOk result (λ r. r ≡ normal_form (E.over swaps.old) (swap_word swap)) }
{
    let _n = swaps.algebra().n();
    let mut pending = Pending::new(alloc);
    for _letter in count..swap.a {
        value = crossed_times(alloc, swaps, &mut pending, swap.j, 1, &value)?;
    }
    Ok(value)
}

// The value of the place with one letter less on the left, where the seat knows it, and else the power
// on the right alone: how many letters are on the left, and the value.
fn known_part(alloc: Global, seat: &TableSeat, place: Place) -> Result<(u16, GPoly), AllocError>
    requires { IsPlace seat.now.algebra place }
    ensures count { IfOk result (λ r. r.0 ≤ place.a) }
    ensures value { IfOk result (λ r. r.1 ≡ normal_form seat.now.algebra (replicate r.0 place.j ++ replicate place.b place.i)) }
{
    if place.a > 1 {
        let smaller = Place {
            a: place.a - 1,
            ..place
        };
        if let Some(value) = seat.known(smaller) {
            return Ok((u16::from(smaller.a), value.copy(alloc)?));
        }
    }
    let power = swap_of(place).power_right(alloc, seat.algebra())?;
    Ok((0, power))
}

/// The value of a place, by the formula of its relation's kind, and else from what the seat knows.
pub(crate) fn first_value(
    alloc: Global,
    seat: &TableSeat,
    place: Place,
) -> Result<GPoly, AllocError>
    requires { IsPlace seat.now.algebra place }
    ensures { IfOk result (λ r. r ≡ place_value seat.now.algebra place) }
{
    if let Some(kind) = seat.kind(place.i, place.j) {
        return swap_of(place).by_formula(alloc, seat.algebra(), &kind);
    }
    let (count, value) = known_part(alloc, seat, place)?;
    raised(alloc, &mut Known { seat }, swap_of(place), count, value)
}
