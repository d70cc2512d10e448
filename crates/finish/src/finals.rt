//! Finals: the elements of a finished list, each with where it comes from.

ghost use Rattle.std.specs.Prelude.{◌≡◌, ◌≤◌, length, IfOk, OnOk, Err, Some, None};
ghost use Rattle.std.specs.List.{insert};
ghost use Rattle.monomials.specs.Polynomials.{Each, IsPolynomial};
ghost use Rattle.word_model.specs.Finished.{Final as Finale, insert_final, finals_from, list_of};
ghost use Rattle.word_model.specs.Machine.{IsElement};
ghost use Rattle.gproduct.specs.Seats.{Keeps};
ghost use Rattle.finish.specs.Finishing.{add_final};

use algebra::{Algebra, ProductFault};
use gpoly::GPoly;
use gproduct::{Steps, TableSeat};
use left_reduce::reduce_tail;
use run_records::{Elements, Finished, Trace};
use std::alloc::{AllocError, Global};
use std::marker::Model;
use std::sync::ledger::Ledger;

// An element of the finished list, with its number in the basis and the steps that reduced its
// tail.
#[derive(Drop)]
pub(crate) struct Final {
    polynomial: GPoly,
    origin: u32,
    tail: Trace,
}

impl Model for Final {
    ghost use Rattle.word_model.specs.Finished.{Final as Finale};

    ghost Value = { Finale };

    ghost view = { λ x. record { polynomial = x.polynomial; origin = x.origin; tail = x.tail } };
}

// The elements but for zeros, ascending by leading monomials, each with its tail reduced by all of
// them.
pub(crate) fn ascending<E: Elements, L: Ledger>(
    alloc: Global,
    seat: &mut TableSeat,
    elements: &E,
    steps: &mut Steps<L>,
) -> Result<Vec<Final>, ProductFault>
    requires sorted { Each (IsPolynomial seat.old.algebra.p seat.old.algebra.order) (E.elements elements.now) }
    requires few { length (E.elements elements.now) ≤ 4294967295 }
    ensures value { IfOk result (λ finals.
        finals_from seat.old.algebra (E.elements elements.now) 1 (E.elements elements.now) ≡ Some finals.items) }
    ensures finals { IfOk result (λ finals. Each (λ x. IsElement seat.old.algebra x.polynomial) finals.items) }
    ensures over { result ≡ Err ProductFault.DegreeOver →
        finals_from seat.old.algebra (E.elements elements.now) 1 (E.elements elements.now) ≡ None }
    ensures algebra { seat.new.algebra ≡ seat.old.algebra }
    ensures kept { Keeps seat.old seat.new }
{
    let mut finals = Vec::new(alloc);
    for place in (0..elements.count()).rev() {
        add_final(alloc, seat, elements, place as u32 + 1, &mut finals, steps)?;
    }
    Ok(finals)
}

// The element of this number with its tail reduced by all elements, put among finals that ascend.
fn add_final<E: Elements, L: Ledger>(
    alloc: Global,
    seat: &mut TableSeat,
    elements: &E,
    number: u32,
    finals: &mut Vec<Final>,
    steps: &mut Steps<L>,
) -> Result<(), ProductFault>
    requires sorted { Each (IsPolynomial seat.old.algebra.p seat.old.algebra.order) (E.elements elements.now) }
    requires few { length (E.elements elements.now) ≤ 4294967295 }
    requires first { 1 ≤ number }
    requires last { number ≤ length (E.elements elements.now) }
    requires finals { Each (λ x. IsElement seat.old.algebra x.polynomial) finals.old.items }
    ensures value { OnOk result
        (add_final seat.old.algebra (E.elements elements.now) number (Some finals.old.items) ≡ Some finals.new.items) }
    ensures over { result ≡ Err ProductFault.DegreeOver →
        add_final seat.old.algebra (E.elements elements.now) number (Some finals.old.items) ≡ None }
    ensures finals { OnOk result (Each (λ x. IsElement seat.old.algebra x.polynomial) finals.new.items) }
    ensures algebra { seat.new.algebra ≡ seat.old.algebra }
    ensures kept { Keeps seat.old seat.new }
{
    let algebra = seat.algebra();
    let _n = algebra.n();
    let element = elements.at(number);
    if element.is_zero() {
        return Ok(());
    }
    let (polynomial, tail) = reduce_tail(alloc, seat, elements, element, steps)?;
    insert_final(
        algebra,
        finals,
        Final {
            polynomial,
            origin: number,
            tail,
        },
    )?;
    Ok(())
}

// Puts an element among finals that ascend by leading monomials.
fn insert_final(algebra: &Algebra, finals: &mut Vec<Final>, x: Final) -> Result<(), AllocError>
    requires finals { Each (λ y. IsElement algebra.now y.polynomial) finals.old.items }
    requires x { IsElement algebra.now x.polynomial }
    ensures value { OnOk result (finals.new.items ≡ insert_final algebra.now x finals.old.items) }
    ensures finals { OnOk result (Each (λ y. IsElement algebra.now y.polynomial) finals.new.items) }
{
    let place = place_for(algebra, finals, &x.polynomial);
    finals.insert(place, x)?;
    Ok(())
}

// The place that an element with this polynomial takes among finals that ascend: behind those whose
// leading monomials are not greater.
fn place_for(algebra: &Algebra, finals: &[Final], polynomial: &GPoly) -> usize
    requires finals { Each (λ x. IsElement algebra.now x.polynomial) finals.now }
    requires polynomial { IsElement algebra.now polynomial.now }
    ensures within { result ≤ length finals.now }
    ensures place { (x : Finale) → x.polynomial ≡ polynomial.now →
        insert_final algebra.now x finals.now ≡ insert finals.now result x }
{
    let mono = &polynomial.lead().mono;
    for place in 0..finals.len() {
        let other = &finals[place];
        let other = &other.polynomial.lead().mono;
        if algebra.order().compare(mono, other).is_lt() {
            return place;
        }
    }
    finals.len()
}

// The parts of the finals.
pub(crate) fn split(alloc: Global, finals: Vec<Final>) -> Result<Finished, AllocError>
    ensures { IfOk result (λ f. f ≡ list_of finals.items) }
{
    let mut list = Vec::with_capacity(alloc, finals.len())?;
    let mut origin = Vec::with_capacity(alloc, finals.len())?;
    let mut tails = Vec::with_capacity(alloc, finals.len())?;
    for item in finals {
        list.push(item.polynomial)?;
        origin.push(item.origin)?;
        tails.push(item.tail)?;
    }
    Ok(Finished {
        list,
        origin,
        tails,
    })
}
