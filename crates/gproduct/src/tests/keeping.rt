//! Products that a seat keeps against those of a seat that keeps none.

ghost use Rattle.std.specs.Prelude.{◌≡◌, ◌<◌, IfSome, length};
ghost use Rattle.monomials.specs.Polynomials.{IsPolynomial};

use super::algebras::{named, poly};
use crate::{Steps, Table, TableSeat, kept_times, term_times, times};
use gpoly::GPoly;
use monomials::Expo;
use std::alloc::Global;
use std::marker::Brand;
use std::sync::ledger::{Blank, Ledger};
use std::test::Fail;

// x + y + z + 1
const FACTOR: &str = "1:1.0.0 1:0.1.0 1:0.0.1 1:0.0.0";

// The monomial whose exponents are the digits of a number.
fn monomial(k: u16) -> Expo
    requires { k < 1000 }
    ensures { length result ≡ 3 }
{
    Expo::of(&[k % 10, k / 10 % 10, k / 100])
}

// Whether a product that a seat may keep is the one that another seat makes.
fn agrees<L: Ledger>(
    alloc: Global,
    seat: &mut TableSeat,
    other: &mut TableSeat,
    number: u32,
    mono: &Expo,
    f: &GPoly,
    steps: &mut Steps<L>,
) -> Option<bool>
    requires same { other.old.algebra ≡ seat.old.algebra }
    requires vars { length mono.now ≡ seat.old.algebra.order.vars }
    requires sorted { IsPolynomial seat.old.algebra.p seat.old.algebra.order f.now }
    ensures seat { seat.new.algebra ≡ seat.old.algebra }
    ensures other { other.new.algebra ≡ other.old.algebra }
{
    let _n = other.algebra().n();
    let kept = kept_times(alloc, seat, number, mono, f, steps).ok()?;
    let made = term_times(alloc, other, 1, mono, f, steps).ok()?;
    Some(kept.equals(&made))
}

// Whether those of 800 monomials are.
fn all_agree<L: Ledger>(
    alloc: Global,
    seat: &mut TableSeat,
    other: &mut TableSeat,
    number: u32,
    f: &GPoly,
    steps: &mut Steps<L>,
) -> Option<bool>
    requires same { other.old.algebra ≡ seat.old.algebra }
    requires vars { seat.old.algebra.order.vars ≡ 3 }
    requires sorted { IsPolynomial seat.old.algebra.p seat.old.algebra.order f.now }
    ensures seat { seat.new.algebra ≡ seat.old.algebra }
    ensures other { other.new.algebra ≡ other.old.algebra }
{
    for k in 0..800 {
        if !agrees(alloc, seat, other, number, &monomial(k), f, steps)? {
            return Some(false);
        }
    }
    Some(true)
}

// The sixth power, which has many terms.
fn sixth<L: Ledger>(
    alloc: Global,
    seat: &mut TableSeat,
    f: &GPoly,
    steps: &mut Steps<L>,
) -> Option<GPoly>
    requires { IsPolynomial seat.old.algebra.p seat.old.algebra.order f.now }
    ensures seat { seat.new.algebra ≡ seat.old.algebra }
    ensures sorted { IfSome result (λ r. IsPolynomial seat.old.algebra.p seat.old.algebra.order r) }
{
    let square = times(alloc, seat, f, f, steps).ok()?;
    let fourth = times(alloc, seat, &square, &square, steps).ok()?;
    times(alloc, seat, &square, &fourth, steps).ok()
}

// Whether products agree under a number, under it again, under it with another polynomial, and under
// a further number.
fn agree_under_numbers<L: Ledger>(
    alloc: Global,
    seat: &mut TableSeat,
    other: &mut TableSeat,
    f: &GPoly,
    g: &GPoly,
    steps: &mut Steps<L>,
) -> Option<bool>
    requires same { other.old.algebra ≡ seat.old.algebra }
    requires vars { seat.old.algebra.order.vars ≡ 3 }
    requires f_sorted { IsPolynomial seat.old.algebra.p seat.old.algebra.order f.now }
    requires g_sorted { IsPolynomial seat.old.algebra.p seat.old.algebra.order g.now }
{
    let first = all_agree(alloc, seat, other, 1, f, steps)?;
    let again = all_agree(alloc, seat, other, 1, f, steps)?;
    let changed = all_agree(alloc, seat, other, 1, g, steps)?;
    let further = all_agree(alloc, seat, other, 2, f, steps)?;
    Some(first && again && changed && further)
}

// The same in a Weyl algebra: with so many terms that not all products are kept.
fn agree_in_weyl<L: Ledger>(alloc: Global, blank: Blank) -> Option<bool>
    requires name { blank.name ≡ L.name }
    requires parts { blank.parts ≡ L.parts }
    requires some { 0 < blank.parts }
{
    let algebra = named(alloc, "weyl 7")?;
    let table = Table::new(alloc, &algebra).ok()?;
    let (mut seat, mut other) = (table.seat(alloc).ok()?, table.seat(alloc).ok()?);
    let mut steps = Steps::<L>::start(blank);
    let g = poly(alloc, algebra.field(), algebra.order(), FACTOR)?;
    let f = sixth(alloc, &mut other, &g, &mut steps)?;
    agree_under_numbers(alloc, &mut seat, &mut other, &f, &g, &mut steps)
}

#[test]
fn kept_products_are_products(rt: HostRuntime) -> Result<(), Fail> {
    assert_eq!(rt;
        agree_in_weyl::<Brand>(rt.alloc(), Blank::new(1)),
        Some(true)
    );
    Ok(())
}
