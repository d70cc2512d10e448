//! Values of places, seats at one table, and products of powers, worked by rewriting words outside.

ghost use Rattle.std.specs.Prelude.{◌≡◌, ◌≤◌, IfSome};
ghost use Rattle.gproduct.specs.Places.{IsPlace};

use super::algebras::{is_poly, named, poly, ring_in_sixteen};
use crate::powers::power_terms;
use crate::{Learned, Place, Table, TableSeat, value_of};
use algebra::Algebra;
use gpoly::GPoly;
use std::alloc::Global;
use std::test::Fail;

// The numbers of a text, parted by spaces.
fn four(text: &str) -> Option<(u8, u8, u16, u16)> {
    let mut words = text.split(' ');
    let i = words.next()?.parse::<u8>().ok()?;
    let j = words.next()?.parse::<u8>().ok()?;
    let a = words.next()?.parse::<u16>().ok()?;
    let b = words.next()?.parse::<u16>().ok()?;
    Some((i, j, a, b))
}

// The place of the algebra with these variables and these exponents.
fn place_of(algebra: &Algebra, text: &str) -> Option<Place>
    ensures { IfSome result (λ place. IsPlace algebra.now place) }
{
    let (i, j, a, b) = four(text)?;
    if i < 1 || i >= j || usize::from(j) > algebra.n() {
        return None;
    }
    if a < 1 || a > 16 || b < 1 || b > 16 {
        return None;
    }
    let (a, b) = (a as u8, b as u8);
    Some(Place { i, j, a, b })
}

// Whether the seat learns the place by its cell.
fn learns(alloc: Global, seat: &mut TableSeat, place: Place) -> Option<bool>
    requires { IsPlace seat.old.algebra place }
    ensures { seat.new.algebra ≡ seat.old.algebra }
{
    let learned = seat.learn(alloc, place).ok()?;
    Some(matches!(learned, Learned::Shared))
}

// A seat at a table.
fn seat_at<'t, 'r>(alloc: Global, table: &'t Table<'r>) -> Option<TableSeat<'t, 'r>>
    ensures { IfSome result (λ s. s.algebra ≡ table.now) }
{
    table.seat(alloc).ok()
}

// Whether a seat that does not know the place learns it by its cell, with this value.
fn learns_value(alloc: Global, seat: &mut TableSeat, place: Place, value: &GPoly) -> Option<bool>
    requires { IsPlace seat.old.algebra place }
{
    let unknown = seat.known(place).is_none();
    let learns = learns(alloc, seat, place)?;
    let same = seat.known(place)?.equals(value);
    Some(unknown && learns && same)
}

// Whether one seat learns the place, and then a second one, which did not see that, by the same cell; and whether the value is the
// one that is computed alone.
fn seats_share(alloc: Global, table: &Table, place: Place, value: &GPoly) -> Option<bool>
    requires { IsPlace table.now place }
{
    let mut first = seat_at(alloc, table)?;
    let mut second = seat_at(alloc, table)?;
    let first_learns = learns_value(alloc, &mut first, place, value)?;
    let second_learns = learns_value(alloc, &mut second, place, value)?;
    Some(first_learns && second_learns)
}

// Whether seats at a table of the algebra share the place.
fn is_shared(alloc: Global, algebra: &Algebra, place: Place, value: &GPoly) -> Option<bool>
    requires { IsPlace algebra.now place }
{
    let table = Table::new(alloc, algebra).ok()?;
    seats_share(alloc, &table, place, value)
}

// Whether a value is the monomial x_i^b x_j^a.
fn is_sorted(value: &GPoly, place: Place) -> bool
    requires first { 1 ≤ place.i }
    requires second { 1 ≤ place.j }
{
    match value.terms() {
        [term] => {
            let n = term.mono.len();
            usize::from(place.i) <= n
                && usize::from(place.j) <= n
                && term.coef == 1
                && term.mono.degree() == u32::from(place.a) + u32::from(place.b)
                && term.mono.get(place.i) == u16::from(place.b)
                && term.mono.get(place.j) == u16::from(place.a)
        }
        _ => false,
    }
}

// An algebra, a place, and its value: also the first and the last place, of three variables and of sixteen.
const VALUES: &str = "\
weyl 7/1 2 2 2/1:2.2.0 4:1.1.0 2:0.0.0
plane/1 2 1 1/3:1.1.0
plane/2 3 16 16/1:0.16.16
right/1 2 1 2/1:2.1.0 2:1.1.0 1:0.1.0
sl2/1 2 2 2/1:2.2.0 31999:1.1.1 2:0.0.2 2:0.0.1";

// Whether a row holds.
fn value_holds(alloc: Global, row: &str) -> Option<bool> {
    let mut parts = row.split('/');
    let algebra = named(alloc, parts.next()?)?;
    let place = place_of(&algebra, parts.next()?)?;
    let value = value_of(alloc, &algebra, place).ok()?;
    let shared = is_shared(alloc, &algebra, place, &value)?;
    Some(shared && is_poly(alloc, &algebra, &value, parts.next()?)?)
}

// The same in sixteen variables that commute.
fn sorted_holds(alloc: Global, text: &str) -> Option<bool> {
    let algebra = ring_in_sixteen(alloc)?;
    let place = place_of(&algebra, text)?;
    let value = value_of(alloc, &algebra, place).ok()?;
    Some(is_sorted(&value, place) && is_shared(alloc, &algebra, place, &value)?)
}

#[test]
fn shared_cells_seen(rt: HostRuntime) -> Result<(), Fail> {
    for row in VALUES.lines() {
        assert_eq!(rt; value_holds(rt.alloc(), row), Some(true), "{row}");
    }
    for place in "1 2 1 1/15 16 16 16".split('/') {
        assert_eq!(rt; sorted_holds(rt.alloc(), place), Some(true), "{place}");
    }
    Ok(())
}

// An algebra, two variables with the greatest exponents, the exponents of the product, and the product.
const POWERS: &str = "\
weyl 7/1 2 17 1/17 1/1:1.17.0 3:0.16.0
plane/1 2 900 900/900 900/1:900.900.0
sl2/1 2 20 1/16 1/1:1.16.0 31987:0.15.1 240:0.15.0
sl2/1 3 1 18/1 18/1:18.0.1 36:18.0.0";

// The exponents of the product of powers of two of three variables, by a new table, where it is that of the text.
fn exponents(alloc: Global, algebra: &Algebra, powers: &str, want: &str) -> Option<(u16, u16)>
    requires { algebra.now.order.vars ≡ 3 }
{
    let (i, j, a, b) = four(powers)?;
    if i < 1 || i >= j || j > 3 || a < 1 || a > 2000 || b < 1 || b > 2000 {
        return None;
    }
    let table = Table::new(alloc, algebra).ok()?;
    let mut seat = table.seat(alloc).ok()?;
    let mut terms = Vec::new(alloc);
    let exponents = power_terms(alloc, &mut seat, i, j, a, b, &mut terms).ok()?;
    let want = poly(alloc, algebra.field(), algebra.order(), want)?;
    if terms.as_slice() == want.terms() {
        Some(exponents)
    } else {
        None
    }
}

// Whether a row holds.
fn powers_hold(alloc: Global, row: &str) -> Option<bool> {
    let mut parts = row.split('/');
    let algebra = named(alloc, parts.next()?)?;
    let powers = parts.next()?;
    let (a, b) = parts.next()?.split_once(' ')?;
    let want = (a.parse::<u16>().ok()?, b.parse::<u16>().ok()?);
    Some(exponents(alloc, &algebra, powers, parts.next()?)? == want)
}

#[test]
fn products_of_powers(rt: HostRuntime) -> Result<(), Fail> {
    for row in POWERS.lines() {
        assert_eq!(rt; powers_hold(rt.alloc(), row), Some(true), "{row}");
    }
    Ok(())
}

/// Threads may share and send values of this type.
fn shared<T: Sync + Send>() {}

// Also a table and its seats, for any time that they live.
fn tables_are_shared<'t, 'r: 't>() {
    shared::<Table<'r>>();
    shared::<TableSeat<'t, 'r>>();
}

#[test]
fn threads_share_tables_and_send_seats() {
    shared::<Place>();
    tables_are_shared();
}
