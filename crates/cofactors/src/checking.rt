//! The value of a row over generators.

ghost use Rattle.std.specs.Prelude.{◌≡◌, ◌≤◌, true, false, length, IfOk, OnOk, Err};
ghost use Rattle.monomials.specs.Orders.{order_cmp};
ghost use Rattle.monomials.specs.Polynomials.{Each, IsPolynomial, poly_add};
ghost use Rattle.word_model.specs.Products.{product, in_reach};
ghost use Rattle.word_model.specs.Cofactors.{row_value, value_reaches, values_reach};
ghost use Rattle.gproduct.specs.Seats.{Keeps};
ghost use Rattle.cofactors.specs.Rows.{IsRow};

use algebra::{ProductFault, in_reach};
use gpoly::GPoly;
use gproduct::{Steps, TableSeat, times};
use run_records::Row;
use std::alloc::Global;
use std::sync::ledger::Ledger;

// Whether the products of the entries of each row with the generators are within the limit.
pub(crate) fn values_reach(rows: &[Row], gens: &[GPoly]) -> bool
    requires one_each { Each (λ row. length row ≡ length gens.now) rows.now }
    ensures { result ≡ values_reach rows.now gens.now }
{
    for row in rows {
        if !value_reaches(&row.entries, gens) {
            return false;
        }
    }
    true
}

// Whether the products of a row's entries with the generators are within the limit.
pub(crate) fn value_reaches(entries: &[GPoly], gens: &[GPoly]) -> bool
    requires one_each { length entries.now ≡ length gens.now }
    ensures { result ≡ value_reaches entries.now gens.now }
{
    for place in 0..entries.len() {
        if !in_reach(&entries[place], &gens[place]) {
            return false;
        }
    }
    true
}

// The sum of each entry times its generator.
pub(crate) fn row_value<L: Ledger>(
    alloc: Global,
    seat: &mut TableSeat,
    entries: &[GPoly],
    gens: &[GPoly],
    steps: &mut Steps<L>,
) -> Result<GPoly, ProductFault>
    requires entries { IsRow seat.old.algebra (length gens.now) entries.now }
    requires generators { Each (IsPolynomial seat.old.algebra.p seat.old.algebra.order) gens.now }
    ensures value { IfOk result (λ r. r ≡ row_value seat.old.algebra entries.now gens.now) }
    ensures over { result ≡ Err ProductFault.DegreeOver → value_reaches entries.now gens.now ≡ false }
    ensures algebra { seat.new.algebra ≡ seat.old.algebra }
    ensures kept { Keeps seat.old seat.new }
{
    let mut value = GPoly::zero(alloc);
    for place in (0..entries.len()).rev() {
        add_product(
            alloc,
            seat,
            &mut value,
            &entries[place],
            &gens[place],
            steps,
        )?;
    }
    Ok(value)
}

// Adds the product of two polynomials to a sum. Where one is zero that costs nothing.
fn add_product<L: Ledger>(
    alloc: Global,
    seat: &mut TableSeat,
    sum: &mut GPoly,
    f: &GPoly,
    g: &GPoly,
    steps: &mut Steps<L>,
) -> Result<(), ProductFault>
    requires sum { IsPolynomial seat.old.algebra.p seat.old.algebra.order sum.old }
    requires f_sorted { IsPolynomial seat.old.algebra.p seat.old.algebra.order f.now }
    requires g_sorted { IsPolynomial seat.old.algebra.p seat.old.algebra.order g.now }
    ensures value { OnOk result (sum.new
        ≡ poly_add (order_cmp seat.old.algebra.order.rows) seat.old.algebra.p (product seat.old.algebra f.now g.now) sum.old) }
    ensures sorted { OnOk result (IsPolynomial seat.old.algebra.p seat.old.algebra.order sum.new) }
    ensures over { result ≡ Err ProductFault.DegreeOver → in_reach f.now g.now ≡ false }
    ensures algebra { seat.new.algebra ≡ seat.old.algebra }
    ensures kept { Keeps seat.old seat.new }
{
    if f.is_zero() || g.is_zero() {
        return Ok(());
    }
    let algebra = seat.algebra();
    let product = times(alloc, seat, f, g, steps)?;
    *sum = product.add(alloc, algebra.field(), algebra.order(), sum)?;
    Ok(())
}
