//! Multiples of rows. A zero entry costs nothing: rows over thousands of generators are mostly zero.

ghost use Rattle.std.specs.Prelude.{◌≡◌, ◌≤◌, true, false, [], ◌∷◌, length, IfOk, OnOk, Err};
ghost use Rattle.monomials.specs.Orders.{order_cmp};
ghost use Rattle.monomials.specs.Polynomials.{Each, IsPolynomial, poly_sub};
ghost use Rattle.word_model.specs.Products.{in_reach};
ghost use Rattle.word_model.specs.Reduction.{multiple};
ghost use Rattle.word_model.specs.Cofactors.{row_at, row_sub, row_multiple, less_steps, multiple_reaches, steps_reach};
ghost use Rattle.gproduct.specs.Seats.{Keeps};
ghost use Rattle.word_model.specs.Inside.Sound.{IsStep};
ghost use Rattle.cofactors.specs.Rows.{IsRow, IsFactor};

use crate::pushing::push;
use algebra::ProductFault;
use gpoly::{GPoly, Term};
use gproduct::{Steps, TableSeat, term_times};
use run_records::{Row, Trace};
use std::alloc::Global;
use std::sync::ledger::Ledger;

// The entries of the row of number `i`, which counts from 1.
pub(crate) fn row_at(rows: &[Row], i: u32) -> &[GPoly]
    requires first { 1 ≤ i }
    requires last { i ≤ length rows.now }
    ensures { result.now ≡ row_at rows.now i }
{
    let row = &rows[i as usize - 1];
    &row.entries
}

// A term times each entry.
pub(crate) fn multiple<L: Ledger>(
    alloc: Global,
    seat: &mut TableSeat,
    term: &Term,
    entries: &[GPoly],
    steps: &mut Steps<L>,
) -> Result<Vec<GPoly>, ProductFault>
    requires term { IsFactor seat.old.algebra term.now.coef term.now.mono }
    requires sorted { Each (IsPolynomial seat.old.algebra.p seat.old.algebra.order) entries.now }
    ensures value { IfOk result (λ r. r.items ≡ row_multiple seat.old.algebra term.now.coef term.now.mono entries.now) }
    ensures sorted { IfOk result (λ r. IsRow seat.old.algebra (length entries.now) r.items) }
    ensures within { OnOk result (multiple_reaches term.now.mono entries.now ≡ true) }
    ensures over { result ≡ Err ProductFault.DegreeOver → multiple_reaches term.now.mono entries.now ≡ false }
    ensures algebra { seat.new.algebra ≡ seat.old.algebra }
    ensures kept { Keeps seat.old seat.new }
{
    let mut multiples = Vec::with_capacity(alloc, entries.len())?;
    for entry in entries {
        let product = entry_multiple(alloc, seat, term, entry, steps)?;
        push(&mut multiples, product)?;
    }
    Ok(multiples)
}

// A term times an entry.
fn entry_multiple<L: Ledger>(
    alloc: Global,
    seat: &mut TableSeat,
    term: &Term,
    entry: &GPoly,
    steps: &mut Steps<L>,
) -> Result<GPoly, ProductFault>
    requires term { IsFactor seat.old.algebra term.now.coef term.now.mono }
    requires sorted { IsPolynomial seat.old.algebra.p seat.old.algebra.order entry.now }
    ensures value { IfOk result (λ r. r ≡ multiple seat.old.algebra term.now.coef term.now.mono entry.now) }
    ensures sorted { IfOk result (λ r. IsPolynomial seat.old.algebra.p seat.old.algebra.order r) }
    ensures within { OnOk result (in_reach ((1, term.now.mono) ∷ []) entry.now ≡ true) }
    ensures over { result ≡ Err ProductFault.DegreeOver → in_reach ((1, term.now.mono) ∷ []) entry.now ≡ false }
    ensures algebra { seat.new.algebra ≡ seat.old.algebra }
    ensures kept { Keeps seat.old seat.new }
{
    if entry.is_zero() {
        return Ok(GPoly::zero(alloc));
    }
    term_times(alloc, seat, term.coef, &term.mono, entry, steps)
}

// Subtracts a term times each of the others from the entries.
pub(crate) fn subtract<L: Ledger>(
    alloc: Global,
    seat: &mut TableSeat,
    entries: &mut [GPoly],
    term: &Term,
    others: &[GPoly],
    steps: &mut Steps<L>,
) -> Result<(), ProductFault>
    requires term { IsFactor seat.old.algebra term.now.coef term.now.mono }
    requires entries { Each (IsPolynomial seat.old.algebra.p seat.old.algebra.order) entries.old }
    requires others { IsRow seat.old.algebra (length entries.old) others.now }
    ensures value { OnOk result (entries.new
        ≡ row_sub seat.old.algebra entries.old (row_multiple seat.old.algebra term.now.coef term.now.mono others.now)) }
    ensures sorted { Each (IsPolynomial seat.old.algebra.p seat.old.algebra.order) entries.new }
    ensures within { OnOk result (multiple_reaches term.now.mono others.now ≡ true) }
    ensures over { result ≡ Err ProductFault.DegreeOver → multiple_reaches term.now.mono others.now ≡ false }
    ensures algebra { seat.new.algebra ≡ seat.old.algebra }
    ensures kept { Keeps seat.old seat.new }
{
    for place in 0..entries.len() {
        subtract_one(
            alloc,
            seat,
            &mut entries[place],
            term,
            &others[place],
            steps,
        )?;
    }
    Ok(())
}

// Subtracts a term times another entry from an entry.
fn subtract_one<L: Ledger>(
    alloc: Global,
    seat: &mut TableSeat,
    entry: &mut GPoly,
    term: &Term,
    other: &GPoly,
    steps: &mut Steps<L>,
) -> Result<(), ProductFault>
    requires term { IsFactor seat.old.algebra term.now.coef term.now.mono }
    requires entry { IsPolynomial seat.old.algebra.p seat.old.algebra.order entry.old }
    requires other { IsPolynomial seat.old.algebra.p seat.old.algebra.order other.now }
    ensures value { OnOk result (entry.new ≡ poly_sub (order_cmp seat.old.algebra.order.rows) seat.old.algebra.p
        entry.old (multiple seat.old.algebra term.now.coef term.now.mono other.now)) }
    ensures sorted { IsPolynomial seat.old.algebra.p seat.old.algebra.order entry.new }
    ensures within { OnOk result (in_reach ((1, term.now.mono) ∷ []) other.now ≡ true) }
    ensures over { result ≡ Err ProductFault.DegreeOver → in_reach ((1, term.now.mono) ∷ []) other.now ≡ false }
    ensures algebra { seat.new.algebra ≡ seat.old.algebra }
    ensures kept { Keeps seat.old seat.new }
{
    if other.is_zero() {
        return Ok(());
    }
    let algebra = seat.algebra();
    let product = term_times(alloc, seat, term.coef, &term.mono, other, steps)?;
    *entry = entry.sub(alloc, algebra.field(), algebra.order(), &product)?;
    Ok(())
}

/// Subtracts the multiples of rows that the steps of a trace name. Where it refuses, some entries may be subtracted from
/// already, and each is a polynomial still.
pub fn subtract_steps<L: Ledger>(
    alloc: Global,
    seat: &mut TableSeat,
    entries: &mut [GPoly],
    rows: &[Row],
    trace: &Trace,
    steps: &mut Steps<L>,
) -> Result<(), ProductFault>
    requires entries { Each (IsPolynomial seat.old.algebra.p seat.old.algebra.order) entries.old }
    requires rows { Each (IsRow seat.old.algebra (length entries.old)) rows.now }
    requires steps { Each (IsStep seat.old.algebra (length rows.now)) trace.now }
    ensures value { OnOk result (entries.new ≡ less_steps seat.old.algebra rows.now entries.old trace.now) }
    ensures sorted { Each (IsPolynomial seat.old.algebra.p seat.old.algebra.order) entries.new }
    ensures within { OnOk result (steps_reach rows.now trace.now ≡ true) }
    ensures over { result ≡ Err ProductFault.DegreeOver → steps_reach rows.now trace.now ≡ false }
    ensures algebra { seat.new.algebra ≡ seat.old.algebra }
    ensures kept { Keeps seat.old seat.new }
{
    let made = trace.steps();
    for step in made {
        let term = Term {
            coef: step.coef,
            mono: step.mono,
        };
        subtract(alloc, seat, entries, &term, row_at(rows, step.index), steps)?;
    }
    Ok(())
}
