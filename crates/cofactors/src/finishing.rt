//! The rows of a finished list.

ghost use Rattle.std.specs.Prelude.{◌≡◌, ℕ, ◌≤◌, true, false, length, IfOk, OnOk, Err};
ghost use Rattle.monomials.specs.Polynomials.{Each};
ghost use Rattle.word_model.specs.Cofactors.{row_at, less_steps, finished_rows, steps_reach, tails_reach};
ghost use Rattle.gproduct.specs.Seats.{Keeps};
ghost use Rattle.word_model.specs.Inside.Sound.{IsStep};
ghost use Rattle.cofactors.specs.Rows.{IsRow, AreTails};

use crate::multiples::subtract_steps;
use crate::pushing::push;
use algebra::ProductFault;
use gproduct::{Steps, TableSeat};
use run_records::{Finished, Row, Trace};
use std::alloc::Global;
use std::sync::ledger::Ledger;

// The rows of a finished list, over the rows of the basis that it comes from.
pub(crate) fn finished_rows<L: Ledger>(
    alloc: Global,
    seat: &mut TableSeat,
    rows: &[Row],
    list: &Finished,
    steps: &mut Steps<L>,
) -> Result<Vec<Row>, ProductFault>
    requires rows { (g : ℕ) × Each (IsRow seat.old.algebra g) rows.now }
    requires list { AreTails seat.old.algebra (length rows.now) list.now }
    ensures value { IfOk result (λ r. r.items ≡ finished_rows seat.old.algebra rows.now list.now.origin list.now.tails) }
    ensures sorted { IfOk result (λ r. (g : ℕ) → Each (IsRow seat.old.algebra g) rows.now → Each (IsRow seat.old.algebra g) r.items) }
    ensures within { OnOk result (tails_reach rows.now list.now.tails ≡ true) }
    ensures over { result ≡ Err ProductFault.DegreeOver → tails_reach rows.now list.now.tails ≡ false }
    ensures algebra { seat.new.algebra ≡ seat.old.algebra }
    ensures kept { Keeps seat.old seat.new }
{
    let (origin, tails) = (&list.origin, &list.tails);
    let mut finished = Vec::with_capacity(alloc, origin.len())?;
    for place in 0..origin.len() {
        let row = reduced_row(alloc, seat, rows, origin[place], &tails[place], steps)?;
        push(&mut finished, row)?;
    }
    Ok(finished)
}

// The row of the element of a number in the basis, less the steps of its tail.
fn reduced_row<L: Ledger>(
    alloc: Global,
    seat: &mut TableSeat,
    rows: &[Row],
    number: u32,
    tail: &Trace,
    steps: &mut Steps<L>,
) -> Result<Row, ProductFault>
    requires rows { (g : ℕ) × Each (IsRow seat.old.algebra g) rows.now }
    requires first { 1 ≤ number }
    requires last { number ≤ length rows.now }
    requires tail { Each (IsStep seat.old.algebra (length rows.now)) tail.now }
    ensures value { IfOk result (λ r. r ≡ less_steps seat.old.algebra rows.now (row_at rows.now number) tail.now) }
    ensures sorted { IfOk result (λ r. (g : ℕ) → Each (IsRow seat.old.algebra g) rows.now → IsRow seat.old.algebra g r) }
    ensures within { OnOk result (steps_reach rows.now tail.now ≡ true) }
    ensures over { result ≡ Err ProductFault.DegreeOver → steps_reach rows.now tail.now ≡ false }
    ensures algebra { seat.new.algebra ≡ seat.old.algebra }
    ensures kept { Keeps seat.old seat.new }
{
    let Row { mut entries } = rows[number as usize - 1].copy(alloc)?;
    subtract_steps(alloc, seat, &mut entries, rows, tail, steps)?;
    Ok(Row { entries })
}
