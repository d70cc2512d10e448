//! The rows of the entries whose jobs were reduced to zero, and those of zero generators.

ghost use Rattle.std.specs.Prelude.{◌≡◌, suc, ◌<◌, ◌≤◌, ◌++◌, true, false, [], ◌∷◌, length, IfOk, OnOk, Err};
ghost use Rattle.monomials.specs.Polynomials.{Each};
ghost use Rattle.word_model.specs.Machine.{IsElement};
ghost use Rattle.word_model.specs.Cofactors.{unit_row, rows_after};
ghost use Rattle.word_model.specs.Syzygies.{is_zero_row, cons_row, entry_syzygies, zero_units, all_reach};
ghost use Rattle.word_model.specs.declared.records.Mode.TheVariants.{Left};
ghost use Rattle.word_model.specs.Inside.Sound.{IsSound, AreSound, behind_all};
ghost use Rattle.gproduct.specs.Seats.{Keeps};
ghost use Rattle.cofactors.specs.Rows.{IsRow};
ghost use Rattle.syzygies.specs.Zeros.{zeros_reach};

use algebra::{Algebra, ProductFault};
use cofactors::making::{basis_rows, start_row, unit_row};
use cofactors::multiples::subtract_steps;
use gpoly::GPoly;
use gproduct::{Steps, TableSeat};
use run_records::{Entry, Row};
use std::alloc::{AllocError, Global};
use std::sync::ledger::Ledger;

// The syzygies that these entries of a left run over the generators leave, and the unit rows.
pub(crate) fn all_rows<L: Ledger>(
    alloc: Global,
    seat: &mut TableSeat,
    gens: &[GPoly],
    basis: &[GPoly],
    entries: &[Entry],
    steps: &mut Steps<L>,
) -> Result<Vec<Row>, ProductFault>
    requires few { length gens.now ≤ 4294967295 }
    requires elements { Each (IsElement seat.old.algebra) basis.now }
    requires sound { AreSound seat.old.algebra gens.now basis.now Left 0 entries.now }
    requires made { behind_all 0 entries.now ≡ length basis.now }
    ensures value { IfOk result (λ r. r.items ≡ entry_syzygies seat.old.algebra (length gens.now) basis.now
        (rows_after seat.old.algebra (length gens.now) basis.now [] entries.now) entries.now
        ++ zero_units seat.old.algebra (length gens.now) 1 gens.now) }
    ensures sorted { IfOk result (λ r. Each (IsRow seat.old.algebra (length gens.now)) r.items) }
    ensures within { OnOk result (all_reach basis.now
        (rows_after seat.old.algebra (length gens.now) basis.now [] entries.now) entries.now ≡ true) }
    ensures over { result ≡ Err ProductFault.DegreeOver → all_reach basis.now
        (rows_after seat.old.algebra (length gens.now) basis.now [] entries.now) entries.now ≡ false }
    ensures algebra { seat.new.algebra ≡ seat.old.algebra }
    ensures kept { Keeps seat.old seat.new }
{
    let made = basis_rows(alloc, seat, gens, basis, entries, steps)?;
    let mut rows = entry_rows(alloc, seat, gens, basis, &made, entries, steps)?;
    add_units(alloc, seat.algebra(), gens, &mut rows)?;
    Ok(rows)
}

// The rows of the entries whose jobs were reduced to zero, over the rows of all elements.
fn entry_rows<L: Ledger>(
    alloc: Global,
    seat: &mut TableSeat,
    gens: &[GPoly],
    basis: &[GPoly],
    made: &[Row],
    entries: &[Entry],
    steps: &mut Steps<L>,
) -> Result<Vec<Row>, ProductFault>
    requires few { length gens.now ≤ 4294967295 }
    requires elements { Each (IsElement seat.old.algebra) basis.now }
    requires rows { Each (IsRow seat.old.algebra (length gens.now)) made.now }
    requires one_each { length made.now ≤ length basis.now }
    requires sound { Each (IsSound seat.old.algebra gens.now basis.now Left (length made.now)) entries.now }
    ensures value { IfOk result (λ r.
        r.items ≡ entry_syzygies seat.old.algebra (length gens.now) basis.now made.now entries.now) }
    ensures sorted { IfOk result (λ r. Each (IsRow seat.old.algebra (length gens.now)) r.items) }
    ensures within { OnOk result (zeros_reach basis.now made.now entries.now ≡ true) }
    ensures over { result ≡ Err ProductFault.DegreeOver → zeros_reach basis.now made.now entries.now ≡ false }
    ensures algebra { seat.new.algebra ≡ seat.old.algebra }
    ensures kept { Keeps seat.old seat.new }
{
    let mut rows = Vec::new(alloc);
    for entry in entries {
        add_entry(alloc, seat, gens, basis, made, entry, &mut rows, steps)?;
    }
    Ok(rows)
}

// Adds the row of an entry whose job was reduced to zero, unless it is zero.
fn add_entry<L: Ledger>(
    alloc: Global,
    seat: &mut TableSeat,
    gens: &[GPoly],
    basis: &[GPoly],
    made: &[Row],
    entry: &Entry,
    rows: &mut Vec<Row>,
    steps: &mut Steps<L>,
) -> Result<(), ProductFault>
    requires few { length gens.now ≤ 4294967295 }
    requires elements { Each (IsElement seat.old.algebra) basis.now }
    requires made_rows { Each (IsRow seat.old.algebra (length gens.now)) made.now }
    requires one_each { length made.now ≤ length basis.now }
    requires sound { IsSound seat.old.algebra gens.now basis.now Left (length made.now) entry.now }
    requires rows { Each (IsRow seat.old.algebra (length gens.now)) rows.old.items }
    ensures value { OnOk result (rows.new.items ≡ rows.old.items
        ++ entry_syzygies seat.old.algebra (length gens.now) basis.now made.now (entry.now ∷ [])) }
    ensures sorted { OnOk result (Each (IsRow seat.old.algebra (length gens.now)) rows.new.items) }
    ensures within { OnOk result (zeros_reach basis.now made.now (entry.now ∷ []) ≡ true) }
    ensures over { result ≡ Err ProductFault.DegreeOver → zeros_reach basis.now made.now (entry.now ∷ []) ≡ false }
    ensures algebra { seat.new.algebra ≡ seat.old.algebra }
    ensures kept { Keeps seat.old seat.new }
{
    match entry {
        Entry::Zero { job, trace } => {
            let mut row = start_row(alloc, seat, gens, basis, made, *job, steps)?;
            subtract_steps(alloc, seat, &mut row, made, trace, steps)?;
            push_nonzero(rows, row)?;
        }
        Entry::Skipped { .. } | Entry::New { .. } => {}
    }
    Ok(())
}

// Adds a row at the end, unless it is zero.
fn push_nonzero(rows: &mut Vec<Row>, entries: Vec<GPoly>) -> Result<(), AllocError>
    ensures { OnOk result (rows.new.items ≡ rows.old.items ++ cons_row entries.items []) }
{
    if is_zero_row(&entries) {
        return Ok(());
    }
    push(rows, Row { entries })
}

// Adds a row at the end.
fn push(rows: &mut Vec<Row>, row: Row) -> Result<(), AllocError>
    ensures { OnOk result (rows.new.items ≡ rows.old.items ++ row ∷ []) }
{
    rows.push(row)?;
    Ok(())
}

// Whether all entries of a row are zero.
fn is_zero_row(entries: &[GPoly]) -> bool
    ensures { result ≡ is_zero_row entries.now }
{
    for entry in entries {
        if !entry.is_zero() {
            return false;
        }
    }
    true
}

// Adds the unit row of each generator that is zero.
fn add_units(
    alloc: Global,
    algebra: &Algebra,
    gens: &[GPoly],
    rows: &mut Vec<Row>,
) -> Result<(), AllocError>
    requires few { length gens.now ≤ 4294967295 }
    requires rows { Each (IsRow algebra.now (length gens.now)) rows.old.items }
    ensures value { OnOk result (rows.new.items ≡ rows.old.items ++ zero_units algebra.now (length gens.now) 1 gens.now) }
    ensures sorted { OnOk result (Each (IsRow algebra.now (length gens.now)) rows.new.items) }
{
    for place in 0..gens.len() {
        if gens[place].is_zero() {
            add_unit(alloc, algebra, gens.len(), place, rows)?;
        }
    }
    Ok(())
}

// Adds the unit row of the generator at a place, which counts from 0.
fn add_unit(
    alloc: Global,
    algebra: &Algebra,
    count: usize,
    place: usize,
    rows: &mut Vec<Row>,
) -> Result<(), AllocError>
    requires few { count ≤ 4294967295 }
    requires inside { place < count }
    requires rows { Each (IsRow algebra.now count) rows.old.items }
    ensures value { OnOk result (rows.new.items ≡ rows.old.items ++ unit_row algebra.now count (suc place) ∷ []) }
    ensures sorted { OnOk result (Each (IsRow algebra.now count) rows.new.items) }
{
    let entries = unit_row(alloc, algebra, count, place as u32 + 1)?;
    push(rows, Row { entries })
}
