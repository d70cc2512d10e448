//! The rows of all elements of a run, from its entries.

ghost use Rattle.std.specs.Prelude.{◌≡◌, ◌≢◌, ℕ, ◌<◌, ◌≤◌, ◌&&◌, true, false, [], ◌∷◌, map, length, IfOk, OnOk, Err, None};
ghost use Rattle.monomials.specs.Monomials.{one};
ghost use Rattle.monomials.specs.Polynomials.{Each, IsPolynomial, poly_scale};
ghost use Rattle.word_model.specs.Jobs.{start_of, pair_within};
ghost use Rattle.word_model.specs.Machine.{IsElement};
ghost use Rattle.word_model.specs.Cofactors.{unit_row, start_row, less_steps, rows_after, steps_reach, start_reaches, entries_reach};
ghost use Rattle.word_model.specs.declared.records.Job.TheVariants.{Pair};
ghost use Rattle.word_model.specs.declared.records.Mode.TheVariants.{Left};
ghost use Rattle.gproduct.specs.Seats.{Keeps};
ghost use Rattle.word_model.specs.Inside.Sound.{IsStep, IsNamed, IsSound, AreSound, behind_all};
ghost use Rattle.cofactors.specs.Rows.{IsRow};

use crate::multiples::{multiple, row_at, subtract, subtract_steps};
use crate::pairs::pair_terms;
use crate::pushing::push;
use algebra::{Algebra, ProductFault};
use gpoly::{GPoly, Term, zeros};
use gproduct::{Steps, TableSeat};
use monomials::Expo;
use run_records::{Entry, Job, Row, Trace};
use std::alloc::{AllocError, Global};
use std::sync::ledger::Ledger;

/// The rows of the elements that these entries of a left run over the generators add.
pub fn basis_rows<L: Ledger>(
    alloc: Global,
    seat: &mut TableSeat,
    gens: &[GPoly],
    basis: &[GPoly],
    entries: &[Entry],
    steps: &mut Steps<L>,
) -> Result<Vec<Row>, ProductFault>
    requires few { length gens.now ≤ 4294967295 }
    requires elements { Each (IsElement seat.old.algebra) basis.now }
    requires sound { AreSound seat.old.algebra gens.now basis.now Left 0 entries.now }
    requires made { behind_all 0 entries.now ≡ length basis.now }
    ensures value { IfOk result (λ r. r.items ≡ rows_after seat.old.algebra (length gens.now) basis.now [] entries.now) }
    ensures sorted { IfOk result (λ r. Each (IsRow seat.old.algebra (length gens.now)) r.items) }
    ensures within { OnOk result (entries_reach basis.now
        (rows_after seat.old.algebra (length gens.now) basis.now [] entries.now) entries.now ≡ true) }
    ensures over { result ≡ Err ProductFault.DegreeOver → entries_reach basis.now
        (rows_after seat.old.algebra (length gens.now) basis.now [] entries.now) entries.now ≡ false }
    ensures algebra { seat.new.algebra ≡ seat.old.algebra }
    ensures kept { Keeps seat.old seat.new }
{
    let mut rows = Vec::new(alloc);
    for entry in entries {
        add_row(alloc, seat, gens, basis, entry, &mut rows, steps)?;
    }
    Ok(rows)
}

// Adds the row of the element that an entry adds, if it adds one.
fn add_row<L: Ledger>(
    alloc: Global,
    seat: &mut TableSeat,
    gens: &[GPoly],
    basis: &[GPoly],
    entry: &Entry,
    rows: &mut Vec<Row>,
    steps: &mut Steps<L>,
) -> Result<(), ProductFault>
    requires few { length gens.now ≤ 4294967295 }
    requires elements { Each (IsElement seat.old.algebra) basis.now }
    requires rows { Each (IsRow seat.old.algebra (length gens.now)) rows.old.items }
    requires sound { IsSound seat.old.algebra gens.now basis.now Left (length rows.old.items) entry.now }
    requires made { length rows.old.items ≤ length basis.now }
    ensures value { OnOk result (rows.new.items
        ≡ rows_after seat.old.algebra (length gens.now) basis.now rows.old.items (entry.now ∷ [])) }
    ensures sorted { OnOk result (Each (IsRow seat.old.algebra (length gens.now)) rows.new.items) }
    ensures within { OnOk result (entries_reach basis.now rows.old.items (entry.now ∷ []) ≡ true) }
    ensures over { result ≡ Err ProductFault.DegreeOver → entries_reach basis.now rows.old.items (entry.now ∷ []) ≡ false }
    ensures algebra { seat.new.algebra ≡ seat.old.algebra }
    ensures kept { Keeps seat.old seat.new }
{
    match entry {
        Entry::New { job, trace, scale } => {
            let start = start_row(alloc, seat, gens, basis, rows, *job, steps)?;
            let row = new_row(alloc, seat, rows, start, trace, *scale, steps)?;
            push(rows, row)?;
        }
        Entry::Skipped { .. } | Entry::Zero { .. } => {}
    }
    Ok(())
}

// The row of a new element: its start less the steps, times the scale.
fn new_row<L: Ledger>(
    alloc: Global,
    seat: &mut TableSeat,
    rows: &[Row],
    start: Vec<GPoly>,
    trace: &Trace,
    scale: u32,
    steps: &mut Steps<L>,
) -> Result<Row, ProductFault>
    requires start { Each (IsPolynomial seat.old.algebra.p seat.old.algebra.order) start.items }
    requires rows { Each (IsRow seat.old.algebra (length start.items)) rows.now }
    requires steps { Each (IsStep seat.old.algebra (length rows.now)) trace.now }
    requires in_range { scale < seat.old.algebra.p }
    ensures value { IfOk result (λ r.
        r ≡ map (poly_scale seat.old.algebra.p scale) (less_steps seat.old.algebra rows.now start.items trace.now)) }
    ensures sorted { IfOk result (λ r. IsRow seat.old.algebra (length start.items) r) }
    ensures within { OnOk result (steps_reach rows.now trace.now ≡ true) }
    ensures over { result ≡ Err ProductFault.DegreeOver → steps_reach rows.now trace.now ≡ false }
    ensures algebra { seat.new.algebra ≡ seat.old.algebra }
    ensures kept { Keeps seat.old seat.new }
{
    let mut entries = start;
    subtract_steps(alloc, seat, &mut entries, rows, trace, steps)?;
    let entries = scaled(alloc, seat.algebra(), scale, &entries)?;
    Ok(Row { entries })
}

/// The entries of the row of a job's start.
pub fn start_row<L: Ledger>(
    alloc: Global,
    seat: &mut TableSeat,
    gens: &[GPoly],
    basis: &[GPoly],
    rows: &[Row],
    job: Job,
    steps: &mut Steps<L>,
) -> Result<Vec<GPoly>, ProductFault>
    requires few { length gens.now ≤ 4294967295 }
    requires elements { Each (IsElement seat.old.algebra) basis.now }
    requires rows { Each (IsRow seat.old.algebra (length gens.now)) rows.now }
    requires made { length rows.now ≤ length basis.now }
    requires named { IsNamed seat.old.algebra gens.now basis.now Left (length rows.now) job }
    requires computed { start_of seat.old.algebra gens.now basis.now job ≢ None }
    ensures value { IfOk result (λ r. r.items ≡ start_row seat.old.algebra (length gens.now) basis.now rows.now job) }
    ensures sorted { IfOk result (λ r. IsRow seat.old.algebra (length gens.now) r.items) }
    ensures within { OnOk result (start_reaches basis.now rows.now job ≡ true) }
    ensures over { result ≡ Err ProductFault.DegreeOver → start_reaches basis.now rows.now job ≡ false }
    ensures algebra { seat.new.algebra ≡ seat.old.algebra }
    ensures kept { Keeps seat.old seat.new }
{
    match job {
        Job::Seed { s } => Ok(unit_row(alloc, seat.algebra(), gens.len(), s)?),
        Job::Pair { i, j } => pair_row(alloc, seat, basis, rows, i, j, steps),
        Job::Right { .. } => unreachable!(),
    }
}

/// The row of the generator of number `s` among so many: 1 in its place.
pub fn unit_row(
    alloc: Global,
    algebra: &Algebra,
    count: usize,
    s: u32,
) -> Result<Vec<GPoly>, AllocError>
    requires few { count ≤ 4294967295 }
    requires first { 1 ≤ s }
    requires last { s ≤ count }
    ensures value { IfOk result (λ r. r.items ≡ unit_row algebra.now count s) }
    ensures sorted { IfOk result (λ r. IsRow algebra.now count r.items) }
{
    let one = unit(alloc, algebra)?;
    let mut entries = zeros(alloc, count)?;
    entries[s as usize - 1] = one;
    Ok(entries)
}

// The polynomial 1.
fn unit(alloc: Global, algebra: &Algebra) -> Result<GPoly, AllocError>
    ensures value { IfOk result (λ r. r ≡ (1, one algebra.now.order.vars) ∷ []) }
    ensures sorted { IfOk result (λ r. IsPolynomial algebra.now.p algebra.now.order r) }
{
    let term = Term {
        coef: 1,
        mono: Expo::one(algebra.n()),
    };
    GPoly::from_terms(alloc, algebra.field(), algebra.order(), &[term])
}

// The row of the S-polynomial of the elements of these numbers.
fn pair_row<L: Ledger>(
    alloc: Global,
    seat: &mut TableSeat,
    basis: &[GPoly],
    rows: &[Row],
    i: u32,
    j: u32,
    steps: &mut Steps<L>,
) -> Result<Vec<GPoly>, ProductFault>
    requires elements { Each (IsElement seat.old.algebra) basis.now }
    requires rows { (g : ℕ) × Each (IsRow seat.old.algebra g) rows.now }
    requires made { length rows.now ≤ length basis.now }
    requires first { 1 ≤ i }
    requires ordered { i < j }
    requires last { j ≤ length rows.now }
    requires computed { pair_within basis.now i j ≡ true }
    ensures value { IfOk result (λ r. (g : ℕ) → r.items ≡ start_row seat.old.algebra g basis.now rows.now (Pair i j)) }
    ensures sorted { IfOk result (λ r. (g : ℕ) → Each (IsRow seat.old.algebra g) rows.now → IsRow seat.old.algebra g r.items) }
    ensures within { OnOk result (start_reaches basis.now rows.now (Pair i j) ≡ true) }
    ensures over { result ≡ Err ProductFault.DegreeOver → start_reaches basis.now rows.now (Pair i j) ≡ false }
    ensures algebra { seat.new.algebra ≡ seat.old.algebra }
    ensures kept { Keeps seat.old seat.new }
{
    let (first, second) = pair_terms(
        alloc,
        seat,
        &basis[i as usize - 1],
        &basis[j as usize - 1],
        steps,
    )?;
    let mut entries = multiple(alloc, seat, &first, row_at(rows, i), steps)?;
    subtract(alloc, seat, &mut entries, &second, row_at(rows, j), steps)?;
    Ok(entries)
}

// A number of the field times each entry.
fn scaled(
    alloc: Global,
    algebra: &Algebra,
    scale: u32,
    entries: &[GPoly],
) -> Result<Vec<GPoly>, AllocError>
    requires in_range { scale < algebra.now.p }
    requires sorted { Each (IsPolynomial algebra.now.p algebra.now.order) entries.now }
    ensures value { IfOk result (λ r. r.items ≡ map (poly_scale algebra.now.p scale) entries.now) }
    ensures sorted { IfOk result (λ r. IsRow algebra.now (length entries.now) r.items) }
{
    let field = algebra.field();
    let mut scaled = Vec::with_capacity(alloc, entries.len())?;
    for entry in entries {
        scaled.push(entry.scale(alloc, field, scale)?)?;
    }
    Ok(scaled)
}
