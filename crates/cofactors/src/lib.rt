//! Rows of cofactors: how the finished elements of a left run are left combinations of its
//! generators, and a check of such a row.
#![tactic(auto)]

ghost use Rattle.std.specs.Prelude.{◌≡◌, ◌↔◌, ℕ, ◌≤◌, true, false, length, map, IsTrue, IfOk, OnOk, Err, Some, None};
ghost use Rattle.monomials.specs.Polynomials.{Each, IsPolynomial};
ghost use Rattle.word_model.specs.Cofactors.{cofactor_rows, row_value, value_reaches};
ghost use Rattle.word_model.specs.Finished.{finished};
ghost use Rattle.word_model.specs.Machine.{machine};
ghost use Rattle.word_model.specs.declared.records.Mode.TheVariants.{Left};
ghost use Rattle.word_model.specs.declared.records.Outcome.TheVariants.{Finished as Ended};
ghost use Rattle.gproduct.specs.Seats.{Keeps};

use algebra::ProductFault;
use gpoly::GPoly;
use gproduct::{Steps, TableSeat};
use run_records::{Finished, Journal, Row};
use std::alloc::Global;
use std::sync::ledger::Ledger;

mod checking;
mod finishing;
pub mod making;
pub mod multiples;
pub mod pairs;
mod pushing;
#[cfg(test)]
mod tests;

/// The rows of the finished list of a left run over these generators, one for each finished element,
/// which is the value of its row.
/// `DegreeOver` comes exactly where a product of a degree above 4095 is needed: of a monomial with an
/// entry, for the row of any element of the basis or of the list, or of a finished row's entry with
/// its generator.
pub fn rows<L: Ledger>(
    alloc: Global,
    seat: &mut TableSeat,
    gens: &[GPoly],
    journal: &Journal,
    list: &Finished,
    steps: &mut Steps<L>,
) -> Result<Vec<Row>, ProductFault>
    requires generators { Each (IsPolynomial seat.old.algebra.p seat.old.algebra.order) gens.now }
    requires few { length gens.now ≤ 4294967295 }
    requires left_run { (budget : ℕ) × (journal.now ≡ machine seat.old.algebra gens.now Left budget) }
    requires finished { journal.now.outcome ≡ Ended }
    requires list { finished seat.old.algebra journal.now.basis ≡ Some list.now }
    ensures value { IfOk result (λ rows. cofactor_rows seat.old.algebra gens.now journal.now list.now ≡ Some rows.items) }
    ensures values { IfOk result (λ rows. map (λ row. row_value seat.old.algebra row gens.now) rows.items ≡ list.now.list) }
    ensures over { result ≡ Err ProductFault.DegreeOver →
        cofactor_rows seat.old.algebra gens.now journal.now list.now ≡ None }
    ensures sorted { IfOk result (λ rows.
        Each (Each (IsPolynomial seat.old.algebra.p seat.old.algebra.order)) rows.items) }
    ensures one_entry_each { IfOk result (λ rows. Each (λ row. length row ≡ length gens.now) rows.items) }
    ensures algebra { seat.new.algebra ≡ seat.old.algebra }
    ensures kept { Keeps seat.old seat.new }
{
    let _n = seat.algebra().n();
    let made = making::basis_rows(alloc, seat, gens, &journal.basis, &journal.entries, steps)?;
    let rows = finishing::finished_rows(alloc, seat, &made, list, steps)?;
    if !checking::values_reach(&rows, gens) {
        return Err(ProductFault::DegreeOver);
    }
    Ok(rows)
}

/// Whether the value of a row over these generators is the element. The row has an entry for each
/// generator. `DegreeOver` comes exactly where a product of an entry with its generator has a degree
/// above 4095.
pub fn check_row<L: Ledger>(
    alloc: Global,
    seat: &mut TableSeat,
    gens: &[GPoly],
    row: &Row,
    element: &GPoly,
    steps: &mut Steps<L>,
) -> Result<bool, ProductFault>
    requires generators { Each (IsPolynomial seat.old.algebra.p seat.old.algebra.order) gens.now }
    requires entries { Each (IsPolynomial seat.old.algebra.p seat.old.algebra.order) row.now }
    requires element { IsPolynomial seat.old.algebra.p seat.old.algebra.order element.now }
    requires one_each { length row.now ≡ length gens.now }
    ensures value { IfOk result (λ holds. IsTrue holds ↔ (row_value seat.old.algebra row.now gens.now ≡ element.now)) }
    ensures within { OnOk result (value_reaches row.now gens.now ≡ true) }
    ensures over { result ≡ Err ProductFault.DegreeOver → value_reaches row.now gens.now ≡ false }
    ensures algebra { seat.new.algebra ≡ seat.old.algebra }
    ensures kept { Keeps seat.old seat.new }
{
    let entries = &row.entries;
    if !checking::value_reaches(entries, gens) {
        return Err(ProductFault::DegreeOver);
    }
    let value = checking::row_value(alloc, seat, entries, gens, steps)?;
    Ok(value.equals(element))
}
