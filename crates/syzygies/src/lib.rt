//! Syzygies: rows with value zero over generators, of which each such row is a left combination.
#![tactic(auto)]

ghost use Rattle.std.specs.Prelude.{◌≡◌, ℕ, ◌≤◌, [], length, IfOk, Err, Some, None};
ghost use Rattle.monomials.specs.Polynomials.{Each, IsPolynomial};
ghost use Rattle.word_model.specs.Cofactors.{Row, row_value};
ghost use Rattle.word_model.specs.Syzygies.{syzygy_rows, IsRowCombination};
ghost use Rattle.word_model.specs.Machine.{machine};
ghost use Rattle.word_model.specs.declared.records.Mode.TheVariants.{Left};
ghost use Rattle.word_model.specs.declared.records.Outcome.TheVariants.{Finished as Ended};
ghost use Rattle.gproduct.specs.Seats.{Keeps};

use algebra::ProductFault;
use gpoly::GPoly;
use gproduct::{Steps, TableSeat};
use run_records::Journal;
use std::alloc::Global;
use std::sync::ledger::Ledger;

mod relations;
#[cfg(test)]
mod tests;

/// The syzygies of the generators of a finished left run: a row for each entry whose job was reduced to
/// zero, without those that are zero, and then the unit row of each generator that is zero.
/// `DegreeOver` comes exactly where a product of a degree above 4095 is needed, of a monomial with an
/// entry, for the row of any element of the basis or for one of these rows.
pub fn syz<L: Ledger>(
    alloc: Global,
    seat: &mut TableSeat,
    gens: &[GPoly],
    journal: &Journal,
    steps: &mut Steps<L>,
) -> Result<Vec<run_records::Row>, ProductFault>
    requires generators { Each (IsPolynomial seat.old.algebra.p seat.old.algebra.order) gens.now }
    requires few { length gens.now ≤ 4294967295 }
    requires left_run { (budget : ℕ) × (journal.now ≡ machine seat.old.algebra gens.now Left budget) }
    requires finished { journal.now.outcome ≡ Ended }
    ensures value { IfOk result (λ rows. syzygy_rows seat.old.algebra gens.now journal.now ≡ Some rows.items) }
    ensures relations { IfOk result (λ rows. Each (λ row. row_value seat.old.algebra row gens.now ≡ []) rows.items) }
    ensures all { IfOk result (λ rows. (q : Row) → length q ≡ length gens.now →
        Each (IsPolynomial seat.old.algebra.p seat.old.algebra.order) q →
        row_value seat.old.algebra q gens.now ≡ [] → IsRowCombination seat.old.algebra rows.items q) }
    ensures over { result ≡ Err ProductFault.DegreeOver → syzygy_rows seat.old.algebra gens.now journal.now ≡ None }
    ensures sorted { IfOk result (λ rows.
        Each (Each (IsPolynomial seat.old.algebra.p seat.old.algebra.order)) rows.items) }
    ensures one_entry_each { IfOk result (λ rows. Each (λ row. length row ≡ length gens.now) rows.items) }
    ensures algebra { seat.new.algebra ≡ seat.old.algebra }
    ensures kept { Keeps seat.old seat.new }
{
    let alg = seat.algebra();
    let _n = alg.n();
    monomials::laws::order_is_well_founded(alg.order());
    let rows = relations::all_rows(alloc, seat, gens, &journal.basis, &journal.entries, steps)?;
    Ok(rows)
}
