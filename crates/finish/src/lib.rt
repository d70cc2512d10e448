//! The finished list of a run: what is left of its basis when needless elements are dropped and all
//! tails are reduced.
#![tactic(auto)]

ghost use Rattle.std.specs.Prelude.{◌≡◌, ℕ, ◌≤◌, List, length, IfOk, Err, Some, None};
ghost use Rattle.monomials.specs.Polynomials.{Polynomial, Each, IsPolynomial};
ghost use Rattle.word_model.specs.Bases.{InIdeal};
ghost use Rattle.word_model.specs.Finished.{finished};
ghost use Rattle.word_model.specs.Ideals.{IsReducedBasis};
ghost use Rattle.word_model.specs.Machine.{IsElement, machine};
ghost use Rattle.word_model.specs.declared.records.Mode.{Mode};
ghost use Rattle.word_model.specs.declared.records.Outcome.TheVariants.{Finished as Ended};
ghost use Rattle.gproduct.specs.Seats.{Keeps};

use algebra::ProductFault;
use gproduct::{Steps, TableSeat};
use run_records::{Finished, Journal};
use selection::Kept;
use std::alloc::Global;
use std::sync::ledger::Ledger;

mod finals;
mod selection;
#[cfg(test)]
mod tests;

/// The finished list of a run that is finished: the elements of its basis whose leading monomial no
/// other's divides (of equal ones the earliest), ascending by leading monomials, each with its tail
/// reduced by these elements as they stand in the basis. It is the reduced Gröbner basis of the ideal
/// that the run's generators generate, left or two-sided as the run was. `DegreeOver` comes exactly where a step of
/// a tail has a product of a degree above 4095.
pub fn reduced<L: Ledger>(
    alloc: Global,
    seat: &mut TableSeat,
    journal: &Journal,
    steps: &mut Steps<L>,
) -> Result<Finished, ProductFault>
    requires finished { journal.now.outcome ≡ Ended }
    requires elements { Each (IsElement seat.old.algebra) journal.now.basis }
    requires few { length journal.now.basis ≤ 4294967295 }
    ensures list { IfOk result (λ f. finished seat.old.algebra journal.now.basis ≡ Some f) }
    ensures reduced { IfOk result (λ f. (gens : List Polynomial) (mode : Mode) (budget : ℕ) →
        Each (IsPolynomial seat.old.algebra.p seat.old.algebra.order) gens →
        journal.now ≡ machine seat.old.algebra gens mode budget →
        IsReducedBasis seat.old.algebra (InIdeal seat.old.algebra mode gens) f.list) }
    ensures elements { IfOk result (λ f. Each (IsElement seat.old.algebra) f.list) }
    ensures one_origin_each { IfOk result (λ f. length f.origin ≡ length f.list) }
    ensures one_tail_each { IfOk result (λ f. length f.tails ≡ length f.list) }
    ensures over { result ≡ Err ProductFault.DegreeOver → finished seat.old.algebra journal.now.basis ≡ None }
    ensures algebra { seat.new.algebra ≡ seat.old.algebra }
    ensures kept { Keeps seat.old seat.new }
{
    let alg = seat.algebra();
    let _n = alg.n();
    monomials::laws::order_is_well_founded(alg.order());
    let kept = Kept::of(alloc, &journal.basis)?;
    let finals = finals::ascending(alloc, seat, &kept, steps)?;
    Ok(finals::split(alloc, finals)?)
}
