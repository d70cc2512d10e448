//! Finished runs with their finished lists.

ghost use Rattle.std.specs.Prelude.{◌≡◌, ◌≤◌, length, IfOk, Some};
ghost use Rattle.monomials.specs.Polynomials.{Each};
ghost use Rattle.word_model.specs.Finished.{finished};
ghost use Rattle.word_model.specs.Machine.{IsElement, machine};
ghost use Rattle.word_model.specs.declared.records.Outcome.TheVariants.{Finished as Ended};
ghost use Rattle.gproduct.specs.Seats.{Keeps};
ghost use Rattle.script_model.specs.Functions as spec;
ghost use Rattle.script_values.specs.Gives.{Gives};
ghost use Rattle.script_values.specs.Values.{ArePolynomials};
ghost use Rattle.script_functions.specs.Inside.Bases.{IsBasisOf};

use crate::stopping::stop_of;
use algebra::Algebra;
use finish::reduced;
use gpoly::GPoly;
use gproduct::{Steps, TableSeat};
use run_records::{Engine, Finished, Journal, Mode, Outcome};
use script_model::values::Refusal;
use script_values::{Scope, Stop};
use std::marker::Model;
use std::sync::ledger::Ledger;

// A finished run with its finished list.
#[derive(Drop)]
pub(crate) struct Basis {
    pub(crate) run: Journal,
    pub(crate) list: Finished,
}

impl Model for Basis {
    ghost use Rattle.script_model.specs.Functions.{Basis as ModelBasis};

    ghost Value = { ModelBasis };

    ghost view = { λ b. (b.run, b.list) };
}

// The run over these generators in the seat's algebra, with its finished list.
pub(crate) fn basis_over<E: Engine, L: Ledger>(
    scope: &Scope,
    engine: &mut E,
    seat: &mut TableSeat,
    generators: &[GPoly],
    mode: Mode,
    steps: &mut Steps<L>,
) -> Result<Basis, Stop>
    requires ready { E.can_run engine.old }
    requires polynomials { ArePolynomials seat.old.algebra generators.now }
    requires few { length generators.now ≤ 4096 }
    ensures value { Gives result (spec.basis_over seat.old.algebra mode scope.now.budget generators.now) }
    ensures basis { IfOk result (IsBasisOf seat.old.algebra mode scope.now.budget generators.now) }
    ensures ready { E.can_run engine.new }
    ensures seat { seat.new.algebra ≡ seat.old.algebra }
    ensures kept { Keeps seat.old seat.new }
{
    let run = run_over(scope, engine, seat.algebra(), generators, mode)?;
    let list = finished_list(scope, seat, &run, steps)?;
    Ok(Basis { run, list })
}

// The run over these generators, where it is finished.
pub(crate) fn run_over<E: Engine>(
    scope: &Scope,
    engine: &mut E,
    algebra: &Algebra,
    generators: &[GPoly],
    mode: Mode,
) -> Result<Journal, Stop>
    requires ready { E.can_run engine.old }
    requires polynomials { ArePolynomials algebra.now generators.now }
    requires few { length generators.now ≤ 4096 }
    ensures value { Gives result (spec.run_over algebra.now mode scope.now.budget generators.now) }
    ensures run { IfOk result (λ run. run ≡ machine algebra.now generators.now mode scope.now.budget) }
    ensures finished { IfOk result (λ run. run.outcome ≡ Ended) }
    ensures elements { IfOk result (λ run. Each (IsElement algebra.now) run.basis) }
    ensures few { IfOk result (λ run. length run.basis ≤ 2048) }
    ensures ready { E.can_run engine.new }
{
    let _n = algebra.n();
    let budget = scope.budget.entries();
    let run = engine.basis(scope.alloc, algebra, generators, mode, budget)?;
    match run.outcome {
        Outcome::Finished => Ok(run),
        Outcome::BudgetSpent => Err(Stop::Refused(Refusal::BudgetSpent(budget))),
        Outcome::BasisFull => Err(Stop::Refused(Refusal::BasisFull)),
        Outcome::DegreeOver => Err(Stop::Refused(Refusal::DegreeOver)),
    }
}

// The finished list of a run.
fn finished_list<L: Ledger>(
    scope: &Scope,
    seat: &mut TableSeat,
    run: &Journal,
    steps: &mut Steps<L>,
) -> Result<Finished, Stop>
    requires finished { run.now.outcome ≡ Ended }
    requires elements { Each (IsElement seat.old.algebra) run.now.basis }
    requires few { length run.now.basis ≤ 2048 }
    ensures value { Gives result (spec.reached (finished seat.old.algebra run.now.basis)) }
    ensures list { IfOk result (λ found. finished seat.old.algebra run.now.basis ≡ Some found) }
    ensures elements { IfOk result (λ found. Each (IsElement seat.old.algebra) found.list) }
    ensures short { IfOk result (λ found. length found.list ≤ 2048) }
    ensures seat { seat.new.algebra ≡ seat.old.algebra }
    ensures kept { Keeps seat.old seat.new }
{
    match reduced(scope.alloc, seat, run, steps) {
        Ok(list) => Ok(list),
        Err(fault) => Err(stop_of(fault)),
    }
}
