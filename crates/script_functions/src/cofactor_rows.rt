//! Rows of cofactors of left runs.

ghost use Rattle.std.specs.Prelude.{◌≡◌, ◌≤◌, length, IfOk};
ghost use Rattle.monomials.specs.Polynomials.{Each};
ghost use Rattle.word_model.specs.Cofactors.{cofactor_rows};
ghost use Rattle.word_model.specs.declared.records.Mode.TheVariants.{Left};
ghost use Rattle.gproduct.specs.Seats.{Keeps};
ghost use Rattle.script_model.specs.Functions as spec;
ghost use Rattle.script_values.specs.Gives.{Gives};
ghost use Rattle.script_values.specs.Values.{ArePolynomials, IsValueOf};
ghost use Rattle.script_functions.specs.Inside.Bases.{IsBasisOf};

use crate::bases::{Basis, basis_over};
use crate::generators::joined;
use crate::stopping::stop_of;
use cofactors::rows;
use gpoly::GPoly;
use gproduct::{Steps, TableSeat};
use run_records::{Engine, Mode, Row};
use script_model::values::Value;
use script_values::{Scope, Stop};
use sqlite_items::Items;
use std::sync::ledger::Ledger;

// The rows of the finished list of a left run.
pub(crate) fn cofactors<E: Engine, L: Ledger>(
    scope: &Scope,
    engine: &mut E,
    seat: &mut TableSeat,
    arguments: &[Value],
    steps: &mut Steps<L>,
) -> Result<Value, Stop>
    requires ready { E.can_run engine.old }
    requires seat { seat.old.algebra ≡ scope.now.ring.algebra }
    requires of_ring { Each (IsValueOf scope.now.ring.algebra) arguments.now }
    ensures value { Gives result (spec.cofactors scope.now.ring.algebra scope.now.budget arguments.now) }
    ensures of_ring { IfOk result (IsValueOf scope.now.ring.algebra) }
    ensures ready { E.can_run engine.new }
    ensures seat { seat.new.algebra ≡ seat.old.algebra }
    ensures kept { Keeps seat.old seat.new }
{
    let generators = joined(scope, arguments)?;
    let generators = generators.as_slice();
    let found = basis_over(scope, engine, seat, generators, Mode::Left, steps)?;
    let rows = rows_of(scope, seat, generators, &found, steps)?;
    Ok(Value::Module(rows))
}

// The rows of a finished list.
fn rows_of<L: Ledger>(
    scope: &Scope,
    seat: &mut TableSeat,
    generators: &[GPoly],
    found: &Basis,
    steps: &mut Steps<L>,
) -> Result<Items<Row>, Stop>
    requires generators { ArePolynomials seat.old.algebra generators.now }
    requires few { length generators.now ≤ 4096 }
    requires basis { IsBasisOf seat.old.algebra Left scope.now.budget generators.now found.now }
    ensures value { Gives result (spec.reached (cofactor_rows seat.old.algebra generators.now found.now.0 found.now.1)) }
    ensures polynomials { IfOk result (λ rows. Each (ArePolynomials seat.old.algebra) rows) }
    ensures seat { seat.new.algebra ≡ seat.old.algebra }
    ensures kept { Keeps seat.old seat.new }
{
    match rows(
        scope.alloc,
        seat,
        generators,
        &found.run,
        &found.list,
        steps,
    ) {
        Ok(rows) => Ok(Items::from_vec(rows)),
        Err(fault) => Err(stop_of(fault)),
    }
}
