//! Reduced Gröbner bases of ideals, left and two-sided.

ghost use Rattle.std.specs.Prelude.{◌≡◌, IfOk};
ghost use Rattle.monomials.specs.Polynomials.{Each};
ghost use Rattle.gproduct.specs.Seats.{Keeps};
ghost use Rattle.script_model.specs.Functions as spec;
ghost use Rattle.script_values.specs.Gives.{Gives};
ghost use Rattle.script_values.specs.Values.{IsValueOf};

use crate::bases::basis_over;
use crate::generators::joined;
use gproduct::{Steps, TableSeat};
use run_records::{Engine, Mode};
use script_model::values::Value;
use script_values::{Scope, Stop};
use sqlite_items::Items;
use std::sync::ledger::Ledger;

// The finished list of a run of this mode.
pub(crate) fn std_list<E: Engine, L: Ledger>(
    scope: &Scope,
    engine: &mut E,
    seat: &mut TableSeat,
    mode: Mode,
    arguments: &[Value],
    steps: &mut Steps<L>,
) -> Result<Value, Stop>
    requires ready { E.can_run engine.old }
    requires seat { seat.old.algebra ≡ scope.now.ring.algebra }
    requires of_ring { Each (IsValueOf scope.now.ring.algebra) arguments.now }
    ensures value { Gives result (spec.std scope.now.ring.algebra mode scope.now.budget arguments.now) }
    ensures of_ring { IfOk result (IsValueOf scope.now.ring.algebra) }
    ensures ready { E.can_run engine.new }
    ensures seat { seat.new.algebra ≡ seat.old.algebra }
    ensures kept { Keeps seat.old seat.new }
{
    let generators = joined(scope, arguments)?;
    let found = basis_over(scope, engine, seat, generators.as_slice(), mode, steps)?;
    let finished = found.list;
    Ok(Value::Ideal(Items::from_vec(finished.list)))
}
