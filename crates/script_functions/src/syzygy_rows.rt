//! Syzygies of generators.

ghost use Rattle.std.specs.Prelude.{◌≡◌, ◌≤◌, length, IfOk};
ghost use Rattle.monomials.specs.Polynomials.{Each};
ghost use Rattle.word_model.specs.Machine.{machine};
ghost use Rattle.word_model.specs.Syzygies.{syzygy_rows};
ghost use Rattle.word_model.specs.declared.records.Mode.TheVariants.{Left};
ghost use Rattle.word_model.specs.declared.records.Outcome.TheVariants.{Finished as Ended};
ghost use Rattle.gproduct.specs.Seats.{Keeps};
ghost use Rattle.script_model.specs.Functions as spec;
ghost use Rattle.script_values.specs.Gives.{Gives};
ghost use Rattle.script_values.specs.Values.{ArePolynomials, IsValueOf};

use crate::bases::run_over;
use crate::generators::joined;
use crate::stopping::stop_of;
use gpoly::GPoly;
use gproduct::{Steps, TableSeat};
use run_records::{Engine, Journal, Mode, Row};
use script_model::values::Value;
use script_values::{Scope, Stop};
use sqlite_items::Items;
use std::sync::ledger::Ledger;

// The syzygies of polys and ideals, joined in order: a finished list is not made, and has no refusal here.
pub(crate) fn syz<E: Engine, L: Ledger>(
    scope: &Scope,
    engine: &mut E,
    seat: &mut TableSeat,
    arguments: &[Value],
    steps: &mut Steps<L>,
) -> Result<Value, Stop>
    requires ready { E.can_run engine.old }
    requires seat { seat.old.algebra ≡ scope.now.ring.algebra }
    requires of_ring { Each (IsValueOf scope.now.ring.algebra) arguments.now }
    ensures value { Gives result (spec.syz scope.now.ring.algebra scope.now.budget arguments.now) }
    ensures of_ring { IfOk result (IsValueOf scope.now.ring.algebra) }
    ensures ready { E.can_run engine.new }
    ensures seat { seat.new.algebra ≡ seat.old.algebra }
    ensures kept { Keeps seat.old seat.new }
{
    let generators = joined(scope, arguments)?;
    let generators = generators.as_slice();
    let run = run_over(scope, engine, seat.algebra(), generators, Mode::Left)?;
    let rows = relations(scope, seat, generators, &run, steps)?;
    Ok(Value::Module(rows))
}

// The syzygies that a finished left run leaves.
fn relations<L: Ledger>(
    scope: &Scope,
    seat: &mut TableSeat,
    generators: &[GPoly],
    run: &Journal,
    steps: &mut Steps<L>,
) -> Result<Items<Row>, Stop>
    requires generators { ArePolynomials seat.old.algebra generators.now }
    requires few { length generators.now ≤ 4096 }
    requires run { run.now ≡ machine seat.old.algebra generators.now Left scope.now.budget }
    requires ended { run.now.outcome ≡ Ended }
    ensures value { Gives result (spec.reached (syzygy_rows seat.old.algebra generators.now run.now)) }
    ensures polynomials { IfOk result (λ rows. Each (ArePolynomials seat.old.algebra) rows) }
    ensures seat { seat.new.algebra ≡ seat.old.algebra }
    ensures kept { Keeps seat.old seat.new }
{
    match syzygies::syz(scope.alloc, seat, generators, run, steps) {
        Ok(rows) => Ok(Items::from_vec(rows)),
        Err(fault) => Err(stop_of(fault)),
    }
}
