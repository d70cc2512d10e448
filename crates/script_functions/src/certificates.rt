//! Certificates of two-sided bases.

ghost use Rattle.std.specs.Prelude.{◌≡◌, IfOk};
ghost use Rattle.monomials.specs.Polynomials.{Each};
ghost use Rattle.gproduct.specs.Seats.{Keeps};
ghost use Rattle.script_model.specs.Functions as spec;
ghost use Rattle.script_values.specs.Gives.{Gives};
ghost use Rattle.script_values.specs.Values.{IsValueOf};

use crate::bases::basis_over;
use crate::generators::joined;
use gproduct::{Steps, TableSeat};
use plural_text::chain_text;
use run_records::{Engine, Mode};
use script_model::values::Value;
use script_values::{Scope, Stop};
use sqlite_items::Items;
use std::sync::ledger::Ledger;
use two_sided::chain;

// The lines of the certificate of a two-sided run.
pub(crate) fn twochain<E: Engine, L: Ledger>(
    scope: &Scope,
    engine: &mut E,
    seat: &mut TableSeat,
    arguments: &[Value],
    steps: &mut Steps<L>,
) -> Result<Value, Stop>
    requires ready { E.can_run engine.old }
    requires seat { seat.old.algebra ≡ scope.now.ring.algebra }
    requires of_ring { Each (IsValueOf scope.now.ring.algebra) arguments.now }
    ensures value { Gives result (spec.twochain scope.now.ring scope.now.budget arguments.now) }
    ensures of_ring { IfOk result (IsValueOf scope.now.ring.algebra) }
    ensures ready { E.can_run engine.new }
    ensures seat { seat.new.algebra ≡ seat.old.algebra }
    ensures kept { Keeps seat.old seat.new }
{
    let generators = joined(scope, arguments)?;
    let generators = generators.as_slice();
    let found = basis_over(scope, engine, seat, generators, Mode::TwoSided, steps)?;
    let (run, list) = (found.run, found.list);
    let certificate = chain(scope.alloc, &run, &list)?;
    let basis = run.basis;
    let ring = scope.ring;
    let text = chain_text(
        scope.alloc,
        ring.algebra(),
        ring.names(),
        &basis,
        &certificate,
    )?;
    Ok(Value::Lines(Items::from_vec(text)))
}
