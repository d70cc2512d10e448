//! Statements that make rings or choose one.

ghost use Rattle.std.specs.Prelude.{◌≡◌, IfOk};
ghost use Rattle.monomials.specs.Polynomials.{Each};
ghost use Rattle.plural_text.specs.Names.{IsName};
ghost use Rattle.script_model.specs.Environment.{find};
ghost use Rattle.script_model.specs.Statements as spec;
ghost use Rattle.script_values.specs.Gives.{Gives};
ghost use Rattle.script_eval.specs.Leads.{Leads};
ghost use Rattle.script_eval.specs.Seats.{IsSeatOf};

use crate::expressions::value_of;
use crate::next::Next;
use crate::session::Session;
use crate::statements::silent;
use gproduct::TableSeat;
use plural_syntax::{ExprPair, Order, Vars};
use run_records::Engine;
use script_model::values::Refusal;
use script_rings::{nc_ring, new_ring};
use script_values::{Environment, Ring, Stop};
use sqlite_items::Items;
use std::alloc::Global;

/// A new ring, which is current now.
pub fn ring(
    session: &Session,
    environment: &mut Environment,
    name: &[u8],
    characteristic: u64,
    vars: &Vars,
    order: &Order,
) -> Result<Next, Stop>
    requires names { Each IsName (spec.names_of session.now.bytes vars.now) }
    ensures { Leads result environment.new (spec.ring_made session.now.bytes session.now.budget environment.old name.now characteristic vars.now order.now) }
{
    let ring = new_ring(session.alloc, session.bytes, characteristic, vars, order)?;
    environment.add_current_ring(session.alloc, name, ring)?;
    Ok(silent(session.alloc))
}

/// The ring of this name is current now.
pub fn set_ring(alloc: Global, environment: &mut Environment, name: &[u8]) -> Result<Next, Stop>
    ensures { Leads result environment.new (spec.set_ring environment.old name.now (find name.now environment.old.ring_names)) }
{
    match environment.ring_number(name) {
        None => Err(Stop::Refused(Refusal::Name(Items::from_slice(alloc, name)?))),
        Some(number) => {
            environment.set_current(number);
            Ok(silent(alloc))
        }
    }
}

/// A ring of this name is made of the current one, with the relations of `nc_algebra`.
pub fn nc_algebra<E: Engine>(
    session: &Session,
    engine: &mut E,
    seat: &mut TableSeat,
    environment: &mut Environment,
    name: &[u8],
    both: &ExprPair,
) -> Result<Next, Stop>
    requires ready { E.can_run engine.old }
    requires seat { IsSeatOf seat.old.algebra environment.old }
    ensures ready { E.can_run engine.new }
    ensures seat { seat.new.algebra ≡ seat.old.algebra }
    ensures leads { Leads result environment.new (spec.algebra_made session.now.bytes session.now.budget environment.old name.now both.now.first both.now.second) }
{
    let made = new_algebra(session, engine, seat, environment, both)?;
    environment.add_ring(session.alloc, name, made)?;
    Ok(silent(session.alloc))
}

// The ring that `nc_algebra` makes of the current one.
fn new_algebra<E: Engine>(
    session: &Session,
    engine: &mut E,
    seat: &mut TableSeat,
    environment: &Environment,
    both: &ExprPair,
) -> Result<Ring, Stop>
    requires ready { E.can_run engine.old }
    requires seat { IsSeatOf seat.old.algebra environment.now }
    ensures ready { E.can_run engine.new }
    ensures seat { seat.new.algebra ≡ seat.old.algebra }
    ensures value { Gives result (spec.new_algebra session.now.bytes session.now.budget environment.now both.now.first both.now.second) }
{
    let Some(ring) = environment.here() else {
        return Err(Stop::Refused(Refusal::NoRing));
    };
    let scope = session.scope(environment, ring);
    let c = value_of(&scope, engine, seat, &both.first)?;
    let d = value_of(&scope, engine, seat, &both.second)?;
    nc_ring(session.alloc, ring, &c, &d)
}
