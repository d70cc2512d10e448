//! Declarations: a name gets a value in the current ring.

ghost use Rattle.std.specs.Prelude.{◌≡◌, [], IfOk, IfSome, IfErr, Some, Ok};
ghost use Rattle.script_model.specs.Environment.{here, with_value};
ghost use Rattle.script_model.specs.Expressions.{exprs_of};
ghost use Rattle.script_model.specs.Statements as spec;
ghost use Rattle.script_model.specs.declared.values.Value.TheVariants as variant;
ghost use Rattle.script_values.specs.Gives.{Gives, Stops};
ghost use Rattle.script_values.specs.Values.{ArePolynomials, IsValueOf};
ghost use Rattle.script_eval.specs.Leads.{Leads};
ghost use Rattle.script_eval.specs.Seats.{IsSeatOf};

use crate::expressions::{value_of, values_of};
use crate::next::Next;
use crate::session::Session;
use crate::statements::silent;
use gpoly::GPoly;
use gproduct::TableSeat;
use plural_syntax::{Expr, Value as Given, Values};
use run_records::Engine;
use script_functions::ideal as ideal_of;
use script_model::values::{Refusal, Value};
use script_values::assigning::{all_polys, as_module, as_poly, is_side, matrix_of, not_ring};
use script_values::{Environment, Ring, Scope, Stop};
use sqlite_items::{Boxed, Items};
use std::alloc::Global;

/// A value of any kind but a ring.
pub fn def<E: Engine>(
    session: &Session,
    engine: &mut E,
    seat: &mut TableSeat,
    environment: &mut Environment,
    name: &[u8],
    given: &Expr,
) -> Result<Next, Stop>
    requires ready { E.can_run engine.old }
    requires seat { IsSeatOf seat.old.algebra environment.old }
    ensures ready { E.can_run engine.new }
    ensures seat { seat.new.algebra ≡ seat.old.algebra }
    ensures leads { Leads result environment.new (spec.declared session.now.bytes session.now.budget environment.old name.now
        (spec.any_value session.now.bytes session.now.budget environment.old given.now)) }
{
    let value = def_value(session, engine, seat, environment, name, given)?;
    put(session.alloc, environment, name, value)
}

// The value of it.
fn def_value<E: Engine>(
    session: &Session,
    engine: &mut E,
    seat: &mut TableSeat,
    environment: &Environment,
    name: &[u8],
    given: &Expr,
) -> Result<Value, Stop>
    requires ready { E.can_run engine.old }
    requires seat { IsSeatOf seat.old.algebra environment.now }
    ensures ready { E.can_run engine.new }
    ensures seat { seat.new.algebra ≡ seat.old.algebra }
    ensures value { Gives result (spec.declared_value session.now.bytes session.now.budget environment.now name.now
        (spec.any_value session.now.bytes session.now.budget environment.now given.now)) }
    ensures of_ring { IfOk result (λ v. IfSome (here environment.now) (λ R. IsValueOf R.algebra v)) }
{
    let ring = free_ring(session, environment, name)?;
    let scope = session.scope(environment, ring);
    not_ring(value_of(&scope, engine, seat, given)?)
}

/// A poly, 0 where none is given.
pub fn poly<E: Engine>(
    session: &Session,
    engine: &mut E,
    seat: &mut TableSeat,
    environment: &mut Environment,
    name: &[u8],
    given: &Option<Boxed<Given>>,
) -> Result<Next, Stop>
    requires ready { E.can_run engine.old }
    requires seat { IsSeatOf seat.old.algebra environment.old }
    ensures ready { E.can_run engine.new }
    ensures seat { seat.new.algebra ≡ seat.old.algebra }
    ensures leads { Leads result environment.new (spec.declared session.now.bytes session.now.budget environment.old name.now
        (λ R. spec.by_value session.now.bytes session.now.budget environment.old (variant.Poly []) spec.as_poly R given.now)) }
{
    let value = poly_value(session, engine, seat, environment, name, given)?;
    put(session.alloc, environment, name, value)
}

// The value of it.
fn poly_value<E: Engine>(
    session: &Session,
    engine: &mut E,
    seat: &mut TableSeat,
    environment: &Environment,
    name: &[u8],
    given: &Option<Boxed<Given>>,
) -> Result<Value, Stop>
    requires ready { E.can_run engine.old }
    requires seat { IsSeatOf seat.old.algebra environment.now }
    ensures ready { E.can_run engine.new }
    ensures seat { seat.new.algebra ≡ seat.old.algebra }
    ensures value { Gives result (spec.declared_value session.now.bytes session.now.budget environment.now name.now
        (λ R. spec.by_value session.now.bytes session.now.budget environment.now (variant.Poly []) spec.as_poly R given.now)) }
    ensures of_ring { IfOk result (λ v. IfSome (here environment.now) (λ R. IsValueOf R.algebra v)) }
{
    let ring = free_ring(session, environment, name)?;
    let scope = session.scope(environment, ring);
    let Some(given) = given else {
        return Ok(Value::Poly(GPoly::zero(session.alloc)));
    };
    as_poly(value_of(&scope, engine, seat, &given.get().expr)?)
}

/// An ideal of polys and ideals, joined in order; of the poly 0 alone where none is given.
pub fn ideal<E: Engine>(
    session: &Session,
    engine: &mut E,
    seat: &mut TableSeat,
    environment: &mut Environment,
    name: &[u8],
    given: &Option<Boxed<Values>>,
) -> Result<Next, Stop>
    requires ready { E.can_run engine.old }
    requires seat { IsSeatOf seat.old.algebra environment.old }
    ensures ready { E.can_run engine.new }
    ensures seat { seat.new.algebra ≡ seat.old.algebra }
    ensures leads { Leads result environment.new (spec.declared session.now.bytes session.now.budget environment.old name.now
        (λ R. spec.ideal_values session.now.bytes session.now.budget environment.old R given.now)) }
{
    let value = ideal_value(session, engine, seat, environment, name, given)?;
    put(session.alloc, environment, name, value)
}

// The value of it.
fn ideal_value<E: Engine>(
    session: &Session,
    engine: &mut E,
    seat: &mut TableSeat,
    environment: &Environment,
    name: &[u8],
    given: &Option<Boxed<Values>>,
) -> Result<Value, Stop>
    requires ready { E.can_run engine.old }
    requires seat { IsSeatOf seat.old.algebra environment.now }
    ensures ready { E.can_run engine.new }
    ensures seat { seat.new.algebra ≡ seat.old.algebra }
    ensures value { Gives result (spec.declared_value session.now.bytes session.now.budget environment.now name.now
        (λ R. spec.ideal_values session.now.bytes session.now.budget environment.now R given.now)) }
    ensures of_ring { IfOk result (λ v. IfSome (here environment.now) (λ R. IsValueOf R.algebra v)) }
{
    let ring = free_ring(session, environment, name)?;
    let scope = session.scope(environment, ring);
    let Some(given) = given else {
        let mut zero = Items::new(session.alloc);
        zero.push(GPoly::zero(session.alloc))?;
        return Ok(Value::Ideal(zero));
    };
    let found = values_of(&scope, engine, seat, &given.get().list)?;
    ideal_of(&scope, found.as_slice())
}

/// A module, without rows where none is given.
pub fn module<E: Engine>(
    session: &Session,
    engine: &mut E,
    seat: &mut TableSeat,
    environment: &mut Environment,
    name: &[u8],
    given: &Option<Boxed<Given>>,
) -> Result<Next, Stop>
    requires ready { E.can_run engine.old }
    requires seat { IsSeatOf seat.old.algebra environment.old }
    ensures ready { E.can_run engine.new }
    ensures seat { seat.new.algebra ≡ seat.old.algebra }
    ensures leads { Leads result environment.new (spec.declared session.now.bytes session.now.budget environment.old name.now
        (λ R. spec.by_value session.now.bytes session.now.budget environment.old (variant.Module []) spec.as_module R given.now)) }
{
    let value = module_value(session, engine, seat, environment, name, given)?;
    put(session.alloc, environment, name, value)
}

// The value of it.
fn module_value<E: Engine>(
    session: &Session,
    engine: &mut E,
    seat: &mut TableSeat,
    environment: &Environment,
    name: &[u8],
    given: &Option<Boxed<Given>>,
) -> Result<Value, Stop>
    requires ready { E.can_run engine.old }
    requires seat { IsSeatOf seat.old.algebra environment.now }
    ensures ready { E.can_run engine.new }
    ensures seat { seat.new.algebra ≡ seat.old.algebra }
    ensures value { Gives result (spec.declared_value session.now.bytes session.now.budget environment.now name.now
        (λ R. spec.by_value session.now.bytes session.now.budget environment.now (variant.Module []) spec.as_module R given.now)) }
    ensures of_ring { IfOk result (λ v. IfSome (here environment.now) (λ R. IsValueOf R.algebra v)) }
{
    let ring = free_ring(session, environment, name)?;
    let scope = session.scope(environment, ring);
    let Some(given) = given else {
        return Ok(Value::Module(Items::new(session.alloc)));
    };
    as_module(value_of(&scope, engine, seat, &given.get().expr)?)
}

/// A matrix with these sides, filled row by row with polys, and with 0 where there are none left.
pub fn matrix<E: Engine>(
    session: &Session,
    engine: &mut E,
    seat: &mut TableSeat,
    environment: &mut Environment,
    name: &[u8],
    rows: u64,
    columns: u64,
    given: &Option<Boxed<Values>>,
) -> Result<Next, Stop>
    requires ready { E.can_run engine.old }
    requires seat { IsSeatOf seat.old.algebra environment.old }
    ensures ready { E.can_run engine.new }
    ensures seat { seat.new.algebra ≡ seat.old.algebra }
    ensures leads { Leads result environment.new (spec.declared session.now.bytes session.now.budget environment.old name.now
        (spec.matrix_value session.now.bytes session.now.budget environment.old rows columns given.now)) }
{
    let value = matrix_value(
        session,
        engine,
        seat,
        environment,
        name,
        rows,
        columns,
        given,
    )?;
    put(session.alloc, environment, name, value)
}

// The value of it.
fn matrix_value<E: Engine>(
    session: &Session,
    engine: &mut E,
    seat: &mut TableSeat,
    environment: &Environment,
    name: &[u8],
    rows: u64,
    columns: u64,
    given: &Option<Boxed<Values>>,
) -> Result<Value, Stop>
    requires ready { E.can_run engine.old }
    requires seat { IsSeatOf seat.old.algebra environment.now }
    ensures ready { E.can_run engine.new }
    ensures seat { seat.new.algebra ≡ seat.old.algebra }
    ensures value { Gives result (spec.declared_value session.now.bytes session.now.budget environment.now name.now
        (spec.matrix_value session.now.bytes session.now.budget environment.now rows columns given.now)) }
    ensures of_ring { IfOk result (λ v. IfSome (here environment.now) (λ R. IsValueOf R.algebra v)) }
{
    let ring = free_ring(session, environment, name)?;
    let scope = session.scope(environment, ring);
    if !is_side(rows) || !is_side(columns) {
        return Err(Stop::Refused(Refusal::Limit));
    }
    let polys = entries(&scope, engine, seat, given)?;
    matrix_of(session.alloc, rows, columns, polys)
}

// The polys that are given, none where nothing is.
fn entries<E: Engine>(
    scope: &Scope,
    engine: &mut E,
    seat: &mut TableSeat,
    given: &Option<Boxed<Values>>,
) -> Result<Items<GPoly>, Stop>
    requires ready { E.can_run engine.old }
    requires seat { seat.old.algebra ≡ scope.now.ring.algebra }
    ensures ready { E.can_run engine.new }
    ensures seat { seat.new.algebra ≡ seat.old.algebra }
    ensures value { Gives result (spec.entry_values scope.now.bytes scope.now.budget scope.now.environment scope.now.ring given.now) }
    ensures of_ring { IfOk result (ArePolynomials scope.now.ring.algebra) }
{
    let Some(given) = given else {
        return Ok(Items::new(scope.alloc));
    };
    let found = values_of(scope, engine, seat, &given.get().list)?;
    all_polys(scope.alloc, found)
}

// The current ring, where the name is none of its variables'.
fn free_ring<'a>(
    session: &Session,
    environment: &'a Environment,
    name: &[u8],
) -> Result<&'a Ring, Stop>
    ensures here { IfOk result (λ ring. here environment.now ≡ Some ring.now) }
    ensures value { IfOk result (λ ring. spec.free_ring session.now.bytes session.now.budget environment.now name.now ≡ Ok ring.now) }
    ensures refused { IfErr result (λ stop. Stops stop (spec.free_ring session.now.bytes session.now.budget environment.now name.now)) }
{
    let Some(ring) = environment.here() else {
        return Err(Stop::Refused(Refusal::NoRing));
    };
    if ring.variable_place(name).is_some() {
        let name = Items::from_slice(session.alloc, name)?;
        return Err(Stop::Refused(Refusal::Taken(name)));
    }
    Ok(ring)
}

/// The name names this value in the current ring now.
pub fn put(
    alloc: Global,
    environment: &mut Environment,
    name: &[u8],
    value: Value,
) -> Result<Next, Stop>
    requires { IfSome (here environment.old) (λ R. IsValueOf R.algebra value) }
    ensures { Leads result environment.new (spec.silent (with_value environment.old name.now value)) }
{
    environment.put(alloc, name, value)?;
    Ok(silent(alloc))
}
