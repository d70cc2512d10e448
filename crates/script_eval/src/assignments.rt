//! Assignments: a name gets another value of its kind.

ghost use Rattle.std.specs.Prelude.{◌≡◌, ◌&&◌, Ok, IfOk, IfErr, IfSome, IsTrue, length};
ghost use Rattle.monomials.specs.Polynomials.{Each};
ghost use Rattle.word_model.specs.Words.{Algebra};
ghost use Rattle.script_model.specs.Operations.{columns_of, is_number_of};
ghost use Rattle.script_model.specs.Environment.{here};
ghost use Rattle.script_model.specs.Expressions.{exprs_of};
ghost use Rattle.script_model.specs.Statements as spec;
ghost use Rattle.script_values.specs.Gives.{Gives, Stops};
ghost use Rattle.script_values.specs.Values.{ArePolynomials, IsValueOf};
ghost use Rattle.script_eval.specs.Leads.{Leads};
ghost use Rattle.script_eval.specs.Seats.{IsSeatOf};

use crate::declarations::put;
use crate::expressions::{value_of, values_of};
use crate::next::Next;
use crate::session::Session;
use gproduct::TableSeat;
use plural_syntax::{Expr, ExprList};
use run_records::{Engine, Row};
use script_functions::ideal;
use script_model::values::{Refusal, Value};
use script_values::assigning::{as_module, as_poly, is_in_matrix, poly_of, with_entry};
use script_values::names::not_here;
use script_values::{Environment, Ring, Scope, Stop};
use sqlite_items::Items;

/// The values take the place of the value of this name: for an ideal polys and ideals, and else one value of its
/// kind.
pub fn assign<E: Engine>(
    session: &Session,
    engine: &mut E,
    seat: &mut TableSeat,
    environment: &mut Environment,
    name: &[u8],
    given: &ExprList,
) -> Result<Next, Stop>
    requires ready { E.can_run engine.old }
    requires seat { IsSeatOf seat.old.algebra environment.old }
    ensures ready { E.can_run engine.new }
    ensures seat { seat.new.algebra ≡ seat.old.algebra }
    ensures leads { Leads result environment.new (spec.assigned session.now.bytes session.now.budget environment.old name.now (exprs_of given.now)) }
{
    let value = assigned_value(session, engine, seat, environment, name, given)?;
    put(session.alloc, environment, name, value)
}

// The value that the name gets.
fn assigned_value<E: Engine>(
    session: &Session,
    engine: &mut E,
    seat: &mut TableSeat,
    environment: &Environment,
    name: &[u8],
    given: &ExprList,
) -> Result<Value, Stop>
    requires ready { E.can_run engine.old }
    requires seat { IsSeatOf seat.old.algebra environment.now }
    ensures ready { E.can_run engine.new }
    ensures seat { seat.new.algebra ≡ seat.old.algebra }
    ensures value { Gives result (spec.assigned_value session.now.bytes session.now.budget environment.now name.now (exprs_of given.now)) }
    ensures of_ring { IfOk result (λ v. IfSome (here environment.now) (λ R. IsValueOf R.algebra v)) }
{
    let Some(ring) = environment.here() else {
        return Err(Stop::Refused(Refusal::NoRing));
    };
    let scope = session.scope(environment, ring);
    let old = old_value(&scope, ring, name)?;
    let values = values_of(&scope, engine, seat, given)?;
    in_place_of(&scope, old, values)
}

// The value of this name in the ring of the scope.
fn old_value<'a>(scope: &Scope, ring: &'a Ring, name: &[u8]) -> Result<&'a Value, Stop>
    requires { scope.now.ring ≡ ring.now }
    ensures value { IfOk result (λ v. spec.old_value scope.now.bytes scope.now.budget scope.now.environment ring.now name.now ≡ Ok v.now) }
    ensures of_ring { IfOk result (λ v. IsValueOf ring.now.algebra v.now) }
    ensures refused { IfErr result (λ stop. Stops stop (spec.old_value scope.now.bytes scope.now.budget scope.now.environment ring.now name.now)) }
{
    if ring.variable_place(name).is_some() {
        return Err(Stop::Refused(Refusal::Kind));
    }
    if let Some(value) = ring.find(name) {
        return Ok(value);
    }
    match scope.environment.ring_number(name) {
        Some(_) => Err(Stop::Refused(Refusal::Kind)),
        None => Err(not_here(scope, name)),
    }
}

// The values that take the place of an old one.
fn in_place_of(scope: &Scope, old: &Value, values: Items<Value>) -> Result<Value, Stop>
    requires { Each (IsValueOf scope.now.ring.algebra) values }
    ensures value { Gives result (spec.in_place_of old.now values) }
    ensures of_ring { IfOk result (IsValueOf scope.now.ring.algebra) }
{
    match old {
        Value::Ideal(_) => ideal(scope, values.as_slice()),
        Value::Poly(_) => as_poly(single(values)?),
        Value::Module(_) => as_module(single(values)?),
        Value::Matrix(_) => as_matrix(single(values)?),
        Value::Lines(_) => as_lines(single(values)?),
        Value::Ring(_) => Err(Stop::Refused(Refusal::Kind)),
    }
}

// One value alone.
fn single(values: Items<Value>) -> Result<Value, Stop>
    ensures value { Gives result (spec.single values) }
    ensures of_ring { (A : Algebra) → Each (IsValueOf A) values → IfOk result (IsValueOf A) }
{
    if values.len() != 1 {
        return Err(Stop::Refused(Refusal::Kind));
    }
    let mut values = values;
    match values.pop() {
        Some(value) => Ok(value),
        None => Err(Stop::Refused(Refusal::Kind)),
    }
}

// A value that is a matrix.
fn as_matrix(value: Value) -> Result<Value, Stop>
    ensures value { Gives result (spec.as_matrix value) }
    ensures of_ring { (A : Algebra) → IsValueOf A value → IfOk result (IsValueOf A) }
{
    match value {
        Value::Matrix(_) => Ok(value),
        _ => Err(Stop::Refused(Refusal::Kind)),
    }
}

// A value that is printed lines.
fn as_lines(value: Value) -> Result<Value, Stop>
    ensures value { Gives result (spec.as_lines value) }
    ensures of_ring { (A : Algebra) → IsValueOf A value → IfOk result (IsValueOf A) }
{
    match value {
        Value::Lines(_) => Ok(value),
        _ => Err(Stop::Refused(Refusal::Kind)),
    }
}

/// The poly becomes the entry of the matrix of this name in this row and column, which count from 1.
pub fn assign_entry<E: Engine>(
    session: &Session,
    engine: &mut E,
    seat: &mut TableSeat,
    environment: &mut Environment,
    name: &[u8],
    row: u64,
    column: u64,
    given: &Expr,
) -> Result<Next, Stop>
    requires ready { E.can_run engine.old }
    requires seat { IsSeatOf seat.old.algebra environment.old }
    ensures ready { E.can_run engine.new }
    ensures seat { seat.new.algebra ≡ seat.old.algebra }
    ensures leads { Leads result environment.new (spec.entry_assigned session.now.bytes session.now.budget environment.old name.now row column given.now) }
{
    let value = entry_value(session, engine, seat, environment, name, row, column, given)?;
    put(session.alloc, environment, name, value)
}

// The matrix with the entry.
fn entry_value<E: Engine>(
    session: &Session,
    engine: &mut E,
    seat: &mut TableSeat,
    environment: &Environment,
    name: &[u8],
    row: u64,
    column: u64,
    given: &Expr,
) -> Result<Value, Stop>
    requires ready { E.can_run engine.old }
    requires seat { IsSeatOf seat.old.algebra environment.now }
    ensures ready { E.can_run engine.new }
    ensures seat { seat.new.algebra ≡ seat.old.algebra }
    ensures value { Gives result (spec.entry_value session.now.bytes session.now.budget environment.now name.now row column given.now) }
    ensures of_ring { IfOk result (λ v. IfSome (here environment.now) (λ R. IsValueOf R.algebra v)) }
{
    let Some(ring) = environment.here() else {
        return Err(Stop::Refused(Refusal::NoRing));
    };
    let scope = session.scope(environment, ring);
    let rows = old_rows(&scope, ring, name, row, column)?;
    let f = poly_of(value_of(&scope, engine, seat, given)?)?;
    Ok(Value::Matrix(with_entry(session.alloc, rows, row, column, f)?))
}

// The rows of the matrix of this name, where it has an entry in this row and column.
fn old_rows<'a>(
    scope: &Scope,
    ring: &'a Ring,
    name: &[u8],
    row: u64,
    column: u64,
) -> Result<&'a [Row], Stop>
    requires { scope.now.ring ≡ ring.now }
    ensures value { IfOk result (λ rows. spec.old_rows scope.now.bytes scope.now.budget scope.now.environment ring.now name.now row column ≡ Ok rows.now) }
    ensures of_ring { IfOk result (λ rows. Each (ArePolynomials ring.now.algebra) rows.now) }
    ensures within { IfOk result (λ rows. IsTrue (is_number_of row (length rows.now) && is_number_of column (columns_of rows.now))) }
    ensures refused { IfErr result (λ stop. Stops stop (spec.old_rows scope.now.bytes scope.now.budget scope.now.environment ring.now name.now row column)) }
{
    let rows = match old_value(scope, ring, name)? {
        Value::Matrix(rows) => rows.as_slice(),
        _ => return Err(Stop::Refused(Refusal::Kind)),
    };
    if !is_in_matrix(rows, row, column) {
        return Err(Stop::Refused(Refusal::Index));
    }
    Ok(rows)
}
