//! What a statement does.

ghost use Rattle.std.specs.Prelude.{◌≡◌, ◌∷◌, [], IfErr, OnOk};
ghost use Rattle.script_values.specs.Gives.{Stops};
ghost use Rattle.script_model.specs.Environment.{here};
ghost use Rattle.script_model.specs.Statements as spec;
ghost use Rattle.script_eval.specs.declared.next.Next.TheVariants as next;
ghost use Rattle.script_eval.specs.Leads.{Leads};
ghost use Rattle.script_eval.specs.Seats.{IsSeatOf};
ghost use Rattle.script_names.specs.Named.{HasNames};
ghost use Rattle.script_model.specs.Orders.{tokens_of};

use crate::assignments::{assign, assign_entry};
use crate::declarations::{def, ideal, matrix, module, poly};
use crate::expressions::value_of;
use crate::next::Next;
use crate::rings::{nc_algebra, ring, set_ring};
use crate::session::Session;
use gproduct::TableSeat;
use plural_lexer::Token;
use plural_syntax::{Expr, Statement, TokenList};
use run_records::Engine;
use script_model::values::Refusal;
use script_values::printing::{label_of, printed};
use script_values::tokens::{number, text};
use script_values::{Environment, Stop};
use sqlite_items::Items;
use std::alloc::Global;

/// Does what a statement says.
#[tactic(auto, unfolding(script_model::specs::Statements::done_by))]
pub fn done_by<E: Engine>(
    session: &Session,
    engine: &mut E,
    seat: &mut TableSeat,
    environment: &mut Environment,
    statement: &Statement,
) -> Result<Next, Stop>
    requires ready { E.can_run engine.old }
    requires seat { IsSeatOf seat.old.algebra environment.old }
    requires names { HasNames session.now.bytes statement.now }
    ensures ready { E.can_run engine.new }
    ensures seat { seat.new.algebra ≡ seat.old.algebra }
    ensures leads { Leads result environment.new (spec.done_by session.now.bytes session.now.budget environment.old statement.now) }
{
    let (alloc, bytes) = (session.alloc, session.bytes);
    match statement {
        Statement::Empty { .. } | Statement::Short { .. } => Ok(silent(alloc)),
        Statement::Quit { .. } => Ok(Next::Quits),
        Statement::Option { names, .. } => options(session, &*environment, &names.list),
        Statement::SetRing { name, .. } => set_ring(alloc, environment, text(bytes, name)),
        Statement::Ring {
            name,
            characteristic,
            vars,
            order,
            ..
        } => {
            let p = number(bytes, characteristic);
            ring(
                session,
                environment,
                text(bytes, name),
                p,
                vars.get(),
                order.get(),
            )
        }
        Statement::NcAlgebra { name, data, .. } => {
            let name = text(bytes, name);
            nc_algebra(session, engine, seat, environment, name, data.get())
        }
        Statement::Def { name, value, .. } => {
            def(
                session,
                engine,
                seat,
                environment,
                text(bytes, name),
                value.get(),
            )
        }
        Statement::Poly { name, value, .. } => {
            poly(session, engine, seat, environment, text(bytes, name), value)
        }
        Statement::Ideal { name, values, .. } => {
            ideal(
                session,
                engine,
                seat,
                environment,
                text(bytes, name),
                values,
            )
        }
        Statement::Module { name, value, .. } => {
            module(session, engine, seat, environment, text(bytes, name), value)
        }
        Statement::Matrix {
            name,
            rows,
            columns,
            values,
            ..
        } => {
            let name = text(bytes, name);
            let r = number(bytes, &rows.get().number);
            let c = number(bytes, &columns.get().number);
            matrix(session, engine, seat, environment, name, r, c, values)
        }
        Statement::Assign { name, list, .. } => {
            assign(
                session,
                engine,
                seat,
                environment,
                text(bytes, name),
                list.get(),
            )
        }
        Statement::AssignEntry {
            name,
            row,
            column,
            value,
            ..
        } => {
            let name = text(bytes, name);
            let (i, j) = (number(bytes, row), number(bytes, column));
            assign_entry(session, engine, seat, environment, name, i, j, value.get())
        }
        Statement::Print { value, .. } => print(session, engine, seat, &*environment, value.get()),
    }
}

/// The next statement, with nothing printed.
pub fn silent(alloc: Global) -> Next
    ensures { result ≡ next.Goes [] }
{
    Next::Goes(Items::new(alloc))
}

// Names of options are tested, and have no effect.
fn options(session: &Session, environment: &Environment, names: &TokenList) -> Result<Next, Stop>
    ensures { Leads result environment.now (spec.options session.now.bytes session.now.budget environment.now (tokens_of names.now)) }
{
    test_option(session, environment, &names.first)?;
    for after in names.more.as_slice() {
        test_option(session, environment, &after.token)?;
    }
    Ok(silent(session.alloc))
}

// Refuses a name that is no option's.
fn test_option(session: &Session, environment: &Environment, name: &Token) -> Result<(), Stop>
    ensures passed { OnOk result ((more : _) → spec.options session.now.bytes session.now.budget environment.now (name.now ∷ more)
        ≡ spec.options session.now.bytes session.now.budget environment.now more) }
    ensures refused { IfErr result (λ stop. (more : _) → Stops stop (spec.options session.now.bytes session.now.budget environment.now (name.now ∷ more))) }
{
    let name = text(session.bytes, name);
    if name == b"redSB".as_slice() || name == b"redTail".as_slice() {
        Ok(())
    } else {
        let name = Items::from_slice(session.alloc, name)?;
        Err(Stop::Refused(Refusal::Name(name)))
    }
}

// Prints the value of an expression.
fn print<E: Engine>(
    session: &Session,
    engine: &mut E,
    seat: &mut TableSeat,
    environment: &Environment,
    expr: &Expr,
) -> Result<Next, Stop>
    requires ready { E.can_run engine.old }
    requires seat { IsSeatOf seat.old.algebra environment.now }
    ensures ready { E.can_run engine.new }
    ensures seat { seat.new.algebra ≡ seat.old.algebra }
    ensures leads { Leads result environment.now (spec.print session.now.bytes session.now.budget environment.now expr.now (here environment.now)) }
{
    let Some(ring) = environment.here() else {
        return Err(Stop::Refused(Refusal::NoRing));
    };
    let scope = session.scope(environment, ring);
    let found = value_of(&scope, engine, seat, expr)?;
    let label = label_of(session.bytes, expr);
    let text = printed(session.alloc, environment, ring, label, &found)?;
    Ok(Next::Goes(text))
}
