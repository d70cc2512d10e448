//! Evaluates scripts, statement by statement.

ghost use Rattle.std.specs.Prelude.{◌≡◌, ◌≢◌, ◌<◌, ◌≤◌, [], drop, length, IfOk, IsTrue};
ghost use Rattle.monomials.specs.Polynomials.{Each};
ghost use Rattle.script_model.specs.Evaluation.{evaluation, answer_from, behind};
ghost use Rattle.script_names.specs.Named.{HasNames};
ghost use Rattle.script_eval.specs.Seats.{IsSeatOf};
ghost use Rattle.script_eval.specs.Going.{Goes};

use crate::lines::line_of;
use crate::next::Next;
use crate::reply::Reply;
use crate::session::Session;
use crate::statements::done_by;
use algebra::Algebra;
use gproduct::{Table, TableSeat};
use monomials::{Block, Order};
use plural_syntax::Statement;
use prime_field::Field;
use run_records::Engine;
use script_values::refusals::{status_of, write_refusal};
use script_values::{Budget, Environment, Stop};
use std::alloc::{AllocError, Global};
use std::rc::Rc;

/// The text and the status of a script, given by its bytes and its tree: statement by statement, up to the first
/// refusal, `quit` or the end. `budget` is the most entries that a run may have.
#[tactic(auto, unfolding(script_model::specs::Evaluation::evaluation))]
pub fn eval<E: Engine>(
    alloc: Global,
    bytes: &[u8],
    statements: &[Statement],
    budget: u32,
    engine: &mut E,
) -> Result<Reply, AllocError>
    requires ready { E.can_run engine.old }
    requires some { 1 ≤ budget }
    requires names { Each (HasNames bytes.now) statements.now }
    ensures ready { E.can_run engine.new }
    ensures value { IfOk result (λ reply. reply ≡ evaluation bytes.now budget statements.now) }
{
    let session = Session {
        alloc,
        bytes,
        budget: Budget::of(budget),
    };
    let mut environment = Environment::new(alloc);
    let mut text = Vec::new(alloc);
    let mut done = 0;
    while done < statements.len() {
        let left = &statements[done..];
        match stretch(&session, engine, &mut environment, &mut text, left)? {
            Going::On(count) => done += count,
            Going::Ends(status) => return Ok(Reply { text, status }),
        }
    }
    Ok(Reply { text, status: 0 })
}

/// How an evaluation goes on.
enum Going {
    /// Behind this many statements.
    On(usize),
    /// It ends, with this status.
    Ends(u8),
}

// Evaluates the statements up to one behind which another algebra is current, over one table of products.
fn stretch<E: Engine>(
    session: &Session,
    engine: &mut E,
    environment: &mut Environment,
    text: &mut Vec<u8>,
    statements: &[Statement],
) -> Result<Going, AllocError>
    requires ready { E.can_run engine.old }
    requires names { Each (HasNames session.now.bytes) statements.now }
    requires some { statements.now ≢ [] }
    ensures ready { E.can_run engine.new }
    ensures value { IfOk result (λ going. Goes session.now statements.now environment.old text.old.items environment.new text.new.items going) }
{
    let algebra = match environment.here() {
        Some(ring) => ring.shared_algebra()?,
        None => any_algebra(session.alloc)?,
    };
    let table = Table::new(session.alloc, &algebra)?;
    let mut seat = table.seat(session.alloc)?;
    over_seat(session, engine, &mut seat, environment, text, statements)
}

// The same over a seat of the current algebra.
fn over_seat<E: Engine>(
    session: &Session,
    engine: &mut E,
    seat: &mut TableSeat,
    environment: &mut Environment,
    text: &mut Vec<u8>,
    statements: &[Statement],
) -> Result<Going, AllocError>
    requires ready { E.can_run engine.old }
    requires seat { IsSeatOf seat.old.algebra environment.old }
    requires names { Each (HasNames session.now.bytes) statements.now }
    requires some { statements.now ≢ [] }
    ensures ready { E.can_run engine.new }
    ensures value { IfOk result (λ going. Goes session.now statements.now environment.old text.old.items environment.new text.new.items going) }
{
    let mut done = 0;
    while done < statements.len() {
        let statement = &statements[done];
        match done_by(session, engine, seat, environment, statement) {
            Ok(Next::Goes(printed)) => text.extend_from_slice(printed.as_slice())?,
            Ok(Next::Quits) => return Ok(Going::Ends(0)),
            Err(Stop::Refused(refusal)) => {
                write_refusal(text, line_of(statement), &refusal)?;
                return Ok(Going::Ends(status_of(&refusal)));
            }
            Err(Stop::Memory) => return Err(AllocError),
        }
        done += 1;
        if !serves(seat, environment) {
            break;
        }
    }
    Ok(Going::On(done))
}

// Whether the seat is of the current algebra.
fn serves(seat: &TableSeat, environment: &Environment) -> bool
    ensures { IsTrue result → IsSeatOf seat.now.algebra environment.now }
{
    match environment.here() {
        Some(ring) => seat.algebra().same(ring.algebra()),
        None => true,
    }
}

// An algebra for statements without a ring, which make no products.
fn any_algebra(alloc: Global) -> Result<Rc<Algebra>, AllocError> {
    let Ok(field) = Field::of(2) else {
        return Err(AllocError);
    };
    let Ok(order) = Order::new(alloc, &[Block::Lex { len: 1 }], 1) else {
        return Err(AllocError);
    };
    let algebra = Algebra::commuting(alloc, field, order, 1)?;
    match Rc::new(alloc, algebra) {
        Ok(shared) => Ok(shared),
        Err(_) => Err(AllocError),
    }
}
