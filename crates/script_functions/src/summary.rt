//! Summaries of runs.

ghost use Rattle.std.specs.Prelude.{◌≡◌, ◌++◌, IfOk, OnOk};
ghost use Rattle.monomials.specs.Polynomials.{Each};
ghost use Rattle.gproduct.specs.Seats.{Keeps};
ghost use Rattle.script_model.specs.Functions as spec;
ghost use Rattle.script_model.specs.Functions.{how_many, is_new, is_zero, is_skipped};
ghost use Rattle.script_values.specs.Gives.{Gives};
ghost use Rattle.script_values.specs.Values.{IsValueOf};

use crate::bases::basis_over;
use crate::generators::joined;
use gproduct::{Steps, TableSeat};
use itoa::{Buffer, Integer};
use run_records::{Engine, Entry, Finished, Journal, Mode};
use script_model::values::Value;
use script_values::{Scope, Stop};
use sqlite_items::Items;
use std::alloc::{AllocError, Global};
use std::sync::ledger::Ledger;

// The summary of a left run.
pub(crate) fn summary<E: Engine, L: Ledger>(
    scope: &Scope,
    engine: &mut E,
    seat: &mut TableSeat,
    arguments: &[Value],
    steps: &mut Steps<L>,
) -> Result<Value, Stop>
    requires ready { E.can_run engine.old }
    requires seat { seat.old.algebra ≡ scope.now.ring.algebra }
    requires of_ring { Each (IsValueOf scope.now.ring.algebra) arguments.now }
    ensures value { Gives result (spec.summary scope.now.ring.algebra scope.now.budget arguments.now) }
    ensures of_ring { IfOk result (IsValueOf scope.now.ring.algebra) }
    ensures ready { E.can_run engine.new }
    ensures seat { seat.new.algebra ≡ seat.old.algebra }
    ensures kept { Keeps seat.old seat.new }
{
    let generators = joined(scope, arguments)?;
    let generators = generators.as_slice();
    let found = basis_over(scope, engine, seat, generators, Mode::Left, steps)?;
    let text = summary_text(scope.alloc, &found.run, &found.list)?;
    Ok(Value::Lines(Items::from_vec(text)))
}

// The line of a run with its finished list.
fn summary_text(alloc: Global, run: &Journal, list: &Finished) -> Result<Vec<u8>, AllocError>
    ensures { IfOk result (λ text. text.items ≡ spec.summary_text run.now list.now) }
{
    let kinds = Kinds::of(&run.entries);
    let mut text = Vec::new(alloc);
    write_count(&mut text, b"entries ", run.entries.len())?;
    write_count(&mut text, b" new ", kinds.new)?;
    write_count(&mut text, b" zero ", kinds.zero)?;
    write_count(&mut text, b" skipped ", kinds.skipped)?;
    write_count(&mut text, b" list ", list.list.len())?;
    text.push(b'\n')?;
    Ok(text)
}

// How many entries there are of each kind.
#[derive(Drop)]
struct Kinds {
    new: usize,
    zero: usize,
    skipped: usize,
}

impl Kinds {
    fn of(entries: &[Entry]) -> Kinds
        ensures new { result.new ≡ how_many is_new entries.now }
        ensures zero { result.zero ≡ how_many is_zero entries.now }
        ensures skipped { result.skipped ≡ how_many is_skipped entries.now }
    {
        let (mut new, mut zero, mut skipped) = (0, 0, 0);
        for entry in entries {
            match entry {
                Entry::New { .. } => new += 1,
                Entry::Zero { .. } => zero += 1,
                Entry::Skipped { .. } => skipped += 1,
            }
        }
        Kinds { new, zero, skipped }
    }
}

// Appends a word and a number in decimal.
fn write_count<I: Integer>(text: &mut Vec<u8>, word: &[u8], number: I) -> Result<(), AllocError>
    ensures { OnOk result (text.new.items ≡ text.old.items ++ (word.now ++ I.text number)) }
{
    let mut digits = Buffer::new();
    text.extend_from_slice(word)?;
    text.extend_from_slice(digits.format(number).as_bytes())
}
