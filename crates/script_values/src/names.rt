//! Names and entries in expressions.

ghost use Rattle.std.specs.Prelude.{◌≡◌, IfOk, Some, None};
ghost use Rattle.monomials.specs.Polynomials.{Each};
ghost use Rattle.script_model.specs.declared.values.Value.TheVariants as variant;
ghost use Rattle.script_model.specs.Environment.{not_here};
ghost use Rattle.script_model.specs.Operations.{entry_of};
ghost use Rattle.script_model.specs.Expressions as spec;
ghost use Rattle.script_values.specs.Gives.{Gives, Stops};
ghost use Rattle.script_values.specs.Values.{ArePolynomials, IsValueOf};

use crate::assigning::is_in_matrix;
use crate::operations::variable;
use crate::tokens::{number, text};
use crate::{Scope, Stop};
use gpoly::GPoly;
use plural_lexer::Token;
use plural_syntax::Index;
use run_records::Row;
use script_model::values::{Refusal, Value};
use sqlite_items::{Boxed, Items};
use std::alloc::Global;

/// What a name stands for, or the entry of it that the index names.
pub fn named(scope: &Scope, name: &Token, index: &Option<Boxed<Index>>) -> Result<Value, Stop>
    ensures value { Gives result (spec.named scope.now name.now index.now) }
    ensures of_ring { IfOk result (IsValueOf scope.now.ring.algebra) }
{
    let name = text(scope.bytes, name);
    let ring = scope.ring;
    if let Some(place) = ring.variable_place(name) {
        let value = Value::Poly(variable(scope.alloc, ring.algebra(), place)?);
        return indexed(scope, index, &value);
    }
    if let Some(value) = ring.find(name) {
        return indexed(scope, index, value);
    }
    match scope.environment.ring_number(name) {
        Some(number) => indexed(scope, index, &Value::Ring(number)),
        None => Err(not_here(scope, name)),
    }
}

/// The refusal of a name that is none here: another ring has a value of it, or none has.
pub fn not_here(scope: &Scope, name: &[u8]) -> Stop
    ensures { Stops result (not_here scope.now.environment name.now) }
{
    match Items::from_slice(scope.alloc, name) {
        Ok(name_bytes) => {
            if scope.environment.is_known(name) {
                Stop::Refused(Refusal::WrongRing(name_bytes))
            } else {
                Stop::Refused(Refusal::Name(name_bytes))
            }
        }
        Err(_) => Stop::Memory,
    }
}

// The value, or the entry of it that the index names.
fn indexed(scope: &Scope, index: &Option<Boxed<Index>>, value: &Value) -> Result<Value, Stop>
    requires { IsValueOf scope.now.ring.algebra value.now }
    ensures value { Gives result (spec.indexed scope.now index.now value.now) }
    ensures of_ring { IfOk result (IsValueOf scope.now.ring.algebra) }
{
    match index {
        None => Ok(value.copy(scope.alloc)?),
        Some(index) => {
            let index = index.get();
            let first = number(scope.bytes, &index.first);
            let second = second_number(scope.bytes, index);
            entry_of(scope, value, first, second)
        }
    }
}

// The second index, where there are two.
fn second_number(bytes: &[u8], index: &Index) -> Option<u64>
    ensures { result ≡ spec.second_number bytes.now index.now.second }
{
    match &index.second {
        None => None,
        Some(after) => Some(number(bytes, &after.token)),
    }
}

// An entry of an ideal or of a matrix.
fn entry_of(scope: &Scope, value: &Value, first: u64, second: Option<u64>) -> Result<Value, Stop>
    requires { IsValueOf scope.now.ring.algebra value.now }
    ensures value { Gives result (entry_of value.now first second) }
    ensures of_ring { IfOk result (IsValueOf scope.now.ring.algebra) }
{
    match second {
        None => match value {
            Value::Ideal(generators) => generator(scope, generators.as_slice(), first),
            _ => Err(Stop::Refused(Refusal::Kind)),
        },
        Some(second) => match value {
            Value::Matrix(rows) => matrix_entry(scope, rows.as_slice(), first, second),
            _ => Err(Stop::Refused(Refusal::Kind)),
        },
    }
}

// A generator of an ideal, whose numbers count from 1.
fn generator(scope: &Scope, generators: &[GPoly], number: u64) -> Result<Value, Stop>
    requires { ArePolynomials scope.now.ring.algebra generators.now }
    ensures value { Gives result (entry_of (variant.Ideal generators.now) number None) }
    ensures of_ring { IfOk result (IsValueOf scope.now.ring.algebra) }
{
    if number < 1 || number > generators.len() as u64 {
        return Err(Stop::Refused(Refusal::Index));
    }
    let generator = &generators[number as usize - 1];
    Ok(Value::Poly(generator.copy(scope.alloc)?))
}

// An entry of a matrix, whose rows and columns count from 1.
fn matrix_entry(scope: &Scope, rows: &[Row], row: u64, column: u64) -> Result<Value, Stop>
    requires { Each (ArePolynomials scope.now.ring.algebra) rows.now }
    ensures value { Gives result (entry_of (variant.Matrix rows.now) row (Some column)) }
    ensures of_ring { IfOk result (IsValueOf scope.now.ring.algebra) }
{
    if !is_in_matrix(rows, row, column) {
        return Err(Stop::Refused(Refusal::Index));
    }
    let entries = &rows[row as usize - 1];
    match entries.entries.get(column as usize - 1) {
        Some(f) => Ok(Value::Poly(f.copy(scope.alloc)?)),
        None => Ok(Value::Poly(GPoly::zero(scope.alloc))),
    }
}
