//! The numbers and polynomials for pairs of variables.

ghost use Rattle.std.specs.Prelude.{◌≡◌, ◌+◌, ◌-◌, ◌*◌, ◌<◌, ◌≤◌, ℕ, [], ◌++◌, length, true, false, IfOk, OnOk, MatchOption, IfSome, map};
ghost use Rattle.std.specs.List.{list_all};
ghost use Rattle.monomials.specs.Leading.{leading_coefficient};
ghost use Rattle.monomials.specs.Polynomials.{Each, IsPolynomial};
ghost use Rattle.script_model.specs.Operations.{matrix_entry};
ghost use Rattle.script_model.specs.Statements as spec;
ghost use Rattle.script_rings.specs.Entries.{IsPair, entry_for, has_entries};
ghost use Rattle.script_rings.specs.Kept.{GivesList};
ghost use Rattle.script_values.specs.Values.{ArePolynomials, IsValueOf};

use crate::pairs::all_pairs;
use algebra::Algebra;
use gpoly::GPoly;
use run_records::Row;
use script_model::values::{Refusal, Value};
use script_values::Stop;
use std::alloc::{AllocError, Global};

/// The numbers c_ij that a value stands for.
pub(crate) fn constants_for(
    alloc: Global,
    algebra: &Algebra,
    value: &Value,
) -> Result<Vec<u32>, Stop>
    requires { IsValueOf algebra.now value.now }
    ensures value { GivesList result (spec.constants_for algebra.now.order.vars value.now) }
    ensures numbers { IfOk result (λ c. Each (λ k. k < algebra.now.p) c.items) }
    ensures one_each { IfOk result (λ c. 2 * length c.items ≡ algebra.now.order.vars * (algebra.now.order.vars - 1)) }
{
    let n = algebra.n();
    if is_varying(value) || !has_entries(value, n) {
        return Err(Stop::Refused(Refusal::Kind));
    }
    let pairs = all_pairs(alloc, n)?;
    match constants_at(alloc, value, &pairs)? {
        Some(constants) => Ok(constants),
        None => Err(Stop::Refused(Refusal::Kind)),
    }
}

// The numbers of the entries for these pairs, where all are constants.
fn constants_at(
    alloc: Global,
    value: &Value,
    pairs: &[(usize, usize)],
) -> Result<Option<Vec<u32>>, AllocError>
    requires { Each IsPair pairs.now }
    ensures { IfOk result (λ found. MatchOption found
        (list_all (λ ij. spec.is_constant (entry_for value.now ij)) pairs.now ≡ false)
        (λ c. (list_all (λ ij. spec.is_constant (entry_for value.now ij)) pairs.now ≡ true)
        × (c.items ≡ map (λ ij. leading_coefficient (entry_for value.now ij)) pairs.now))) }
{
    let mut constants = Vec::with_capacity(alloc, pairs.len())?;
    for (i, j) in pairs {
        let Some(constant) = constant_at(value, *i, *j) else {
            return Ok(None);
        };
        constants.push(constant)?;
    }
    Ok(Some(constants))
}

/// The polynomials d_ij that a value stands for.
pub(crate) fn entries_for(
    alloc: Global,
    algebra: &Algebra,
    value: &Value,
) -> Result<Vec<GPoly>, Stop>
    requires { IsValueOf algebra.now value.now }
    ensures value { GivesList result (spec.entries_for algebra.now.order.vars value.now) }
    ensures polynomials { IfOk result (λ d. Each (IsPolynomial algebra.now.p algebra.now.order) d.items) }
    ensures one_each { IfOk result (λ d. 2 * length d.items ≡ algebra.now.order.vars * (algebra.now.order.vars - 1)) }
{
    let n = algebra.n();
    if !has_entries(value, n) {
        return Err(Stop::Refused(Refusal::Kind));
    }
    let pairs = all_pairs(alloc, n)?;
    Ok(copies_at(alloc, value, &pairs)?)
}

// The entries for these pairs, in memory of their own.
fn copies_at(
    alloc: Global,
    value: &Value,
    pairs: &[(usize, usize)],
) -> Result<Vec<GPoly>, AllocError>
    requires { Each IsPair pairs.now }
    ensures { IfOk result (λ d. d.items ≡ map (entry_for value.now) pairs.now) }
{
    let mut entries = Vec::with_capacity(alloc, pairs.len())?;
    for (i, j) in pairs {
        entries.push(copy_at(alloc, value, *i, *j)?)?;
    }
    Ok(entries)
}

// The entry for a pair, in memory of its own.
fn copy_at(alloc: Global, value: &Value, i: usize, j: usize) -> Result<GPoly, AllocError>
    requires { IsPair (i, j) }
    ensures { IfOk result (λ f. f ≡ entry_for value.now (i, j)) }
{
    match entry_at(value, i, j) {
        Some(entry) => entry.copy(alloc),
        None => Ok(GPoly::zero(alloc)),
    }
}

// The number of the entry for a pair, where it is a constant.
fn constant_at(value: &Value, i: usize, j: usize) -> Option<u32>
    requires { IsPair (i, j) }
    ensures { MatchOption result (spec.is_constant (entry_for value.now (i, j)) ≡ false)
        (λ k. (spec.is_constant (entry_for value.now (i, j)) ≡ true) × (k ≡ leading_coefficient (entry_for value.now (i, j)))) }
{
    match entry_at(value, i, j) {
        Some(entry) => constant(entry),
        None => Some(0),
    }
}

// The number that a constant is.
fn constant(f: &GPoly) -> Option<u32>
    ensures { MatchOption result (spec.is_constant f.now ≡ false)
        (λ k. (spec.is_constant f.now ≡ true) × (k ≡ leading_coefficient f.now)) }
{
    if f.degree() != 0 {
        return None;
    }
    match f.leading() {
        Some(term) => Some(term.coef),
        None => Some(0),
    }
}

// The entry for a pair, unless it lies outside the matrix.
fn entry_at(value: &Value, i: usize, j: usize) -> Option<&GPoly>
    requires { IsPair (i, j) }
    ensures { MatchOption result (entry_for value.now (i, j) ≡ []) (λ f. entry_for value.now (i, j) ≡ f.now) }
{
    match value {
        Value::Poly(f) => Some(f),
        Value::Matrix(rows) => matrix_entry(rows.as_slice(), i, j),
        _ => None,
    }
}

fn matrix_entry(rows: &[Row], i: usize, j: usize) -> Option<&GPoly>
    requires { IsPair (i, j) }
    ensures { MatchOption result (matrix_entry rows.now i j ≡ []) (λ f. matrix_entry rows.now i j ≡ f.now) }
{
    let row = rows.get(i - 1)?;
    row.entries.get(j - 1)
}

// Whether it is a polynomial that is no constant.
fn is_varying(value: &Value) -> bool
    ensures { result ≡ spec.is_varying value.now }
{
    match value {
        Value::Poly(f) => f.degree() != 0,
        _ => false,
    }
}

// Whether it has an entry for each pair of the variables.
fn has_entries(value: &Value, n: usize) -> bool
    ensures { result ≡ has_entries n value.now }
{
    match value {
        Value::Poly(_) => true,
        Value::Matrix(rows) => is_square(rows.as_slice(), n),
        _ => false,
    }
}

// Whether the matrix has so many rows and columns.
fn is_square(rows: &[Row], n: usize) -> bool
    ensures { result ≡ spec.is_square n rows.now }
{
    if rows.len() != n {
        return false;
    }
    match rows.first() {
        Some(row) => row.entries.len() == n,
        None => n == 0,
    }
}
