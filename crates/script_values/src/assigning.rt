//! Values that statements give a name.

ghost use Rattle.std.specs.Prelude.{◌≡◌, ◌≤◌, ◌++◌, ◌&&◌, [], length, reverse, take, drop, replicate, slice_index_or, slice_set, IfOk, OnOk, IsTrue};
ghost use Rattle.monomials.specs.Polynomials.{Each, IsPolynomial};
ghost use Rattle.word_model.specs.Words.{Algebra};
ghost use Rattle.script_model.specs.Operations.{columns_of, is_number_of, poly_of as poly_of_value};
ghost use Rattle.script_model.specs.Statements as spec;
ghost use Rattle.script_values.specs.Gives.{Gives};
ghost use Rattle.script_values.specs.Values.{ArePolynomials, IsValueOf};

use crate::Stop;
use gpoly::GPoly;
use run_records::Row;
use script_model::values::{Refusal, Value, copy_rows};
use sqlite_items::Items;
use std::alloc::{AllocError, Global};

/// The polynomial that a value is.
pub fn poly_of(value: Value) -> Result<GPoly, Stop>
    ensures value { Gives result (poly_of_value value) }
    ensures of_ring { (A : Algebra) → IsValueOf A value → IfOk result (IsPolynomial A.p A.order) }
{
    match value {
        Value::Poly(f) => Ok(f),
        _ => Err(Stop::Refused(Refusal::Kind)),
    }
}

/// A value of any kind but a ring.
pub fn not_ring(value: Value) -> Result<Value, Stop>
    ensures value { Gives result (spec.not_ring value) }
    ensures of_ring { (A : Algebra) → IsValueOf A value → IfOk result (IsValueOf A) }
{
    match value {
        Value::Ring(_) => Err(Stop::Refused(Refusal::Kind)),
        _ => Ok(value),
    }
}

/// A value that is a poly.
pub fn as_poly(value: Value) -> Result<Value, Stop>
    ensures value { Gives result (spec.as_poly value) }
    ensures of_ring { (A : Algebra) → IsValueOf A value → IfOk result (IsValueOf A) }
{
    match value {
        Value::Poly(_) => Ok(value),
        _ => Err(Stop::Refused(Refusal::Kind)),
    }
}

/// A value that is a module.
pub fn as_module(value: Value) -> Result<Value, Stop>
    ensures value { Gives result (spec.as_module value) }
    ensures of_ring { (A : Algebra) → IsValueOf A value → IfOk result (IsValueOf A) }
{
    match value {
        Value::Module(_) => Ok(value),
        _ => Err(Stop::Refused(Refusal::Kind)),
    }
}

/// The polynomials that values are.
pub fn all_polys(alloc: Global, values: Items<Value>) -> Result<Items<GPoly>, Stop>
    ensures value { Gives result (spec.all_polys values) }
    ensures of_ring { (A : Algebra) → Each (IsValueOf A) values → IfOk result (ArePolynomials A) }
{
    let mut left = values;
    let mut polys = Items::new(alloc);
    while let Some(value) = left.pop() {
        polys.push(poly_of(value)?)?;
    }
    Ok(turned(alloc, polys)?)
}

// The polynomials in reverse order.
fn turned(alloc: Global, polys: Items<GPoly>) -> Result<Items<GPoly>, AllocError>
    ensures { IfOk result (λ r. r ≡ reverse polys) }
{
    let mut left = polys;
    let mut turned = Items::new(alloc);
    while let Some(f) = left.pop() {
        turned.push(f)?;
    }
    Ok(turned)
}

/// Whether a matrix may have a side of this length.
pub fn is_side(n: u64) -> bool
    ensures value { result ≡ spec.is_side n }
    ensures bound { IsTrue result → n ≤ 16 }
{
    n >= 1 && n <= 16
}

/// The matrix with these sides, filled row by row, and zero where there are no polynomials left.
pub fn matrix_of(alloc: Global, rows: u64, columns: u64, polys: Items<GPoly>) -> Result<Value, Stop>
    requires rows { rows ≤ 16 }
    requires columns { columns ≤ 16 }
    ensures value { Gives result (spec.matrix_of rows columns polys) }
    ensures of_ring { (A : Algebra) → ArePolynomials A polys → IfOk result (IsValueOf A) }
{
    if polys.len() as u64 > rows * columns {
        return Err(Stop::Refused(Refusal::Limit));
    }
    let left = turned(alloc, polys)?;
    Ok(Value::Matrix(matrix_rows(alloc, rows, columns, left)?))
}

// The rows of a matrix, filled with the last polynomial first.
fn matrix_rows(
    alloc: Global,
    rows: u64,
    columns: u64,
    polys: Items<GPoly>,
) -> Result<Items<Row>, AllocError>
    ensures { IfOk result (λ r. r ≡ spec.matrix_rows rows columns (reverse polys)) }
{
    let mut left = polys;
    let mut made = Items::new(alloc);
    for _row in 0..rows {
        made.push(next_row(alloc, columns, &mut left)?)?;
    }
    Ok(made)
}

// A row with the last polynomials, the last one first, and zero where there are none left.
fn next_row(alloc: Global, columns: u64, left: &mut Items<GPoly>) -> Result<Row, AllocError>
    ensures row { IfOk result (λ r. r ≡ take columns (reverse left.old ++ replicate columns [])) }
    ensures left { OnOk result (reverse left.new ≡ drop columns (reverse left.old)) }
{
    let mut entries = Vec::new(alloc);
    for _column in 0..columns {
        entries.push(next_entry(alloc, left))?;
    }
    Ok(Row { entries })
}

// The last polynomial, zero where there is none.
fn next_entry(alloc: Global, left: &mut Items<GPoly>) -> GPoly
    ensures entry { result ≡ slice_index_or (reverse left.old) 0 [] }
    ensures left { reverse left.new ≡ drop 1 (reverse left.old) }
{
    match left.pop() {
        Some(f) => f,
        None => GPoly::zero(alloc),
    }
}

/// Whether a matrix has an entry in this row and column, which count from 1. The columns are those of the first row.
pub fn is_in_matrix(rows: &[Row], row: u64, column: u64) -> bool
    ensures { result ≡ (is_number_of row (length rows.now) && is_number_of column (columns_of rows.now)) }
{
    let columns = match rows.first() {
        Some(first) => first.entries.len(),
        None => 0,
    };
    1 <= row && row <= rows.len() as u64 && (1 <= column && column <= columns as u64)
}

/// The rows with this polynomial in this row and column, which count from 1.
pub fn with_entry(
    alloc: Global,
    rows: &[Row],
    row: u64,
    column: u64,
    f: GPoly,
) -> Result<Items<Row>, AllocError>
    requires { IsTrue (is_number_of row (length rows.now) && is_number_of column (columns_of rows.now)) }
    ensures value { IfOk result (λ r. r ≡ spec.with_entry rows.now row column f) }
    ensures of_ring { (A : Algebra) → Each (ArePolynomials A) rows.now → IsPolynomial A.p A.order f → IfOk result (Each (ArePolynomials A)) }
{
    let place = row as usize - 1;
    let changed = row_with(alloc, &rows[place], column as usize - 1, f)?;
    let mut all = copy_rows(alloc, &rows[..place])?;
    all.push(changed)?;
    all.append(copy_rows(alloc, &rows[place + 1..])?)?;
    Ok(all)
}

// The row with this polynomial at this place, where it has the place.
fn row_with(alloc: Global, row: &Row, place: usize, f: GPoly) -> Result<Row, AllocError>
    ensures { IfOk result (λ r. r ≡ slice_set row.now place f) }
{
    let mut changed = row.copy(alloc)?;
    if place < changed.entries.len() {
        changed.entries[place] = f;
    }
    Ok(changed)
}
