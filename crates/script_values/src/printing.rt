//! Printed values.

ghost use Rattle.std.specs.Prelude.{◌≡◌, ◌++◌, codes, slice_get, IfOk, OnOk};
ghost use Rattle.std.specs.Fmt.{decimal};
ghost use Rattle.monomials.specs.Polynomials.{Each, IsPolynomial};
ghost use Rattle.word_model.specs.Texts.{polynomial_text};
ghost use Rattle.script_model.specs.Statements as spec;
ghost use Rattle.script_values.specs.Values.{ArePolynomials, IsValueOf};

use crate::refusals::write_number;
use crate::tokens::text;
use crate::{Environment, Ring};
use gpoly::GPoly;
use plural_lexer::Token;
use plural_syntax::{Base, Expr};
use plural_text::{ideal_text, poly_text, ring_text, rows_text};
use run_records::Row;
use script_model::values::Value;
use sqlite_items::Items;
use std::alloc::{AllocError, Global};

/// The text that is printed of a value of the ring, with this label.
pub fn printed(
    alloc: Global,
    environment: &Environment,
    ring: &Ring,
    label: &[u8],
    value: &Value,
) -> Result<Items<u8>, AllocError>
    requires { IsValueOf ring.now.algebra value.now }
    ensures { IfOk result (λ text. text ≡ spec.printed environment.now ring.now label.now value.now) }
{
    match value {
        Value::Poly(f) => Ok(Items::from_vec(poly_line(alloc, ring, f)?)),
        Value::Ideal(generators) => {
            let text = ideal_text(
                alloc,
                ring.algebra(),
                ring.names(),
                label,
                generators.as_slice(),
            )?;
            Ok(Items::from_vec(text))
        }
        Value::Module(rows) => {
            let text = rows_text(alloc, ring.algebra(), ring.names(), label, rows.as_slice())?;
            Ok(Items::from_vec(text))
        }
        Value::Matrix(rows) => Ok(Items::from_vec(matrix_text(
            alloc,
            ring,
            label,
            rows.as_slice(),
        )?)),
        Value::Lines(lines) => Items::from_slice(alloc, lines.as_slice()),
        Value::Ring(number) => text_of_ring(alloc, environment, *number),
    }
}

// The text of the ring of this number, nothing where there is none.
fn text_of_ring(
    alloc: Global,
    environment: &Environment,
    number: u32,
) -> Result<Items<u8>, AllocError>
    ensures { IfOk result (λ text. text ≡ spec.text_of_ring (slice_get environment.now.rings number)) }
{
    match environment.ring(number) {
        Some(ring) => {
            let text = ring_text(alloc, ring.algebra(), ring.names(), ring.blocks())?;
            Ok(Items::from_vec(text))
        }
        None => Ok(Items::new(alloc)),
    }
}

// The text of a matrix: a line for each entry, row by row.
fn matrix_text(
    alloc: Global,
    ring: &Ring,
    label: &[u8],
    rows: &[Row],
) -> Result<Vec<u8>, AllocError>
    requires { Each (ArePolynomials ring.now.algebra) rows.now }
    ensures { IfOk result (λ text. text.items ≡ spec.matrix_text ring.now label.now 1 rows.now) }
{
    let mut text = Vec::new(alloc);
    for (index, row) in rows.iter().enumerate() {
        write_row(alloc, &mut text, ring, label, index + 1, &row.entries)?;
    }
    Ok(text)
}

// Appends the lines of a row of a matrix.
fn write_row(
    alloc: Global,
    text: &mut Vec<u8>,
    ring: &Ring,
    label: &[u8],
    number: usize,
    entries: &[GPoly],
) -> Result<(), AllocError>
    requires { ArePolynomials ring.now.algebra entries.now }
    ensures { OnOk result (text.new.items ≡ text.old.items ++ spec.matrix_row ring.now label.now number 1 entries.now) }
{
    for (index, f) in entries.iter().enumerate() {
        write_entry(alloc, text, ring, label, number, index + 1, f)?;
    }
    Ok(())
}

// Appends the line of an entry of a matrix.
fn write_entry(
    alloc: Global,
    text: &mut Vec<u8>,
    ring: &Ring,
    label: &[u8],
    row: usize,
    column: usize,
    f: &GPoly,
) -> Result<(), AllocError>
    requires { IsPolynomial ring.now.algebra.p ring.now.algebra.order f.now }
    ensures { OnOk result (text.new.items ≡ text.old.items ++ spec.matrix_line ring.now label.now row column f.now) }
{
    write_left_side(text, label, row, column)?;
    text.extend_from_slice(&poly_line(alloc, ring, f)?)
}

// Appends the left side of the line of an entry.
fn write_left_side(
    text: &mut Vec<u8>,
    label: &[u8],
    row: usize,
    column: usize,
) -> Result<(), AllocError>
    ensures { OnOk result (text.new.items ≡ text.old.items
        ++ (label.now ++ (codes "[" ++ (decimal row ++ (codes "," ++ (decimal column ++ codes "]=")))))) }
{
    text.extend_from_slice(label)?;
    text.push(b'[')?;
    write_number(text, row)?;
    text.push(b',')?;
    write_number(text, column)?;
    text.extend_from_slice(b"]=")
}

// The line of a polynomial.
fn poly_line(alloc: Global, ring: &Ring, f: &GPoly) -> Result<Vec<u8>, AllocError>
    requires { IsPolynomial ring.now.algebra.p ring.now.algebra.order f.now }
    ensures { IfOk result (λ line. line.items ≡ polynomial_text ring.now.algebra.p ring.now.names f.now ++ codes "\n") }
{
    let mut text = poly_text(alloc, ring.algebra(), ring.names(), f)?;
    text.push(b'\n')?;
    Ok(text)
}

/// The label of a printed expression: the name that it is, and else `_`.
pub fn label_of<'b>(bytes: &'b [u8], expr: &Expr) -> &'b [u8]
    ensures { result.now ≡ spec.label_of bytes.now expr.now }
{
    let term = &expr.first;
    let factor = &term.first;
    if expr.sign.is_none()
        && expr.more.is_empty()
        && term.more.is_empty()
        && factor.power.is_none()
        && let Base::Name { name, index: None } = &factor.base
    {
        text(bytes, name)
    } else {
        b"_"
    }
}
