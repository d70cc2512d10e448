//! The texts of polynomials, ideals and rows.

ghost use Rattle.std.specs.Prelude.{◌≡◌, ◌++◌, map, string_bytes, codes, IfOk, OnOk};
ghost use Rattle.std.specs.Fmt.{decimal};
ghost use Rattle.monomials.specs.Polynomials.{Each, IsPolynomial};
ghost use Rattle.word_model.specs.Texts.{polynomial_text, generator_line, ideal_text, row_line, rows_text};
ghost use Rattle.plural_text.specs.Names.{AreNames};

use crate::appending::write_number;
use crate::polynomials::{write_polynomial, write_row};
use algebra::Algebra;
use gpoly::GPoly;
use run_records::Row;
use std::alloc::{AllocError, Global};

#[cfg(test)]
mod tests;

/// The text of a polynomial in variables of these names: its terms in descending order, with numbers
/// from the symmetric range.
pub fn poly_text(
    alloc: Global,
    alg: &Algebra,
    names: &[String],
    f: &GPoly,
) -> Result<Vec<u8>, AllocError>
    requires names { AreNames alg.now.order.vars (map string_bytes names.now) }
    requires sorted { IsPolynomial alg.now.p alg.now.order f.now }
    ensures { IfOk result (λ text. text.items ≡ polynomial_text alg.now.p (map string_bytes names.now) f.now) }
{
    let mut text = Vec::new(alloc);
    write_polynomial(&mut text, alg, names, f)?;
    Ok(text)
}

/// The text of an ideal: a line `L[k]=..` for each generator, where L is the label and k counts from
/// 1, and `L[1]=0` where there is none.
pub fn ideal_text(
    alloc: Global,
    alg: &Algebra,
    names: &[String],
    label: &[u8],
    list: &[GPoly],
) -> Result<Vec<u8>, AllocError>
    requires names { AreNames alg.now.order.vars (map string_bytes names.now) }
    requires sorted { Each (IsPolynomial alg.now.p alg.now.order) list.now }
    ensures { IfOk result (λ text. text.items ≡ ideal_text alg.now.p (map string_bytes names.now) label.now list.now) }
{
    let mut text = Vec::new(alloc);
    if list.is_empty() {
        write_generator(&mut text, alg, names, label, 1, &GPoly::zero(alloc))?;
    }
    for (index, f) in list.iter().enumerate() {
        write_generator(&mut text, alg, names, label, index + 1, f)?;
    }
    Ok(text)
}

/// The text of rows: a line `L[k]=[..]` for each, where L is the label and k counts from 1, and
/// `L[1]=0` where there is none.
pub fn rows_text(
    alloc: Global,
    alg: &Algebra,
    names: &[String],
    label: &[u8],
    rows: &[Row],
) -> Result<Vec<u8>, AllocError>
    requires names { AreNames alg.now.order.vars (map string_bytes names.now) }
    requires sorted { Each (Each (IsPolynomial alg.now.p alg.now.order)) rows.now }
    ensures { IfOk result (λ text. text.items ≡ rows_text alg.now.p (map string_bytes names.now) label.now rows.now) }
{
    let mut text = Vec::new(alloc);
    if rows.is_empty() {
        write_generator(&mut text, alg, names, label, 1, &GPoly::zero(alloc))?;
    }
    for (index, row) in rows.iter().enumerate() {
        write_row_line(&mut text, alg, names, label, index + 1, row)?;
    }
    Ok(text)
}

// Appends a generator's line.
fn write_generator(
    text: &mut Vec<u8>,
    alg: &Algebra,
    names: &[String],
    label: &[u8],
    number: usize,
    f: &GPoly,
) -> Result<(), AllocError>
    requires names { AreNames alg.now.order.vars (map string_bytes names.now) }
    requires sorted { IsPolynomial alg.now.p alg.now.order f.now }
    ensures { OnOk result (text.new.items ≡ text.old.items
        ++ generator_line alg.now.p (map string_bytes names.now) label.now number f.now) }
{
    write_left_side(text, label, number)?;
    write_polynomial(text, alg, names, f)?;
    text.push(b'\n')?;
    Ok(())
}

// Appends a row's line.
fn write_row_line(
    text: &mut Vec<u8>,
    alg: &Algebra,
    names: &[String],
    label: &[u8],
    number: usize,
    row: &Row,
) -> Result<(), AllocError>
    requires names { AreNames alg.now.order.vars (map string_bytes names.now) }
    requires sorted { Each (IsPolynomial alg.now.p alg.now.order) row.now }
    ensures { OnOk result (text.new.items ≡ text.old.items
        ++ row_line alg.now.p (map string_bytes names.now) label.now number row.now) }
{
    write_left_side(text, label, number)?;
    text.push(b'[')?;
    write_row(text, alg, names, &row.entries)?;
    text.extend_from_slice(b"]\n")
}

// Appends the left side of the line of this number.
fn write_left_side(text: &mut Vec<u8>, label: &[u8], number: usize) -> Result<(), AllocError>
    ensures { OnOk result (text.new.items ≡ text.old.items
        ++ (label.now ++ (codes "[" ++ (decimal number ++ codes "]=")))) }
{
    text.extend_from_slice(label)?;
    text.push(b'[')?;
    write_number(text, number)?;
    text.extend_from_slice(b"]=")
}
