//! The texts of polynomials and rows, appended to a text.

ghost use Rattle.std.specs.Prelude.{◌≡◌, ◌<◌, ◌++◌, map, length, string_bytes, OnOk};
ghost use Rattle.monomials.specs.Polynomials.{Each, IsPolynomial};
ghost use Rattle.gpoly.specs.Terms.{pair_of};
ghost use Rattle.word_model.specs.Texts.{power_text, monomial_text, term_text, with_sign, polynomial_text, row_text};
ghost use Rattle.plural_text.specs.Names.{AreNames};
ghost use Rattle.plural_text.specs.Pieces.{factor_text};

use crate::appending::{write_comma, write_number};
use algebra::Algebra;
use gpoly::{GPoly, Term};
use monomials::Expo;
use prime_field::Field;
use std::alloc::AllocError;

/// Appends a row: its polynomials with commas between them.
pub fn write_row(
    text: &mut Vec<u8>,
    alg: &Algebra,
    names: &[String],
    row: &[GPoly],
) -> Result<(), AllocError>
    requires names { AreNames alg.now.order.vars (map string_bytes names.now) }
    requires sorted { Each (IsPolynomial alg.now.p alg.now.order) row.now }
    ensures { OnOk result (text.new.items
        ≡ text.old.items ++ row_text alg.now.p (map string_bytes names.now) row.now) }
{
    for (index, f) in row.iter().enumerate() {
        write_comma(text, index)?;
        write_polynomial(text, alg, names, f)?;
    }
    Ok(())
}

/// Appends a polynomial.
pub fn write_polynomial(
    text: &mut Vec<u8>,
    alg: &Algebra,
    names: &[String],
    f: &GPoly,
) -> Result<(), AllocError>
    requires names { AreNames alg.now.order.vars (map string_bytes names.now) }
    requires sorted { IsPolynomial alg.now.p alg.now.order f.now }
    ensures { OnOk result (text.new.items
        ≡ text.old.items ++ polynomial_text alg.now.p (map string_bytes names.now) f.now) }
{
    let field = alg.field();
    let Some((first, later)) = f.terms().split_first() else {
        text.push(b'0')?;
        return Ok(());
    };
    write_term(text, field, names, first)?;
    for term in later {
        write_later_term(text, field, names, term)?;
    }
    Ok(())
}

// Appends a later term, with its sign.
fn write_later_term(
    text: &mut Vec<u8>,
    field: Field,
    names: &[String],
    term: &Term,
) -> Result<(), AllocError>
    requires number { term.now.coef < field }
    requires names { AreNames (length term.now.mono) (map string_bytes names.now) }
    ensures { OnOk result (text.new.items ≡ text.old.items
        ++ with_sign (term_text field (map string_bytes names.now) (pair_of term.now))) }
{
    // Greater numbers are printed as negative ones.
    if term.coef <= field.p() / 2 {
        text.push(b'+')?;
    }
    write_term(text, field, names, term)
}

/// Appends a term.
pub fn write_term(
    text: &mut Vec<u8>,
    field: Field,
    names: &[String],
    term: &Term,
) -> Result<(), AllocError>
    requires number { term.now.coef < field }
    requires names { AreNames (length term.now.mono) (map string_bytes names.now) }
    ensures { OnOk result (text.new.items
        ≡ text.old.items ++ term_text field (map string_bytes names.now) (pair_of term.now)) }
{
    if term.mono.degree() == 0 {
        return write_number(text, field.symmetric(term.coef));
    }
    if term.coef != 1 {
        write_factor(text, field, term.coef)?;
    }
    write_monomial(text, names, &term.mono)
}

// Appends what stands for a number other than 1 in front of a monomial.
fn write_factor(text: &mut Vec<u8>, field: Field, coef: u32) -> Result<(), AllocError>
    requires { coef < field }
    ensures { OnOk result (text.new.items ≡ text.old.items ++ factor_text field coef) }
{
    if coef == field.p() - 1 {
        text.push(b'-')?;
        return Ok(());
    }
    write_number(text, field.symmetric(coef))?;
    text.push(b'*')?;
    Ok(())
}

// Appends a monomial other than 1.
fn write_monomial(text: &mut Vec<u8>, names: &[String], mono: &Expo) -> Result<(), AllocError>
    requires { AreNames (length mono.now) (map string_bytes names.now) }
    ensures { OnOk result (text.new.items
        ≡ text.old.items ++ monomial_text (map string_bytes names.now) mono.now) }
{
    let mut is_first = true;
    for variable in 0..mono.len() as u8 {
        let exponent = mono.get(variable + 1);
        if exponent > 0 {
            if !is_first {
                text.push(b'*')?;
            }
            write_power(text, &names[variable as usize], exponent)?;
            is_first = false;
        }
    }
    Ok(())
}

// Appends a variable with its exponent.
fn write_power(text: &mut Vec<u8>, name: &str, exponent: u16) -> Result<(), AllocError>
    ensures { OnOk result (text.new.items ≡ text.old.items ++ power_text name.now exponent) }
{
    text.extend_from_slice(name.as_bytes())?;
    if exponent > 1 {
        text.push(b'^')?;
        write_number(text, exponent)?;
    }
    Ok(())
}
