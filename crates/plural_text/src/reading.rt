//! Polynomials read back from their texts.

ghost use Rattle.std.specs.Prelude.{◌≡◌, ◌≢◌, ◌<◌, ◌≤◌, ◌^◌, [], ◌∷◌, ◌++◌, length, map, string_bytes, IfOk, OnOk, IfSome, Err};
ghost use Rattle.std.specs.List.{position_or_len};
ghost use Rattle.std.specs.Option.{option_map};
ghost use Rattle.monomials.specs.Monomials.{degree};
ghost use Rattle.monomials.specs.Polynomials.{Polynomial, Each, HasNumbers, HasVars};
ghost use Rattle.gpoly.specs.Terms.{pair_of, pairs_of};
ghost use Rattle.plural_text.specs.Names.{AreNames};
ghost use Rattle.plural_text.specs.Readings.{is_sign, is_number, first_len, is_caret, read_number, read_exponent, read_name, read_power, times_power, times_factor, read_product, read_term};
ghost use Rattle.plural_text.specs.Spelling.{Spells};

use crate::printing::poly_text;
use algebra::{Algebra, DEGREE_LIMIT};
use gpoly::{GPoly, Term};
use monomials::Expo;
use prime_field::Field;
use std::alloc::{AllocError, Global};

/// Why bytes were not read as a polynomial.
#[derive(Clone, Copy, Debug, PartialEq, Eq)]
pub enum ReadFault {
    /// They are the text of no polynomial of degree at most 4095.
    NotPoly,
    /// Out of memory.
    Memory,
}

impl From<AllocError> for ReadFault {
    ghost use Rattle.std.specs.Prelude.{◌≡◌};
    ghost use Rattle.plural_text.specs.declared.reading.ReadFault.TheVariants.{Memory};

    ghost from_gives = { λ _ fault. fault ≡ Memory };

    fn from(_error: AllocError) -> ReadFault {
        ReadFault::Memory
    }
}

/// The polynomial whose printed text these bytes are. No second spelling is read: `NotPoly` comes
/// exactly where the bytes are the text of no polynomial of degree at most 4095.
pub fn read_poly(
    alloc: Global,
    alg: &Algebra,
    names: &[String],
    bytes: &[u8],
) -> Result<GPoly, ReadFault>
    requires names { AreNames alg.now.order.vars (map string_bytes names.now) }
    ensures read { IfOk result (Spells alg.now.p alg.now.order (map string_bytes names.now) bytes.now) }
    ensures not_poly { result ≡ Err ReadFault.NotPoly →
        (f : Polynomial) → ¬ (Spells alg.now.p alg.now.order (map string_bytes names.now) bytes.now f) }
{
    if bytes == b"0".as_slice() {
        return Ok(GPoly::zero(alloc));
    }
    let terms = read_terms(alloc, alg, names, bytes)?;
    let f = GPoly::from_terms(alloc, alg.field(), alg.order(), &terms)?;
    // What is read may have been spelled otherwise, so it is printed.
    let text = poly_text(alloc, alg, names, &f)?;
    if text.as_slice() == bytes {
        Ok(f)
    } else {
        Err(ReadFault::NotPoly)
    }
}

// The power of the variable at this place among the names.
#[derive(Clone, Copy)]
struct Power {
    place: usize,
    exponent: u32,
}

// The terms of a text, as they stand. In the text of a polynomial other than 0 they are its terms.
fn read_terms(
    alloc: Global,
    alg: &Algebra,
    names: &[String],
    bytes: &[u8],
) -> Result<Vec<Term>, ReadFault>
    requires names { AreNames alg.now.order.vars (map string_bytes names.now) }
    ensures numbers { IfOk result (λ terms. HasNumbers alg.now.p (pairs_of terms.items)) }
    ensures vars { IfOk result (λ terms. HasVars alg.now.order.vars (pairs_of terms.items)) }
    ensures small { IfOk result (λ terms. Each (λ t. degree t.1 ≤ 4095) (pairs_of terms.items)) }
    ensures read { IfOk result (λ terms. (f : Polynomial) →
        Spells alg.now.p alg.now.order (map string_bytes names.now) bytes.now f →
        f ≢ [] → pairs_of terms.items ≡ f) }
    ensures refused { result ≡ Err ReadFault.NotPoly → (f : Polynomial) →
        Spells alg.now.p alg.now.order (map string_bytes names.now) bytes.now f → f ≡ [] }
{
    let field = alg.field();
    let _n = alg.n();
    let mut terms = Vec::new(alloc);
    let mut rest = bytes;
    while !rest.is_empty() {
        let (first, behind) = rest.split_at(first_len(rest));
        let Some(term) = read_term(field, names, first) else {
            return Err(ReadFault::NotPoly);
        };
        push_term(&mut terms, term)?;
        rest = behind;
    }
    Ok(terms)
}

// Adds a term at the end.
fn push_term(terms: &mut Vec<Term>, term: Term) -> Result<(), AllocError>
    ensures { OnOk result (terms.new.items ≡ terms.old.items ++ term ∷ []) }
{
    terms.push(term)?;
    Ok(())
}

// How many bytes the first term of a text has.
fn first_len(text: &[u8]) -> usize
    requires { 1 ≤ length text.now }
    ensures value { result ≡ first_len text.now }
    ensures within { result ≤ length text.now }
    ensures some { 1 ≤ result }
{
    1 + unsigned_len(&text[1..])
}

// How many bytes stand before the first sign.
fn unsigned_len(text: &[u8]) -> usize
    ensures value { result ≡ position_or_len is_sign text.now }
    ensures within { result ≤ length text.now }
{
    text.iter().take_while(|b| !is_sign(**b)).count()
}

// Whether a byte is `+` or `-`.
fn is_sign(byte: u8) -> bool
    ensures { result ≡ is_sign byte }
{
    byte == b'+' || byte == b'-'
}

// The term of this text, as it stands.
fn read_term(field: Field, names: &[String], text: &[u8]) -> Option<Term>
    requires some { 1 ≤ length names.now }
    requires few { length names.now ≤ 16 }
    ensures value { option_map pair_of result ≡ read_term field (map string_bytes names.now) text.now }
    ensures number { IfSome result (λ t. t.coef < field) }
    ensures vars { IfSome result (λ t. length t.mono ≡ length names.now) }
    ensures small { IfSome result (λ t. degree t.mono ≤ 4095) }
{
    let (sign, unsigned) = text.split_first()?;
    match *sign {
        b'-' => {
            let Term { coef, mono } = read_product(field, names, unsigned)?;
            let coef = field.neg(coef);
            Some(Term { coef, mono })
        }
        b'+' => read_product(field, names, unsigned),
        _ => read_product(field, names, text),
    }
}

// The product of the factors in a text.
fn read_product(field: Field, names: &[String], text: &[u8]) -> Option<Term>
    requires some { 1 ≤ length names.now }
    requires few { length names.now ≤ 16 }
    ensures value { option_map pair_of result ≡ read_product field (map string_bytes names.now) text.now }
    ensures number { IfSome result (λ t. t.coef < field) }
    ensures vars { IfSome result (λ t. length t.mono ≡ length names.now) }
    ensures small { IfSome result (λ t. degree t.mono ≤ 4095) }
{
    let _p = field.p();
    let mut term = Term {
        coef: 1,
        mono: Expo::one(names.len()),
    };
    for factor in text.split(|b| *b == b'*') {
        term = times_factor(field, names, &term, factor)?;
    }
    Some(term)
}

// A term times the number or the power of a variable that a factor is.
fn times_factor(field: Field, names: &[String], term: &Term, factor: &[u8]) -> Option<Term>
    requires few { length names.now ≤ 16 }
    requires number { term.now.coef < field }
    requires vars { length term.now.mono ≡ length names.now }
    requires small { degree term.now.mono ≤ 4095 }
    ensures value { option_map pair_of result
        ≡ times_factor field (map string_bytes names.now) (pair_of term.now) factor.now }
    ensures number { IfSome result (λ t. t.coef < field) }
    ensures vars { IfSome result (λ t. length t.mono ≡ length names.now) }
    ensures small { IfSome result (λ t. degree t.mono ≤ 4095) }
{
    if is_number(factor) {
        let number = read_number(factor, field.p() - 1)?;
        return Some(Term {
            coef: field.mul(term.coef, number),
            mono: term.mono,
        });
    }
    let power = read_power(names, factor)?;
    let mono = times_power(&term.mono, power)?;
    Some(Term {
        coef: term.coef,
        mono,
    })
}

// A monomial times the power of a variable, where the degree is at most 4095.
fn times_power(mono: &Expo, power: Power) -> Option<Expo>
    requires place { power.place < length mono.now }
    requires few { length mono.now ≤ 16 }
    requires exponent { power.exponent ≤ 4095 }
    requires small { degree mono.now ≤ 4095 }
    ensures value { result ≡ times_power mono.now (power.place, power.exponent) }
    ensures vars { IfSome result (λ m. length m ≡ length mono.now) }
    ensures small { IfSome result (λ m. degree m ≤ 4095) }
{
    if mono.degree() + power.exponent > DEGREE_LIMIT {
        return None;
    }
    let number = power.place as u8 + 1;
    let power = Expo::power(mono.len(), number, power.exponent as u16);
    Some(mono.plus(&power))
}

// Whether a factor is a number.
fn is_number(factor: &[u8]) -> bool
    ensures { result ≡ is_number factor.now }
{
    factor.first().is_some_and(|b| b.is_ascii_digit())
}

// The power of a variable, with `^` between its name and its exponent.
fn read_power(names: &[String], text: &[u8]) -> Option<Power>
    ensures value { option_map (λ w. (w.place, w.exponent)) result
        ≡ read_power (map string_bytes names.now) text.now }
    ensures place { IfSome result (λ w. w.place < length names.now) }
    ensures exponent { IfSome result (λ w. w.exponent ≤ 4095) }
{
    let (name, behind) = text.split_at(name_len(text));
    let exponent = read_exponent(behind)?;
    let place = read_name(names, name)?;
    Some(Power { place, exponent })
}

// How many bytes stand before the first `^`.
fn name_len(text: &[u8]) -> usize
    ensures value { result ≡ position_or_len is_caret text.now }
    ensures within { result ≤ length text.now }
{
    text.iter().take_while(|b| **b != b'^').count()
}

// The exponent that stands behind a name.
fn read_exponent(text: &[u8]) -> Option<u32>
    ensures value { result ≡ read_exponent text.now }
    ensures within { IfSome result (λ e. e ≤ 4095) }
{
    match text.split_first() {
        None => Some(1),
        Some((_caret, digits)) => read_number(digits, DEGREE_LIMIT),
    }
}

// The place of a name among the names.
fn read_name(names: &[String], text: &[u8]) -> Option<usize>
    ensures value { result ≡ read_name (map string_bytes names.now) text.now }
    ensures within { IfSome result (λ place. place < length names.now) }
{
    names.iter().position(|name| name.as_bytes() == text)
}

// A number up to `most`, in decimal.
fn read_number(text: &[u8], most: u32) -> Option<u32>
    requires { most < 2 ^ 28 }
    ensures value { result ≡ read_number most text.now }
    ensures within { IfSome result (λ n. n ≤ most) }
{
    if text.is_empty() {
        return None;
    }
    let mut number = 0;
    for byte in text {
        if !byte.is_ascii_digit() {
            return None;
        }
        number = 10 * number + u32::from(*byte - b'0');
        if number > most {
            return None;
        }
    }
    Some(number)
}

#[cfg(test)]
mod tests;
