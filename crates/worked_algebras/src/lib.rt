//! Polynomials and algebras from short texts, and jobs, traces and entries as such: what tests are worked in.
#![tactic(auto)]

ghost use Rattle.std.specs.Prelude.{◌≡◌, ◌≤◌, ◌++◌, ◌∷◌, [], length, IfOk, OnOk};
ghost use Rattle.monomials.specs.Monomials.{degree};
ghost use Rattle.monomials.specs.Polynomials.{Each, IsPolynomial};

use algebra::{Algebra, Relations};
use gpoly::{GPoly, Term};
use monomials::{Block, Expo, Order};
use prime_field::Field;
use std::alloc::{AllocError, Global};
use std::test::Fail;
pub use written::{push_entries, push_job, push_term, push_trace};

mod written;

// The monomial with one exponent more, that of the variable `v`.
fn with_exponent(mono: &Expo, v: usize, exponent: u16) -> Result<Expo, Fail>
    requires { 1 ≤ v }
    ensures vars { IfOk result (λ m. length m ≡ length mono.now) }
    ensures small { IfOk result (λ m. degree m ≤ 4095) }
{
    if v > mono.len() || exponent > 4095 {
        return Err("a monomial has an exponent for each variable".into());
    }
    let power = Expo::power(mono.len(), v as u8, exponent);
    if mono.degree() + power.degree() > 4095 {
        return Err("a monomial has degree 4095 at most".into());
    }
    Ok(mono.plus(&power))
}

// The monomial with these digits as exponents.
fn of_digits(n: usize, digits: &str) -> Result<Expo, Fail>
    requires some { 1 ≤ n }
    requires few { n ≤ 16 }
    ensures vars { IfOk result (λ m. length m ≡ n) }
    ensures small { IfOk result (λ m. degree m ≤ 4095) }
{
    if digits.len() != n {
        return Err("a monomial has a digit for each variable".into());
    }
    let mut mono = Expo::one(n);
    for (place, digit) in digits.as_bytes().iter().enumerate() {
        let exponent = u16::from(digit.saturating_sub(b'0'));
        mono = with_exponent(&mono, place + 1, exponent)?;
    }
    Ok(mono)
}

// The monomial with these exponents, which have dots between them.
fn of_numbers(n: usize, numbers: &str) -> Result<Expo, Fail>
    requires some { 1 ≤ n }
    requires few { n ≤ 16 }
    ensures vars { IfOk result (λ m. length m ≡ n) }
    ensures small { IfOk result (λ m. degree m ≤ 4095) }
{
    if numbers.split('.').count() != n {
        return Err("a monomial has a number for each variable".into());
    }
    let mut mono = Expo::one(n);
    for (place, number) in numbers.split('.').enumerate() {
        mono = with_exponent(&mono, place + 1, number.parse::<u16>()?)?;
    }
    Ok(mono)
}

/// The monomial of a text in `n` variables: its exponents with dots between them, as `2.1`, or each as a digit, as `21`.
/// It refuses another number of them, and degrees above 4095.
pub fn monomial(n: usize, text: &str) -> Result<Expo, Fail>
    requires some { 1 ≤ n }
    requires few { n ≤ 16 }
    ensures vars { IfOk result (λ m. length m ≡ n) }
    ensures small { IfOk result (λ m. degree m ≤ 4095) }
{
    if text.contains('.') {
        of_numbers(n, text)
    } else {
        of_digits(n, text)
    }
}

// The polynomial with one term.
fn term(alloc: Global, field: Field, order: &Order, text: &str) -> Result<GPoly, Fail>
    ensures { IfOk result (λ f. IsPolynomial field order.now f) }
{
    let (number, exponents) = match text.split_once(':') {
        Some(parts) => parts,
        None => text.split_once('.').ok_or("a term has exponents")?,
    };
    let coef = field.from_int(number.parse::<u64>()?);
    let mono = monomial(order.vars(), exponents)?;
    let term = GPoly::from_terms(alloc, field, order, &[Term { coef, mono }])?;
    Ok(term)
}

/// The sum of the terms of a text, which have spaces between them. A term is its number and its monomial: 2 x + 1 in x
/// and y is `2:10 1:00`, or `2.1.0 1.0.0` where exponents are too high for digits.
pub fn poly(alloc: Global, field: Field, order: &Order, text: &str) -> Result<GPoly, Fail>
    ensures { IfOk result (λ f. IsPolynomial field order.now f) }
{
    let mut sum = GPoly::zero(alloc);
    for piece in text.split(' ') {
        let part = term(alloc, field, order, piece)?;
        sum = sum.add(alloc, field, order, &part)?;
    }
    Ok(sum)
}

// One polynomial more.
fn push(polys: &mut Vec<GPoly>, poly: GPoly) -> Result<(), AllocError>
    ensures { OnOk result (polys.new.items ≡ polys.old.items ++ poly ∷ []) }
{
    polys.push(poly)?;
    Ok(())
}

/// The polynomials of a text, which have commas between them. An empty text has none.
pub fn polys(alloc: Global, alg: &Algebra, text: &str) -> Result<Vec<GPoly>, Fail>
    ensures { IfOk result (λ fs. Each (IsPolynomial alg.now.p alg.now.order) fs.items) }
{
    let mut polys = Vec::new(alloc);
    if text.is_empty() {
        return Ok(polys);
    }
    for piece in text.split(',') {
        let part = poly(alloc, alg.field(), alg.order(), piece.trim())?;
        push(&mut polys, part)?;
    }
    Ok(polys)
}

/// The Weyl algebra in x and d with d x = x d + 1, over the field with 7 elements and ordered by dp.
pub fn weyl(alloc: Global) -> Result<Algebra, Fail>
    ensures { IfOk result (λ a. a.order.vars ≡ 2) }
{
    let field = Field::of(7)?;
    let order = Order::new(alloc, &[Block::DegRev { len: 2 }], 2)?;
    let one = poly(alloc, field, &order, "1:00")?;
    let c = Vec::from_array(alloc, [1])?;
    let d = Vec::from_array(alloc, [one]).map_err(AllocError::from)?;
    Ok(Algebra::new(alloc, field, order, 2, Relations { c, d })?)
}

/// The algebra in x, y and z in which y x = x y + `d` and z commutes, over the field with 7 elements and ordered by dp.
pub fn with_central_z(alloc: Global, d: &str) -> Result<Algebra, Fail>
    ensures { IfOk result (λ a. a.order.vars ≡ 3) }
{
    let field = Field::of(7)?;
    let order = Order::new(alloc, &[Block::DegRev { len: 3 }], 3)?;
    let d_xy = poly(alloc, field, &order, d)?;
    let (d_xz, d_yz) = (GPoly::zero(alloc), GPoly::zero(alloc));
    let c = Vec::from_array(alloc, [1, 1, 1])?;
    let d = Vec::from_array(alloc, [d_xy, d_xz, d_yz]).map_err(AllocError::from)?;
    Ok(Algebra::new(alloc, field, order, 3, Relations { c, d })?)
}
