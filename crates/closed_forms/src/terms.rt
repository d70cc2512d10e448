//! The terms of the formulas.

ghost use Rattle.std.specs.Prelude.{◌≡◌, ℕ, suc, ◌+◌, ◌*◌, ◌<◌, ◌≤◌, ◌++◌, [], IfOk, OnOk, length, min};
ghost use Rattle.monomials.specs.Polynomials.{cons_nonzero};
ghost use Rattle.closed_forms.specs.Inside.Tables.{table};
ghost use Rattle.closed_forms.specs.Forms.{pairs_of, sum_of_terms, weyl_number, weyl_form, binomial_number, closed_form};
ghost use Rattle.closed_forms.specs.Kinds.{IsProper};
ghost use Rattle.closed_forms.specs.Inside.Paths.{place, last_place};
ghost use Rattle.closed_forms.specs.declared.terms.Path.TheVariants.{X, Y};

use crate::{PairKind, Term2, binomials};
use prime_field::Field;
use std::alloc::{AllocError, Global};

// Which exponents fall from term to term.
#[derive(Clone, Copy)]
pub enum Path {
    X,
    Y,
    Both,
}

/// The product `y^a x^b`, by the formula of the kind.
pub fn closed_form(
    alloc: Global,
    field: Field,
    kind: &PairKind,
    a: u16,
    b: u16,
) -> Result<Vec<Term2>, AllocError>
    requires proper { IsProper field kind.now }
    requires reach { a + b ≤ 4095 }
    ensures { IfOk result (λ r. pairs_of r.items ≡ closed_form field kind.now a b) }
{
    match *kind {
        PairKind::Commuting => single(alloc, 1, b, a),
        PairKind::Quasi { q } => {
            let coef = field.pow(q, u32::from(a) * u32::from(b));
            single(alloc, coef, b, a)
        }
        PairKind::Weyl { delta } => weyl(alloc, field, 1, delta, a, b),
        PairKind::QWeyl { q, delta } => weyl(alloc, field, q, delta, a, b),
        PairKind::LeftLinear { alpha } => left_linear(alloc, field, alpha, a, b),
        PairKind::RightLinear { beta } => right_linear(alloc, field, beta, a, b),
    }
}

// The term with this number, unless it is zero.
fn single(alloc: Global, coef: u32, x: u16, y: u16) -> Result<Vec<Term2>, AllocError>
    ensures { IfOk result (λ r. pairs_of r.items ≡ cons_nonzero coef (x, y) []) }
{
    let mut terms = Vec::new(alloc);
    push_nonzero(&mut terms, coef, x, y)?;
    Ok(terms)
}

// The product `y^a x^b` where `y x = q x y + delta`.
fn weyl(
    alloc: Global,
    field: Field,
    q: u32,
    delta: u32,
    a: u16,
    b: u16,
) -> Result<Vec<Term2>, AllocError>
    requires q_in_range { q < field }
    requires delta_in_range { delta < field }
    requires reach { a + b ≤ 4095 }
    ensures { IfOk result (λ r. pairs_of r.items ≡ weyl_form field q delta a b) }
{
    let numbers = weyl_numbers(alloc, field, q, delta, a, b)?;
    along(alloc, &numbers, Path::Both, b, a)
}

// The product `y^a x^b`, which is `x^b (y + b alpha)^a`, where `y x = x y + alpha x`.
fn left_linear(
    alloc: Global,
    field: Field,
    alpha: u32,
    a: u16,
    b: u16,
) -> Result<Vec<Term2>, AllocError>
    requires alpha_in_range { alpha < field }
    requires reach { a + b ≤ 4095 }
    ensures { IfOk result (λ r. pairs_of r.items
        ≡ sum_of_terms field (binomial_number (b * alpha) a) (place Y b a) (suc a)) }
{
    let shift = field.mul(field.from_int(u64::from(b)), alpha);
    let numbers = binomial_numbers(alloc, field, shift, a)?;
    along(alloc, &numbers, Path::Y, b, a)
}

// The product `y^a x^b`, which is `(x + a beta)^b y^a`, where `y x = x y + beta y`.
fn right_linear(
    alloc: Global,
    field: Field,
    beta: u32,
    a: u16,
    b: u16,
) -> Result<Vec<Term2>, AllocError>
    requires beta_in_range { beta < field }
    requires reach { a + b ≤ 4095 }
    ensures { IfOk result (λ r. pairs_of r.items
        ≡ sum_of_terms field (binomial_number (a * beta) b) (place X b a) (suc b)) }
{
    let shift = field.mul(field.from_int(u64::from(a)), beta);
    let numbers = binomial_numbers(alloc, field, shift, b)?;
    along(alloc, &numbers, Path::X, b, a)
}

// The numbers at x^(b-k) y^(a-k), for k from 0 on.
fn weyl_numbers(
    alloc: Global,
    field: Field,
    q: u32,
    delta: u32,
    a: u16,
    b: u16,
) -> Result<Vec<u32>, AllocError>
    requires q_in_range { q < field }
    requires delta_in_range { delta < field }
    requires reach { a + b ≤ 4095 }
    ensures { IfOk result (λ r. r.items ≡ table field (weyl_number q delta a b) (suc (min a b))) }
{
    let _p = field.p();
    let top = a.min(b);
    let row = binomials::gaussian_row(alloc, field, q, usize::from(b), usize::from(top))?;
    let q_numbers = binomials::q_numbers(alloc, field, q, usize::from(a))?;
    let mut numbers = Vec::with_capacity(alloc, row.len())?;
    // delta^k [a]_q .. [a-k+1]_q
    let mut factor = 1;
    for k in 0..top + 1 {
        let power = field.pow(q, u32::from(a - k) * u32::from(b - k));
        let number = field.mul(factor, field.mul(power, row[usize::from(k)]));
        numbers.push(number)?;
        factor = field.mul(factor, field.mul(delta, q_numbers[usize::from(a - k)]));
    }
    Ok(numbers)
}

// The numbers at z^(n-k) of (z + shift)^n, for k from 0 on.
fn binomial_numbers(alloc: Global, field: Field, shift: u32, n: u16) -> Result<Vec<u32>, AllocError>
    requires shift_in_range { shift < field }
    requires reach { n ≤ 4095 }
    ensures { IfOk result (λ r. r.items ≡ table field (binomial_number shift n) (suc n)) }
{
    let _p = field.p();
    let top = usize::from(n);
    let row = binomials::gaussian_row(alloc, field, 1, top, top)?;
    let mut numbers = Vec::with_capacity(alloc, row.len())?;
    let mut power = 1;
    for binomial in &row {
        numbers.push(field.mul(*binomial, power))?;
        power = field.mul(power, shift);
    }
    Ok(numbers)
}

// The terms with these numbers, without those that are zero, from x^x y^y on.
fn along(
    alloc: Global,
    numbers: &[u32],
    path: Path,
    x: u16,
    y: u16,
) -> Result<Vec<Term2>, AllocError>
    requires short { length numbers.now ≤ 4096 }
    requires within { length numbers.now ≤ suc (last_place path x y) }
    ensures { IfOk result (λ r. (p : ℕ) (c : ℕ → ℕ) →
        numbers.now ≡ table p c (length numbers.now) →
        pairs_of r.items ≡ sum_of_terms p c (place path x y) (length numbers.now)) }
{
    let mut terms = Vec::with_capacity(alloc, numbers.len())?;
    for k in 0..numbers.len() as u16 {
        let coef = numbers[usize::from(k)];
        let (x, y) = place(path, x, y, k);
        push_nonzero(&mut terms, coef, x, y)?;
    }
    Ok(terms)
}

// The exponents of term k.
fn place(path: Path, x: u16, y: u16, k: u16) -> (u16, u16)
    requires { k ≤ last_place path x y }
    ensures { result ≡ place path x y k }
{
    match path {
        Path::X => (x - k, y),
        Path::Y => (x, y - k),
        Path::Both => (x - k, y - k),
    }
}

// Adds a term at the end, unless its number is zero.
fn push_nonzero(terms: &mut Vec<Term2>, coef: u32, x: u16, y: u16) -> Result<(), AllocError>
    ensures { OnOk result (pairs_of terms.new.items
        ≡ pairs_of terms.old.items ++ cons_nonzero coef (x, y) []) }
{
    if coef != 0 {
        terms.push(Term2 { coef, x, y })?;
    }
    Ok(())
}
