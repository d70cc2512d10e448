//! Gaussian binomials modulo p. No number is divided by what is zero modulo p: the binomials of n
//! are products of those of its digits (after Lucas 1878), in which no such divisor stands.

ghost use Rattle.std.specs.Prelude.{◌≡◌, ◌≢◌, ℕ, suc, ◌+◌, ◌*◌, ◌/◌, ◌%◌, ◌^◌, ◌<◌, ◌≤◌, IfOk, length, min, slice_index};
ghost use Rattle.closed_forms.specs.Binomials.{q_number, gaussian};
ghost use Rattle.closed_forms.specs.Inside.Tables.{table, IsFree, IsBase};

use prime_field::Field;
use std::alloc::{AllocError, Global};

/// The numbers [0]_q, .., [n]_q.
pub fn q_numbers(alloc: Global, field: Field, q: u32, n: usize) -> Result<Vec<u32>, AllocError>
    requires q_in_range { q < field }
    requires reach { n ≤ 4095 }
    ensures { IfOk result (λ r. r.items ≡ table field (q_number q) (suc n)) }
{
    let _p = field.p();
    let mut numbers = Vec::with_capacity(alloc, n + 1)?;
    let mut number = 0;
    for _ in 0..n + 1 {
        numbers.push(number)?;
        number = field.add(1, field.mul(q, number));
    }
    Ok(numbers)
}

/// The Gaussian binomials [n,k]_q, for k from 0 to `top`.
pub fn gaussian_row(
    alloc: Global,
    field: Field,
    q: u32,
    n: usize,
    top: usize,
) -> Result<Vec<u32>, AllocError>
    requires q_in_range { q < field }
    requires reach { n ≤ 4095 }
    requires within { top ≤ n }
    ensures { IfOk result (λ r. r.items ≡ table field (gaussian q n) (suc top)) }
{
    let base = base_of(&q_numbers(alloc, field, q, n)?);
    let high = binomial_row(alloc, field, n / base, top / base)?;
    next_row(alloc, field, q, &high, base, n, top)
}

// The least number from 1 on whose q-number is zero, or how many q-numbers there are.
fn base_of(q_numbers: &[u32]) -> usize
    requires { 1 ≤ length q_numbers.now }
    ensures positive { 1 ≤ result }
    ensures within { result ≤ length q_numbers.now }
    ensures least { (t : ℕ) → 1 ≤ t → t < result → slice_index q_numbers.now t ≢ 0 }
    ensures zero_there { result < length q_numbers.now → slice_index q_numbers.now result ≡ 0 }
{
    for t in 1..q_numbers.len() {
        if q_numbers[t] == 0 {
            return t;
        }
    }
    q_numbers.len()
}

// The binomials C(n,k), for k from 0 to `top`, one digit of n to the base p after another.
fn binomial_row(alloc: Global, field: Field, n: usize, top: usize) -> Result<Vec<u32>, AllocError>
    requires reach { n ≤ 4095 }
    requires within { top ≤ n }
    ensures { IfOk result (λ r. r.items ≡ table field (gaussian 1 n) (suc top)) }
{
    let p = field.p() as usize;
    let mut scale = 1;
    while scale <= n {
        scale *= p;
    }
    let mut row = vec![in alloc; 1]?;
    while scale > 1 {
        scale /= p;
        row = next_row(alloc, field, 1, &row, p, n / scale, top / scale)?;
    }
    Ok(row)
}

// The row of n, from the row of n / base.
fn next_row(
    alloc: Global,
    field: Field,
    q: u32,
    high: &[u32],
    base: usize,
    n: usize,
    top: usize,
) -> Result<Vec<u32>, AllocError>
    requires q_in_range { q < field }
    requires reach { n ≤ 4095 }
    requires within { top ≤ n }
    requires base { IsBase field q base n }
    requires high { high.now ≡ table field (gaussian 1 (n / base)) (suc (top / base)) }
    ensures { IfOk result (λ r. r.items ≡ table field (gaussian q n) (suc top)) }
{
    let _p = field.p();
    let low = digit_row(alloc, field, q, n % base, top)?;
    let mut row = Vec::with_capacity(alloc, top + 1)?;
    for k in 0..top + 1 {
        let digit = number_at(&low, k % base);
        row.push(field.mul(high[k / base], digit))?;
    }
    Ok(row)
}

// The number at k, and 0 past the end.
fn number_at(numbers: &[u32], k: usize) -> u32
    ensures { result ≡ slice_index numbers.now k }
{
    match numbers.get(k) {
        Some(number) => *number,
        None => 0,
    }
}

// The Gaussian binomials [n,k]_q, for k from 0 to the lesser of n and `top`, where none of
// [1]_q, .., [n]_q is zero.
fn digit_row(
    alloc: Global,
    field: Field,
    q: u32,
    n: usize,
    top: usize,
) -> Result<Vec<u32>, AllocError>
    requires q_in_range { q < field }
    requires reach { n ≤ 4095 }
    requires free { IsFree field q (suc n) }
    ensures { IfOk result (λ r. r.items ≡ table field (gaussian q n) (suc (min n top))) }
{
    let numbers = q_numbers(alloc, field, q, n)?;
    let _p = field.p();
    let top = n.min(top);
    let mut row = Vec::with_capacity(alloc, top + 1)?;
    let mut entry = 1;
    row.push(entry)?;
    for k in 0..top {
        let quotient = field.mul(numbers[n - k], field.inv(numbers[k + 1]));
        entry = field.mul(entry, quotient);
        row.push(entry)?;
    }
    Ok(row)
}
