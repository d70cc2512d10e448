//! Sums of many polynomials.

ghost use Rattle.std.specs.Prelude.{◌≡◌, ◌∷◌, ◌++◌, [], IfOk, OnOk};
ghost use Rattle.monomials.specs.Polynomials.{IsPolynomial};
ghost use Rattle.gproduct.specs.Inside.Parts.{sum_of, AreSorted};

use gpoly::GPoly;
use monomials::Order;
use prime_field::Field;
use std::alloc::{AllocError, Global};

/// Adds a polynomial to a sum of parts, each longer than the next: parts that are no longer than it
/// are added to it first. So a term of a part is moved as often as the length can double.
pub fn add_part(
    alloc: Global,
    field: Field,
    order: &Order,
    parts: &mut Vec<GPoly>,
    mut part: GPoly,
) -> Result<(), AllocError>
    requires parts { AreSorted field order.now parts.old.items }
    requires part { IsPolynomial field order.now part }
    ensures parts { OnOk result (AreSorted field order.now parts.new.items) }
    ensures sum { OnOk result (sum_of field order.now parts.new.items
        ≡ sum_of field order.now (parts.old.items ++ part ∷ [])) }
{
    let _p = field.p();
    while let Some(last) = parts.pop() {
        if last.terms().len() > part.terms().len() {
            parts.push(last)?;
            break;
        }
        part = last.add(alloc, field, order, &part)?;
    }
    parts.push(part)?;
    Ok(())
}

/// The sum of all parts. The last ones are the shortest, and are added first.
pub fn total(
    alloc: Global,
    field: Field,
    order: &Order,
    mut parts: Vec<GPoly>,
) -> Result<GPoly, AllocError>
    requires { AreSorted field order.now parts.items }
    ensures value { IfOk result (λ r. r ≡ sum_of field order.now parts.items) }
    ensures sorted { IfOk result (λ r. IsPolynomial field order.now r) }
{
    let _p = field.p();
    let mut sum = GPoly::zero(alloc);
    while let Some(part) = parts.pop() {
        sum = part.add(alloc, field, order, &sum)?;
    }
    Ok(sum)
}
