//! The merge of two sorted lists of terms.

ghost use Rattle.std.specs.Prelude.{◌≡◌, ◌<◌, IfOk};
ghost use Rattle.monomials.specs.Orders.{order_cmp};
ghost use Rattle.monomials.specs.Polynomials.{IsPolynomial, poly_add, poly_scale};
ghost use Rattle.gpoly.specs.Terms.{pairs_of};

use crate::{Term, push_multiples, push_nonzero};
use monomials::Order;
use prime_field::Field;
use std::alloc::{AllocError, Global};
use std::cmp::Ordering;

// The sum of the left terms and of the multiples by k of the right ones. The greater of the first
// terms goes to the sum, and two with one monomial are added.
pub fn merged(
    alloc: Global,
    field: Field,
    order: &Order,
    left: &[Term],
    k: u32,
    right: &[Term],
) -> Result<Vec<Term>, AllocError>
    requires in_range { k < field }
    requires left { IsPolynomial field order.now (pairs_of left.now) }
    requires right { IsPolynomial field order.now (pairs_of right.now) }
    ensures { IfOk result (λ sum. pairs_of sum.items ≡ poly_add (order_cmp order.now.rows) field
        (pairs_of left.now) (poly_scale field k (pairs_of right.now))) }
{
    let _p = field.p();
    let mut sum = Vec::with_capacity(alloc, left.len() + right.len())?;
    let mut i = 0;
    let mut j = 0;
    while i < left.len() && j < right.len() {
        let a = &left[i];
        let b = &right[j];
        match order.compare(&a.mono, &b.mono) {
            Ordering::Greater => {
                sum.push(*a)?;
                i += 1;
            }
            Ordering::Less => {
                push_nonzero(&mut sum, field.mul(k, b.coef), b.mono)?;
                j += 1;
            }
            Ordering::Equal => {
                let coef = field.add(a.coef, field.mul(k, b.coef));
                push_nonzero(&mut sum, coef, a.mono)?;
                i += 1;
                j += 1;
            }
        }
    }
    sum.extend_from_slice(&left[i..])?;
    push_multiples(&mut sum, field, k, &right[j..])?;
    Ok(sum)
}
