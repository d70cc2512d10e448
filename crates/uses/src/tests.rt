//! The operators that kill the constants, in the Weyl algebra.

ghost use Rattle.std.specs.Prelude.{◌≡◌, ◌<◌, IfOk};
ghost use Rattle.monomials.specs.Polynomials.{IsPolynomial};

use super::*;
use gpoly::Term;
use std::marker::Brand;
use std::sync::ledger::Blank;
use std::test::Fail;

// The operator x^i d^j.
fn power(alloc: Global, algebra: &Algebra, i: u8, j: u8) -> Result<GPoly, Fail>
    requires { algebra.now.order.vars ≡ 2 }
    ensures { IfOk result (λ f. IsPolynomial algebra.now.p algebra.now.order f) }
{
    let field = algebra.field();
    let coef = field.from_int(1);
    let mono = Expo::of(&[u16::from(i), u16::from(j)]);
    let term = GPoly::from_terms(alloc, field, algebra.order(), &[Term { coef, mono }])?;
    Ok(term)
}

// The left ideal of x d and d^2.
fn constants<L: Ledger>(alloc: Global, steps: &mut Steps<L>) -> Result<LeftIdeal, Fail>
    ensures { IfOk result (λ i. i.algebra.order.vars ≡ 2) }
{
    let algebra = weyl_algebra(alloc)?;
    let x_d = power(alloc, &algebra, 1, 1)?;
    let d_d = power(alloc, &algebra, 0, 2)?;
    let generators = Vec::from_array(alloc, [x_d, d_d]).map_err(AllocError::from)?;
    Ok(LeftIdeal::new(alloc, algebra, generators, 100, steps)?)
}

// Whether d and x are in the ideal.
fn membership<L: Ledger>(alloc: Global, blank: Blank) -> Result<[bool; 2], Fail>
    requires name { blank.name ≡ L.name }
    requires parts { blank.parts ≡ L.parts }
    requires some { 0 < blank.parts }
{
    let mut steps = Steps::<L>::start(blank);
    let ideal = constants(alloc, &mut steps)?;
    let d = power(alloc, ideal.algebra(), 0, 1)?;
    let x = power(alloc, ideal.algebra(), 1, 0)?;
    let has_d = ideal.contains(alloc, &d, &mut steps)?;
    let has_x = ideal.contains(alloc, &x, &mut steps)?;
    Ok([has_d, has_x])
}

// Whether the row of the basis' one element shows d, and x, to be in the ideal.
fn shown<L: Ledger>(alloc: Global, blank: Blank) -> Result<[bool; 2], Fail>
    requires name { blank.name ≡ L.name }
    requires parts { blank.parts ≡ L.parts }
    requires some { 0 < blank.parts }
{
    let mut steps = Steps::<L>::start(blank);
    let ideal = constants(alloc, &mut steps)?;
    let rows = ideal.cofactors(alloc, &mut steps)?;
    let [row] = rows.as_slice() else {
        return Err("the basis has one element".into());
    };
    let d = power(alloc, ideal.algebra(), 0, 1)?;
    let x = power(alloc, ideal.algebra(), 1, 0)?;
    let shows_d = shows_member(
        alloc,
        ideal.algebra(),
        ideal.generators(),
        row,
        &d,
        &mut steps,
    )?;
    let shows_x = shows_member(
        alloc,
        ideal.algebra(),
        ideal.generators(),
        row,
        &x,
        &mut steps,
    )?;
    Ok([shows_d, shows_x])
}

fn uncounted_membership(alloc: Global) -> Result<[bool; 2], Fail> {
    membership::<Brand>(alloc, Blank::new(1))
}

fn uncounted_shown(alloc: Global) -> Result<[bool; 2], Fail> {
    shown::<Brand>(alloc, Blank::new(1))
}

#[test]
fn derivations_kill_constants(rt: HostRuntime) -> Result<(), Fail> {
    let alloc = rt.alloc();
    assert!(rt; uncounted_membership(alloc)? == [true, false]);
    assert!(rt; uncounted_shown(alloc)? == [true, false]);
    Ok(())
}
