//! Worked eliminations. Tables are texts: a polynomial is its terms, each a number and the digits of its exponents.

ghost use Rattle.std.specs.Prelude.{◌≡◌, ◌≤◌, All, IfOk};
ghost use Rattle.monomials.specs.Polynomials.{Each, IsPolynomial};

use super::*;
use algebra::Relations;
use monomials::{Block, Order};
use prime_field::Field;
use std::test::Fail;
use worked_algebras::{poly, polys};

// The variables that a text has as digits.
fn variables(alloc: Global, text: &str) -> Result<Vec<u8>, Fail>
    ensures { IfOk result (λ vars. All (λ v. (1 ≤ v) × (v ≤ 3)) vars.items) }
{
    let mut vars = Vec::new(alloc);
    for byte in text.as_bytes() {
        let v = byte.saturating_sub(b'0');
        if v < 1 || v > 3 {
            return Err("a variable has a number from 1 to 3".into());
        }
        vars.push(v)?;
    }
    Ok(vars)
}

// The polynomial ring in t, x and y over the field with 101 elements, ordered by dp.
fn ring(alloc: Global) -> Result<Algebra, Fail>
    ensures { IfOk result (λ a. a.order.vars ≡ 3) }
{
    let order = Order::new(alloc, &[Block::DegRev { len: 3 }], 3)?;
    let ring = Algebra::commuting(alloc, Field::of(101)?, order, 3)?;
    Ok(ring)
}

// The same ring under the order in which t is eliminated.
fn without_t(alloc: Global) -> Result<Algebra, Fail>
    ensures { IfOk result (λ a. a.order.vars ≡ 3) }
{
    let ring = ring(alloc)?;
    match elimination_algebra(alloc, &ring, &[1]) {
        Ok(algebra) => Ok(algebra),
        Err(_) => Err("there is an elimination algebra".into()),
    }
}

// Whether the polynomials are equal, one by one.
fn same(fs: &[GPoly], gs: &[GPoly]) -> bool {
    fs.len() == gs.len() && fs.iter().zip(gs).all(|(f, g)| f.equals(g))
}

// What the list has without the variables.
fn without(
    alloc: Global,
    alg: &Algebra,
    list: &[GPoly],
    vars: &[u8],
) -> Result<Vec<GPoly>, AllocError>
    requires of_three { alg.now.order.vars ≡ 3 }
    requires sorted { Each (IsPolynomial alg.now.p alg.now.order) list.now }
    requires in_range { All (λ v. (1 ≤ v) × (v ≤ 3)) vars.now }
{
    restrict(alloc, list, vars)
}

// Variables, a list, and what it has without them. The first list is the reduced basis for x-t and y-t^2 where t
// is eliminated.
const RESTRICTED: &str = "\
1|1:020 100:001, 1:100 100:010|1:020 100:001
12|1:020 100:001, 1:100 100:010|
3|1:020 100:001, 1:100 100:010|1:100 100:010
13|1:100, 1:001, 1:010, 1:111|1:010
23|1:000, 1:100 1:010, 1:200|1:000, 1:200
2|1:001 1:000|1:001 1:000";

#[test]
fn restricts_lists(rt: HostRuntime) -> Result<(), Fail> {
    let alloc = rt.alloc();
    let (ring, without_t) = (ring(alloc)?, without_t(alloc)?);
    for row in RESTRICTED.lines() {
        let fields: Vec<&str> = row.split('|').collect(alloc)?;
        let [vars, list, want] = fields.as_slice() else {
            return Err("a row has three fields".into());
        };
        let vars = variables(alloc, vars)?;
        let list = polys(alloc, &without_t, list)?;
        let want = polys(alloc, &ring, want)?;
        let kept = without(alloc, &without_t, &list, &vars)?;
        assert!(rt; same(&kept, &want), "{row}");
    }
    Ok(())
}

// The algebra sl2 in e, f and h, over the field with 32003 elements.
fn sl2(alloc: Global) -> Result<Algebra, Fail>
    ensures { IfOk result (λ a. a.order.vars ≡ 3) }
{
    let field = Field::of(32003)?;
    let order = Order::new(alloc, &[Block::DegRev { len: 3 }], 3)?;
    let d_12 = poly(alloc, field, &order, "32002:001")?;
    let d_13 = poly(alloc, field, &order, "2:100")?;
    let d_23 = poly(alloc, field, &order, "32001:010")?;
    let c = Vec::from_array(alloc, [1, 1, 1])?;
    let d = Vec::from_array(alloc, [d_12, d_13, d_23]).map_err(AllocError::from)?;
    Ok(Algebra::new(alloc, field, order, 3, Relations { c, d })?)
}

// f e = e f - h: where h counts first, h is above e f.
#[test]
fn h_is_not_eliminated_from_sl2(rt: HostRuntime) -> Result<(), Fail> {
    let sl2 = sl2(rt.alloc())?;
    let by_h = elimination_algebra(rt.alloc(), &sl2, &[3]);
    assert!(rt; matches!(by_h, Err(ElimFault::NoElimination { i: 1, j: 2 })));
    let by_e = elimination_algebra(rt.alloc(), &sl2, &[1]);
    assert!(rt; by_e.is_ok());
    Ok(())
}

#[test]
fn takes_16_variables(rt: HostRuntime) -> Result<(), Fail> {
    let alloc = rt.alloc();
    let order = Order::new(alloc, &[Block::Lex { len: 16 }], 16)?;
    let ring = Algebra::commuting(alloc, Field::of(2)?, order, 16)?;
    let outer = elimination_algebra(alloc, &ring, &[16, 1]);
    assert!(rt; outer.is_ok());
    Ok(())
}
