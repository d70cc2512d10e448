ghost use Rattle.std.specs.Prelude.{◌≤◌, IfOk};
ghost use Rattle.monomials.specs.Monomials.{degree};
ghost use Rattle.monomials.specs.Polynomials.{Each, HasVars, HasNumbers};
ghost use Rattle.gpoly.specs.Terms.{pairs_of};

use super::{Buckets, GPoly, Term, copies, zeros};
use monomials::{Block, Expo, Order};
use prime_field::Field;
use std::alloc::{AllocError, Global};
use std::test::Fail;

// A term c x^a y^b, as (c, a, b).
type Row = (u32, u8, u8);

fn terms_of(alloc: Global, field: Field, rows: &[Row]) -> Result<Vec<Term>, AllocError>
    ensures numbers { IfOk result (λ v. HasNumbers field (pairs_of v.items)) }
    ensures vars { IfOk result (λ v. HasVars 2 (pairs_of v.items)) }
    ensures small { IfOk result (λ v. Each (λ t. degree t.1 ≤ 4095) (pairs_of v.items)) }
{
    let mut terms = Vec::new(alloc);
    for row in rows {
        let coef = field.from_int(u64::from(row.0));
        let mono = Expo::of(&[u16::from(row.1), u16::from(row.2)]);
        terms.push(Term { coef, mono })?;
    }
    Ok(terms)
}

// Given, the same sorted, and its degree.
const SORTED: [(u32, &[Row], &[Row], u32); 6] = [
    (7, &[], &[], 0),
    (7, &[(5, 0, 0)], &[(5, 0, 0)], 0),
    (
        7,
        &[(3, 0, 2), (1, 1, 0), (2, 2, 0)],
        &[(2, 2, 0), (3, 0, 2), (1, 1, 0)],
        2,
    ),
    (
        7,
        &[(3, 0, 1), (6, 1, 0), (5, 0, 1), (6, 1, 0)],
        &[(5, 1, 0), (1, 0, 1)],
        1,
    ),
    (7, &[(3, 1, 1), (1, 0, 0), (4, 1, 1)], &[(1, 0, 0)], 0),
    (
        2,
        &[(1, 0, 3), (1, 1, 1), (1, 0, 3), (1, 0, 3)],
        &[(1, 0, 3), (1, 1, 1)],
        3,
    ),
];

#[test]
fn sorts_and_adds_up(rt: HostRuntime) -> Result<(), Fail> {
    let alloc = rt.alloc();
    let order = Order::new(alloc, &[Block::DegRev { len: 2 }], 2)?;
    for (p, given, sorted, degree) in &SORTED {
        let field = Field::of(*p)?;
        let given = terms_of(alloc, field, given)?;
        let sorted = terms_of(alloc, field, sorted)?;
        let f = GPoly::from_terms(alloc, field, &order, &given)?;
        assert_eq!(rt; f.terms(), sorted.as_slice());
        assert_eq!(rt; f.degree(), *degree);
        assert_eq!(rt; f.is_zero(), sorted.is_empty());
        assert_eq!(rt; f.leading(), sorted.first());
        assert!(rt; f.copy(alloc)?.equals(&f));
    }
    Ok(())
}

#[test]
fn adds_and_scales(rt: HostRuntime) -> Result<(), Fail> {
    let alloc = rt.alloc();
    let field = Field::of(7)?;
    let order = Order::new(alloc, &[Block::DegRev { len: 2 }], 2)?;
    let f = terms_of(alloc, field, &[(2, 2, 0), (3, 1, 0), (1, 0, 0)])?;
    let g = terms_of(alloc, field, &[(5, 1, 1), (4, 1, 0), (6, 0, 0)])?;
    let sum = terms_of(alloc, field, &[(2, 2, 0), (5, 1, 1)])?;
    let thrice = terms_of(alloc, field, &[(6, 2, 0), (2, 1, 0), (3, 0, 0)])?;
    let f = GPoly::from_terms(alloc, field, &order, &f)?;
    let g = GPoly::from_terms(alloc, field, &order, &g)?;
    let f_and_g = f.add(alloc, field, &order, &g)?;
    assert_eq!(rt; f_and_g.terms(), sum.as_slice());
    assert!(rt; f_and_g.equals(&g.add(alloc, field, &order, &f)?));
    assert!(rt; !f.equals(&g));
    let f_thrice = f.scale(alloc, field, 3)?;
    assert_eq!(rt; f_thrice.terms(), thrice.as_slice());
    assert!(rt; f.scale(alloc, field, 0)?.equals(&GPoly::zero(alloc)));
    Ok(())
}

// Two polynomials, and their difference, modulo 7.
const DIFFERENCES: [(&[Row], &[Row], &[Row]); 4] = [
    (
        &[(2, 2, 0), (3, 1, 0), (1, 0, 0)],
        &[(5, 1, 1), (4, 1, 0), (6, 0, 0)],
        &[(2, 2, 0), (2, 1, 1), (6, 1, 0), (2, 0, 0)],
    ),
    (
        &[(5, 1, 1), (4, 1, 0), (6, 0, 0)],
        &[(2, 2, 0), (3, 1, 0), (1, 0, 0)],
        &[(5, 2, 0), (5, 1, 1), (1, 1, 0), (5, 0, 0)],
    ),
    (&[(3, 1, 1), (2, 0, 1)], &[(3, 1, 1)], &[(2, 0, 1)]),
    (&[(3, 1, 1), (2, 0, 1)], &[(3, 1, 1), (2, 0, 1)], &[]),
];

#[test]
fn subtracts(rt: HostRuntime) -> Result<(), Fail> {
    let alloc = rt.alloc();
    let field = Field::of(7)?;
    let order = Order::new(alloc, &[Block::DegRev { len: 2 }], 2)?;
    for (f, g, difference) in &DIFFERENCES {
        let f = terms_of(alloc, field, f)?;
        let g = terms_of(alloc, field, g)?;
        let difference = terms_of(alloc, field, difference)?;
        let f = GPoly::from_terms(alloc, field, &order, &f)?;
        let g = GPoly::from_terms(alloc, field, &order, &g)?;
        let f_less_g = f.sub(alloc, field, &order, &g)?;
        assert_eq!(rt; f_less_g.terms(), difference.as_slice());
    }
    Ok(())
}

#[test]
fn adds_a_multiple(rt: HostRuntime) -> Result<(), Fail> {
    let alloc = rt.alloc();
    let field = Field::of(7)?;
    let order = Order::new(alloc, &[Block::DegRev { len: 2 }], 2)?;
    let f = terms_of(alloc, field, &[(2, 2, 0), (3, 1, 0), (1, 0, 0)])?;
    let g = terms_of(alloc, field, &[(5, 1, 1), (4, 1, 0), (2, 0, 0)])?;
    let want = terms_of(alloc, field, &[(2, 2, 0), (1, 1, 1), (1, 1, 0)])?;
    let f = GPoly::from_terms(alloc, field, &order, &f)?;
    let g = GPoly::from_terms(alloc, field, &order, &g)?;
    let sum = f.add_multiple(alloc, field, &order, 3, &g)?;
    assert_eq!(rt; sum.terms(), want.as_slice());
    Ok(())
}

#[test]
fn leads(rt: HostRuntime) -> Result<(), Fail> {
    let alloc = rt.alloc();
    let mono = Expo::var(2, 1);
    let x = GPoly::of_term(alloc, 3, mono)?;
    assert_eq!(rt; x.lead(), &Term { coef: 3, mono });
    assert!(rt; x.lead_divides(&Expo::of(&[1, 2])));
    assert!(rt; !x.lead_divides(&Expo::var(2, 2)));
    assert!(rt; !GPoly::zero(alloc).lead_divides(&mono));
    Ok(())
}

#[test]
fn lists(rt: HostRuntime) -> Result<(), Fail> {
    let alloc = rt.alloc();
    let polys = [
        GPoly::of_term(alloc, 3, Expo::var(2, 1))?,
        GPoly::zero(alloc),
    ];
    let copies = copies(alloc, &polys)?;
    assert_eq!(rt; copies.len(), 2);
    assert!(rt; copies[0].equals(&polys[0]) && copies[1].is_zero());
    let zeros = zeros(alloc, 2)?;
    assert_eq!(rt; zeros.len(), 2);
    assert!(rt; zeros[0].is_zero() && zeros[1].is_zero());
    Ok(())
}

#[test]
fn makes_monic(rt: HostRuntime) -> Result<(), Fail> {
    let alloc = rt.alloc();
    let field = Field::of(7)?;
    let order = Order::new(alloc, &[Block::DegRev { len: 2 }], 2)?;
    let f = terms_of(alloc, field, &[(2, 2, 0), (3, 1, 0), (1, 0, 0)])?;
    let want = terms_of(alloc, field, &[(1, 2, 0), (5, 1, 0), (4, 0, 0)])?;
    let f = GPoly::from_terms(alloc, field, &order, &f)?;
    assert!(rt; !f.is_zero());
    let (monic, scale) = f.monic(alloc, field)?;
    assert_eq!(rt; monic.terms(), want.as_slice());
    assert_eq!(rt; scale, 4);
    let (in_place, scale) = f.into_monic(field);
    assert!(rt; in_place.equals(&monic));
    assert_eq!(rt; scale, 4);
    Ok(())
}

#[test]
fn sorts_by_another_order(rt: HostRuntime) -> Result<(), Fail> {
    let alloc = rt.alloc();
    let field = Field::of(7)?;
    let dp = Order::new(alloc, &[Block::DegRev { len: 2 }], 2)?;
    let lp = Order::new(alloc, &[Block::Lex { len: 2 }], 2)?;
    let given = terms_of(alloc, field, &[(2, 0, 3), (3, 1, 0), (1, 1, 1)])?;
    let want = terms_of(alloc, field, &[(1, 1, 1), (3, 1, 0), (2, 0, 3)])?;
    let f = GPoly::from_terms(alloc, field, &dp, &given)?;
    let sorted = f.reorder(alloc, &lp)?;
    assert_eq!(rt; sorted.terms(), want.as_slice());
    assert!(rt; sorted.reorder(alloc, &dp)?.equals(&f));
    Ok(())
}

#[test]
fn gathers_in_buckets(rt: HostRuntime) -> Result<(), Fail> {
    let alloc = rt.alloc();
    let field = Field::of(7)?;
    let order = Order::new(alloc, &[Block::DegRev { len: 2 }], 2)?;
    let first = terms_of(alloc, field, &[(1, 1, 0), (1, 0, 0)])?;
    let second = terms_of(alloc, field, &[(6, 1, 0)])?;
    let mut sum = Buckets::new(alloc);
    sum.add(
        alloc,
        field,
        &order,
        GPoly::from_terms(alloc, field, &order, &first)?,
    )?;
    sum.add(
        alloc,
        field,
        &order,
        GPoly::from_terms(alloc, field, &order, &second)?,
    )?;
    let one = Term {
        coef: 1,
        mono: Expo::of(&[0, 0]),
    };
    assert_eq!(rt; sum.leading(field, &order), Some(one));
    let mut poly = sum.into_poly(alloc, field, &order)?;
    assert_eq!(rt; poly.terms(), [one].as_slice());
    poly.append(&GPoly::zero(alloc))?;
    assert_eq!(rt; poly.terms(), [one].as_slice());
    let mut poly = GPoly::zero(alloc);
    poly.push(one)?;
    assert_eq!(rt; poly.into_multiple(field, 3).terms()[0].coef, 3);
    Ok(())
}

/// Threads may share and send values of this type.
fn shared<T: Sync + Send>() {}

#[test]
fn threads_share_polynomials_and_their_fields() {
    shared::<Field>();
    shared::<Term>();
    shared::<GPoly>();
}
