//! Worked products and refused relations. Tables are texts: a polynomial in x, y and z is its terms, each a number
//! and the three digits of its exponents.

ghost use Rattle.std.specs.Prelude.{◌≡◌, ◌+◌, ◌<◌, ◌≤◌, length, IfOk};
ghost use Rattle.monomials.specs.Monomials.{degree};
ghost use Rattle.monomials.specs.Polynomials.{IsPolynomial};

use super::*;
use gpoly::Term;
use monomials::{Block, Expo};
use std::test::Fail;

// The order lp or dp in three variables.
fn order(alloc: Global, name: &str) -> Result<Order, Fail>
    ensures { IfOk result (λ o. o.vars ≡ 3) }
{
    let block = match name {
        "lp" => Block::Lex { len: 3 },
        _ => Block::DegRev { len: 3 },
    };
    let order = Order::new(alloc, &[block], 3)?;
    Ok(order)
}

// The monomial with these digits as exponents.
fn monomial(x: u8, y: u8, z: u8) -> Expo
    ensures vars { length result ≡ 3 }
    ensures small { degree result ≤ 4095 }
{
    let digit = |byte: u8| u16::from(byte.saturating_sub(b'0'));
    Expo::of(&[digit(x), digit(y), digit(z)])
}

// The polynomial with one term, as `2:100` for 2 x.
fn term(alloc: Global, field: Field, order: &Order, text: &str) -> Result<GPoly, Fail>
    requires { order.now.vars ≡ 3 }
    ensures { IfOk result (λ f. IsPolynomial field order.now f) }
{
    let (number, exponents) = text.split_once(':').ok_or("a term has a colon")?;
    let [x, y, z] = exponents.as_bytes() else {
        return Err("a term has three exponents".into());
    };
    let coef = field.from_int(number.parse::<u64>()?);
    let mono = monomial(*x, *y, *z);
    let term = GPoly::from_terms(alloc, field, order, &[Term { coef, mono }])?;
    Ok(term)
}

// The sum of the terms, as `1:110 1:000` for x y + 1.
fn poly(alloc: Global, field: Field, order: &Order, text: &str) -> Result<GPoly, Fail>
    requires { order.now.vars ≡ 3 }
    ensures { IfOk result (λ f. IsPolynomial field order.now f) }
{
    let mut sum = GPoly::zero(alloc);
    for piece in text.split(' ') {
        let part = term(alloc, field, order, piece)?;
        sum = sum.add(alloc, field, order, &part)?;
    }
    Ok(sum)
}

// Three numbers, as `1 1 1`.
fn three(text: &str) -> Result<[u64; 3], Fail> {
    let (first, others) = text.split_once(' ').ok_or("there are three numbers")?;
    let (second, third) = others.split_once(' ').ok_or("there are three numbers")?;
    Ok([first.parse()?, second.parse()?, third.parse()?])
}

// The algebra with these numbers and polynomials of the pairs (1, 2), (1, 3) and (2, 3).
fn algebra(
    alloc: Global,
    field: Field,
    name: &str,
    c: &str,
    d: [&str; 3],
) -> Result<Result<Algebra, AlgebraFault>, Fail>
    ensures { IfOk result (λ made. IfOk made (λ a. a.order.vars ≡ 3)) }
{
    let order = order(alloc, name)?;
    let [c_12, c_13, c_23] = three(c)?;
    let [d_12, d_13, d_23] = d;
    let d_12 = poly(alloc, field, &order, d_12)?;
    let d_13 = poly(alloc, field, &order, d_13)?;
    let d_23 = poly(alloc, field, &order, d_23)?;
    let c = [
        field.from_int(c_12),
        field.from_int(c_13),
        field.from_int(c_23),
    ];
    let c = Vec::from_array(alloc, c)?;
    let d = Vec::from_array(alloc, [d_12, d_13, d_23]).map_err(AllocError::from)?;
    Ok(Algebra::new(alloc, field, order, 3, Relations { c, d }))
}

// The numbers and polynomials of the pairs over the field with 32003 elements, two factors, and their product.
// y x = x y + 1; then sl2 in e, f, h with f e = e f - h, h e = e h + 2 e, h f = f h - 2 f, where f^2 e is f (f e);
// then y x = 3 x y.
const PRODUCTS: &str = "\
1 1 1|1:000|0:000|0:000|1:010|1:100|1:110 1:000
1 1 1|1:000|0:000|0:000|1:020|1:100|1:120 2:010
1 1 1|32002:001|2:100|32001:010|1:020|1:100|1:120 32001:011 2:010
1 1 1|32002:001|2:100|32001:010|1:010|1:110 32002:001|1:120 32001:011 2:010
3 1 1|0:000|0:000|0:000|1:010 1:001|1:200|9:210 1:201
3 1 1|0:000|0:000|0:000|1:100|5:010|5:110
3 1 1|0:000|0:000|0:000|1:100|0:000|0:000";

#[test]
fn multiplies(rt: HostRuntime) -> Result<(), Fail> {
    let alloc = rt.alloc();
    let field = Field::of(32003)?;
    for row in PRODUCTS.lines() {
        let fields: Vec<&str> = row.split('|').collect(alloc)?;
        let [c, d_12, d_13, d_23, f, g, want] = fields.as_slice() else {
            return Err("a row has seven fields".into());
        };
        let algebra = algebra(alloc, field, "dp", c, [d_12, d_13, d_23])??;
        assert_eq!(rt; algebra.n(), 3);
        let (field, order) = (algebra.field(), algebra.order());
        let f = poly(alloc, field, order, f)?;
        let g = poly(alloc, field, order, g)?;
        let want = poly(alloc, field, order, want)?;
        let product = algebra.plain_product(alloc, &f, &g)?;
        assert!(rt; product.equals(&want), "{row}: {product:?}");
    }
    Ok(())
}

// An order, the numbers and polynomials of the pairs over the field with 7 elements, and the first fault.
const FAULTS: &str = "\
dp|1 1 1|1:001|0:000|1:010|NonDegeneracy 1 2 3 1:001
dp|1 1 0|1:001|0:000|1:010|Coefficient 2 3
dp|1 1 1|1:200|0:000|0:000|Ordering 1 2
dp|1 1 0|1:200|0:000|0:000|Ordering 1 2
dp|1 1 0|0:000|1:030|0:000|Profile 1 3
lp|1 1 1|1:030|0:000|0:000|Profile 1 2
lp|1 1 1|1:020|0:000|0:000|none
dp|0 1 1|1:030|0:000|0:000|Coefficient 1 2
dp|1 1 1|0:000|0:000|0:000|none
dp|2 3 4|0:000|0:000|0:000|none";

// A fault's name, the numbers of its variables, and its rest, which is one term here.
fn fault_text(alloc: Global, fault: &AlgebraFault) -> Result<String, AllocError> {
    match fault {
        AlgebraFault::Coefficient { i, j } => format!(in alloc; "Coefficient {i} {j}"),
        AlgebraFault::Profile { i, j } => format!(in alloc; "Profile {i} {j}"),
        AlgebraFault::Ordering { i, j } => format!(in alloc; "Ordering {i} {j}"),
        AlgebraFault::NonDegeneracy { i, j, k, rest } => {
            let mut text = format!(in alloc; "NonDegeneracy {i} {j} {k}")?;
            for term in rest.terms() {
                write!(text, " {}:", term.coef)?;
                for v in 1..=term.mono.len() as u8 {
                    write!(text, "{}", term.mono.get(v))?;
                }
            }
            Ok(text)
        }
        AlgebraFault::Memory => format!(in alloc; "Memory"),
    }
}

#[test]
fn refuses_the_first_fault(rt: HostRuntime) -> Result<(), Fail> {
    let alloc = rt.alloc();
    let field = Field::of(7)?;
    for row in FAULTS.lines() {
        let fields: Vec<&str> = row.split('|').collect(alloc)?;
        let [name, c, d_12, d_13, d_23, want] = fields.as_slice() else {
            return Err("a row has six fields".into());
        };
        let got = match algebra(alloc, field, name, c, [d_12, d_13, d_23])? {
            Ok(_) => String::from_str(alloc, "none")?,
            Err(fault) => fault_text(alloc, &fault)?,
        };
        assert_eq!(rt; got.as_str(), *want);
    }
    Ok(())
}

#[test]
fn reads_its_parts(rt: HostRuntime) -> Result<(), Fail> {
    let alloc = rt.alloc();
    let field = Field::of(7)?;
    let ring = Algebra::commuting(alloc, field, order(alloc, "dp")?, 3)?;
    assert_eq!(rt; ring.n(), 3);
    assert_eq!(rt; ring.field(), field);
    assert_eq!(rt; ring.order().vars(), 3);
    assert_eq!(rt; ring.c(2, 3), 1);
    assert!(rt; ring.d(1, 3).is_zero());
    Ok(())
}

// The algebra in 16 variables in which x_j x_i = c x_i x_j for each pair i < j.
fn planes(alloc: Global, field: Field, c: u32) -> Result<Algebra, Fail>
    requires { c < field }
    ensures { IfOk result (λ a. a.order.vars ≡ 16) }
{
    let order = Order::new(alloc, &[Block::DegRev { len: 16 }], 16)?;
    let c = vec![in alloc; c; 120]?;
    let d = gpoly::zeros(alloc, 120)?;
    let planes = Algebra::new(alloc, field, order, 16, Relations { c, d })?;
    Ok(planes)
}

// The number times these powers of x_1 and x_16.
fn outer(alloc: Global, algebra: &Algebra, coef: u64, x: u16, y: u16) -> Result<GPoly, Fail>
    requires vars { algebra.now.order.vars ≡ 16 }
    requires small { x + y ≤ 4095 }
    ensures { IfOk result (λ f. IsPolynomial algebra.now.p algebra.now.order f) }
{
    let _n = algebra.n();
    let (field, order) = (algebra.field(), algebra.order());
    let mono = Expo::of(&[x, 0, 0, 0, 0, 0, 0, 0, 0, 0, 0, 0, 0, 0, 0, y]);
    let coef = field.from_int(coef);
    let term = GPoly::from_terms(alloc, field, order, &[Term { coef, mono }])?;
    Ok(term)
}

// x_16 x_1^4094 = 2^4094 x_1^4094 x_16, and 2^3 is 1 modulo 7.
#[test]
fn takes_16_variables_and_degree_4095(rt: HostRuntime) -> Result<(), Fail> {
    let alloc = rt.alloc();
    let planes = planes(alloc, Field::of(7)?, 2)?;
    let power = outer(alloc, &planes, 1, 4094, 0)?;
    let last = outer(alloc, &planes, 1, 0, 1)?;
    let want = outer(alloc, &planes, 4, 4094, 1)?;
    let product = planes.plain_product(alloc, &last, &power)?;
    assert!(rt; product.equals(&want), "{product:?}");
    assert!(rt; in_reach(&last, &power) && product.degree() == DEGREE_LIMIT);
    let square = outer(alloc, &planes, 1, 0, 2)?;
    let over = planes.plain_product(alloc, &square, &power);
    assert!(rt; matches!(over, Err(ProductFault::DegreeOver)));
    Ok(())
}

// The algebra sl2 in e, f and h, over the field with 32003 elements.
fn sl2(alloc: Global) -> Result<Algebra, Fail>
    ensures { IfOk result (λ a. a.order.vars ≡ 3) }
{
    let field = Field::of(32003)?;
    let sl2 = algebra(
        alloc,
        field,
        "dp",
        "1 1 1",
        ["32002:001", "2:100", "32001:010"],
    )??;
    Ok(sl2)
}

#[test]
fn no_order_of_sl2_has_h_in_front(rt: HostRuntime) -> Result<(), Fail> {
    let sl2 = sl2(rt.alloc())?;
    let h_first = sl2.order().with_extra(rt.alloc(), &[3])?;
    let fault = sl2.reordered(rt.alloc(), &h_first);
    assert!(rt; matches!(fault, Err(AlgebraFault::Ordering { i: 1, j: 2 })));
    Ok(())
}

#[test]
fn sorts_relations_anew_and_back(rt: HostRuntime) -> Result<(), Fail> {
    let sl2 = sl2(rt.alloc())?;
    let by_lp = sl2.reordered(rt.alloc(), &order(rt.alloc(), "lp")?)?;
    let by_dp = by_lp.reordered(rt.alloc(), sl2.order())?;
    assert!(rt; by_dp.same(&sl2) && !by_lp.same(&sl2));
    Ok(())
}

#[test]
fn variables_that_commute_take_any_order(rt: HostRuntime) -> Result<(), Fail> {
    let field = Field::of(101)?;
    let ring = Algebra::commuting(rt.alloc(), field, order(rt.alloc(), "dp")?, 3)?;
    let t_first = ring.order().with_extra(rt.alloc(), &[1])?;
    assert!(rt; ring.reordered(rt.alloc(), &t_first).is_ok());
    Ok(())
}

// An order, a polynomial that dp sorts, and whether it is one over the field with 7 elements.
const FITS: &str = "\
dp|6:100 3:020|true
lp|6:100 3:020|false
dp|7:100|false
lp|0:000|true";

#[test]
fn polynomials_fit(rt: HostRuntime) -> Result<(), Fail> {
    let alloc = rt.alloc();
    for row in FITS.lines() {
        let fields: Vec<&str> = row.split('|').collect(alloc)?;
        let [name, f, want] = fields.as_slice() else {
            return Err("a row has three fields".into());
        };
        let f = poly(alloc, Field::of(32003)?, &order(alloc, "dp")?, f)?;
        let ring = Algebra::commuting(alloc, Field::of(7)?, order(alloc, name)?, 3)?;
        assert_eq!(rt; ring.fits(&f), *want == "true");
    }
    Ok(())
}

/// Threads may share and send values of this type.
fn shared<T: Sync + Send>() {}

#[test]
fn threads_share_algebras() {
    shared::<Algebra>();
}
