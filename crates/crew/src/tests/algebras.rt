//! Algebras and polynomials in x and d from texts: a polynomial is its terms, each a number and two
//! exponents.

ghost use Rattle.std.specs.Prelude.{◌≡◌, ◌≤◌, ◌++◌, ◌∷◌, [], IfOk, OnOk, length};
ghost use Rattle.monomials.specs.Polynomials.{Each, IsPolynomial};

use algebra::{Algebra, Relations};
use gpoly::{GPoly, Term};
use monomials::{Block, Expo, Order};
use prime_field::Field;
use std::alloc::{AllocError, Global};
use std::test::Fail;

// The term with these exponents of x and d, as `2.1.0` for 2 x.
fn term(alloc: Global, field: Field, order: &Order, text: &str) -> Result<GPoly, Fail>
    ensures { IfOk result (λ f. IsPolynomial field order.now f) }
{
    let (number, exponents) = text.split_once('.').ok_or("a term has exponents")?;
    let (x, d) = exponents.split_once('.').ok_or("a term has two exponents")?;
    let (x, d) = (x.parse::<u16>()?, d.parse::<u16>()?);
    if order.vars() != 2 || u32::from(x) + u32::from(d) > 4095 {
        return Err("a monomial has two exponents, of degree 4095 at most".into());
    }
    let mono = Expo::of(&[x, d]);
    let coef = field.from_int(number.parse::<u64>()?);
    let term = GPoly::from_terms(alloc, field, order, &[Term { coef, mono }])?;
    Ok(term)
}

// The sum of the terms, as `1.1.1 6.0.0` for x d - 1 modulo 7.
fn poly(alloc: Global, field: Field, order: &Order, text: &str) -> Result<GPoly, Fail>
    ensures { IfOk result (λ f. IsPolynomial field order.now f) }
{
    let mut sum = GPoly::zero(alloc);
    for piece in text.split(' ') {
        let part = term(alloc, field, order, piece)?;
        sum = sum.add(alloc, field, order, &part)?;
    }
    Ok(sum)
}

fn push(polys: &mut Vec<GPoly>, poly: GPoly) -> Result<(), AllocError>
    ensures { OnOk result (polys.new.items ≡ polys.old.items ++ poly ∷ []) }
{
    polys.push(poly)?;
    Ok(())
}

// The polynomials between the commas of a text, at most 4096.
pub(super) fn polys(alloc: Global, alg: &Algebra, text: &str) -> Result<Vec<GPoly>, Fail>
    ensures sorted { IfOk result (λ fs. Each (IsPolynomial alg.now.p alg.now.order) fs.items) }
    ensures few { IfOk result (λ fs. length fs.items ≤ 4096) }
{
    let mut polys = Vec::new(alloc);
    for piece in text.split(", ") {
        let part = poly(alloc, alg.field(), alg.order(), piece)?;
        push(&mut polys, part)?;
    }
    if polys.len() > 4096 {
        return Err("there are at most 4096 polynomials".into());
    }
    Ok(polys)
}

// The algebra with d x = x d + f, as `dp 7 1.0.0` for the order, the prime and f = 1.
pub(super) fn algebra(alloc: Global, text: &str) -> Result<Algebra, Fail> {
    let (block, rest) = text.split_once(' ').ok_or("an algebra has an order")?;
    let (prime, relation) = rest
        .split_once(' ')
        .ok_or("an algebra has a prime and a relation")?;
    let field = Field::of(prime.parse::<u32>()?)?;
    let order = match block {
        "lp" => Order::new(alloc, &[Block::Lex { len: 2 }], 2)?,
        _ => Order::new(alloc, &[Block::DegRev { len: 2 }], 2)?,
    };
    let relation = poly(alloc, field, &order, relation)?;
    let c = Vec::from_array(alloc, [1])?;
    let d = Vec::from_array(alloc, [relation]).map_err(AllocError::from)?;
    Ok(Algebra::new(alloc, field, order, 2, Relations { c, d })?)
}
