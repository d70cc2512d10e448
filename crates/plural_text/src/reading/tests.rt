//! Texts that are read and refused in Weyl algebras in x and d, with d x = x d + 1.

ghost use Rattle.std.specs.Prelude.{◌≡◌, ◌≤◌, length, map, string_bytes, IfOk};
ghost use Rattle.monomials.specs.Monomials.{degree};
ghost use Rattle.monomials.specs.Polynomials.{IsPolynomial};
ghost use Rattle.plural_text.specs.Names.{AreNames};

use super::*;
use algebra::Relations;
use monomials::{Block, Order};
use std::test::Fail;

// The names x and d.
fn names(alloc: Global) -> Result<Vec<String>, AllocError>
    ensures { IfOk result (λ names. AreNames 2 (map string_bytes names.items)) }
{
    let x = String::from_str(alloc, "x")?;
    let d = String::from_str(alloc, "d")?;
    Vec::from_array(alloc, [x, d]).map_err(AllocError::from)
}

// The polynomial with one term, as `2:10` for 2 x.
fn term(alloc: Global, field: Field, order: &Order, text: &str) -> Result<GPoly, Fail>
    requires { order.now.vars ≡ 2 }
    ensures { IfOk result (λ f. IsPolynomial field order.now f) }
{
    let (number, exponents) = text.split_once(':').ok_or("a term has a colon")?;
    let [x, d] = exponents.as_bytes() else {
        return Err("a term has two exponents".into());
    };
    let coef = field.from_int(number.parse::<u64>()?);
    let mono = monomial(*x, *d);
    let term = GPoly::from_terms(alloc, field, order, &[Term { coef, mono }])?;
    Ok(term)
}

// The monomial with these digits as exponents.
fn monomial(x: u8, d: u8) -> Expo
    ensures vars { length result ≡ 2 }
    ensures small { degree result ≤ 4095 }
{
    let digit = |byte: u8| u16::from(byte.saturating_sub(b'0'));
    Expo::of(&[digit(x), digit(d)])
}

// The sum of the terms, as `1:11 1:00` for x d + 1.
fn poly(alloc: Global, field: Field, order: &Order, text: &str) -> Result<GPoly, Fail>
    requires { order.now.vars ≡ 2 }
    ensures { IfOk result (λ f. IsPolynomial field order.now f) }
{
    let mut sum = GPoly::zero(alloc);
    for piece in text.split(' ') {
        let part = term(alloc, field, order, piece)?;
        sum = sum.add(alloc, field, order, &part)?;
    }
    Ok(sum)
}

// The Weyl algebra modulo p.
fn weyl(alloc: Global, p: u32) -> Result<Algebra, Fail>
    ensures { IfOk result (λ a. a.order.vars ≡ 2) }
{
    let field = Field::of(p)?;
    let order = Order::new(alloc, &[Block::DegRev { len: 2 }], 2)?;
    let one = poly(alloc, field, &order, "1:00")?;
    let c = Vec::from_array(alloc, [1])?;
    let d = Vec::from_array(alloc, [one]).map_err(AllocError::from)?;
    Ok(Algebra::new(alloc, field, order, 2, Relations { c, d })?)
}

// Whether a text is read.
fn is_read(alloc: Global, alg: &Algebra, names: &[String], text: &str) -> Result<bool, Fail>
    requires { AreNames alg.now.order.vars (map string_bytes names.now) }
{
    match read_poly(alloc, alg, names, text.as_bytes()) {
        Ok(_) => Ok(true),
        Err(ReadFault::NotPoly) => Ok(false),
        Err(ReadFault::Memory) => Err("out of memory".into()),
    }
}

// Texts modulo 7, each behind what becomes of it.
const TEXTS: &str = "\
read x*d+1
read -x^2
read 0
read x*d^2-3*x+3
read -x-1
read x^4095
read -3
no d*x
no 1*x
no -1*x
no x^1
no x^0
no x*x
no +x
no 4
no 01
no -0
no 0*x
no 1+x
no x+x
no x +1
no 
no x*
no *x
no -
no --x
no x+-1
no x+
no y
no xd
no x^
no ^2
no x^02
no x^2^2
no x^4096
no x^4095*d
no x^99999999999999999999
no 99999999999999999999";

#[test]
fn reads_and_refuses(rt: HostRuntime) -> Result<(), Fail> {
    let alloc = rt.alloc();
    let alg = weyl(alloc, 7)?;
    let names = names(alloc)?;
    for line in TEXTS.lines() {
        let (verdict, text) = line.split_once(' ').ok_or("a line has a space")?;
        let read = is_read(alloc, &alg, &names, text)?;
        assert_eq!(rt; read, verdict == "read");
    }
    Ok(())
}

// Whether a polynomial that was printed is read back.
fn is_read_back(alloc: Global, p: u32, names: &[String], terms: &str) -> Result<bool, Fail>
    requires { AreNames 2 (map string_bytes names.now) }
{
    let alg = weyl(alloc, p)?;
    let f = poly(alloc, alg.field(), alg.order(), terms)?;
    let text = poly_text(alloc, &alg, names, &f)?;
    match read_poly(alloc, &alg, names, &text) {
        Ok(read) => Ok(read.equals(&f)),
        Err(_) => Ok(false),
    }
}

#[test]
fn reads_what_is_printed(rt: HostRuntime) -> Result<(), Fail> {
    let alloc = rt.alloc();
    let names = names(alloc)?;
    for p in [2, 7, 65521] {
        for terms in "0:00|1:00|65520:34|1:30 65520:21 32760:11 32761:02 5:10 3:00".split('|') {
            assert!(rt; is_read_back(alloc, p, &names, terms)?);
        }
    }
    Ok(())
}
