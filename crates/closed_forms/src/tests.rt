//! Products of powers, worked by hand and found by rewriting words of two letters, outside. The table is a text: a
//! polynomial in x and y is its terms, each a number and the two digits of its exponents.

ghost use Rattle.std.specs.Prelude.{◌≡◌, ◌<◌, ◌≤◌, length, IfOk};
ghost use Rattle.monomials.specs.Monomials.{degree};
ghost use Rattle.monomials.specs.Polynomials.{IsPolynomial, HasVars, HasNumbers};

use super::*;
use monomials::{Block, Order};
use std::test::Fail;

// The order dp in two variables.
fn order(alloc: Global) -> Result<Order, Fail>
    ensures { IfOk result (λ o. o.vars ≡ 2) }
{
    let order = Order::new(alloc, &[Block::DegRev { len: 2 }], 2)?;
    Ok(order)
}

// The monomial with these digits as exponents.
fn monomial(x: u8, y: u8) -> Expo
    ensures vars { length result ≡ 2 }
    ensures small { degree result ≤ 4095 }
{
    let digit = |byte: u8| u16::from(byte.saturating_sub(b'0'));
    Expo::of(&[digit(x), digit(y)])
}

// The polynomial with one term, as `2:10` for 2 x.
fn term(alloc: Global, field: Field, order: &Order, text: &str) -> Result<GPoly, Fail>
    requires { order.now.vars ≡ 2 }
    ensures { IfOk result (λ f. IsPolynomial field order.now f) }
{
    let (number, exponents) = text.split_once(':').ok_or("a term has a colon")?;
    let [x, y] = exponents.as_bytes() else {
        return Err("a term has two exponents".into());
    };
    let coef = field.from_int(number.parse::<u64>()?);
    let mono = monomial(*x, *y);
    let term = GPoly::from_terms(alloc, field, order, &[Term { coef, mono }])?;
    Ok(term)
}

// The sum of the terms, as `1:11 1:00` for x y + 1.
fn poly(alloc: Global, field: Field, order: &Order, text: &str) -> Result<GPoly, Fail>
    requires { order.now.vars ≡ 2 }
    ensures sorted { IfOk result (λ f. IsPolynomial field order.now f) }
    ensures vars { IfOk result (λ f. HasVars 2 f) }
    ensures numbers { IfOk result (λ f. HasNumbers field f) }
{
    let mut sum = GPoly::zero(alloc);
    for piece in text.split(' ') {
        let part = term(alloc, field, order, piece)?;
        sum = sum.add(alloc, field, order, &part)?;
    }
    Ok(sum)
}

// Terms as a text.
fn text_of(alloc: Global, terms: &[Term2]) -> Result<String, AllocError> {
    let mut text = String::new(alloc);
    for term in terms {
        write!(text, " {}:{}{}", term.coef, term.x, term.y)?;
    }
    Ok(text)
}

// The kind of the relation y x = c x y + d, with the product y^a x^b.
fn answer(
    alloc: Global,
    field: Field,
    c: u32,
    d: &GPoly,
    a: u8,
    b: u8,
) -> Result<String, AllocError>
    requires c_in_range { c < field }
    requires d_sorted { HasVars 2 d.now }
    requires d_numbers { HasNumbers field d.now }
{
    match kind_of(field, c, d, 1, 2) {
        Some(kind) => {
            let product = power_product(alloc, field, &kind, u16::from(a), u16::from(b))?;
            let terms = text_of(alloc, &product)?;
            format!(in alloc; "{kind:?}{terms}")
        }
        None => String::from_str(alloc, "none"),
    }
}

// The characteristic, the relation's number and polynomial, a and b, and the kind with y^a x^b.
const PRODUCTS: &str = "\
7|1|0:00|2 3|Commuting 1:32
7|3|0:00|1 2|Quasi { q: 3 } 2:21
7|3|0:00|2 3|Quasi { q: 3 } 1:32
7|6|0:00|1 1|Quasi { q: 6 } 6:11
2|1|1:00|2 2|Weyl { delta: 1 } 1:22
7|1|1:00|2 2|Weyl { delta: 1 } 1:22 4:11 2:00
7|3|1:00|2 1|QWeyl { q: 3, delta: 1 } 2:12 4:01
7|1|1:10|2 1|LeftLinear { alpha: 1 } 1:12 2:11 1:10
7|1|1:01|1 2|RightLinear { beta: 1 } 1:21 2:11 1:01
7|0|0:00|1 1|none
7|0|1:00|1 1|none
7|2|1:10|1 1|none
7|1|1:20|1 1|none
7|1|1:10 1:00|1 1|none
2|1|0:00|3 3|Commuting 1:33
2|1|0:00|5 4|Commuting 1:45
2|1|1:00|2 3|Weyl { delta: 1 } 1:32
2|1|1:00|4 3|Weyl { delta: 1 } 1:34
2|1|1:00|3 5|Weyl { delta: 1 } 1:53 1:42
2|1|1:00|0 2|Weyl { delta: 1 } 1:20
2|1|1:10|3 3|LeftLinear { alpha: 1 } 1:33 1:32 1:31 1:30
2|1|1:10|5 4|LeftLinear { alpha: 1 } 1:45
2|1|1:01|3 3|RightLinear { beta: 1 } 1:33 1:23 1:13 1:03
2|1|1:01|5 4|RightLinear { beta: 1 } 1:45 1:05
3|1|2:00|3 3|Weyl { delta: 2 } 1:33
3|1|2:00|5 4|Weyl { delta: 2 } 1:45 1:34
3|2|0:00|3 3|Quasi { q: 2 } 2:33
3|2|0:00|5 4|Quasi { q: 2 } 1:45
3|2|1:00|3 3|QWeyl { q: 2, delta: 1 } 2:33 1:22
3|2|1:00|5 4|QWeyl { q: 2, delta: 1 } 1:45
3|1|1:10|3 3|LeftLinear { alpha: 1 } 1:33
3|1|1:10|5 4|LeftLinear { alpha: 1 } 1:45 2:44 1:43 1:42 2:41 1:40
3|1|2:01|3 3|RightLinear { beta: 2 } 1:33
3|1|2:01|5 4|RightLinear { beta: 2 } 1:45 1:35 1:15 1:05
7|6|0:00|3 3|Quasi { q: 6 } 6:33
7|6|0:00|5 4|Quasi { q: 6 } 1:45
7|1|3:00|3 3|Weyl { delta: 3 } 1:33 6:22 1:11 1:00
7|1|3:00|5 4|Weyl { delta: 3 } 1:45 4:34 2:23 5:12 4:01
7|2|5:00|2 3|QWeyl { q: 2, delta: 5 } 1:32
7|2|5:00|4 3|QWeyl { q: 2, delta: 5 } 1:34
7|2|5:00|3 5|QWeyl { q: 2, delta: 5 } 1:53
7|2|5:00|0 2|QWeyl { q: 2, delta: 5 } 1:20
7|6|1:00|3 3|QWeyl { q: 6, delta: 1 } 6:33 1:22
7|6|1:00|5 4|QWeyl { q: 6, delta: 1 } 1:45
7|1|4:10|3 3|LeftLinear { alpha: 4 } 1:33 1:32 5:31 6:30
7|1|4:10|5 4|LeftLinear { alpha: 4 } 1:45 3:44 5:43 3:42 3:41 4:40
7|1|3:01|3 3|RightLinear { beta: 3 } 1:33 6:23 5:13 1:03
7|1|3:01|5 4|RightLinear { beta: 3 } 1:45 4:35 6:25 4:15 1:05";

#[test]
fn multiplies(rt: HostRuntime) -> Result<(), Fail> {
    let alloc = rt.alloc();
    let order = order(alloc)?;
    for row in PRODUCTS.lines() {
        let fields: Vec<&str> = row.split('|').collect(alloc)?;
        let [p, c, d, powers, want] = fields.as_slice() else {
            return Err("a row has five fields".into());
        };
        let field = Field::of(p.parse()?)?;
        let c = field.from_int(c.parse::<u64>()?);
        let d = poly(alloc, field, &order, d)?;
        let (a, b) = powers.split_once(' ').ok_or("there are two powers")?;
        let got = answer(alloc, field, c, &d, a.parse()?, b.parse()?)?;
        assert_eq!(rt; got.as_str(), *want);
    }
    Ok(())
}
