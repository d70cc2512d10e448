//! Worked texts. Monomials are the digits of their exponents.

ghost use Rattle.std.specs.Prelude.{◌≡◌, ◌≤◌, ◌++◌, ◌∷◌, [], map, string_bytes, IfOk, OnOk};
ghost use Rattle.monomials.specs.Monomials.{degree};
ghost use Rattle.monomials.specs.Polynomials.{Each, IsPolynomial};
ghost use Rattle.plural_text.specs.Names.{AreNames};

use super::*;
use crate::ring_text;
use algebra::Relations;
use gpoly::Term;
use monomials::{Block, BlockWeights, Expo, Order};
use prime_field::Field;
use std::test::Fail;

// The monomial with these digits as exponents.
fn monomial(digits: &str) -> Result<Expo, Fail>
    ensures { IfOk result (λ m. degree m ≤ 4095) }
{
    let digit = |byte: u8| u16::from(byte.saturating_sub(b'0'));
    match digits.as_bytes() {
        [x, d] => Ok(Expo::of(&[digit(*x), digit(*d)])),
        [e, f, h] => Ok(Expo::of(&[digit(*e), digit(*f), digit(*h)])),
        _ => Err("a monomial has two or three exponents".into()),
    }
}

// The polynomial with one term, as `2:10` for 2 x.
fn term(alloc: Global, field: Field, order: &Order, text: &str) -> Result<GPoly, Fail>
    ensures { IfOk result (λ f. IsPolynomial field order.now f) }
{
    let (number, digits) = text.split_once(':').ok_or("a term has a colon")?;
    let mono = monomial(digits)?;
    if mono.len() != order.vars() {
        return Err("a monomial has an exponent for each variable".into());
    }
    let coef = field.from_int(number.parse::<u64>()?);
    let term = GPoly::from_terms(alloc, field, order, &[Term { coef, mono }])?;
    Ok(term)
}

// The sum of the terms, as `1:11+6:00` for x d - 1 modulo 7.
fn poly(alloc: Global, field: Field, order: &Order, text: &str) -> Result<GPoly, Fail>
    ensures { IfOk result (λ f. IsPolynomial field order.now f) }
{
    let mut sum = GPoly::zero(alloc);
    for piece in text.split('+') {
        let part = term(alloc, field, order, piece)?;
        sum = sum.add(alloc, field, order, &part)?;
    }
    Ok(sum)
}

fn push(polys: &mut Vec<GPoly>, poly: GPoly) -> Result<(), AllocError>
    ensures { OnOk result (polys.new.items ≡ polys.old.items ++ poly ∷ []) }
{
    polys.push(poly)?;
    Ok(())
}

// The polynomials between the spaces of a text.
fn polys(alloc: Global, alg: &Algebra, text: &str) -> Result<Vec<GPoly>, Fail>
    ensures { IfOk result (λ fs. Each (IsPolynomial alg.now.p alg.now.order) fs.items) }
{
    let mut polys = Vec::new(alloc);
    for piece in text.split_whitespace() {
        let part = poly(alloc, alg.field(), alg.order(), piece)?;
        push(&mut polys, part)?;
    }
    Ok(polys)
}

fn push_row(rows: &mut Vec<Row>, row: Row) -> Result<(), AllocError>
    ensures { OnOk result (rows.new.items ≡ rows.old.items ++ row ∷ []) }
{
    rows.push(row)?;
    Ok(())
}

// The rows between the commas of a text, if there are any.
fn rows(alloc: Global, alg: &Algebra, text: &str) -> Result<Vec<Row>, Fail>
    ensures { IfOk result (λ rows. Each (Each (IsPolynomial alg.now.p alg.now.order)) rows.items) }
{
    let mut rows = Vec::new(alloc);
    if text.is_empty() {
        return Ok(rows);
    }
    for piece in text.split(',') {
        let entries = polys(alloc, alg, piece)?;
        push_row(&mut rows, Row { entries })?;
    }
    Ok(rows)
}

// The block of this name with these numbers, as `wp 1 2`.
fn block(alloc: Global, text: &str) -> Result<Block, Fail> {
    let (name, numbers) = text.split_once(' ').ok_or("a block has numbers")?;
    let mut weights = Vec::new(alloc);
    for number in numbers.split(' ') {
        weights.push(number.parse::<u64>()?)?;
    }
    let len = weights.len();
    let weights = BlockWeights::of(weights);
    Ok(match name {
        "a" => Block::Extra { weights },
        "wp" => Block::WeightRev { weights },
        "Wp" => Block::WeightLex { weights },
        "lp" => Block::Lex { len },
        "dp" => Block::DegRev { len },
        _ => Block::DegLex { len },
    })
}

// The blocks between the commas of a text.
fn blocks(alloc: Global, text: &str) -> Result<Vec<Block>, Fail> {
    let mut blocks = Vec::new(alloc);
    for piece in text.split(',') {
        blocks.push(block(alloc, piece)?).map_err(AllocError::from)?;
    }
    Ok(blocks)
}

// The names x and d of two variables, and e, f and h of three.
fn names(alloc: Global, n: usize) -> Result<Vec<String>, Fail>
    ensures names { IfOk result (λ names. AreNames n (map string_bytes names.items)) }
    ensures some { IfOk result (λ _. 1 ≤ n) }
    ensures few { IfOk result (λ _. n ≤ 16) }
{
    match n {
        2 => {
            let (x, d) = (String::from_str(alloc, "x")?, String::from_str(alloc, "d")?);
            Ok(Vec::from_array(alloc, [x, d]).map_err(AllocError::from)?)
        }
        3 => {
            let (e, f) = (String::from_str(alloc, "e")?, String::from_str(alloc, "f")?);
            let h = String::from_str(alloc, "h")?;
            Ok(Vec::from_array(alloc, [e, f, h]).map_err(AllocError::from)?)
        }
        _ => Err("there are two or three variables".into()),
    }
}

// The algebra of relations: none, where all variables commute, or a number and a polynomial for two
// variables, or three polynomials for three.
fn algebra(
    alloc: Global,
    field: Field,
    order: Order,
    n: usize,
    relations: &str,
) -> Result<Algebra, Fail>
    requires { order.vars ≡ n }
    ensures { IfOk result (λ a. a.order.vars ≡ n) }
{
    let parts: Vec<&str> = relations.split_whitespace().collect(alloc)?;
    match (n, parts.as_slice()) {
        (2, [c, d]) => {
            let c = field.from_int(c.parse::<u64>()?);
            let d = poly(alloc, field, &order, d)?;
            let c = Vec::from_array(alloc, [c])?;
            let d = Vec::from_array(alloc, [d]).map_err(AllocError::from)?;
            Ok(Algebra::new(alloc, field, order, n, Relations { c, d })?)
        }
        (3, [d_12, d_13, d_23]) => {
            let d_12 = poly(alloc, field, &order, d_12)?;
            let d_13 = poly(alloc, field, &order, d_13)?;
            let d_23 = poly(alloc, field, &order, d_23)?;
            let one = field.from_int(1);
            let c = Vec::from_array(alloc, [one, one, one])?;
            let d = Vec::from_array(alloc, [d_12, d_13, d_23]).map_err(AllocError::from)?;
            Ok(Algebra::new(alloc, field, order, n, Relations { c, d })?)
        }
        _ => Ok(Algebra::commuting(alloc, field, order, n)?),
    }
}

// The text of what a row names: a polynomial, an ideal, rows, or the ring.
fn text_of(
    alloc: Global,
    alg: &Algebra,
    names: &[String],
    blocks: &[Block],
    kind: &str,
    input: &str,
) -> Result<Vec<u8>, Fail>
    requires { AreNames alg.now.order.vars (map string_bytes names.now) }
{
    Ok(match kind {
        "poly" => poly_text(
            alloc,
            alg,
            names,
            &poly(alloc, alg.field(), alg.order(), input)?,
        )?,
        "ideal" => ideal_text(alloc, alg, names, b"_", &polys(alloc, alg, input)?)?,
        "rows" => rows_text(alloc, alg, names, b"_", &rows(alloc, alg, input)?)?,
        _ => ring_text(alloc, alg, names, blocks)?,
    })
}

// The characteristic, the number of variables, the order, the relations, what is printed, and its
// text, with `;` for a line feed. Names are x and d, or e, f and h.
const TEXTS: &str = "\
7|2|dp 1 1|1 1:00|poly|1:11+1:00|x*d+1
7|2|dp 1 1|1 1:00|poly|6:20|-x^2
7|2|dp 1 1|1 1:00|poly|0:00|0
7|2|dp 1 1|1 1:00|poly|3:10+5:00|3*x-2
7|2|dp 1 1|1 1:00|poly|6:00|-1
7|2|dp 1 1|1 1:00|poly|1:00|1
7|2|dp 1 1|1 1:00|poly|2:11+6:01+1:00|2*x*d-d+1
7|2|lp 1 1||poly|1:60+2:50+3:40+4:30+5:20+6:10|x^6+2*x^5+3*x^4-3*x^3-2*x^2-x
2|2|dp 1 1||poly|1:11+1:10+1:00|x*d+x+1
65521|2|dp 1 1||poly|32760:20+32761:10+65520:01+65520:00|32760*x^2-32760*x-d-1
7|3|lp 1 1 1||poly|1:002+1:010+1:100|e+f+h^2
7|3|dp 1 1 1||poly|1:200+1:101+1:020+1:001|e^2+f^2+e*h+h
7|3|Dp 1 1 1||poly|1:200+1:101+1:020+1:001|e^2+e*h+f^2+h
7|3|wp 1 2 3||poly|1:500+1:101+1:020+1:001|e^5+f^2+e*h+h
7|3|Wp 1 2 3||poly|1:500+1:101+1:020+1:001|e^5+e*h+f^2+h
7|3|a 0 0 1,lp 1 1 1||poly|1:500+1:101+1:020+1:001|e*h+h+e^5+f^2
7|2|dp 1 1|1 1:00|ideal|1:01 6:10+1:00|_[1]=d;_[2]=-x+1;
7|2|dp 1 1|1 1:00|ideal||_[1]=0;
7|2|dp 1 1|1 1:00|rows|1:01 6:10|_[1]=[d,-x];
7|2|dp 1 1|1 1:00|rows|0:00 6:10,1:00|_[1]=[0,-x];_[2]=[1];
7|2|dp 1 1|1 1:00|rows||_[1]=0;
7|2|dp 1 1|1 1:00|ring||// characteristic 7;// variables x,d;// order (dp(2));// d*x=x*d+1;
5|2|a 1 0,wp 1 2|3 0:00|ring||// characteristic 5;// variables x,d;// order (a(1,0),wp(1,2));// d*x=-2*x*d;
7|3|dp 1 1 1|6:001 2:100 5:010|ring||// characteristic 7;// variables e,f,h;// order (dp(3));// f*e=e*f-h;// h*e=e*h+2*e;// h*f=f*h-2*f;
65521|3|lp 1,Dp 1,Wp 4||ring||// characteristic 65521;// variables e,f,h;// order (lp(1),Dp(1),Wp(4));
";

#[test]
fn worked_texts(rt: HostRuntime) -> Result<(), Fail> {
    let alloc = rt.alloc();
    for row in TEXTS.lines() {
        let fields: Vec<&str> = row.split('|').collect(alloc)?;
        let [p, n, order, relations, kind, input, text] = fields.as_slice() else {
            return Err("a row has seven fields".into());
        };
        let want = text.replace(alloc, ";", "\n")?;
        let made = made_text(alloc, p.parse()?, n.parse()?, order, relations, kind, input)?;
        assert_eq!(rt; made.as_slice(), want.as_bytes(), "{row}");
    }
    Ok(())
}

// The text of what is printed in the ring of a row.
fn made_text(
    alloc: Global,
    p: u32,
    n: usize,
    order: &str,
    relations: &str,
    kind: &str,
    input: &str,
) -> Result<Vec<u8>, Fail> {
    let names = names(alloc, n)?;
    let blocks = blocks(alloc, order)?;
    let order = Order::new(alloc, &blocks, n)?;
    let alg = algebra(alloc, Field::of(p)?, order, n, relations)?;
    text_of(alloc, &alg, &names, &blocks, kind, input)
}
