//! Worked lists. A polynomial in x, y and z is a text of its terms, each a number and the three
//! digits of its exponents.

ghost use Rattle.std.specs.Prelude.{◌≡◌, ◌<◌, ◌≤◌, length, IfOk};
ghost use Rattle.monomials.specs.Monomials.{degree};
ghost use Rattle.monomials.specs.Polynomials.{Each, IsPolynomial};
ghost use Rattle.word_model.specs.Machine.{IsElement};
ghost use Rattle.word_model.specs.declared.records.Outcome.TheVariants.{Finished as Ended};

use crate::reduced;
use algebra::{Algebra, ProductFault, Relations};
use gpoly::{GPoly, Term};
use gproduct::{Steps, Table};
use monomials::{Block, Expo, Order};
use prime_field::Field;
use run_records::{Finished, Journal, Outcome, TraceStep};
use std::alloc::{AllocError, Global};
use std::marker::Brand;
use std::sync::ledger::{Blank, Ledger};
use std::test::Fail;

// The monomial with these digits as exponents.
fn monomial(x: u8, y: u8, z: u8) -> Expo
    ensures vars { length result ≡ 3 }
    ensures small { degree result ≤ 4095 }
{
    let digit = |byte: u8| u16::from(byte.saturating_sub(b'0'));
    Expo::of(&[digit(x), digit(y), digit(z)])
}

// The polynomial with one term, as `2:100` for 2 x.
fn term(alloc: Global, field: Field, order: &Order, text: &str) -> Result<GPoly, Fail>
    requires { order.now.vars ≡ 3 }
    ensures { IfOk result (λ f. IsPolynomial field order.now f) }
{
    let (number, exponents) = text.split_once(':').ok_or("a term has a colon")?;
    let [x, y, z] = exponents.as_bytes() else {
        return Err("a term has three exponents".into());
    };
    let coef = field.from_int(number.parse::<u64>()?);
    let mono = monomial(*x, *y, *z);
    let term = GPoly::from_terms(alloc, field, order, &[Term { coef, mono }])?;
    Ok(term)
}

// The sum of the terms, as `1:110 1:000` for x y + 1.
fn poly(alloc: Global, field: Field, order: &Order, text: &str) -> Result<GPoly, Fail>
    requires { order.now.vars ≡ 3 }
    ensures { IfOk result (λ f. IsPolynomial field order.now f) }
{
    let mut sum = GPoly::zero(alloc);
    for piece in text.split(' ') {
        let part = term(alloc, field, order, piece)?;
        sum = sum.add(alloc, field, order, &part)?;
    }
    Ok(sum)
}

// The algebra over the field with 7 elements in which y x = x y + `d`, and z commutes.
fn algebra(alloc: Global, d: &str) -> Result<Algebra, Fail>
    ensures { IfOk result (λ a. a.order.vars ≡ 3) }
{
    let field = Field::of(7)?;
    let order = Order::new(alloc, &[Block::DegRev { len: 3 }], 3)?;
    let d_xy = poly(alloc, field, &order, d)?;
    let (d_xz, d_yz) = (GPoly::zero(alloc), GPoly::zero(alloc));
    let c = Vec::from_array(alloc, [1, 1, 1])?;
    let d = Vec::from_array(alloc, [d_xy, d_xz, d_yz]).map_err(AllocError::from)?;
    Ok(Algebra::new(alloc, field, order, 3, Relations { c, d })?)
}

// A polynomial that is not zero.
fn element(alloc: Global, algebra: &Algebra, text: &str) -> Result<GPoly, Fail>
    requires { algebra.now.order.vars ≡ 3 }
    ensures { IfOk result (λ f. IsElement algebra.now f) }
{
    let f = poly(alloc, algebra.field(), algebra.order(), text)?;
    if f.is_zero() {
        return Err("an element is not zero".into());
    }
    Ok(f)
}

// The polynomials of a text, with commas between them.
fn basis(alloc: Global, algebra: &Algebra, text: &str) -> Result<Vec<GPoly>, Fail>
    requires { algebra.now.order.vars ≡ 3 }
    ensures { IfOk result (λ v. Each (IsElement algebra.now) v.items) }
{
    let mut basis = Vec::new(alloc);
    for piece in text.split(',') {
        basis.push(element(alloc, algebra, piece)?)?;
    }
    Ok(basis)
}

// A step of a tail, as `6:010@3` for 6 y times the element of number 3.
fn step(text: &str) -> Result<TraceStep, Fail> {
    let (term, index) = text.split_once('@').ok_or("a step has a number")?;
    let (coef, exponents) = term.split_once(':').ok_or("a step has a colon")?;
    let [x, y, z] = exponents.as_bytes() else {
        return Err("a step has three exponents".into());
    };
    Ok(TraceStep {
        coef: coef.parse()?,
        mono: monomial(*x, *y, *z),
        index: index.parse()?,
    })
}

// The steps of a tail.
fn steps(alloc: Global, text: &str) -> Result<Vec<TraceStep>, Fail> {
    let mut steps = Vec::new(alloc);
    for piece in text.split_whitespace() {
        steps.push(step(piece)?)?;
    }
    Ok(steps)
}

// Of each row the polynomial d of the relation y x = x y + d, a basis, and the list: each element
// with its number in the basis and the steps of its tail.
const LISTS: &str = "\
1:000|1:020,1:110,1:010|1:010;3;
0:000|1:100 6:010,1:010 6:001,1:001 6:000|1:001 6:000;3;,1:010 6:000;2;6:000@3,1:100 6:000;1;6:000@2 6:000@3
0:000|1:200 1:020,1:010 6:001,1:001 6:000|1:001 6:000;3;,1:010 6:000;2;6:000@3,1:200 1:000;1;1:010@2 1:001@2 1:001@3 1:000@3
1:000|1:003 1:110,1:100|1:100;2;,1:003 6:000;1;1:010@2
0:000|1:100 1:000,2:100 1:001|1:100 1:000;1;";

#[test]
fn worked_lists(rt: HostRuntime) -> Result<(), Fail> {
    let alloc = rt.alloc();
    for row in LISTS.lines() {
        let fields: Vec<&str> = row.split('|').collect(alloc)?;
        let [d, elements, list] = fields.as_slice() else {
            return Err("a row has three fields".into());
        };
        let algebra = algebra(alloc, d)?;
        let basis = basis(alloc, &algebra, elements)?;
        let finished = finished_list(alloc, &algebra, basis)?;
        assert_eq!(rt; finished.list.len(), list.split(',').count());
        assert!(rt; has_items(alloc, &algebra, &finished, list)?, "{row}");
    }
    Ok(())
}

// The finished list of a basis.
fn finished_list(alloc: Global, algebra: &Algebra, basis: Vec<GPoly>) -> Result<Finished, Fail>
    requires { Each (IsElement algebra.now) basis.items }
{
    if basis.len() > 2048 {
        return Err("a basis is short".into());
    }
    let journal = Journal {
        entries: Vec::new(alloc),
        basis,
        outcome: Outcome::Finished,
    };
    Ok(counted::<Brand>(alloc, algebra, &journal, Blank::new(1))?)
}

// The same, with a counter on the blank.
fn counted<L: Ledger>(
    alloc: Global,
    algebra: &Algebra,
    journal: &Journal,
    blank: Blank,
) -> Result<Finished, ProductFault>
    requires finished { journal.now.outcome ≡ Ended }
    requires elements { Each (IsElement algebra.now) journal.now.basis }
    requires few { length journal.now.basis ≤ 2048 }
    requires name { blank.name ≡ L.name }
    requires parts { blank.parts ≡ L.parts }
    requires some { 0 < blank.parts }
{
    let table = Table::new(alloc, algebra)?;
    let mut seat = table.seat(alloc)?;
    let mut steps = Steps::<L>::start(blank);
    reduced(alloc, &mut seat, journal, &mut steps)
}

// Whether these items are the first of the list.
fn has_items(
    alloc: Global,
    algebra: &Algebra,
    finished: &Finished,
    items: &str,
) -> Result<bool, Fail>
    requires { algebra.now.order.vars ≡ 3 }
{
    for (place, item) in items.split(',').enumerate() {
        if !has_item(alloc, algebra, finished, place, item)? {
            return Ok(false);
        }
    }
    Ok(true)
}

// Whether the list has this item at this place.
fn has_item(
    alloc: Global,
    algebra: &Algebra,
    finished: &Finished,
    place: usize,
    item: &str,
) -> Result<bool, Fail>
    requires { algebra.now.order.vars ≡ 3 }
{
    let (polynomial, others) = item.split_once(';').ok_or("an item has three parts")?;
    let (origin, tail) = others.split_once(';').ok_or("an item has three parts")?;
    let polynomial = poly(alloc, algebra.field(), algebra.order(), polynomial)?;
    let origin = origin.parse::<u32>()?;
    let tail = steps(alloc, tail)?;
    let found = finished.list.get(place).ok_or("the list is too short")?;
    let number = finished.origin.get(place).ok_or("an origin is missing")?;
    let trace = finished.tails.get(place).ok_or("a tail is missing")?;
    Ok(found.equals(&polynomial) && *number == origin && trace.steps() == tail.as_slice())
}

// The difference of two power products.
fn difference(alloc: Global, algebra: &Algebra, f: Expo, g: Expo) -> Result<GPoly, Fail>
    requires f_vars { length f ≡ algebra.now.order.vars }
    requires g_vars { length g ≡ algebra.now.order.vars }
    requires f_small { degree f ≤ 4095 }
    requires g_small { degree g ≤ 4095 }
    ensures { IfOk result (λ r. IsElement algebra.now r) }
{
    let _n = algebra.n();
    let minus_one = algebra.field().neg(1);
    let terms = [
        Term { coef: 1, mono: f },
        Term {
            coef: minus_one,
            mono: g,
        },
    ];
    let difference = GPoly::from_terms(alloc, algebra.field(), algebra.order(), &terms)?;
    if difference.is_zero() {
        return Err("an element is not zero".into());
    }
    Ok(difference)
}

// x - y^4000 and z - x^2 by lp with z > x > y: the second step of the tail of z - x^2 has a degree of 8000.
#[test]
fn lists_within_the_degree(rt: HostRuntime) -> Result<(), Fail> {
    let alloc = rt.alloc();
    let order = Order::new(alloc, &[Block::Lex { len: 3 }], 3)?;
    let ring = Algebra::commuting(alloc, Field::of(7)?, order, 3)?;
    let x = difference(alloc, &ring, Expo::of(&[0, 1, 0]), Expo::of(&[0, 0, 4000]))?;
    let z = difference(alloc, &ring, Expo::of(&[1, 0, 0]), Expo::of(&[0, 2, 0]))?;
    let journal = Journal {
        entries: Vec::new(alloc),
        basis: Vec::from_array(alloc, [x, z]).map_err(AllocError::from)?,
        outcome: Outcome::Finished,
    };
    let blank = Blank::new(1);
    match counted::<Brand>(alloc, &ring, &journal, blank) {
        Ok(_) => Err("the degrees add up to 8000".into()),
        Err(ProductFault::DegreeOver) => Ok(()),
        Err(ProductFault::Memory) => Err("there is memory".into()),
    }
}
