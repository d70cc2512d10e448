//! Worked rows. A polynomial in x, y and z is a text of its terms, each a number and the three
//! digits of its exponents.

ghost use Rattle.std.specs.Prelude.{◌≡◌, ◌<◌, ◌≤◌, length, IfOk};
ghost use Rattle.monomials.specs.Monomials.{degree};
ghost use Rattle.monomials.specs.Polynomials.{Each, IsPolynomial};

use crate::check_row;
use algebra::{Algebra, ProductFault, Relations};
use gpoly::{GPoly, Term};
use gproduct::{Steps, Table};
use monomials::{Block, Expo, Order};
use prime_field::Field;
use run_records::Row;
use std::alloc::{AllocError, Global};
use std::marker::Brand;
use std::sync::ledger::{Blank, Ledger};
use std::test::Fail;

// The monomial with these digits as exponents.
fn monomial(x: u8, y: u8, z: u8) -> Expo
    ensures vars { length result ≡ 3 }
    ensures small { degree result ≤ 4095 }
{
    let digit = |byte: u8| u16::from(byte.saturating_sub(b'0'));
    Expo::of(&[digit(x), digit(y), digit(z)])
}

// The polynomial with one term, as `2:100` for 2 x.
fn term(alloc: Global, field: Field, order: &Order, text: &str) -> Result<GPoly, Fail>
    requires { order.now.vars ≡ 3 }
    ensures { IfOk result (λ f. IsPolynomial field order.now f) }
{
    let (number, exponents) = text.split_once(':').ok_or("a term has a colon")?;
    let [x, y, z] = exponents.as_bytes() else {
        return Err("a term has three exponents".into());
    };
    let coef = field.from_int(number.parse::<u64>()?);
    let mono = monomial(*x, *y, *z);
    let term = GPoly::from_terms(alloc, field, order, &[Term { coef, mono }])?;
    Ok(term)
}

// The sum of the terms, as `1:110 1:000` for x y + 1.
fn poly(alloc: Global, field: Field, order: &Order, text: &str) -> Result<GPoly, Fail>
    requires { order.now.vars ≡ 3 }
    ensures { IfOk result (λ f. IsPolynomial field order.now f) }
{
    let mut sum = GPoly::zero(alloc);
    for piece in text.split(' ') {
        let part = term(alloc, field, order, piece)?;
        sum = sum.add(alloc, field, order, &part)?;
    }
    Ok(sum)
}

// The algebra over the field with 7 elements in which y x = x y + `d`, and z commutes.
fn algebra(alloc: Global, d: &str) -> Result<Algebra, Fail>
    ensures { IfOk result (λ a. a.order.vars ≡ 3) }
{
    let field = Field::of(7)?;
    let order = Order::new(alloc, &[Block::DegRev { len: 3 }], 3)?;
    let d_xy = poly(alloc, field, &order, d)?;
    let (d_xz, d_yz) = (GPoly::zero(alloc), GPoly::zero(alloc));
    let c = Vec::from_array(alloc, [1, 1, 1])?;
    let d = Vec::from_array(alloc, [d_xy, d_xz, d_yz]).map_err(AllocError::from)?;
    Ok(Algebra::new(alloc, field, order, 3, Relations { c, d })?)
}

// The polynomials of a text, with commas between them.
fn polys(alloc: Global, algebra: &Algebra, text: &str) -> Result<Vec<GPoly>, Fail>
    requires { algebra.now.order.vars ≡ 3 }
    ensures { IfOk result (λ v. Each (IsPolynomial algebra.now.p algebra.now.order) v.items) }
{
    let mut polys = Vec::new(alloc);
    for piece in text.split(',') {
        polys.push(poly(alloc, algebra.field(), algebra.order(), piece)?)?;
    }
    Ok(polys)
}

// Of each line the polynomial d of the relation y x = x y + `d`, the generators, a row, an element,
// and whether the element is the row's value.
const ROWS: &str = "\
1:000|1:110,1:020|1:010,6:100|1:010|yes
1:000|1:110,1:020|1:010,1:100|1:010|no
1:000|1:110,1:020|0:000,0:000|1:010|no
1:000|1:110,1:020|0:000,0:000|0:000|yes
1:000|1:100|1:010|1:110 1:000|yes
1:000|1:010|1:100|1:110 1:000|no
0:000|1:100 6:010,1:010 6:001,1:001 6:000|1:000,1:000,1:000|1:100 6:000|yes
0:000|0:000|1:100|0:000|yes";

#[test]
fn worked_rows(rt: HostRuntime) -> Result<(), Fail> {
    let alloc = rt.alloc();
    for line in ROWS.lines() {
        let fields: Vec<&str> = line.split('|').collect(alloc)?;
        let [d, gens, entries, element, want] = fields.as_slice() else {
            return Err("a line has five fields".into());
        };
        let algebra = algebra(alloc, d)?;
        let holds = holds(alloc, &algebra, gens, entries, element)?;
        assert!(rt; holds == (*want == "yes"), "{line}");
    }
    Ok(())
}

// Whether the element is the value of the row over the generators.
fn holds(
    alloc: Global,
    algebra: &Algebra,
    gens: &str,
    entries: &str,
    element: &str,
) -> Result<bool, Fail>
    requires { algebra.now.order.vars ≡ 3 }
{
    let gens = polys(alloc, algebra, gens)?;
    let row = Row {
        entries: polys(alloc, algebra, entries)?,
    };
    let element = poly(alloc, algebra.field(), algebra.order(), element)?;
    if row.entries.len() != gens.len() {
        return Err("a row has an entry for each generator".into());
    }
    let holds = counted::<Brand>(alloc, algebra, &gens, &row, &element, Blank::new(1))?;
    Ok(holds)
}

// The same, with a counter on the blank.
fn counted<L: Ledger>(
    alloc: Global,
    algebra: &Algebra,
    gens: &[GPoly],
    row: &Row,
    element: &GPoly,
    blank: Blank,
) -> Result<bool, ProductFault>
    requires generators { Each (IsPolynomial algebra.now.p algebra.now.order) gens.now }
    requires entries { Each (IsPolynomial algebra.now.p algebra.now.order) row.now }
    requires element { IsPolynomial algebra.now.p algebra.now.order element.now }
    requires one_each { length row.now ≡ length gens.now }
    requires name { blank.name ≡ L.name }
    requires parts { blank.parts ≡ L.parts }
    requires some { 0 < blank.parts }
{
    let table = Table::new(alloc, algebra)?;
    let mut seat = table.seat(alloc)?;
    let mut steps = Steps::<L>::start(blank);
    check_row(alloc, &mut seat, gens, row, element, &mut steps)
}

// The monomial x^3000.
fn high(alloc: Global, algebra: &Algebra) -> Result<GPoly, Fail>
    requires { algebra.now.order.vars ≡ 3 }
    ensures { IfOk result (λ f. IsPolynomial algebra.now.p algebra.now.order f) }
{
    let mono = Expo::of(&[3000, 0, 0]);
    if mono.degree() > 4095 {
        return Err("the degree is 3000".into());
    }
    let power = GPoly::from_terms(
        alloc,
        algebra.field(),
        algebra.order(),
        &[Term { coef: 1, mono }],
    )?;
    Ok(power)
}

// The entry x^3000 over the generator x^3000: their degrees add up to 6000.
#[test]
fn rows_within_the_degree(rt: HostRuntime) -> Result<(), Fail> {
    let alloc = rt.alloc();
    let algebra = algebra(alloc, "0:000")?;
    let f = high(alloc, &algebra)?;
    let gens = Vec::from_array(alloc, [high(alloc, &algebra)?]).map_err(AllocError::from)?;
    let entries = Vec::from_array(alloc, [high(alloc, &algebra)?]).map_err(AllocError::from)?;
    let row = Row { entries };
    let blank = Blank::new(1);
    match counted::<Brand>(alloc, &algebra, &gens, &row, &f, blank) {
        Ok(_) => Err("the degrees add up to 6000".into()),
        Err(ProductFault::DegreeOver) => Ok(()),
        Err(ProductFault::Memory) => Err("there is memory".into()),
    }
}
