//! Worked starts and reductions modulo 7, in x, y and z with y x = x y + 1. Tables are texts: a polynomial is its terms,
//! each a number and the three digits of its exponents, and a step is a term with the number of an element behind it.

ghost use Rattle.std.specs.Prelude.{◌≡◌, ◌≢◌, ◌+◌, ◌<◌, ◌≤◌, [], length, IfOk};
ghost use Rattle.monomials.specs.Monomials.{degree};
ghost use Rattle.monomials.specs.Polynomials.{Each, IsPolynomial};
ghost use Rattle.word_model.specs.Reduction.{element};
ghost use Rattle.word_model.specs.Jobs.{IsJob, NamesNonzero};

use super::*;
use algebra::{Algebra, ProductFault, Relations};
use gpoly::{GPoly, Term};
use gproduct::{Steps, Table, TableSeat};
use monomials::{Block, Order};
use prime_field::Field;
use run_records::{Job, Trace};
use std::alloc::{AllocError, Global};
use std::marker::Brand;
use std::sync::ledger::{Blank, Ledger};
use std::test::Fail;

// The monomial with these digits as exponents.
fn monomial(x: u8, y: u8, z: u8) -> Expo
    ensures vars { length result ≡ 3 }
    ensures small { degree result ≤ 4095 }
{
    let digit = |byte: u8| u16::from(byte.saturating_sub(b'0'));
    Expo::of(&[digit(x), digit(y), digit(z)])
}

// The polynomial with one term, as `2:100` for 2 x.
fn term(alloc: Global, field: Field, order: &Order, text: &str) -> Result<GPoly, Fail>
    requires { order.now.vars ≡ 3 }
    ensures { IfOk result (λ f. IsPolynomial field order.now f) }
{
    let (number, exponents) = text.split_once(':').ok_or("a term has a colon")?;
    let [x, y, z] = exponents.as_bytes() else {
        return Err("a term has three exponents".into());
    };
    let coef = field.from_int(number.parse::<u64>()?);
    let mono = monomial(*x, *y, *z);
    let term = GPoly::from_terms(alloc, field, order, &[Term { coef, mono }])?;
    Ok(term)
}

// The sum of the terms, as `1:110 1:000` for x y + 1.
fn poly(alloc: Global, field: Field, order: &Order, text: &str) -> Result<GPoly, Fail>
    requires { order.now.vars ≡ 3 }
    ensures { IfOk result (λ f. IsPolynomial field order.now f) }
{
    let mut sum = GPoly::zero(alloc);
    for piece in text.split(' ') {
        let part = term(alloc, field, order, piece)?;
        sum = sum.add(alloc, field, order, &part)?;
    }
    Ok(sum)
}

// The algebra with y x = x y + 1, where z commutes.
fn weyl(alloc: Global) -> Result<Algebra, Fail>
    ensures { IfOk result (λ a. a.order.vars ≡ 3) }
{
    let field = Field::of(7)?;
    let order = Order::new(alloc, &[Block::DegRev { len: 3 }], 3)?;
    let one = poly(alloc, field, &order, "1:000")?;
    let (zero, none) = (GPoly::zero(alloc), GPoly::zero(alloc));
    let c = Vec::from_array(alloc, [1, 1, 1])?;
    let d = Vec::from_array(alloc, [one, zero, none]).map_err(AllocError::from)?;
    Ok(Algebra::new(alloc, field, order, 3, Relations { c, d })?)
}

// Adds a term's number and exponents.
fn push_term(text: &mut String, coef: u32, mono: &Expo) -> Result<(), AllocError> {
    write!(text, "{coef}:")?;
    for v in 1..=mono.len() as u8 {
        write!(text, "{}", mono.get(v))?;
    }
    Ok(())
}

// The terms of a polynomial, each with a space behind it.
fn poly_text(alloc: Global, f: &GPoly) -> Result<String, AllocError> {
    let mut text = String::new(alloc);
    for term in f.terms() {
        push_term(&mut text, term.coef, &term.mono)?;
        text.push(' ')?;
    }
    Ok(text)
}

// The steps, each with a space behind it.
fn trace_text(alloc: Global, trace: &Trace) -> Result<String, AllocError> {
    let mut text = String::new(alloc);
    for step in trace.steps() {
        push_term(&mut text, step.coef, &step.mono)?;
        write!(text, ":{} ", step.index)?;
    }
    Ok(text)
}

// Two elements that are not zero.
fn two(alloc: Global, alg: &Algebra, f: GPoly, g: GPoly) -> Result<Vec<GPoly>, Fail>
    requires f_sorted { IsPolynomial alg.now.p alg.now.order f }
    requires g_sorted { IsPolynomial alg.now.p alg.now.order g }
    ensures sorted { IfOk result (λ v. Each (IsPolynomial alg.now.p alg.now.order) v.items) }
    ensures count { IfOk result (λ v. length v.items ≡ 2) }
    ensures first { IfOk result (λ v. element v.items 1 ≢ []) }
    ensures second { IfOk result (λ v. element v.items 2 ≢ []) }
{
    if f.is_zero() || g.is_zero() {
        return Err("the elements are not zero".into());
    }
    let elements = Vec::from_array(alloc, [f, g]).map_err(AllocError::from)?;
    Ok(elements)
}

// The start of a job at a table of its own, with a counter on the blank.
fn counted_start<L: Ledger>(
    alloc: Global,
    alg: &Algebra,
    basis: &Vec<GPoly>,
    job: &Job,
    blank: Blank,
) -> Result<GPoly, ProductFault>
    requires sorted { Each (IsPolynomial alg.now.p alg.now.order) basis.now.items }
    requires in_range { IsJob (length basis.now.items) (length basis.now.items) alg.now.order.vars job.now }
    requires nonzero { NamesNonzero basis.now.items basis.now.items job.now }
    requires name { blank.name ≡ L.name }
    requires parts { blank.parts ≡ L.parts }
    requires some { 0 < blank.parts }
{
    let table = Table::new(alloc, alg)?;
    let mut seat = table.seat(alloc)?;
    let mut steps = Steps::<L>::start(blank);
    start_of(alloc, &mut seat, basis, basis, job, &mut steps)
}

// The start of a job.
fn start(alloc: Global, alg: &Algebra, basis: &Vec<GPoly>, job: &Job) -> Result<GPoly, ProductFault>
    requires sorted { Each (IsPolynomial alg.now.p alg.now.order) basis.now.items }
    requires in_range { IsJob (length basis.now.items) (length basis.now.items) alg.now.order.vars job.now }
    requires nonzero { NamesNonzero basis.now.items basis.now.items job.now }
{
    counted_start::<Brand>(alloc, alg, basis, job, Blank::new(1))
}

// The terms of a start.
fn start_text(alloc: Global, alg: &Algebra, basis: &Vec<GPoly>, job: &Job) -> Result<String, Fail>
    requires sorted { Each (IsPolynomial alg.now.p alg.now.order) basis.now.items }
    requires in_range { IsJob (length basis.now.items) (length basis.now.items) alg.now.order.vars job.now }
    requires nonzero { NamesNonzero basis.now.items basis.now.items job.now }
{
    let start = start(alloc, alg, basis, job)?;
    Ok(poly_text(alloc, &start)?)
}

#[test]
fn starts(rt: HostRuntime) -> Result<(), Fail> {
    let alloc = rt.alloc();
    let alg = weyl(alloc)?;
    let f = poly(alloc, alg.field(), alg.order(), "1:020")?;
    let g = poly(alloc, alg.field(), alg.order(), "2:110")?;
    let basis = two(alloc, &alg, f, g)?;
    let seed = start_text(alloc, &alg, &basis, &Job::Seed { s: 2 })?;
    assert_eq!(rt; seed.as_str(), "2:110 ");
    let pair = start_text(alloc, &alg, &basis, &Job::Pair { i: 1, j: 2 })?;
    assert_eq!(rt; pair.as_str(), "6:010 ");
    let right = start_text(alloc, &alg, &basis, &Job::Right { i: 2, v: 1 })?;
    assert_eq!(rt; right.as_str(), "2:210 2:100 ");
    Ok(())
}

// Three elements, which have a semicolon between them.
fn three(alloc: Global, alg: &Algebra, text: &str) -> Result<Vec<GPoly>, Fail>
    requires { alg.now.order.vars ≡ 3 }
    ensures sorted { IfOk result (λ v. Each (IsPolynomial alg.now.p alg.now.order) v.items) }
    ensures count { IfOk result (λ v. length v.items ≡ 3) }
{
    let (first, others) = text.split_once(';').ok_or("there are three elements")?;
    let (second, third) = others.split_once(';').ok_or("there are three elements")?;
    let first = poly(alloc, alg.field(), alg.order(), first)?;
    let second = poly(alloc, alg.field(), alg.order(), second)?;
    let third = poly(alloc, alg.field(), alg.order(), third)?;
    let elements = Vec::from_array(alloc, [first, second, third]).map_err(AllocError::from)?;
    Ok(elements)
}

// Steps and what they leave, with a bar between.
fn told(alloc: Global, trace: &Trace, rest: &GPoly) -> Result<String, AllocError> {
    let trace = trace_text(alloc, trace)?;
    let rest = poly_text(alloc, rest)?;
    format!(in alloc; "{trace}|{rest}")
}

// The same of a reduction, with its end behind another bar.
fn reduced_text(alloc: Global, reduced: &Reduced) -> Result<String, AllocError> {
    let told = told(alloc, &reduced.trace, &reduced.rest)?;
    format!(in alloc; "{told}|{:?}", reduced.ended)
}

// A reduction by the first element alone, which goes on by all.
fn goes_on<L: Ledger>(
    alloc: Global,
    seat: &mut TableSeat,
    basis: &Vec<GPoly>,
    h: GPoly,
    steps: &mut Steps<L>,
) -> Result<Reduced, AllocError>
    requires count { length basis.now.items ≡ 3 }
    requires sorted { Each (IsPolynomial seat.old.algebra.p seat.old.algebra.order) basis.now.items }
    requires h_sorted { IsPolynomial seat.old.algebra.p seat.old.algebra.order h }
{
    let mut first = Vec::with_capacity(alloc, 1)?;
    first.push(basis.at(1).copy(alloc)?)?;
    let made = reduce_from(alloc, seat, &first, h, Trace::new(alloc), steps)?;
    reduce_from(alloc, seat, basis, made.rest, made.trace, steps)
}

// What is reduced.
#[derive(Clone, Copy)]
enum Kind {
    Lead,
    GoesOn,
    Normal,
    Tail,
}

// The kind that a row names.
fn kind_of(word: &str) -> Kind {
    match word {
        "lead" => Kind::Lead,
        "on" => Kind::GoesOn,
        "normal" => Kind::Normal,
        _ => Kind::Tail,
    }
}

// A reduction of this kind.
fn reduction<L: Ledger>(
    alloc: Global,
    seat: &mut TableSeat,
    kind: Kind,
    basis: &Vec<GPoly>,
    h: GPoly,
    steps: &mut Steps<L>,
) -> Result<String, Fail>
    requires count { length basis.now.items ≡ 3 }
    requires sorted { Each (IsPolynomial seat.old.algebra.p seat.old.algebra.order) basis.now.items }
    requires h_sorted { IsPolynomial seat.old.algebra.p seat.old.algebra.order h }
{
    let text = match kind {
        Kind::Lead => {
            let reduced = reduce_from(alloc, seat, basis, h, Trace::new(alloc), steps)?;
            reduced_text(alloc, &reduced)?
        }
        Kind::GoesOn => reduced_text(alloc, &goes_on(alloc, seat, basis, h, steps)?)?,
        Kind::Normal => {
            let (rest, trace) = normal_form(alloc, seat, basis, &h, steps)?;
            told(alloc, &trace, &rest)?
        }
        Kind::Tail => {
            let (rest, trace) = reduce_tail(alloc, seat, basis, &h, steps)?;
            told(alloc, &trace, &rest)?
        }
    };
    Ok(text)
}

// The same at a table of its own, with a counter on the blank.
fn counted_reduction<L: Ledger>(
    alloc: Global,
    alg: &Algebra,
    kind: Kind,
    basis: &Vec<GPoly>,
    h: GPoly,
    blank: Blank,
) -> Result<String, Fail>
    requires count { length basis.now.items ≡ 3 }
    requires sorted { Each (IsPolynomial alg.now.p alg.now.order) basis.now.items }
    requires h_sorted { IsPolynomial alg.now.p alg.now.order h }
    requires name { blank.name ≡ L.name }
    requires parts { blank.parts ≡ L.parts }
    requires some { 0 < blank.parts }
{
    let table = Table::new(alloc, alg)?;
    let mut seat = table.seat(alloc)?;
    let mut steps = Steps::<L>::start(blank);
    reduction(alloc, &mut seat, kind, basis, h, &mut steps)
}

// A row's reduction.
fn row_text(
    alloc: Global,
    alg: &Algebra,
    kind: &str,
    elements: &str,
    h: &str,
) -> Result<String, Fail>
    requires { alg.now.order.vars ≡ 3 }
{
    let basis = three(alloc, alg, elements)?;
    let h = poly(alloc, alg.field(), alg.order(), h)?;
    counted_reduction::<Brand>(alloc, alg, kind_of(kind), &basis, h, Blank::new(1))
}

// What is reduced: the leading term, also after a reduction by the first element, all terms or the tail; three elements;
// a polynomial; and its steps, what they leave, and how it ended.
const REDUCTIONS: &str = "\
lead/1:110;1:010;0:000/1:120/1:010:1 6:000:2 ||Zero
lead/0:000;1:110;1:010/1:120/1:010:2 6:000:3 ||Zero
lead/2:110;1:001;0:000/1:120 1:001/4:010:1 |6:010 1:001 |Irreducible
lead/1:001;1:001;0:000/1:100 1:001/|1:100 1:001 |Irreducible
on/1:110;1:010;0:000/1:120/1:010:1 6:000:2 ||Zero
on/1:010;1:110;1:001/1:120 1:100/1:110:1 |1:100 |Irreducible
normal/1:010;0:000;0:000/1:200 1:010/1:000:1 |1:200 
normal/1:001;1:010;1:110/1:110 1:010 1:001/1:100:2 1:000:2 1:000:1 |
tail/1:100 6:010;1:010 6:001;1:001 6:000/1:100 6:010/6:000:2 6:000:3 |1:100 6:000 
tail/1:001;1:010;1:110/1:110 1:010 1:001/1:000:2 1:000:1 |1:110 ";

#[test]
fn reduces_leading_terms_all_terms_and_tails(rt: HostRuntime) -> Result<(), Fail> {
    let alloc = rt.alloc();
    let alg = weyl(alloc)?;
    for row in REDUCTIONS.lines() {
        let fields: Vec<&str> = row.split('/').collect(alloc)?;
        let [kind, elements, h, want] = fields.as_slice() else {
            return Err("a row has four fields".into());
        };
        let got = row_text(alloc, &alg, kind, elements, h)?;
        assert_eq!(rt; got.as_str(), *want, "{row}");
    }
    Ok(())
}

// A power product as a polynomial.
fn power(alloc: Global, alg: &Algebra, x: u16, y: u16, z: u16) -> Result<GPoly, Fail>
    requires vars { alg.now.order.vars ≡ 3 }
    requires small { x + y + z ≤ 4095 }
    ensures { IfOk result (λ f. IsPolynomial alg.now.p alg.now.order f) }
{
    let mono = Expo::of(&[x, y, z]);
    let _n = alg.n();
    let power = GPoly::from_terms(alloc, alg.field(), alg.order(), &[Term { coef: 1, mono }])?;
    Ok(power)
}

#[test]
fn starts_within_the_degree(rt: HostRuntime) -> Result<(), Fail> {
    let alloc = rt.alloc();
    let alg = weyl(alloc)?;
    let f = power(alloc, &alg, 3000, 0, 0)?;
    let g = power(alloc, &alg, 0, 0, 3000)?;
    let basis = two(alloc, &alg, f, g)?;
    match start(alloc, &alg, &basis, &Job::Pair { i: 1, j: 2 }) {
        Ok(_) => Err("the degrees add up to 6000".into()),
        Err(ProductFault::DegreeOver) => Ok(()),
        Err(ProductFault::Memory) => Err("there is memory".into()),
    }
}

// The polynomial ring in which x is above all powers of y and z.
fn blocks(alloc: Global) -> Result<Algebra, Fail>
    ensures { IfOk result (λ a. a.order.vars ≡ 3) }
{
    let blocks = [Block::DegRev { len: 1 }, Block::DegRev { len: 2 }];
    let order = Order::new(alloc, &blocks, 3)?;
    let ring = Algebra::commuting(alloc, Field::of(7)?, order, 3)?;
    Ok(ring)
}

// How the reduction and the normal form of `h` by one element end, at a table of its own, with a counter on the blank.
fn ends<L: Ledger>(
    alloc: Global,
    ring: &Algebra,
    basis: &Vec<GPoly>,
    h: GPoly,
    blank: Blank,
) -> Result<(Reduced, Result<(GPoly, Trace), ProductFault>), AllocError>
    requires few { length basis.now.items ≤ 1 }
    requires sorted { Each (IsPolynomial ring.now.p ring.now.order) basis.now.items }
    requires h_sorted { IsPolynomial ring.now.p ring.now.order h }
    requires name { blank.name ≡ L.name }
    requires parts { blank.parts ≡ L.parts }
    requires some { 0 < blank.parts }
{
    let table = Table::new(alloc, ring)?;
    let mut seat = table.seat(alloc)?;
    let mut steps = Steps::<L>::start(blank);
    let form = normal_form(alloc, &mut seat, basis, &h, &mut steps);
    let trace = Trace::new(alloc);
    let reduced = reduce_from(alloc, &mut seat, basis, h, trace, &mut steps)?;
    Ok((reduced, form))
}

// x y^2000, where x - y^3000 would cancel it.
#[test]
fn reduces_within_the_degree(rt: HostRuntime) -> Result<(), Fail> {
    let alloc = rt.alloc();
    let ring = blocks(alloc)?;
    let x = power(alloc, &ring, 1, 0, 0)?;
    let y = power(alloc, &ring, 0, 3000, 0)?;
    let element = x.sub(alloc, ring.field(), ring.order(), &y)?;
    let basis = Vec::from_array(alloc, [element]).map_err(AllocError::from)?;
    let h = power(alloc, &ring, 1, 2000, 0)?;
    let (reduced, form) = ends::<Brand>(alloc, &ring, &basis, h, Blank::new(1))?;
    assert!(rt; reduced.ended == Ended::DegreeOver && reduced.trace.steps().is_empty());
    assert_eq!(rt; reduced.rest.degree(), 2001);
    match form {
        Ok(_) => Err("the step has a degree of 5000".into()),
        Err(ProductFault::DegreeOver) => Ok(()),
        Err(ProductFault::Memory) => Err("there is memory".into()),
    }
}
