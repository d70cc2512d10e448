//! Worked rows in the Weyl algebra. Polynomials are texts: their terms, each a number and exponents.

ghost use Rattle.std.specs.Prelude.{◌≡◌, ℕ, ◌<◌, ◌≤◌, ◌++◌, ◌∷◌, [], IfOk, OnOk, length};
ghost use Rattle.monomials.specs.Polynomials.{Each, IsPolynomial};
ghost use Rattle.word_model.specs.Machine.{machine};
ghost use Rattle.word_model.specs.declared.records.Mode.TheVariants.{Left};
ghost use Rattle.word_model.specs.declared.records.Outcome.TheVariants.{Finished as Ended};

use super::*;
use algebra::{Algebra, Relations};
use commit_core::OneWorker;
use gpoly::Term;
use gproduct::Table;
use monomials::{Block, Expo, Order};
use prime_field::Field;
use run_records::{Engine, Mode, Outcome, Row};
use std::alloc::AllocError;
use std::marker::Brand;
use std::sync::ledger::Blank;
use std::test::Fail;

// The term with these exponents of x and d, as `2.1.0` for 2 x.
fn term(alloc: Global, field: Field, order: &Order, text: &str) -> Result<GPoly, Fail>
    ensures { IfOk result (λ f. IsPolynomial field order.now f) }
{
    let (number, exponents) = text.split_once('.').ok_or("a term has exponents")?;
    let (x, d) = exponents.split_once('.').ok_or("a term has two exponents")?;
    let (x, d) = (x.parse::<u16>()?, d.parse::<u16>()?);
    if order.vars() != 2 || u32::from(x) + u32::from(d) > 4095 {
        return Err("a monomial has two exponents, of degree 4095 at most".into());
    }
    let mono = Expo::of(&[x, d]);
    let coef = field.from_int(number.parse::<u64>()?);
    let term = GPoly::from_terms(alloc, field, order, &[Term { coef, mono }])?;
    Ok(term)
}

// The sum of the terms, as `1.1.1 6.0.0` for x d - 1 modulo 7.
fn poly(alloc: Global, field: Field, order: &Order, text: &str) -> Result<GPoly, Fail>
    ensures { IfOk result (λ f. IsPolynomial field order.now f) }
{
    let mut sum = GPoly::zero(alloc);
    for piece in text.split(' ') {
        let part = term(alloc, field, order, piece)?;
        sum = sum.add(alloc, field, order, &part)?;
    }
    Ok(sum)
}

fn push(polys: &mut Vec<GPoly>, poly: GPoly) -> Result<(), AllocError>
    ensures { OnOk result (polys.new.items ≡ polys.old.items ++ poly ∷ []) }
{
    polys.push(poly)?;
    Ok(())
}

// The polynomials between the commas of a text.
fn polys(alloc: Global, alg: &Algebra, text: &str) -> Result<Vec<GPoly>, Fail>
    ensures { IfOk result (λ fs. Each (IsPolynomial alg.now.p alg.now.order) fs.items) }
{
    let mut polys = Vec::new(alloc);
    for piece in text.split(", ") {
        let part = poly(alloc, alg.field(), alg.order(), piece)?;
        push(&mut polys, part)?;
    }
    Ok(polys)
}

// The algebra in x and d with d x = x d + 1, modulo 7.
fn weyl(alloc: Global) -> Result<Algebra, Fail> {
    let field = Field::of(7)?;
    let order = Order::new(alloc, &[Block::DegRev { len: 2 }], 2)?;
    let one = poly(alloc, field, &order, "1.0.0")?;
    let c = Vec::from_array(alloc, [1])?;
    let d = Vec::from_array(alloc, [one]).map_err(AllocError::from)?;
    Ok(Algebra::new(alloc, field, order, 2, Relations { c, d })?)
}

// Adds the terms of a polynomial.
fn push_poly(text: &mut String, poly: &GPoly) -> Result<(), AllocError> {
    for term in poly.terms() {
        write!(text, " {}", term.coef)?;
        for v in 1..=term.mono.len() as u8 {
            write!(text, ".{}", term.mono.get(v))?;
        }
    }
    Ok(())
}

// Adds the entries of rows.
fn push_rows(text: &mut String, rows: &[Row]) -> Result<(), AllocError> {
    for row in rows {
        for entry in &row.entries {
            push_poly(text, entry)?;
            text.push(',')?;
        }
        text.push(';')?;
    }
    Ok(())
}

// The syzygies over the generators of a line.
fn rows(
    alloc: Global,
    engine: &mut OneWorker,
    alg: &Algebra,
    line: &str,
) -> Result<Vec<Row>, Fail> {
    let gens = polys(alloc, alg, line)?;
    if gens.len() > 4096 {
        return Err("there are at most 4096 generators".into());
    }
    let journal = engine.basis(alloc, alg, &gens, Mode::Left, 99)?;
    let Outcome::Finished = journal.outcome else {
        return Err("the run ends".into());
    };
    Ok(counted::<Brand>(alloc, alg, &gens, &journal, Blank::new(1))?)
}

// The same, with a counter on the blank.
fn counted<L: Ledger>(
    alloc: Global,
    alg: &Algebra,
    gens: &[GPoly],
    journal: &Journal,
    blank: Blank,
) -> Result<Vec<Row>, ProductFault>
    requires generators { Each (IsPolynomial alg.now.p alg.now.order) gens.now }
    requires few { length gens.now ≤ 4294967295 }
    requires left_run { (budget : ℕ) × (journal.now ≡ machine alg.now gens.now Left budget) }
    requires finished { journal.now.outcome ≡ Ended }
    requires name { blank.name ≡ L.name }
    requires parts { blank.parts ≡ L.parts }
    requires some { 0 < blank.parts }
{
    let table = Table::new(alloc, alg)?;
    let mut seat = table.seat(alloc)?;
    let mut steps = Steps::<L>::start(blank);
    syz(alloc, &mut seat, gens, journal, &mut steps)
}

// Generators, and the rows over them: of x and d, of x twice, of zero and x, and of x alone.
const GENERATORS: &str = "\
1.1.0, 1.0.1
1.1.0, 1.1.0
0.0.0, 1.1.0
1.1.0";

const ROWS: &str = " 6.0.2, 1.1.1 2.0.0,; 6.1.1 1.0.0, 1.2.0,;
 6.0.0, 1.0.0,;
 1.0.0,,;

";

#[test]
fn worked_syzygies(rt: HostRuntime) -> Result<(), Fail> {
    let alloc = rt.alloc();
    let alg = weyl(alloc)?;
    let mut engine = OneWorker::new();
    let mut text = String::new(alloc);
    for line in GENERATORS.lines() {
        let rows = rows(alloc, &mut engine, &alg, line)?;
        push_rows(&mut text, &rows)?;
        text.push('\n')?;
    }
    assert_eq!(rt; text.as_str(), ROWS);
    Ok(())
}
