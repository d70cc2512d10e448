//! Reductions made over a shelf, and leads that they are offered to.

ghost use Rattle.std.specs.Prelude.{◌≡◌, ◌≢◌, ◌<◌, ◌≤◌, ℕ, [], IfOk, OnOk, length};
ghost use Rattle.monomials.specs.Polynomials.{Each, IsPolynomial};
ghost use Rattle.word_model.specs.Reduction.{element};
ghost use Rattle.word_model.specs.Jobs.{IsJob};
ghost use Rattle.word_model.specs.Machine.{IsElement};

use super::algebras::{algebra, polys};
use crate::{Desk, NoGate, Sealed, Shelf, ShelfView};
use algebra::Algebra;
use commit_core::Lead;
use gpoly::GPoly;
use gproduct::{Learned, Place, Steps, Table, TableSeat};
use monomials::Expo;
use run_records::{Elements, Job, Mode, Spec};
use std::alloc::{AllocError, Global};
use std::marker::Brand;
use std::sync::ledger::{Blank, Ledger};
use std::test::Fail;

// The job of a text, `Pair 1 2` or a seed as `Seed 2`.
fn job_of(gens: &[GPoly], text: &str) -> Result<Job, Fail>
    ensures job { IfOk result (λ job. (n : ℕ) → (m : ℕ) × IsJob (length gens.now) m n job) }
    ensures seed { IfOk result (λ job. (s : ℕ) → job ≡ Job.Seed s → element gens.now s ≢ []) }
{
    if text == "Pair 1 2" {
        return Ok(Job::Pair { i: 1, j: 2 });
    }
    let number = text
        .strip_prefix("Seed ")
        .ok_or("a job is a seed or Pair 1 2")?;
    let s = number.parse::<u32>()?;
    if s < 1 || s as usize > gens.len() || gens[s as usize - 1].is_zero() {
        return Err("a seed is of a nonzero generator".into());
    }
    Ok(Job::Seed { s })
}

// A shelf with these elements.
fn shelf_of(alloc: Global, elements: &[GPoly]) -> Result<Shelf, Fail> {
    let shelf = Shelf::new(alloc)?;
    let count = elements.len().min(2048);
    for k in 0..count {
        shelf.put(alloc, k as u32 + 1, &elements[k])?;
    }
    Ok(shelf)
}

// A view that has grown over its shelf.
fn seen<'s>(alloc: Global, shelf: &'s Shelf, alg: &Algebra) -> Result<ShelfView<'s>, AllocError>
    ensures { IfOk result (λ v. Each (IsElement alg.now) v) }
{
    let mut view = shelf.view(alloc)?;
    view.grow(alg);
    Ok(view)
}

// What a job comes to over a view, with a counter on the blank.
fn counted<'s, 'r, L: Ledger>(
    alloc: Global,
    seat: &mut TableSeat<'s, 'r>,
    view: &ShelfView<'s>,
    gens: &'s [GPoly],
    job: &Job,
    blank: Blank,
) -> Result<Option<Sealed<'s, 'r>>, AllocError>
    requires generators { Each (IsPolynomial seat.old.algebra.p seat.old.algebra.order) gens.now }
    requires elements { Each (IsElement seat.old.algebra) view.now }
    requires job { (m : ℕ) × IsJob (length gens.now) m seat.old.algebra.order.vars job.now }
    requires seed { (s : ℕ) → job.now ≡ Job.Seed s → element gens.now s ≢ [] }
    requires name { blank.name ≡ L.name }
    requires parts { blank.parts ≡ L.parts }
    requires some { 0 < blank.parts }
{
    let mut steps: Steps<L> = Steps::start(blank);
    Sealed::made(alloc, seat, view, gens, job, &mut steps)
}

// One commit, with a counter on the blank.
fn commit<L: Ledger>(
    alloc: Global,
    seat: &mut TableSeat,
    lead: &mut Lead,
    blank: Blank,
) -> Result<(), AllocError>
    requires algebra { seat.old.algebra ≡ lead.old.algebra }
    requires name { blank.name ≡ L.name }
    requires parts { blank.parts ≡ L.parts }
    requires some { 0 < blank.parts }
    ensures seat { OnOk result (seat.new.algebra ≡ seat.old.algebra) }
    ensures lead { OnOk result (lead.new.algebra ≡ lead.old.algebra) }
{
    let mut steps: Steps<L> = Steps::start(blank);
    let _committed = lead.commit(alloc, seat, None, &mut steps)?;
    Ok(())
}

// A lead over the generators of a text, as `2: 1.1.1, 1.0.2` after two commits.
fn lead_of(alloc: Global, alg: &Algebra, text: &str) -> Result<Lead, Fail>
    ensures { IfOk result (λ lead. lead.algebra ≡ alg.now) }
{
    let (count, gens) = text
        .split_once(": ")
        .ok_or("a lead has a count of commits")?;
    let count = count.parse::<u8>()?;
    let gens = polys(alloc, alg, gens)?;
    let table = Table::new(alloc, alg)?;
    let mut seat = table.seat(alloc)?;
    let mut lead = Lead::new(alloc, alg, &gens, Mode::Left, 100)?;
    for _turn in 0..count {
        commit::<Brand>(alloc, &mut seat, &mut lead, Blank::new(1))?;
    }
    Ok(lead)
}

// Adds a number and exponents.
fn push_term(text: &mut String, coef: u32, mono: &Expo) -> Result<(), AllocError> {
    write!(text, " {coef}")?;
    for v in 1..=mono.len() as u8 {
        write!(text, ".{}", mono.get(v))?;
    }
    Ok(())
}

// The prefix, the steps, each as its term and the number of its element, and the terms of the rest.
fn spec_text(alloc: Global, spec: &Spec) -> Result<String, AllocError> {
    let mut text = String::new(alloc);
    write!(text, "prefix {}", spec.prefix)?;
    for step in spec.trace.steps() {
        push_term(&mut text, step.coef, &step.mono)?;
        write!(text, " by {}", step.index)?;
    }
    text.push_str(" rest")?;
    for term in spec.rest.terms() {
        push_term(&mut text, term.coef, &term.mono)?;
    }
    Ok(text)
}

// What a job comes to over this shelf, where a lead of another algebra is offered it.
fn offered<'s>(
    alloc: Global,
    alg: &Algebra,
    gens: &'s [GPoly],
    shelf: &'s Shelf,
    job: &Job,
    other: &Algebra,
    lead: &Lead,
) -> Result<String, Fail>
    requires generators { Each (IsPolynomial alg.now.p alg.now.order) gens.now }
    requires job { (m : ℕ) × IsJob (length gens.now) m alg.now.order.vars job.now }
    requires seed { (s : ℕ) → job.now ≡ Job.Seed s → element gens.now s ≢ [] }
    requires lead { other.now ≡ lead.now.algebra }
{
    let table = Table::new(alloc, alg)?;
    let mut seat = table.seat(alloc)?;
    let view = seen(alloc, shelf, alg)?;
    let made = counted::<Brand>(alloc, &mut seat, &view, gens, job, Blank::new(1))?;
    let Some(sealed) = made else {
        return Ok(String::from_str(alloc, "not made")?);
    };
    match sealed.unseal(other, lead) {
        Some(spec) => Ok(spec_text(alloc, &spec)?),
        None => Ok(String::from_str(alloc, "None")?),
    }
}

// The same, where generators, shelf and job are texts.
fn offered_of(
    alloc: Global,
    alg: &Algebra,
    text: &str,
    other: &Algebra,
    lead: &Lead,
) -> Result<String, Fail>
    requires lead { other.now ≡ lead.now.algebra }
{
    let (gens, rest) = text.split_once("; ").ok_or("a maker has a shelf")?;
    let (shelf, job) = rest.split_once("; ").ok_or("a maker has a job")?;
    let gens = polys(alloc, alg, gens)?;
    let job = job_of(&gens, job)?;
    let shelf = shelf_of(alloc, &polys(alloc, alg, shelf)?)?;
    offered(alloc, alg, &gens, &shelf, &job, other, lead)
}

// The answer to a line: algebra, generators, shelf and job of the maker; algebra and lead.
fn answer(alloc: Global, line: &str) -> Result<String, Fail> {
    let (maker, other) = line.split_once(" | ").ok_or("a line has a lead")?;
    let (alg, rest) = maker.split_once("; ").ok_or("a maker has generators")?;
    let (other, lead) = other.split_once("; ").ok_or("a lead has an algebra")?;
    let alg = algebra(alloc, alg)?;
    let other = algebra(alloc, other)?;
    let lead = lead_of(alloc, &other, lead)?;
    offered_of(alloc, &alg, rest, &other, &lead)
}

// A lead of the same, one of another generator, a view that lacks elements. Strangers: another prime,
// another relation, another generator, fewer elements, another leading monomial. Then the elements of
// steps, and one that no step uses; that of a step which is undefined; those of a start.
const LINES: &str = "\
dp 7 1.0.0; 1.1.1, 1.0.2; 0.0.0; Seed 2 | dp 7 1.0.0; 0: 1.1.1, 1.0.2
dp 7 1.0.0; 1.1.1, 1.0.2; 0.0.0; Seed 2 | dp 7 1.0.0; 0: 1.1.1, 1.0.1
dp 7 1.0.0; 1.1.1, 1.0.2; 0.0.0; Pair 1 2 | dp 7 1.0.0; 0: 1.1.1, 1.0.2
dp 7 1.0.0; 1.1.1, 1.0.2; 0.0.0; Seed 2 | dp 11 1.0.0; 0: 1.1.1, 1.0.2
dp 7 1.0.0; 1.1.1, 1.0.2; 0.0.0; Seed 2 | dp 7 2.0.0; 0: 1.1.1, 1.0.2
dp 7 1.0.0; 1.1.1, 1.0.2; 0.0.0; Seed 2 | dp 7 1.0.0; 0: 1.1.1, 1.0.3
dp 7 1.0.0; 1.1.1, 1.0.2; 0.0.0; Seed 2 | dp 7 1.0.0; 0: 1.1.1
dp 7 1.0.0; 1.1.1, 1.0.2; 1.0.2; Seed 1 | dp 7 1.0.0; 0: 1.1.1, 1.0.2
dp 7 1.0.0; 1.3.1, 1.0.2; 1.0.2; Seed 1 | dp 7 1.0.0; 1: 1.3.1, 1.0.3
dp 7 1.0.0; 1.1.2 1.0.0, 1.0.2; 1.0.2; Seed 1 | dp 7 1.0.0; 1: 1.1.2 1.0.0, 1.0.2
dp 7 1.0.0; 1.1.2 1.0.0, 1.0.2; 1.0.2; Seed 1 | dp 7 1.0.0; 1: 1.1.2 1.0.0, 1.0.2 1.0.0
dp 7 1.0.0; 1.1.1, 1.0.2; 1.0.2; Seed 1 | dp 7 1.0.0; 1: 1.1.1, 1.0.2 1.0.0
lp 7 1.0.0; 1.1200.2000, 1.1.0 1.0.3000; 1.1.0 1.0.3000; Seed 1 | lp 7 1.0.0; 1: 1.1200.2000, 1.1.0 1.0.3000
lp 7 1.0.0; 1.1200.2000, 1.1.0 1.0.3000; 1.1.0 1.0.3000; Seed 1 | lp 7 1.0.0; 1: 1.1200.2000, 1.1.0 2.0.3000
dp 7 1.0.0; 1.1.1, 1.0.2; 1.0.2, 1.1.1; Pair 1 2 | dp 7 1.0.0; 2: 1.1.1, 1.0.2
dp 7 1.0.0; 1.1.1, 1.0.2; 1.0.2, 1.1.1; Pair 1 2 | dp 7 1.0.0; 2: 1.1.1 1.0.0, 1.0.2
";

const ANSWERS: &str = "\
prefix 0 rest 1.0.2
None
not made
None
None
None
None
None
None
prefix 1 1.1.0 by 1 rest 1.0.0
None
prefix 1 rest 1.1.1
prefix 1 rest 1.1200.2000
None
prefix 2 rest 6.0.1
None
";

#[test]
fn unseals_what_agrees_with_a_lead(rt: HostRuntime) -> Result<(), Fail> {
    let alloc = rt.alloc();
    let mut text = String::new(alloc);
    for line in LINES.lines() {
        text.push_str(answer(alloc, line)?.as_str())?;
        text.push('\n')?;
    }
    assert_eq!(rt; text.as_str(), ANSWERS);
    Ok(())
}

// How many elements a new view has that grows over a shelf with those of a text.
fn count_seen(alloc: Global, alg: &Algebra, other: &Algebra, text: &str) -> Result<usize, Fail> {
    let shelf = shelf_of(alloc, &polys(alloc, other, text)?)?;
    Ok(seen(alloc, &shelf, alg)?.count())
}

// How many a view has that grew before and after a cell was filled behind an empty one.
fn counts_before_and_after(alloc: Global, alg: &Algebra) -> Result<(usize, usize), Fail> {
    let shelf = shelf_of(alloc, &polys(alloc, alg, "1.0.2, 1.1.1")?)?;
    let mut view = seen(alloc, &shelf, alg)?;
    let before = view.count();
    shelf.put(alloc, 2048, &GPoly::zero(alloc))?;
    view.grow(alg);
    Ok((before, view.count()))
}

// A second element behind an empty cell, a zero one, one that does not fit, and then a filled cell.
#[test]
fn grows_up_to_the_first_that_is_no_element(rt: HostRuntime) -> Result<(), Fail> {
    let alloc = rt.alloc();
    let (alg, other) = (
        algebra(alloc, "dp 7 1.0.0")?,
        algebra(alloc, "dp 11 1.0.0")?,
    );
    let (before, after) = counts_before_and_after(alloc, &alg)?;
    assert_eq!(rt; before, 2);
    assert_eq!(rt; after, 2);
    assert_eq!(rt; count_seen(alloc, &alg, &alg, "1.0.2, 0.0.0, 1.1.1")?, 1);
    assert_eq!(rt; count_seen(alloc, &alg, &other, "1.0.2, 8.1.1, 1.1.1")?, 1);
    Ok(())
}

// A leader without workers goes on with a lead of two elements, and its shelf has them and those that come.
#[test]
fn begun_leads_are_shown(rt: HostRuntime) -> Result<(), Fail> {
    let alloc = rt.alloc();
    let alg = algebra(alloc, "dp 7 1.0.0")?;
    let gens = polys(alloc, &alg, "1.2.1, 1.0.3")?;
    let lead = lead_of(alloc, &alg, "2: 1.2.1, 1.0.3")?;
    assert_eq!(rt; lead.basis().len(), 2);
    let table = Table::new(alloc, &alg)?;
    let shelf = Shelf::new(alloc)?;
    let desk = Desk::new(alloc, &alg, &table, &shelf, &gens, &NoGate, 1)?;
    let journal = desk.lead(&rt, alloc, lead)?;
    assert!(rt; journal.basis.len() > 2);
    assert_eq!(rt; seen(alloc, &shelf, &alg)?.count(), journal.basis.len());
    Ok(())
}

// Whether a seat learns the place of d^2 x^3 by its cell.
fn learns(alloc: Global, seat: &mut TableSeat) -> Result<bool, Fail> {
    if seat.algebra().n() != 2 {
        return Err("there are two variables".into());
    }
    let place = Place {
        i: 1,
        j: 2,
        a: 2,
        b: 3,
    };
    Ok(matches!(seat.learn(alloc, place)?, Learned::Shared))
}

#[test]
fn shared_cell_seen(rt: HostRuntime) -> Result<(), Fail> {
    let alloc = rt.alloc();
    let alg = algebra(alloc, "dp 7 1.0.0")?;
    let table = Table::new(alloc, &alg)?;
    let (mut first, mut second) = (table.seat(alloc)?, table.seat(alloc)?);
    assert!(rt; learns(alloc, &mut first)?);
    assert!(rt; learns(alloc, &mut second)?);
    let elements = polys(alloc, &alg, "1.0.2")?;
    let shelf = shelf_of(alloc, &elements)?;
    let view = seen(alloc, &shelf, &alg)?;
    assert_eq!(rt; view.count(), 1);
    Ok(())
}
