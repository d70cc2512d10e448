//! Worked runs in the Weyl algebra. Polynomials are texts: their terms, each a number and exponents.

ghost use Rattle.std.specs.Prelude.{◌≡◌, ◌<◌, ◌≤◌, ◌++◌, ◌∷◌, [], IfOk, OnOk, length};
ghost use Rattle.monomials.specs.Polynomials.{Each, IsPolynomial};

use super::*;
use algebra::Relations;
use gpoly::Term;
use left_reduce::{reduce_from, start_of};
use monomials::{Block, Expo, Order};
use prime_field::Field;
use run_records::{Entry, Job, Outcome, Trace};
use std::test::Fail;

// The term with these exponents of x and d, as `2.1.0` for 2 x.
fn term(alloc: Global, field: Field, order: &Order, text: &str) -> Result<GPoly, Fail>
    ensures { IfOk result (λ f. IsPolynomial field order.now f) }
{
    let (number, exponents) = text.split_once('.').ok_or("a term has exponents")?;
    let (x, d) = exponents.split_once('.').ok_or("a term has two exponents")?;
    let (x, d) = (x.parse::<u16>()?, d.parse::<u16>()?);
    if order.vars() != 2 || u32::from(x) + u32::from(d) > 4095 {
        return Err("a monomial has two exponents, of degree 4095 at most".into());
    }
    let mono = Expo::of(&[x, d]);
    let coef = field.from_int(number.parse::<u64>()?);
    let term = GPoly::from_terms(alloc, field, order, &[Term { coef, mono }])?;
    Ok(term)
}

// The sum of the terms, as `1.1.1 6.0.0` for x d - 1 modulo 7.
fn poly(alloc: Global, field: Field, order: &Order, text: &str) -> Result<GPoly, Fail>
    ensures { IfOk result (λ f. IsPolynomial field order.now f) }
{
    let mut sum = GPoly::zero(alloc);
    for piece in text.split(' ') {
        let part = term(alloc, field, order, piece)?;
        sum = sum.add(alloc, field, order, &part)?;
    }
    Ok(sum)
}

fn push(polys: &mut Vec<GPoly>, poly: GPoly) -> Result<(), AllocError>
    ensures { OnOk result (polys.new.items ≡ polys.old.items ++ poly ∷ []) }
{
    polys.push(poly)?;
    Ok(())
}

// The polynomials between the commas of a text.
fn polys(alloc: Global, alg: &Algebra, text: &str) -> Result<Vec<GPoly>, Fail>
    ensures { IfOk result (λ fs. Each (IsPolynomial alg.now.p alg.now.order) fs.items) }
{
    let mut polys = Vec::new(alloc);
    for piece in text.split(", ") {
        let part = poly(alloc, alg.field(), alg.order(), piece)?;
        push(&mut polys, part)?;
    }
    Ok(polys)
}

// The algebra in x and d with d x = x d + 1, modulo 7.
fn weyl(alloc: Global) -> Result<Algebra, Fail> {
    let field = Field::of(7)?;
    let order = Order::new(alloc, &[Block::DegRev { len: 2 }], 2)?;
    let one = poly(alloc, field, &order, "1.0.0")?;
    let c = Vec::from_array(alloc, [1])?;
    let d = Vec::from_array(alloc, [one]).map_err(AllocError::from)?;
    Ok(Algebra::new(alloc, field, order, 2, Relations { c, d })?)
}

// Adds a number and exponents.
fn push_term(text: &mut String, coef: u32, mono: &Expo) -> Result<(), AllocError> {
    write!(text, " {coef}")?;
    for v in 1..=mono.len() as u8 {
        write!(text, ".{}", mono.get(v))?;
    }
    Ok(())
}

fn push_job(text: &mut String, job: &Job) -> Result<(), AllocError> {
    match job {
        Job::Seed { s } => write!(text, " Seed {s}")?,
        Job::Pair { i, j } => write!(text, " Pair {i} {j}")?,
        Job::Right { i, v } => write!(text, " Right {i} {v}")?,
    }
    Ok(())
}

// Adds the steps, each as its term and the number of its element.
fn push_trace(text: &mut String, trace: &Trace) -> Result<(), AllocError> {
    for step in trace.steps() {
        push_term(text, step.coef, &step.mono)?;
        write!(text, " by {}", step.index)?;
    }
    Ok(())
}

fn push_entry(text: &mut String, entry: &Entry) -> Result<(), AllocError> {
    match entry {
        Entry::Skipped { job, by } => {
            text.push_str("Skipped")?;
            push_job(text, job)?;
            write!(text, " by {by}")?;
        }
        Entry::Zero { job, trace } => {
            text.push_str("Zero")?;
            push_job(text, job)?;
            push_trace(text, trace)?;
        }
        Entry::New { job, trace, scale } => {
            text.push_str("New")?;
            push_job(text, job)?;
            push_trace(text, trace)?;
            write!(text, " times {scale}")?;
        }
    }
    Ok(())
}

fn push_entries(text: &mut String, entries: &[Entry]) -> Result<(), AllocError> {
    for entry in entries {
        push_entry(text, entry)?;
        text.push('\n')?;
    }
    Ok(())
}

fn name_of(outcome: Outcome) -> &'static str {
    match outcome {
        Outcome::Finished => "Finished",
        Outcome::BudgetSpent => "BudgetSpent",
        Outcome::BasisFull => "BasisFull",
        Outcome::DegreeOver => "DegreeOver",
    }
}

// The entries, one a line, and then the outcome and the terms of the basis.
fn journal_text(alloc: Global, journal: &Journal) -> Result<String, AllocError> {
    let mut text = String::new(alloc);
    push_entries(&mut text, &journal.entries)?;
    text.push_str(name_of(journal.outcome))?;
    text.push(':')?;
    for element in &journal.basis {
        for term in element.terms() {
            push_term(&mut text, term.coef, &term.mono)?;
        }
        text.push(';')?;
    }
    Ok(text)
}

// The journal over the generators of a line, which has the mode's letter and the budget before them,
// where a second run makes the same one again.
fn run(alloc: Global, engine: &mut OneWorker, alg: &Algebra, line: &str) -> Result<String, Fail> {
    let (limit, gens) = line
        .split_once(": ")
        .ok_or("a line has a mode and a budget")?;
    let (mode, budget) = limit.split_once(' ').ok_or("a line has a budget")?;
    let mode = match mode {
        "left" => Mode::Left,
        _ => Mode::TwoSided,
    };
    let budget = budget.parse::<u32>()?;
    let gens = polys(alloc, alg, gens)?;
    if budget == 0 || gens.len() > 4096 {
        return Err("a run has a budget and at most 4096 generators".into());
    }
    let journal = engine.basis(alloc, alg, &gens, mode, budget)?;
    let text = journal_text(alloc, &journal)?;
    let again = engine.basis(alloc, alg, &gens, mode, budget)?;
    if text != journal_text(alloc, &again)? {
        return Err("an engine makes the same journal again".into());
    }
    Ok(text)
}

const RUNS: &str = "\
left 5: 1.1.1, 1.0.2
left 1: 1.1.1, 1.0.2
two_sided 3: 1.1.0
left 9: 1.3000.0, 1.0.3000
left 9: 0.0.0";

const JOURNALS: &str = "\
New Seed 2 times 1
New Seed 1 times 1
New Pair 1 2 times 6
Zero Pair 1 3
Zero Pair 2 3
Finished: 1.0.2; 1.1.1; 1.0.1;
New Seed 2 times 1
BudgetSpent: 1.0.2;
New Seed 1 times 1
New Right 1 2 1.0.1 by 1 times 6
Zero Right 1 1 1.1.0 by 1
BudgetSpent: 1.1.0; 1.0.0;
New Seed 2 times 1
New Seed 1 times 1
DegreeOver: 1.0.3000; 1.3000.0;
Finished:
";

#[test]
fn makes_the_journals_of_runs(rt: HostRuntime) -> Result<(), Fail> {
    let alloc = rt.alloc();
    let alg = weyl(alloc)?;
    let mut engine = OneWorker::new();
    let mut text = String::new(alloc);
    for line in RUNS.lines() {
        let journal = run(alloc, &mut engine, &alg, line)?;
        text.push_str(journal.as_str())?;
        text.push('\n')?;
    }
    assert_eq!(rt; text.as_str(), JOURNALS);
    Ok(())
}

// Adds what a commit did.
fn push_committed(text: &mut String, committed: Committed) -> Result<(), AllocError> {
    match committed {
        Committed::Added => text.push_str("Added; ")?,
        Committed::Over(outcome) => write!(text, "Over {}; ", name_of(outcome))?,
    }
    Ok(())
}

// Adds the steps by which the first job's start is reduced ahead, by the elements so far.
fn push_ahead<L: Ledger>(
    alloc: Global,
    text: &mut String,
    seat: &mut TableSeat,
    lead: &Lead,
    steps: &mut Steps<L>,
) -> Result<(), Fail>
    requires { seat.old.algebra ≡ lead.now.algebra }
{
    let Some(job) = lead.first() else {
        return Ok(());
    };
    let basis = lead.basis();
    let start = start_of(alloc, seat, basis, lead.generators(), job, steps)?;
    let reduced = reduce_from(alloc, seat, basis, start, Trace::new(alloc), steps)?;
    text.push_str("Ahead")?;
    push_job(text, job)?;
    push_trace(text, &reduced.trace)?;
    Ok(())
}

// The jobs that wait, what so many commits do, the entries and sugars after them, and a job ahead.
fn commits<L: Ledger>(
    alloc: Global,
    seat: &mut TableSeat,
    lead: &mut Lead,
    count: usize,
    blank: Blank,
) -> Result<String, Fail>
    requires algebra { seat.old.algebra ≡ lead.old.algebra }
    requires name { blank.name ≡ L.name }
    requires parts { blank.parts ≡ L.parts }
    requires some { 0 < blank.parts }
{
    let mut text = String::new(alloc);
    let mut steps: Steps<L> = Steps::start(blank);
    for job in &lead.ahead(alloc, 8)? {
        push_job(&mut text, job)?;
    }
    text.push('\n')?;
    for _turn in 0..count {
        let committed = lead.commit(alloc, seat, None, &mut steps)?;
        push_committed(&mut text, committed)?;
    }
    text.push('\n')?;
    push_entries(&mut text, lead.entries())?;
    for sugar in lead.sugars() {
        write!(text, "{sugar} ")?;
    }
    text.push('\n')?;
    push_ahead(alloc, &mut text, seat, lead, &mut steps)?;
    Ok(text)
}

// The same over the generators of a text.
fn commits_text(
    alloc: Global,
    alg: &Algebra,
    gens: &str,
    budget: u32,
    count: usize,
) -> Result<String, Fail>
    requires { 1 ≤ budget }
{
    let gens = polys(alloc, alg, gens)?;
    if gens.len() > 4096 {
        return Err("there are at most 4096 generators".into());
    }
    let table = Table::new(alloc, alg)?;
    let mut seat = table.seat(alloc)?;
    let mut lead = Lead::new(alloc, alg, &gens, Mode::Left, budget)?;
    commits::<Brand>(alloc, &mut seat, &mut lead, count, Blank::new(1))
}

const COMMITS: &str = " Seed 2 Seed 1
Added; Added; Added; 
New Seed 2 times 1
New Seed 1 times 1
New Pair 1 2 times 6
2 2 3 
Ahead Pair 1 3";

const OVER: &str = " Seed 2 Seed 1
Added; Over BudgetSpent; Over BudgetSpent; 
New Seed 2 times 1
2 
Ahead Seed 1";

#[test]
fn goes_on_a_commit_at_a_time_until_it_is_over(rt: HostRuntime) -> Result<(), Fail> {
    let alloc = rt.alloc();
    let alg = weyl(alloc)?;
    let text = commits_text(alloc, &alg, "1.1.1, 1.0.2", 100, 3)?;
    assert_eq!(rt; text.as_str(), COMMITS);
    let text = commits_text(alloc, &alg, "1.1.1, 1.0.2", 1, 3)?;
    assert_eq!(rt; text.as_str(), OVER);
    Ok(())
}
