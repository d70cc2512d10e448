//! Workers beside a leader, over the Heisenberg algebra in x, y, a, b and z modulo 32003.

ghost use Rattle.std.specs.Prelude.{◌≡◌, ◌≤◌, ◌++◌, ◌∷◌, [], IfOk, OnOk, length};
ghost use Rattle.monomials.specs.Polynomials.{Each, IsPolynomial};
ghost use Rattle.word_model.specs.Machine.{machine};

use crate::engines::{Workplace, crowd};
use crate::{By, Crew, Desk, MeetGate, NoGate, Shelf, crew_basis};
use algebra::{Algebra, Relations};
use commit_core::{Lead, OneWorker};
use gpoly::{GPoly, Term};
use gproduct::Table;
use monomials::{Block, Expo, Order};
use prime_field::Field;
use run_records::{Engine, Entry, Journal, Mode};
use std::alloc::{AllocError, Global};
use std::sync::Wait;
use std::test::Fail;

// The generators x a, y b, z - 1 and a^2: terms of a number and a digit for each exponent.
const GENERATORS: &str = "1.10100, 1.01010, 1.00001 32002.00000, 1.00200";

// a x = x a + z and b y = y b + z, and the other pairs commute.
const RELATIONS: &str = "0.0, 1.00001, 0.0, 0.0, 0.0, 1.00001, 0.0, 0.0, 0.0, 0.0";

fn digit(number: u32, unit: u32) -> u16
    requires some { 1 ≤ unit }
    ensures { result ≤ 9 }
{
    (number / unit % 10) as u16
}

fn term(alloc: Global, field: Field, order: &Order, text: &str) -> Result<GPoly, Fail>
    ensures { IfOk result (λ f. IsPolynomial field order.now f) }
{
    let (number, exponents) = text.split_once('.').ok_or("a term has exponents")?;
    let digits = exponents.parse::<u32>()?;
    if order.vars() != 5 {
        return Err("there are five variables".into());
    }
    let mono = Expo::of(&[
        digit(digits, 10000),
        digit(digits, 1000),
        digit(digits, 100),
        digit(digits, 10),
        digit(digits, 1),
    ]);
    let coef = field.from_int(number.parse::<u64>()?);
    let term = GPoly::from_terms(alloc, field, order, &[Term { coef, mono }])?;
    Ok(term)
}

fn poly(alloc: Global, field: Field, order: &Order, text: &str) -> Result<GPoly, Fail>
    ensures { IfOk result (λ f. IsPolynomial field order.now f) }
{
    let mut sum = GPoly::zero(alloc);
    for piece in text.split(' ') {
        let part = term(alloc, field, order, piece)?;
        sum = sum.add(alloc, field, order, &part)?;
    }
    Ok(sum)
}

fn push(polys: &mut Vec<GPoly>, poly: GPoly) -> Result<(), AllocError>
    ensures { OnOk result (polys.new.items ≡ polys.old.items ++ poly ∷ []) }
{
    polys.push(poly)?;
    Ok(())
}

// The polynomials between the commas of a text, at most 4096.
fn polys(alloc: Global, field: Field, order: &Order, text: &str) -> Result<Vec<GPoly>, Fail>
    ensures sorted { IfOk result (λ fs. Each (IsPolynomial field order.now) fs.items) }
    ensures few { IfOk result (λ fs. length fs.items ≤ 4096) }
{
    let mut polys = Vec::new(alloc);
    for piece in text.split(", ") {
        let part = poly(alloc, field, order, piece)?;
        push(&mut polys, part)?;
    }
    if polys.len() > 4096 {
        return Err("there are at most 4096 polynomials".into());
    }
    Ok(polys)
}

fn heisenberg(alloc: Global) -> Result<Algebra, Fail> {
    let field = Field::of(32003)?;
    let order = Order::new(alloc, &[Block::DegRev { len: 5 }], 5)?;
    let c = Vec::from_array(alloc, [1; 10])?;
    let d = polys(alloc, field, &order, RELATIONS)?;
    if d.len() != 10 {
        return Err("five variables have ten pairs".into());
    }
    Ok(Algebra::new(alloc, field, order, 5, Relations { c, d })?)
}

fn same_entries(one: &Entry, other: &Entry) -> bool {
    match (one, other) {
        (Entry::Skipped { job: a, by: k }, Entry::Skipped { job: b, by: l }) => a == b && k == l,
        (Entry::Zero { job: a, trace: s }, Entry::Zero { job: b, trace: t }) => {
            a == b && s.steps() == t.steps()
        }
        (
            Entry::New {
                job: a,
                trace: s,
                scale: k,
            },
            Entry::New {
                job: b,
                trace: t,
                scale: l,
            },
        ) => a == b && s.steps() == t.steps() && k == l,
        _ => false,
    }
}

fn same_journals(one: &Journal, other: &Journal) -> bool {
    one.outcome == other.outcome
        && one.entries.len() == other.entries.len()
        && one.basis.len() == other.basis.len()
        && one
            .entries
            .iter()
            .zip(other.entries.iter())
            .all(|(a, b)| same_entries(a, b))
        && one
            .basis
            .iter()
            .zip(other.basis.iter())
            .all(|(f, g)| f.equals(g))
}

// Two workers have the first two jobs in hand at once, and a commit is given what was published.
#[test]
fn two_hands_meet(rt: HostRuntime) -> Result<(), Fail> {
    let alloc = rt.alloc();
    let alg = heisenberg(alloc)?;
    let gens = polys(alloc, alg.field(), alg.order(), GENERATORS)?;
    let gate = MeetGate::new(1_000_000_000);
    let made = Crew::new(&rt, 2, &gate).basis(alloc, &alg, &gens, Mode::Left, 100_000)?;
    assert!(rt; gate.met());
    let alone = OneWorker::new().basis(alloc, &alg, &gens, Mode::Left, 100_000)?;
    assert_eq!(rt; alone.entries.len(), 14);
    assert!(rt; same_journals(&made, &alone));
    Ok(())
}

#[test]
fn crews_of_any_size_make_one_journal(rt: HostRuntime) -> Result<(), Fail> {
    let alloc = rt.alloc();
    let alg = heisenberg(alloc)?;
    let gens = polys(alloc, alg.field(), alg.order(), GENERATORS)?;
    let alone = OneWorker::new().basis(alloc, &alg, &gens, Mode::Left, 100_000)?;
    for workers in [1, 3, 64] {
        let made = Crew::new(&rt, workers, &NoGate).basis(alloc, &alg, &gens, Mode::Left, 100_000)?;
        assert!(rt; same_journals(&made, &alone));
    }
    Ok(())
}

// An engine of a closure, with a gate that a caller could have as a parameter.
#[test]
fn a_closure_is_an_engine(rt: HostRuntime) -> Result<(), Fail> {
    let alloc = rt.alloc();
    let alg = heisenberg(alloc)?;
    let gens = polys(alloc, alg.field(), alg.order(), GENERATORS)?;
    let gate = NoGate;
    let mut engine = By {
        run: |alloc: Global, alg: &Algebra, gens: &[GPoly], mode: Mode, budget: u32| -> Result<
            Journal,
            AllocError,
        >
            requires { Each (IsPolynomial alg.now.p alg.now.order) gens.now × (length gens.now ≤ 4096) × (1 ≤ budget) }
            ensures { IfOk result (λ j. j ≡ machine alg.now gens.now mode budget) }
        { crew_basis(&rt, alloc, 2, &gate, alg, gens, mode, budget) },
    };
    let made = engine.basis(alloc, &alg, &gens, Mode::TwoSided, 3)?;
    assert_eq!(rt; made.entries.len(), 3);
    Ok(())
}

// A leader alone, twice at one desk: the second time the board is closed, and each worker goes home.
#[test]
fn the_board_is_closed_when_the_leader_has_answered(rt: HostRuntime) -> Result<(), Fail> {
    let alloc = rt.alloc();
    let alg = heisenberg(alloc)?;
    let gens = polys(alloc, alg.field(), alg.order(), GENERATORS)?;
    let table = Table::new(alloc, &alg)?;
    let shelf = Shelf::new(alloc)?;
    let desk = Desk::new(alloc, &alg, &table, &shelf, &gens, &NoGate, 2)?;
    let first = Lead::new(alloc, &alg, &gens, Mode::Left, 100_000)?;
    let made = desk.lead(&rt, alloc, first)?;
    desk.work(&rt, alloc, 1);
    let second = Lead::new(alloc, &alg, &gens, Mode::Left, 100_000)?;
    assert!(rt; same_journals(&desk.lead(&rt, alloc, second)?, &made));
    Ok(())
}

// A desk at whose seats idle hands sit in place of workers.
#[derive(Drop)]
struct Idling<'a, 's, 'r> {
    desk: &'a Desk<'s, 'r, NoGate>,
}

impl<'a, 's, 'r> Workplace for Idling<'a, 's, 'r> {
    ghost over = { λ d. d.desk.now.algebra };

    fn work<R: Wait>(&self, rt: &R, _alloc: Global, w: u8) {
        self.desk.idle(rt, w);
    }

    fn lead<R: Wait>(&self, rt: &R, alloc: Global, lead: Lead) -> Result<Journal, AllocError> {
        self.desk.lead(rt, alloc, lead)
    }
}

#[test]
fn idle_hands(rt: HostRuntime) -> Result<(), Fail> {
    let alloc = rt.alloc();
    let alg = heisenberg(alloc)?;
    let gens = polys(alloc, alg.field(), alg.order(), GENERATORS)?;
    let table = Table::new(alloc, &alg)?;
    let shelf = Shelf::new(alloc)?;
    let desk = Desk::new(alloc, &alg, &table, &shelf, &gens, &NoGate, 2)?;
    let lead = Lead::new(alloc, &alg, &gens, Mode::Left, 100_000)?;
    let beside = crowd(&rt, alloc, &Idling { desk: &desk }, 2, lead)?;
    let alone = OneWorker::new().basis(alloc, &alg, &gens, Mode::Left, 100_000)?;
    assert_eq!(rt; alone.entries.len(), 14);
    assert!(rt; same_journals(&beside, &alone));
    Ok(())
}
