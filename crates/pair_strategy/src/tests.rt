//! Worked queues and witnesses. Polynomials are monomials, as the digits of their exponents.

ghost use Rattle.std.specs.Prelude.{◌≡◌, ◌≢◌, ℕ, ◌≤◌, ◌<◌, ◌++◌, ◌∷◌, [], IfOk, OnOk, length};
ghost use Rattle.monomials.specs.Monomials.{degree};
ghost use Rattle.monomials.specs.Polynomials.{Each, HasVars};
ghost use Rattle.word_model.specs.Reduction.{element};
ghost use Rattle.word_model.specs.Jobs.{AreSugars};

use super::*;
use crate::marks;
use gpoly::{GPoly, Term};
use monomials::{Block, Expo, Order};
use prime_field::Field;
use run_records::{Elements, Job, Trace, TraceStep};
use std::alloc::{AllocError, Global};
use std::test::Fail;

// The monomial with these digits as exponents.
fn monomial(digits: &[u8]) -> Result<Expo, Fail>
    ensures { IfOk result (λ m. degree m ≤ 4095) }
{
    let digit = |byte: u8| u16::from(byte.saturating_sub(b'0')).min(9);
    match digits {
        [x, y] => Ok(Expo::of(&[digit(*x), digit(*y)])),
        [x, y, z] => Ok(Expo::of(&[digit(*x), digit(*y), digit(*z)])),
        [x, y, z, t] => Ok(Expo::of(&[digit(*x), digit(*y), digit(*z), digit(*t)])),
        _ => Err("a monomial has two to four exponents".into()),
    }
}

// The polynomial that is this monomial.
fn poly(alloc: Global, order: &Order, digits: &str) -> Result<GPoly, Fail>
    ensures { IfOk result (λ f. HasVars order.now.vars f) }
{
    let field = Field::of(7)?;
    let mono = monomial(digits.as_bytes())?;
    if mono.len() != order.vars() {
        return Err("a monomial has an exponent for each variable".into());
    }
    let coef = field.from_int(1);
    let poly = GPoly::from_terms(alloc, field, order, &[Term { coef, mono }])?;
    Ok(poly)
}

fn push_poly(polys: &mut Vec<GPoly>, poly: GPoly) -> Result<(), AllocError>
    ensures { OnOk result (polys.new.items ≡ polys.old.items ++ poly ∷ []) }
{
    polys.push(poly)?;
    Ok(())
}

// The monomials of a text.
fn polys(alloc: Global, order: &Order, text: &str) -> Result<Vec<GPoly>, Fail>
    ensures { IfOk result (λ fs. Each (HasVars order.now.vars) fs.items) }
{
    let mut polys = Vec::new(alloc);
    for piece in text.split(' ') {
        let part = poly(alloc, order, piece)?;
        push_poly(&mut polys, part)?;
    }
    Ok(polys)
}

// The order by degree, and then reverse lexicographically.
fn by_degree(alloc: Global, n: usize) -> Result<Order, Fail>
    requires some { 1 ≤ n }
    requires few { n ≤ 16 }
{
    Ok(Order::new(alloc, &[Block::DegRev { len: n }], n)?)
}

// Two numbers of elements, as the digits of a text, where there are nonzero elements of these.
fn pair(basis: &Vec<GPoly>, text: &str) -> Result<(u32, u32), Fail>
    ensures { IfOk result (λ (i, j). (1 ≤ i) × (i < j) × (j ≤ length basis.now.items)
        × (element basis.now.items i ≢ []) × (element basis.now.items j ≢ [])) }
{
    let [i, j] = text.as_bytes() else {
        return Err("a pair has two digits".into());
    };
    let i = u32::from(i.saturating_sub(b'0'));
    let j = u32::from(j.saturating_sub(b'0'));
    if i == 0 || i >= j || j as usize > basis.len() {
        return Err("a pair is of two elements".into());
    }
    if basis.at(i).is_zero() || basis.at(j).is_zero() {
        return Err("elements are not zero".into());
    }
    Ok((i, j))
}

// The degrees of the elements, as their sugars.
fn degrees(alloc: Global, basis: &Vec<GPoly>) -> Result<Vec<u32>, AllocError>
    ensures { IfOk result (λ sugars. AreSugars basis.now.items sugars.items × Each (λ n. n ≤ 4095) sugars.items) }
{
    let mut sugars = Vec::new(alloc);
    for element in basis {
        sugars.push(element.degree())?;
    }
    Ok(sugars)
}

// Queues a job that is not queued.
fn push(alloc: Global, queue: &mut Queue, order: &Order, item: Keyed) -> Result<(), Fail>
    requires { queue.old.order ≡ order.now }
    ensures { queue.new.order ≡ order.now }
{
    if queue.holds(&item.job) || item.mono.len() != order.vars() {
        return Err("a job is queued once, in the variables of the order".into());
    }
    if !marks::has_number(&item.job) {
        return Err("a queued job has numbers in range".into());
    }
    queue.reserve(alloc, 1)?;
    queue.push(item);
    Ok(())
}

fn push_job(text: &mut String, job: &Job) -> Result<(), AllocError> {
    match job {
        Job::Seed { s } => write!(text, "Seed {s}\n")?,
        Job::Pair { i, j } => write!(text, "Pair {i} {j}\n")?,
        Job::Right { i, v } => write!(text, "Right {i} {v}\n")?,
    }
    Ok(())
}

// The jobs that are ahead.
fn ahead(alloc: Global, queue: &Queue, k: usize) -> Result<String, AllocError> {
    let mut text = String::new(alloc);
    for job in &queue.ahead(alloc, k)? {
        push_job(&mut text, job)?;
    }
    Ok(text)
}

// The jobs that are ahead, and then the same as they are taken.
fn drain(alloc: Global, queue: &mut Queue, k: usize) -> Result<String, AllocError> {
    let mut text = ahead(alloc, queue, k)?;
    text.push_str("taken:\n")?;
    for _ in 0..k {
        if let Some(item) = queue.take_first() {
            push_job(&mut text, &item.job)?;
        }
    }
    Ok(text)
}

// A queue of these pairs, whatever their keys are.
fn queued(alloc: Global, order: &Order, basis: &Vec<GPoly>, pairs: &str) -> Result<Queue, Fail> {
    let mut queue = Queue::new(alloc, order)?;
    for text in pairs.lines() {
        let (i, j) = pair(basis, text)?;
        let mono = Expo::one(order.vars());
        let job = Job::Pair { i, j };
        push(
            alloc,
            &mut queue,
            order,
            Keyed {
                sugar: 0,
                mono,
                job,
            },
        )?;
    }
    Ok(queue)
}

// Elements of these monomials, and a queue of pairs of them.
fn made(alloc: Global, n: usize, elements: &str, pairs: &str) -> Result<(Vec<GPoly>, Queue), Fail>
    requires some { 1 ≤ n }
    requires few { n ≤ 16 }
    ensures { IfOk result (λ (basis, _). (n : ℕ) × Each (HasVars n) basis.items) }
{
    let order = by_degree(alloc, n)?;
    let basis = polys(alloc, &order, elements)?;
    let queue = queued(alloc, &order, &basis, pairs)?;
    Ok((basis, queue))
}

// The job with this key, as the digits of a text: its sugar, the exponents of its monomial, its kind,
// and its numbers.
fn keyed(text: &str) -> Result<Keyed, Fail> {
    let digit = |byte: u8| u32::from(byte.saturating_sub(b'0'));
    let (sugar, digits, job) = match text.as_bytes() {
        [n, x, y, b's', s] => (*n, [*x, *y], Job::Seed { s: digit(*s) }),
        [n, x, y, b'p', i, j] => {
            let (i, j) = (digit(*i), digit(*j));
            (*n, [*x, *y], Job::Pair { i, j })
        }
        [n, x, y, b'r', i, v] => {
            let (i, v) = (digit(*i), v.saturating_sub(b'0'));
            (*n, [*x, *y], Job::Right { i, v })
        }
        _ => return Err("a job has a key of three digits, a kind and one or two numbers".into()),
    };
    Ok(Keyed {
        sugar: digit(sugar),
        mono: monomial(&digits)?,
        job,
    })
}

const PUSHES: &str =
    "311s2\n311p13\n311p23\n311p12\n311r12\n311r21\n311r11\n311s1\n302s3\n320s4\n410p45\n203p14";

const TAKES: &str = "\
Pair 1 4
Seed 3
Seed 1
Seed 2
Pair 1 2
Pair 1 3
Pair 2 3
Right 1 1
Right 1 2
Right 2 1
Seed 4
Pair 4 5
taken:
Pair 1 4
Seed 3
Seed 1
Seed 2
Pair 1 2
Pair 1 3
Pair 2 3
Right 1 1
Right 1 2
Right 2 1
Seed 4
Pair 4 5
";

// A queue of these jobs.
fn queued_jobs(alloc: Global, order: &Order, jobs: &str) -> Result<Queue, Fail> {
    let mut queue = Queue::new(alloc, order)?;
    for text in jobs.lines() {
        let item = keyed(text)?;
        push(alloc, &mut queue, order, item)?;
    }
    Ok(queue)
}

#[test]
fn jobs_go_by_sugars_then_monomials_then_kinds_then_numbers(rt: HostRuntime) -> Result<(), Fail> {
    let alloc = rt.alloc();
    let mut queue = queued_jobs(alloc, &by_degree(alloc, 2)?, PUSHES)?;
    let text = drain(alloc, &mut queue, 20)?;
    assert_eq!(rt; text.as_str(), TAKES);
    Ok(())
}

// Jobs at the limits of their numbers, and then jobs past them.
fn at_limit(place: u32) -> Job {
    match place {
        0 => Job::Right { i: 2048, v: 16 },
        1 => Job::Pair { i: 2047, j: 2048 },
        2 => Job::Seed { s: 4096 },
        3 => Job::Right { i: 1, v: 1 },
        4 => Job::Pair { i: 1, j: 2 },
        5 => Job::Seed { s: 1 },
        6 => Job::Right { i: 2048, v: 17 },
        7 => Job::Right { i: 2049, v: 16 },
        8 => Job::Pair { i: 2048, j: 2049 },
        9 => Job::Pair { i: 0, j: 2048 },
        10 => Job::Seed { s: 4097 },
        _ => Job::Seed { s: 0 },
    }
}

// A queue of the jobs at the limits, whose keys have one sugar and one monomial.
fn limits(alloc: Global, order: &Order) -> Result<Queue, Fail>
    ensures { IfOk result (λ queue. queue.order ≡ order.now) }
{
    let mut queue = Queue::new(alloc, order)?;
    for place in 0..6 {
        let mono = Expo::of(&[1, 1]);
        let job = at_limit(place);
        let sugar = 3;
        push(alloc, &mut queue, order, Keyed { sugar, mono, job })?;
    }
    Ok(queue)
}

// Which of these jobs are queued, a digit each.
fn held(alloc: Global, queue: &Queue) -> Result<String, AllocError> {
    let mut text = String::new(alloc);
    for place in 0..12 {
        let digit = if queue.holds(&at_limit(place)) {
            '1'
        } else {
            '0'
        };
        text.push(digit)?;
    }
    Ok(text)
}

#[test]
fn jobs_at_their_limits_have_bits(rt: HostRuntime) -> Result<(), Fail> {
    let alloc = rt.alloc();
    let order = by_degree(alloc, 2)?;
    let mut queue = limits(alloc, &order)?;
    assert_eq!(rt; queue.heap().len(), 6);
    assert_eq!(rt; held(alloc, &queue)?.as_str(), "111111000000");
    queue.take_first();
    queue.take_first();
    queue.take_first();
    assert_eq!(rt; held(alloc, &queue)?.as_str(), "110100000000");
    Ok(())
}

const IN_ORDER: &str = "Seed 1\nSeed 4096\nPair 1 2\nPair 2047 2048\nRight 1 1\nRight 2048 16\n";

#[test]
fn as_many_jobs_are_ahead_as_are_wanted(rt: HostRuntime) -> Result<(), Fail> {
    let alloc = rt.alloc();
    let queue = limits(alloc, &by_degree(alloc, 2)?)?;
    assert_eq!(rt; ahead(alloc, &queue, 0)?.as_str(), "");
    assert_eq!(rt; ahead(alloc, &queue, 1)?.as_str(), "Seed 1\n");
    assert_eq!(rt; ahead(alloc, &queue, 6)?.as_str(), IN_ORDER);
    assert_eq!(rt; ahead(alloc, &queue, 7)?.as_str(), IN_ORDER);
    Ok(())
}

// The sugar of a pair of these elements, whose sugars are their degrees.
fn pair_sugar(alloc: Global, basis: &Vec<GPoly>, text: &str) -> Result<u32, Fail>
    requires { (n : ℕ) × Each (HasVars n) basis.now.items }
{
    let (i, j) = pair(basis, text)?;
    let sugars = degrees(alloc, basis)?;
    Ok(job_key(basis, &sugars, &[], &Job::Pair { i, j }).sugar)
}

// The sugar of an element over a job of sugar 3 and a step by an element of this sugar.
fn sugar_after(alloc: Global, sugar: u32, digits: &str) -> Result<u32, Fail>
    requires { sugar ≤ 4095 }
{
    let mut trace = Trace::new(alloc);
    let mono = monomial(digits.as_bytes())?;
    let step = TraceStep {
        coef: 1,
        mono,
        index: 1,
    };
    trace.push(step)?;
    Ok(element_sugar(&[sugar], 3, &trace))
}

#[test]
fn sugars_of_pairs_and_elements(rt: HostRuntime) -> Result<(), Fail> {
    let alloc = rt.alloc();
    let order = by_degree(alloc, 3)?;
    let basis = polys(alloc, &order, "011 110 100")?;
    assert_eq!(rt; pair_sugar(alloc, &basis, "12")?, 3);
    assert_eq!(rt; pair_sugar(alloc, &basis, "23")?, 2);
    assert_eq!(rt; sugar_after(alloc, 1, "100")?, 3);
    assert_eq!(rt; sugar_after(alloc, 2, "210")?, 5);
    Ok(())
}

// The witness of a pair.
fn witness(queue: &Queue, basis: &Vec<GPoly>, text: &str) -> Result<Option<u32>, Fail>
    requires { (n : ℕ) × Each (HasVars n) basis.now.items }
{
    let (i, j) = pair(basis, text)?;
    if basis.len() > 2048 {
        return Err("a basis has at most 2048 elements".into());
    }
    Ok(chain_witness(queue, basis, i, j))
}

// The witnesses of these pairs, one a line.
fn witnesses(alloc: Global, queue: &Queue, basis: &Vec<GPoly>, pairs: &str) -> Result<String, Fail>
    requires { (n : ℕ) × Each (HasVars n) basis.now.items }
{
    let mut text = String::new(alloc);
    for pair in pairs.lines() {
        match witness(queue, basis, pair)? {
            Some(k) => write!(text, "{pair} by {k}\n")?,
            None => write!(text, "{pair} by none\n")?,
        }
    }
    Ok(text)
}

// The witnesses of pairs of these elements, while others are queued.
fn skips(alloc: Global, n: usize, elements: &str, queued: &str, pairs: &str) -> Result<String, Fail>
    requires some { 1 ≤ n }
    requires few { n ≤ 16 }
{
    let (basis, queue) = made(alloc, n, elements, queued)?;
    witnesses(alloc, &queue, &basis, pairs)
}

#[test]
fn a_pair_is_skipped_by_two_that_are_not_queued(rt: HostRuntime) -> Result<(), Fail> {
    let alloc = rt.alloc();
    let text = skips(alloc, 3, "110 011 101", "", "12\n13\n23")?;
    assert_eq!(rt; text.as_str(), "12 by 3\n13 by 2\n23 by 1\n");
    let text = skips(alloc, 3, "110 011 101", "13", "12\n13\n23")?;
    assert_eq!(rt; text.as_str(), "12 by none\n13 by 2\n23 by none\n");
    Ok(())
}

#[test]
fn the_least_witness_counts(rt: HostRuntime) -> Result<(), Fail> {
    let alloc = rt.alloc();
    let elements = "0111 1011 1101 1110 0002";
    let text = skips(alloc, 4, elements, "", "34\n12\n15")?;
    assert_eq!(rt; text.as_str(), "34 by 1\n12 by 3\n15 by none\n");
    let text = skips(alloc, 4, elements, "13", "34\n12")?;
    assert_eq!(rt; text.as_str(), "34 by 2\n12 by 4\n");
    Ok(())
}
