//! Worked certificates in the Weyl algebra. Polynomials are texts: their terms, each a number and
//! exponents.

ghost use Rattle.std.specs.Prelude.{◌≡◌, ◌<◌, ◌≤◌, ◌++◌, ◌∷◌, [], IfOk, OnOk, length};
ghost use Rattle.monomials.specs.Monomials.{degree};
ghost use Rattle.monomials.specs.Polynomials.{Each, IsPolynomial};
ghost use Rattle.two_sided.specs.Checks.{IsTerm, IsLine, IsCheckable};

use crate::pushing::push;
use crate::{Chain, check_chain};
use algebra::{Algebra, ProductFault, Relations};
use gpoly::{GPoly, Term};
use gproduct::{Steps, Table};
use monomials::{Block, Expo, Order};
use prime_field::Field;
use run_records::{Entry, Finished, Job, Trace, TraceStep};
use std::alloc::{AllocError, Global};
use std::marker::Brand;
use std::sync::ledger::{Blank, Ledger};
use std::test::Fail;

// The monomial with these exponents of x and d.
fn monomial(x: &str, d: &str) -> Result<Expo, Fail>
    ensures vars { IfOk result (λ m. length m ≡ 2) }
    ensures small { IfOk result (λ m. degree m ≤ 4095) }
{
    let (x, d) = (x.parse::<u16>()?, d.parse::<u16>()?);
    if u32::from(x) + u32::from(d) > 4095 {
        return Err("a monomial has degree 4095 at most".into());
    }
    Ok(Expo::of(&[x, d]))
}

// The term of a text, as `2.1.0` for 2 x.
fn term(alloc: Global, field: Field, order: &Order, text: &str) -> Result<GPoly, Fail>
    requires { order.now.vars ≡ 2 }
    ensures { IfOk result (λ f. IsPolynomial field order.now f) }
{
    let (number, exponents) = text.split_once('.').ok_or("a term has exponents")?;
    let (x, d) = exponents.split_once('.').ok_or("a term has two exponents")?;
    let coef = field.from_int(number.parse::<u64>()?);
    let mono = monomial(x, d)?;
    let term = GPoly::from_terms(alloc, field, order, &[Term { coef, mono }])?;
    Ok(term)
}

// The polynomials between the semicolons of a text, of one term each.
fn polys(alloc: Global, alg: &Algebra, text: &str) -> Result<Vec<GPoly>, Fail>
    requires { alg.now.order.vars ≡ 2 }
    ensures { IfOk result (λ fs. Each (IsPolynomial alg.now.p alg.now.order) fs.items) }
{
    let mut polys = Vec::new(alloc);
    for piece in text.split(';') {
        polys.push(term(alloc, alg.field(), alg.order(), piece)?)?;
    }
    Ok(polys)
}

// The algebra in x and d with d x = x d + 1, modulo 7.
fn weyl(alloc: Global) -> Result<Algebra, Fail>
    ensures { IfOk result (λ a. a.order.vars ≡ 2) }
{
    let field = Field::of(7)?;
    let order = Order::new(alloc, &[Block::DegRev { len: 2 }], 2)?;
    let one = term(alloc, field, &order, "1.0.0")?;
    let c = Vec::from_array(alloc, [1])?;
    let d = Vec::from_array(alloc, [one]).map_err(AllocError::from)?;
    Ok(Algebra::new(alloc, field, order, 2, Relations { c, d })?)
}

// The step of a text, as `1.0.1.2` for d times element 2.
fn step(field: Field, text: &str) -> Result<TraceStep, Fail>
    ensures some { IfOk result (λ s. 0 < s.coef) }
    ensures small { IfOk result (λ s. s.coef < field) }
    ensures vars { IfOk result (λ s. length s.mono ≡ 2) }
    ensures low { IfOk result (λ s. degree s.mono ≤ 4095) }
{
    let (number, rest) = text.split_once('.').ok_or("a step has a monomial")?;
    let (x, rest) = rest.split_once('.').ok_or("a step has two exponents")?;
    let (d, index) = rest.split_once('.').ok_or("a step has an element")?;
    let coef = field.from_int(number.parse::<u64>()?);
    if coef == 0 {
        return Err("a step's number is not zero".into());
    }
    let mono = monomial(x, d)?;
    let index = index.parse::<u32>()?;
    Ok(TraceStep { coef, mono, index })
}

// The steps of a text, with spaces between them.
fn trace(alloc: Global, alg: &Algebra, text: &str) -> Result<Trace, Fail>
    requires { alg.now.order.vars ≡ 2 }
    ensures { IfOk result (λ t. Each (IsTerm alg.now) t) }
{
    let mut trace = Trace::new(alloc);
    let field = alg.field();
    if text.is_empty() {
        return Ok(trace);
    }
    for piece in text.split(' ') {
        let made = step(field, piece)?;
        trace.push(made)?;
    }
    Ok(trace)
}

// The job of a text, as `r.1.2` for element 1 times d; a generator's second number does not count.
fn job(text: &str) -> Result<Job, Fail> {
    let (kind, numbers) = text.split_once('.').ok_or("a job has a kind")?;
    let (first, second) = numbers.split_once('.').ok_or("a job has two numbers")?;
    let i = first.parse::<u32>()?;
    Ok(match kind {
        "s" => Job::Seed { s: i },
        "p" => Job::Pair {
            i,
            j: second.parse::<u32>()?,
        },
        _ => Job::Right {
            i,
            v: second.parse::<u8>()?,
        },
    })
}

// The line of a text: its job, its scale, and its steps. The scale 0 makes an entry without an element.
fn line(alloc: Global, alg: &Algebra, text: &str) -> Result<Entry, Fail>
    requires { alg.now.order.vars ≡ 2 }
    ensures { IfOk result (IsLine alg.now) }
{
    let (start, rest) = text.split_once(' ').ok_or("a line has a job")?;
    let (number, steps) = rest.split_once(' ').ok_or("a line has a scale")?;
    let job = job(start)?;
    let trace = trace(alloc, alg, steps)?;
    let scale = alg.field().from_int(number.parse::<u64>()?);
    if scale == 0 {
        return Ok(Entry::Zero { job, trace });
    }
    Ok(Entry::New { job, trace, scale })
}

fn lines(alloc: Global, alg: &Algebra, text: &str) -> Result<Vec<Entry>, Fail>
    requires { alg.now.order.vars ≡ 2 }
    ensures { IfOk result (λ lines. Each (IsLine alg.now) lines.items) }
{
    let mut lines = Vec::new(alloc);
    for piece in text.split(';') {
        let made = line(alloc, alg, piece)?;
        push(&mut lines, made)?;
    }
    Ok(lines)
}

fn tails(alloc: Global, alg: &Algebra, text: &str) -> Result<Vec<Trace>, Fail>
    requires { alg.now.order.vars ≡ 2 }
    ensures { IfOk result (λ tails. Each (Each (IsTerm alg.now)) tails.items) }
{
    let mut tails = Vec::new(alloc);
    for piece in text.split(';') {
        let made = trace(alloc, alg, piece)?;
        push(&mut tails, made)?;
    }
    Ok(tails)
}

fn origins(alloc: Global, text: &str) -> Result<Vec<u32>, Fail> {
    let mut origins = Vec::new(alloc);
    for piece in text.split(';') {
        origins.push(piece.parse::<u32>()?)?;
    }
    Ok(origins)
}

// What the check says of a certificate with these lines, elements, origins and tails.
fn verdict(
    alloc: Global,
    alg: &Algebra,
    gens: &str,
    made: &str,
    list: &str,
    ends: (&str, &str),
) -> Result<Result<bool, ProductFault>, Fail>
    requires { alg.now.order.vars ≡ 2 }
{
    let gens = polys(alloc, alg, gens)?;
    let journal_lines = lines(alloc, alg, made)?;
    let (origin, tails) = (origins(alloc, ends.0)?, tails(alloc, alg, ends.1)?);
    let list = polys(alloc, alg, list)?;
    let chain = Chain {
        journal_lines,
        finished: Finished {
            list,
            origin,
            tails,
        },
    };
    Ok(counted::<Brand>(alloc, alg, &gens, &chain, Blank::new(1)))
}

// The same, with a counter on the blank.
fn counted<L: Ledger>(
    alloc: Global,
    alg: &Algebra,
    gens: &[GPoly],
    chain: &Chain,
    blank: Blank,
) -> Result<bool, ProductFault>
    requires generators { Each (IsPolynomial alg.now.p alg.now.order) gens.now }
    requires numbers { IsCheckable alg.now chain.now }
    requires name { blank.name ≡ L.name }
    requires parts { blank.parts ≡ L.parts }
    requires some { 0 < blank.parts }
{
    let table = Table::new(alloc, alg)?;
    let mut seat = table.seat(alloc)?;
    let mut steps = Steps::<L>::start(blank);
    check_chain(alloc, &mut seat, gens, chain, &mut steps)
}

// Generators, lines, elements, origins, tails, and what the check says. In turn: the certificate of
// the run over x, with another scale, with an element of a later line in a job and in a step, with a
// line that is no `New`, with a generator that is not there, with origins that are not there or are
// another's, with a tail too few and too many, with a tail that leaves something else, with a list of
// both elements, and with products of degree 4096 in a job and in a tail.
const CERTIFICATES: &str = "\
1.1.0|s.1.0 1 ;r.1.2 6 1.0.1.1|1.0.0|2||yes
1.1.0|s.1.0 1 ;r.1.2 1 1.0.1.1|1.0.0|2||no
1.1.0|s.1.0 1 ;r.2.2 6 1.0.1.1|1.0.0|2||no
1.1.0|s.1.0 1 ;r.1.2 6 1.0.1.2|1.0.0|2||no
1.1.0|s.1.0 0 ;r.1.2 6 1.0.1.1|1.0.0|2||no
1.1.0|s.2.0 1 ;r.1.2 6 1.0.1.1|1.0.0|2||no
1.1.0|s.1.0 1 ;p.1.1 6 1.0.1.1|1.0.0|2||no
1.1.0|s.1.0 1 ;r.1.3 6 1.0.1.1|1.0.0|2||no
1.1.0|s.1.0 1 ;r.1.2 6 1.0.1.1|1.0.0|3||no
1.1.0|s.1.0 1 ;r.1.2 6 1.0.1.1|1.0.0|0||no
1.1.0|s.1.0 1 ;r.1.2 6 1.0.1.1|1.0.0|1||no
1.1.0|s.1.0 1 ;r.1.2 6 1.0.1.1|1.0.0;1.1.0|2;1||no
1.1.0|s.1.0 1 ;r.1.2 6 1.0.1.1|1.0.0|2;1|;|no
1.1.0|s.1.0 1 ;r.1.2 6 1.0.1.1|1.0.0|2|1.0.0.2|no
1.1.0|s.1.0 1 ;r.1.2 6 1.0.1.1|1.0.0;1.1.0|2;1|;|yes
1.4095.0|s.1.0 1 ;r.1.2 6 |1.0.0|2||high
1.1.0|s.1.0 1 |1.1.0|1|1.0.4095.1|high";

#[test]
fn worked_certificates(rt: HostRuntime) -> Result<(), Fail> {
    let alloc = rt.alloc();
    let alg = weyl(alloc)?;
    for row in CERTIFICATES.lines() {
        let fields: Vec<&str> = row.split('|').collect(alloc)?;
        let [gens, made, list, origin, tails, want] = fields.as_slice() else {
            return Err("a row has six fields".into());
        };
        let said = match verdict(alloc, &alg, gens, made, list, (origin, tails))? {
            Ok(true) => "yes",
            Ok(false) => "no",
            Err(ProductFault::DegreeOver) => "high",
            Err(ProductFault::Memory) => "memory",
        };
        assert!(rt; said == *want, "{row}");
    }
    Ok(())
}
