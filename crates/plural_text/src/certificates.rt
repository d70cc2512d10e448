//! The text of a certificate.

ghost use Rattle.std.specs.Prelude.{◌≡◌, ◌≢◌, ◌<◌, ◌≤◌, ◌++◌, ◌-◌, ℕ, List, [], true, length, get_or, map, string_bytes, codes, IfOk, OnOk};
ghost use Rattle.std.specs.Fmt.{decimal};
ghost use Rattle.monomials.specs.Polynomials.{Polynomial, Each};
ghost use Rattle.word_model.specs.Texts.{number_text};
ghost use Rattle.word_model.specs.Machine.{IsElement};
ghost use Rattle.word_model.specs.CertificateTexts.{IsCertificateOf, element_text, step_text, steps_text, start_text, line_text, lines_text, final_text, finals_text, certificate_text};
ghost use Rattle.word_model.specs.declared.records.Job.TheVariants.{Pair};
ghost use Rattle.plural_text.specs.Names.{AreNames};
ghost use Rattle.plural_text.specs.Writable.{IsTermOf, IsStartOf, IsLineOf};

use crate::appending::write_number;
use crate::polynomials::write_term;
use algebra::{Algebra, ProductFault};
use cofactors::pairs::pair_terms;
use gpoly::{GPoly, Term};
use gproduct::{Steps, Table, TableSeat};
use itoa::Integer;
use prime_field::Field;
use run_records::{Chain, Entry, Job, Trace, TraceStep};
use std::alloc::{AllocError, Global};
use std::marker::Brand;
use std::sync::ledger::{Blank, Ledger};

/// The text of the certificate of a finished two-sided run whose basis is `basis`: a line
/// `c[k]=(SCALE)*(START-(TERM)*c[i]..)` for each element of the basis, which says how it was made of the
/// generators `f[s]` and of earlier elements, and a line `t[k]=c[o]-(TERM)*c[i]..` for each finished
/// element. START is `f[s]`, `(M)*c[i]-(T)*c[j]` for an S-polynomial, or `c[i]*v` for a variable v. The
/// terms M and T are made again, from the elements.
pub fn chain_text(
    alloc: Global,
    alg: &Algebra,
    names: &[String],
    basis: &[GPoly],
    chain: &Chain,
) -> Result<Vec<u8>, AllocError>
    requires names { AreNames alg.now.order.vars (map string_bytes names.now) }
    requires of_run { (gens : List Polynomial) × (budget : ℕ) × IsCertificateOf alg.now gens budget basis.now chain.now }
    ensures { IfOk result (λ text. text.items
        ≡ certificate_text alg.now (map string_bytes names.now) basis.now chain.now) }
{
    let _n = alg.n();
    let mut text = Vec::new(alloc);
    let lines = &chain.journal_lines;
    write_lines::<Brand>(alloc, &mut text, alg, names, basis, lines, Blank::new(1))?;
    let finished = &chain.finished;
    write_finals(&mut text, alg, names, &finished.origin, &finished.tails)?;
    Ok(text)
}

// Appends the lines of elements, with products that are counted on the blank.
fn write_lines<L: Ledger>(
    alloc: Global,
    text: &mut Vec<u8>,
    alg: &Algebra,
    names: &[String],
    basis: &[GPoly],
    lines: &[Entry],
    blank: Blank,
) -> Result<(), AllocError>
    requires names { AreNames alg.now.order.vars (map string_bytes names.now) }
    requires elements { Each (IsElement alg.now) basis.now }
    requires lines { Each (IsLineOf alg.now basis.now) lines.now }
    requires name { blank.name ≡ L.name }
    requires parts { blank.parts ≡ L.parts }
    requires some { 0 < blank.parts }
    ensures { OnOk result (text.new.items ≡ text.old.items
        ++ lines_text alg.now (map string_bytes names.now) basis.now 1 lines.now) }
{
    let table = Table::new(alloc, alg)?;
    let mut seat = table.seat(alloc)?;
    let mut steps = Steps::<L>::start(blank);
    for (index, line) in lines.iter().enumerate() {
        write_line(
            alloc,
            text,
            &mut seat,
            names,
            basis,
            index + 1,
            line,
            &mut steps,
        )?;
    }
    Ok(())
}

// Appends the line of the element of this number.
fn write_line<L: Ledger>(
    alloc: Global,
    text: &mut Vec<u8>,
    seat: &mut TableSeat,
    names: &[String],
    basis: &[GPoly],
    number: usize,
    line: &Entry,
    steps: &mut Steps<L>,
) -> Result<(), AllocError>
    requires names { AreNames seat.old.algebra.order.vars (map string_bytes names.now) }
    requires elements { Each (IsElement seat.old.algebra) basis.now }
    requires line { IsLineOf seat.old.algebra basis.now line.now }
    ensures value { OnOk result (text.new.items ≡ text.old.items
        ++ line_text seat.old.algebra (map string_bytes names.now) basis.now number line.now) }
    ensures algebra { seat.new.algebra ≡ seat.old.algebra }
{
    let Entry::New { job, trace, scale } = line else {
        return Ok(());
    };
    let field = seat.algebra().field();
    write_head(text, field, number, *scale)?;
    write_start(alloc, text, seat, names, basis, job, steps)?;
    write_steps(text, seat.algebra(), names, trace)?;
    text.extend_from_slice(b")\n")
}

// Appends what stands in front of a line's start.
fn write_head(text: &mut Vec<u8>, field: Field, number: usize, scale: u32) -> Result<(), AllocError>
    requires { scale < field }
    ensures { OnOk result (text.new.items ≡ text.old.items
        ++ (element_text number ++ (codes "=(" ++ (number_text field scale ++ codes ")*(")))) }
{
    write_element(text, number)?;
    text.extend_from_slice(b"=(")?;
    write_number(text, field.symmetric(scale))?;
    text.extend_from_slice(b")*(")
}

// Appends a job's start.
fn write_start<L: Ledger>(
    alloc: Global,
    text: &mut Vec<u8>,
    seat: &mut TableSeat,
    names: &[String],
    basis: &[GPoly],
    job: &Job,
    steps: &mut Steps<L>,
) -> Result<(), AllocError>
    requires names { AreNames seat.old.algebra.order.vars (map string_bytes names.now) }
    requires elements { Each (IsElement seat.old.algebra) basis.now }
    requires start { IsStartOf seat.old.algebra basis.now job.now }
    ensures value { OnOk result (text.new.items ≡ text.old.items
        ++ start_text seat.old.algebra (map string_bytes names.now) basis.now job.now) }
    ensures algebra { seat.new.algebra ≡ seat.old.algebra }
{
    match *job {
        Job::Seed { s } => write_generator(text, s),
        Job::Pair { i, j } => write_pair(alloc, text, seat, names, basis, i, j, steps),
        Job::Right { i, v } => write_right(text, names, i, v),
    }
}

// Appends the generator of this number.
fn write_generator(text: &mut Vec<u8>, number: u32) -> Result<(), AllocError>
    ensures { OnOk result (text.new.items ≡ text.old.items ++ (codes "f[" ++ (decimal number ++ codes "]"))) }
{
    text.extend_from_slice(b"f[")?;
    write_number(text, number)?;
    text.push(b']')?;
    Ok(())
}

// Appends an element times a variable.
fn write_right(text: &mut Vec<u8>, names: &[String], i: u32, v: u8) -> Result<(), AllocError>
    requires first { 1 ≤ v }
    requires last { v ≤ length names.now }
    ensures { OnOk result (text.new.items ≡ text.old.items
        ++ (element_text i ++ (codes "*" ++ get_or (map string_bytes names.now) (v - 1) []))) }
{
    write_element(text, i)?;
    text.push(b'*')?;
    text.extend_from_slice(names[v as usize - 1].as_bytes())
}

// Appends the S-polynomial of two elements, as the difference of their multiples.
fn write_pair<L: Ledger>(
    alloc: Global,
    text: &mut Vec<u8>,
    seat: &mut TableSeat,
    names: &[String],
    basis: &[GPoly],
    i: u32,
    j: u32,
    steps: &mut Steps<L>,
) -> Result<(), AllocError>
    requires names { AreNames seat.old.algebra.order.vars (map string_bytes names.now) }
    requires elements { Each (IsElement seat.old.algebra) basis.now }
    requires start { IsStartOf seat.old.algebra basis.now (Pair i j) }
    ensures value { OnOk result (text.new.items ≡ text.old.items
        ++ start_text seat.old.algebra (map string_bytes names.now) basis.now (Pair i j)) }
    ensures algebra { seat.new.algebra ≡ seat.old.algebra }
{
    let (f, g) = (&basis[i as usize - 1], &basis[j as usize - 1]);
    let (first, second) = match pair_terms(alloc, seat, f, g, steps) {
        Ok(terms) => terms,
        Err(ProductFault::Memory) => return Err(AllocError),
        Err(ProductFault::DegreeOver) => unreachable!(),
    };
    let field = seat.algebra().field();
    text.push(b'(')?;
    write_term(text, field, names, &first)?;
    text.extend_from_slice(b")*")?;
    write_element(text, i)?;
    let step = TraceStep {
        coef: second.coef,
        mono: second.mono,
        index: j,
    };
    write_step(text, field, names, &step)
}

// Appends steps.
fn write_steps(
    text: &mut Vec<u8>,
    alg: &Algebra,
    names: &[String],
    trace: &Trace,
) -> Result<(), AllocError>
    requires names { AreNames alg.now.order.vars (map string_bytes names.now) }
    requires steps { Each (IsTermOf alg.now) trace.now }
    ensures { OnOk result (text.new.items ≡ text.old.items ++ steps_text alg.now.p (map string_bytes names.now) trace.now) }
{
    let field = alg.field();
    let made = trace.steps();
    for step in made {
        write_step(text, field, names, step)?;
    }
    Ok(())
}

// Appends a step.
fn write_step(
    text: &mut Vec<u8>,
    field: Field,
    names: &[String],
    step: &TraceStep,
) -> Result<(), AllocError>
    requires number { step.now.coef < field }
    requires names { AreNames (length step.now.mono) (map string_bytes names.now) }
    ensures { OnOk result (text.new.items ≡ text.old.items ++ step_text field (map string_bytes names.now) step.now) }
{
    let term = Term {
        coef: step.coef,
        mono: step.mono,
    };
    text.extend_from_slice(b"-(")?;
    write_term(text, field, names, &term)?;
    text.extend_from_slice(b")*")?;
    write_element(text, step.index)
}

// Appends the element of this number.
fn write_element<I: Integer>(text: &mut Vec<u8>, number: I) -> Result<(), AllocError>
    ensures { OnOk result (text.new.items ≡ text.old.items ++ (codes "c[" ++ (I.text number ++ codes "]"))) }
{
    text.extend_from_slice(b"c[")?;
    write_number(text, number)?;
    text.push(b']')?;
    Ok(())
}

// Appends the lines of a finished list.
fn write_finals(
    text: &mut Vec<u8>,
    alg: &Algebra,
    names: &[String],
    origin: &[u32],
    tails: &[Trace],
) -> Result<(), AllocError>
    requires names { AreNames alg.now.order.vars (map string_bytes names.now) }
    requires tails { Each (Each (IsTermOf alg.now)) tails.now }
    requires one_each { length origin.now ≡ length tails.now }
    ensures { OnOk result (text.new.items ≡ text.old.items
        ++ finals_text alg.now.p (map string_bytes names.now) 1 origin.now tails.now) }
{
    for place in 0..origin.len() {
        write_final(text, alg, names, place + 1, origin[place], &tails[place])?;
    }
    Ok(())
}

// Appends the line of the finished element of this number.
fn write_final(
    text: &mut Vec<u8>,
    alg: &Algebra,
    names: &[String],
    number: usize,
    origin: u32,
    tail: &Trace,
) -> Result<(), AllocError>
    requires names { AreNames alg.now.order.vars (map string_bytes names.now) }
    requires tail { Each (IsTermOf alg.now) tail.now }
    ensures { OnOk result (text.new.items ≡ text.old.items
        ++ final_text alg.now.p (map string_bytes names.now) number origin tail.now) }
{
    text.extend_from_slice(b"t[")?;
    write_number(text, number)?;
    text.extend_from_slice(b"]=")?;
    write_element(text, origin)?;
    write_steps(text, alg, names, tail)?;
    text.push(b'\n')?;
    Ok(())
}
