//! Jobs, traces and entries as texts.

ghost use Rattle.std.specs.Prelude.{◌≡◌, ◌<◌, ◌++◌, codes, decimal, get_or, length, string_bytes, OnOk};
ghost use Rattle.worked_algebras.specs.Texts.{exponent_text, term_text, job_text, step_text, trace_text, entry_text, entries_text};

use monomials::Expo;
use std::alloc::AllocError;
use word_model::records::{Entry, Job, Trace, TraceStep};

// Adds the exponent at a place.
fn push_exponent(text: &mut String, mono: &Expo, place: usize) -> Result<(), AllocError>
    requires { place < length mono.now }
    ensures { OnOk result (string_bytes text.new ≡ string_bytes text.old ++ exponent_text (get_or mono.now place 0)) }
{
    let _count = mono.len();
    let exponent = mono.get(place as u8 + 1);
    write!(text, ".{exponent}")?;
    Ok(())
}

/// Adds a number and exponents, as ` 2.1.0`.
pub fn push_term(text: &mut String, coef: u32, mono: &Expo) -> Result<(), AllocError>
    ensures { OnOk result (string_bytes text.new ≡ string_bytes text.old ++ term_text coef mono.now) }
{
    write!(text, " {coef}")?;
    for place in 0..mono.len() {
        push_exponent(text, mono, place)?;
    }
    Ok(())
}

/// Adds a job, as ` Pair 1 2`.
pub fn push_job(text: &mut String, job: &Job) -> Result<(), AllocError>
    ensures { OnOk result (string_bytes text.new ≡ string_bytes text.old ++ job_text job.now) }
{
    match job {
        Job::Seed { s } => write!(text, " Seed {s}")?,
        Job::Pair { i, j } => write!(text, " Pair {i} {j}")?,
        Job::Right { i, v } => write!(text, " Right {i} {v}")?,
    }
    Ok(())
}

// Adds a step.
fn push_step(text: &mut String, step: &TraceStep) -> Result<(), AllocError>
    ensures { OnOk result (string_bytes text.new ≡ string_bytes text.old ++ step_text step.now) }
{
    let index = step.index;
    push_term(text, step.coef, &step.mono)?;
    write!(text, " by {index}")?;
    Ok(())
}

/// Adds the steps, each as its term and the number of its element, as ` 2.1.0 by 1`.
pub fn push_trace(text: &mut String, trace: &Trace) -> Result<(), AllocError>
    ensures { OnOk result (string_bytes text.new ≡ string_bytes text.old ++ trace_text trace.now) }
{
    let steps = trace.steps();
    for step in steps {
        push_step(text, step)?;
    }
    Ok(())
}

fn push_skipped(text: &mut String, job: &Job, by: u32) -> Result<(), AllocError>
    ensures { OnOk result (string_bytes text.new
        ≡ string_bytes text.old ++ (codes "Skipped" ++ (job_text job.now ++ (codes " by " ++ decimal by)))) }
{
    text.push_str("Skipped")?;
    push_job(text, job)?;
    write!(text, " by {by}")?;
    Ok(())
}

fn push_zero(text: &mut String, job: &Job, trace: &Trace) -> Result<(), AllocError>
    ensures { OnOk result (string_bytes text.new
        ≡ string_bytes text.old ++ (codes "Zero" ++ (job_text job.now ++ trace_text trace.now))) }
{
    text.push_str("Zero")?;
    push_job(text, job)?;
    push_trace(text, trace)?;
    Ok(())
}

fn push_new(text: &mut String, job: &Job, trace: &Trace, scale: u32) -> Result<(), AllocError>
    ensures { OnOk result (string_bytes text.new
        ≡ string_bytes text.old ++ (codes "New" ++ (job_text job.now ++ (trace_text trace.now ++ (codes " times " ++ decimal scale))))) }
{
    text.push_str("New")?;
    push_job(text, job)?;
    push_trace(text, trace)?;
    write!(text, " times {scale}")?;
    Ok(())
}

fn push_entry(text: &mut String, entry: &Entry) -> Result<(), AllocError>
    ensures { OnOk result (string_bytes text.new ≡ string_bytes text.old ++ entry_text entry.now) }
{
    match entry {
        Entry::Skipped { job, by } => push_skipped(text, job, *by),
        Entry::Zero { job, trace } => push_zero(text, job, trace),
        Entry::New { job, trace, scale } => push_new(text, job, trace, *scale),
    }
}

// Adds an entry and the end of its line.
fn push_line(text: &mut String, entry: &Entry) -> Result<(), AllocError>
    ensures { OnOk result (string_bytes text.new ≡ string_bytes text.old ++ (entry_text entry.now ++ codes "\n")) }
{
    push_entry(text, entry)?;
    text.push_str("\n")?;
    Ok(())
}

/// Adds the entries, one a line, each with its job, its trace and what it brought.
pub fn push_entries(text: &mut String, entries: &[Entry]) -> Result<(), AllocError>
    ensures { OnOk result (string_bytes text.new ≡ string_bytes text.old ++ entries_text entries.now) }
{
    for entry in entries {
        push_line(text, entry)?;
    }
    Ok(())
}
