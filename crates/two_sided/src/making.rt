//! The certificate of a run.

ghost use Rattle.std.specs.Prelude.{◌≡◌, ◌++◌, ◌∷◌, [], IfOk, OnOk};
ghost use Rattle.word_model.specs.Certificates.{made_lines};

use crate::pushing::push;
use gpoly::copies;
use run_records::{Chain, Entry, Finished, Journal, Trace};
use std::alloc::{AllocError, Global};

/// The certificate of a run with this journal: its `New` entries, in order, and its finished list.
/// It is made of a two-sided run, whose basis a script prints by `twostd`, but serves any run.
pub fn chain(alloc: Global, journal: &Journal, finished: &Finished) -> Result<Chain, AllocError>
    ensures lines { IfOk result (λ c. c.lines ≡ made_lines journal.now.entries) }
    ensures list { IfOk result (λ c. c.finished ≡ finished.now) }
{
    let journal_lines = new_entries(alloc, &journal.entries)?;
    let finished = copied(alloc, finished)?;
    Ok(Chain {
        journal_lines,
        finished,
    })
}

// Copies of the entries that made elements.
fn new_entries(alloc: Global, entries: &[Entry]) -> Result<Vec<Entry>, AllocError>
    ensures { IfOk result (λ lines. lines.items ≡ made_lines entries.now) }
{
    let mut lines = Vec::new(alloc);
    for entry in entries {
        add_new(alloc, &mut lines, entry)?;
    }
    Ok(lines)
}

// Adds a copy of an entry, if it made an element.
fn add_new(alloc: Global, lines: &mut Vec<Entry>, entry: &Entry) -> Result<(), AllocError>
    ensures { OnOk result (lines.new.items ≡ lines.old.items ++ made_lines (entry.now ∷ [])) }
{
    match entry {
        Entry::New { .. } => {
            let line = entry.copy(alloc)?;
            push(lines, line)
        }
        Entry::Skipped { .. } | Entry::Zero { .. } => Ok(()),
    }
}

// The same finished list, in memory of its own.
fn copied(alloc: Global, finished: &Finished) -> Result<Finished, AllocError>
    ensures { IfOk result (λ f. f ≡ finished.now) }
{
    let list = copies(alloc, &finished.list)?;
    let origin = Vec::from_slice(alloc, &finished.origin)?;
    let tails = copied_tails(alloc, &finished.tails)?;
    Ok(Finished {
        list,
        origin,
        tails,
    })
}

// The same traces, in memory of their own.
fn copied_tails(alloc: Global, tails: &[Trace]) -> Result<Vec<Trace>, AllocError>
    ensures { IfOk result (λ t. t.items ≡ tails.now) }
{
    let mut copies = Vec::with_capacity(alloc, tails.len())?;
    for tail in tails {
        copies.push(tail.copy(alloc)?)?;
    }
    Ok(copies)
}
