//! A run of the program.

ghost use Rattle.std.specs.Prelude.{◌≡◌, ◌≤◌, ℕ, List, map, length, string_bytes, Some, IsFalse, IfOk};
ghost use Rattle.plural_io.specs.Faults.{Rose};
ghost use Rattle.monomials.specs.Polynomials.{Each, IsPolynomial};
ghost use Rattle.word_model.specs.Machine.{machine};
ghost use Rattle.command_words.specs.Settings.{settings_of};
ghost use Rattle.program_model.specs.Replies.{asks_source, reads_source};
ghost use Rattle.program_model.specs.Runs.{IsRun, IsUndisturbed};

use algebra::Algebra;
use command_words::{Program, Settings, read_words};
use crew::{By, Gate, crew_basis};
use gpoly::GPoly;
use plural_io::{Sink, Source};
use program_run::{refuse_words, run_script};
use run_records::{Journal, Mode};
use std::alloc::{AllocError, Global};
use std::sync::Wait;
use std::thread::Threads;

#[cfg(test)]
mod tests;

/// Answers the command words and the script that the source has left, or that the words ask to be made: writes the text
/// to the sink, and answers the status. Text and status are those of one worker, whatever the number of workers, and
/// whatever the gate does; of a run that does not return nothing is said.
pub fn run<R: Threads + Wait + Sync, S: Source, K: Sink, G: Gate + Sync>(
    rt: &R,
    alloc: Global,
    words: &[String],
    source: &mut S,
    sink: &mut K,
    gate: &G,
) -> u8
    ensures run { IsRun Program.Threads (map string_bytes words.now)
        (record { left = S.left source.old; faults = S.faults source.old })
        (record { left = S.left source.new; faults = S.faults source.new })
        (record { held = K.held sink.old; faults = K.faults sink.old })
        (record { held = K.held sink.new; faults = K.faults sink.new }) result }
    // Refused words, and those that ask for a made script, leave the source as it was.
    ensures untouched { IsFalse (reads_source Program.Threads (map string_bytes words.now)) → source.new ≡ source.old }
    ensures read_fault { result ≡ 5 → Rose (S.faults source.old) (S.faults source.new) }
    ensures write_fault { result ≡ 6 → Rose (K.faults sink.old) (K.faults sink.new) }
    // Where neither count of faults rose, the whole text was written, or memory was wanting.
    ensures completes { (Rose (S.faults source.old) (S.faults source.new) → ⊥)
        → (Rose (K.faults sink.old) (K.faults sink.new) → ⊥)
        → IsUndisturbed Program.Threads (map string_bytes words.now)
        (record { left = S.left source.old; faults = S.faults source.old })
        (record { left = S.left source.new; faults = S.faults source.new })
        (record { held = K.held sink.old; faults = K.faults sink.old })
        (record { held = K.held sink.new; faults = K.faults sink.new }) result }
{
    match read_words(words, Program::Threads) {
        Some(settings) => run_with_workers(rt, alloc, settings, source, sink, gate),
        None => refuse_words(alloc, Program::Threads, sink),
    }
}

// The run of a program that is told these settings, with so many workers. An `Engine` for any gate has to be made of a
// closure (`By`).
fn run_with_workers<R: Threads + Wait + Sync, S: Source, K: Sink, G: Gate + Sync>(
    rt: &R,
    alloc: Global,
    settings: Settings,
    source: &mut S,
    sink: &mut K,
    gate: &G,
) -> u8
    requires some { 1 ≤ settings.pairs }
    ensures run { (words : List (List ℕ)) → settings_of Program.Threads words ≡ Some settings →
        IsRun Program.Threads words
        (record { left = S.left source.old; faults = S.faults source.old })
        (record { left = S.left source.new; faults = S.faults source.new })
        (record { held = K.held sink.old; faults = K.faults sink.old })
        (record { held = K.held sink.new; faults = K.faults sink.new }) result }
    ensures untouched { IsFalse (asks_source (Some settings)) → source.new ≡ source.old }
{
    let workers = settings.workers;
    let mut crew = By {
        run: |alloc: Global, alg: &Algebra, gens: &[GPoly], mode: Mode, budget: u32| -> Result<
            Journal,
            AllocError,
        >
            requires { Each (IsPolynomial alg.now.p alg.now.order) gens.now × (length gens.now ≤ 4096) × (1 ≤ budget) }
            ensures { IfOk result (λ j. j ≡ machine alg.now gens.now mode budget) }
        { crew_basis(rt, alloc, workers, gate, alg, gens, mode, budget) },
    };
    run_script(alloc, settings, source, sink, &mut crew)
}
