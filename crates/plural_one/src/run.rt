//! A run of the program.

ghost use Rattle.std.specs.Prelude.{◌≡◌, map, string_bytes, IsFalse};
ghost use Rattle.plural_io.specs.Faults.{Rose};
ghost use Rattle.program_model.specs.Replies.{reads_source};
ghost use Rattle.program_model.specs.Runs.{IsRun, IsUndisturbed};

use command_words::{Program, read_words};
use commit_core::OneWorker;
use plural_io::{Sink, Source};
use program_run::{refuse_words, run_script};
use std::alloc::Global;

#[cfg(test)]
mod tests;

/// Answers the command words and the script that the source has left, or that the words ask to be made: writes the text
/// to the sink, and answers the status.
pub fn run_one<S: Source, K: Sink>(
    alloc: Global,
    words: &[String],
    source: &mut S,
    sink: &mut K,
) -> u8
    ensures run { IsRun Program.One (map string_bytes words.now)
        (record { left = S.left source.old; faults = S.faults source.old })
        (record { left = S.left source.new; faults = S.faults source.new })
        (record { held = K.held sink.old; faults = K.faults sink.old })
        (record { held = K.held sink.new; faults = K.faults sink.new }) result }
    // Refused words, and those that ask for a made script, leave the source as it was.
    ensures untouched { IsFalse (reads_source Program.One (map string_bytes words.now)) → source.new ≡ source.old }
    ensures read_fault { result ≡ 5 → Rose (S.faults source.old) (S.faults source.new) }
    ensures write_fault { result ≡ 6 → Rose (K.faults sink.old) (K.faults sink.new) }
    // Where neither count of faults rose, the whole text was written, or memory was wanting.
    ensures completes { (Rose (S.faults source.old) (S.faults source.new) → ⊥)
        → (Rose (K.faults sink.old) (K.faults sink.new) → ⊥)
        → IsUndisturbed Program.One (map string_bytes words.now)
        (record { left = S.left source.old; faults = S.faults source.old })
        (record { left = S.left source.new; faults = S.faults source.new })
        (record { held = K.held sink.old; faults = K.faults sink.old })
        (record { held = K.held sink.new; faults = K.faults sink.new }) result }
{
    match read_words(words, Program::One) {
        Some(settings) => {
            let mut engine = OneWorker::new();
            run_script(alloc, settings, source, sink, &mut engine)
        }
        None => refuse_words(alloc, Program::One, sink),
    }
}
