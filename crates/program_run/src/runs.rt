//! Runs of a program whose words are read.

ghost use Rattle.std.specs.Prelude.{◌≡◌, ◌≤◌, ℕ, List, Some, None, IsFalse};
ghost use Rattle.command_words.specs.declared.settings.Program.{Program};
ghost use Rattle.command_words.specs.Settings.{settings_of};
ghost use Rattle.program_model.specs.Replies.{asks_source};
ghost use Rattle.program_model.specs.Runs.{SourceSeen, IsReplied, IsRun};

use crate::replies::{reply_to_script, reply_to_words};
use crate::status::{NO_MEMORY, WRITE_FAILED};
use command_words::{Program, Settings};
use plural_io::{Sink, Source, write_all_of};
use run_records::Engine;
use script_eval::Reply;
use std::alloc::Global;

/// The run of a program that refuses its words: writes the line that says which it knows, and answers the status. It
/// has no source, since refused words leave it unread.
pub fn refuse_words<K: Sink>(alloc: Global, program: Program, sink: &mut K) -> u8
    ensures { (words : List (List ℕ)) (source : SourceSeen) → settings_of program words ≡ None →
        IsRun program words source source
        (record { held = K.held sink.old; faults = K.faults sink.old })
        (record { held = K.held sink.new; faults = K.faults sink.new }) result }
{
    match reply_to_words(alloc, program) {
        Ok(reply) => write_reply(sink, &reply),
        Err(_) => NO_MEMORY,
    }
}

/// The run of a program that is told these settings: the engine answers the script that the source has left, or the
/// made one that the settings ask for. The whole text stands before the first write. The engine can run again.
pub fn run_script<E: Engine, S: Source, K: Sink>(
    alloc: Global,
    settings: Settings,
    source: &mut S,
    sink: &mut K,
    engine: &mut E,
) -> u8
    requires ready { E.can_run engine.old }
    requires some { 1 ≤ settings.pairs }
    ensures run { (program : Program) (words : List (List ℕ)) → settings_of program words ≡ Some settings →
        IsRun program words
        (record { left = S.left source.old; faults = S.faults source.old })
        (record { left = S.left source.new; faults = S.faults source.new })
        (record { held = K.held sink.old; faults = K.faults sink.old })
        (record { held = K.held sink.new; faults = K.faults sink.new }) result }
    // A made script leaves the source as it was.
    ensures untouched { IsFalse (asks_source (Some settings)) → source.new ≡ source.old }
    ensures ready { E.can_run engine.new }
{
    match reply_to_script(alloc, settings, source, engine) {
        Ok(reply) => write_reply(sink, &reply),
        Err(stopped) => stopped.status(),
    }
}

// Writes a reply, and answers the status.
fn write_reply<K: Sink>(sink: &mut K, reply: &Reply) -> u8
    ensures { (program : Program) (words : List (List ℕ)) (source source' : SourceSeen) →
        IsReplied program words source source' reply.now → IsRun program words source source'
        (record { held = K.held sink.old; faults = K.faults sink.old })
        (record { held = K.held sink.new; faults = K.faults sink.new }) result }
{
    match write_all_of(sink, &reply.text) {
        Ok(()) => reply.status,
        Err(_) => WRITE_FAILED,
    }
}
