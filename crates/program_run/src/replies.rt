//! Replies to scripts and to refused words.

ghost use Rattle.std.specs.Prelude.{◌≡◌, ◌≤◌, ◌++◌, ℕ, List, codes, None, IsFalse, IfOk};
ghost use Rattle.plural_io.specs.Faults.{Rose};
ghost use Rattle.command_words.specs.declared.settings.Program.{Program};
ghost use Rattle.command_words.specs.Settings.{settings_of};
ghost use Rattle.case_maker.specs.Scripts.{made_script};
ghost use Rattle.word_model.specs.Answers.{line};
ghost use Rattle.script_model.specs.Scripts.{IsAnswer};
ghost use Rattle.program_model.specs.Replies.{words_answer, known_words, asks_source};
ghost use Rattle.program_model.specs.Runs.{IsReadOut, IsReplied};

use crate::status::Stopped;
use case_maker::script_of;
use command_words::{Program, Settings};
use plural_io::{ReadAllFault, Source, read_all};
use run_records::Engine;
use script_eval::{Reply, answer, too_long};
use std::alloc::{AllocError, Global};

const THREADS_WORDS: &[u8] = b"? Words, expected [--workers N] [--pairs N] [--make K]\n";

const ONE_WORDS: &[u8] = b"? Words, expected [--pairs N] [--make K]\n";

/// The reply to refused words.
pub fn reply_to_words(alloc: Global, program: Program) -> Result<Reply, AllocError>
    ensures { IfOk result (λ reply. reply ≡ words_answer program) }
{
    Ok(Reply {
        text: Vec::from_slice(alloc, expected_words(program))?,
        status: 2,
    })
}

// The line for refused words.
fn expected_words(program: Program) -> &'static [u8]
    ensures { result.now ≡ line (codes "? Words, expected " ++ known_words program) }
{
    match program {
        Program::Threads => THREADS_WORDS,
        Program::One => ONE_WORDS,
    }
}

/// The reply to the script that the source has left, or to the made one that the settings ask for.
pub fn reply_to_script<E: Engine, S: Source>(
    alloc: Global,
    settings: Settings,
    source: &mut S,
    engine: &mut E,
) -> Result<Reply, Stopped>
    requires ready { E.can_run engine.old }
    requires some { 1 ≤ settings.pairs }
    ensures reply { (program : Program) (words : List (List ℕ)) → settings_of program words ≡ Some settings →
        IfOk result (IsReplied program words
        (record { left = S.left source.old; faults = S.faults source.old })
        (record { left = S.left source.new; faults = S.faults source.new })) }
    ensures untouched { IsFalse (asks_source (Some settings)) → source.new ≡ source.old }
    ensures ready { E.can_run engine.new }
    ensures read { result ≡ Err Stopped.Read → (settings.make ≡ None) × Rose (S.faults source.old) (S.faults source.new) }
{
    match settings.make {
        Some(number) => Ok(reply_to_made(alloc, number, settings.pairs, engine)?),
        None => reply_to_source(alloc, source, settings.pairs, engine),
    }
}

// The reply to the made script of this number.
fn reply_to_made<E: Engine>(
    alloc: Global,
    number: u32,
    pairs: u32,
    engine: &mut E,
) -> Result<Reply, AllocError>
    requires ready { E.can_run engine.old }
    requires some { 1 ≤ pairs }
    ensures value { IfOk result (IsAnswer pairs (made_script number)) }
    ensures ready { E.can_run engine.new }
{
    let script = script_of(alloc, number)?;
    answer(alloc, &script, pairs, engine)
}

// The reply to the script that the source has left.
fn reply_to_source<E: Engine, S: Source>(
    alloc: Global,
    source: &mut S,
    pairs: u32,
    engine: &mut E,
) -> Result<Reply, Stopped>
    requires ready { E.can_run engine.old }
    requires some { 1 ≤ pairs }
    ensures reply { IfOk result (λ reply. (bytes : List ℕ) × IsReadOut bytes
        (record { left = S.left source.old; faults = S.faults source.old })
        (record { left = S.left source.new; faults = S.faults source.new }) × IsAnswer pairs bytes reply) }
    ensures ready { E.can_run engine.new }
    ensures read { result ≡ Err Stopped.Read → Rose (S.faults source.old) (S.faults source.new) }
{
    match read_all(alloc, source) {
        Ok(bytes) => Ok(answer(alloc, &bytes, pairs, engine)?),
        Err(ReadAllFault::TooLong) => Ok(too_long(alloc)?),
        Err(ReadAllFault::Failed) => Err(Stopped::Read),
        Err(ReadAllFault::Memory) => Err(Stopped::Memory),
    }
}
