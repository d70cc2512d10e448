//! Answers the bytes of scripts.

ghost use Rattle.std.specs.Prelude.{◌≡◌, ◌≢◌, ◌≤◌, codes, length, IfOk};
ghost use Rattle.plural_lexer.specs.Tokens.{AreTokensOf};
ghost use Rattle.word_model.specs.Answers.{most_bytes};
ghost use Rattle.script_model.specs.Scripts.{IsAnswer, refused, refused_at, fault_answer};

use crate::evaluation::eval;
use crate::reply::Reply;
use plural_lexer::{LexFault, Token, tokens};
use plural_syntax::{SyntaxFault, parse};
use run_records::Engine;
use script_names::laws::variables_have_names;
use std::alloc::{AllocError, Global};

/// The most bytes that a script may have.
pub const MOST_BYTES: usize = 1048576;

/// The text and the status that bytes are answered: too many of them are refused, then a fault of the tokens, then one of
/// the grammar; else the script is evaluated. `budget` is the most entries that a run may have.
pub fn answer<E: Engine>(
    alloc: Global,
    bytes: &[u8],
    budget: u32,
    engine: &mut E,
) -> Result<Reply, AllocError>
    requires ready { E.can_run engine.old }
    requires some { 1 ≤ budget }
    ensures ready { E.can_run engine.new }
    ensures value { IfOk result (IsAnswer budget bytes.now) }
{
    if bytes.len() > MOST_BYTES {
        return too_long(alloc);
    }
    match tokens(alloc, bytes) {
        Ok(tokens) => answer_tokens(alloc, bytes, &tokens, budget, engine),
        Err(fault) => answer_fault(alloc, &fault),
    }
}

/// What more bytes than a script may have are answered.
pub fn too_long(alloc: Global) -> Result<Reply, AllocError>
    ensures { IfOk result (λ reply. reply ≡ refused (codes "TooLong")) }
{
    refused(alloc, "TooLong")
}

// What the tokens of bytes are answered.
fn answer_tokens<E: Engine>(
    alloc: Global,
    bytes: &[u8],
    tokens: &[Token],
    budget: u32,
    engine: &mut E,
) -> Result<Reply, AllocError>
    requires ready { E.can_run engine.old }
    requires some { 1 ≤ budget }
    requires short { length bytes.now ≤ most_bytes }
    requires tokens { AreTokensOf bytes.now tokens.now }
    ensures ready { E.can_run engine.new }
    ensures value { IfOk result (IsAnswer budget bytes.now) }
{
    match parse(alloc, bytes, tokens) {
        Ok(script) => {
            variables_have_names();
            eval(alloc, bytes, script.statements.as_slice(), budget, engine)
        }
        Err(SyntaxFault::Unexpected { line, column }) => {
            refused_at(alloc, line, column, "Unexpected")
        }
        Err(SyntaxFault::Deep { line, column }) => refused_at(alloc, line, column, "Deep"),
        Err(SyntaxFault::Memory) => Err(AllocError),
    }
}

// What a fault of the tokens is answered.
fn answer_fault(alloc: Global, fault: &LexFault) -> Result<Reply, AllocError>
    ensures { IfOk result (λ reply. (fault.now ≢ LexFault.Memory) × (reply ≡ fault_answer fault.now)) }
{
    match fault {
        LexFault::BadByte { line, column } => refused_at(alloc, *line, *column, "BadByte"),
        LexFault::LongNumber { line, column } => refused_at(alloc, *line, *column, "LongNumber"),
        LexFault::OpenComment { line, column } => refused_at(alloc, *line, *column, "OpenComment"),
        LexFault::Memory => Err(AllocError),
    }
}

// The refusal with this word of a place.
fn refused_at(alloc: Global, line: u32, column: u32, word: &str) -> Result<Reply, AllocError>
    ensures { IfOk result (λ reply. reply ≡ refused_at line column word.now) }
{
    let words = format!(in alloc; "line {line} column {column}: {word}")?;
    refused(alloc, &words)
}

// The refusal with these words.
fn refused(alloc: Global, words: &str) -> Result<Reply, AllocError>
    ensures { IfOk result (λ reply. reply ≡ refused words.now) }
{
    let text = format!(in alloc; "? {words}\n")?;
    Ok(Reply {
        text: text.into_bytes(),
        status: 1,
    })
}
