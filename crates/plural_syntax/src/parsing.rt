//! Reads scripts.

ghost use Rattle.std.specs.Prelude.{◌≡◌, ◌<◌, ◌≤◌, [], length, IfOk, OnOk};
ghost use Rattle.plural_lexer.specs.Tokens.{AreTokensOf};
ghost use Rattle.plural_syntax.specs.Words.{head_is, lexemes};
ghost use Rattle.plural_syntax.specs.Inside.Reading as spec;
ghost use Rattle.plural_syntax.specs.Outcome.{Answers};

use crate::levels::Levels;
use crate::reading::{Stop, take};
use crate::statements::statement;
use crate::tree::{Script, Statement};
use crate::word::{Word, next_is};
use plural_lexer::Token;
use sqlite_items::Items;
use std::alloc::Global;
use thiserror::Error;

/// Why tokens are no script, with the place of the token that shows it.
#[derive(Debug, PartialEq, Eq, Drop, Error)]
pub enum SyntaxFault {
    /// The first token such that the tokens up to and with it begin no script.
    #[error("line {line} column {column}: unexpected here")]
    Unexpected { line: u32, column: u32 },
    /// The first `(` that opens a 65th level, where the tokens up to and with it begin a script.
    #[error("line {line} column {column}: more than 64 levels")]
    Deep { line: u32, column: u32 },
    #[error("out of memory")]
    Memory,
}

fn next_is_no_end(bytes: &[u8], tokens: &[Token]) -> bool
    ensures { result ≡ head_is spec.not_end (lexemes bytes.now tokens.now) }
{
    !tokens.is_empty() && !next_is(bytes, tokens, Word::End)
}

fn statements<'a>(
    alloc: Global,
    bytes: &[u8],
    levels: &mut Levels,
    tokens: &'a [Token],
) -> Result<(Items<Statement>, &'a [Token]), Stop<'a>>
    requires { 2 ≤ levels.old }
    ensures value { spec.Gives bytes.now result (spec.many spec.not_end (spec.statement_with (spec.inside levels.old)) (lexemes bytes.now tokens.now)) }
    ensures shorter { IfOk result (λ x. length x.1.now ≤ length tokens.now) }
    ensures same { OnOk result (levels.new ≡ levels.old) }
{
    let mut found: Items<Statement> = Items::new(alloc);
    let mut rest = tokens;
    while next_is_no_end(bytes, rest) {
        let (one, after) = statement(alloc, bytes, levels, rest)?;
        found.push(one)?;
        rest = after;
    }
    Ok((found, rest))
}

#[tactic(auto, unfolding(crate::specs::Inside::Reading::script, crate::specs::Inside::Reading::statements))]
fn script<'a>(
    alloc: Global,
    bytes: &[u8],
    levels: &mut Levels,
    tokens: &'a [Token],
) -> Result<(Script, &'a [Token]), Stop<'a>>
    requires { 2 ≤ levels.old }
    ensures value { spec.Gives bytes.now result (spec.script levels.old (lexemes bytes.now tokens.now)) }
    ensures shorter { IfOk result (λ x. length x.1.now < length tokens.now) }
    ensures same { OnOk result (levels.new ≡ levels.old) }
{
    let (statements, rest) = statements(alloc, bytes, levels, tokens)?;
    let (end, rest) = take(bytes, rest, Word::End)?;
    Ok((Script { statements, end }, rest))
}

/// The script that the tokens of these bytes spell.
pub fn parse(alloc: Global, bytes: &[u8], tokens: &[Token]) -> Result<Script, SyntaxFault>
    requires { AreTokensOf bytes.now tokens.now }
    ensures { Answers (lexemes bytes.now tokens.now) result }
{
    let mut levels = Levels::new(alloc);
    match script(alloc, bytes, &mut levels, tokens) {
        Ok((script, _)) => Ok(script),
        Err(Stop::Unexpected([here, ..])) => Err(SyntaxFault::Unexpected {
            line: here.line,
            column: here.column,
        }),
        Err(Stop::Deep([here, ..])) => Err(SyntaxFault::Deep {
            line: here.line,
            column: here.column,
        }),
        Err(Stop::Memory) => Err(SyntaxFault::Memory),
        // A script stops at a token, since an end stands last.
        Err(Stop::Unexpected([])) => {
            prove!(false);
            Err(SyntaxFault::Memory)
        }
        Err(Stop::Deep([])) => {
            prove!(false);
            Err(SyntaxFault::Memory)
        }
    }
}
