ghost use Rattle.std.specs.Prelude.{◌≡◌, ◌+◌, ◌≤◌, [], ◌∷◌, ◌++◌, length, OnOk};
ghost use Rattle.plural_lexer.specs.Tokens.{Gives, fault_at as fault_of};

use crate::fault::LexFault;
use crate::pieces::{Cause, Piece, front_piece};
use crate::place::{Place, moved};
use crate::token::{Token, TokenKind};
use std::alloc::{AllocError, Global};

fn fault_at(cause: Cause, place: Place) -> LexFault
    ensures { result ≡ fault_of cause place }
{
    let Place { line, column } = place;
    match cause {
        Cause::BadByte => LexFault::BadByte { line, column },
        Cause::LongNumber => LexFault::LongNumber { line, column },
        Cause::OpenComment => LexFault::OpenComment { line, column },
    }
}

/// The tokens of a script, with `End` behind them, or its first fault.
pub fn tokens(alloc: Global, bytes: &[u8]) -> Result<Vec<Token>, LexFault>
    requires { length bytes.now ≤ 1048576 }
    ensures { Gives bytes.now result }
{
    let mut found: Vec<Token> = Vec::new(alloc);
    let mut place = Place { line: 1, column: 1 };
    let mut at: usize = 0;
    while at < bytes.len() {
        let rest = &bytes[at..];
        let len = match front_piece(rest) {
            Piece::Blank(len) => len,
            Piece::Token(kind, len) => {
                push(&mut found, token_at(kind, at, len, place))?;
                len
            }
            Piece::Fault(cause) => return Err(fault_at(cause, place)),
        };
        place = moved(place, &rest[..len]);
        at += len;
    }
    push(&mut found, token_at(TokenKind::End, at, 0, place))?;
    Ok(found)
}

fn token_at(kind: TokenKind, at: usize, len: usize, place: Place) -> Token
    requires { at + len ≤ 1048576 }
    ensures { result ≡ record { kind = kind; start = at; end = at + len; line = place.line; column = place.column } }
{
    Token {
        kind,
        start: at as u32,
        end: (at + len) as u32,
        line: place.line,
        column: place.column,
    }
}

fn push(found: &mut Vec<Token>, token: Token) -> Result<(), AllocError>
    ensures { OnOk result (found.new.items ≡ found.old.items ++ token ∷ []) }
{
    found.push(token)?;
    Ok(())
}
