//! What a token is to the grammar.

ghost use Rattle.std.specs.Prelude.{◌≡◌, map};
ghost use Rattle.plural_syntax.specs.Words.{function_of as function_of_word, head_is, is, is_either, lexeme, lexemes, look_up, names_function, next as next_of, next_function as next_function_of, number as number_of, spelled as spelled_of, text_of, word};

use crate::tree::Function;
use plural_lexer::{Token, TokenKind};

/// A kind of token that the grammar tells apart.
#[derive(Clone, Copy, Debug, PartialEq, Eq)]
pub enum Word {
    Name,
    Int,
    Ring,
    SetRing,
    Def,
    Poly,
    Module,
    Matrix,
    Option,
    Short,
    Quit,
    NcAlgebra,
    Function(Function),
    Equals,
    Comma,
    Semicolon,
    Open,
    Close,
    OpenIndex,
    CloseIndex,
    Plus,
    Minus,
    Times,
    Over,
    Power,
    End,
    /// None of the grammar's.
    Other,
}

const SPELLINGS: [(&[u8], Word); 32] = [
    (b"ring", Word::Ring),
    (b"setring", Word::SetRing),
    (b"def", Word::Def),
    (b"poly", Word::Poly),
    (b"module", Word::Module),
    (b"matrix", Word::Matrix),
    (b"option", Word::Option),
    (b"short", Word::Short),
    (b"quit", Word::Quit),
    (b"nc_algebra", Word::NcAlgebra),
    (b"std", Word::Function(Function::Std)),
    (b"twostd", Word::Function(Function::TwoStd)),
    (b"NF", Word::Function(Function::Nf)),
    (b"reduce", Word::Function(Function::Reduce)),
    (b"eliminate", Word::Function(Function::Eliminate)),
    (b"syz", Word::Function(Function::Syz)),
    (b"cofactors", Word::Function(Function::Cofactors)),
    (b"twochain", Word::Function(Function::TwoChain)),
    (b"summary", Word::Function(Function::Summary)),
    (b"ideal", Word::Function(Function::Ideal)),
    (b"=", Word::Equals),
    (b",", Word::Comma),
    (b";", Word::Semicolon),
    (b"(", Word::Open),
    (b")", Word::Close),
    (b"[", Word::OpenIndex),
    (b"]", Word::CloseIndex),
    (b"+", Word::Plus),
    (b"-", Word::Minus),
    (b"*", Word::Times),
    (b"/", Word::Over),
    (b"^", Word::Power),
];

/// The bytes of a token, none where it does not lie in the script.
fn text<'b>(bytes: &'b [u8], token: &Token) -> &'b [u8]
    ensures { result.now ≡ text_of bytes.now token.now }
{
    let (start, end) = (token.start as usize, token.end as usize);
    if start <= end && end <= bytes.len() {
        &bytes[start..end]
    } else {
        &[]
    }
}

fn find(rows: &[(&[u8], Word)], text: &[u8]) -> Word
    ensures { result ≡ look_up text.now (map (λ row. (row.0.now, row.1)) rows.now) }
{
    for row in rows {
        if row.0 == text {
            return row.1;
        }
    }
    Word::Other
}

fn spelled(text: &[u8]) -> Word
    ensures { result ≡ spelled_of text.now }
{
    find(&SPELLINGS, text)
}

fn word_of(bytes: &[u8], token: &Token) -> Word
    ensures { result ≡ word (lexeme bytes.now token.now) }
{
    match token.kind {
        TokenKind::Name => Word::Name,
        TokenKind::Int => Word::Int,
        TokenKind::Reserved => spelled(text(bytes, token)),
        TokenKind::Sign => spelled(text(bytes, token)),
        TokenKind::End => Word::End,
    }
}

/// What the first token is.
pub fn next(bytes: &[u8], tokens: &[Token]) -> Option<Word>
    ensures { result ≡ next_of (lexemes bytes.now tokens.now) }
{
    match tokens {
        [] => None,
        [first, ..] => Some(word_of(bytes, first)),
    }
}

// Words are equal as their numbers are.
fn number(word: Word) -> u8
    ensures { result ≡ number_of word }
{
    match word {
        Word::Name => 0,
        Word::Int => 1,
        Word::Ring => 2,
        Word::SetRing => 3,
        Word::Def => 4,
        Word::Poly => 5,
        Word::Module => 6,
        Word::Matrix => 7,
        Word::Option => 8,
        Word::Short => 9,
        Word::Quit => 10,
        Word::NcAlgebra => 11,
        Word::Equals => 12,
        Word::Comma => 13,
        Word::Semicolon => 14,
        Word::Open => 15,
        Word::Close => 16,
        Word::OpenIndex => 17,
        Word::CloseIndex => 18,
        Word::Plus => 19,
        Word::Minus => 20,
        Word::Times => 21,
        Word::Over => 22,
        Word::Power => 23,
        Word::End => 24,
        Word::Other => 25,
        Word::Function(Function::Std) => 26,
        Word::Function(Function::TwoStd) => 27,
        Word::Function(Function::Nf) => 28,
        Word::Function(Function::Reduce) => 29,
        Word::Function(Function::Eliminate) => 30,
        Word::Function(Function::Syz) => 31,
        Word::Function(Function::Cofactors) => 32,
        Word::Function(Function::TwoChain) => 33,
        Word::Function(Function::Summary) => 34,
        Word::Function(Function::Ideal) => 35,
    }
}

fn same(one: Word, other: Word) -> bool
    ensures { result ≡ is one other }
{
    number(one) == number(other)
}

pub fn next_is(bytes: &[u8], tokens: &[Token], wanted: Word) -> bool
    ensures { result ≡ head_is (is wanted) (lexemes bytes.now tokens.now) }
{
    match tokens {
        [] => false,
        [first, ..] => same(wanted, word_of(bytes, first)),
    }
}

pub fn next_is_either(bytes: &[u8], tokens: &[Token], one: Word, other: Word) -> bool
    ensures { result ≡ head_is (is_either one other) (lexemes bytes.now tokens.now) }
{
    next_is(bytes, tokens, one) || next_is(bytes, tokens, other)
}

/// The function that a word names.
fn function_of(word: Word) -> Option<Function>
    ensures { result ≡ function_of_word word }
{
    match word {
        Word::Function(function) => Some(function),
        _ => None,
    }
}

/// The function that the first token names.
pub fn next_function(bytes: &[u8], tokens: &[Token]) -> Option<Function>
    ensures { result ≡ next_function_of (lexemes bytes.now tokens.now) }
{
    match tokens {
        [] => None,
        [first, ..] => function_of(word_of(bytes, first)),
    }
}

pub fn next_is_function(bytes: &[u8], tokens: &[Token]) -> bool
    ensures { result ≡ head_is names_function (lexemes bytes.now tokens.now) }
{
    next_function(bytes, tokens).is_some()
}
