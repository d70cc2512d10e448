//! What stands at the front of some bytes.

ghost use Rattle.std.specs.Prelude.{◌≡◌, ◌<◌, ◌≤◌, length, map, IfSome};
ghost use Rattle.std.specs.List.{prefix_len};
ghost use Rattle.plural_lexer.specs.Pieces as spec;

use crate::letters::{is_digit, is_letter, is_name_byte};
use crate::token::TokenKind;

/// What makes a fault.
#[derive(Clone, Copy, Debug, PartialEq, Eq)]
pub enum Cause {
    BadByte,
    LongNumber,
    OpenComment,
}

/// What stands at the front: blanks or a token, with their number of bytes, or a fault.
#[derive(Clone, Copy, Debug, PartialEq, Eq)]
pub enum Piece {
    Blank(usize),
    Token(TokenKind, usize),
    Fault(Cause),
}

/// Classes of bytes that are read as long as they go on.
#[derive(Clone, Copy, Debug, PartialEq, Eq)]
pub enum Class {
    /// Letters, digits and `_`.
    Word,
    Digit,
    /// All but the line feed.
    Line,
}

const RESERVED: [&[u8]; 20] = [
    b"ring",
    b"setring",
    b"def",
    b"poly",
    b"ideal",
    b"module",
    b"matrix",
    b"option",
    b"short",
    b"quit",
    b"nc_algebra",
    b"std",
    b"twostd",
    b"NF",
    b"reduce",
    b"eliminate",
    b"syz",
    b"cofactors",
    b"twochain",
    b"summary",
];

const LONGEST_NUMBER: usize = 18;

fn is_blank(byte: u8) -> bool
    ensures { result ≡ spec.is_blank byte }
{
    byte == b' ' || byte == b'\t' || byte == b'\r' || byte == b'\n'
}

fn is_sign(byte: u8) -> bool
    ensures { result ≡ spec.is_sign byte }
{
    b"=,;()[]+-*/^".contains(&byte)
}

fn is_in(class: Class, byte: u8) -> bool
    ensures { result ≡ spec.is_in class byte }
{
    match class {
        Class::Word => is_name_byte(byte),
        Class::Digit => is_digit(byte),
        Class::Line => byte != b'\n',
    }
}

/// How many bytes at the front are in the class.
fn run_len(class: Class, bytes: &[u8]) -> usize
    ensures value { result ≡ prefix_len (spec.is_in class) bytes.now }
    ensures within { result ≤ length bytes.now }
{
    let mut n: usize = 0;
    for byte in bytes {
        if !is_in(class, *byte) {
            return n;
        }
        n += 1;
    }
    n
}

/// The number of bytes up to and with the first `*/`.
fn comment_len(bytes: &[u8]) -> Option<usize>
    ensures value { result ≡ spec.comment_len bytes.now }
    ensures within { IfSome result (λ n. n ≤ length bytes.now) }
{
    let mut at: usize = 0;
    while at < bytes.len() {
        if bytes[at] == b'*' && at + 1 < bytes.len() && bytes[at + 1] == b'/' {
            return Some(at + 2);
        }
        at += 1;
    }
    None
}

fn is_one_of(words: &[&[u8]], word: &[u8]) -> bool
    ensures { result ≡ spec.is_one_of word.now (map (λ w. w.now) words.now) }
{
    for other in words {
        if *other == word {
            return true;
        }
    }
    false
}

fn is_reserved(word: &[u8]) -> bool
    ensures { result ≡ spec.is_reserved word.now }
{
    is_one_of(&RESERVED, word)
}

/// What stands at the front, at least one byte long where it is no fault.
#[tactic(auto, unfolding(crate::specs::Pieces::piece, crate::specs::Pieces::word, crate::specs::Pieces::number))]
pub fn front_piece(bytes: &[u8]) -> Piece
    requires { 0 < length bytes.now }
    ensures value { result ≡ spec.piece bytes.now }
    ensures within { spec.IsPieceOf bytes.now result }
{
    let first = bytes[0];
    if is_blank(first) {
        Piece::Blank(1)
    } else if is_letter(first) {
        let n = run_len(Class::Word, bytes);
        if is_reserved(&bytes[..n]) {
            Piece::Token(TokenKind::Reserved, n)
        } else {
            Piece::Token(TokenKind::Name, n)
        }
    } else if is_digit(first) {
        let n = run_len(Class::Digit, bytes);
        if n <= LONGEST_NUMBER {
            Piece::Token(TokenKind::Int, n)
        } else {
            Piece::Fault(Cause::LongNumber)
        }
    } else if first == b'/' && bytes.len() > 1 && bytes[1] == b'/' {
        Piece::Blank(run_len(Class::Line, bytes))
    } else if first == b'/' && bytes.len() > 1 && bytes[1] == b'*' {
        match comment_len(&bytes[2..]) {
            Some(n) => Piece::Blank(2 + n),
            None => Piece::Fault(Cause::OpenComment),
        }
    } else if is_sign(first) {
        Piece::Token(TokenKind::Sign, 1)
    } else {
        Piece::Fault(Cause::BadByte)
    }
}
