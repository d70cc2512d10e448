//! Options, a word after another.

ghost use Rattle.std.specs.Prelude.{◌≡◌, ◌≤◌, length};
ghost use Rattle.std.specs.List.{prefix_len};
ghost use Rattle.command_words.specs.Settings as spec;

use crate::settings::Program;
use plural_lexer::number_of;

/// An option.
#[derive(Clone, Copy, Debug, PartialEq, Eq)]
pub enum Name {
    Workers,
    Pairs,
    Make,
}

/// What the words so far say: the values that they give, and the option that wants the next word as its value.
#[derive(Clone, Copy, Debug, PartialEq, Eq)]
pub struct Reading {
    pub workers: Option<u8>,
    pub pairs: Option<u32>,
    pub make: Option<u32>,
    pub wants: Option<Name>,
}

fn takes_workers(program: Program) -> bool
    ensures { result ≡ spec.takes_workers program }
{
    match program {
        Program::Threads => true,
        Program::One => false,
    }
}

fn name_of(program: Program, text: &[u8]) -> Option<Name>
    ensures { result ≡ spec.name_of program text.now }
{
    if text == b"--workers".as_slice() {
        if takes_workers(program) {
            Some(Name::Workers)
        } else {
            None
        }
    } else if text == b"--pairs".as_slice() {
        Some(Name::Pairs)
    } else if text == b"--make".as_slice() {
        Some(Name::Make)
    } else {
        None
    }
}

fn with_workers(reading: Reading, n: u64) -> Option<Reading>
    ensures { result ≡ spec.with_workers reading n }
{
    if reading.workers.is_none() && 1 <= n && n <= 64 {
        Some(Reading {
            workers: Some(n as u8),
            pairs: reading.pairs,
            make: reading.make,
            wants: None,
        })
    } else {
        None
    }
}

fn with_pairs(reading: Reading, n: u64) -> Option<Reading>
    ensures { result ≡ spec.with_pairs reading n }
{
    if reading.pairs.is_none() && 1 <= n && n <= 1000000 {
        Some(Reading {
            workers: reading.workers,
            pairs: Some(n as u32),
            make: reading.make,
            wants: None,
        })
    } else {
        None
    }
}

fn with_make(reading: Reading, n: u64) -> Option<Reading>
    ensures { result ≡ spec.with_make reading n }
{
    if reading.make.is_none() && n <= 999999999 {
        Some(Reading {
            workers: reading.workers,
            pairs: reading.pairs,
            make: Some(n as u32),
            wants: None,
        })
    } else {
        None
    }
}

fn with_number(reading: Reading, name: Name, n: u64) -> Option<Reading>
    ensures { result ≡ spec.with_number reading name n }
{
    match name {
        Name::Workers => with_workers(reading, n),
        Name::Pairs => with_pairs(reading, n),
        Name::Make => with_make(reading, n),
    }
}

fn with_value(reading: Reading, name: Name, value: &[u8]) -> Option<Reading>
    ensures { result ≡ spec.with_value reading name value.now }
{
    match number_of(value, 9) {
        Some(n) => with_number(reading, name, n),
        None => None,
    }
}

/// How many bytes stand before the first `=`.
fn name_len(word: &[u8]) -> usize
    ensures value { result ≡ prefix_len spec.is_in_name word.now }
    ensures within { result ≤ length word.now }
{
    let mut n: usize = 0;
    for byte in word {
        if *byte == b'=' {
            return n;
        }
        n += 1;
    }
    n
}

/// An option that stands first in a word, and its value where that stands behind `=`.
fn begun(program: Program, reading: Reading, word: &[u8]) -> Option<Reading>
    ensures { result ≡ spec.begun program reading word.now }
{
    let n = name_len(word);
    match name_of(program, &word[..n]) {
        None => None,
        Some(name) => {
            if n < word.len() {
                with_value(reading, name, &word[n + 1..])
            } else {
                Some(Reading {
                    workers: reading.workers,
                    pairs: reading.pairs,
                    make: reading.make,
                    wants: Some(name),
                })
            }
        }
    }
}

/// What is said with one word more, or None where that is refused.
pub fn read_word(program: Program, reading: Reading, word: &[u8]) -> Option<Reading>
    ensures { result ≡ spec.read_word program reading word.now }
{
    match reading.wants {
        Some(name) => with_value(reading, name, word),
        None => begun(program, reading, word),
    }
}
