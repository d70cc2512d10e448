//! What the command words of a program say.

ghost use Rattle.std.specs.Prelude.{◌≡◌, map, string_bytes, IfSome};
ghost use Rattle.command_words.specs.Settings as spec;

use crate::options::{Reading, read_word};

/// A program: with threads, or with one worker.
#[derive(Clone, Copy, Debug, PartialEq, Eq)]
pub enum Program {
    Threads,
    One,
}

/// What a program is told.
#[derive(Clone, Copy, Debug, PartialEq, Eq)]
pub struct Settings {
    /// How many workers run, from 1 to 64.
    pub workers: u8,
    /// How many entries a run may have, from 1 to 1000000.
    pub pairs: u32,
    /// The number of a made script, at most 999999999, where one is run in place of the source.
    pub make: Option<u32>,
}

/// What the words say, or None where they are refused: `--workers N`, `--pairs N` and `--make N` in any order,
/// each at most once, a value also behind `=`, and only a program with threads takes `--workers`.
pub fn read_words(words: &[String], program: Program) -> Option<Settings>
    ensures value { result ≡ spec.settings_of program (map string_bytes words.now) }
    ensures in_range { IfSome result spec.AreInRange }
{
    let mut reading = Reading {
        workers: None,
        pairs: None,
        make: None,
        wants: None,
    };
    for word in words {
        match read_word(program, reading, word.as_bytes()) {
            Some(after) => reading = after,
            None => return None,
        }
    }
    settled(reading)
}

fn settled(reading: Reading) -> Option<Settings>
    ensures { result ≡ spec.settled reading }
{
    if reading.wants.is_some() {
        return None;
    }
    Some(Settings {
        workers: reading.workers.unwrap_or(4),
        pairs: reading.pairs.unwrap_or(100000),
        make: reading.make,
    })
}
