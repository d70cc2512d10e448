//! The command words of a process.

ghost use Rattle.std.specs.Prelude.{◌≡◌};

use crate::status::{NO_MEMORY, NOT_TEXT};
use std::rt::Env;
use std::{env, io};

/// Why a program has no words.
#[derive(Clone, Copy, Debug, PartialEq, Eq)]
pub enum NoWords {
    /// Memory was wanting for them.
    Memory,
    /// One is not text.
    NotText,
}

impl NoWords {
    /// The status that the program ends with.
    pub fn status(self) -> u8
        ensures memory { self ≡ NoWords.Memory → result ≡ 7 }
        ensures text { self ≡ NoWords.NotText → result ≡ 8 }
    {
        match self {
            NoWords::Memory => NO_MEMORY,
            NoWords::NotText => NOT_TEXT,
        }
    }
}

/// The words behind the program's name.
pub fn words_of(rt: &(impl Env + AllocGlobal)) -> Result<Vec<String>, NoWords> {
    match args_of(rt) {
        Ok(words) => Ok(words),
        Err(error) if error.kind() == io::ErrorKind::OutOfMemory => Err(NoWords::Memory),
        Err(_) => Err(NoWords::NotText),
    }
}

fn args_of(rt: &(impl Env + AllocGlobal)) -> io::Result<Vec<String>> {
    let words = env::args(rt)?.skip(1).collect(rt.alloc())?;
    Ok(words)
}
