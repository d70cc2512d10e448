ghost use Rattle.std.specs.Prelude.{◌≡◌, ◌+◌, ◌<◌, ◌≤◌, OnOk};

use plural_lexer::Token;
use smallvec::SmallVec;
use std::alloc::{AllocError, Global};
use std::marker::Model;

const MOST: usize = 64;

/// The open levels, by where their `(` starts. Contracts see how many more may be opened.
#[derive(Drop)]
pub struct Levels {
    starts: SmallVec<u32, 8>,
}

impl Model for Levels {
    ghost use Rattle.std.specs.Prelude.{ℕ, ◌-◌, ◌≤◌, length};

    ghost Value = { ℕ };

    ghost view = { λ l. 64 - length l.starts.items };

    ghost invariant = { λ l. length l.starts.items ≤ 64 };
}

impl Levels {
    pub fn new(alloc: Global) -> Self
        ensures { result ≡ 64 }
    {
        Levels {
            starts: SmallVec::new(alloc),
        }
    }

    /// How many levels may still be opened.
    pub fn left(&self) -> usize
        ensures value { result ≡ self.now }
        ensures most { result ≤ 64 }
    {
        MOST - self.starts.len()
    }

    pub fn enter(&mut self, opening: Token) -> Result<(), AllocError>
        requires { 0 < self.old }
        ensures { OnOk result (self.new + 1 ≡ self.old) }
    {
        match self.starts.push(opening.start) {
            Ok(()) => Ok(()),
            Err(_) => Err(AllocError),
        }
    }

    pub fn leave(&mut self)
        requires { self.old < 64 }
        ensures { self.new ≡ self.old + 1 }
    {
        let _ = self.starts.pop();
    }
}
