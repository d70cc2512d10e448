// Sources and sinks over std's readers and writers. They tell no bytes and count only faults.
ghost use Rattle.std.specs.Prelude.{◌≡◌, ℕ, ◌+◌, ◌≤◌, None, length};
ghost use Rattle.plural_io.specs.Faults.{after_read, after_write};
ghost use Rattle.plural_io.specs.Reads.{IsRead, IsWrite};

use crate::{Got, Put, Sink, Source};
use std::io::{Read, Write};
use std::marker::Model;

/// A source over a reader. A contract sees its count of faults.
/// Each error of the reader is a fault, also an interrupted read.
#[derive(Drop)]
pub struct StdSource<R: Read + Drop> {
    inner: R,
    faults: u64,
}

impl<R: Read + Drop> Model for StdSource<R> {
    ghost Value = { ℕ };

    ghost view = { λ s. s.faults };
}

impl<R: Read + Drop> StdSource<R> {
    /// A source that has not failed yet.
    pub fn new(inner: R) -> StdSource<R>
        ensures { result ≡ 0 }
    {
        StdSource { inner, faults: 0 }
    }
}

impl<R: Read + Drop> Source for StdSource<R> {
    ghost left = { λ _. None };

    ghost faults = { λ s. s };

    ghost reads = { λ _. 0 };

    fn read(&mut self, buf: &mut [u8]) -> Got
        ensures count { self.new ≡ after_read result self.old }

        // The trait's clauses.
        ensures answer { IsRead result (length buf.old) buf.new None None self.old self.new }
        ensures faults { self.old ≤ self.new }
        ensures counted { 0 ≤ 0 + 1 }
    {
        if buf.is_empty() {
            return Got::Bytes(0);
        }
        match self.inner.read(buf) {
            Ok(0) => Got::End,
            Ok(n) => Got::Bytes(n),
            Err(_) => {
                self.faults = self.faults.saturating_add(1);
                Got::Failed
            }
        }
    }
}

/// A sink over a writer. A contract sees its count of faults.
/// Each error of the writer is a fault, and so is a write that takes nothing of a nonempty piece.
#[derive(Drop)]
pub struct StdSink<W: Write + Drop> {
    inner: W,
    faults: u64,
}

impl<W: Write + Drop> Model for StdSink<W> {
    ghost Value = { ℕ };

    ghost view = { λ s. s.faults };
}

impl<W: Write + Drop> StdSink<W> {
    /// A sink that has not failed yet.
    pub fn new(inner: W) -> StdSink<W>
        ensures { result ≡ 0 }
    {
        StdSink { inner, faults: 0 }
    }
}

impl<W: Write + Drop> Sink for StdSink<W> {
    ghost held = { λ _. None };

    ghost faults = { λ s. s };

    ghost writes = { λ _. 0 };

    fn write(&mut self, piece: &[u8]) -> Put
        ensures count { self.new ≡ after_write result self.old }

        // The trait's clauses.
        ensures answer { IsWrite result piece.now None None self.old self.new }
        ensures faults { self.old ≤ self.new }
        ensures counted { 0 ≤ 0 + 1 }
    {
        match self.inner.write(piece) {
            Ok(n) if n > 0 || piece.is_empty() => Put::Took(n),
            _ => {
                self.faults = self.faults.saturating_add(1);
                Put::Failed
            }
        }
    }
}
