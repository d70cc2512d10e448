//! Sources and sinks of bytes that count their faults, reading to the end and writing all.
#![tactic(auto)]

ghost use Rattle.std.specs.Prelude.{ℕ, ◌+◌, ◌≤◌, Option, List, length};
ghost use Rattle.plural_io.specs.Reads.{IsRead, IsWrite};

mod adapters;
mod memory;
mod reading;
#[cfg(test)]
mod tests;
mod writing;

pub use adapters::{StdSink, StdSource};
pub use memory::{MemSink, MemSource};
pub use reading::{READ_LIMIT, ReadAllFault, read_all};
pub use writing::{WriteFailed, write_all_of};

/// What a read answers.
#[derive(Clone, Copy, Debug, PartialEq, Eq)]
pub enum Got {
    /// The buffer begins with so many next bytes.
    Bytes(usize),
    /// No byte is left.
    End,
    /// The read failed, and the source counted it as a fault.
    Failed,
}

/// What a write answers.
#[derive(Clone, Copy, Debug, PartialEq, Eq)]
pub enum Put {
    /// So many first bytes of the piece were appended.
    Took(usize),
    /// The write failed, and the sink counted it as a fault.
    Failed,
}

/// Bytes to be read, in order.
pub trait Source {
    // The bytes left, where the source tells them.
    ghost left: { Self → Option (List ℕ) };

    // How often it has failed, up to the last 64-bit number.
    ghost faults: { Self → ℕ };

    // How often it was read; a source need not count each read.
    ghost reads: { Self → ℕ };

    /// Reads the next bytes to the front of the buffer.
    fn read(&mut self, buf: &mut [u8]) -> Got
        ensures answer { IsRead result (length buf.old) buf.new
            (left self.old) (left self.new) (faults self.old) (faults self.new) }
        ensures faults { faults self.old ≤ faults self.new }
        ensures counted { reads self.new ≤ reads self.old + 1 };
}

/// A place to write bytes to, in order.
pub trait Sink {
    // The bytes held, where the sink tells them.
    ghost held: { Self → Option (List ℕ) };

    // How often it has failed, up to the last 64-bit number.
    ghost faults: { Self → ℕ };

    // How often it was written to; a sink need not count each write.
    ghost writes: { Self → ℕ };

    /// Appends the first bytes of the piece.
    fn write(&mut self, piece: &[u8]) -> Put
        ensures answer { IsWrite result piece.now
            (held self.old) (held self.new) (faults self.old) (faults self.new) }
        ensures faults { faults self.old ≤ faults self.new }
        ensures counted { writes self.new ≤ writes self.old + 1 };
}
