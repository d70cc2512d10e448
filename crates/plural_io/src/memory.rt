// A source and a sink in memory, whose calls fail where they are told to.
ghost use Rattle.std.specs.Prelude.{◌≡◌, ℕ, ◌+◌, ◌≤◌, Some, List, [], ◌++◌, length, drop, IfOk};
ghost use Rattle.plural_io.specs.Reads.{IsRead, IsWrite};
ghost use Rattle.plural_io.specs.Memory.{is_among, memory_read, memory_write};

use crate::{Got, Put, Sink, Source};
use std::alloc::{AllocError, Global};
use std::marker::Model;

// Whether the call with this number is to fail.
fn is_to_fail(number: u64, fails: &[u32]) -> bool
    ensures { result ≡ is_among number fails.now }
{
    fails.iter().any(|k| u64::from(*k) == number)
}

/// A source of bytes in memory, of which the reads with given numbers fail.
#[derive(Debug, Drop)]
pub struct MemSource {
    bytes: Vec<u8>,
    at: usize,
    per_call: usize,
    fails: Vec<u32>,
    reads: u64,
    faults: u64,
}

impl Model for MemSource {
    ghost use Rattle.std.specs.Prelude.{◌≤◌, length, drop};
    ghost use Rattle.plural_io.specs.Memory.{MemorySource};

    ghost Value = { MemorySource };

    ghost view = { λ s. record {
      left = drop s.at s.bytes.items;
      per_call = s.per_call;
      fails = s.fails.items;
      reads = s.reads;
      faults = s.faults;
    } };

    ghost invariant = { λ s. (s.at ≤ length s.bytes.items) × (1 ≤ s.per_call) };
}

impl MemSource {
    /// A source of these bytes. A read gives at most `per_call` bytes. Reads count from 1, and
    /// those with numbers in `fails` fail; no other does.
    pub fn new(
        alloc: Global,
        bytes: &[u8],
        per_call: usize,
        fails: &[u32],
    ) -> Result<MemSource, AllocError>
        requires { 1 ≤ per_call }
        ensures { IfOk result (λ s. s ≡ record {
          left = bytes.now;
          per_call = per_call;
          fails = fails.now;
          reads = 0;
          faults = 0;
        }) }
    {
        Ok(MemSource {
            bytes: Vec::from_slice(alloc, bytes)?,
            at: 0,
            per_call,
            fails: Vec::from_slice(alloc, fails)?,
            reads: 0,
            faults: 0,
        })
    }
}

impl Source for MemSource {
    ghost left = { λ s. Some s.left };

    ghost faults = { λ s. s.faults };

    ghost reads = { λ s. s.reads };

    fn read(&mut self, buf: &mut [u8]) -> Got
        ensures value { result ≡ (memory_read (length buf.old) self.old).answer }
        ensures after { self.new ≡ (memory_read (length buf.old) self.old).after }
        ensures bytes { let bytes = (memory_read (length buf.old) self.old).bytes in
            buf.new ≡ bytes ++ drop (length bytes) buf.old }

        // The trait's clauses.
        ensures answer { IsRead result (length buf.old) buf.new
            (Some self.old.left) (Some self.new.left) self.old.faults self.new.faults }
        ensures faults { self.old.faults ≤ self.new.faults }
        ensures counted { self.new.reads ≤ self.old.reads + 1 }
    {
        self.reads = self.reads.saturating_add(1);
        if is_to_fail(self.reads, &self.fails) {
            self.faults = self.faults.saturating_add(1);
            return Got::Failed;
        }
        let left = &self.bytes[self.at..];
        if left.is_empty() {
            return Got::End;
        }
        let n = buf.len().min(self.per_call).min(left.len());
        buf[..n].copy_from_slice(&left[..n]);
        self.at += n;
        Got::Bytes(n)
    }
}

/// A sink of bytes in memory with a fixed room, of which the writes with given numbers fail.
#[derive(Debug, Drop)]
pub struct MemSink {
    held: Vec<u8>,
    room: usize,
    per_call: usize,
    fails: Vec<u32>,
    writes: u64,
    faults: u64,
}

impl Model for MemSink {
    ghost use Rattle.std.specs.Prelude.{◌≤◌, length, vec_capacity};
    ghost use Rattle.plural_io.specs.Memory.{MemorySink};

    ghost Value = { MemorySink };

    ghost view = { λ s. record {
      held = s.held.items;
      room = s.room;
      per_call = s.per_call;
      fails = s.fails.items;
      writes = s.writes;
      faults = s.faults;
    } };

    ghost invariant = { λ s. (length s.held.items ≤ s.room) × (s.room ≤ vec_capacity s.held)
        × (1 ≤ s.per_call) };
}

impl MemSink {
    /// A sink that holds nothing, with memory for `room` bytes, so that writes take none. A write
    /// takes at most `per_call` bytes. Writes count from 1, and those with numbers in `fails` fail,
    /// as does a write of a nonempty piece where no room is left; no other does.
    pub fn new(
        alloc: Global,
        room: usize,
        per_call: usize,
        fails: &[u32],
    ) -> Result<MemSink, AllocError>
        requires { 1 ≤ per_call }
        ensures { IfOk result (λ s. s ≡ record {
          held = [];
          room = room;
          per_call = per_call;
          fails = fails.now;
          writes = 0;
          faults = 0;
        }) }
    {
        Ok(MemSink {
            held: Vec::with_capacity(alloc, room)?,
            room,
            per_call,
            fails: Vec::from_slice(alloc, fails)?,
            writes: 0,
            faults: 0,
        })
    }

    /// What the sink holds.
    pub fn bytes(&self) -> &[u8]
        ensures { result.now ≡ self.now.held }
    {
        &self.held
    }
}

impl Sink for MemSink {
    ghost held = { λ s. Some s.held };

    ghost faults = { λ s. s.faults };

    ghost writes = { λ s. s.writes };

    fn write(&mut self, piece: &[u8]) -> Put
        ensures value { result ≡ (memory_write piece.now self.old).answer }
        ensures after { self.new ≡ (memory_write piece.now self.old).after }

        // The trait's clauses.
        ensures answer { IsWrite result piece.now
            (Some self.old.held) (Some self.new.held) self.old.faults self.new.faults }
        ensures faults { self.old.faults ≤ self.new.faults }
        ensures counted { self.new.writes ≤ self.old.writes + 1 }
    {
        self.writes = self.writes.saturating_add(1);
        let free = self.room - self.held.len();
        if is_to_fail(self.writes, &self.fails) || (free == 0 && !piece.is_empty()) {
            self.faults = self.faults.saturating_add(1);
            return Put::Failed;
        }
        let n = piece.len().min(self.per_call).min(free);
        self.held.extend_from_slice(&piece[..n]).unwrap();
        Put::Took(n)
    }
}
