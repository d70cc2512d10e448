// Writing all bytes to a sink.
ghost use Rattle.std.specs.Prelude.{◌≡◌, ℕ, ◌+◌, ◌≤◌, [], length, take, IsOk, OnOk, OnErr};
ghost use Rattle.plural_io.specs.Faults.{Rose};
ghost use Rattle.plural_io.specs.Reads.{behind_all};

use crate::{Put, Sink};

/// A write failed.
#[derive(Clone, Copy, Debug, PartialEq, Eq)]
pub struct WriteFailed;

/// Appends all bytes, write by write, up to the first that fails. It takes no memory.
pub fn write_all_of<K: Sink>(sink: &mut K, bytes: &[u8]) -> Result<(), WriteFailed>
    ensures ok { OnOk result (K.held sink.new ≡ behind_all (K.held sink.old) bytes.now) }
    ensures failed { OnErr result (Rose (K.faults sink.old) (K.faults sink.new)) }
    ensures prefix { OnErr result ((n : ℕ) × (n ≤ length bytes.now)
        × (K.held sink.new ≡ behind_all (K.held sink.old) (take n bytes.now))) }
    ensures empty { bytes.now ≡ [] → IsOk result × (sink.new ≡ sink.old) }
    ensures faults { K.faults sink.old ≤ K.faults sink.new }
    ensures writes { K.writes sink.new ≤ K.writes sink.old + length bytes.now }
{
    let mut at = 0;
    while at < bytes.len() {
        match sink.write(&bytes[at..]) {
            Put::Took(n) => at += n,
            Put::Failed => return Err(WriteFailed),
        }
    }
    Ok(())
}
