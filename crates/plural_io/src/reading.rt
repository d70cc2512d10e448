// Reading a source to its end.
ghost use Rattle.std.specs.Prelude.{◌≡◌, ◌≢◌, ℕ, ◌+◌, ◌<◌, ◌≤◌, List, length, IfOk, IfErr};
ghost use Rattle.plural_io.specs.Faults.{Rose};
ghost use Rattle.plural_io.specs.Reads.{in_front, NoneLeft};

use crate::{Got, Source};
use std::alloc::{AllocError, Global};

/// How many bytes `read_all` reads at most.
pub const READ_LIMIT: usize = 1048576;

// How many bytes one read asks for.
const BUFFER: usize = 4096;

/// Why a source was not read to its end.
#[derive(Clone, Copy, Debug, PartialEq, Eq)]
pub enum ReadAllFault {
    /// A read failed.
    Failed,
    /// More than `READ_LIMIT` bytes came, whether or not memory was left for them.
    TooLong,
    /// Memory ran out.
    Memory,
}

impl From<AllocError> for ReadAllFault {
    ghost use Rattle.plural_io.specs.declared.reading.ReadAllFault.TheVariants.{Memory};

    ghost from_gives = { λ _ fault. fault ≡ Memory };

    fn from(_error: AllocError) -> ReadAllFault {
        ReadAllFault::Memory
    }
}

/// All bytes that the source has left, read to its end. At an `Err` the bytes read are lost.
pub fn read_all<S: Source>(alloc: Global, source: &mut S) -> Result<Vec<u8>, ReadAllFault>
    ensures ok { IfOk result (λ bytes.
        (S.left source.old ≡ in_front bytes.items (S.left source.new))
        × NoneLeft (S.left source.new) × (length bytes.items ≤ 1048576)) }
    ensures failed { result ≡ Err ReadAllFault.Failed
        → Rose (S.faults source.old) (S.faults source.new) }
    ensures too_long { result ≡ Err ReadAllFault.TooLong → (front : List ℕ)
        × (1048576 < length front) × (S.left source.old ≡ in_front front (S.left source.new)) }

    // Then at most 4096 bytes were read behind the limit.
    ensures behind { result ≡ Err ReadAllFault.TooLong → (front : List ℕ)
        × (length front ≤ 1048576 + 4096) × (S.left source.old ≡ in_front front (S.left source.new)) }

    // At any other fault the bytes that came are within the limit.
    ensures prefix { IfErr result (λ fault. fault ≢ ReadAllFault.TooLong → (front : List ℕ)
        × (length front ≤ 1048576) × (S.left source.old ≡ in_front front (S.left source.new))) }
    ensures faults { S.faults source.old ≤ S.faults source.new }
    ensures reads { S.reads source.new ≤ S.reads source.old + 1048577 }
{
    let mut bytes = Vec::new(alloc);
    let mut buf = [0; BUFFER];
    loop {
        match source.read(&mut buf) {
            Got::Bytes(n) => {
                if n > READ_LIMIT - bytes.len() {
                    return Err(ReadAllFault::TooLong);
                }
                bytes.extend_from_slice(&buf[..n])?;
            }
            Got::End => return Ok(bytes),
            Got::Failed => return Err(ReadAllFault::Failed),
        }
    }
}
