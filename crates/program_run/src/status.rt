//! The statuses of runs that wrote no whole text.

ghost use Rattle.std.specs.Prelude.{◌≡◌};

use std::alloc::AllocError;

/// A read failed.
pub const READ_FAILED: u8 = 5;

/// A write failed.
pub const WRITE_FAILED: u8 = 6;

/// Memory was wanting.
pub const NO_MEMORY: u8 = 7;

/// A command word is not text.
pub const NOT_TEXT: u8 = 8;

/// Why there is no reply.
#[derive(Clone, Copy)]
pub enum Stopped {
    Read,
    Memory,
}

impl Stopped {
    /// The status of a run that stopped.
    pub fn status(self) -> u8
        ensures read { self ≡ Stopped.Read → result ≡ 5 }
        ensures memory { self ≡ Stopped.Memory → result ≡ 7 }
    {
        match self {
            Stopped::Read => READ_FAILED,
            Stopped::Memory => NO_MEMORY,
        }
    }
}

impl From<AllocError> for Stopped {
    ghost use Rattle.program_run.specs.declared.status.Stopped.TheVariants.{Memory};

    ghost from_gives = { λ _ stopped. stopped ≡ Memory };

    fn from(_: AllocError) -> Stopped {
        Stopped::Memory
    }
}
