use std::alloc::AllocError;
use thiserror::Error;

/// Why a script has no tokens, and the place of the first fault.
#[derive(Debug, PartialEq, Eq, Drop, Error)]
pub enum LexFault {
    /// A byte that begins no token.
    #[error("line {line} column {column}: no token begins with this byte")]
    BadByte { line: u32, column: u32 },
    /// The first digit of a number with more than 18 digits.
    #[error("line {line} column {column}: a number of more than 18 digits")]
    LongNumber { line: u32, column: u32 },
    /// The `/` of a `/*` that no `*/` follows.
    #[error("line {line} column {column}: a comment that does not end")]
    OpenComment { line: u32, column: u32 },
    #[error("out of memory")]
    Memory,
}

impl From<AllocError> for LexFault {
    ghost use Rattle.std.specs.Prelude.{◌≡◌};
    ghost use Rattle.plural_lexer.specs.declared.fault.LexFault.TheVariants.{Memory};

    ghost from_gives = { λ _ fault. fault ≡ Memory };

    fn from(_: AllocError) -> Self {
        LexFault::Memory
    }
}
