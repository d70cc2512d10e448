//! Why there is no value.

use script_model::values::Refusal;
use std::alloc::AllocError;

/// Why there is no value.
#[derive(Debug, Drop)]
pub enum Stop {
    /// The script is refused.
    Refused(Refusal),
    /// Memory was wanting.
    Memory,
}

impl From<AllocError> for Stop {
    ghost use Rattle.std.specs.Prelude.{◌≡◌};
    ghost use Rattle.script_values.specs.declared.stop.Stop.TheVariants.{Memory};

    ghost from_gives = { λ _ stop. stop ≡ Memory };

    fn from(_: AllocError) -> Stop {
        Stop::Memory
    }
}
