//! What all statements of a script share.

ghost use Rattle.std.specs.Prelude.{◌≡◌};

use script_values::{Budget, Environment, Ring, Scope};
use std::alloc::Global;
use std::marker::Model;

/// What all statements of a script share: its bytes, and the most entries that a run may have.
#[derive(Drop)]
pub struct Session<'a> {
    pub alloc: Global,
    pub bytes: &'a [u8],
    pub budget: Budget,
}

impl<'a> Model for Session<'a> {
    ghost use Rattle.script_eval.specs.Sessions.{Session as ModelSession};

    ghost Value = { ModelSession };

    ghost view = { λ s. record { bytes = s.bytes.now; budget = s.budget } };
}

impl<'a> Session<'a> {
    /// Where expressions are evaluated in this ring.
    pub fn scope(&self, environment: &'a Environment, ring: &'a Ring) -> Scope<'a>
        ensures { result ≡ record { bytes = self.now.bytes; budget = self.now.budget; environment = environment.now; ring = ring.now } }
    {
        Scope {
            alloc: self.alloc,
            bytes: self.bytes,
            budget: self.budget,
            environment,
            ring,
        }
    }
}
