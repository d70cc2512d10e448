//! Where an expression is evaluated.

use crate::budget::Budget;
use crate::environment::Environment;
use crate::ring::Ring;
use std::alloc::Global;
use std::marker::Model;

/// Where an expression is evaluated: the bytes of the script, the most entries that a run may have, what the
/// script has made, and its current ring.
#[derive(Drop)]
pub struct Scope<'a> {
    pub alloc: Global,
    pub bytes: &'a [u8],
    pub budget: Budget,
    pub environment: &'a Environment,
    pub ring: &'a Ring,
}

impl<'a> Model for Scope<'a> {
    ghost use Rattle.script_model.specs.Environment.{Scope as ModelScope};

    ghost Value = { ModelScope };

    ghost view = { λ s. record { bytes = s.bytes.now; budget = s.budget; environment = s.environment.now; ring = s.ring.now } };
}
