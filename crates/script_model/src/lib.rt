//! What scripts mean: definitions, and the values and refusals that they speak of.
#![tactic(auto)]

pub mod laws;
pub mod values;
