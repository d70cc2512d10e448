//! What the trees of scripts name: a law without code.
#![tactic(auto)]

pub mod laws;
