//! What a program replies to its words and its source, and how a run of it may end: definitions.
#![tactic(auto)]

pub mod laws;
