//! The core over lists of events, without a thread: what leader and workers do, in any order.
#![tactic(auto)]

pub use word_model::events::{Event, Hand};
pub use world::{World, replay};

pub mod laws;
#[cfg(test)]
mod tests;
mod world;
