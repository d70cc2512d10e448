//! Which job of a run comes next: keys, the queue in their order, and the chain rule.
#![tactic(auto)]

pub use keys::{Keyed, element_sugar, job_key};
pub use queue::Queue;
pub use witness::chain_witness;

mod front;
mod heap;
mod keys;
pub mod laws;
mod marks;
mod queue;
#[cfg(test)]
mod tests;
mod witness;
