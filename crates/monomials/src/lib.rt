//! Monomials in up to sixteen variables, their orders, and what contracts say of polynomials.
#![tactic(auto)]

pub use block_weights::BlockWeights;
pub use expo::Expo;
pub use order::{Block, Order, OrderFault};

mod block_weights;
mod expo;
pub mod laws;
mod order;
mod row;
#[cfg(test)]
mod tests;
mod word;
