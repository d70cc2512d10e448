//! The values of scripts with their rings, names and operations, and what an evaluation of them answers.
#![tactic(auto)]

pub mod assigning;
mod budget;
mod environment;
pub mod names;
pub mod operations;
pub mod printing;
pub mod refusals;
mod ring;
mod scope;
mod stop;
pub mod tokens;

pub use budget::Budget;
pub use environment::Environment;
pub use ring::Ring;
pub use scope::Scope;
pub use stop::Stop;

#[cfg(test)]
mod tests;
