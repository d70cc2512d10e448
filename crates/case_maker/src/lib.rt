//! Scripts made from a number.
#![tactic(auto)]

mod drawing;
mod making;
#[cfg(test)]
mod tests;

pub use making::script_of;
