//! Certificates of two-sided bases: the lines of a run that made the elements, with its finished
//! list, and their check.
#![tactic(auto)]

mod checking;
pub mod laws;
mod lines;
mod lists;
mod making;
mod naming;
mod pushing;
mod subtracting;

pub use checking::check_chain;
pub use making::chain;
pub use run_records::Chain;

#[cfg(test)]
mod tests;
