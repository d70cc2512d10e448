//! The command words of the programs.
#![tactic(auto)]

mod options;
mod settings;
#[cfg(test)]
mod tests;

pub use settings::{Program, Settings, read_words};
