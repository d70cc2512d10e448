//! The tokens of a script.
#![tactic(auto)]

mod fault;
pub mod laws;
mod letters;
mod lexing;
mod pieces;
mod place;
#[cfg(test)]
mod tests;
mod token;

pub use fault::LexFault;
pub use letters::{is_digit, is_letter, is_name_byte, number_of};
pub use lexing::tokens;
pub use token::{Token, TokenKind};
