//! What the programs share of a run: the reply to their words and their script, by any engine, written with its status.
#![tactic(auto)]

mod replies;
mod runs;
mod status;
mod words;

pub use runs::{refuse_words, run_script};
pub use words::{NoWords, words_of};
