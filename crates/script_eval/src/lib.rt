//! Evaluates scripts.
#![tactic(auto)]

mod answering;
mod assignments;
mod declarations;
mod evaluation;
mod expressions;
mod lines;
mod next;
mod reply;
mod rings;
mod session;
mod statements;

pub use answering::{MOST_BYTES, answer, too_long};
pub use evaluation::eval;
pub use reply::Reply;
