//! Printed texts: polynomials, ideals, rows, certificates and rings, and polynomials read back from
//! theirs.
#![tactic(auto)]

mod appending;
mod certificates;
pub mod laws;
mod polynomials;
mod printing;
mod reading;
mod rings;

pub use certificates::chain_text;
pub use printing::{ideal_text, poly_text, rows_text};
pub use reading::{ReadFault, read_poly};
pub use rings::ring_text;
