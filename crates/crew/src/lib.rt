//! Workers round a board, and the thread that leads them: what they share, and what passes between
//! them.
#![tactic(auto)]

pub use desk::Desk;
pub use engines::{By, Crew, crew_basis};
pub use gates::{Gate, MeetGate, NoGate, Point};
pub use sealed::Sealed;
pub use shelf::{Shelf, ShelfView};

mod compared;
mod desk;
mod engines;
mod gates;
mod locked;
mod prospects;
mod sealed;
mod shelf;
#[cfg(test)]
mod tests;
