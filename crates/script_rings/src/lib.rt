//! How scripts make rings: by the statement `ring`, and by `nc_algebra` over a ring.
#![tactic(auto)]

mod blocks;
mod commuting;
mod entries;
pub mod laws;
mod names;
mod pairs;
mod relations;

pub use commuting::new_ring;
pub use relations::nc_ring;

#[cfg(test)]
mod tests;
