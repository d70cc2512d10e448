//! Products in a G-algebra, by closed forms and by a table of products of small powers that threads
//! may share.
#![tactic(auto)]

mod exchange;
mod first;
mod front;
mod kept;
mod kinds;
mod multiplying;
mod pairs;
mod parts;
mod pending;
mod place;
mod portion;
mod powers;
mod products;
mod seat;
mod split;
mod steps;
mod swap;
mod table;
#[cfg(test)]
mod tests;

pub use place::value_of;
pub use products::{kept_times, right_times, term_times, times};
pub use seat::{Learned, TableSeat};
pub use steps::Steps;
pub use table::Table;
pub use word_model::events::Place;
