//! Choices of bids, grids of numbers, and choosers: auctions that can be priced.
#![tactic(auto)]

mod choice;
mod chooser;
pub mod coarse;
mod grid;
mod grid_line;
mod judging;
mod listing;
mod numbers;

pub use choice::Choice;
pub use chooser::{Chooser, Found, Single};
pub use grid::Grid;
pub use grid_line::LineNumbers;
pub use judging::{are_known, are_within, fits, known, place_after, value, value_among, worth};
pub use listing::first_by_listing;
pub use numbers::Numbers;
