//! The clock stage of an auction: the price step, the clock that takes bids and closes rounds, and the history of its rounds.
#![tactic(auto)]

mod bids;
mod clock;
mod closes;
mod demand;
mod rounds;
mod steps;

pub use auction_rules::{Event, Reply, Stage};
pub use bids::reply_to_package;
pub use clock::Clock;
pub use closes::Closed;
pub use rounds::History;
pub use steps::step;
