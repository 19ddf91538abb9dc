//! The desk of an auction. It takes the lines of a log one by one, replies to each, and makes the book of the
//! log.
#![tactic(auto)]

mod book;
mod desk;
mod difference;
mod lists;
mod slots;
mod testers;

pub use auction_rules::{Event, Reply, Stage};
pub use desk::{Desk, DeskStop};
