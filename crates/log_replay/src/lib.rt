//! The log of an auction, replayed: from an award and the lines of a log to the lines of the replies and the book.
#![tactic(auto)]

mod lines;
mod replaying;
mod results;

pub use auction_rules::Event;
pub use log_file::Events;
pub use replaying::replay;
pub use results::{Replay, ReplayStop};
