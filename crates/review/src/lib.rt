//! Reviews: the outcome of a book with other bids. Edits change a copy of a book, and the copy's winning choice is
//! kept.
#![tactic(auto)]

mod changes;
mod edit;
mod keeping;
mod laws;
mod lines;
mod replies;
mod review;
mod tracing;

pub use edit::{Edit, EditReply};
pub use laws::edited_amounts;
pub use review::Review;
