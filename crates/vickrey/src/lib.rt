//! The Vickrey prices of the winners of a book.
#![tactic(auto)]

mod pricing;
mod source;
mod winners;

pub use pricing::{vickrey, vickrey_from};
pub use winners::Vickrey;
