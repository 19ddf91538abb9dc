//! The rules of one line of a table of dynamic programming, tested in as few numbers as show them.
//!
//! Line `k` of a table has for each place of a remaining supply the most that the bidders after `k` can reach within it. So it is
//! nowhere below the line below it, and for each bid of its bidder at least what the bid is worth and what the line below has for
//! the rest. Anyone who tests a table tests it two lines at a time.
//! What is alike here and in `value_table` (`Block`, `IsBlock`, `place-one`) is double on purpose: a checker shares no code with pricing.
#![tactic(auto)]

mod block;
mod blocks;
mod coarse;
mod growth;
mod lines;
mod narrow;
mod offers;
mod rule;
mod walk;

pub use lines::{LineFault, last_line_fault, two_lines_found};
pub use offers::{TestedBids, scaled_less};
