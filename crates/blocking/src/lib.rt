//! The coalition that blocks a point of payments most, and the row that it adds: core constraint generation. (Day and
//! Raghavan, Fair payments for efficient allocations in public sector combinatorial auctions, Management Science 53, 2007;
//! Day and Cramton, Quadratic core-selecting payment rules for combinatorial auctions, Operations Research 60, 2012.)
#![tactic(auto)]

mod look;
mod row;
mod surplus;

pub use look::{Block, Looked, find_block};
