//! Exact whole numbers strictly between -2^120 and 2^120, their decimal text, and lists of numbers, of bytes and of any items.
#![tactic(auto)]

mod arithmetic;
mod decimals;
mod lists;

pub use arithmetic::{add, div_exact, gcd, mul, sub};
pub use decimals::{digits, read_natural, read_number};
pub use lists::{ItemList, NumList, Text};

/// The least size that leaves the range: 2^120.
pub const EDGE: u128 = 1 << 120;

/// An operation on two numbers of the range.
#[derive(Clone, Copy, Debug, Drop, PartialEq, Eq)]
pub enum Op {
    /// The sum.
    Add,
    /// The left operand less the right one.
    Sub,
    /// The product.
    Mul,
}

/// An operation on two numbers of the range whose exact result leaves the range.
#[derive(Clone, Copy, Debug, Drop, PartialEq, Eq)]
pub struct Wide {
    /// What was to be computed.
    pub op: Op,
    /// The left operand.
    pub left: i128,
    /// The right operand.
    pub right: i128,
}
