//! Pairs `far * t + near` of whole numbers of the range, where `t` stands for a number above every other.
#![tactic(auto)]

ghost use Rattle.std.specs.Prelude.{pos, ◌≤ℤ◌};

mod arithmetic;
mod far_list;

pub use arithmetic::{add, dot01, sub, times};
pub use far_list::FarList;

/// The number `far * t + near`, where `t` is above every number. Pairs are ordered by `far`, then by `near`.
#[derive(Clone, Copy, Debug, Drop, PartialEq, Eq, PartialOrd, Ord)]
pub struct Far {
    /// How many times `t`.
    pub far: i128,
    /// The rest.
    pub near: i128,
}

/// A point whose coordinates are pairs over one denominator of at least 1.
#[derive(Debug, Drop)]
pub struct FarPoint {
    /// The denominator.
    pub den: i128,
    /// One numerator for each coordinate.
    pub at: FarList,
    pub ghost positive: { pos 1 ≤ℤ den },
}

/// A set of members, one for each set bit, with a bound on what they sum to.
#[derive(Clone, Copy, Debug, Drop, PartialEq, Eq)]
pub struct Row {
    /// Bit `i` is set if `i` is a member.
    pub members: u16,
    /// The least sum of the members.
    pub bound: i128,
}
