//! The form of a book as definitions, and what is printed of its winners. It has no code.
#![tactic(auto)]

use limits::LimitKind;

/// What a line exceeds: the quantity that has the limit, and its count.
pub type Excess = (LimitKind, u64);
