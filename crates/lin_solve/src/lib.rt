//! Square linear systems of whole numbers, solved exactly.
//!
//! The method is fraction-free elimination by kernel rows. A kernel row is a row of whole numbers that a list of lines
//! sends to 0. It is found by clearing one line after the other, and each row on the way is divided by what its numbers
//! share. Such rows are small by the pigeonhole lemma of Siegel: few equations in many unknowns have a small solution
//! other than 0. So no number leaves the range, and no right-hand side is carried along: if the matrix has no kernel row,
//! each value of the solution comes from a row that clears all columns but one.
//!
//! A limit is a number that the sizes of each line and of each column sum to at most. Contracts ask for one that leaves
//! room, and answers are small by each: a kernel row of `n` numbers by its power `n - 1`, a denominator by its power `n`.
#![tactic(auto)]

mod columns;
mod common;
mod kernel;
mod pivots;
mod rows;
mod solved;
mod square;

pub use rows::quotients;
pub use solved::{Solved, solve};
pub use square::Square;
