//! The tests of a certificate. They take no memory and use no code that prices.
//!
//! The nine tests, in their order, and the calls that make each:
//!
//! - C1: the denominator and the value are of the right size: `sizes_test`;
//! - C2: each number names a bid, the choice fits in the supply, and its value is the stated one: `choice_test`;
//! - C3: the table shows that no choice is worth more, and none before it is worth as much: `two_lines_found` and
//!   `last_line_fault` for
//!   the rules of the table, `none_earlier` for the choices before;
//! - C4: each winner's part shows a best choice without it: `is_allowed_without`, and the rules of its table;
//! - C5: a winner pays no more than it bids, and a loser nothing: `payments_test`;
//! - C6: the members of a row win, and pay just what they have to pay together: `row_holds`;
//! - C7: the first multipliers of the rows show that no core payments have a smaller sum: `first_test`;
//! - C8: the second ones show that these are nearest to the Vickrey prices among core payments of least sum: `second_test`;
//! - C9: the lowered table shows that no set of bidders blocks the payments: `put_gains`, `sum_paid`, and the rules of the table.
//!
//! Each test reads only the numbers that it needs, and a table is tested two lines at a time, so `stream_check` runs the tests
//! while it reads a certificate. The program does this; `whole` has `check`, the same nine tests for a caller with a
//! certificate in memory.
#![tactic(auto)]

mod choice;
mod claim;
mod columns;
mod failure;
mod judging;
mod multipliers;
mod payments;
mod rows;
mod sizes;
pub mod sums;
mod tables;
mod verdict;
mod whole;

pub use choice::choice_test;
pub use claim::Claim;
pub use columns::{MultiplierColumn, add_row};
pub use failure::{Failure, after_table, failure_of, merge_early, verdict_of};
pub use judging::is_allowed_without;
pub use multipliers::{first_test, is_first, is_signed, second_test};
pub use payments::payments_test;
pub use rows::row_holds;
pub use sizes::{is_small, sizes_test};
pub use table_check::{LineFault, TestedBids, last_line_fault, two_lines_found};
pub use tables::earlier::none_earlier;
pub use tables::gains::put_gains;
pub use tables::{BIDDER_ROOM, sum_paid};
pub use verdict::Verdict;
pub use whole::check;
