//! A certificate of a book, checked from pieces of its text, line by line, without the whole text and without allocating
//! memory.
//!
//! A `StreamCheck` keeps two lines of the table that is read, the choices and the payments in a room that the caller passes in.
//! However a text is cut into pieces, the result is what `read_cert` and `check` return for the whole text.
#![tactic(auto)]

mod check;
mod facts;
mod judging;
mod kept;
mod moment;
mod room;
mod row_totals;

pub use check::StreamCheck;
