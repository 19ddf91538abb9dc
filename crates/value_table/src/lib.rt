//! Exact tables of a book, and the winning choice.
#![tactic(auto)]

mod block;
mod book_chooser;
mod buffers;
mod cell;
mod lines;
mod lowered_bids;
mod rows;
mod runs;
mod shape;
mod short;
mod short_units;
mod side_lines;
mod sides;
mod table;
mod tested;
mod tracing;
mod turn_lines;
mod turn_table;
mod units;
mod widths;

pub use book_chooser::BookChooser;
pub use buffers::LineBuffers;
pub use side_lines::{narrow_left_line, narrow_right_line, right_number};
pub use sides::Sides;
pub use table::{ValueTable, plain_table, win};
pub use turn_table::TurnTable;
