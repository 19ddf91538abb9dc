//! Texts by lines: the definitions of a form, the length of the next line, and how the numbers of a line are read and written.
//!
//! A number is decimal digits without a leading zero, after a `-` if it is below zero, and follows one space. Writing takes
//! memory only for the text. The only error is out of memory.
#![tactic(auto)]

mod fields;
mod line;
mod next;
mod numbers;
mod reader;
mod stop;
mod write;

pub use fields::{field_len, read_at_most};
pub use line::numbers_after;
pub use next::line_len;
pub use numbers::{NumbersStop, read_numbers, short_field};
pub use reader::{LineReader, read_lines};
pub use stop::{LineStop, TextStop};
pub use write::{
    add_amounts, add_decimal, add_number, add_numbers, add_signed, add_signed_numbers,
};
