//! A certificate from pieces of its text: line by line and number by number, without the whole text and without
//! allocating memory.
//!
//! A `Reader` keeps its position. It keeps numbers in a room that the caller passes in, a slice of `room_len`
//! numbers. However a text is cut into pieces, the reader then represents the text.
#![tactic(auto)]

mod due;
mod line;
mod next;
mod reader;
mod room;
mod stop;

pub use due::{NextLine, Table};
pub use reader::{Progress, Reader};
pub use room::{Span, numbers_span, room_len, rows_start};
pub use stop::TextStop;
