//! Texts that are kept as parts, and a certificate's text as one of these.
//!
//! A part is bytes, or the lines of a table, which are kept as numbers and spelled when they are written. So a long text takes a
//! fraction of the memory that its bytes would take, and to write it takes none.
#![tactic(auto)]

mod from_cert;
mod lines;
mod long_text;
mod outbox;
mod part;
mod room;
mod spelling;
mod write;

pub use from_cert::cert_parts;
pub use long_text::LongText;
pub use write::{CutShort, write_long};
