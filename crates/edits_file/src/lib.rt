//! The edits of a book, and the reader of their file.
#![tactic(auto)]

ghost use Rattle.std.specs.Prelude.{◌≡◌};
ghost use Rattle.edits_file.specs.declared.EditStop.TheVariants.{Memory};

mod edits;
mod fields;
mod laws;
mod line;
mod read;

pub use edits::Edits;
pub use laws::{edit_counts, one_edits, some_edits};
pub use limits::LimitKind;
pub use read::read_edits;
use std::alloc::AllocError;

/// Why bytes state no edits of a book.
#[derive(Clone, Copy, Debug, PartialEq, Eq)]
pub enum EditStop {
    /// The byte where the first faulty line begins, counted from 0.
    Form(u64),
    /// A quantity that exceeds its limit, at the first line where one does, with its count.
    Limit(LimitKind, u64),
    /// Out of memory.
    Memory,
}

impl From<AllocError> for EditStop {
    ghost from_gives = { λ _ stop. stop ≡ Memory };

    fn from(_error: AllocError) -> EditStop {
        EditStop::Memory
    }
}
