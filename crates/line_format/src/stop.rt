// Why a line isn't taken, and why bytes aren't a text.
ghost use Rattle.std.specs.Prelude.{◌≡◌};
ghost use Rattle.line_format.specs.Stops.{text_stop};
ghost use Rattle.line_format.specs.declared.stop.LineStop.TheVariants.{Memory};

use std::alloc::{AllocError, AllocFailed};

/// Why a line is not taken.
#[derive(Drop)]
pub enum LineStop<L> {
    /// No text goes on with such a line.
    Form,
    /// The line exceeds this limit.
    Limit(L),
    /// Out of memory.
    Memory,
}

impl<L: Drop> LineStop<L> {
    /// The stop at the line that begins at this byte.
    pub(crate) fn at(self, place: u64) -> TextStop<L>
        ensures { result ≡ text_stop self place }
    {
        match self {
            LineStop::Form => TextStop::Form(place),
            LineStop::Limit(limit) => TextStop::Limit(limit),
            LineStop::Memory => TextStop::Memory,
        }
    }
}

impl<L: Drop> From<AllocError> for LineStop<L> {
    ghost from_gives = { λ _ stop. stop ≡ Memory };

    fn from(_error: AllocError) -> LineStop<L> {
        LineStop::Memory
    }
}

impl<L: Drop, T: Drop> From<AllocFailed<T>> for LineStop<L> {
    ghost from_gives = { λ _ stop. stop ≡ Memory };

    fn from(_error: AllocFailed<T>) -> LineStop<L> {
        LineStop::Memory
    }
}

/// Why bytes aren't a text of a form.
#[derive(Drop)]
pub enum TextStop<L> {
    /// The byte where the first faulty line begins, counted from 0.
    Form(u64),
    /// What the first line that exceeds a limit exceeds.
    Limit(L),
    /// Out of memory.
    Memory,
}
