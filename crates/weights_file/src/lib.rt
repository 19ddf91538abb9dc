//! The weights of the bidders of a book, and the reader of their file.
#![tactic(auto)]

ghost use Rattle.std.specs.Prelude.{◌≡◌};
ghost use Rattle.weights_file.specs.declared.WeightStop.TheVariants.{Memory};

mod laws;
mod line;
mod read;
mod weights;

pub use laws::{one_text, one_weighing, some_weighing};
pub use read::read_weights;
use std::alloc::{AllocError, AllocFailed};
pub use weights::Weights;

/// Why bytes state no weights of the bidders of a book.
#[derive(Clone, Copy, Debug, PartialEq, Eq)]
pub enum WeightStop {
    /// The byte where the first faulty line begins, counted from 0.
    Form(u64),
    /// Out of memory.
    Memory,
}

impl From<AllocError> for WeightStop {
    ghost from_gives = { λ _ stop. stop ≡ Memory };

    fn from(_error: AllocError) -> WeightStop {
        WeightStop::Memory
    }
}

impl From<AllocFailed<u32>> for WeightStop {
    ghost from_gives = { λ _ stop. stop ≡ Memory };

    fn from(_error: AllocFailed<u32>) -> WeightStop {
        WeightStop::Memory
    }
}
