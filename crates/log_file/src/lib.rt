//! The log of an auction: the reader of its file, and the lines that its replies are printed as.
#![tactic(auto)]

ghost use Rattle.std.specs.Prelude.{◌≡◌};
ghost use Rattle.log_file.specs.declared.LogStop.TheVariants.{Memory};

mod events;
mod fields;
mod laws;
mod read;
mod record;
mod reply;
mod wide;

pub use auction_rules::{Event, Reply};
pub use events::Events;
pub use laws::{one_reading, packages_of_log, written_log};
pub use limits::LimitKind;
pub use read::read_log;
pub use reply::{add_reply_line, reply_line};
use std::alloc::{AllocError, AllocFailed};

/// Why bytes aren't a log.
#[derive(Clone, Copy, Debug, PartialEq, Eq)]
pub enum LogStop {
    /// The number of the first record without a valid form, counted from 1.
    Form(u64),
    /// There are more records than a log may have: always `Records` with one more than the limit, the number of records that
    /// were read. The form of the last one isn't tested.
    Limit(LimitKind, u64),
    /// Out of memory.
    Memory,
}

impl From<AllocError> for LogStop {
    ghost from_gives = { λ _ stop. stop ≡ Memory };

    fn from(_error: AllocError) -> LogStop {
        LogStop::Memory
    }
}

impl<T: Drop> From<AllocFailed<T>> for LogStop {
    ghost from_gives = { λ _ stop. stop ≡ Memory };

    fn from(_error: AllocFailed<T>) -> LogStop {
        LogStop::Memory
    }
}

/// What an admitted close has done.
#[derive(Clone, Copy, Debug, PartialEq, Eq)]
pub enum CloseDone {
    /// It posted the round of this number.
    Round(u32),
    /// It ended the clock, and the sealed round is open.
    Sealed,
    /// It ended the sealed round.
    Closed,
}
