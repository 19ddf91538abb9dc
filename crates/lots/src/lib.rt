//! Packages of lots, supplies, and the places of a supply.
#![tactic(auto)]

ghost use Rattle.std.specs.Prelude.{◌≡◌};
ghost use Rattle.lots.specs.declared.LotStop.TheVariants.{Memory};

mod counts;
mod package;
mod places;
mod supply;

pub use counts::used_categories;
pub use package::{Bid, Package};
use std::alloc::AllocError;
pub use supply::Supply;

/// Why counts make no package or no supply.
#[derive(Clone, Copy, Debug, PartialEq, Eq)]
pub enum LotStop {
    /// There aren't 1 to 6 categories, but that many.
    Categories(u64),
    /// This category, counted from 1, has no lot. It is the first that has none.
    Zero(u64),
    /// There are that many lots, which is more than 40.
    Lots(u64),
    /// There are that many states, which is more than 16,384.
    States(u64),
    /// Out of memory.
    Memory,
}

impl From<AllocError> for LotStop {
    ghost from_gives = { λ _ stop. stop ≡ Memory };

    fn from(_error: AllocError) -> LotStop {
        LotStop::Memory
    }
}
