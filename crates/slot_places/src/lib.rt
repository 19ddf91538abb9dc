//! Placements in a band: bidders that are laid side by side from slot 1 upwards, in an order that is to be found, and bid on the
//! slot where they start.
#![tactic(auto)]

mod bests;
mod laws;
mod placing;
mod read;
mod search;
mod searching;
pub mod sets;
mod slot_chooser;
mod slots;

pub use laws::{one_slots, slot_market, slot_orders, some_slots};
pub use limits::{LimitKind, MOST_PLACED};
pub use read::read_slots;
pub use slot_chooser::{SlotChooser, place_best, place_win};
pub use slots::{Place, Slots};

/// Why bytes aren't slots.
#[derive(Clone, Copy, Debug, PartialEq, Eq)]
pub enum SlotStop {
    /// The byte where the first faulty line begins, counted from 0.
    Form(u64),
    /// A quantity that exceeds its limit, at the first line where one does, with its count.
    Limit(LimitKind, u64),
    /// Out of memory.
    Memory,
}
