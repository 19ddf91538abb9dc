// The lines of bidders and of their bids.
ghost use Rattle.std.specs.Prelude.{IfNone, IfSome, List, None, OnOk, Some, codes, length, ℕ, ◌++◌, ◌<◌, ◌≡◌};
ghost use Rattle.slot_places.specs.Slots.{SlotBid, SlotList};
ghost use Rattle.slot_places.specs.Fields.{bid_value};
ghost use Rattle.slot_places.specs.Stages.{Adds, AddsBidder, AddsPlace, IsEntrant, IsNextPlace, excess_of};

use crate::read::fields::{read_within, two_fields};
use crate::{MOST_PLACED, Place, Slots};
use bid_book::{Excess, Name, name_text};
use limits::{LimitKind, MOST_AMOUNT};
use line_format::{LineStop, read_at_most};
use std::alloc::Global;

/// Takes the line of a bidder or of a bid.
pub fn take_entry(alloc: Global, slots: &mut Slots, line: &[u8]) -> Result<(), LineStop<Excess>>
    ensures ok { OnOk result (Adds slots.old slots.new line.now × (excess_of slots.new ≡ None)) }
    ensures form { result ≡ Err LineStop.Form → (new : SlotList) → Adds slots.old new line.now → ⊥ }
    ensures limit { (kind : LimitKind) (count : ℕ) → result ≡ Err (LineStop.Limit (kind, count))
        → (new : SlotList) × Adds slots.old new line.now × (excess_of new ≡ Some (kind, count)) }
    ensures memory { result ≡ Err LineStop.Memory
        → (new : SlotList) × Adds slots.old new line.now × (excess_of new ≡ None) }
{
    match line.strip_prefix(b"bidder ") {
        Some(fields) => take_bidder(alloc, slots, fields),
        None => take_place(slots, line),
    }
}

/// Takes the line of a bidder with these fields.
fn take_bidder(alloc: Global, slots: &mut Slots, fields: &[u8]) -> Result<(), LineStop<Excess>>
    ensures ok { OnOk result (AddsBidder slots.old slots.new (codes "bidder " ++ fields.now) × (excess_of slots.new ≡ None)) }
    ensures form { result ≡ Err LineStop.Form → (new : SlotList) → AddsBidder slots.old new (codes "bidder " ++ fields.now) → ⊥ }
    ensures limit { (kind : LimitKind) (count : ℕ) → result ≡ Err (LineStop.Limit (kind, count)) → (new : SlotList) × AddsBidder slots.old new (codes "bidder " ++ fields.now) × (excess_of new ≡ Some (kind, count)) }
    ensures memory { result ≡ Err LineStop.Memory
        → (new : SlotList) × AddsBidder slots.old new (codes "bidder " ++ fields.now) × (excess_of new ≡ None) }
{
    let Some((text, width)) = read_bidder(slots, fields) else {
        return Err(LineStop::Form);
    };
    if slots.bidders() >= MOST_PLACED {
        return Err(LineStop::Limit((LimitKind::Bidders, MOST_PLACED as u64 + 1)));
    }
    let name = Name::new(alloc, text)?;
    slots.add_bidder(alloc, name, width)?;
    Ok(())
}

/// The name and the width that the fields state, if such a bidder may follow the bidders of the
/// slots.
fn read_bidder<'a>(slots: &Slots, fields: &'a [u8]) -> Option<(&'a str, u16)>
    ensures found { IfSome result (λ e. IsEntrant slots.now fields.now e.0.now e.1) }
    ensures none { IfNone result ((name : List ℕ) (width : ℕ) → IsEntrant slots.now fields.now name width → ⊥) }
{
    let (first, second) = two_fields(fields)?;
    let text = name_text(first)?;
    if slots.has_bidder(text) {
        return None;
    }
    let width = read_within(second, 1, slots.room() as u64)?;
    Some((text, width as u16))
}

/// Takes the line of a bid of the last bidder.
fn take_place(slots: &mut Slots, line: &[u8]) -> Result<(), LineStop<Excess>>
    ensures ok { OnOk result (AddsPlace slots.old slots.new line.now × (excess_of slots.new ≡ None)) }
    ensures form { result ≡ Err LineStop.Form → (new : SlotList) → AddsPlace slots.old new line.now → ⊥ }
    ensures no_limit { (kind : LimitKind) (count : ℕ) → result ≡ Err (LineStop.Limit (kind, count)) → ⊥ }
    ensures memory { result ≡ Err LineStop.Memory
        → (new : SlotList) × AddsPlace slots.old new line.now × (excess_of new ≡ None) }
{
    if slots.bidders() == 0 {
        return Err(LineStop::Form);
    }
    let Some(place) = read_place(slots, line) else {
        return Err(LineStop::Form);
    };
    slots.add_place(place)?;
    Ok(())
}

/// The bid that the line states, if it may follow the bids of the last bidder.
fn read_place(slots: &Slots, line: &[u8]) -> Option<Place>
    requires { 0 < length slots.now.bidders }
    ensures found { IfSome result (λ place. IsNextPlace slots.now line.now (bid_value place)) }
    ensures none { IfNone result ((bid : SlotBid) → IsNextPlace slots.now line.now bid → ⊥) }
{
    slots.kept();
    let fields = line.strip_prefix(b"place ")?;
    let (first, second) = two_fields(fields)?;
    let start = read_within(first, slots.next_start() as u64, slots.last_start() as u64)?;
    let amount = read_at_most(second, MOST_AMOUNT)?;
    Some(Place {
        start: start as u16,
        amount,
    })
}
