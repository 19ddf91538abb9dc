// The places of entries in a list.
ghost use Rattle.std.specs.Prelude.{◌≡◌, ◌+◌, ◌∷◌, ◌++◌, ◌≤◌, [], ℕ, IfOk, Some, OnErr, OnOk, length, map, take};
ghost use Rattle.auction_model.specs.Entries.{with_entry};
ghost use Rattle.auction_rules.specs.Replies.{has_entry};
ghost use Rattle.relative_cap.specs.OwnRounds.{bid_value};
ghost use Rattle.bid_desk.specs.Lists.{IsKept};
ghost use Rattle.bid_desk.specs.Differences.{SetsAmount};
ghost use Rattle.bid_desk.specs.Slots.{IsSlot};

use lots::{Bid, Package};
use relative_cap::{is_same, place_of};
use std::alloc::{AllocError, Global};

/// Where the entry for a package is in a list in the order of packages, or would be. Places are counted from 0.
#[derive(Clone, Copy)]
pub enum Position {
    /// The entry for the package is here.
    Taken(usize),
    /// There is none; it would come before the entry that is here.
    Free(usize),
}

/// The slot of a package in a list. It takes no memory.
pub fn slot_of(list: &[Bid], package: &Package) -> Position
    requires { IsKept (length «package».now) (map bid_value list.now) }
    ensures { IsSlot (map bid_value list.now) «package».now result }
{
    let place = place_of(list, package);
    if place < list.len() && is_same(&list[place].package, package) {
        Position::Taken(place)
    } else {
        Position::Free(place)
    }
}

/// Whether a list has an entry for the package. It takes no memory.
pub fn has_entry(list: &[Bid], package: &Package) -> bool
    requires { IsKept (length «package».now) (map bid_value list.now) }
    ensures { result ≡ has_entry «package».now (map bid_value list.now) }
{
    match slot_of(list, package) {
        Position::Taken(_) => true,
        Position::Free(_) => false,
    }
}

/// Sets the amount for the package in a list, and returns the place of its entry if there was one. If memory runs out, the
/// list stays as it is.
pub fn put_entry(
    list: &mut Vec<Bid>,
    package: &Package,
    amount: u64,
) -> Result<Option<usize>, AllocError>
    requires { IsKept (length «package».now) (map bid_value list.old.items) }
    ensures put { OnOk result
        (map bid_value list.new.items ≡ with_entry «package».now amount (map bid_value list.old.items)) }
    ensures set { (place : ℕ) → result ≡ Ok (Some place)
        → SetsAmount (map bid_value list.old.items) place amount (map bid_value list.new.items) }
    ensures unchanged { OnErr result (list.new.items ≡ list.old.items) }
{
    match slot_of(list, package) {
        Position::Taken(place) => {
            list[place].amount = amount;
            Ok(Some(place))
        }
        Position::Free(place) => {
            let package = package.copied();
            list.insert(place, Bid { package, amount })?;
            Ok(None)
        }
    }
}

/// A copy of the entries.
pub fn copied_entries(alloc: Global, list: &[Bid]) -> Result<Vec<Bid>, AllocError>
    ensures { IfOk result (λ v. map bid_value v.items ≡ map bid_value list.now) }
{
    let mut copies = Vec::with_capacity(alloc, list.len())?;
    for bid in list {
        copies.push(Bid {
            package: bid.package.copied(),
            amount: bid.amount,
        })?;
    }
    Ok(copies)
}

/// Copies the bid to the entry at the place. The entries before it stay.
fn copy_entry(list: &mut Vec<Bid>, place: usize, bid: &Bid) -> Result<(), AllocError>
    requires { place ≤ length list.old.items }
    ensures { OnOk result
        (take (place + 1) (map bid_value list.new.items)
        ≡ take place (map bid_value list.old.items) ++ (bid_value bid.now ∷ [])) }
{
    if place < list.len() && list[place].package.categories() == bid.package.categories() {
        let entry = &mut list[place];
        entry.package.copy_from(&bid.package);
        entry.amount = bid.amount;
        return Ok(());
    }
    list.truncate(place);
    list.push(Bid {
        package: bid.package.copied(),
        amount: bid.amount,
    })?;
    Ok(())
}

/// Copies the entries of one list to another. It overwrites the old ones, and takes memory only if there are fewer. If it is
/// out of memory, the list has some entries of each.
pub fn copy_entries(from: &[Bid], list: &mut Vec<Bid>) -> Result<(), AllocError>
    ensures { OnOk result (map bid_value list.new.items ≡ map bid_value from.now) }
{
    for (place, bid) in from.iter().enumerate() {
        copy_entry(list, place, bid)?;
    }
    list.truncate(from.len());
    Ok(())
}
