// The entries of a list that was tested.
ghost use Rattle.std.specs.Prelude.{◌≡◌, ◌≤◌, ◌<◌, [], All, OnOk, length, map, slice_index_or, take, true};
ghost use Rattle.limits.specs.declared.TheConstants.{MOST_AMOUNT};
ghost use Rattle.clock_stage.specs.Kept.{categories_in};
ghost use Rattle.relative_cap.specs.Asked.{ArePoints, IsBidderOf, IsEligible, IsEntry};
ghost use Rattle.relative_cap.specs.Levels.{ArePeaks};
ghost use Rattle.relative_cap.specs.OwnRounds.{bid_value};
ghost use Rattle.relative_cap.specs.Tested.{IsPutAt, IsTested, tested_bid, tested_lots};

use crate::packages::{is_before, is_same};
use crate::terms::{PackageTerms, package_terms};
use clock_stage::History;
use lots::{Bid, Package};
use std::alloc::AllocError;

/// An entry of a list with the closed rounds' terms for the cap of its package.
#[derive(Drop)]
pub struct TestedEntry {
    /// The entry.
    pub bid: Bid,
    /// The terms of the rounds.
    pub terms: PackageTerms,
}

/// A copy of an entry of bidder `j` with the closed rounds' terms for its package.
fn entry_for(history: &History, points: &[u32], j: u16, peaks: &[u64], bid: &Bid) -> TestedEntry
    requires bidder { IsBidderOf history.now j }
    requires points { ArePoints history.now points.now }
    requires peaks { ArePeaks history.now j peaks.now }
    requires entry { IsEntry (categories_in history.now) bid.now }
    requires eligible { IsEligible points.now history.now j bid.now }
    ensures tested { IsTested history.now points.now j result }
    ensures bid { tested_bid result ≡ bid_value bid.now }
{
    let package = bid.package.copied();
    let terms = package_terms(history, points, j, peaks, &package);
    TestedEntry {
        bid: Bid {
            package,
            amount: bid.amount,
        },
        terms,
    }
}

/// Whether there is an entry at the place whose package comes before this one.
fn comes_before(entries: &[TestedEntry], place: usize, package: &Package) -> bool
    requires { All (λ e. length e.bid.«package» ≡ length «package».now) entries.now }
    ensures { result ≡ true → place < length entries.now }
{
    place < entries.len() && is_before(&entries[place].bid.package, package)
}

/// Whether there is an entry at the place for this package.
fn stands_at(entries: &[TestedEntry], place: usize, package: &Package) -> bool
    requires { All (λ e. length e.bid.«package» ≡ length «package».now) entries.now }
    ensures { result ≡ true
        → (place < length entries.now) × (slice_index_or (map tested_lots entries.now) place [] ≡ «package».now) }
{
    place < entries.len() && is_same(&entries[place].bid.package, package)
}

/// Puts an entry of bidder `j` at the place after those before it. Entries that are there with packages that come earlier are
/// taken out, and one for the package itself keeps what the rounds say.
fn put_among(
    history: &History,
    points: &[u32],
    j: u16,
    peaks: &[u64],
    bid: &Bid,
    place: usize,
    entries: &mut Vec<TestedEntry>,
) -> Result<(), AllocError>
    requires bidder { IsBidderOf history.now j }
    requires points { ArePoints history.now points.now }
    requires peaks { ArePeaks history.now j peaks.now }
    requires entry { IsEntry (categories_in history.now) bid.now }
    requires eligible { IsEligible points.now history.now j bid.now }
    requires place { place ≤ length entries.old.items }
    requires entries { All (IsTested history.now points.now j) entries.old.items }
    ensures entries { All (IsTested history.now points.now j) entries.new.items }
    ensures put { OnOk result
        (IsPutAt (map tested_bid entries.old.items) place (bid_value bid.now) (map tested_bid entries.new.items)) }
{
    while comes_before(entries, place, &bid.package) {
        let _ = entries.remove(place);
    }
    if stands_at(entries, place, &bid.package) {
        entries[place].bid.amount = bid.amount;
        return Ok(());
    }
    let entry = entry_for(history, points, j, peaks, bid);
    entries.insert(place, entry)?;
    Ok(())
}

/// Puts an entry of bidder `j` at the place, just like `put_among`. Most lists differ from the last one in few entries, so it
/// is asked first whether the entry there is one for the package.
fn put_at(
    history: &History,
    points: &[u32],
    j: u16,
    peaks: &[u64],
    bid: &Bid,
    place: usize,
    entries: &mut Vec<TestedEntry>,
) -> Result<(), AllocError>
    requires bidder { IsBidderOf history.now j }
    requires points { ArePoints history.now points.now }
    requires peaks { ArePeaks history.now j peaks.now }
    requires entry { IsEntry (categories_in history.now) bid.now }
    requires eligible { IsEligible points.now history.now j bid.now }
    requires place { place ≤ length entries.old.items }
    requires entries { All (IsTested history.now points.now j) entries.old.items }
    ensures entries { All (IsTested history.now points.now j) entries.new.items }
    ensures put { OnOk result
        (IsPutAt (map tested_bid entries.old.items) place (bid_value bid.now) (map tested_bid entries.new.items)) }
{
    if stands_at(entries, place, &bid.package) {
        entries[place].bid.amount = bid.amount;
        return Ok(());
    }
    put_among(history, points, j, peaks, bid, place, entries)
}

/// Replaces the entries with the list of bidder `j`. The rounds' terms for a package are computed only if the entries don't
/// have them yet. If memory runs out, the entries are another list's.
pub fn follow(
    history: &History,
    points: &[u32],
    j: u16,
    peaks: &[u64],
    list: &[Bid],
    entries: &mut Vec<TestedEntry>,
) -> Result<(), AllocError>
    requires bidder { IsBidderOf history.now j }
    requires points { ArePoints history.now points.now }
    requires peaks { ArePeaks history.now j peaks.now }
    requires list { All (IsEntry (categories_in history.now)) list.now }
    requires eligible { All (IsEligible points.now history.now j) list.now }
    requires entries { All (IsTested history.now points.now j) entries.old.items }
    ensures entries { All (IsTested history.now points.now j) entries.new.items }
    ensures list { OnOk result (map tested_bid entries.new.items ≡ map bid_value list.now) }
{
    for (place, bid) in list.iter().enumerate() {
        put_at(history, points, j, peaks, bid, place, entries)?;
    }
    entries.truncate(list.len());
    Ok(())
}
