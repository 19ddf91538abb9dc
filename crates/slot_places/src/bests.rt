// The best choices after each set of bidders, from the full set down to the empty set.
ghost use Rattle.std.specs.Prelude.{◌≡◌, ◌+◌, ◌-◌, ◌^◌, ◌≤◌, ◌<◌, IsTrue, IsFalse, IfOk, List, ℕ, length, replicate, slice_set, ◌≤ℤ◌, ◌<ℤ◌};
ghost use Rattle.std.specs.List.{All};
ghost use Rattle.auction_model.specs.Market.{is_earlier, is_number_before, number_of};
ghost use Rattle.slot_places.specs.SetTable.{holds, sum_outside, fits_behind};
ghost use Rattle.slot_places.specs.Steps.{searched, counted, IsBefore, IsHeld, IsBestOf, IsBestNext, IsBestTo, AreBests};

use crate::search::Search;
use crate::sets::{is_in, weight};
use std::alloc::{AllocError, Global};

/// A choice that gives 0 to the bidders of a set, and what those outside the set count.
#[derive(Drop)]
pub struct Best {
    pub numbers: Vec<u16>,
    pub sum: i128,
}

/// Whether number `i` comes before `j` by the order of ties, whose last number is 0.
fn is_before(i: u16, j: u16) -> bool
    ensures { result ≡ is_number_before i j }
{
    0 < i && (j == 0 || i < j)
}

/// Whether one choice comes before another by the order of ties.
fn comes_first(c: &[u16], d: &[u16]) -> bool
    requires { length c.now ≡ length d.now }
    ensures { result ≡ is_earlier c.now d.now }
{
    for k in 0..c.len() {
        if c[k] != d[k] {
            return is_before(c[k], d[k]);
        }
    }
    false
}

/// The better one: by the sum, and if sums are equal, by the order of ties.
fn better(search: &Search, set: usize, best: Best, next: Best) -> Best
    requires best { IsHeld search.now set best }
    requires next { IsHeld search.now set next }
    ensures held { IsHeld search.now set result }
    ensures best { IsBefore (sum_outside (holds set) (counted search.now)) result.numbers.items best.numbers.items }
    ensures next { IsBefore (sum_outside (holds set) (counted search.now)) result.numbers.items next.numbers.items }
{
    if next.sum < best.sum {
        return best;
    }
    if best.sum < next.sum {
        return next;
    }
    if comes_first(&next.numbers, &best.numbers) {
        return next;
    }
    best
}

/// The best choice with bidder `j` next after the set, with number `i`, from the best choice after the set with `j`.
fn with_number(
    alloc: Global,
    search: &Search,
    set: usize,
    j: u16,
    i: u16,
    behind: &Best,
) -> Result<Best, AllocError>
    requires bidder { (0 < j) × (j ≤ (searched search.now).bidders) }
    requires set { set < 2 ^ (searched search.now).bidders }
    requires new { IsFalse (holds set j) }
    requires bid { i ≤ (searched search.now).bids j }
    requires may { IsTrue ((searched search.now).may (holds set) j i) }
    requires behind { IsBestOf search.now (set + 2 ^ (j - 1)) behind.now }
    ensures held { IfOk result (λ b. IsHeld search.now set b) }
    ensures best { IfOk result (λ b. IsBestNext search.now set j (λ n. n ≡ i) b.numbers.items) }
{
    let mut numbers = Vec::from_slice(alloc, &behind.numbers)?;
    numbers[j as usize - 1] = i;
    let sum = search.worth(j, i) + behind.sum;
    Ok(Best { numbers, sum })
}

/// The better of a choice and the best choice with bidder `j` next after the set.
fn with_bidder(
    alloc: Global,
    search: &Search,
    set: usize,
    j: u16,
    behind: &Best,
    best: Best,
) -> Result<Best, AllocError>
    requires bidder { (0 < j) × (j ≤ (searched search.now).bidders) }
    requires set { set < 2 ^ (searched search.now).bidders }
    requires new { IsFalse (holds set j) }
    requires behind { IsBestOf search.now (set + 2 ^ (j - 1)) behind.now }
    requires best { IsHeld search.now set best }
    ensures held { IfOk result (λ b. IsHeld search.now set b) }
    ensures kept { IfOk result
        (λ b. IsBefore (sum_outside (holds set) (counted search.now)) b.numbers.items best.numbers.items) }
    ensures best { IfOk result
        (λ b. IsBestNext search.now set j (λ n. n ≤ (searched search.now).bids j) b.numbers.items) }
{
    let start = search.start(set);
    let next = with_number(alloc, search, set, j, 0, behind)?;
    let mut best = better(search, set, best, next);
    for i in 0..search.bids(j) {
        let place = search.slots.place(j, i + 1);
        if place.start == start {
            let next = with_number(alloc, search, set, j, i + 1, behind)?;
            best = better(search, set, best, next);
        }
    }
    Ok(best)
}

/// A bidder outside a set that isn't the full set.
fn outside_bidder(search: &Search, set: usize) -> u16
    requires { set + 1 < 2 ^ (searched search.now).bidders }
    ensures bidder { (0 < result) × (result ≤ (searched search.now).bidders) }
    ensures outside { IsFalse (holds set result) }
{
    for k in 0..search.slots.bidders() {
        let j = k as u16 + 1;
        if !is_in(set, j) {
            return j;
        }
    }
    unreachable!()
}

/// The best choice after a set, from those after all greater sets.
fn best_after(
    alloc: Global,
    search: &Search,
    set: usize,
    greater: &[Best],
) -> Result<Best, AllocError>
    requires set { set + 1 < 2 ^ (searched search.now).bidders }
    requires greater { AreBests search.now (set + 1) greater.now }
    ensures { IfOk result (λ b. IsBestOf search.now set b) }
{
    let first = outside_bidder(search, set);
    let mut best = with_number(
        alloc,
        search,
        set,
        first,
        0,
        best_joined(search, set, first, greater),
    )?;
    for k in 0..search.slots.bidders() {
        let j = k as u16 + 1;
        if !is_in(set, j) {
            best = with_bidder(
                alloc,
                search,
                set,
                j,
                best_joined(search, set, j, greater),
                best,
            )?;
        }
    }
    Ok(best)
}

/// The best choice after a set with one bidder more.
fn best_joined<'b>(search: &Search, set: usize, j: u16, greater: &'b [Best]) -> &'b Best
    requires bidder { (0 < j) × (j ≤ (searched search.now).bidders) }
    requires new { IsFalse (holds set j) }
    requires greater { AreBests search.now (set + 1) greater.now }
    ensures { IsBestOf search.now (set + 2 ^ (j - 1)) result.now }
{
    search.slots.kept();
    &greater[weight(j) - 1]
}

/// The only choice after the set of all bidders.
fn last_best(alloc: Global, search: &Search) -> Result<Best, AllocError>
    ensures { IfOk result (λ b. IsBestOf search.now (2 ^ (searched search.now).bidders - 1) b) }
{
    let numbers = vec![in alloc; 0u16; search.slots.bidders()]?;
    Ok(Best { numbers, sum: 0 })
}

/// The best choices after all sets, in the order of their bits. They are found from the last to the first.
pub fn all_bests(alloc: Global, search: &Search) -> Result<Vec<Best>, AllocError>
    ensures { IfOk result (λ v. AreBests search.now 0 v.items) }
{
    let count: usize = 1 << search.slots.bidders();
    let mut bests = Vec::new(alloc);
    let last = last_best(alloc, search)?;
    bests.push(last)?;
    for set in (0..count - 1).rev() {
        let best = best_after(alloc, search, set, &bests)?;
        bests.insert(0, best)?;
    }
    Ok(bests)
}
