// The first of the greatest choices, from the lines of a table.
ghost use Rattle.std.specs.Prelude.{◌≡◌, ℕ, [], slice_index_or, ◌-◌, ◌≤◌, ◌<◌, List, ◌∷◌, length, IfOk, IfSome, IfNone, IsTrue, IsFalse, map};
ghost use Rattle.auction_model.specs.Package.{is_within, less};
ghost use Rattle.auction_model.specs.Place.{left_at, place_of, states_of};
ghost use Rattle.auction_model.specs.Market.{sum_after};
ghost use Rattle.auction_model.specs.Menu.{fits_after};
ghost use Rattle.auction_model.specs.Greatest.{IsFirstGreatest};
ghost use Rattle.auction_model.specs.Table.{IsEntry};
ghost use Rattle.auction_model.specs.Steps.{IsFirstNumber, sum_with};
ghost use Rattle.value_table.specs.Counted.{counted_bids, counted, IsCountedLine, IsCountedTable};

use crate::cell::{Cell, number_at};
use crate::lowered_bids::LoweredBids;
use choices::{Grid, LineNumbers, Numbers, place_after};
use std::alloc::{AllocError, Global};

/// What bid `i` of bidder `j` and the bidders after it count at a place, or None if the package of the bid doesn't fit.
fn sum_at<C: Cell>(lowered: &LoweredBids, j: u16, i: u16, place: usize, below: &[C]) -> Option<i128>
    requires bidder { (0 < j) × (j ≤ length lowered.now.book.now.bidders) }
    requires bid { (0 < i) × (i ≤ (counted_bids lowered.now).bids j) }
    requires place { place < states_of lowered.now.book.now.supply }
    requires below { IsCountedLine lowered.now j (map C.number below.now) }
    ensures fits { IfSome result
        (λ _. IsTrue (is_within ((counted_bids lowered.now).lots j i)
        (left_at lowered.now.book.now.supply place))) }
    ensures sum { IfSome result
        (λ z. z ≡ sum_with (counted_bids lowered.now)
        (counted lowered.now) lowered.now.book.now.supply j place (map C.number below.now) i) }
    ensures exceeds { IfNone result
        (IsFalse (is_within ((counted_bids lowered.now).lots j i) (left_at lowered.now.book.now.supply place))) }
{
    let bid = lowered.bid(j, i);
    match lowered.book.supply().minus(place, &bid.package) {
        Some(rest) => Some(lowered.worth(j, i) + number_at(below, rest)),
        None => None,
    }
}

/// The first number of bidder `j`, by the order of ties, that lets it and the bidders after it reach the entry of a place.
pub fn first_number<C: Cell>(
    lowered: &LoweredBids,
    j: u16,
    place: usize,
    here: i128,
    below: &[C],
) -> u16
    requires bidder { (0 < j) × (j ≤ length lowered.now.book.now.bidders) }
    requires place { place < states_of lowered.now.book.now.supply }
    requires here { IsEntry (counted_bids lowered.now) (counted lowered.now) (j - 1)
        (left_at lowered.now.book.now.supply place) here }
    requires below { IsCountedLine lowered.now j (map C.number below.now) }
    ensures known { result ≤ (counted_bids lowered.now).bids j }
    ensures first { IsFirstNumber (counted_bids lowered.now)
        (counted lowered.now) lowered.now.book.now.supply j place here (map C.number below.now) result }
{
    for i in 0..lowered.bids(j) {
        if let Some(sum) = sum_at(lowered, j, i + 1, place, below) {
            if sum == here {
                return i + 1;
            }
        }
    }
    0
}

/// The place of what is left after number `i` of bidder `j`, whose package fits.
fn place_left(lowered: &LoweredBids, j: u16, i: u16, place: usize) -> usize
    requires bidder { (0 < j) × (j ≤ length lowered.now.book.now.bidders) }
    requires bid { i ≤ (counted_bids lowered.now).bids j }
    requires place { place < states_of lowered.now.book.now.supply }
    requires fits { IsTrue
        (is_within ((counted_bids lowered.now).lots j i) (left_at lowered.now.book.now.supply place)) }
    ensures place { result
        ≡ place_of lowered.now.book.now.supply
        (less (left_at lowered.now.book.now.supply place) ((counted_bids lowered.now).lots j i)) }
    ensures below { result < states_of lowered.now.book.now.supply }
{
    place_after(lowered.book, lowered.bidder(j), i, place).unwrap()
}

/// What a bidder has in the walk through the lines.
#[derive(Clone, Copy)]
struct WalkStep {
    /// The number of its bid.
    number: u16,
    /// The place of what it leaves.
    place: usize,
}

/// One step of the walk: bidder `j` has the first number that reaches the entry of a place, and goes on to the place of what it leaves.
fn next_step<C: Cell>(
    lowered: &LoweredBids,
    j: u16,
    place: usize,
    here: i128,
    below: &[C],
) -> WalkStep
    requires bidder { (0 < j) × (j ≤ length lowered.now.book.now.bidders) }
    requires place { place < states_of lowered.now.book.now.supply }
    requires here { IsEntry (counted_bids lowered.now) (counted lowered.now) (j - 1)
        (left_at lowered.now.book.now.supply place) here }
    requires below { IsCountedLine lowered.now j (map C.number below.now) }
    ensures place { result.place < states_of lowered.now.book.now.supply }
    ensures walk { (r : List ℕ)
        → IsFirstGreatest (fits_after (counted_bids lowered.now) j (left_at lowered.now.book.now.supply result.place))
        (sum_after (counted lowered.now) j) r
        → IsFirstGreatest (fits_after (counted_bids lowered.now) (j - 1) (left_at lowered.now.book.now.supply place))
        (sum_after (counted lowered.now) (j - 1)) (result.number ∷ r) }
{
    let number = first_number(lowered, j, place, here, below);
    let place = place_left(lowered, j, number, place);
    WalkStep { number, place }
}

/// One step of the walk over the lines of a table, each in its stored size.
fn grid_step(lowered: &LoweredBids, j: u16, place: usize, lines: &Grid) -> WalkStep
    requires bidder { (0 < j) × (j ≤ length lowered.now.book.now.bidders) }
    requires place { place < states_of lowered.now.book.now.supply }
    requires table { IsCountedTable lowered.now lines.now }
    ensures place { result.place < states_of lowered.now.book.now.supply }
    ensures walk { (r : List ℕ)
        → IsFirstGreatest (fits_after (counted_bids lowered.now) j (left_at lowered.now.book.now.supply result.place))
        (sum_after (counted lowered.now) j) r
        → IsFirstGreatest (fits_after (counted_bids lowered.now) (j - 1) (left_at lowered.now.book.now.supply place))
        (sum_after (counted lowered.now) (j - 1)) (result.number ∷ r) }
{
    let here = lines.entry(j as usize - 1, place);
    match lines.line(j as usize) {
        LineNumbers::Short(below) => next_step(lowered, j, place, here, below),
        LineNumbers::Wide(below) => next_step(lowered, j, place, here, below),
    }
}

/// The first of the greatest choices, from the lines of its table.
pub fn trace_lines(
    alloc: Global,
    lowered: &LoweredBids,
    lines: &Grid,
) -> Result<Numbers, AllocError>
    requires { IsCountedTable lowered.now lines.now }
    ensures { IfOk result
        (λ v. IsFirstGreatest (fits_after (counted_bids lowered.now) 0 lowered.now.book.now.supply)
        (sum_after (counted lowered.now) 0) v) }
{
    let mut numbers = Numbers::new(alloc);
    let mut place = lowered.book.supply().states() - 1;
    for k in 0..lowered.book.bidders() {
        let step = grid_step(lowered, k as u16 + 1, place, lines);
        place = step.place;
        numbers.push(step.number)?;
    }
    Ok(numbers)
}

/// The numbers of a line.
pub fn line_at<C: Cell>(lines: &[Vec<C>], line: usize) -> &[C]
    requires { line < length lines.now }
    ensures { map C.number result.now ≡ slice_index_or (map (λ l. map C.number l.items) lines.now) line [] }
{
    &lines[line]
}

/// The first of the greatest choices, from the lines of its table, all in one size.
pub fn trace_slices<C: Cell>(
    alloc: Global,
    lowered: &LoweredBids,
    lines: &[Vec<C>],
) -> Result<Numbers, AllocError>
    requires { IsCountedTable lowered.now (map (λ l. map C.number l.items) lines.now) }
    ensures { IfOk result
        (λ v. IsFirstGreatest (fits_after (counted_bids lowered.now) 0 lowered.now.book.now.supply)
        (sum_after (counted lowered.now) 0) v) }
{
    let mut numbers = Numbers::new(alloc);
    let mut place = lowered.book.supply().states() - 1;
    for k in 0..lowered.book.bidders() {
        let here = number_at(line_at(lines, k), place);
        let below = line_at(lines, k + 1);
        let step = next_step(lowered, k as u16 + 1, place, here, below);
        place = step.place;
        numbers.push(step.number)?;
    }
    Ok(numbers)
}
