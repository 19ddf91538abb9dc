// Lines in 16 bits, if they are so long, and that many bids count in them, that tests in these may save time. They do if the
// first bids already leave out blocks; with few blocks, or with equal sums, they cost more than they save.
ghost use Rattle.std.specs.Prelude.{◌≡◌, ◌≤◌, ◌<◌, length, IfSome, Some};
ghost use Rattle.value_table.specs.Raising.{MayBeInUnits};

use crate::cell::{Cell, number_at};
use crate::lowered_bids::LoweredBids;
use choices::coarse::shift_for;

/// From that many places on a line is tested in 16 bits.
const LONG_LINE: usize = 2048;

/// From that many bids on that aren't needless it is. With fewer, more blocks have to be raised, and rounding these again takes more than
/// the tests save.
const MANY_BIDS: u16 = 400;

/// After that many bids the tests in 16 bits are given up, unless they left out enough blocks.
const FIRST_BIDS: u32 = 64;

/// How many blocks are enough.
const ENOUGH_BLOCKS: u32 = 32;

/// The shift for the bids after the first `bids`, after `covered` blocks were left out: None from there on if these are too
/// few.
pub fn shift_after(shift: Option<u32>, bids: u32, covered: u32) -> Option<u32>
    ensures { IfSome result (λ k. shift ≡ Some k) }
{
    if bids == FIRST_BIDS && covered < ENOUGH_BLOCKS {
        return None;
    }
    shift
}

/// How many bids of bidder `j` aren't needless.
fn needed_bids(lowered: &LoweredBids, j: u16) -> u16
    requires { (0 < j) × (j ≤ length lowered.now.book.now.bidders) }
{
    let mut count: u16 = 0;
    for i in 0..lowered.bids(j) {
        if !lowered.is_needless(j, i + 1) {
            count = count.saturating_add(1);
        }
    }
    count
}

/// The most that bidder `j` counts.
fn most_worth(lowered: &LoweredBids, j: u16) -> i128
    requires { (0 < j) × (j ≤ length lowered.now.book.now.bidders) }
{
    let mut most = lowered.idle(j);
    for i in 0..lowered.bids(j) {
        most = most.max(lowered.worth(j, i + 1));
    }
    most
}

/// A shift that leaves the numbers of line `j - 1` at most 15 bits, if there is one. Only time depends on it.
fn line_shift<C: Cell>(lowered: &LoweredBids, j: u16, below: &[C]) -> u32
    requires bidder { (0 < j) × (j ≤ length lowered.now.book.now.bidders) }
    requires some { 0 < length below.now }
    ensures { result < 64 }
{
    let last = number_at(below, below.len() - 1).unsigned_abs();
    let most = last.saturating_add(most_worth(lowered, j).unsigned_abs());
    shift_for(most.min(u64::MAX as u128) as u64)
}

/// Puts line `j - 1`, which counts no bid of bidder `j` yet, and line `j` below it in 16 bits, if they are long, many bids
/// count in them and there is room for them, and returns the shift of their units.
pub fn put_units<C: Cell>(
    lowered: &LoweredBids,
    j: u16,
    line: &[C],
    below: &[C],
    low: &mut [u16],
    high: &mut [u16],
) -> Option<u32>
    requires bidder { (0 < j) × (j ≤ length lowered.now.book.now.bidders) }
    requires places { length line.now ≡ length below.now }
    ensures { MayBeInUnits C.number result line.now below.now low.new high.new }
{
    let places = line.len();
    if places < LONG_LINE || low.len() != places || high.len() != places {
        return None;
    }
    if needed_bids(lowered, j) < MANY_BIDS {
        return None;
    }
    let shift = line_shift(lowered, j, below);
    if !C::put_high(high, below, shift) {
        return None;
    }
    C::put_low(low, line, shift);
    Some(shift)
}
