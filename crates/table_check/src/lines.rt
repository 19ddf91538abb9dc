// The rules of one line of a table.
ghost use Rattle.std.specs.Prelude.{◌≡◌, ◌↔◌, ℕ, suc, ◌^◌, ◌≤◌, ◌<◌, IsTrue, List, [], length, slice_index_or, ℤ, pos, unsigned_abs};
ghost use Rattle.auction_model.specs.Book.{bids_of};
ghost use Rattle.cert_grammar.specs.CertText.{IsTable};
ghost use Rattle.cert_soundness.specs.Tests.{bidders_of, states};
ghost use Rattle.table_check.specs.Faults.{FirstFault};
ghost use Rattle.table_check.specs.LineTests.{offered, KeepsNone, KeepsZero, KeepsBid, KeepsSome, ObeysIn};
ghost use Rattle.auction_model.specs.Package.{is_within};
ghost use Rattle.auction_model.specs.Place.{states_of};
ghost use Rattle.table_check.specs.Corners.{BothGrow, KeepsBlock};
ghost use Rattle.table_check.specs.Growth.{Grows};
ghost use Rattle.table_check.specs.Narrow.{IsSmall};

use crate::block::Block;
use crate::blocks::none_below;
use crate::coarse::{put_coarse, rule_holds, shift_of};
use crate::growth::{is_growing, is_growing_narrow};
use crate::offers::TestedBids;
use crate::rule::{LinePair, LineRule, NarrowRule};
use crate::walk::{block_fault, run_fault};
use limits::MOST_STATES;
use lots::{Package, Supply};

/// The greatest number for tests of the rules in 64 bits.
const MOST_NARROW: i128 = 1 << 60;

/// The bits of each number of a narrow line are below this.
const NARROW_EDGE: u128 = 1 << 60;

/// All bits of 64.
const LAST_BITS: u128 = (1 << 64) - 1;

/// Room for the longest line.
const MOST_ROOM: usize = MOST_STATES as usize;

/// What a line of a table shows.
#[derive(Clone, Copy)]
pub struct LineFault {
    /// The first place where it breaks a rule, or its length if there is none.
    pub place: usize,
    /// Whether it is seen that the line below it never falls where more is left.
    pub below_grows: bool,
}

/// Whether a number is so small that no sum of four leaves 64 bits.
fn is_narrow(number: i128) -> bool
    ensures { IsTrue result ↔ (unsigned_abs number ≤ 2 ^ 60) }
{
    -MOST_NARROW <= number && number <= MOST_NARROW
}

/// The first place where the last line is below 0, or its length if there is none.
fn last_fault(line: &[i128]) -> usize
    ensures { FirstFault (KeepsZero line.now) (length line.now) result }
{
    for s in 0..line.len() {
        if line[s] < 0 {
            return s;
        }
    }
    line.len()
}

/// Whether a line is seen in 64 bits to be nowhere below the line below it.
fn fast_monotone(lines: &LinePair) -> bool
    ensures { IsTrue result → (s : ℕ) → KeepsNone lines.now.line.now lines.now.below.now s }
{
    if !lines.is_narrow {
        return false;
    }
    none_below(lines.narrow_line, lines.narrow_below)
}

/// The first place where a line is below the line below it, or its length if there is none.
fn none_fault(lines: &LinePair) -> usize
    ensures { FirstFault (KeepsNone lines.now.line.now lines.now.below.now) (length lines.now.line.now) result }
{
    if fast_monotone(lines) {
        return lines.line.len();
    }
    let rule = LineRule {
        line: lines.line,
        below: lines.below,
        shift: 0,
        worth: 0,
    };
    run_fault(&rule, 0, lines.line.len(), lines.line.len())
}

/// Whether the line is seen to obey the rule of a bid in 64 bits. If `grow` is true, neither line falls where more is left.
fn fast_bid_rule(supply: &Supply, lots: &Package, lines: &LinePair, grow: bool, worth: i128) -> bool
    requires categories { length lots.now ≡ length supply.now }
    requires fits { IsTrue (is_within lots.now supply.now) }
    requires line { length lines.now.line.now ≡ states_of supply.now }
    requires grow { BothGrow supply.now grow lines.now.line.now lines.now.below.now }
    ensures { IsTrue result → KeepsBlock supply.now lots.now lines.now.line.now lines.now.below.now worth }
{
    if !lines.is_narrow {
        return false;
    }
    if !is_narrow(worth) {
        return false;
    }
    let rule = NarrowRule {
        worth: worth as i64,
        grow,
    };
    let block = Block::of(supply, lots);
    rule_holds(&rule, &block, lines)
}

/// The first place, below `until`, where the line of bidder `j` breaks the rule of its bid `i`, or `until` if there is none,
/// place by place.
fn exact_fault(offers: &TestedBids, j: u16, i: u16, lines: &LinePair, until: usize) -> usize
    requires bidder { (0 < j) × (j ≤ bidders_of offers.now.book.now) }
    requires bid { (0 < i) × (i ≤ length (bids_of offers.now.book.now j)) }
    requires line { length lines.now.line.now ≡ states offers.now.book.now }
    ensures { FirstFault (KeepsBid offers.now j lines.now.line.now lines.now.below.now i) until result }
{
    let supply = offers.book.supply();
    let bid = offers.book.bid(j, i);
    let worth = offers.worth(j, i);
    let block = Block::of(supply, &bid.package);
    let rule = LineRule {
        line: lines.line,
        below: lines.below,
        shift: block.first,
        worth,
    };
    block_fault(&rule, &block, 0, until)
}

/// Whether the line is seen to obey the rule of bid `i` of bidder `j` in 64 bits at each place. If `grow` is true, neither line
/// falls where more is left.
fn is_bid_kept(offers: &TestedBids, j: u16, i: u16, lines: &LinePair, grow: bool) -> bool
    requires bidder { (0 < j) × (j ≤ bidders_of offers.now.book.now) }
    requires bid { (0 < i) × (i ≤ length (bids_of offers.now.book.now j)) }
    requires line { length lines.now.line.now ≡ states offers.now.book.now }
    requires grow { BothGrow offers.now.book.now.supply grow lines.now.line.now lines.now.below.now }
    ensures { IsTrue result → (s : ℕ) → KeepsBid offers.now j lines.now.line.now lines.now.below.now i s }
{
    let supply = offers.book.supply();
    let bid = offers.book.bid(j, i);
    let worth = offers.worth(j, i);
    fast_bid_rule(supply, &bid.package, lines, grow, worth)
}

/// Whether the line below never falls where more is left.
fn below_grows(supply: &Supply, lines: &LinePair) -> bool
    requires line { length lines.now.line.now ≡ states_of supply.now }
    ensures { IsTrue result → Grows supply.now lines.now.below.now }
{
    supply.kept();
    if lines.is_narrow {
        is_growing_narrow(supply.counts(), supply.widths(), lines.narrow_below)
    } else {
        is_growing(supply.counts(), supply.widths(), lines.below)
    }
}

/// Whether neither line falls where more is left, as far as the numbers are in 64 bits, if it is known that the line below doesn't.
/// Where `known` says so the line itself was seen before not to fall.
fn both_grow(supply: &Supply, lines: &LinePair, grows: bool, known: bool) -> bool
    requires line { length lines.now.line.now ≡ states_of supply.now }
    requires grows { IsTrue grows → Grows supply.now lines.now.below.now }
    requires known { IsTrue known → Grows supply.now lines.now.line.now }
    ensures { BothGrow supply.now result lines.now.line.now lines.now.below.now }
{
    supply.kept();
    if !grows {
        return false;
    }
    if !lines.is_narrow {
        return false;
    }
    if known {
        return true;
    }
    is_growing_narrow(supply.counts(), supply.widths(), lines.narrow_line)
}

/// What the line of bidder `j` shows, which is known to grow if `known` says so.
fn pair_fault(offers: &TestedBids, j: u16, lines: &LinePair, known: bool) -> LineFault
    requires bidder { (0 < j) × (j ≤ bidders_of offers.now.book.now) }
    requires line { length lines.now.line.now ≡ states offers.now.book.now }
    requires known { IsTrue known → Grows offers.now.book.now.supply lines.now.line.now }
    ensures place { FirstFault (KeepsSome offers.now j lines.now.line.now lines.now.below.now ((offered offers.now).bids j))
        (length lines.now.line.now) result.place }
    ensures grows { IsTrue result.below_grows → Grows offers.now.book.now.supply lines.now.below.now }
{
    let supply = offers.book.supply();
    let grows = below_grows(supply, lines);
    let grow = both_grow(supply, lines, grows, known);
    let mut found = none_fault(lines);
    for i in 0..offers.bids(j) {
        if grows && offers.is_needless(j, i + 1) {
            continue;
        }
        if is_bid_kept(offers, j, i + 1, lines, grow) {
            continue;
        }
        found = exact_fault(offers, j, i + 1, lines, found);
    }
    LineFault {
        place: found,
        below_grows: grows,
    }
}

/// The last 64 bits of a number.
fn last_bits(bits: u128) -> i64
    ensures { bits < 2 ^ 60 → result ≡ pos bits }
{
    ((bits & LAST_BITS) as u64).cast_signed()
}

/// The numbers of a line in 64 bits each, and whether all are so small that no sum of four leaves these, and none is below 0.
/// It goes on if one isn't, and looks at the bits of all at the end, so that no number costs a test.
fn narrow_into(numbers: &mut [i64], line: &[i128]) -> bool
    requires places { length numbers.old ≡ length line.now }
    ensures same { IsTrue result → numbers.new ≡ line.now }
    ensures small { IsTrue result → IsSmall line.now }
{
    let mut seen = 0;
    for i in 0..line.len() {
        let bits = line[i].cast_unsigned();
        seen |= bits;
        numbers[i] = last_bits(bits);
    }
    seen < NARROW_EDGE
}

/// What `line_fault` gives, with room for `N` numbers of each line in 64 bits.
fn line_fault_sized<const N: usize>(
    offers: &TestedBids,
    j: u16,
    line: &[i128],
    below: &[i128],
    known: bool,
) -> LineFault
    requires room { states offers.now.book.now ≤ N }
    requires size { N ≤ 2 ^ 40 }
    requires bidder { (0 < j) × (j ≤ bidders_of offers.now.book.now) }
    requires line { length line.now ≡ states offers.now.book.now }
    requires below { length below.now ≡ states offers.now.book.now }
    requires sizes { (s : ℕ) → unsigned_abs (slice_index_or below.now s (pos 0)) < 2 ^ 122 }
    requires known { IsTrue known → Grows offers.now.book.now.supply line.now }
    ensures place { FirstFault (KeepsSome offers.now j line.now below.now ((offered offers.now).bids j))
        (length line.now) result.place }
    ensures grows { IsTrue result.below_grows → Grows offers.now.book.now.supply below.now }
{
    let mut numbers = [0i64; N];
    let mut rests = [0i64; N];
    let mut lows = [0u16; N];
    let mut highs = [0u16; N];
    let narrow_line = &mut numbers[..line.len()];
    let narrow_below = &mut rests[..line.len()];
    let low = &mut lows[..line.len()];
    let high = &mut highs[..line.len()];
    let is_narrow = narrow_into(narrow_line, line) && narrow_into(narrow_below, below);
    let shift = shift_of(narrow_line);
    let lines = LinePair {
        line,
        below,
        is_narrow,
        is_coarse: put_coarse(low, high, narrow_line, narrow_below, shift),
        shift,
        narrow_line,
        narrow_below,
        low,
        high,
    };
    pair_fault(offers, j, &lines, known)
}

/// What the line of bidder `j` shows, which is known to grow if `known` says so. A short line gets little room, since all of it
/// is set to 0 for each line.
fn line_fault(offers: &TestedBids, j: u16, line: &[i128], below: &[i128], known: bool) -> LineFault
    requires bidder { (0 < j) × (j ≤ bidders_of offers.now.book.now) }
    requires line { length line.now ≡ states offers.now.book.now }
    requires below { length below.now ≡ states offers.now.book.now }
    requires sizes { (s : ℕ) → unsigned_abs (slice_index_or below.now s (pos 0)) < 2 ^ 122 }
    requires known { IsTrue known → Grows offers.now.book.now.supply line.now }
    ensures place { FirstFault (KeepsSome offers.now j line.now below.now ((offered offers.now).bids j))
        (length line.now) result.place }
    ensures grows { IsTrue result.below_grows → Grows offers.now.book.now.supply below.now }
{
    offers.book.kept();
    if line.len() <= 256 {
        line_fault_sized::<256>(offers, j, line, below, known)
    } else if line.len() <= 1024 {
        line_fault_sized::<1024>(offers, j, line, below, known)
    } else if line.len() <= 2048 {
        line_fault_sized::<2048>(offers, j, line, below, known)
    } else if line.len() <= 4096 {
        line_fault_sized::<4096>(offers, j, line, below, known)
    } else {
        line_fault_sized::<MOST_ROOM>(offers, j, line, below, known)
    }
}

/// What line `k` of a table shows, where `below` is the next line. Of lines that are tested one after the other each is then tested
/// once for whether it falls anywhere: `known` is what the line before it showed of it.
pub fn two_lines_found(
    offers: &TestedBids,
    k: u16,
    line: &[i128],
    below: &[i128],
    known: bool,
) -> LineFault
    requires number { k < bidders_of offers.now.book.now }
    requires line { length line.now ≡ states offers.now.book.now }
    requires below { length below.now ≡ states offers.now.book.now }
    requires sizes { (s : ℕ) → unsigned_abs (slice_index_or below.now s (pos 0)) < 2 ^ 120 }
    requires known { IsTrue known → Grows offers.now.book.now.supply line.now }
    ensures place { (table : List (List ℤ)) → IsTable (bidders_of offers.now.book.now) (states offers.now.book.now) table
        → slice_index_or table k [] ≡ line.now → slice_index_or table (suc k) [] ≡ below.now
        → FirstFault (ObeysIn offers.now table k) (states offers.now.book.now) result.place }
    ensures grows { IsTrue result.below_grows → Grows offers.now.book.now.supply below.now }
{
    offers.book.kept();
    line_fault(offers, k + 1, line, below, known)
}

/// The first place where the last line of a table breaks a rule, or its length if there is none.
pub fn last_line_fault(offers: &TestedBids, line: &[i128]) -> usize
    ensures { (table : List (List ℤ)) → IsTable (bidders_of offers.now.book.now) (states offers.now.book.now) table
        → slice_index_or table (bidders_of offers.now.book.now) [] ≡ line.now
        → FirstFault (ObeysIn offers.now table (bidders_of offers.now.book.now)) (states offers.now.book.now) result }
{
    last_fault(line)
}
