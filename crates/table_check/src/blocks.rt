// Whether a line is seen to keep the rule of a bid, in 64 bits and block by block. In one category, block `q` of a line has the
// places with `q` lots of that category left, and what a bid of `count` lots asks there it reads in block `q - count` of the
// line below. A block is left out if its corners show that it obeys the rule everywhere.
ghost use Rattle.std.specs.Prelude.{◌≡◌, ◌↔◌, ℕ, ◌-◌, ◌≤◌, ◌<◌, ◌^◌, IsTrue, length, ◌+ℤ◌, ◌≤ℤ◌, unsigned_abs};
ghost use Rattle.auction_model.specs.Place.{states_of};
ghost use Rattle.wide_num.specs.Sums.{nth};
ghost use Rattle.table_check.specs.Narrow.{IsSmall};
ghost use Rattle.table_check.specs.Corners.{KeepsBlock, BothGrow};

use crate::block::Block;
use crate::narrow::NarrowLines;
use crate::rule::NarrowRule;

/// From this number on a mark has its highest bit.
const MARK: u64 = 1 << 62;

/// The highest bit of 64.
const HIGHEST: u64 = 1 << 63;

/// A number with the bit of `MARK` if an entry is at least the worth and the entry below.
fn mark(here: i64, below: i64, worth: i64) -> u64
    requires here { unsigned_abs here ≤ 2 ^ 60 }
    requires below { unsigned_abs below ≤ 2 ^ 60 }
    requires worth { unsigned_abs worth ≤ 2 ^ 60 }
    ensures { (2 ^ 62 ≤ result) ↔ ((worth +ℤ below) ≤ℤ here) }
{
    (MARK as i64 - worth + (here - below)) as u64
}

/// Whether each number is at least the worth plus the number of the line below. It goes on if one isn't, so that it takes
/// several numbers at a time.
pub fn covers_all(line: &[i64], below: &[i64], worth: i64) -> bool
    requires places { length below.now ≡ length line.now }
    requires worth { unsigned_abs worth ≤ 2 ^ 60 }
    requires small { IsSmall line.now }
    requires small_below { IsSmall below.now }
    ensures { IsTrue result → (s : ℕ) → s < length line.now → (worth +ℤ nth below.now s) ≤ℤ nth line.now s }
{
    let mut marks = MARK;
    for i in 0..line.len() {
        marks &= mark(line[i], below[i], worth);
    }
    marks >= MARK
}

/// The bits of what a number is above another one, with the highest of them if it is below it.
fn gap(here: i64, below: i64) -> u64
    requires here { unsigned_abs here ≤ 2 ^ 60 }
    requires below { unsigned_abs below ≤ 2 ^ 60 }
    ensures { result < 2 ^ 63 → below ≤ℤ here }
{
    (here - below).cast_unsigned()
}

/// Whether each number is at least the number of the line below: `covers_all` for a worth of 0, with a step less for each
/// number.
pub fn none_below(line: &[i64], below: &[i64]) -> bool
    requires places { length below.now ≡ length line.now }
    requires small { IsSmall line.now }
    requires small_below { IsSmall below.now }
    ensures { IsTrue result → (s : ℕ) → s < length line.now → nth below.now s ≤ℤ nth line.now s }
{
    let mut gaps = 0;
    for i in 0..line.len() {
        gaps |= gap(line[i], below[i]);
    }
    gaps < HIGHEST
}

/// Whether a block of a package of one category is seen to keep the rule: its places are one run.
fn one_holds(rule: &NarrowRule, block: &Block, line: &[i64], below: &[i64]) -> bool
    requires one { length block.now.lots.now ≡ 1 }
    requires places { length line.now ≡ states_of block.now.supply.now }
    requires below { length below.now ≡ states_of block.now.supply.now }
    requires small { IsSmall line.now }
    requires small_below { IsSmall below.now }
    ensures { IsTrue result → KeepsBlock block.now.supply.now block.now.lots.now line.now below.now rule.now.worth }
{
    let from = block.place();
    covers_all(&line[from..], &below[..line.len() - from], rule.worth)
}

/// Whether a block of a package of two categories is seen to keep the rule, without a struct for each run.
fn two_hold(rule: &NarrowRule, block: &Block, lines: &NarrowLines) -> bool
    requires two { length block.now.lots.now ≡ 2 }
    requires places { length lines.now.line.now ≡ states_of block.now.supply.now }
    ensures { IsTrue result
        → KeepsBlock block.now.supply.now block.now.lots.now lines.now.line.now lines.now.below.now rule.now.worth }
{
    let width = block.width();
    let count = block.count();
    let row = block.rest();
    for digit in count..block.parts() {
        let here = block.start(digit);
        let back = block.start(digit - count);
        if !one_holds(
            rule,
            &row,
            &lines.line[here..here + width],
            &lines.below[back..back + width],
        ) {
            return false;
        }
    }
    true
}

/// Whether neither line falls, and an entry is at least the worth and that entry of the line below that is as far from its end.
fn corner_covers(rule: &NarrowRule, lines: &NarrowLines, first: usize) -> bool
    requires first { first < length lines.now.line.now }
    ensures { IsTrue result → IsTrue rule.now.grow
        × ((rule.now.worth +ℤ nth lines.now.below.now (length lines.now.line.now - 1 - first)) ≤ℤ nth lines.now.line.now first) }
{
    if !rule.grow {
        return false;
    }
    rule.worth + lines.below[lines.line.len() - 1 - first] <= lines.line[first]
}

/// Whether the lowest entry of a block where a package fits, at the place of its lots, is at least the worth plus the highest
/// entry of the line below that is read there. If no line falls, the whole block then obeys the rule.
pub fn is_reached(rule: &NarrowRule, block: &Block, lines: &NarrowLines) -> bool
    requires places { length lines.now.line.now ≡ states_of block.now.supply.now }
    requires grow { BothGrow block.now.supply.now rule.now.grow lines.now.line.now lines.now.below.now }
    ensures { IsTrue result
        → KeepsBlock block.now.supply.now block.now.lots.now lines.now.line.now lines.now.below.now rule.now.worth }
{
    corner_covers(rule, lines, block.place())
}

/// Whether a block is seen to keep the rule of a bid.
pub fn block_holds(rule: &NarrowRule, block: &Block, lines: &NarrowLines) -> bool
    requires places { length lines.now.line.now ≡ states_of block.now.supply.now }
    requires grow { BothGrow block.now.supply.now rule.now.grow lines.now.line.now lines.now.below.now }
    ensures { IsTrue result
        → KeepsBlock block.now.supply.now block.now.lots.now lines.now.line.now lines.now.below.now rule.now.worth }
{
    if is_reached(rule, block, lines) {
        return true;
    }
    if block.lots.len() == 1 {
        return one_holds(rule, block, lines.line, lines.below);
    }
    if block.lots.len() == 2 {
        return two_hold(rule, block, lines);
    }
    let width = block.width();
    let count = block.count();
    let rest = block.rest();
    for digit in count..block.parts() {
        let here = block.start(digit);
        let back = block.start(digit - count);
        let part = lines.part(here, back, width);
        if !block_holds(rule, &rest, &part) {
            return false;
        }
    }
    true
}
