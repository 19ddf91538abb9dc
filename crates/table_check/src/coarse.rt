// Whether a line is seen to keep the rule of a bid in 16 bits: both lines are counted in one unit, the line rounded down, and
// the line below and the worth rounded up. A block of the last few categories is tested in one run, with a mask of the places
// where the package fits. Acceptance is sound for the exact numbers. If units are too coarse to decide, 64 bits are used.
ghost use Rattle.std.specs.Prelude.{◌≡◌, ◌*◌, ◌^◌, ◌<◌, IsTrue, true, length, pos, ◌≤ℤ◌};
ghost use Rattle.auction_model.specs.Place.{states_of};
ghost use Rattle.table_check.specs.Corners.{KeepsBlock, BothGrow};
ghost use Rattle.choices.specs.Coarse.{AreCoarse, HasMask};

use crate::block::Block;
use crate::blocks::{block_holds, is_reached};
use crate::narrow::CoarseLines;
use crate::rule::{LinePair, NarrowRule};
use choices::coarse::{
    CoarseBid, MASK_ROOM, is_covered, put_deep_mask, put_high, put_low, shift_for, worth_units,
};

/// Whether a block is seen to keep the rule of a bid: blocks with a mask are tested in 16 bits, the others in 64.
pub fn coarse_holds(
    rule: &NarrowRule,
    coarse: &CoarseBid,
    block: &Block,
    lines: &CoarseLines,
) -> bool
    requires places { length lines.now.narrow.line.now ≡ states_of block.now.supply.now }
    requires grow { BothGrow block.now.supply.now rule.now.grow lines.now.narrow.line.now lines.now.narrow.below.now }
    requires worth { rule.now.worth ≤ℤ pos (coarse.now.worth * 2 ^ lines.now.shift) }
    requires mask { HasMask coarse.now.level block.now.supply.now block.now.lots.now coarse.now.mask.now }
    ensures { IsTrue result
        → KeepsBlock block.now.supply.now block.now.lots.now lines.now.narrow.line.now lines.now.narrow.below.now rule.now.worth }
{
    if is_reached(rule, block, &lines.narrow) {
        return true;
    }
    if block.lots.len() == coarse.level {
        if is_covered(coarse, block.place(), lines.low, lines.high) {
            return true;
        }
        return block_holds(rule, block, &lines.narrow);
    }
    if block.lots.len() == 1 {
        return block_holds(rule, block, &lines.narrow);
    }
    let width = block.width();
    let count = block.count();
    let rest = block.rest();
    for digit in count..block.parts() {
        let here = block.start(digit);
        let back = block.start(digit - count);
        let part = lines.part(here, back, width);
        if !coarse_holds(rule, coarse, &rest, &part) {
            return false;
        }
    }
    true
}

/// Both lines in units of `2^shift`, the first rounded down and the second up, and whether all numbers of the second are so small.
pub fn put_coarse(
    low: &mut [u16],
    high: &mut [u16],
    line: &[i64],
    below: &[i64],
    shift: u32,
) -> bool
    requires places { length low.old ≡ length line.now }
    requires places_below { length high.old ≡ length below.now }
    requires shift { shift < 64 }
    ensures { IsTrue result → AreCoarse (2 ^ shift) line.now below.now low.new high.new }
{
    put_low(low, line, shift);
    put_high(high, below, shift)
}

/// A shift that leaves the last number of a line at most 15 bits.
pub fn shift_of(line: &[i64]) -> u32
    ensures { result < 64 }
{
    if line.is_empty() {
        return 0;
    }
    shift_for(line[line.len() - 1].unsigned_abs())
}

/// Whether a block is seen to keep the rule of a bid, with a mask of its package: in 16 bits if the worth is in these too.
fn masked_holds(rule: &NarrowRule, block: &Block, lines: &CoarseLines) -> bool
    requires places { length lines.now.narrow.line.now ≡ states_of block.now.supply.now }
    requires grow { BothGrow block.now.supply.now rule.now.grow lines.now.narrow.line.now lines.now.narrow.below.now }
    ensures { IsTrue result
        → KeepsBlock block.now.supply.now block.now.lots.now lines.now.narrow.line.now lines.now.narrow.below.now rule.now.worth }
{
    let worth = worth_units(rule.worth, lines.shift);
    if worth == 0 {
        return block_holds(rule, block, &lines.narrow);
    }
    if is_reached(rule, block, &lines.narrow) {
        return true;
    }
    let mut mask = [0u16; MASK_ROOM];
    let level = put_deep_mask(block.supply, block.widths, block.lots, &mut mask);
    let coarse = CoarseBid {
        worth,
        shift: lines.shift,
        level,
        mask: &mask,
    };
    coarse_holds(rule, &coarse, block, lines)
}

/// Whether a block of all places of the lines is seen to keep the rule of a bid: in 16 bits if the lines are in these too.
pub fn rule_holds(rule: &NarrowRule, block: &Block, lines: &LinePair) -> bool
    requires narrow { lines.now.is_narrow ≡ true }
    requires places { length lines.now.line.now ≡ states_of block.now.supply.now }
    requires grow { BothGrow block.now.supply.now rule.now.grow lines.now.line.now lines.now.below.now }
    ensures { IsTrue result
        → KeepsBlock block.now.supply.now block.now.lots.now lines.now.line.now lines.now.below.now rule.now.worth }
{
    if lines.is_coarse {
        return masked_holds(rule, block, &lines.in_16_bits());
    }
    block_holds(rule, block, &lines.in_64_bits())
}
