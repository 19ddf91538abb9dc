// Going through the places of a line where a package fits. In one category, block `q` of a line has the places with `q` lots of
// that category left. If the package fits, the place of the rest is lower by the place of the package. So after the package's
// last category with lots, the places are one run.
ghost use Rattle.std.specs.Prelude.{◌≡◌, ◌↔◌, ℕ, ◌+◌, ◌^◌, ◌≤◌, ◌<◌, length, ◌+ℤ◌, ◌≤ℤ◌, unsigned_abs, IsTrue};
ghost use Rattle.auction_model.specs.Place.{states_of};
ghost use Rattle.table_check.specs.Faults.{FirstFault, CoversRun, CoversBlock};

use crate::block::Block;
use crate::rule::LineRule;

/// Whether an entry is at least the worth and the entry below.
fn covers(here: i128, below: i128, worth: i128) -> bool
    requires worth { unsigned_abs worth < 2 ^ 122 }
    requires below { unsigned_abs below < 2 ^ 122 }
    ensures { IsTrue result ↔ ((worth +ℤ below) ≤ℤ here) }
{
    worth + below <= here
}

/// The first place from `start` on, below `stop` and `until`, where the line breaks the rule, or `until` if there is none.
pub fn run_fault(rule: &LineRule, start: usize, stop: usize, until: usize) -> usize
    requires stop { stop ≤ length rule.now.line.now }
    requires shift { rule.now.shift ≤ start }
    ensures { FirstFault (CoversRun rule.now start stop) until result }
{
    for s in start..stop.min(until) {
        if !covers(rule.line[s], rule.below[s - rule.shift], rule.worth) {
            return s;
        }
    }
    until
}

/// What `block_fault` gives of a package of one category: in a block its places are one run.
fn one_fault(rule: &LineRule, block: &Block, base: usize, until: usize) -> usize
    requires most { length rule.now.line.now < 2 ^ 40 }
    requires one { length block.now.lots.now ≡ 1 }
    requires room { base + states_of block.now.supply.now ≤ length rule.now.line.now }
    requires shift { rule.now.shift ≤ base + block.now.first }
    ensures { FirstFault (CoversBlock rule.now base block.now.supply.now block.now.lots.now) until result }
{
    let start = base + block.place();
    let stop = base + block.size();
    run_fault(rule, start, stop, until)
}

/// What it gives of a package of two categories, without a call for each run.
fn two_fault(rule: &LineRule, block: &Block, base: usize, until: usize) -> usize
    requires most { length rule.now.line.now < 2 ^ 40 }
    requires two { length block.now.lots.now ≡ 2 }
    requires room { base + states_of block.now.supply.now ≤ length rule.now.line.now }
    requires shift { rule.now.shift ≤ base + block.now.first }
    ensures { FirstFault (CoversBlock rule.now base block.now.supply.now block.now.lots.now) until result }
{
    let row = block.rest();
    let mut found = until;
    for digit in block.count()..block.parts() {
        let here = block.start(digit);
        found = one_fault(rule, &row, base + here, found);
    }
    found
}

/// The first place of a block that begins at `base`, below `until`, where the package fits and the line breaks the rule, or
/// `until` if there is none.
pub fn block_fault(rule: &LineRule, block: &Block, base: usize, until: usize) -> usize
    requires most { length rule.now.line.now < 2 ^ 40 }
    requires room { base + states_of block.now.supply.now ≤ length rule.now.line.now }
    requires shift { rule.now.shift ≤ base + block.now.first }
    ensures { FirstFault (CoversBlock rule.now base block.now.supply.now block.now.lots.now) until result }
{
    if block.lots.len() == 1 {
        return one_fault(rule, block, base, until);
    }
    if block.lots.len() == 2 {
        return two_fault(rule, block, base, until);
    }
    let rest = block.rest();
    let mut found = until;
    for digit in block.count()..block.parts() {
        let here = block.start(digit);
        found = block_fault(rule, &rest, base + here, found);
    }
    found
}
