// Lines that never fall: where more is left of each category, they have at least as much. On such a line the rule of a bid
// follows from the rule of a bid that is no larger and worth at least as much.
ghost use Rattle.std.specs.Prelude.{◌≡◌, ℕ, ◌+◌, ◌*◌, ◌≤◌, ◌<◌, length, slice_index_or, take, drop, IsTrue};
ghost use Rattle.auction_model.specs.Place.{states_of, widths_of};
ghost use Rattle.table_check.specs.Growth.{Grows, RisesBy};
ghost use Rattle.table_check.specs.Narrow.{IsSmall};
ghost use Rattle.limits.specs.declared.TheConstants.{MOST_STATES};

use crate::blocks::none_below;

/// Whether no number is below the one `width` places before it.
fn rises_by(line: &[i128], width: usize) -> bool
    ensures { IsTrue result → RisesBy width line.now }
{
    for s in width..line.len() {
        if line[s] < line[s - width] {
            return false;
        }
    }
    true
}

/// Whether a line never falls where more is left.
pub fn is_growing(supply: &[u16], widths: &[usize], line: &[i128]) -> bool
    requires widths { widths.now ≡ widths_of supply.now }
    requires some { 0 < length supply.now }
    requires states { states_of supply.now ≤ MOST_STATES }
    requires places { length line.now ≡ states_of supply.now }
    ensures { IsTrue result → Grows supply.now line.now }
{
    let width = widths[0];
    if !rises_by(line, width) {
        return false;
    }
    if supply.len() == 1 {
        return true;
    }
    for block in 0..supply[0] as usize + 1 {
        let from = block * width;
        if !is_growing(&supply[1..], &widths[1..], &line[from..from + width]) {
            return false;
        }
    }
    true
}

/// What `rises_by` says, in 64 bits.
fn rises_narrow(line: &[i64], width: usize) -> bool
    requires small { IsSmall line.now }
    ensures { IsTrue result → RisesBy width line.now }
{
    let all = line.len();
    if width >= all {
        return true;
    }
    none_below(&line[width..], &line[..all - width])
}

/// Whether no line of the second of two categories falls, without a call for each.
fn rows_grow(supply: &[u16], width: usize, line: &[i64]) -> bool
    requires two { length supply.now ≡ 2 }
    requires width { width ≡ states_of (drop 1 supply.now) }
    requires states { states_of supply.now ≤ MOST_STATES }
    requires places { length line.now ≡ states_of supply.now }
    requires small { IsSmall line.now }
    ensures { IsTrue result → (q : ℕ) → q < slice_index_or supply.now 0 0 + 1
        → Grows (drop 1 supply.now) (take width (drop (q * width) line.now)) }
{
    for row in 0..supply[0] as usize + 1 {
        let from = row * width;
        if !rises_narrow(&line[from..from + width], 1) {
            return false;
        }
    }
    true
}

/// What `is_growing` says, in 64 bits.
pub fn is_growing_narrow(supply: &[u16], widths: &[usize], line: &[i64]) -> bool
    requires widths { widths.now ≡ widths_of supply.now }
    requires some { 0 < length supply.now }
    requires states { states_of supply.now ≤ MOST_STATES }
    requires places { length line.now ≡ states_of supply.now }
    requires small { IsSmall line.now }
    ensures { IsTrue result → Grows supply.now line.now }
{
    let width = widths[0];
    if !rises_narrow(line, width) {
        return false;
    }
    if supply.len() == 1 {
        return true;
    }
    if supply.len() == 2 {
        return rows_grow(supply, width, line);
    }
    for block in 0..supply[0] as usize + 1 {
        let from = block * width;
        if !is_growing_narrow(&supply[1..], &widths[1..], &line[from..from + width]) {
            return false;
        }
    }
    true
}
