// Lines in numbers of 32 bits, while sums are so small: vectors contain twice as many as in 64, and a whole table takes a
// quarter less.
ghost use Rattle.std.specs.Prelude.{◌≡◌, ℕ, suc, ◌-◌, ◌^◌, ◌≤◌, ◌<◌, length, IfOk, IfSome, IsTrue, slice_index_or, map, pos, unsigned_abs};
ghost use Rattle.value_table.specs.Counted.{counted_bids, counted, IsLineWithin, IsCountedLine, AreCountedLines};

use crate::cell::{Cell, number_at};
use crate::lines::next_line;
use crate::lowered_bids::LoweredBids;
use std::alloc::{AllocError, Global};

/// The greatest number whose double has 32 bits.
const SHORT: u128 = (1 << 31) - 1;

/// Whether bidder `j` counts at most that much with each of its numbers.
fn has_short_worths(lowered: &LoweredBids, j: u16) -> bool
    requires { (0 < j) × (j ≤ length lowered.now.book.now.bidders) }
    ensures { IsTrue result → (i : ℕ) → i ≤ (counted_bids lowered.now).bids j
        → unsigned_abs (counted lowered.now j i) ≤ 2 ^ 31 - 1 }
{
    if lowered.idle(j).unsigned_abs() > SHORT {
        return false;
    }
    for i in 0..lowered.bids(j) {
        if lowered.worth(j, i + 1).unsigned_abs() > SHORT {
            return false;
        }
    }
    true
}

/// Whether line `j` and what bidder `j` counts are so small that line `j - 1` has numbers of 32 bits.
pub fn is_short<C: Cell>(lowered: &LoweredBids, j: u16, below: &[C]) -> bool
    requires bidder { (0 < j) × (j ≤ length lowered.now.book.now.bidders) }
    requires below { IsCountedLine lowered.now j (map C.number below.now) }
    ensures { IsTrue result → IsLineWithin lowered.now (2 ^ 31 - 1) j (map C.number below.now) }
{
    number_at(below, below.len() - 1) <= SHORT as i128 && has_short_worths(lowered, j)
}

/// The lines from line 0 to line `top`, which is given, or None if one of them needs more bits.
pub fn short_lines_down(
    alloc: Global,
    lowered: &LoweredBids,
    top: usize,
    first: Vec<u32>,
) -> Result<Option<Vec<Vec<u32>>>, AllocError>
    requires top { top ≤ length lowered.now.book.now.bidders }
    requires first { IsCountedLine lowered.now top (map (λ n. pos n) first.items) }
    ensures { IfOk result (λ found. IfSome found
        (λ v. AreCountedLines lowered.now (suc top) 0 (map (λ l. map (λ n. pos n) l.items) v.items))) }
{
    lowered.book.kept();
    let mut low = vec![in alloc; 0u16; first.len()]?;
    let mut high = vec![in alloc; 0u16; first.len()]?;
    let mut lines = Vec::new(alloc);
    lines.push(first)?;
    for k in (0..top).rev() {
        let j = k as u16 + 1;
        if !is_short(lowered, j, &lines[0]) {
            return Ok(None);
        }
        let line = next_line(alloc, lowered, j, &lines[0], &mut low, &mut high)?;
        lines.insert(0, line)?;
    }
    Ok(Some(lines))
}
