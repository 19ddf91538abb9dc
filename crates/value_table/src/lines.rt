// The lines of a table, from the last to the first. Line `k` has at each place the greatest sum that the bidders after `k`
// count with what the place leaves.
ghost use Rattle.std.specs.Prelude.{◌≡◌, ℕ, suc, ◌-◌, ◌^◌, ◌≤◌, ◌<◌, [], ◌∷◌, ◌++◌, length, IfOk, OnOk, slice_index_or, pos, ◌+ℤ◌, unsigned_abs, map};
ghost use Rattle.auction_model.specs.Table.{IsEntry};
ghost use Rattle.choices.specs.Lines.{width_of};
ghost use Rattle.limits.specs.declared.TheConstants.{MOST_STATES};
ghost use Rattle.value_table.specs.Counted.{counted_bids, counted, IsWithin, IsLineWithin, IsCountedLine, AreCountedLines, IsCountedTable, IsWholeTable};

use crate::buffers::WidthBuffers;
use crate::cell::Cell;
use crate::lowered_bids::LoweredBids;
use crate::tested::{CellBid, add_bid};
use crate::tracing::line_at;
use crate::units::{put_units, shift_after};
use crate::widths::{narrow_into, widen_into};
use choices::Grid;
use std::alloc::{AllocError, Global};
use wide_num::NumList;

/// Adds what bidder `j` counts if it isn't used to each number of line `j`.
fn add_idle<C: Cell>(lowered: &LoweredBids, j: u16, line: &mut [C])
    requires range { IsLineWithin lowered.now C.most j (map C.number line.old) }
    requires bidder { (0 < j) × (j ≤ length lowered.now.book.now.bidders) }
    requires line { IsCountedLine lowered.now j (map C.number line.old) }
    ensures { (s : ℕ) → s < length line.old
        → slice_index_or (map C.number line.new) s (pos 0)
        ≡ slice_index_or (map C.number line.old) s (pos 0) +ℤ counted lowered.now j 0 }
{
    let idle = lowered.idle(j);
    if idle == 0 {
        return;
    }
    C::add_to_each(line, C::narrowed(idle));
}

/// Counts all bids of bidder `j` in a line that counts none, with two lists for the lines in 16 bits. The last come first: they
/// are mostly the largest, after which the others change little.
fn count_bids<C: Cell>(
    lowered: &LoweredBids,
    j: u16,
    line: &mut [C],
    below: &[C],
    low: &mut [u16],
    high: &mut [u16],
)
    requires range { IsLineWithin lowered.now C.most j (map C.number below.now) }
    requires bidder { (0 < j) × (j ≤ length lowered.now.book.now.bidders) }
    requires below { IsCountedLine lowered.now j (map C.number below.now) }
    requires places { length line.old ≡ length below.now }
    requires line { (s : ℕ) → s < length below.now
        → slice_index_or (map C.number line.old) s (pos 0)
        ≡ slice_index_or (map C.number below.now) s (pos 0) +ℤ counted lowered.now j 0 }
    ensures { IsCountedLine lowered.now (j - 1) (map C.number line.new) }
{
    let mut shift = put_units(lowered, j, line, below, low, high);
    let mut bids: u32 = 0;
    let mut covered: u32 = 0;
    for i in (0..lowered.bids(j)).rev() {
        if lowered.is_needless(j, i + 1) {
            continue;
        }
        let worth = C::narrowed(lowered.worth(j, i + 1));
        let own = lowered.bid(j, i + 1);
        let lots = &own.package;
        let bid = CellBid { lots, worth };
        let more = add_bid(lowered.book.supply(), &bid, line, below, shift, low, high);
        bids = bids.saturating_add(1);
        covered = covered.saturating_add(more);
        shift = shift_after(shift, bids, covered);
    }
}

/// Makes of a copy of line `j` line `j - 1`.
pub fn turn_line<C: Cell>(
    lowered: &LoweredBids,
    j: u16,
    below: &[C],
    line: &mut [C],
    low: &mut [u16],
    high: &mut [u16],
)
    requires range { IsLineWithin lowered.now C.most j (map C.number below.now) }
    requires bidder { (0 < j) × (j ≤ length lowered.now.book.now.bidders) }
    requires below { IsCountedLine lowered.now j (map C.number below.now) }
    requires copied { line.old ≡ below.now }
    ensures { IsCountedLine lowered.now (j - 1) (map C.number line.new) }
{
    add_idle(lowered, j, line);
    count_bids(lowered, j, line, below, low, high);
}

/// Makes `line` line `j - 1`, from line `j`, computed in buffers of one width, with two lists for the lines in 16 bits. It
/// takes no memory.
pub fn put_line<C: Cell>(
    lowered: &LoweredBids,
    j: u16,
    below: &[i128],
    line: &mut [i128],
    buffers: &mut WidthBuffers<C>,
    low: &mut [u16],
    high: &mut [u16],
)
    requires bidder { (0 < j) × (j ≤ length lowered.now.book.now.bidders) }
    requires range { IsLineWithin lowered.now C.most j below.now }
    requires below { IsCountedLine lowered.now j below.now }
    requires places { length line.old ≡ length below.now }
    requires own_below { length buffers.old.below.items ≡ length below.now }
    requires own_line { length buffers.old.line.items ≡ length below.now }
    ensures line { IsCountedLine lowered.now (j - 1) line.new }
    ensures own_below { length buffers.new.below.items ≡ length below.now }
    ensures own_line { length buffers.new.line.items ≡ length below.now }
{
    let own_below = buffers.below.as_mut_slice();
    let own_line = buffers.line.as_mut_slice();
    narrow_into(own_below, below);
    own_line.copy_from_slice(own_below);
    turn_line(lowered, j, own_below, own_line, low, high);
    widen_into(line, own_line);
}

/// Line `j - 1`, from line `j`.
pub fn next_line<C: Cell>(
    alloc: Global,
    lowered: &LoweredBids,
    j: u16,
    below: &[C],
    low: &mut [u16],
    high: &mut [u16],
) -> Result<Vec<C>, AllocError>
    requires range { IsLineWithin lowered.now C.most j (map C.number below.now) }
    requires bidder { (0 < j) × (j ≤ length lowered.now.book.now.bidders) }
    requires below { IsCountedLine lowered.now j (map C.number below.now) }
    ensures { IfOk result (λ v. IsCountedLine lowered.now (j - 1) (map C.number v.items)) }
{
    let mut line = Vec::from_slice(alloc, below)?;
    turn_line(lowered, j, below, &mut line, low, high);
    Ok(line)
}

/// The lines from line 0 to line `top`, which is given.
pub fn lines_down<C: Cell>(
    alloc: Global,
    lowered: &LoweredBids,
    top: usize,
    first: Vec<C>,
) -> Result<Vec<Vec<C>>, AllocError>
    requires range { IsWithin lowered.now C.most }
    requires top { top ≤ length lowered.now.book.now.bidders }
    requires first { IsCountedLine lowered.now top (map C.number first.items) }
    ensures { IfOk result
        (λ v. AreCountedLines lowered.now (suc top) 0 (map (λ l. map C.number l.items) v.items)) }
{
    lowered.book.kept();
    let mut low = vec![in alloc; 0u16; first.len()]?;
    let mut high = vec![in alloc; 0u16; first.len()]?;
    let mut lines = Vec::new(alloc);
    lines.push(first)?;
    for k in (0..top).rev() {
        let j = k as u16 + 1;
        let line = next_line(alloc, lowered, j, &lines[0], &mut low, &mut high)?;
        lines.insert(0, line)?;
    }
    Ok(lines)
}

/// Adds a line at the end of a grid, which keeps it in 32 bits if it has these, and else in 128. It is as long as the others.
fn push_line<C: Cell>(alloc: Global, grid: &mut Grid, line: &[C]) -> Result<(), AllocError>
    requires few { length line.now ≤ MOST_STATES }
    requires width { 0 < length grid.old → length line.now ≡ width_of grid.old }
    ensures { OnOk result (grid.new ≡ grid.old ++ map C.number line.now ∷ []) }
{
    if let Some(short) = C::as_short(line) {
        let numbers = Vec::from_slice(alloc, short)?;
        grid.push_short(numbers)?;
        return Ok(());
    }
    let mut numbers = vec![in alloc; 0i128; line.len()]?;
    widen_into(&mut numbers, line);
    grid.push_line(NumList::from_vec(numbers))?;
    Ok(())
}

/// The grid of the lines.
pub fn grid_of<C: Cell>(
    alloc: Global,
    lowered: &LoweredBids,
    lines: &[Vec<C>],
) -> Result<Grid, AllocError>
    requires { AreCountedLines lowered.now (length lines.now) 0 (map (λ l. map C.number l.items) lines.now) }
    ensures { IfOk result (λ g. g ≡ map (λ l. map C.number l.items) lines.now) }
{
    lowered.book.kept();
    let mut grid = Grid::new(alloc);
    for i in 0..lines.len() {
        push_line(alloc, &mut grid, line_at(lines, i))?;
    }
    Ok(grid)
}

/// The entry of line 0 at the place of the whole supply.
pub fn last_entry(lowered: &LoweredBids, lines: &Grid) -> i128
    requires { IsCountedTable lowered.now lines.now }
    ensures most { IsEntry (counted_bids lowered.now) (counted lowered.now) 0 lowered.now.book.now.supply result }
    ensures size { unsigned_abs result ≤ 2 ^ 120 }
{
    lines.entry(0, lowered.book.supply().states() - 1)
}
