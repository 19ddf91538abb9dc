// The lines of a turn's table.
ghost use Rattle.std.specs.Prelude.{◌≡◌, ◌^◌, ◌≤◌, ◌<◌, suc, pos, length, IfOk, map, unsigned_abs};
ghost use Rattle.auction_model.specs.Greatest.{IsFirstGreatest};
ghost use Rattle.auction_model.specs.Market.{sum_after};
ghost use Rattle.auction_model.specs.Menu.{fits_after};
ghost use Rattle.auction_model.specs.Table.{IsEntry};
ghost use Rattle.choices.specs.LentLines.{numbers_of};
ghost use Rattle.limits.specs.declared.TheConstants.{MOST_STATES};
ghost use Rattle.value_table.specs.Counted.{counted_bids, counted, AreCountedLines, IsCountedLine, IsCountedTable, IsWholeTable};
ghost use Rattle.value_table.specs.TurnLines.{lines_in};

use crate::cell::{Cell, number_at};
use crate::lines::{grid_of, lines_down};
use crate::lowered_bids::LoweredBids;
use crate::short::short_lines_down;
use crate::tracing::{line_at, trace_slices};
use crate::widths::{narrow_into, widen_into};
use choices::{Grid, LineNumbers, Numbers};
use std::alloc::{AllocError, Global};

/// The lines of an exact table, of 32 bits or of 64 if no sum is larger.
#[derive(Drop)]
pub enum TurnLines {
    Short(Vec<Vec<u32>>),
    Narrow(Vec<Vec<i64>>),
    Wide(Vec<Vec<i128>>),
}

impl TurnLines {
    /// The lines of the exact table, from the last to the first.
    pub fn build(alloc: Global, lowered: &LoweredBids) -> Result<TurnLines, AllocError>
        ensures { IfOk result (λ t. IsCountedTable lowered.now (lines_in t)) }
    {
        lowered.book.kept();
        let zeros = vec![in alloc; 0u32; lowered.book.supply().states()]?;
        lines_from(
            alloc,
            lowered,
            lowered.book.bidders(),
            LineNumbers::Short(&zeros),
        )
    }

    /// The first of the greatest choices.
    pub fn trace(&self, alloc: Global, lowered: &LoweredBids) -> Result<Numbers, AllocError>
        requires { IsCountedTable lowered.now (lines_in self.now) }
        ensures { IfOk result
            (λ v. IsFirstGreatest (fits_after (counted_bids lowered.now) 0 lowered.now.book.now.supply)
            (sum_after (counted lowered.now) 0) v) }
    {
        match self {
            TurnLines::Short(lines) => trace_slices(alloc, lowered, lines),
            TurnLines::Narrow(lines) => trace_slices(alloc, lowered, lines),
            TurnLines::Wide(lines) => trace_slices(alloc, lowered, lines),
        }
    }

    /// The entry of line 0 at the place of the whole supply.
    pub fn most(&self, lowered: &LoweredBids) -> i128
        requires { IsCountedTable lowered.now (lines_in self.now) }
        ensures most { IsEntry (counted_bids lowered.now) (counted lowered.now) 0 lowered.now.book.now.supply result }
        ensures size { unsigned_abs result ≤ 2 ^ 120 }
    {
        match self {
            TurnLines::Short(lines) => first_entry(lowered, lines),
            TurnLines::Narrow(lines) => first_entry(lowered, lines),
            TurnLines::Wide(lines) => first_entry(lowered, lines),
        }
    }

    /// The lines as a grid.
    pub fn grid(&self, alloc: Global, lowered: &LoweredBids) -> Result<Grid, AllocError>
        requires { IsCountedTable lowered.now (lines_in self.now) }
        ensures { IfOk result (λ g. g ≡ lines_in self.now) }
    {
        match self {
            TurnLines::Short(lines) => grid_of(alloc, lowered, lines),
            TurnLines::Narrow(lines) => grid_of(alloc, lowered, lines),
            TurnLines::Wide(lines) => grid_of(alloc, lowered, lines),
        }
    }
    /// The first `count` lines, all but the last, as a grid.
    fn front(&self, alloc: Global, lowered: &LoweredBids, count: usize) -> Result<Grid, AllocError>
        requires { AreCountedLines lowered.now (suc count) 0 (lines_in self.now) }
        ensures { IfOk result (λ g. AreCountedLines lowered.now count 0 g) }
    {
        match self {
            TurnLines::Short(lines) => front_of(alloc, lowered, count, lines),
            TurnLines::Narrow(lines) => front_of(alloc, lowered, count, lines),
            TurnLines::Wide(lines) => front_of(alloc, lowered, count, lines),
        }
    }
}

/// The lines from line 0 to line `top`, whose numbers are given. The width of a table is chosen only here: 32 bits if line
/// `top` is kept in these and no line needs more, else 64 if no sum is larger, and else 128.
pub fn lines_from(
    alloc: Global,
    lowered: &LoweredBids,
    top: usize,
    first: LineNumbers,
) -> Result<TurnLines, AllocError>
    requires top { top ≤ length lowered.now.book.now.bidders }
    requires first { IsCountedLine lowered.now top (numbers_of first) }
    ensures { IfOk result (λ t. AreCountedLines lowered.now (suc top) 0 (lines_in t)) }
{
    lowered.book.kept();
    if let LineNumbers::Short(numbers) = first {
        let short = Vec::from_slice(alloc, numbers)?;
        if let Some(lines) = short_lines_down(alloc, lowered, top, short)? {
            return Ok(TurnLines::Short(lines));
        }
    }
    let wide = wide_line(alloc, &first)?;
    if lowered.is_narrow() {
        let mut narrow = vec![in alloc; 0i64; wide.len()]?;
        narrow_into(&mut narrow, &wide);
        let lines = lines_down(alloc, lowered, top, narrow)?;
        return Ok(TurnLines::Narrow(lines));
    }
    let lines = lines_down(alloc, lowered, top, wide)?;
    Ok(TurnLines::Wide(lines))
}

/// The numbers of a line in 128 bits.
fn wide_line(alloc: Global, line: &LineNumbers) -> Result<Vec<i128>, AllocError>
    requires { length (numbers_of line.now) ≤ MOST_STATES }
    ensures { IfOk result (λ v. v.items ≡ numbers_of line.now) }
{
    match line {
        LineNumbers::Short(numbers) => {
            let mut wide = vec![in alloc; 0i128; numbers.len()]?;
            widen_into(&mut wide, numbers);
            Ok(wide)
        }
        LineNumbers::Wide(numbers) => Vec::from_slice(alloc, numbers),
    }
}

/// The grid of the first `count` lines, all but the last.
fn front_of<C: Cell>(
    alloc: Global,
    lowered: &LoweredBids,
    count: usize,
    lines: &[Vec<C>],
) -> Result<Grid, AllocError>
    requires { AreCountedLines lowered.now (suc count) 0 (map (λ l. map C.number l.items) lines.now) }
    ensures { IfOk result (λ g. AreCountedLines lowered.now count 0 g) }
{
    let grid = grid_of(alloc, lowered, &lines[..count])?;
    Ok(grid)
}

/// The entry of the first line at the place of the whole supply.
fn first_entry<C: Cell>(lowered: &LoweredBids, lines: &[Vec<C>]) -> i128
    requires { IsCountedTable lowered.now (map (λ l. map C.number l.items) lines.now) }
    ensures most { IsEntry (counted_bids lowered.now) (counted lowered.now) 0 lowered.now.book.now.supply result }
    ensures size { unsigned_abs result ≤ 2 ^ 120 }
{
    number_at(line_at(lines, 0), lowered.book.supply().states() - 1)
}

/// The exact table.
pub fn all_lines(alloc: Global, lowered: &LoweredBids) -> Result<Grid, AllocError>
    ensures { IfOk result (λ g. IsCountedTable lowered.now g) }
{
    let lines = TurnLines::build(alloc, lowered)?;
    let grid = lines.grid(alloc, lowered)?;
    Ok(grid)
}

/// The exact table without bidder `skip`, from the table of all bids for the same worths. A missing bidder adds nothing, so
/// the lines from `skip` on are the lines of all bids, and the one before has the numbers of the first of them. They are
/// shared.
pub fn lines_without(alloc: Global, lowered: &LoweredBids, whole: &Grid) -> Result<Grid, AllocError>
    requires bidder { (0 < lowered.now.skip) × (lowered.now.skip ≤ length lowered.now.book.now.bidders) }
    requires idle { counted lowered.now lowered.now.skip 0 ≡ pos 0 }
    requires whole { IsWholeTable lowered.now whole.now }
    ensures { IfOk result (λ g. IsCountedTable lowered.now g) }
{
    let skip = lowered.skip as usize;
    let lines = lines_from(alloc, lowered, skip - 1, whole.line(skip))?;
    let mut grid = lines.front(alloc, lowered, skip - 1)?;
    grid.push_shared(whole, skip)?;
    for k in skip..whole.lines() {
        grid.push_shared(whole, k)?;
    }
    Ok(grid)
}
