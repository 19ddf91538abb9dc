// Counting one bid in a line, run by run. A bid of `count` lots of a category raises block `q` of this category from block `q -
// count` of the line below. A block is left out if its corners show that the bid changes nothing in it.
ghost use Rattle.std.specs.Prelude.{◌≡◌, ◌-◌, ◌<◌, ◌↔◌, IsTrue, length, slice_index_or, pos, ◌+ℤ◌, ◌≤ℤ◌, map};
ghost use Rattle.auction_model.specs.Place.{states_of};
ghost use Rattle.value_table.specs.Growing.{BothGrow};
ghost use Rattle.value_table.specs.Raising.{CanRaise, IsRaisedBy};

use crate::block::Block;
use crate::cell::Cell;
use crate::shape::Rows;

/// Counts one more bid for lots of only the first of some categories: in the places with enough of it, which are one run.
fn raise_one<C: Cell>(block: &Block, line: &mut [C], below: &[C], worth: C)
    requires lines { CanRaise C.number C.most (states_of block.now.supply.now) line.old below.now worth }
    requires one { length block.now.counts.now ≡ 1 }
    ensures { IsRaisedBy C.number block.now.supply.now block.now.counts.now below.now worth line.old line.new }
{
    let from = block.first;
    let all = line.len();
    C::raise_run(&mut line[from..], &below[..all - from], worth);
}

/// Counts one more bid that wants lots of two categories: of each row of the first the prefix is raised.
fn raise_two<C: Cell>(block: &Block, line: &mut [C], below: &[C], worth: C)
    requires lines { CanRaise C.number C.most (states_of block.now.supply.now) line.old below.now worth }
    requires two { length block.now.counts.now ≡ 2 }
    ensures { IsRaisedBy C.number block.now.supply.now block.now.counts.now below.now worth line.old line.new }
{
    let width = block.widths[0];
    let skip = block.counts[1] as usize * block.widths[1];
    let from = block.counts[0] as usize * width + skip;
    let all = line.len();
    let rows = Rows {
        count: (block.supply[0] - block.counts[0]) as usize + 1,
        width,
        run: width - skip,
    };
    C::raise_rows(&mut line[from..], &below[..all - from], &rows, worth);
}

/// Whether the lowest entry of a block that a bid may raise, at the place `first` of its lots, is at least the worth with the highest
/// entry of the block below that it may be raised from. Where neither line falls the bid then changes nothing in the block.
pub fn is_reached<C: Cell>(first: usize, line: &[C], below: &[C], worth: C) -> bool
    requires lines { CanRaise C.number C.most (length line.now) line.now below.now worth }
    requires first { first < length line.now }
    ensures { IsTrue result
        ↔ (C.number worth +ℤ slice_index_or (map C.number below.now) (length line.now - 1 - first) (pos 0))
        ≤ℤ slice_index_or (map C.number line.now) first (pos 0) }
{
    C::is_at_least(line[first], worth, below[line.len() - 1 - first])
}

/// Counts one more bid in a block.
pub fn raise_block<C: Cell>(block: &Block, line: &mut [C], below: &[C], worth: C)
    requires lines { CanRaise C.number C.most (states_of block.now.supply.now) line.old below.now worth }
    requires grow { BothGrow block.now.supply.now (map C.number line.old) (map C.number below.now) }
    ensures { IsRaisedBy C.number block.now.supply.now block.now.counts.now below.now worth line.old line.new }
{
    if is_reached(block.first, line, below, worth) {
        return;
    }
    if block.counts.len() == 1 {
        return raise_one(block, line, below, worth);
    }
    if block.counts.len() == 2 {
        return raise_two(block, line, below, worth);
    }
    let width = block.widths[0];
    let count = block.counts[0] as usize;
    let rest = block.rest();
    for row in count..block.supply[0] as usize + 1 {
        let to = row * width;
        let from = (row - count) * width;
        raise_block(
            &rest,
            &mut line[to..to + width],
            &below[from..from + width],
            worth,
        );
    }
}
