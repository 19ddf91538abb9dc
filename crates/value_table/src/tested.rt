// Counting one bid in a line. If the line and the line below it are in 16 bits too, a block of the last few categories of the
// bid is tested in these first, with a mask of the places where it fits. Each function returns how many blocks these tests left
// out.
ghost use Rattle.std.specs.Prelude.{◌≡◌, ◌*◌, ◌^◌, ◌<◌, IsTrue, length, pos, ◌≤ℤ◌, map};
ghost use Rattle.choices.specs.Coarse.{HasMask};
ghost use Rattle.auction_model.specs.Package.{is_within};
ghost use Rattle.auction_model.specs.Place.{states_of};
ghost use Rattle.value_table.specs.Growing.{BothGrow, Grows};
ghost use Rattle.value_table.specs.Raising.{AreInUnits, CanRaise, IsRaisedBy, MayBeInUnits};

use crate::block::Block;
use crate::cell::Cell;
use crate::runs::{is_reached, raise_block};
use choices::coarse::{CoarseBid, MASK_ROOM, is_covered, put_deep_mask};
use lots::{Package, Supply};

/// Counts one more bid in a block, if no mask for just these categories shows that it changes nothing there.
fn raise_unless_covered<C: Cell>(
    coarse: &CoarseBid,
    block: &Block,
    line: &mut [C],
    below: &[C],
    low: &mut [u16],
    high: &[u16],
    worth: C,
) -> u32
    requires lines { CanRaise C.number C.most (states_of block.now.supply.now) line.old below.now worth }
    requires grow { BothGrow block.now.supply.now (map C.number line.old) (map C.number below.now) }
    requires units { AreInUnits C.number coarse.now.shift line.old below.now low.old high.now }
    requires worth { C.number worth ≤ℤ pos (coarse.now.worth * 2 ^ coarse.now.shift) }
    requires mask { HasMask coarse.now.level block.now.supply.now block.now.counts.now coarse.now.mask.now }
    ensures line { IsRaisedBy C.number block.now.supply.now block.now.counts.now below.now worth line.old line.new }
    ensures units { AreInUnits C.number coarse.now.shift line.new below.now low.new high.now }
{
    if block.counts.len() == coarse.level && is_covered(coarse, block.first, low, high) {
        return 1;
    }
    raise_block(block, line, below, worth);
    C::put_low(low, line, coarse.shift);
    0
}

/// Counts one more bid in a block. Its parts with a mask are tested in 16 bits.
fn raise_coarse<C: Cell>(
    coarse: &CoarseBid,
    block: &Block,
    line: &mut [C],
    below: &[C],
    low: &mut [u16],
    high: &[u16],
    worth: C,
) -> u32
    requires lines { CanRaise C.number C.most (states_of block.now.supply.now) line.old below.now worth }
    requires grow { BothGrow block.now.supply.now (map C.number line.old) (map C.number below.now) }
    requires units { AreInUnits C.number coarse.now.shift line.old below.now low.old high.now }
    requires worth { C.number worth ≤ℤ pos (coarse.now.worth * 2 ^ coarse.now.shift) }
    requires mask { HasMask coarse.now.level block.now.supply.now block.now.counts.now coarse.now.mask.now }
    ensures line { IsRaisedBy C.number block.now.supply.now block.now.counts.now below.now worth line.old line.new }
    ensures units { AreInUnits C.number coarse.now.shift line.new below.now low.new high.now }
{
    if is_reached(block.first, line, below, worth) {
        return 0;
    }
    if block.counts.len() == coarse.level || block.counts.len() == 1 {
        return raise_unless_covered(coarse, block, line, below, low, high, worth);
    }
    let width = block.widths[0];
    let count = block.counts[0] as usize;
    let rest = block.rest();
    let mut covered: u32 = 0;
    for row in count..block.supply[0] as usize + 1 {
        let to = row * width;
        let from = (row - count) * width;
        let more = raise_coarse(
            coarse,
            &rest,
            &mut line[to..to + width],
            &below[from..from + width],
            &mut low[to..to + width],
            &high[from..from + width],
            worth,
        );
        covered = covered.saturating_add(more);
    }
    covered
}

/// Counts one more bid in a block of lines that are in units of `2^shift` too.
fn raise_in_units<C: Cell>(
    shift: u32,
    block: &Block,
    line: &mut [C],
    below: &[C],
    low: &mut [u16],
    high: &[u16],
    worth: C,
) -> u32
    requires lines { CanRaise C.number C.most (states_of block.now.supply.now) line.old below.now worth }
    requires grow { BothGrow block.now.supply.now (map C.number line.old) (map C.number below.now) }
    requires units { AreInUnits C.number shift line.old below.now low.old high.now }
    ensures line { IsRaisedBy C.number block.now.supply.now block.now.counts.now below.now worth line.old line.new }
    ensures units { AreInUnits C.number shift line.new below.now low.new high.now }
{
    if is_reached(block.first, line, below, worth) {
        return 0;
    }
    let units = C::worth_units(worth, shift);
    if units == 0 {
        raise_block(block, line, below, worth);
        C::put_low(low, line, shift);
        return 0;
    }
    let mut mask = [0u16; MASK_ROOM];
    let level = put_deep_mask(block.supply, block.widths, block.counts, &mut mask);
    let coarse = CoarseBid {
        worth: units,
        shift,
        level,
        mask: &mask,
    };
    raise_coarse(&coarse, block, line, below, low, high, worth)
}

/// Counts one more bid in a block, in units if there is a shift.
fn raise_lots<C: Cell>(
    shift: Option<u32>,
    block: &Block,
    line: &mut [C],
    below: &[C],
    low: &mut [u16],
    high: &[u16],
    worth: C,
) -> u32
    requires lines { CanRaise C.number C.most (states_of block.now.supply.now) line.old below.now worth }
    requires grow { BothGrow block.now.supply.now (map C.number line.old) (map C.number below.now) }
    requires units { MayBeInUnits C.number shift line.old below.now low.old high.now }
    ensures line { IsRaisedBy C.number block.now.supply.now block.now.counts.now below.now worth line.old line.new }
    ensures units { MayBeInUnits C.number shift line.new below.now low.new high.now }
{
    match shift {
        Some(shift) => raise_in_units(shift, block, line, below, low, high, worth),
        None => {
            raise_block(block, line, below, worth);
            0
        }
    }
}

/// The lots of a bid, and its worth in the width of a line.
#[derive(Drop)]
pub struct CellBid<'a, C> {
    pub lots: &'a Package,
    pub worth: C,
}

/// Counts one more bid that fits in each entry of the line. Neither line falls where more is left. If there is a shift, both
/// are in units of `2^shift` too.
pub fn add_bid<C: Cell>(
    supply: &Supply,
    bid: &CellBid<'_, C>,
    line: &mut [C],
    below: &[C],
    shift: Option<u32>,
    low: &mut [u16],
    high: &[u16],
) -> u32
    requires lines { CanRaise C.number C.most (states_of supply.now) line.old below.now bid.now.worth }
    requires categories { length bid.now.lots.now ≡ length supply.now }
    requires fits { IsTrue (is_within bid.now.lots.now supply.now) }
    requires below_grows { Grows supply.now (map C.number below.now) }
    requires line_grows { Grows supply.now (map C.number line.old) }
    requires units { MayBeInUnits C.number shift line.old below.now low.old high.now }
    ensures line { IsRaisedBy C.number supply.now bid.now.lots.now below.now bid.now.worth line.old line.new }
    ensures units { MayBeInUnits C.number shift line.new below.now low.new high.now }
{
    let block = Block::whole(supply, bid.lots);
    raise_lots(shift, &block, line, below, low, high, bid.worth)
}
