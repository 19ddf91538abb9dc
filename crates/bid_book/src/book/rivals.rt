// Guesses which earlier bid of a bidder makes the next one needless. Nothing is proved of a guess: the caller tests it.
ghost use Rattle.std.specs.Prelude.{◌≡◌, ◌<◌, ◌≤◌, length, OnOk};
ghost use Rattle.auction_model.specs.Place.{states_of};

use limits::MOST_CATEGORIES;
use lots::{Package, Supply};
use std::alloc::{AllocError, Global};

/// How many places a block has at least, if the supply has as many: that many are worth the work that each block takes.
const SOME_PLACES: usize = 4;

/// The bids of one bidder so far. They come in the order of their places. A block is the places that differ only in the last
/// few categories, the inner ones.
#[derive(Drop)]
pub(crate) struct Rivals {
    /// How many bids there are.
    count: u16,
    /// For each place before `reached` the greatest offer of the bids that fit there, and 0 if there is none.
    best: Vec<i64>,
    /// The place where the next block begins.
    reached: usize,
    /// The counts of the next block in the outer categories.
    outer: [u16; MOST_CATEGORIES],
}

impl Rivals {
    /// No bids. It takes no memory.
    pub(crate) fn new(alloc: Global) -> Rivals {
        Rivals {
            count: 0,
            best: Vec::new(alloc),
            reached: 0,
            outer: [0; MOST_CATEGORIES],
        }
    }

    /// Forgets the bids, for the next bidder.
    pub(crate) fn clear(&mut self) {
        self.count = 0;
        self.best.clear();
        self.reached = 0;
        self.outer = [0; MOST_CATEGORIES];
    }

    /// The earlier bid of greatest worth that is no larger, or 0. From now on this bid is one of them.
    pub(crate) fn take(
        &mut self,
        supply: &Supply,
        package: &Package,
        net: i128,
    ) -> Result<u16, AllocError> {
        let place = place_among(supply.counts(), package.counts()).min(supply.states());
        let inner = first_inner(supply.counts(), supply.widths());
        while self.reached <= place && self.reached < supply.states() {
            self.raise_block(supply, inner)?;
        }
        self.count = self.count.wrapping_add(1);
        let own = offer(net, self.count);
        Ok(number_of(self.put(supply, inner, place, own)))
    }

    /// Computes the next block: what a place has one lot less than is worth most of it. Along the inner categories nothing is
    /// left to do, since the offers of the blocks before rise along these.
    fn raise_block(&mut self, supply: &Supply, inner: usize) -> Result<(), AllocError>
        requires { self.old.reached < states_of supply.now }
        ensures { OnOk result (self.old.reached < self.new.reached) }
    {
        let widths = supply.widths();
        let len = block_len(widths, inner, supply.states() - self.reached);
        self.best.resize(self.reached + len, 0)?;
        let (before, rest) = self.best.split_at_mut(self.reached);
        let block = &mut rest[..len];
        for category in 0..inner.min(widths.len()).min(MOST_CATEGORIES) {
            if self.outer[category] != 0 {
                raise_from(block, before, widths[category]);
            }
        }
        next_counts(&mut self.outer, supply.counts(), inner);
        self.reached += len;
        Ok(())
    }

    /// Puts an offer at a place of the last block and the places after it. Returns the greatest that was there.
    fn put(&mut self, supply: &Supply, inner: usize, place: usize, own: i64) -> i64 {
        let end = self.reached.min(self.best.len());
        let begin = end - block_len(supply.widths(), inner, end);
        if place < begin || place >= end {
            return 0;
        }
        // Along one category the offers rise, so the first that is no less ends the work.
        if supply.counts().len() <= inner.saturating_add(1) {
            return put_first(&mut self.best[place..end], own);
        }
        let first = self.best[place];
        if first < own {
            self.best[place] = own;
            let block = &mut self.best[begin..end];
            raise_inside(
                block,
                supply.counts(),
                supply.widths(),
                inner,
                place - begin,
            );
        }
        first
    }
}

/// The first inner category: the last one that gives a block enough places, or 0.
fn first_inner(counts: &[u16], widths: &[usize]) -> usize {
    let mut inner = counts.len().min(widths.len());
    while 0 < inner {
        inner -= 1;
        if widths[inner].wrapping_mul(counts[inner] as usize + 1) >= SOME_PLACES {
            break;
        }
    }
    inner
}

/// How many places a block has, up to this many.
fn block_len(widths: &[usize], inner: usize, most: usize) -> usize
    ensures most { result ≤ most }
    ensures some { 0 < most → 0 < result }
{
    if inner == 0 || inner > widths.len() || widths[inner - 1] == 0 {
        return most;
    }
    widths[inner - 1].min(most)
}

/// A net amount and the number of its bid in one number, which is greater if the amount is.
fn offer(net: i128, number: u16) -> i64 {
    i64::try_from(net).unwrap_or(0) << 16 | number as i64
}

/// The number of the bid of an offer, and 0 if there is none.
fn number_of(offer: i64) -> u16 {
    (offer & 0xffff) as u16
}

/// The place of the counts, if they fit the supply.
fn place_among(supply: &[u16], counts: &[u16]) -> usize {
    let mut place = 0usize;
    for i in 0..supply.len().min(counts.len()) {
        place = place
            .wrapping_mul(supply[i] as usize + 1)
            .wrapping_add(counts[i] as usize);
    }
    place
}

/// Raises each offer of a block to the offer of the place that far before it.
fn raise_from(block: &mut [i64], before: &[i64], width: usize) {
    if width <= before.len() && block.len() <= width {
        raise(block, &before[before.len() - width..][..block.len()]);
    }
}

/// Raises each offer to the other one at its place.
fn raise(block: &mut [i64], below: &[i64])
    requires { length block.old ≡ length below.now }
{
    for i in 0..block.len() {
        block[i] = block[i].max(below[i]);
    }
}

/// Raises the offers of a block from a place on to the offers of the places in the block that have one lot less.
fn raise_inside(block: &mut [i64], counts: &[u16], widths: &[usize], inner: usize, from: usize) {
    if counts.len() <= inner.saturating_add(1) {
        let from = from.min(block.len());
        rise(&mut block[from..]);
        return;
    }
    for category in inner..counts.len().min(widths.len()) {
        raise_along(block, widths[category], counts[category], from);
    }
}

/// Raises the offers of a block from a place on to the offers of the places that have one lot less in a category of this width
/// and count.
fn raise_along(block: &mut [i64], width: usize, count: u16, from: usize) {
    let all = width.wrapping_mul(count as usize + 1);
    if all == 0 {
        return;
    }
    let mut phase = from % all;
    for place in from..block.len() {
        if phase >= width && place >= width {
            block[place] = block[place].max(block[place - width]);
        }
        phase += 1;
        if phase == all {
            phase = 0;
        }
    }
}

/// Raises each offer to those before it.
fn rise(offers: &mut [i64]) {
    let mut most = 0;
    for offer in offers {
        most = most.max(*offer);
        *offer = most;
    }
}

/// Raises offers, which rise, to this one. Returns the former first one.
fn put_first(places: &mut [i64], own: i64) -> i64 {
    let first = places.first().copied().unwrap_or(0);
    for offer in places {
        if own <= *offer {
            break;
        }
        *offer = own;
    }
    first
}

/// Goes on to the counts of the next block in the outer categories, which are those before the inner ones.
fn next_counts(counts: &mut [u16; MOST_CATEGORIES], supply: &[u16], inner: usize) {
    for i in (0..supply.len().min(inner).min(MOST_CATEGORIES)).rev() {
        if counts[i] < supply[i] {
            counts[i] += 1;
            return;
        }
        counts[i] = 0;
    }
}
