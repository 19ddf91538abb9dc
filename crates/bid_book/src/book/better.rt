// Bids that another bid of the same bidder makes needless.
ghost use Rattle.std.specs.Prelude.{IsTrue};
ghost use Rattle.auction_model.specs.Package.{is_within};
ghost use Rattle.bid_book.specs.Better.{BeatsAmong};

use crate::book::Entry;

/// The rival, if it is one of these bids and makes the entry needless: it is no larger in any category and worth at least as
/// much. Else 0. Bids are numbered from 1.
pub fn better_among(bids: &[Entry], entry: &Entry, rival: u16) -> u16
    ensures { BeatsAmong bids.now entry.now result }
{
    if rival == 0 || rival as usize > bids.len() {
        return 0;
    }
    let other = &bids[rival as usize - 1];
    if other.net >= entry.net
        && are_no_more(other.bid.package.counts(), entry.bid.package.counts())
    {
        rival
    } else {
        0
    }
}

/// Whether these are counts of the same categories as the others, and none is above the other one.
fn are_no_more(counts: &[u16], others: &[u16]) -> bool
    ensures { IsTrue result → IsTrue (is_within counts.now others.now) }
{
    if counts.len() != others.len() {
        return false;
    }
    for i in 0..counts.len() {
        if counts[i] > others[i] {
            return false;
        }
    }
    true
}
