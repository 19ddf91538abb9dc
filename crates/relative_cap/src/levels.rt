// The closed rounds' part in the caps of a bidder, whatever its list is.
ghost use Rattle.std.specs.Prelude.{◌≡◌, ◌+◌, ◌-◌, ◌≤◌, ◌<◌, ◌^◌, [], All, length, map, slice_index};
ghost use Rattle.auction_model.specs.PackageTests.{InOrder};
ghost use Rattle.clock_stage.specs.Kept.{categories_in};
ghost use Rattle.relative_cap.specs.Asked.{IsBidderOf, IsEntry};
ghost use Rattle.relative_cap.specs.Levels.{AreLevels, IsHigh, IsLastEnough};
ghost use Rattle.relative_cap.specs.OwnRounds.{entry_lots, bid_value};

use crate::amounts::{amount_listed, highest};
use clock_stage::History;
use lots::Bid;

/// The levels of a bidder, with a number for each round: the greatest eligibility from the round on, and the greatest clock bid for
/// what the bidder held in the round.
#[derive(Clone, Copy)]
pub struct RoundLevels<'a> {
    pub peaks: &'a [u64],
    pub highs: &'a [u64],
}

/// Computes the levels of bidder `j`, from the last round to the first: the greatest eligibility from each round on, and for
/// each round the greatest clock bid for what the bidder held in it.
pub fn fill_levels(history: &History, rounds: u32, j: u16, peaks: &mut [u64], highs: &mut [u64])
    requires bidder { IsBidderOf history.now j }
    requires rounds { rounds ≡ length history.now }
    requires peaks { length history.now ≤ length peaks.old }
    requires highs { length history.now ≤ length highs.old }
    ensures { AreLevels history.now j peaks.new highs.new }
{
    let mut place = rounds as usize;
    let mut peak: u64 = 0;
    while place > 0 {
        let r = place as u32;
        place -= 1;
        highs[place] = highest(history, j, &[], history.package(r, j));
        peak = peak.max(history.eligibility(r, j));
        peaks[place] = peak;
    }
}

/// The highest amount for what bidder `j` held in round `r` among its clock bids, whose highest is given, and the list.
pub fn high_over(history: &History, j: u16, r: u32, list: &[Bid], clock: u64) -> u64
    requires bidder { IsBidderOf history.now j }
    requires round { (1 ≤ r) × (r ≤ length history.now) }
    requires list { All (IsEntry (categories_in history.now)) list.now }
    requires order { InOrder (map entry_lots list.now) }
    requires clock { IsHigh history.now j [] (r - 1) clock }
    ensures { IsHigh history.now j (map bid_value list.now) (r - 1) result }
{
    let held = history.package(r, j);
    if held.is_empty() {
        return 0;
    }
    clock.max(amount_listed(list, held))
}

/// The last of that many rounds whose number is enough, by halving. The numbers never rise.
pub fn last_peak(peaks: &[u64], rounds: u32, needed: u64) -> u32
    requires some { 1 ≤ rounds }
    requires room { rounds ≤ length peaks.now }
    requires enough { needed ≤ slice_index peaks.now 0 }
    ensures { IsLastEnough needed peaks.now rounds result }
{
    let mut low = 0;
    let mut high = rounds as usize;
    while high - low > 1 {
        let middle = low + (high - low) / 2;
        if needed <= peaks[middle] {
            low = middle;
        } else {
            high = middle;
        }
    }
    low as u32 + 1
}
