// The constraining round.
ghost use Rattle.std.specs.Prelude.{◌≡◌, ◌≤◌};
ghost use Rattle.auction_model.specs.Package.{cost_of};
ghost use Rattle.auction_rules.specs.Caps.{constraining_number};
ghost use Rattle.clock_stage.specs.Kept.{IsHeld, categories_in};
ghost use Rattle.relative_cap.specs.Asked.{ArePoints, IsBidderOf};
ghost use Rattle.relative_cap.specs.OwnRounds.{IsConstraining, eligibility_in, rounds_of};

use clock_stage::History;
use lots::Package;

/// The last round at whose start bidder `j` was eligible for that many points, if it was in round 1.
pub fn last_enough(history: &History, j: u16, needed: u64) -> u32
    requires bidder { IsBidderOf history.now j }
    requires eligible { needed ≤ eligibility_in history.now j 1 }
    ensures { IsConstraining needed history.now j result }
{
    let mut r = history.rounds();
    while r > 1 && history.eligibility(r, j) < needed {
        r -= 1;
    }
    r
}

/// The number of the constraining round of a package for bidder `j`: the greatest round at whose start the bidder was eligible
/// for the points of the package. Rounds are numbered from 1. It takes no memory, and looks through the rounds from the last one, for a
/// single package.
pub fn constraining_round(history: &History, points: &[u32], j: u16, package: &Package) -> u32
    requires bidder { IsBidderOf history.now j }
    requires points { ArePoints history.now points.now }
    requires categories { IsHeld (categories_in history.now) «package».now }
    requires eligible { cost_of points.now «package».now ≤ eligibility_in history.now j 1 }
    ensures greatest { IsConstraining (cost_of points.now «package».now) history.now j result }
    ensures number { result ≡ constraining_number (cost_of points.now «package».now) (rounds_of j history.now) }
{
    last_enough(history, j, package.points(points))
}
