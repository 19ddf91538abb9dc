// The closed rounds' terms for the cap of one package.
ghost use Rattle.std.specs.Prelude.{◌≡◌, ◌≤◌, length};
ghost use Rattle.auction_model.specs.Package.{cost_of};
ghost use Rattle.clock_stage.specs.Kept.{IsHeld, categories_in};
ghost use Rattle.relative_cap.specs.Asked.{ArePoints, IsBidderOf};
ghost use Rattle.relative_cap.specs.Levels.{ArePeaks};
ghost use Rattle.relative_cap.specs.OwnRounds.{eligibility_in, rounds_of};
ghost use Rattle.relative_cap.specs.RoundsOfPackage.{IsRoundTerms, IsTerms, first_place, own_place};

use crate::levels::last_peak;
use crate::packages::is_same;
use clock_stage::History;
use lots::Package;

/// One round's terms for the cap of a package, in whole units of money.
#[derive(Clone, Copy)]
pub struct RoundTerms {
    /// The place of the first round with the bidder's holdings of this one, counted from 0.
    pub place: u32,
    /// The price of the package at the prices of the round.
    pub price: u64,
    /// The price of the bidder's holdings in the round, at its prices.
    pub held: u64,
}

/// The closed rounds' terms for the cap of a package of one bidder, whatever its list is.
#[derive(Clone, Copy)]
pub struct PackageTerms {
    /// The place of the first round where the bidder held the package, or the number of rounds if there is none or the package
    /// is empty.
    pub own: u32,
    /// Whether the bidder held the package in the final round.
    pub is_final: bool,
    /// The constraining round's terms.
    pub constraining: RoundTerms,
    /// The final round's terms.
    pub last: RoundTerms,
}

/// The place of the first round where bidder `j` held the package, counted from 0, or the number of rounds if there is none.
fn first_place(history: &History, j: u16, package: &Package) -> u32
    requires bidder { IsBidderOf history.now j }
    requires categories { IsHeld (categories_in history.now) «package».now }
    ensures { result ≡ first_place (rounds_of j history.now) «package».now }
{
    let rounds = history.rounds();
    for place in 0..rounds {
        if is_same(history.package(place + 1, j), package) {
            return place;
        }
    }
    rounds
}

/// The place of the first round where the bidder held a package that isn't empty, and the number of rounds for the empty one.
fn own_place(history: &History, j: u16, package: &Package) -> u32
    requires bidder { IsBidderOf history.now j }
    requires categories { IsHeld (categories_in history.now) «package».now }
    ensures { result ≡ own_place history.now j «package».now }
{
    if package.is_empty() {
        return history.rounds();
    }
    first_place(history, j, package)
}

/// Round `r`'s terms for the cap of a package of bidder `j`.
fn round_terms(history: &History, j: u16, r: u32, package: &Package) -> RoundTerms
    requires bidder { IsBidderOf history.now j }
    requires round { (1 ≤ r) × (r ≤ length history.now) }
    requires categories { IsHeld (categories_in history.now) «package».now }
    ensures { IsRoundTerms history.now j r «package».now result }
{
    let held = history.package(r, j);
    let prices = history.prices(r);
    RoundTerms {
        place: first_place(history, j, held),
        price: package.cost(prices),
        held: held.cost(prices),
    }
}

/// The closed rounds' terms for the cap of a package of bidder `j`, whose greatest eligibility from each round on is given.
pub fn package_terms(
    history: &History,
    points: &[u32],
    j: u16,
    peaks: &[u64],
    package: &Package,
) -> PackageTerms
    requires bidder { IsBidderOf history.now j }
    requires points { ArePoints history.now points.now }
    requires peaks { ArePeaks history.now j peaks.now }
    requires categories { IsHeld (categories_in history.now) «package».now }
    requires eligible { cost_of points.now «package».now ≤ eligibility_in history.now j 1 }
    ensures { IsTerms history.now points.now j «package».now result }
{
    let last = history.rounds();
    let r = last_peak(peaks, last, package.points(points));
    PackageTerms {
        own: own_place(history, j, package),
        is_final: is_same(package, history.package(last, j)),
        constraining: round_terms(history, j, r, package),
        last: round_terms(history, j, last, package),
    }
}
