// The content of a placement certificate.
ghost use Rattle.std.specs.Prelude.{length};
ghost use Rattle.placement_cert.specs.OneProof.{IsPlaceCertificate-prop};
ghost use Rattle.placement_cert.specs.Parts.{place_cert_from};
ghost use Rattle.placement_cert.specs.PlaceText.{IsPlaceCertificate};

use choices::{Choice, Grid, Numbers};
use wide_num::{ItemList, NumList};

/// A best choice without a winner, its order, and the table that shows it.
#[derive(Drop)]
pub struct PlaceWithout {
    /// The number of the winner.
    pub winner: u16,
    /// A choice that doesn't use it.
    pub choice: Choice,
    /// An order that allows the choice: one number of at most 65,535 for each bidder.
    pub order: Numbers,
    /// One line, with an entry for each set of bidders.
    pub table: Grid,
}

/// A list of parts without a winner.
pub type PlaceWithouts = ItemList<PlaceWithout>;

/// A set of winners that have to pay a sum together, and its multipliers.
#[derive(Drop)]
pub struct PlaceRow {
    /// The numbers of its members, at least one, rising.
    pub members: Numbers,
    /// The multiplier that shows the least sum, times the denominator.
    pub first: i128,
    /// The multiplier that shows the nearest point, times the denominator.
    pub second: i128,
    /// The choice with this sum.
    pub choice: Choice,
    /// An order that allows the choice: one number of at most 65,535 for each bidder.
    pub order: Numbers,
}

/// A list of rows.
pub type PlaceRows = ItemList<PlaceRow>;

/// A certificate of the prices of slots in a band. All its numbers are strictly between -2^120 and 2^120. It has a part without
/// each bidder that the choice uses, in order, and at most ten rows.
#[derive(Drop)]
pub struct PlaceCertificate {
    /// The denominator of the payments.
    pub den: i128,
    /// The worth of the choice.
    pub value: i128,
    /// A greatest choice, one number of at most 65,535 for each bidder.
    pub choice: Choice,
    /// An order that allows the choice: one number of at most 65,535 for each bidder.
    pub order: Numbers,
    /// The table of amounts: one line, with an entry for each set of bidders.
    pub table: Grid,
    /// The parts without each winner.
    pub withouts: PlaceWithouts,
    /// What each bidder pays, times the denominator.
    pub pay: NumList,
    /// The rows.
    pub rows: PlaceRows,
    /// The table of the amounts times the denominator, each winner's lowered by its surplus.
    pub lowered: Grid,
    pub ghost rules: { IsPlaceCertificate (length choice)
        (place_cert_from den value choice order table withouts pay rows lowered) } by { IsPlaceCertificate-prop
            (length choice) (place_cert_from den value choice order table withouts pay rows lowered) },
}
