// Sums over bidders and over rows.
ghost use Rattle.std.specs.Prelude.{length, map, not, pos, ℕ, ◌*◌, ◌<◌, ◌≡◌, ◌≤ℤ◌, ◌≤◌};
ghost use Rattle.auction_model.specs.Market.{worth_in};
ghost use Rattle.auction_model.specs.Prices.{sum_over};
ghost use Rattle.cert_grammar.specs.Certificate.{is_member};
ghost use Rattle.limits.specs.declared.TheConstants.{MOST_AMOUNT, MOST_PLACED};
ghost use Rattle.placement_cert.specs.Parts.{row_value, AreRows};
ghost use Rattle.slot_places.specs.Board.{market_of_slots};
ghost use Rattle.placement_check.specs.RowSums.{AreRowSums};

use crate::amounts::amount;
use cert_check::add_row;
use cert_check::sums::amounts::counted;
use cert_check::sums::members::is_among;
use choices::Choice;
use placement_cert::PlaceRow;
use slot_places::{MOST_PLACED, Slots};

/// What the bid that the choice gives to bidder `j` is worth, and 0 for a loser.
pub(crate) fn won(slots: &Slots, choice: &Choice, j: u16) -> i128
    requires numbers { length choice.now ≡ length slots.now.bidders }
    requires bidder { (0 < j) × (j ≤ length slots.now.bidders) }
    ensures won { result ≡ worth_in (market_of_slots slots.now) choice.now j }
    ensures least { pos 0 ≤ℤ result }
    ensures most { result ≤ℤ pos MOST_AMOUNT }
{
    amount(slots, j, choice.number(j))
}

/// What the bids of the others count in the choice.
pub(crate) fn won_beside(slots: &Slots, choice: &Choice, members: &[u16]) -> i128
    requires numbers { length choice.now ≡ length slots.now.bidders }
    ensures sum { result
        ≡ sum_over (λ j. not (is_member members.now j)) (worth_in (market_of_slots slots.now) choice.now)
        (length slots.now.bidders) }
    ensures least { pos 0 ≤ℤ result }
    ensures most { result ≤ℤ pos (MOST_PLACED * MOST_AMOUNT) }
{
    let mut sum = 0i128;
    for k in 0..slots.bidders() {
        let j = k as u16 + 1;
        sum += counted(!is_among(members, j), won(slots, choice, j));
    }
    sum
}

/// For each bidder the sums of both multipliers over the rows that contain it.
#[derive(Clone, Copy)]
pub(crate) struct RowSums {
    /// The sums of the first multipliers.
    pub(crate) firsts: [i128; MOST_PLACED],
    /// The sums of the second multipliers.
    pub(crate) seconds: [i128; MOST_PLACED],
}

/// The sums over these rows.
pub(crate) fn sums_over(rows: &[PlaceRow]) -> RowSums
    requires count { length rows.now ≤ 10 }
    requires range { (bidders : ℕ) × AreRows bidders rows.now }
    ensures { AreRowSums (map row_value rows.now) (length rows.now) result }
{
    let mut sums = RowSums {
        firsts: [0; MOST_PLACED],
        seconds: [0; MOST_PLACED],
    };
    for row in rows {
        let members = row.members.items();
        add_row(&mut sums.firsts, members, row.first);
        add_row(&mut sums.seconds, members, row.second);
    }
    sums
}
