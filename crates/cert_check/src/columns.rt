// A multiplier of all rows, row by row and summed for each bidder.
ghost use Rattle.std.specs.Prelude.{ℕ, ◌≡◌, ◌≤◌, ◌<◌, ◌*◌, ◌^◌, length, pos, unsigned_abs, ◌+ℤ◌, if◌then◌else◌};
ghost use Rattle.auction_model.specs.Lowered.{of_bidder};
ghost use Rattle.cert_grammar.specs.Certificate.{is_member};
ghost use Rattle.limits.specs.declared.TheConstants.{MOST_BIDDERS};
ghost use Rattle.wide_num.specs.Sums.{nth};

use crate::sums::amounts::counted;
use crate::sums::members::is_among;

/// One of the multipliers of all rows.
#[derive(Drop)]
pub struct MultiplierColumn<'a> {
    /// The multiplier of each row.
    pub numbers: &'a [i128],
    /// For each bidder the sum over the rows that contain it.
    pub sums: &'a [i128],
}

/// Adds a multiplier of one more row to the sums of its members. Each sum is over fewer than 16 rows.
pub fn add_row(sums: &mut [i128], members: &[u16], multiplier: i128)
    requires room { length sums.old ≤ MOST_BIDDERS }
    requires sizes { (k : ℕ) → unsigned_abs (nth sums.old k) ≤ 15 * 2 ^ 120 }
    requires multiplier { unsigned_abs multiplier ≤ 2 ^ 120 }
    ensures room { length sums.new ≡ length sums.old }
    ensures sums { (j : ℕ) → 0 < j → j ≤ length sums.old
        → of_bidder sums.new j ≡ of_bidder sums.old j +ℤ (if is_member members.now j then multiplier else pos 0) }
{
    for k in 0..sums.len() {
        sums[k] += counted(is_among(members, k as u16 + 1), multiplier);
    }
}
