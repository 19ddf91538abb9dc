// The multipliers of the rows.
ghost use Rattle.std.specs.Prelude.{◌≡◌, ◌≤◌, ◌<◌, ℕ, suc, List, length, ◌^◌, unsigned_abs, slice_set, ℤ};
ghost use Rattle.cert_grammar.specs.Certificate.{CertValue, row_of};
ghost use Rattle.cert_grammar.specs.CertText.{AreRows};
ghost use Rattle.stream_check.specs.Totals.{AreTotals};

use cert_check::{BIDDER_ROOM, add_row};
use limits::MOST_ROWS;

/// The multipliers of the rows that have come, and for each bidder their sums over the rows that contain
/// it.
#[derive(Clone, Copy)]
pub(crate) struct RowTotals {
    /// How many rows have come.
    pub(crate) count: usize,
    pub(crate) firsts: [i128; MOST_ROWS],
    pub(crate) seconds: [i128; MOST_ROWS],
    pub(crate) first_sums: [i128; BIDDER_ROOM],
    pub(crate) second_sums: [i128; BIDDER_ROOM],
}

/// The totals of no row.
pub(crate) fn no_totals() -> RowTotals
    ensures { (c : CertValue) → AreTotals c 0 result }
{
    RowTotals {
        count: 0,
        firsts: [0; MOST_ROWS],
        seconds: [0; MOST_ROWS],
        first_sums: [0; BIDDER_ROOM],
        second_sums: [0; BIDDER_ROOM],
    }
}

/// The totals with one row more.
pub(crate) fn with_row(totals: RowTotals, members: &[u16], first: i128, second: i128) -> RowTotals
    requires some { (c : CertValue) × (b n : ℕ) × AreTotals c n totals × AreRows b c.rows × (n < length c.rows)
        × (length c.rows ≤ 10) }
    requires range { (unsigned_abs first < 2 ^ 120) × (unsigned_abs second < 2 ^ 120) }
    ensures { (c : CertValue) (n : ℕ) → AreTotals c n totals → (row_of c.rows (suc n)).members ≡ members.now
        → (row_of c.rows (suc n)).first ≡ first → (row_of c.rows (suc n)).second ≡ second
        → AreTotals c (suc n) result }
{
    let mut now = totals;
    put_at(&mut now.firsts, totals.count, first);
    put_at(&mut now.seconds, totals.count, second);
    add_row(&mut now.first_sums, members, first);
    add_row(&mut now.second_sums, members, second);
    now.count += 1;
    now
}

/// Puts a number at a place.
fn put_at(numbers: &mut [i128], at: usize, number: i128)
    requires { at < length numbers.old }
    ensures { numbers.new ≡ slice_set numbers.old at number }
{
    numbers[at] = number;
}
