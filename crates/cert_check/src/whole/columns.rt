// The multipliers of rows as numbers, and their sums.
ghost use Rattle.std.specs.Prelude.{ℕ, ◌≡◌, ◌≤◌, length, map};
ghost use Rattle.cert_check.specs.Columns.{AreMultipliers, AreSums};
ghost use Rattle.cert_check.specs.Multipliers.{multiplier_of};
ghost use Rattle.cert_grammar.specs.CertText.{AreRows};
ghost use Rattle.cert_soundness.specs.Tests.{sum_holding};
ghost use Rattle.cert_text.specs.Parts.{row_value};
ghost use Rattle.limits.specs.declared.TheConstants.{MOST_BIDDERS};

use crate::sums::Multiplier;
use crate::sums::amounts::counted;
use crate::sums::members::is_among;
use cert_text::CertRow;

/// Writes a multiplier of each row.
pub(crate) fn put_multipliers(rows: &[CertRow], which: Multiplier, numbers: &mut [i128])
    requires { length numbers.old ≡ length rows.now }
    ensures { AreMultipliers which (map row_value rows.now) numbers.new }
{
    for (r, row) in rows.iter().enumerate() {
        numbers[r] = picked(row, which);
    }
}

/// Writes for each bidder the sum of a multiplier over the rows that contain
/// it.
pub(crate) fn put_sums(rows: &[CertRow], which: Multiplier, sums: &mut [i128])
    requires few { length rows.now ≤ 10 }
    requires rows { (bidders : ℕ) × AreRows bidders (map row_value rows.now) }
    requires room { length sums.old ≤ MOST_BIDDERS }
    ensures room { length sums.new ≡ length sums.old }
    ensures sums { AreSums which (length sums.old) (map row_value rows.now) sums.new }
{
    for k in 0..sums.len() {
        sums[k] = sum_of(rows, k as u16 + 1, which);
    }
}

/// The sum of the multipliers of the rows that contain bidder `j`.
fn sum_of(rows: &[CertRow], j: u16, which: Multiplier) -> i128
    requires count { length rows.now ≤ 10 }
    requires range { (bidders : ℕ) × AreRows bidders (map row_value rows.now) }
    ensures { result ≡ sum_holding (map row_value rows.now) j (multiplier_of which) (length rows.now) }
{
    let mut sum = 0i128;
    for row in rows {
        sum += counted(is_among(row.members.items(), j), picked(row, which));
    }
    sum
}

/// A multiplier of a row.
fn picked(row: &CertRow, which: Multiplier) -> i128
    ensures { result ≡ multiplier_of which (row_value row.now) }
{
    match which {
        Multiplier::First => row.first,
        Multiplier::Second => row.second,
    }
}
