// C7 and C8: the multipliers.
ghost use Rattle.std.specs.Prelude.{IsTrue, List, length, map, [], pos, unsigned_abs, ℕ, ◌+◌, ◌^◌, ◌<◌, ◌≡◌, ◌+ℤ◌, ◌-ℤ◌, ◌*ℤ◌, ◌≤ℤ◌, ◌<ℤ◌, ◌⊎◌, ◌≤◌, ◌↔◌};
ghost use Rattle.auction_model.specs.Book.{market_of};
ghost use Rattle.auction_model.specs.Lowered.{of_bidder};
ghost use Rattle.auction_model.specs.Market.{uses, worth_in};
ghost use Rattle.auction_model.specs.Prices.{AreWeights, weight_of};
ghost use Rattle.bid_book.specs.Kept.{IsBidBook};
ghost use Rattle.cert_check.specs.Columns.{AreFirsts, AreFirstSums, AreSeconds, AreSecondSums};
ghost use Rattle.cert_check.specs.Fields.{AreValuesWithout, IsOf, cert_with};
ghost use Rattle.cert_check.specs.Places.{IsFirstFailing};
ghost use Rattle.cert_grammar.specs.CertText.{AllInRange};
ghost use Rattle.cert_grammar.specs.Certificate.{CertValue, RowValue, WithoutValue};
ghost use Rattle.cert_soundness.specs.Tests.{C7, C8, bidders_of};

use crate::claim::Claim;
use crate::columns::MultiplierColumn;
use crate::sums::amounts::{is_equal, times, won};

/// The first place where C7 fails for a certificate with these first multipliers.
pub fn first_test(claim: &Claim, first: &MultiplierColumn) -> Option<u64>
    requires few { length first.now.numbers.now ≤ 10 }
    requires sums { bidders_of claim.now.book.now ≤ length first.now.sums.now }
    ensures { (c : CertValue) → IsOf claim.now c → AreFirsts c.rows first.now.numbers.now
        → AreFirstSums (bidders_of claim.now.book.now) c.rows first.now.sums.now
        → IsFirstFailing (C7 claim.now.book.now c) result }
{
    for place in 1..first.numbers.len() as u16 + claim.book.bidders() as u16 + 1 {
        if !first_holds(claim, first, place) {
            return Some(place as u64);
        }
    }
    None
}

/// Whether C7 is true at a place: a row's sign, or a winner's sum.
fn first_holds(claim: &Claim, first: &MultiplierColumn, place: u16) -> bool
    requires few { length first.now.numbers.now ≤ 10 }
    requires sums { bidders_of claim.now.book.now ≤ length first.now.sums.now }
    requires place { (0 < place) × (place ≤ length first.now.numbers.now + bidders_of claim.now.book.now) }
    ensures { (rows : List RowValue) → AreFirsts rows first.now.numbers.now
        → AreFirstSums (bidders_of claim.now.book.now) rows first.now.sums.now
        → IsTrue result ↔ C7 claim.now.book.now (cert_with claim.now [] [] rows) place }
{
    claim.book.kept();
    let count = first.numbers.len() as u16;
    if place <= count {
        return is_first(first.numbers[place as usize - 1]);
    }
    let j = place - count;
    is_least(claim, first.sums[j as usize - 1], j)
}

/// Whether the first multiplier of a row isn't below 0.
pub fn is_first(first: i128) -> bool
    ensures { IsTrue result ↔ (pos 0 ≤ℤ first) }
{
    first >= 0
}

/// Whether the sum of the first multipliers of the rows that contain bidder `j` is the denominator, if it wins.
pub(crate) fn is_least(claim: &Claim, sum: i128, j: u16) -> bool
    requires { (0 < j) × (j ≤ bidders_of claim.now.book.now) }
    ensures { IsTrue result ↔ (IsTrue (uses claim.now.choice.now j) → sum ≡ claim.now.den) }
{
    if claim.number(j) == 0 {
        return true;
    }
    is_equal(sum, claim.den)
}

/// The first place where C8 fails for a certificate with these payments and multipliers, if the choices without the winners
/// have these values.
pub fn second_test(
    claim: &Claim,
    pay: &[i128],
    values: &[i128],
    firsts: &[i128],
    second: &MultiplierColumn,
    weights: &[u32],
) -> Option<u64>
    requires pay { (length pay.now ≡ bidders_of claim.now.book.now) × AllInRange pay.now }
    requires count { bidders_of claim.now.book.now ≤ length values.now }
    requires values { (j : ℕ) → 0 < j → j ≤ bidders_of claim.now.book.now
        → (pos 0 ≤ℤ of_bidder values.now j) × (of_bidder values.now j ≤ℤ claim.now.value) }
    requires rows { (length second.now.numbers.now ≡ length firsts.now) × (length firsts.now ≤ 10) }
    requires sums { bidders_of claim.now.book.now ≤ length second.now.sums.now }
    requires weights { AreWeights (bidders_of claim.now.book.now) weights.now }
    ensures { (c : CertValue) → IsOf claim.now c → c.pay ≡ pay.now
        → AreValuesWithout claim.now.book.now c.choice c.withouts values.now
        → AreFirsts c.rows firsts.now → AreSeconds c.rows second.now.numbers.now
        → AreSecondSums (bidders_of claim.now.book.now) c.rows second.now.sums.now
        → IsFirstFailing (C8 claim.now.book.now (weight_of weights.now) c) result }
{
    for place in 1..firsts.len() as u16 + claim.book.bidders() as u16 + 1 {
        if !second_holds(claim, pay, values, firsts, second, weights, place) {
            return Some(place as u64);
        }
    }
    None
}

/// Whether C8 is true at a place: a row's sign, or a winner's sum.
fn second_holds(
    claim: &Claim,
    pay: &[i128],
    values: &[i128],
    firsts: &[i128],
    second: &MultiplierColumn,
    weights: &[u32],
    place: u16,
) -> bool
    requires pay { (length pay.now ≡ bidders_of claim.now.book.now) × AllInRange pay.now }
    requires count { bidders_of claim.now.book.now ≤ length values.now }
    requires values { (j : ℕ) → 0 < j → j ≤ bidders_of claim.now.book.now
        → (pos 0 ≤ℤ of_bidder values.now j) × (of_bidder values.now j ≤ℤ claim.now.value) }
    requires rows { (length second.now.numbers.now ≡ length firsts.now) × (length firsts.now ≤ 10) }
    requires sums { bidders_of claim.now.book.now ≤ length second.now.sums.now }
    requires weights { AreWeights (bidders_of claim.now.book.now) weights.now }
    requires place { (0 < place) × (place ≤ length firsts.now + bidders_of claim.now.book.now) }
    ensures { (withouts : List WithoutValue) (rows : List RowValue)
        → AreValuesWithout claim.now.book.now claim.now.choice.now withouts values.now
        → AreFirsts rows firsts.now → AreSeconds rows second.now.numbers.now
        → AreSecondSums (bidders_of claim.now.book.now) rows second.now.sums.now
        → IsTrue result
        ↔ C8 claim.now.book.now (weight_of weights.now) (cert_with claim.now withouts pay.now rows) place }
{
    claim.book.kept();
    let count = firsts.len() as u16;
    if place <= count {
        let r = place as usize - 1;
        return is_signed(firsts[r], second.numbers[r]);
    }
    let j = place - count;
    let k = j as usize - 1;
    let weight = weights[j as usize - 1];
    is_nearest(claim, pay[k], values[k], weight, second.sums[k], j)
}

/// Whether the second multiplier of a row isn't below 0, or its first is above 0.
pub fn is_signed(first: i128, second: i128) -> bool
    ensures { IsTrue result ↔ ((pos 0 <ℤ first) ⊎ (pos 0 ≤ℤ second)) }
{
    first > 0 || second >= 0
}

/// Whether what bidder `j` pays above its Vickrey price is its weight times the sum of the second multipliers of the rows that
/// contain it, if it wins. The choice without it has this value.
pub(crate) fn is_nearest(
    claim: &Claim,
    payment: i128,
    without: i128,
    weight: u32,
    sum: i128,
    j: u16,
) -> bool
    requires payment { unsigned_abs payment < 2 ^ 120 }
    requires without { (pos 0 ≤ℤ without) × (without ≤ℤ claim.now.value) }
    requires weight { (1 ≤ weight) × (weight ≤ 20) }
    requires bidder { (0 < j) × (j ≤ bidders_of claim.now.book.now) }
    ensures { IsTrue result ↔ (IsTrue (uses claim.now.choice.now j)
        → payment -ℤ (claim.now.den
        *ℤ ((without -ℤ claim.now.value) +ℤ worth_in (market_of claim.now.book.now) claim.now.choice.now j))
        ≡ pos weight *ℤ sum) }
{
    if claim.number(j) == 0 {
        return true;
    }
    let above = payment - times(claim.den, vickrey(claim, without, j));
    is_times(above, weight, sum)
}

/// The Vickrey price of winner `j`, if the choice without it has this value.
fn vickrey(claim: &Claim, without: i128, j: u16) -> i128
    requires without { (pos 0 ≤ℤ without) × (without ≤ℤ claim.now.value) }
    requires bidder { (0 < j) × (j ≤ bidders_of claim.now.book.now) }
    ensures price { result
        ≡ (without -ℤ claim.now.value) +ℤ worth_in (market_of claim.now.book.now) claim.now.choice.now j }
    ensures kept { IsBidBook claim.now.book.now }
{
    let won = won(claim.book, claim.choice, j);
    without - claim.value + won
}

/// Whether a number is the weight times a sum. A quotient without rest shows it, since the product may leave 128 bits.
fn is_times(number: i128, weight: u32, sum: i128) -> bool
    requires { (1 ≤ weight) × (weight ≤ 20) }
    ensures { IsTrue result ↔ (number ≡ pos weight *ℤ sum) }
{
    let divisor = weight as i128;
    if number % divisor != 0 {
        return false;
    }
    number / divisor == sum
}
