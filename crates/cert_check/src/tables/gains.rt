// What the bidders gain at the payments.
ghost use Rattle.std.specs.Prelude.{◌≡◌, ℕ, ◌<◌, ◌≤◌, length};
ghost use Rattle.auction_model.specs.Lowered.{of_bidder};
ghost use Rattle.cert_grammar.specs.CertText.{AllInRange};
ghost use Rattle.cert_soundness.specs.Tests.{bidders_of};
ghost use Rattle.table_check.specs.Worths.{HasSmallWorths};
ghost use Rattle.cert_check.specs.Gains.{CanLower, gain_of};

use crate::claim::Claim;
use bid_book::BidBook;
use table_check::scaled_less;

/// What bidder `j` gains at the payments, times the denominator: what its bid in the choice is worth less what it pays, and
/// nothing if it loses.
fn gain(book: &BidBook, den: i128, choice: &[u16], pay: &[i128], j: u16) -> i128
    requires bidder { (0 < j) × (j ≤ bidders_of book.now) }
    requires lower { CanLower book.now den choice.now pay.now }
    ensures { result ≡ gain_of book.now den choice.now pay.now j }
{
    let number = choice[j as usize - 1];
    if number == 0 {
        return 0;
    }
    scaled_less(den, book.net(j, number), pay[j as usize - 1])
}

/// Writes what each bidder gains at the payments, times the denominator, bidder by bidder from the first number on. With these gains
/// no worth of a bid is too large for `TestedBids`.
pub fn put_gains(claim: &Claim, pay: &[i128], gains: &mut [i128])
    requires pay { (length pay.now ≡ bidders_of claim.now.book.now) × AllInRange pay.now }
    requires room { bidders_of claim.now.book.now ≤ length gains.old }
    ensures room { length gains.new ≡ length gains.old }
    ensures gains { (j : ℕ) → 0 < j → j ≤ bidders_of claim.now.book.now
        → of_bidder gains.new j ≡ gain_of claim.now.book.now claim.now.den claim.now.choice.now pay.now j }
    ensures small { HasSmallWorths claim.now.book.now claim.now.den gains.new }
{
    claim.book.kept();
    put_each(claim.book, claim.den, claim.choice, pay, gains);
}

/// Puts the gain of each bidder, if all products are small.
fn put_each(book: &BidBook, den: i128, choice: &[u16], pay: &[i128], gains: &mut [i128])
    requires lower { CanLower book.now den choice.now pay.now }
    requires room { bidders_of book.now ≤ length gains.old }
    ensures room { length gains.new ≡ length gains.old }
    ensures gains { (j : ℕ) → 0 < j → j ≤ bidders_of book.now
        → of_bidder gains.new j ≡ gain_of book.now den choice.now pay.now j }
{
    for k in 0..book.bidders() {
        gains[k] = gain(book, den, choice, pay, k as u16 + 1);
    }
}
