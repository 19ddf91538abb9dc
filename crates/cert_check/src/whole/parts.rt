// The parts of a certificate without a winner.
ghost use Rattle.std.specs.Prelude.{◌≡◌, ◌↔◌, ℕ, List, ◌<◌, ◌≤◌, length, map, IsTrue};
ghost use Rattle.auction_model.specs.Book.{market_of};
ghost use Rattle.auction_model.specs.Market.{uses, value_of};
ghost use Rattle.cert_grammar.specs.Certificate.{CertValue, part_of};
ghost use Rattle.cert_grammar.specs.CertText.{AreWithouts, IsTable};
ghost use Rattle.cert_soundness.specs.Tests.{C4, IsPart, bidders_of, states};
ghost use Rattle.cert_text.specs.Parts.{without_value};
ghost use Rattle.cert_check.specs.Fields.{AreValuesWithout, worth_without};
ghost use Rattle.cert_check.specs.Places.{IsFirstFailing};

use crate::claim::Claim;
use crate::judging::is_allowed_without;
use crate::tables::BIDDER_ROOM;
use crate::whole::grids::table_test;
use bid_book::BidBook;
use cert_text::WithoutPart;
use choices::value_among;
use table_check::TestedBids;

/// Whether a part shows the best choice without bidder `j`.
fn shows_best(book: &BidBook, part: &WithoutPart, j: u16) -> bool
    requires bidder { (0 < j) × (j ≤ bidders_of book.now) }
    requires choice { length part.now.choice ≡ bidders_of book.now }
    requires table { IsTable (bidders_of book.now) (states book.now) part.now.table }
    ensures { IsTrue result ↔ IsPart book.now j (without_value part.now) }
{
    book.kept();
    let choice = part.choice.numbers();
    if !is_allowed_without(book, choice, j) {
        return false;
    }
    let most = value_among(book, choice);
    let gains = [0i128; BIDDER_ROOM];
    let offers = TestedBids {
        book,
        skip: j,
        den: 1,
        gains: &gains,
    };
    table_test(&offers, &part.table, most).is_none()
}

/// Whether the part without bidder `j` shows the best choice without it.
fn has_part(book: &BidBook, parts: &[WithoutPart], j: u16) -> bool
    requires bidder { (0 < j) × (j ≤ bidders_of book.now) }
    requires parts { (numbers : List ℕ)
        × AreWithouts (bidders_of book.now) (states book.now) 1 numbers (map without_value parts.now) }
    ensures { IsTrue result ↔ IsPart book.now j (part_of (map without_value parts.now) j) }
{
    for part in parts {
        if part.winner == j {
            return shows_best(book, part, j);
        }
    }
    false
}

/// The first winner whose part doesn't show the best choice without it: its choice isn't known, uses the winner or doesn't fit,
/// or its table breaks a rule or has more for the whole supply.
pub(crate) fn parts_test(claim: &Claim, parts: &[WithoutPart]) -> Option<u64>
    requires parts { (numbers : List ℕ)
        × AreWithouts (bidders_of claim.now.book.now) (states claim.now.book.now) 1 numbers
        (map without_value parts.now) }
    ensures { (c : CertValue) → c.choice ≡ claim.now.choice.now → c.withouts ≡ map without_value parts.now
        → IsFirstFailing (C4 claim.now.book.now c) result }
{
    for k in 0..claim.book.bidders() {
        let j = k as u16 + 1;
        if claim.number(j) != 0 && !has_part(claim.book, parts, j) {
            return Some(j as u64);
        }
    }
    None
}

/// Writes the value of the choice without each winner, bidder by bidder from the first number on, and 0 for a loser.
pub(crate) fn put_values(claim: &Claim, parts: &[WithoutPart], values: &mut [i128])
    requires parts { (j : ℕ) → 0 < j → j ≤ bidders_of claim.now.book.now → IsTrue (uses claim.now.choice.now j)
        → IsPart claim.now.book.now j (part_of (map without_value parts.now) j) }
    requires room { bidders_of claim.now.book.now ≤ length values.old }
    ensures room { length values.new ≡ length values.old }
    ensures values { AreValuesWithout claim.now.book.now claim.now.choice.now (map without_value parts.now) values.new }
{
    for k in 0..claim.book.bidders() {
        values[k] = part_value(claim, parts, k as u16 + 1);
    }
}

/// The value of the choice without bidder `j`, and 0 if it loses.
fn part_value(claim: &Claim, parts: &[WithoutPart], j: u16) -> i128
    requires parts { (i : ℕ) → 0 < i → i ≤ bidders_of claim.now.book.now → IsTrue (uses claim.now.choice.now i)
        → IsPart claim.now.book.now i (part_of (map without_value parts.now) i) }
    requires bidder { (0 < j) × (j ≤ bidders_of claim.now.book.now) }
    ensures { result ≡ worth_without claim.now.book.now claim.now.choice.now (map without_value parts.now) j }
{
    if claim.number(j) == 0 {
        return 0;
    }
    found_value(claim.book, parts, j)
}

/// The value of the choice of the part without winner `j`.
fn found_value(book: &BidBook, parts: &[WithoutPart], j: u16) -> i128
    requires { IsPart book.now j (part_of (map without_value parts.now) j) }
    ensures { result ≡ value_of (market_of book.now) (part_of (map without_value parts.now) j).choice }
{
    for part in parts {
        if part.winner == j {
            return value_among(book, part.choice.numbers());
        }
    }
    0
}
