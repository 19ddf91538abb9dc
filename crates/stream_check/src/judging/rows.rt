// The rows.
ghost use Rattle.std.specs.Prelude.{◌≡◌, ◌≤◌, ◌<◌, ◌+◌, ◌-◌, ◌↔◌, ℕ, IsTrue, length, take, pos};
ghost use Rattle.auction_model.specs.Prices.{weight_of};
ghost use Rattle.cert_grammar.specs.Certificate.{CertValue};
ghost use Rattle.cert_soundness.specs.Tests.{Asks, IsTightRow, bidders_of};
ghost use Rattle.cert_check.specs.Places.{IsFirstFailing};
ghost use Rattle.cert_check.specs.Fields.{AreValuesWithout, worth_without};
ghost use Rattle.cert_check.specs.Partway.{HoldsTo, IsJudged};
ghost use Rattle.cert_stream.specs.LinesLeft.{row_at};
ghost use Rattle.stream_check.specs.Moments.{HasAllRows, IsAt, IsPossible, IsClaimOf, Shows};
ghost use Rattle.stream_check.specs.Totals.{AreTotals};

use crate::judging::finding::Finding;
use crate::kept::members_in;
use crate::moment::LineContext;
use crate::room::{choice_in, number_in, numbers_in};
use cert_check::{
    BIDDER_ROOM, Claim, Failure, MultiplierColumn, failure_of, first_test, row_holds, second_test,
};
use cert_stream::NextLine;
use choices::value_among;

/// What the count of rows shows: if there is none, the tests of the multipliers.
pub(crate) fn rows_line(at: &LineContext, claim: &Claim) -> Finding
    requires due { at.now.due ≡ NextLine.Rows }
    requires some { IsPossible at.now }
    requires claim { IsClaimOf at.now claim.now }
    ensures { Shows at.now result }
{
    if !is_zero(number_in(at.book, NextLine::Rows, at.room)) {
        return Finding::of(None);
    }
    Finding::of(last_tests(at, claim))
}

/// What the choice of a row shows, with that many rows to come, itself included: the sixth test of this row, and after the last
/// row the tests of the multipliers.
pub(crate) fn row_line(at: &LineContext, claim: &Claim, left: u16) -> Finding
    requires due { at.now.due ≡ NextLine.RowChoice left }
    requires some { IsPossible at.now }
    requires claim { IsClaimOf at.now claim.now }
    ensures { Shows at.now result }
{
    if !keeps_row(at, claim, left) {
        return Finding::of(Some(Failure {
            test: 6,
            place: at.totals.count as u64,
        }));
    }
    if left != 1 {
        return Finding::of(None);
    }
    Finding::of(last_tests(at, claim))
}

/// Whether the row that has come is one that the payments meet.
fn keeps_row(at: &LineContext, claim: &Claim, left: u16) -> bool
    requires due { at.now.due ≡ NextLine.RowChoice left }
    requires some { IsPossible at.now }
    requires claim { IsClaimOf at.now claim.now }
    ensures { (c : CertValue) → IsAt at.now c → IsTrue result ↔ IsTightRow at.now.book.now c (row_at c left) }
{
    let pay = numbers_in(at.book, NextLine::Payments, at.room);
    let choice = choice_in(at.book, NextLine::RowChoice(left), at.room);
    let members = members_in(at, left);
    row_holds(claim, pay, members.as_slice(), choice.as_slice())
}

/// What fails first of the tests of the multipliers, the seventh and the eighth.
fn last_tests(at: &LineContext, claim: &Claim) -> Option<Failure>
    requires some { IsPossible at.now }
    requires claim { IsClaimOf at.now claim.now }
    requires rows { HasAllRows at.now }
    ensures { (c : CertValue) → IsAt at.now c → HoldsTo at.now.book.now (weight_of at.now.weights.now) c 7 0
        → IsJudged at.now.book.now (weight_of at.now.weights.now) c 9 0 result }
{
    at.book.kept();
    let first = MultiplierColumn {
        numbers: &at.totals.firsts[..at.totals.count],
        sums: &at.totals.first_sums,
    };
    match failure_of(7, first_test(claim, &first)) {
        Some(failure) => Some(failure),
        None => failure_of(8, nearest(at, claim)),
    }
}

/// The first place where the eighth test fails.
fn nearest(at: &LineContext, claim: &Claim) -> Option<u64>
    requires some { IsPossible at.now }
    requires claim { IsClaimOf at.now claim.now }
    requires rows { HasAllRows at.now }
    ensures { (c : CertValue) → IsAt at.now c
        → IsFirstFailing (Asks at.now.book.now (weight_of at.now.weights.now) c 8) result }
{
    at.book.kept();
    let values = part_values(at, claim);
    let pay = numbers_in(at.book, NextLine::Payments, at.room);
    let second = MultiplierColumn {
        numbers: &at.totals.seconds[..at.totals.count],
        sums: &at.totals.second_sums,
    };
    let firsts = &at.totals.firsts[..at.totals.count];
    second_test(claim, pay, &values, firsts, &second, at.weights)
}

/// The value of the choice without each winner, bidder by bidder from the first number on, and 0 for a loser.
fn part_values(at: &LineContext, claim: &Claim) -> [i128; BIDDER_ROOM]
    requires some { IsPossible at.now }
    requires claim { IsClaimOf at.now claim.now }
    requires rows { HasAllRows at.now }
    ensures { (c : CertValue) → IsAt at.now c → AreValuesWithout at.now.book.now c.choice c.withouts result }
{
    let mut values = [0i128; BIDDER_ROOM];
    for k in 0..at.book.bidders() {
        values[k] = part_value(at, claim, k as u16 + 1);
    }
    values
}

/// The value of the choice without bidder `j`, and 0 if it loses.
fn part_value(at: &LineContext, claim: &Claim, j: u16) -> i128
    requires some { IsPossible at.now }
    requires claim { IsClaimOf at.now claim.now }
    requires rows { HasAllRows at.now }
    requires bidder { (0 < j) × (j ≤ bidders_of at.now.book.now) }
    ensures { (c : CertValue) → IsAt at.now c → result ≡ worth_without at.now.book.now c.choice c.withouts j }
{
    if claim.number(j) == 0 {
        return 0;
    }
    let choice = choice_in(at.book, NextLine::PartChoice(j), at.room);
    value_among(at.book, choice.as_slice())
}

fn is_zero(number: i128) -> bool
    ensures { IsTrue result ↔ (number ≡ pos 0) }
{
    number == 0
}
