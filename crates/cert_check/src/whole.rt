//! `check`: the nine tests over a certificate in memory.
ghost use Rattle.std.specs.Prelude.{◌≡◌, ◌<◌, ◌≤◌, ℕ};
ghost use Rattle.cert_check.specs.Fields.{IsOf};
ghost use Rattle.cert_check.specs.Head.{HoldsUpTo};
ghost use Rattle.cert_check.specs.Places.{IsFirstFailing};
ghost use Rattle.cert_check.specs.Verdicts.{IsVerdict};
ghost use Rattle.auction_model.specs.Prices.{AreWeights, weight_of};
ghost use Rattle.cert_soundness.specs.Sound.{IsSound};
ghost use Rattle.cert_soundness.specs.Tests.{Asks, C4, C7, C8, bidders_of, states};
ghost use Rattle.cert_text.specs.CertValues.{IsFor, cert_value};

mod columns;
mod earlier;
mod grids;
mod parts;
mod rows;
mod tables;

use crate::Verdict;
use crate::choice::choice_test;
use crate::claim::Claim;
use crate::columns::MultiplierColumn;
use crate::multipliers::{first_test, second_test};
use crate::payments::payments_test;
use crate::sizes::sizes_test;
use crate::sums::Multiplier;
use crate::tables::BIDDER_ROOM;
use crate::whole::columns::{put_multipliers, put_sums};
use crate::whole::parts::{parts_test, put_values};
use crate::whole::rows::rows_test;
use crate::whole::tables::{lowered_test, value_test};
use bid_book::BidBook;
use cert_soundness::sound_yes;
use cert_text::Certificate;
use limits::MOST_ROWS;

/// Tests a certificate of a book.
///
/// `Yes` is returned exactly if all nine tests pass, and then the choice is the winning one, and with the payments it is the
/// core outcome for these weights. Else the result is the first test that fails, with the first place where it does. There is
/// one weight of 1 to 20 for each bidder, and the certificate is for as many bidders and states as the book has. It takes no
/// memory.
pub fn check(book: &BidBook, cert: &Certificate, weights: &[u32]) -> Verdict
    requires shape { IsFor (bidders_of book.now) (states book.now) cert.now }
    requires weights { AreWeights (bidders_of book.now) weights.now }
    ensures verdict { IsVerdict book.now (weight_of weights.now) (cert_value cert.now) result }
    ensures sound { result ≡ Verdict.Yes → IsSound book.now (weight_of weights.now) (cert_value cert.now) }
{
    sound_yes();
    for test in 1..10 {
        if let Some(place) = first_failing(book, cert, weights, test) {
            return Verdict::No { test, place };
        }
    }
    Verdict::Yes
}

/// The first place where a test of 1 to 9 fails, once the tests before it pass.
fn first_failing(book: &BidBook, cert: &Certificate, weights: &[u32], test: u8) -> Option<u64>
    requires shape { IsFor (bidders_of book.now) (states book.now) cert.now }
    requires weights { AreWeights (bidders_of book.now) weights.now }
    requires test { (0 < test) × (test ≤ 9) }
    requires before { HoldsUpTo book.now (weight_of weights.now) (cert_value cert.now) test }
    ensures { IsFirstFailing (Asks book.now (weight_of weights.now) (cert_value cert.now) test) result }
{
    match test {
        1 => sizes_test(cert.den, cert.value),
        2 => choice_test(book, cert.choice.numbers(), cert.value),
        3 => value_test(book, cert.choice.numbers(), cert.value, &cert.table),
        _ => claim_failing(book, cert, weights, test),
    }
}

/// The place where a test after the third fails.
fn claim_failing(book: &BidBook, cert: &Certificate, weights: &[u32], test: u8) -> Option<u64>
    requires shape { IsFor (bidders_of book.now) (states book.now) cert.now }
    requires weights { AreWeights (bidders_of book.now) weights.now }
    requires test { (4 ≤ test) × (test ≤ 9) }
    requires before { HoldsUpTo book.now (weight_of weights.now) (cert_value cert.now) test }
    ensures { IsFirstFailing (Asks book.now (weight_of weights.now) (cert_value cert.now) test) result }
{
    book.kept();
    let claim = Claim {
        book,
        den: cert.den,
        value: cert.value,
        choice: cert.choice.numbers(),
    };
    later_failing(&claim, cert, weights, test)
}

/// The place where a test after the third fails, for the claim of the certificate.
fn later_failing(claim: &Claim, cert: &Certificate, weights: &[u32], test: u8) -> Option<u64>
    requires shape { IsFor (bidders_of claim.now.book.now) (states claim.now.book.now) cert.now }
    requires claim { IsOf claim.now (cert_value cert.now) }
    requires weights { AreWeights (bidders_of claim.now.book.now) weights.now }
    requires test { (4 ≤ test) × (test ≤ 9) }
    requires before { HoldsUpTo claim.now.book.now (weight_of weights.now) (cert_value cert.now) test }
    ensures { IsFirstFailing (Asks claim.now.book.now (weight_of weights.now) (cert_value cert.now) test) result }
{
    let pay = cert.pay.items();
    let rows = cert.rows.items();
    match test {
        4 => parts_test(claim, cert.withouts.items()),
        5 => payments_test(claim, pay),
        6 => rows_test(claim, pay, rows),
        7 => least_failing(claim, cert),
        8 => nearest_failing(claim, cert, weights),
        _ => lowered_test(claim, pay, &cert.lowered),
    }
}

/// The first place where C7 fails.
fn least_failing(claim: &Claim, cert: &Certificate) -> Option<u64>
    requires shape { IsFor (bidders_of claim.now.book.now) (states claim.now.book.now) cert.now }
    requires claim { IsOf claim.now (cert_value cert.now) }
    ensures { IsFirstFailing (C7 claim.now.book.now (cert_value cert.now)) result }
{
    claim.book.kept();
    let rows = cert.rows.items();
    let mut numbers = [0i128; MOST_ROWS];
    let mut sums = [0i128; BIDDER_ROOM];
    let firsts = &mut numbers[..rows.len()];
    put_multipliers(rows, Multiplier::First, firsts);
    put_sums(rows, Multiplier::First, &mut sums);
    let first = MultiplierColumn {
        numbers: firsts,
        sums: &sums,
    };
    first_test(claim, &first)
}

/// The first place where C8 fails.
fn nearest_failing(claim: &Claim, cert: &Certificate, weights: &[u32]) -> Option<u64>
    requires shape { IsFor (bidders_of claim.now.book.now) (states claim.now.book.now) cert.now }
    requires claim { IsOf claim.now (cert_value cert.now) }
    requires parts { (place : ℕ) → C4 claim.now.book.now (cert_value cert.now) place }
    requires weights { AreWeights (bidders_of claim.now.book.now) weights.now }
    ensures { IsFirstFailing (C8 claim.now.book.now (weight_of weights.now) (cert_value cert.now)) result }
{
    claim.book.kept();
    let pay = cert.pay.items();
    let parts = cert.withouts.items();
    let rows = cert.rows.items();
    let mut values = [0i128; BIDDER_ROOM];
    put_values(claim, parts, &mut values);
    let mut first_room = [0i128; MOST_ROWS];
    let mut second_room = [0i128; MOST_ROWS];
    let mut sums = [0i128; BIDDER_ROOM];
    let firsts = &mut first_room[..rows.len()];
    let seconds = &mut second_room[..rows.len()];
    put_multipliers(rows, Multiplier::First, firsts);
    put_multipliers(rows, Multiplier::Second, seconds);
    put_sums(rows, Multiplier::Second, &mut sums);
    let second = MultiplierColumn {
        numbers: seconds,
        sums: &sums,
    };
    second_test(claim, pay, &values, firsts, &second, weights)
}
