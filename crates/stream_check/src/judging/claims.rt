// Lines whose tests need the first three: the payments, the rows and the lowered table.
ghost use Rattle.std.specs.Prelude.{◌≡◌, ◌≤◌, ◌<◌, ◌+◌, ◌*◌, ◌↔◌, ℕ, IsTrue};
ghost use Rattle.auction_model.specs.Prices.{weight_of};
ghost use Rattle.cert_grammar.specs.Certificate.{CertValue};
ghost use Rattle.cert_soundness.specs.Tests.{Asks, bidders_of, states};
ghost use Rattle.table_check.specs.Growth.{Grows};
ghost use Rattle.cert_stream.specs.Rooms.{segment};
ghost use Rattle.cert_check.specs.Partway.{IsJudged, IsLate};
ghost use Rattle.stream_check.specs.Moments.{AreLowered, IsAt, IsPossible, IsClaimOf, Shows};
ghost use Rattle.stream_check.specs.Rules.{lines_tested};
ghost use Rattle.stream_check.specs.ClaimLines.{due_of};

use crate::judging::finding::{Finding, RulesJudged};
use crate::judging::rows::{row_line, rows_line};
use crate::judging::rules::rules_found;
use crate::judging::tables::{after_entries, is_at_most};
use crate::moment::LineContext;
use crate::room::{choice_in, number_in, numbers_in};
use cert_check::{
    BIDDER_ROOM, Claim, TestedBids, failure_of, merge_early, payments_test, put_gains, sum_paid,
};
use cert_stream::{NextLine, Table};

/// A line whose tests need what the first three have shown.
#[derive(Clone, Copy)]
pub(crate) enum ClaimLine {
    /// The payments.
    Payments,
    /// The count of rows.
    Rows,
    /// The choice of a row, with that many rows to come, itself included.
    Row(u16),
    /// The line of this number of the lowered table.
    Lowered(u16),
}

/// What such a line shows.
pub(crate) fn claim_line(at: &LineContext, line: ClaimLine) -> Finding
    requires due { at.now.due ≡ due_of line }
    requires some { IsPossible at.now }
    ensures { Shows at.now result }
{
    at.book.kept();
    let choice = choice_in(at.book, NextLine::Choice, at.room);
    let claim = Claim {
        book: at.book,
        den: number_in(at.book, NextLine::Den, at.room),
        value: number_in(at.book, NextLine::Value, at.room),
        choice: choice.as_slice(),
    };
    shown(at, &claim, line)
}

/// The finding on a line, for the claim of the certificate.
fn shown(at: &LineContext, claim: &Claim, line: ClaimLine) -> Finding
    requires due { at.now.due ≡ due_of line }
    requires some { IsPossible at.now }
    requires claim { IsClaimOf at.now claim.now }
    ensures { Shows at.now result }
{
    match line {
        ClaimLine::Payments => payments_line(at, claim),
        ClaimLine::Rows => rows_line(at, claim),
        ClaimLine::Row(left) => row_line(at, claim, left),
        ClaimLine::Lowered(k) => lowered_line(at, claim, k),
    }
}

/// What the payments show: the fifth test.
fn payments_line(at: &LineContext, claim: &Claim) -> Finding
    requires due { at.now.due ≡ NextLine.Payments }
    requires some { IsPossible at.now }
    requires claim { IsClaimOf at.now claim.now }
    ensures { Shows at.now result }
{
    let pay = numbers_in(at.book, NextLine::Payments, at.room);
    Finding::of(failure_of(5, payments_test(claim, pay)))
}

/// What line `k` of the lowered table shows: the ninth test, as far as it is known then.
fn lowered_line(at: &LineContext, claim: &Claim, k: u16) -> Finding
    requires due { at.now.due ≡ NextLine.Entries Table.Lowered k }
    requires some { IsPossible at.now }
    requires claim { IsClaimOf at.now claim.now }
    ensures { Shows at.now result }
{
    at.book.kept();
    let mut gains = [0i128; BIDDER_ROOM];
    put_gains(
        claim,
        numbers_in(at.book, NextLine::Payments, at.room),
        &mut gains,
    );
    let offers = TestedBids {
        book: at.book,
        skip: 0,
        den: claim.den,
        gains: &gains,
    };
    let rules = lowered_rules(at, &offers, k);
    after_entries(at.book, 9, k, &rules, late_sum(at, k))
}

/// What line `k` of the lowered table shows of the rules.
fn lowered_rules(at: &LineContext, offers: &TestedBids, k: u16) -> RulesJudged
    requires due { at.now.due ≡ NextLine.Entries Table.Lowered k }
    requires some { IsPossible at.now }
    requires offers { AreLowered at.now offers.now }
    ensures failed { (c : CertValue) → IsAt at.now c
        → IsJudged at.now.book.now (weight_of at.now.weights.now) c 9
        (lines_tested (bidders_of at.now.book.now) k * states at.now.book.now) result.failed }
    ensures grows { IsTrue result.grows → Grows at.now.book.now.supply
        (segment (bidders_of at.now.book.now) (states at.now.book.now) (NextLine.Entries Table.Lowered k) at.now.room.now) }
{
    let found = rules_found(offers, Table::Lowered, k, at.room, at.grows);
    RulesJudged {
        failed: failure_of(9, found.fault),
        grows: found.grows,
    }
}

/// What is found early after line `k` of the lowered table: line 0 has at most the sum of the payments for the whole supply.
fn late_sum(at: &LineContext, k: u16) -> Option<u64>
    requires due { at.now.due ≡ NextLine.Entries Table.Lowered k }
    requires some { IsPossible at.now }
    ensures { (c : CertValue) → IsAt at.now c
        → IsLate at.now.book.now (weight_of at.now.weights.now) c 9
        ((bidders_of at.now.book.now + 1) * states at.now.book.now) 1 result }
{
    if k != 0 {
        return at.late;
    }
    merge_early(at.late, 0, keeps_sum(at))
}

/// Whether line 0 of the lowered table has at most the sum of the payments for the whole supply.
fn keeps_sum(at: &LineContext) -> bool
    requires due { at.now.due ≡ NextLine.Entries Table.Lowered 0 }
    requires some { IsPossible at.now }
    ensures { (c : CertValue) → IsAt at.now c
        → IsTrue result
        ↔ Asks at.now.book.now (weight_of at.now.weights.now) c 9
        ((bidders_of at.now.book.now + 1) * states at.now.book.now + 0) }
{
    at.book.kept();
    let paid = sum_paid(numbers_in(at.book, NextLine::Payments, at.room));
    let line = numbers_in(at.book, NextLine::Entries(Table::Lowered, 0), at.room);
    is_at_most(line[at.book.supply().states() - 1], paid)
}
