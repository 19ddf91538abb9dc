// The lines of the head's table.
ghost use Rattle.std.specs.Prelude.{◌≡◌, ◌≤◌, ◌<◌, ◌+◌, ◌*◌, ◌↔◌, ◌≤ℤ◌, ℕ, IsTrue, None};
ghost use Rattle.auction_model.specs.Prices.{weight_of};
ghost use Rattle.cert_grammar.specs.Certificate.{CertValue};
ghost use Rattle.cert_soundness.specs.Tests.{Asks, bidders_of, states};
ghost use Rattle.table_check.specs.Growth.{Grows};
ghost use Rattle.cert_stream.specs.Rooms.{segment};
ghost use Rattle.cert_check.specs.Partway.{IsJudged, IsLate, IsSmallPlace};
ghost use Rattle.stream_check.specs.Moments.{ArePlain, IsAt, IsPossible, Shows};
ghost use Rattle.stream_check.specs.Rules.{lines_tested};

use crate::judging::finding::{Finding, RulesJudged};
use crate::judging::rules::rules_found;
use crate::moment::LineContext;
use crate::room::{choice_in, number_in, numbers_in};
use bid_book::BidBook;
use cert_check::{BIDDER_ROOM, TestedBids, after_table, failure_of, merge_early, none_earlier};
use cert_stream::{NextLine, Table};

/// What line `k` of the head's table shows: the third test, as far as it is known then.
pub(crate) fn head_line(at: &LineContext, k: u16) -> Finding
    requires due { at.now.due ≡ NextLine.Entries Table.Head k }
    requires some { IsPossible at.now }
    ensures { Shows at.now result }
{
    at.book.kept();
    let gains = [0i128; BIDDER_ROOM];
    let offers = TestedBids {
        book: at.book,
        skip: 0,
        den: 1,
        gains: &gains,
    };
    let rules = head_rules(at, &offers, k);
    let late = merge_early(at.late, k as u64, keeps_value(at, k));
    after_entries(at.book, 3, k, &rules, late)
}

/// What line `k` of the head's table shows of the rules.
fn head_rules(at: &LineContext, offers: &TestedBids, k: u16) -> RulesJudged
    requires due { at.now.due ≡ NextLine.Entries Table.Head k }
    requires some { IsPossible at.now }
    requires offers { ArePlain at.now offers.now 0 }
    ensures failed { (c : CertValue) → IsAt at.now c
        → IsJudged at.now.book.now (weight_of at.now.weights.now) c 3
        (lines_tested (bidders_of at.now.book.now) k * states at.now.book.now) result.failed }
    ensures grows { IsTrue result.grows → Grows at.now.book.now.supply
        (segment (bidders_of at.now.book.now) (states at.now.book.now) (NextLine.Entries Table.Head k) at.now.room.now) }
{
    let found = rules_found(offers, Table::Head, k, at.room, at.grows);
    RulesJudged {
        failed: failure_of(3, found.fault),
        grows: found.grows,
    }
}

/// Whether a line of the head's table keeps what is asked after the rules: line 0 that it has no more than the value for the whole
/// supply, each other line that no earlier bid of its bidder reaches the value.
fn keeps_value(at: &LineContext, k: u16) -> bool
    requires due { at.now.due ≡ NextLine.Entries Table.Head k }
    requires some { IsPossible at.now }
    ensures { (c : CertValue) → IsAt at.now c
        → IsTrue result
        ↔ Asks at.now.book.now (weight_of at.now.weights.now) c 3
        ((bidders_of at.now.book.now + 1) * states at.now.book.now + k) }
{
    let value = number_in(at.book, NextLine::Value, at.room);
    let line = numbers_in(at.book, NextLine::Entries(Table::Head, k), at.room);
    if k == 0 {
        return is_at_most(line[at.book.supply().states() - 1], value);
    }
    let choice = choice_in(at.book, NextLine::Choice, at.room);
    none_earlier(at.book, choice.as_slice(), value, line, k)
}

pub(crate) fn is_at_most(number: i128, most: i128) -> bool
    ensures { IsTrue result ↔ (number ≤ℤ most) }
{
    number <= most
}

/// What is found after line `k` of a table. After its last line what was found early counts too.
pub(crate) fn after_entries(
    book: &BidBook,
    test: u8,
    k: u16,
    rules: &RulesJudged,
    late: Option<u64>,
) -> Finding
    requires late { IsSmallPlace late }
    requires test { test < 10 }
    ensures inside { k < bidders_of book.now → (result.failed ≡ rules.now.failed) × (result.late ≡ late) }
    ensures whole { k ≡ bidders_of book.now → (w : ℕ → ℕ) (c : CertValue) (n : ℕ)
        → IsJudged book.now w c test ((bidders_of book.now + 1) * states book.now) rules.now.failed
        → IsLate book.now w c test ((bidders_of book.now + 1) * states book.now) n late
        → ((q : ℕ) → (bidders_of book.now + 1) * states book.now + n ≤ q → Asks book.now w c test q)
        → IsJudged book.now w c (test + 1) 0 result.failed }
    ensures none { k ≡ bidders_of book.now → result.late ≡ None }
    ensures grows { result.grows ≡ rules.now.grows }
{
    let bidders = book.bidders();
    if (k as usize) < bidders {
        return Finding {
            failed: rules.failed,
            late,
            grows: rules.grows,
        };
    }
    let base = (bidders + 1) * book.supply().states();
    Finding {
        failed: after_table(rules.failed, test, base as u64, late),
        late: None,
        grows: rules.grows,
    }
}
