// The parts without a winner.
ghost use Rattle.std.specs.Prelude.{◌≡◌, ◌≤◌, ◌<◌, ◌↔◌, ◌≤ℤ◌, ℕ, IsTrue, Some, None};
ghost use Rattle.cert_check.specs.declared.failure.Failure.{Failure};
ghost use Rattle.auction_model.specs.Book.{market_of};
ghost use Rattle.auction_model.specs.Market.{value_of};
ghost use Rattle.auction_model.specs.Table.{entry_at};
ghost use Rattle.cert_grammar.specs.Certificate.{CertValue, part_of};
ghost use Rattle.cert_soundness.specs.Tests.{full};
ghost use Rattle.stream_check.specs.Moments.{ArePlain, IsAt, IsPossible, Shows};

use crate::judging::finding::Finding;
use crate::judging::rules::rules_found;
use crate::judging::tables::is_at_most;
use crate::moment::LineContext;
use crate::room::{choice_in, numbers_in};
use cert_check::{BIDDER_ROOM, Failure, TestedBids, is_allowed_without};
use cert_stream::{NextLine, Table};
use choices::value_among;

/// What the choice without winner `j` shows: whether it is known, fits and uses that winner.
pub(crate) fn part_choice(at: &LineContext, j: u16) -> Finding
    requires due { at.now.due ≡ NextLine.PartChoice j }
    requires some { IsPossible at.now }
    ensures { Shows at.now result }
{
    let choice = choice_in(at.book, NextLine::PartChoice(j), at.room);
    part_found(j, is_allowed_without(at.book, choice.as_slice(), j), false)
}

/// The finding for a part: whether its line passes, and whether the line is seen never to fall.
fn part_found(j: u16, holds: bool, grows: bool) -> Finding
    ensures holds { IsTrue holds → (result.failed ≡ None) × (result.late ≡ None) }
    ensures fails { (IsTrue holds → ⊥) → (f : Failure) × (result.failed ≡ Some f) × (f.test ≡ 4) × (f.place ≡ j) }
    ensures grows { result.grows ≡ grows }
{
    if holds {
        return Finding {
            failed: None,
            late: None,
            grows,
        };
    }
    Finding {
        failed: Some(Failure {
            test: 4,
            place: j as u64,
        }),
        late: None,
        grows,
    }
}

/// What line `k` of the table without winner `j` shows: the rules, and that line 0 has no more than the choice for the whole supply.
pub(crate) fn part_line(at: &LineContext, j: u16, k: u16) -> Finding
    requires due { at.now.due ≡ NextLine.Entries (Table.Part j) k }
    requires some { IsPossible at.now }
    ensures { Shows at.now result }
{
    at.book.kept();
    let gains = [0i128; BIDDER_ROOM];
    let offers = TestedBids {
        book: at.book,
        skip: j,
        den: 1,
        gains: &gains,
    };
    part_rules(at, &offers, j, k)
}

/// The finding on a line of a part's table, for these offers.
fn part_rules(at: &LineContext, offers: &TestedBids, j: u16, k: u16) -> Finding
    requires due { at.now.due ≡ NextLine.Entries (Table.Part j) k }
    requires some { IsPossible at.now }
    requires offers { ArePlain at.now offers.now j }
    ensures { Shows at.now result }
{
    let found = rules_found(offers, Table::Part(j), k, at.room, at.grows);
    if found.fault.is_some() {
        return part_found(j, false, false);
    }
    part_found(j, keeps_top(at, j, k), found.grows)
}

/// Whether line 0 has no more than the value of the choice for the whole supply. No other line is asked.
fn keeps_top(at: &LineContext, j: u16, k: u16) -> bool
    requires due { at.now.due ≡ NextLine.Entries (Table.Part j) k }
    requires some { IsPossible at.now }
    ensures { (c : CertValue) → IsAt at.now c
        → IsTrue result
        ↔ (k ≡ 0 → entry_at (part_of c.withouts j).table 0 (full at.now.book.now)
        ≤ℤ value_of (market_of at.now.book.now) (part_of c.withouts j).choice) }
{
    if k != 0 {
        return true;
    }
    let choice = choice_in(at.book, NextLine::PartChoice(j), at.room);
    let line = numbers_in(at.book, NextLine::Entries(Table::Part(j), k), at.room);
    is_at_most(
        line[at.book.supply().states() - 1],
        value_among(at.book, choice.as_slice()),
    )
}
