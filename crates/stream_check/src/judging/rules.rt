// The rules of a table, two lines at a time.
ghost use Rattle.std.specs.Prelude.{◌≡◌, ◌≤◌, ◌<◌, ◌+◌, ◌-◌, ◌*◌, ◌^◌, ℕ, suc, Some, None, List, [], length, slice_index_or, IsTrue, ℤ};
ghost use Rattle.cert_grammar.specs.CertText.{IsTable};
ghost use Rattle.cert_soundness.specs.Tests.{bidders_of, states};
ghost use Rattle.table_check.specs.Growth.{Grows};
ghost use Rattle.table_check.specs.LineTests.{RulesAt};
ghost use Rattle.cert_stream.specs.Dues.{IsTableOf};
ghost use Rattle.cert_stream.specs.Rooms.{room_size, segment};
ghost use Rattle.stream_check.specs.Rules.{IsFirstBetween, HasTwoLines, lines_tested};

use crate::room::numbers_in;
use cert_check::{TestedBids, last_line_fault, two_lines_found};
use cert_stream::{NextLine, Table};

/// What a line of a table shows of the rules.
#[derive(Clone, Copy)]
pub(crate) struct RulesFound {
    /// The first number of a line and a place in it with a broken rule, as far as the line shows it.
    pub(crate) fault: Option<u64>,
    /// Whether it is seen that the line never falls where more is left.
    pub(crate) grows: bool,
}

/// What line `k` shows: the line before it is tested with it, and it is tested on its own if it is the last. If `known` says
/// so, the line before it was seen never to fall when it came.
pub(crate) fn rules_found(
    offers: &TestedBids,
    table: Table,
    k: u16,
    room: &[i128],
    known: bool,
) -> RulesFound
    requires table { IsTableOf (bidders_of offers.now.book.now) table }
    requires line { k ≤ bidders_of offers.now.book.now }
    requires room { length room.now ≡ room_size (bidders_of offers.now.book.now) (states offers.now.book.now) }
    requires lines { (t : List (List ℤ)) × HasTwoLines offers.now.book.now table k room.now t }
    requires known { 0 < k → IsTrue known → Grows offers.now.book.now.supply
        (segment (bidders_of offers.now.book.now) (states offers.now.book.now) (NextLine.Entries table (k - 1)) room.now) }
    ensures fault { (t : List (List ℤ)) → HasTwoLines offers.now.book.now table k room.now t
        → IsFirstBetween (RulesAt offers.now t) ((k - 1) * states offers.now.book.now)
        (lines_tested (bidders_of offers.now.book.now) k * states offers.now.book.now) result.fault }
    ensures grows { IsTrue result.grows → Grows offers.now.book.now.supply
        (segment (bidders_of offers.now.book.now) (states offers.now.book.now) (NextLine.Entries table k) room.now) }
{
    let before = before_found(offers, table, k, room, known);
    match before.fault {
        Some(place) => RulesFound {
            fault: Some(place),
            grows: before.grows,
        },
        None => RulesFound {
            fault: last_line_place(offers, table, k, room),
            grows: before.grows,
        },
    }
}

/// The first failure of the rules of only the line before line `k`.
fn before_found(offers: &TestedBids, table: Table, k: u16, room: &[i128], known: bool) -> RulesFound
    requires table { IsTableOf (bidders_of offers.now.book.now) table }
    requires line { k ≤ bidders_of offers.now.book.now }
    requires room { length room.now ≡ room_size (bidders_of offers.now.book.now) (states offers.now.book.now) }
    requires lines { (t : List (List ℤ)) × HasTwoLines offers.now.book.now table k room.now t }
    requires known { 0 < k → IsTrue known → Grows offers.now.book.now.supply
        (segment (bidders_of offers.now.book.now) (states offers.now.book.now) (NextLine.Entries table (k - 1)) room.now) }
    ensures fault { (t : List (List ℤ)) → HasTwoLines offers.now.book.now table k room.now t
        → IsFirstBetween (RulesAt offers.now t) ((k - 1) * states offers.now.book.now)
        (k * states offers.now.book.now) result.fault }
    ensures grows { IsTrue result.grows → Grows offers.now.book.now.supply
        (segment (bidders_of offers.now.book.now) (states offers.now.book.now) (NextLine.Entries table k) room.now) }
{
    if k == 0 {
        return RulesFound {
            fault: None,
            grows: false,
        };
    }
    let before = numbers_in(offers.book, NextLine::Entries(table, k - 1), room);
    let line = numbers_in(offers.book, NextLine::Entries(table, k), room);
    let found = two_lines_found(offers, k - 1, before, line, known);
    RulesFound {
        fault: place_of(k - 1, found.place, offers.book.supply().states()),
        grows: found.below_grows,
    }
}

/// The first of line `k` itself, if it is the last.
fn last_line_place(offers: &TestedBids, table: Table, k: u16, room: &[i128]) -> Option<u64>
    requires table { IsTableOf (bidders_of offers.now.book.now) table }
    requires line { k ≤ bidders_of offers.now.book.now }
    requires room { length room.now ≡ room_size (bidders_of offers.now.book.now) (states offers.now.book.now) }
    requires lines { (t : List (List ℤ)) × HasTwoLines offers.now.book.now table k room.now t }
    ensures { (t : List (List ℤ)) → HasTwoLines offers.now.book.now table k room.now t
        → IsFirstBetween (RulesAt offers.now t) (k * states offers.now.book.now)
        (lines_tested (bidders_of offers.now.book.now) k * states offers.now.book.now) result }
{
    if (k as usize) < offers.book.bidders() {
        return None;
    }
    let line = numbers_in(offers.book, NextLine::Entries(table, k), room);
    let fault = last_line_fault(offers, line);
    place_of(k, fault, offers.book.supply().states())
}

/// The number of a line and a place in it, if it is one of the line's.
fn place_of(k: u16, fault: usize, states: usize) -> Option<u64>
    requires states { states ≤ 16384 }
    ensures fault { fault < states → result ≡ Some (k * states + fault) }
    ensures none { states ≤ fault → result ≡ None }
{
    if fault < states {
        Some((k as usize * states + fault) as u64)
    } else {
        None
    }
}
