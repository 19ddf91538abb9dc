// The rules of a whole table.
ghost use Rattle.std.specs.Prelude.{◌≡◌, ◌+◌, ◌≤◌, ◌<◌, [], length, slice_index_or, IsTrue};
ghost use Rattle.cert_grammar.specs.CertText.{IsTable};
ghost use Rattle.cert_soundness.specs.Tests.{bidders_of, states};
ghost use Rattle.table_check.specs.Faults.{FirstFault};
ghost use Rattle.table_check.specs.Growth.{Grows};
ghost use Rattle.cert_check.specs.Places.{IsFirstFailing};
ghost use Rattle.table_check.specs.LineTests.{ObeysIn, RulesAt, TestsTable};
ghost use Rattle.choices.specs.Lines.{width_of};

use crate::tables::STATE_ROOM;
use choices::Grid;
use table_check::{LineFault, TestedBids, last_line_fault, two_lines_found};

/// What line `k` shows, which is known to grow if `known` says so.
fn rule_fault(offers: &TestedBids, table: &Grid, k: usize, known: bool) -> LineFault
    requires table { IsTable (bidders_of offers.now.book.now) (states offers.now.book.now) table.now }
    requires line { k ≤ bidders_of offers.now.book.now }
    requires known { IsTrue known → Grows offers.now.book.now.supply (slice_index_or table.now k []) }
    ensures place { FirstFault (ObeysIn offers.now table.now k) (states offers.now.book.now) result.place }
    ensures grows { IsTrue result.below_grows → Grows offers.now.book.now.supply (slice_index_or table.now (k + 1) []) }
{
    if k == offers.book.bidders() {
        return LineFault {
            place: bottom_fault(offers, table),
            below_grows: false,
        };
    }
    inner_fault(offers, table, k as u16, known)
}

/// What line `k`, which isn't the last, shows: it is known to grow if `known` says so.
fn inner_fault(offers: &TestedBids, table: &Grid, k: u16, known: bool) -> LineFault
    requires table { IsTable (bidders_of offers.now.book.now) (states offers.now.book.now) table.now }
    requires line { k < bidders_of offers.now.book.now }
    requires known { IsTrue known → Grows offers.now.book.now.supply (slice_index_or table.now k []) }
    ensures place { FirstFault (ObeysIn offers.now table.now k) (states offers.now.book.now) result.place }
    ensures grows { IsTrue result.below_grows → Grows offers.now.book.now.supply (slice_index_or table.now (k + 1) []) }
{
    let states = offers.book.supply().states();
    let mut room = [0i128; STATE_ROOM];
    let mut room_below = [0i128; STATE_ROOM];
    let line = &mut room[..states];
    let below = &mut room_below[..states];
    put_line(table, k as usize, line);
    put_line(table, k as usize + 1, below);
    two_lines_found(offers, k, line, below, known)
}

/// The first place where the last line breaks a rule, and the number of states if there is none.
fn bottom_fault(offers: &TestedBids, table: &Grid) -> usize
    requires { IsTable (bidders_of offers.now.book.now) (states offers.now.book.now) table.now }
    ensures { FirstFault (ObeysIn offers.now table.now (bidders_of offers.now.book.now)) (states offers.now.book.now) result }
{
    let states = offers.book.supply().states();
    let mut room = [0i128; STATE_ROOM];
    let line = &mut room[..states];
    put_line(table, offers.book.bidders(), line);
    last_line_fault(offers, line)
}

/// Copies a whole line of a table.
pub(crate) fn put_line(table: &Grid, k: usize, line: &mut [i128])
    requires line { k < length table.now }
    requires places { length line.old ≡ width_of table.now }
    ensures { line.new ≡ slice_index_or table.now k [] }
{
    table.kept();
    table.put_part(k, 0, line);
}

/// The first number of a line and a place in it where a table breaks a rule.
fn table_fault(offers: &TestedBids, table: &Grid) -> Option<u64>
    requires table { IsTable (bidders_of offers.now.book.now) (states offers.now.book.now) table.now }
    ensures { IsFirstFailing (RulesAt offers.now table.now) result }
{
    let states = offers.book.supply().states();
    let mut known = false;
    for k in 0..offers.book.bidders() + 1 {
        let found = rule_fault(offers, table, k, known);
        if found.place < states {
            return Some((k * states + found.place) as u64);
        }
        known = found.below_grows;
    }
    None
}

/// The first number where a table breaks a rule, or the number after all of these if line 0 has more than `most` for the
/// whole supply.
pub(crate) fn table_test(offers: &TestedBids, table: &Grid, most: i128) -> Option<u64>
    requires table { IsTable (bidders_of offers.now.book.now) (states offers.now.book.now) table.now }
    ensures { IsFirstFailing (TestsTable offers.now table.now most) result }
{
    if let Some(place) = table_fault(offers, table) {
        return Some(place);
    }
    let states = offers.book.supply().states();
    if table.entry(0, states - 1) > most {
        return Some(((offers.book.bidders() + 1) * states) as u64);
    }
    None
}
