// What is kept outside the room.
ghost use Rattle.std.specs.Prelude.{◌≡◌, ◌⊎◌, ℕ};
ghost use Rattle.cert_stream.specs.LinesLeft.{row_at};
ghost use Rattle.cert_grammar.specs.Certificate.{CertValue};
ghost use Rattle.cert_soundness.specs.Tests.{bidders_of, states};
ghost use Rattle.cert_stream.specs.declared.due.NextLine.{NextLine};
ghost use Rattle.stream_check.specs.InRoom.{HasMembers};
ghost use Rattle.stream_check.specs.Lines.{IsNext};
ghost use Rattle.stream_check.specs.Moments.{IsAt, IsPossible};
ghost use Rattle.stream_check.specs.Totals.{HasTotals};

use crate::moment::LineContext;
use crate::room::{BidderNumbers, numbers_in};
use crate::row_totals::{RowTotals, with_row};
use cert_stream::NextLine;

/// How many members the row has that is read, after a line.
pub(crate) fn members_after(at: &LineContext) -> usize
    ensures { (c : CertValue) (next : NextLine) → IsAt at.now c → IsNext at.now.book.now c at.now.due next
        → HasMembers (bidders_of at.now.book.now) (states at.now.book.now) c next result at.now.room.now }
{
    match at.due {
        NextLine::Members(_) => at.count,
        _ => at.members,
    }
}

/// The totals of the rows, after a line.
pub(crate) fn totals_after(at: &LineContext) -> RowTotals
    requires { IsPossible at.now }
    ensures { (c : CertValue) (next : NextLine) → IsAt at.now c → IsNext at.now.book.now c at.now.due next
        → HasTotals c next result }
{
    match at.due {
        NextLine::Multipliers(left) => one_more(at, left),
        _ => *at.totals,
    }
}

/// The totals with the row whose multipliers have come.
fn one_more(at: &LineContext, left: u16) -> RowTotals
    requires due { at.now.due ≡ NextLine.Multipliers left }
    requires some { IsPossible at.now }
    ensures { (c : CertValue) (next : NextLine) → IsAt at.now c → IsNext at.now.book.now c at.now.due next
        → HasTotals c next result }
{
    let pair = numbers_in(at.book, NextLine::Multipliers(left), at.room);
    let members = members_in(at, left);
    with_row(*at.totals, members.as_slice(), pair[0], pair[1])
}

/// The members of the row that is read.
pub(crate) fn members_in(at: &LineContext, left: u16) -> BidderNumbers
    requires due { (at.now.due ≡ NextLine.Multipliers left) ⊎ (at.now.due ≡ NextLine.RowChoice left) }
    requires some { IsPossible at.now }
    ensures { (c : CertValue) → IsAt at.now c → result ≡ (row_at c left).members }
{
    at.book.kept();
    let in_room = numbers_in(at.book, NextLine::Members(left), at.room);
    let count = at.members.min(in_room.len());
    BidderNumbers::of(&in_room[..count])
}
