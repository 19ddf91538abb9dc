// What each line shows.
ghost use Rattle.std.specs.Prelude.{◌≡◌};
ghost use Rattle.stream_check.specs.Moments.{IsPossible, Shows};
ghost use Rattle.stream_check.specs.Tests.{IsPlain};

mod claims;
mod finding;
mod heads;
mod parts;
mod rows;
mod rules;
mod tables;

use crate::judging::claims::{ClaimLine, claim_line};
use crate::judging::finding::Finding;
use crate::judging::heads::{choice_line, value_line};
use crate::judging::parts::{part_choice, part_line};
use crate::judging::tables::head_line;
use crate::moment::LineContext;
use cert_stream::{NextLine, Table};

/// What a line shows.
pub(crate) fn judged(at: &LineContext) -> Finding
    requires { IsPossible at.now }
    ensures { Shows at.now result }
{
    match at.due {
        NextLine::Value => value_line(at),
        NextLine::Choice => choice_line(at),
        NextLine::Entries(table, k) => table_line(at, table, k),
        NextLine::PartChoice(j) => part_choice(at, j),
        NextLine::Payments => claim_line(at, ClaimLine::Payments),
        NextLine::Rows => claim_line(at, ClaimLine::Rows),
        NextLine::RowChoice(left) => claim_line(at, ClaimLine::Row(left)),
        _ => no_finding(at),
    }
}

/// What a line of a table shows.
fn table_line(at: &LineContext, table: Table, k: u16) -> Finding
    requires due { at.now.due ≡ NextLine.Entries table k }
    requires some { IsPossible at.now }
    ensures { Shows at.now result }
{
    match table {
        Table::Head => head_line(at, k),
        Table::Part(j) => part_line(at, j, k),
        Table::Lowered => claim_line(at, ClaimLine::Lowered(k)),
    }
}

/// A line that no test waits for.
fn no_finding(at: &LineContext) -> Finding
    requires { IsPlain at.now.due }
    ensures { Shows at.now result }
{
    Finding::of(None)
}
