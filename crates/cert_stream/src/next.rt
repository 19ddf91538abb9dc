// Which line comes after a line.
ghost use Rattle.std.specs.Prelude.{◌≡◌, ◌≤◌, ◌<◌, ℕ, List, [], ◌∷◌, ◌++◌, length, ℤ, pos, IsTrue, ◌↔◌, ◌⊎◌};
ghost use Rattle.cert_grammar.specs.Certificate.{CertValue};
ghost use Rattle.cert_grammar.specs.CertText.{IsCertificate, as_numbers};
ghost use Rattle.cert_grammar.specs.Lines.{FitNumbers, rows_plan};
ghost use Rattle.cert_stream.specs.LinesLeft.{lines_left, parts_left, table_left, rows_left, HasPart, HasDue, ComesNext, AreLeft, Leads};
ghost use Rattle.cert_stream.specs.Dues.{Follows, IsDue, IsKnown, numbers_due, plan_due, from_part, after_table, IsTableOf};
ghost use Rattle.cert_text.specs.StagePlans.{closing_plan};
ghost use Rattle.cert_stream.specs.Order.{ComesBehind, IsPartNext, IsRowNext, IsTableNext};

use crate::due::{NextLine, Table};
use cert_text::{Shape, has_first_version};
use limits::MOST_ROWS;

/// The line after one of the line that was due, for the head's choice and the first of the line's numbers.
pub(crate) fn next(due: NextLine, shape: Shape, choice: &[i128], first: i128) -> NextLine
    requires choice { length choice.now ≡ shape.bidders }
    requires due { IsDue shape.bidders due }
    requires numbers { (ns : List ℤ) × FitNumbers (numbers_due shape.bidders shape.states due) ns
        × IsKnown due ns choice.now first }
    ensures next { (ns : List ℤ) → FitNumbers (numbers_due shape.bidders shape.states due) ns
        → IsKnown due ns choice.now first → Follows shape.bidders shape.states choice.now due ns result }
    ensures due { IsDue shape.bidders result }
    ensures order { ComesBehind shape.bidders choice.now first due result }
    ensures left { (due ≡ NextLine.Nothing → ⊥) → Leads shape.bidders shape.states due choice.now first result }
{
    match due {
        NextLine::Version => next_version(shape),
        NextLine::Limits => NextLine::Den,
        NextLine::Den => NextLine::Value,
        NextLine::Value => NextLine::Choice,
        NextLine::Choice => NextLine::Title(Table::Head),
        NextLine::Title(table) => NextLine::Entries(table, 0),
        NextLine::Entries(table, k) => next_entries(shape, choice, table, k),
        NextLine::Without(j) => NextLine::PartChoice(j),
        NextLine::PartChoice(j) => NextLine::Title(Table::Part(j)),
        NextLine::Payments => NextLine::Rows,
        NextLine::Rows => next_rows(shape, choice, row_count(first)),
        NextLine::Members(left) => NextLine::Multipliers(left),
        NextLine::Multipliers(left) => NextLine::RowChoice(left),
        NextLine::RowChoice(left) => next_rows(shape, choice, left - 1),
        NextLine::End => NextLine::Nothing,
        NextLine::Nothing => NextLine::Nothing,
    }
}

/// After the version its limits are due, or else the denominator.
fn next_version(shape: Shape) -> NextLine
    ensures next { (choice ns : List ℤ) → Follows shape.bidders shape.states choice NextLine.Version ns result }
    ensures due { IsDue shape.bidders result }
    ensures order { (result ≡ NextLine.Den) ⊎ (result ≡ NextLine.Limits) }
    ensures left { (c : CertValue) → IsCertificate shape.bidders shape.states c
        → ComesNext shape.bidders shape.states c NextLine.Version result }
{
    if has_first_version(shape.bidders as usize, shape.states as usize) {
        NextLine::Den
    } else {
        NextLine::Limits
    }
}

/// A count of rows, and 0 if the number is none.
fn row_count(number: i128) -> u16
    ensures { (r : ℕ) → number ≡ pos r → r ≤ 10 → result ≡ r }
{
    if number < 0 || number > MOST_ROWS as i128 {
        0
    } else {
        number as u16
    }
}

fn next_entries(shape: Shape, choice: &[i128], table: Table, k: u16) -> NextLine
    requires choice { length choice.now ≡ shape.bidders }
    requires table { IsTableOf shape.bidders table }
    requires lines { k ≤ shape.bidders }
    ensures next { (ns : List ℤ) → Follows shape.bidders shape.states choice.now (NextLine.Entries table k) ns result }
    ensures due { IsDue shape.bidders result }
    ensures order { ComesBehind shape.bidders choice.now (pos 0) (NextLine.Entries table k) result }
    ensures left { (c : CertValue) → IsCertificate shape.bidders shape.states c → choice.now ≡ as_numbers c.choice
        → HasPart shape.bidders shape.states c table
        → ComesNext shape.bidders shape.states c (NextLine.Entries table k) result }
{
    if k < shape.bidders {
        return NextLine::Entries(table, k + 1);
    }
    after_table_line(shape, choice, table)
}

/// The first line after the parts of the first `from` bidders: the next part's line, or the payments.
fn next_part(shape: Shape, choice: &[i128], from: u16) -> NextLine
    requires from { from ≤ shape.bidders }
    requires choice { length choice.now ≡ shape.bidders }
    ensures plan { from_part shape.bidders shape.states choice.now from
        ≡ plan_due shape.bidders shape.states choice.now result }
    ensures due { IsDue shape.bidders result }
    ensures order { IsPartNext shape.bidders choice.now from result }
    ensures left { AreLeft shape.bidders shape.states choice.now (λ c. parts_left c from) result }
{
    for k in from..shape.bidders {
        if !is_zero(choice[k as usize]) {
            return NextLine::Without(k + 1);
        }
    }
    NextLine::Payments
}

fn is_zero(number: i128) -> bool
    ensures { IsTrue result ↔ (number ≡ pos 0) }
{
    number == 0
}

fn after_table_line(shape: Shape, choice: &[i128], table: Table) -> NextLine
    requires choice { length choice.now ≡ shape.bidders }
    requires table { IsTableOf shape.bidders table }
    ensures plan { after_table shape.bidders shape.states choice.now table
        ≡ plan_due shape.bidders shape.states choice.now result }
    ensures due { IsDue shape.bidders result }
    ensures order { IsTableNext shape.bidders choice.now table result }
    ensures left { AreLeft shape.bidders shape.states choice.now (λ c. table_left c table) result }
{
    match table {
        Table::Head => next_part(shape, choice, 0),
        Table::Part(j) => next_part(shape, choice, j),
        Table::Lowered => NextLine::End,
    }
}

fn next_rows(shape: Shape, choice: &[i128], left: u16) -> NextLine
    requires { 0 < left → 0 < shape.bidders }
    ensures plan { rows_plan shape.bidders left ++ closing_plan shape.bidders shape.states
        ≡ plan_due shape.bidders shape.states choice.now result }
    ensures due { IsDue shape.bidders result }
    ensures order { IsRowNext left result }
    ensures left { (c : CertValue) → IsCertificate shape.bidders shape.states c → left ≤ length c.rows
        → (rows_left c left ≡ lines_left shape.bidders shape.states c result)
        × HasDue shape.bidders shape.states c result }
{
    if left == 0 {
        NextLine::Title(Table::Lowered)
    } else {
        NextLine::Members(left)
    }
}
