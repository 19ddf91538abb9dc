// The places of the numbers of a line in the room.
ghost use Rattle.std.specs.Prelude.{◌≡◌, ◌≢◌, ◌≤◌, ◌<◌, ◌+◌, ◌^◌, ℕ, List, length, take, drop};
ghost use Rattle.cert_grammar.specs.Lines.{is_first_version};
ghost use Rattle.cert_stream.specs.Dues.{word_of, title_of, version_number, IsDue};
ghost use Rattle.cert_stream.specs.Forms.{room_for};
ghost use Rattle.cert_stream.specs.Rooms.{room_size, form_due, start_due, entries_start, rows_start, segment};
ghost use Rattle.line_format.specs.LineText.{IsLine};
ghost use Rattle.cert_stream.specs.Pieces.{between};
ghost use Rattle.cert_stream.specs.LineParts.{IsPart, ReadsOn};

use crate::due::{NextLine, Table};
use crate::line::form::Form;
use crate::line::{LinePart, LineRead, Outcome, read_line};
use cert_text::{Shape, has_first_version};
use limits::{MOST_BIDDERS, MOST_STATES};

/// How many numbers the room of a reader has.
pub fn room_len(shape: Shape) -> usize
    ensures { result ≡ room_size shape.bidders shape.states }
{
    let bidders = shape.bidders as usize;
    2 * shape.states as usize + bidders * bidders + 10 * bidders + 100
}

/// Which numbers the line has.
fn form(due: NextLine, shape: Shape) -> Form
    ensures { result ≡ form_due shape.bidders shape.states due }
{
    match due {
        NextLine::Version => Form::Just(version_number(shape)),
        NextLine::Limits => Form::Both(MOST_BIDDERS as u16, MOST_STATES as u16),
        NextLine::Den => Form::Signed(1),
        NextLine::Value => Form::Signed(1),
        NextLine::Choice => Form::Chosen(shape.bidders),
        NextLine::Title(_) => Form::Nothing,
        NextLine::Entries(_, _) => Form::Signed(shape.states as usize),
        NextLine::Without(j) => Form::Just(j),
        NextLine::PartChoice(_) => Form::Chosen(shape.bidders),
        NextLine::Payments => Form::Signed(shape.bidders as usize),
        NextLine::Rows => Form::Counted(shape.bidders),
        NextLine::Members(_) => Form::Members(shape.bidders),
        NextLine::Multipliers(_) => Form::Signed(2),
        NextLine::RowChoice(_) => Form::Chosen(shape.bidders),
        NextLine::End => Form::Nothing,
        NextLine::Nothing => Form::Nothing,
    }
}

/// The number of the version.
fn version_number(shape: Shape) -> u16
    ensures { result ≡ version_number (is_first_version shape.bidders shape.states) }
{
    if has_first_version(shape.bidders as usize, shape.states as usize) {
        1
    } else {
        2
    }
}

/// How many numbers a line has at most.
fn width(form: Form) -> usize
    ensures { result ≡ room_for form }
{
    match form {
        Form::Nothing => 0,
        Form::Just(_) => 1,
        Form::Both(_, _) => 2,
        Form::Signed(count) => count,
        Form::Chosen(bidders) => bidders as usize,
        Form::Counted(_) => 1,
        Form::Members(bidders) => bidders as usize,
    }
}

/// Where the numbers of the line begin.
fn start(due: NextLine, shape: Shape) -> usize
    requires { IsDue shape.bidders due }
    ensures { result ≡ start_due shape.bidders shape.states due }
{
    let bidders = shape.bidders as usize;
    match due {
        NextLine::Choice => 0,
        NextLine::Den => bidders + 2,
        NextLine::Value => bidders + 3,
        NextLine::Payments => bidders + 4,
        NextLine::PartChoice(j) => 2 * bidders + 4 + (j as usize - 1) * bidders,
        NextLine::Members(_) => bidders * bidders + 2 * bidders + 4,
        NextLine::RowChoice(_) => bidders * bidders + 3 * bidders + 4,
        NextLine::Entries(_, k) => entries_start(bidders, shape.states as usize, k),
        _ => bidders,
    }
}

/// Where a line of a table begins.
fn entries_start(bidders: usize, states: usize, k: u16) -> usize
    requires { (bidders < 2 ^ 16) × (states < 2 ^ 32) }
    ensures { result ≡ entries_start bidders states k }
{
    bidders * bidders + 4 * bidders + 34 + (k as usize % 2) * states
}

/// Where the numbers of the rows begin, 30 that the reader doesn't use.
pub fn rows_start(shape: Shape) -> usize
    ensures { result ≡ rows_start shape.bidders }
{
    let bidders = shape.bidders as usize;
    bidders * bidders + 4 * bidders + 4
}

/// Numbers of the room, from one place up to another.
#[derive(Clone, Copy, Debug, PartialEq, Eq)]
pub struct Span {
    /// The first of them.
    pub start: usize,
    /// The place after the last.
    pub end: usize,
}

/// The places of the numbers of a line, as many as it may have.
pub fn numbers_span(due: NextLine, shape: Shape) -> Span
    requires { IsDue shape.bidders due }
    ensures start { result.start ≡ start_due shape.bidders shape.states due }
    ensures end { result.end
        ≡ start_due shape.bidders shape.states due + room_for (form_due shape.bidders shape.states due) }
    ensures within { result.end < room_size shape.bidders shape.states }
{
    let start = start(due, shape);
    let width = width(form(due, shape));
    Span {
        start,
        end: start + width,
    }
}

/// The word of the line.
fn word(due: NextLine) -> &'static [u8]
    ensures { result.now ≡ word_of due }
{
    match due {
        NextLine::Version => b"cert",
        NextLine::Limits => b"limits",
        NextLine::Den => b"den",
        NextLine::Value => b"value",
        NextLine::Choice => b"choice",
        NextLine::Title(table) => title(table),
        NextLine::Entries(_, _) => b"t",
        NextLine::Without(_) => b"without",
        NextLine::PartChoice(_) => b"choice",
        NextLine::Payments => b"pay",
        NextLine::Rows => b"rows",
        NextLine::Members(_) => b"row",
        NextLine::Multipliers(_) => b"mult",
        NextLine::RowChoice(_) => b"choice",
        NextLine::End => b"end",
        NextLine::Nothing => b"",
    }
}

fn title(table: Table) -> &'static [u8]
    ensures { result.now ≡ title_of table }
{
    match table {
        Table::Head => b"table",
        Table::Part(_) => b"table",
        Table::Lowered => b"lowered",
    }
}

/// Reads on in the line that is due, from a place of a piece on. Its numbers go into its part of the room.
pub(crate) fn read_due(
    part: LinePart,
    due: NextLine,
    shape: Shape,
    room: &mut [i128],
    piece: &[u8],
    at: usize,
) -> LineRead
    requires room { length room.old ≡ room_size shape.bidders shape.states }
    requires due { IsDue shape.bidders due }
    requires part { (bytes : List ℕ)
        × IsPart (word_of due) (form_due shape.bidders shape.states due) part
        (segment shape.bidders shape.states due room.old) bytes }
    requires at { at ≤ length piece.now }
    ensures reads { (bytes : List ℕ)
        → IsPart (word_of due) (form_due shape.bidders shape.states due) part
        (segment shape.bidders shape.states due room.old) bytes
        → ReadsOn (word_of due) (form_due shape.bidders shape.states due) result.part
        (segment shape.bidders shape.states due room.new) bytes piece.now at result.end result.outcome }
    ensures line { IsLine (between at result.end piece.now) }
    ensures from { at ≤ result.end }
    ensures to_end { result.outcome ≡ Outcome.Open → result.end ≡ length piece.now }
    ensures ended { (result.outcome ≡ Outcome.Open → ⊥) → result.end < length piece.now }
    ensures front { take (start_due shape.bidders shape.states due) room.new
        ≡ take (start_due shape.bidders shape.states due) room.old }
    ensures back { drop
        (start_due shape.bidders shape.states due + room_for (form_due shape.bidders shape.states due)) room.new
        ≡ drop (start_due shape.bidders shape.states due
        + room_for (form_due shape.bidders shape.states due)) room.old }
    ensures choice { due ≢ NextLine.Choice → take shape.bidders room.new ≡ take shape.bidders room.old }
    ensures room { length room.new ≡ length room.old }
{
    let span = numbers_span(due, shape);
    let form = form(due, shape);
    read_line(
        part,
        form,
        word(due),
        &mut room[span.start..span.end],
        piece,
        at,
    )
}
