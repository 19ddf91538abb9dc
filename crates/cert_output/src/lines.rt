// The lines of a table, spelled and added to the bytes that wait for an append.
ghost use Rattle.std.specs.Prelude.{◌≤◌, ◌∷◌, ◌++◌, [], length, take, IsTrue};
ghost use Rattle.cert_grammar.specs.CertText.{table_lines};
ghost use Rattle.choices.specs.LentLines.{numbers_of};
ghost use Rattle.line_format.specs.Numeral.{numbers_text};
ghost use Rattle.line_format.specs.Range.{AllInRange};
ghost use Rattle.cert_text.specs.Written.{bytes_of, line_bytes, IsTableInRange};
ghost use Rattle.cert_output.specs.Writes.{TakesText};

use crate::CutShort;
use crate::outbox::add_bytes;
use crate::spelling::{FIELD, part_of, spell};
use cca_base::Files;
use choices::{Grid, LineNumbers};

// That many numbers are spelled at once.
const PIECE: usize = 32;

/// Adds the lines of a table after the first `begun` bytes of the room, and says how many wait there then.
pub(crate) fn add_table<F: Files>(
    files: &mut F,
    name: &str,
    room: &mut [u8],
    begun: usize,
    table: &Grid,
) -> Result<usize, CutShort>
    requires known { IsTrue ((F.folder files.old).knows name.now) }
    requires waiting { begun ≤ length room.old }
    requires range { IsTableInRange table.now }
    ensures { TakesText name.now (F.folder files.old) (F.folder files.new) (take begun room.old) room.new
        (bytes_of (table_lines table.now)) result }
{
    let mut waiting = begun;
    for k in 0..table.lines() {
        match add_line(files, name, room, waiting, table.line(k)) {
            Ok(now) => waiting = now,
            Err(stop) => return Err(stop),
        }
    }
    Ok(waiting)
}

fn add_line<F: Files>(
    files: &mut F,
    name: &str,
    room: &mut [u8],
    waiting: usize,
    numbers: LineNumbers<'_>,
) -> Result<usize, CutShort>
    requires known { IsTrue ((F.folder files.old).knows name.now) }
    requires waiting { waiting ≤ length room.old }
    requires range { AllInRange (numbers_of numbers) }
    ensures { TakesText name.now (F.folder files.old) (F.folder files.new) (take waiting room.old) room.new
        (line_bytes (numbers_of numbers.entry)) result }
{
    match add_bytes(files, name, room, waiting, b"t") {
        Ok(now) => add_fields(files, name, room, now, numbers),
        Err(stop) => Err(stop),
    }
}

/// Adds numbers, each after one space, and a line feed.
fn add_fields<F: Files>(
    files: &mut F,
    name: &str,
    room: &mut [u8],
    waiting: usize,
    numbers: LineNumbers<'_>,
) -> Result<usize, CutShort>
    requires known { IsTrue ((F.folder files.old).knows name.now) }
    requires waiting { waiting ≤ length room.old }
    requires range { AllInRange (numbers_of numbers) }
    ensures { TakesText name.now (F.folder files.old) (F.folder files.new) (take waiting room.old) room.new
        (numbers_text (numbers_of numbers.entry) ++ 10 ∷ []) result }
{
    match add_numbers(files, name, room, waiting, numbers) {
        Ok(now) => add_bytes(files, name, room, now, b"\n"),
        Err(stop) => Err(stop),
    }
}

/// Adds numbers, each after one space.
fn add_numbers<F: Files>(
    files: &mut F,
    name: &str,
    room: &mut [u8],
    begun: usize,
    numbers: LineNumbers<'_>,
) -> Result<usize, CutShort>
    requires known { IsTrue ((F.folder files.old).knows name.now) }
    requires waiting { begun ≤ length room.old }
    requires range { AllInRange (numbers_of numbers) }
    ensures { TakesText name.now (F.folder files.old) (F.folder files.new) (take begun room.old) room.new
        (numbers_text (numbers_of numbers.entry)) result }
{
    let count = numbers.count();
    let mut waiting = begun;
    let mut done = 0;
    while done < count {
        let end = count.min(done + PIECE);
        match add_piece(files, name, room, waiting, part_of(numbers, done, end)) {
            Ok(now) => waiting = now,
            Err(stop) => return Err(stop),
        }
        done = end;
    }
    Ok(waiting)
}

/// Adds a few numbers of a line.
fn add_piece<F: Files>(
    files: &mut F,
    name: &str,
    room: &mut [u8],
    waiting: usize,
    numbers: LineNumbers<'_>,
) -> Result<usize, CutShort>
    requires known { IsTrue ((F.folder files.old).knows name.now) }
    requires waiting { waiting ≤ length room.old }
    requires few { length (numbers_of numbers) ≤ 32 }
    requires range { AllInRange (numbers_of numbers) }
    ensures { TakesText name.now (F.folder files.old) (F.folder files.new) (take waiting room.old) room.new
        (numbers_text (numbers_of numbers.entry)) result }
{
    let mut piece = [0u8; FIELD * PIECE];
    let start = spell(&mut piece, numbers);
    add_bytes(files, name, room, waiting, &piece[start..])
}
