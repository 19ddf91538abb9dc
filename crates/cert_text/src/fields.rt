// Numbers of a line, added to a text piece by piece: the digits of a piece are put into a room from its last number to
// its first, each before what is there already.
ghost use Rattle.std.specs.Prelude.{◌≡◌, ◌≤◌, ◌<◌, ◌+◌, ◌*◌, ◌∷◌, ◌++◌, [], length, drop, pos, slice_index_or, IfSome, OnOk};
ghost use Rattle.std.specs.Fmt.{decimal};
ghost use Rattle.line_format.specs.Numeral.{numbers_text};
ghost use Rattle.line_format.specs.Range.{AllInRange};

use choices::Grid;
use itoa::write_digits;
use line_format::add_signed_numbers;
use std::alloc::AllocError;
use wide_num::Text;

// That many numbers make a piece.
const PIECE: usize = 32;

// A space and a number of 64 bits have at most that many bytes.
const FIELD: usize = 21;

/// Adds numbers with their signs, each after one space.
pub(crate) fn add_fields(text: &mut Text, numbers: &[i128]) -> Result<(), AllocError>
    requires { AllInRange numbers.now }
    ensures { OnOk result (text.new ≡ text.old ++ numbers_text numbers.now) }
{
    let mut done = 0;
    while done < numbers.len() {
        let end = numbers.len().min(done + PIECE);
        add_piece(text, &numbers[done..end])?;
        done = end;
    }
    Ok(())
}

/// Adds the numbers of a line of a table, each after one space.
pub(crate) fn add_table_fields(text: &mut Text, table: &Grid, line: usize) -> Result<(), AllocError>
    requires line { line < length table.now }
    requires range { AllInRange (slice_index_or table.now line []) }
    ensures { OnOk result (text.new ≡ text.old ++ numbers_text (slice_index_or table.now line [])) }
{
    table.kept();
    let width = table.width();
    let mut room = [0i128; PIECE];
    let mut done = 0;
    while done < width {
        let count = PIECE.min(width - done);
        let piece = &mut room[..count];
        table.put_part(line, done, piece);
        add_piece(text, piece)?;
        done += count;
    }
    Ok(())
}

/// Adds a few numbers, each after one space.
fn add_piece(text: &mut Text, numbers: &[i128]) -> Result<(), AllocError>
    requires few { length numbers.now ≤ 32 }
    requires range { AllInRange numbers.now }
    ensures { OnOk result (text.new ≡ text.old ++ numbers_text numbers.now) }
{
    let mut room = [0u8; FIELD * PIECE];
    match put_fields(&mut room, numbers) {
        Some(start) => text.add(&room[start..]),
        None => add_signed_numbers(text, numbers),
    }
}

/// Puts numbers at the end of a room, each after one space, and returns where they begin, or None if one is below 0 or
/// has more than 64 bits.
fn put_fields(room: &mut [u8], numbers: &[i128]) -> Option<usize>
    requires { 21 * length numbers.now ≤ length room.old }
    ensures within { IfSome result (λ start. start ≤ length room.old) }
    ensures fields { IfSome result (λ start. drop start room.new ≡ numbers_text numbers.now) }
{
    let mut start = room.len();
    let mut k = numbers.len();
    while k > 0 {
        k -= 1;
        start = put_field(room, start, short(numbers[k])?);
    }
    Some(start)
}

/// The number in 64 bits, and None if it is below 0 or has more.
fn short(number: i128) -> Option<u64>
    ensures { IfSome result (λ n. number ≡ pos n) }
{
    u64::try_from(number).ok()
}

/// Puts a number after one space before the bytes from `end` on, and returns the place of the space.
fn put_field(room: &mut [u8], end: usize, number: u64) -> usize
    requires { (21 ≤ end) × (end ≤ length room.old) }
    ensures start { (result < end) × (end ≤ result + 21) }
    ensures field { drop result room.new ≡ 32 ∷ decimal number ++ drop end room.old }
{
    let start = write_digits(number, room, end) - 1;
    room[start] = b' ';
    start
}
