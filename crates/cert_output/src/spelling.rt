// The numbers of a line, spelled into a room from the last to the first, each before what is there already. It takes no memory.
ghost use Rattle.std.specs.Prelude.{◌≡◌, ◌≤◌, ◌<◌, ◌+◌, ◌-◌, ◌*◌, ◌∷◌, ◌++◌, drop, length, map, pos, take};
ghost use Rattle.std.specs.Fmt.{decimal, signed_decimal};
ghost use Rattle.wide_num.specs.Range.{InRange};
ghost use Rattle.choices.specs.LentLines.{numbers_of};
ghost use Rattle.line_format.specs.Numeral.{numbers_text, signed_numeral};
ghost use Rattle.line_format.specs.Range.{AllInRange};

use crate::room::put_at;
use choices::LineNumbers;
use itoa::{Buffer, write_digits};

/// A space and a number of the range have at most that many bytes.
pub(crate) const FIELD: usize = 41;

/// The numbers from one place to before another.
pub(crate) fn part_of<'a>(numbers: LineNumbers<'a>, from: usize, to: usize) -> LineNumbers<'a>
    requires { (from ≤ to) × (to ≤ length (numbers_of numbers)) }
    ensures { numbers_of result ≡ take (to - from) (drop from (numbers_of numbers.entry)) }
{
    match numbers {
        LineNumbers::Short(short) => LineNumbers::Short(&short[from..to]),
        LineNumbers::Wide(wide) => LineNumbers::Wide(&wide[from..to]),
    }
}

/// Puts numbers at the end of a room, each after one space, and says where they begin.
pub(crate) fn spell(room: &mut [u8], numbers: LineNumbers<'_>) -> usize
    requires room { 41 * length (numbers_of numbers) ≤ length room.old }
    requires range { AllInRange (numbers_of numbers) }
    ensures within { result ≤ length room.old }
    ensures spelled { drop result room.new ≡ numbers_text (numbers_of numbers.entry) }
{
    match numbers {
        LineNumbers::Short(short) => spell_short(room, short),
        LineNumbers::Wide(wide) => spell_wide(room, wide),
    }
}

fn spell_short(room: &mut [u8], numbers: &[u32]) -> usize
    requires { 41 * length numbers.now ≤ length room.old }
    ensures within { result ≤ length room.old }
    ensures spelled { drop result room.new ≡ numbers_text (map (λ n. pos n) numbers.now) }
{
    let mut start = room.len();
    let mut k = numbers.len();
    while k > 0 {
        k -= 1;
        start = put_natural(room, start, numbers[k] as u64);
    }
    start
}

fn spell_wide(room: &mut [u8], numbers: &[i128]) -> usize
    requires room { 41 * length numbers.now ≤ length room.old }
    requires range { AllInRange numbers.now }
    ensures within { result ≤ length room.old }
    ensures spelled { drop result room.new ≡ numbers_text numbers.now }
{
    let mut start = room.len();
    let mut k = numbers.len();
    while k > 0 {
        k -= 1;
        start = put_number(room, start, numbers[k]);
    }
    start
}

/// Puts a number after one space before the bytes from `end` on, and returns the place of the space.
fn put_natural(room: &mut [u8], end: usize, number: u64) -> usize
    requires { (21 ≤ end) × (end ≤ length room.old) }
    ensures start { (result < end) × (end ≤ result + 21) }
    ensures field { drop result room.new ≡ 32 ∷ decimal number ++ drop end room.old }
{
    let start = write_digits(number, room, end) - 1;
    room[start] = b' ';
    start
}

/// Spells a number of the range, with its sign, before `end`. Returns where it begins.
fn put_number(room: &mut [u8], end: usize, number: i128) -> usize
    requires end { (41 ≤ end) × (end ≤ length room.old) }
    requires range { InRange number }
    ensures start { (result < end) × (end ≤ result + 41) }
    ensures field { drop result room.new ≡ 32 ∷ signed_numeral number ++ drop end room.old }
{
    match u64::try_from(number) {
        Ok(natural) => put_natural(room, end, natural),
        Err(_) => put_signed(room, end, number),
    }
}

/// Spells any number, with its sign, before `end`. Returns where it begins.
fn put_signed(room: &mut [u8], end: usize, number: i128) -> usize
    requires { (41 ≤ end) × (end ≤ length room.old) }
    ensures start { (result < end) × (end ≤ result + 41) }
    ensures field { drop result room.new ≡ 32 ∷ signed_decimal number ++ drop end room.old }
{
    let mut buffer = Buffer::new();
    let digits = buffer.format(number).as_bytes();
    let start = end - digits.len();
    put_at(room, start, digits);
    room[start - 1] = b' ';
    start - 1
}
