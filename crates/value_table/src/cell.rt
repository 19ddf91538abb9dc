// The numbers of a line, in the three sizes of computed lines.
ghost use Rattle.std.specs.Prelude.{◌≡◌, ℕ, ◌*◌, ◌^◌, ◌≤◌, ◌<◌, ◌↔◌, IsTrue, IfSome, length, slice_index_or, ℤ, pos, ◌-◌, ◌+ℤ◌, ◌≤ℤ◌, unsigned_abs, map};
ghost use Rattle.std.specs.Int.{int_max};
ghost use Rattle.choices.specs.Coarse.{IsCeiling, IsFloor};
ghost use Rattle.limits.specs.declared.TheConstants.{MOST_STATES};
ghost use Rattle.value_table.specs.Rows.{AreRowsRaised, HasRows};

use crate::shape::Rows;
use crate::{rows, short_units};
use choices::coarse;

/// A number of a line, so that lines of each size are computed and read by the same functions.
pub trait Cell: Copy {
    /// The whole number.
    ghost number: { Self → ℤ };

    /// How far from zero a worth and a number of the line below may be.
    ghost most: { ℕ };

    /// A whole number in this size, which isn't below zero.
    fn narrowed(wide: i128) -> Self
        requires size { unsigned_abs wide ≤ most }
        requires sign { pos 0 ≤ℤ wide }
        ensures { number result ≡ wide };

    /// The number in 128 bits.
    fn wide(cell: Self) -> i128
        ensures { result ≡ number cell };

    /// Whether a number is at least a worth with a number of the line below.
    fn is_at_least(entry: Self, worth: Self, below: Self) -> bool
        requires worth { unsigned_abs (number worth) ≤ most }
        requires below { unsigned_abs (number below) ≤ most }
        ensures { IsTrue result ↔ (number worth +ℤ number below) ≤ℤ number entry };

    /// Adds an amount to each number.
    fn add_to_each(line: &mut [Self], amount: Self)
        requires amount { unsigned_abs (number amount) ≤ most }
        requires sizes { (s : ℕ) → unsigned_abs (slice_index_or (map number line.old) s (pos 0)) ≤ most }
        ensures { (s : ℕ) → s < length line.old
            → slice_index_or (map number line.new) s (pos 0)
            ≡ slice_index_or (map number line.old) s (pos 0) +ℤ number amount };

    /// Raises each number of `line` to the number of `below` plus the worth, if it is smaller.
    fn raise_run(line: &mut [Self], below: &[Self], worth: Self)
        requires places { length line.old ≡ length below.now }
        requires worth { unsigned_abs (number worth) ≤ most }
        requires sizes { (s : ℕ) → unsigned_abs (slice_index_or (map number below.now) s (pos 0)) ≤ most }
        ensures { (s : ℕ) → s < length line.old
            → slice_index_or (map number line.new) s (pos 0)
            ≡ int_max (slice_index_or (map number line.old) s (pos 0))
            (number worth +ℤ slice_index_or (map number below.now) s (pos 0)) };

    /// Raises the prefix of each row in the same way.
    fn raise_rows(line: &mut [Self], below: &[Self], rows: &Rows, worth: Self)
        requires places { length line.old ≡ length below.now }
        requires rows { HasRows rows.now (length line.old) }
        requires few { length line.old ≤ MOST_STATES }
        requires worth { unsigned_abs (number worth) ≤ most }
        requires sizes { (s : ℕ) → unsigned_abs (slice_index_or (map number below.now) s (pos 0)) ≤ most }
        ensures { AreRowsRaised rows.now (map number below.now) (number worth) (map number line.old) (map number line.new) };

    /// The numbers of a line in units of `2^shift`, rounded down.
    fn put_low(low: &mut [u16], line: &[Self], shift: u32)
        requires places { length low.old ≡ length line.now }
        requires shift { shift < 64 }
        ensures floor { IsFloor (2 ^ shift) (map number line.now) low.new }
        ensures places { length low.new ≡ length line.now };

    /// The numbers of a line in units of `2^shift`, rounded up, and whether none has too many. Numbers of 128 bits always
    /// have.
    fn put_high(high: &mut [u16], line: &[Self], shift: u32) -> bool
        requires places { length high.old ≡ length line.now }
        requires shift { shift < 64 }
        ensures ceiling { IsTrue result → IsCeiling (2 ^ shift) (map number line.now) high.new }
        ensures places { length high.new ≡ length line.now };

    /// A worth in units of `2^shift`, rounded up, or 0 if it has none.
    fn worth_units(worth: Self, shift: u32) -> u16
        requires { shift < 64 }
        ensures small { result < 2 ^ 15 }
        ensures size { 0 < result → number worth ≤ℤ pos (result * 2 ^ shift) };

    /// The numbers of a line that have 32 bits.
    fn as_short(line: &[Self]) -> Option<&[u32]>
        ensures { IfSome result (λ numbers. map (λ n. pos n) numbers.now ≡ map number line.now) };
}

/// The number of a line at a place, in 128 bits.
pub fn number_at<C: Cell>(line: &[C], place: usize) -> i128
    requires { place < length line.now }
    ensures { result ≡ slice_index_or (map C.number line.now) place (pos 0) }
{
    C::wide(line[place])
}

impl Cell for i128 {
    ghost number = { λ z. z };

    ghost most = { 2 ^ 120 };

    fn narrowed(wide: i128) -> i128 {
        wide
    }

    fn wide(cell: i128) -> i128 {
        cell
    }

    fn is_at_least(entry: i128, worth: i128, below: i128) -> bool {
        worth + below <= entry
    }

    fn add_to_each(line: &mut [i128], amount: i128) {
        for place in 0..line.len() {
            line[place] += amount;
        }
    }

    fn raise_run(line: &mut [i128], below: &[i128], worth: i128) {
        for i in 0..line.len() {
            let sum = worth + below[i];
            if line[i] < sum {
                line[i] = sum;
            }
        }
    }

    fn raise_rows(line: &mut [i128], below: &[i128], rows: &Rows, worth: i128) {
        rows::raise_wide(line, below, rows, worth);
    }

    fn put_low(low: &mut [u16], _line: &[i128], _shift: u32) {
        short_units::put_none(low);
    }

    fn put_high(_high: &mut [u16], _line: &[i128], _shift: u32) -> bool {
        false
    }

    fn worth_units(_worth: i128, _shift: u32) -> u16 {
        0
    }

    fn as_short(_line: &[i128]) -> Option<&[u32]> {
        None
    }
}

impl Cell for i64 {
    ghost number = { λ z. z };

    ghost most = { 2 ^ 61 };

    fn narrowed(wide: i128) -> i64 {
        wide as i64
    }

    fn wide(cell: i64) -> i128 {
        cell as i128
    }

    fn is_at_least(entry: i64, worth: i64, below: i64) -> bool {
        worth + below <= entry
    }

    fn add_to_each(line: &mut [i64], amount: i64) {
        for place in 0..line.len() {
            line[place] += amount;
        }
    }

    fn raise_run(line: &mut [i64], below: &[i64], worth: i64) {
        for i in 0..line.len() {
            line[i] = line[i].max(worth + below[i]);
        }
    }

    fn raise_rows(line: &mut [i64], below: &[i64], rows: &Rows, worth: i64) {
        rows::raise_long(line, below, rows, worth);
    }

    fn put_low(low: &mut [u16], line: &[i64], shift: u32) {
        coarse::put_low(low, line, shift);
    }

    fn put_high(high: &mut [u16], line: &[i64], shift: u32) -> bool {
        coarse::put_high(high, line, shift)
    }

    fn worth_units(worth: i64, shift: u32) -> u16 {
        coarse::worth_units(worth, shift)
    }

    fn as_short(_line: &[i64]) -> Option<&[u32]> {
        None
    }
}

impl Cell for u32 {
    ghost number = { λ n. pos n };

    ghost most = { 2 ^ 31 - 1 };

    fn narrowed(wide: i128) -> u32 {
        wide as u32
    }

    fn wide(cell: u32) -> i128 {
        cell as i128
    }

    fn is_at_least(entry: u32, worth: u32, below: u32) -> bool {
        worth + below <= entry
    }

    fn add_to_each(line: &mut [u32], amount: u32) {
        for place in 0..line.len() {
            line[place] += amount;
        }
    }

    fn raise_run(line: &mut [u32], below: &[u32], worth: u32) {
        for i in 0..line.len() {
            line[i] = line[i].max(worth + below[i]);
        }
    }

    fn raise_rows(line: &mut [u32], below: &[u32], rows: &Rows, worth: u32) {
        rows::raise_short(line, below, rows, worth);
    }

    fn put_low(low: &mut [u16], line: &[u32], shift: u32) {
        short_units::put_low(low, line, shift);
    }

    fn put_high(high: &mut [u16], line: &[u32], shift: u32) -> bool {
        short_units::put_high(high, line, shift)
    }

    fn worth_units(worth: u32, shift: u32) -> u16 {
        short_units::worth_units(worth, shift)
    }

    fn as_short(line: &[u32]) -> Option<&[u32]> {
        Some(line)
    }
}
