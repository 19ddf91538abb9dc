// Raising the rows of a block of two categories. In 32 bits four numbers are raised at a time, and the last four of a run as well, so
// that some are raised twice: the second time changes nothing.
ghost use Rattle.std.specs.Prelude.{◌≡◌, ℕ, ◌+◌, ◌-◌, ◌*◌, ◌^◌, ◌≤◌, ◌<◌, length, map, max, pos, slice_index_or, unsigned_abs};
ghost use Rattle.limits.specs.declared.TheConstants.{MOST_STATES};
ghost use Rattle.value_table.specs.Rows.{AreRowsRaised, HasRows};

use crate::cell::Cell;
use crate::shape::Rows;
use std::simd::prelude::*;

/// Raises rows of numbers of 128 bits, one by one.
pub fn raise_wide(line: &mut [i128], below: &[i128], rows: &Rows, worth: i128)
    requires places { length line.old ≡ length below.now }
    requires rows { HasRows rows.now (length line.old) }
    requires few { length line.old ≤ MOST_STATES }
    requires worth { unsigned_abs worth ≤ 2 ^ 120 }
    requires sizes { (s : ℕ) → unsigned_abs (slice_index_or (map (λ z. z) below.now) s (pos 0)) ≤ 2 ^ 120 }
    ensures { AreRowsRaised rows.now (map (λ z. z) below.now) worth (map (λ z. z) line.old) (map (λ z. z) line.new) }
{
    for row in 0..rows.count {
        let at = row * rows.width;
        i128::raise_run(
            &mut line[at..at + rows.run],
            &below[at..at + rows.run],
            worth,
        );
    }
}

/// Raises rows of numbers of 64 bits, one by one.
pub fn raise_long(line: &mut [i64], below: &[i64], rows: &Rows, worth: i64)
    requires places { length line.old ≡ length below.now }
    requires rows { HasRows rows.now (length line.old) }
    requires few { length line.old ≤ MOST_STATES }
    requires worth { unsigned_abs worth ≤ 2 ^ 61 }
    requires sizes { (s : ℕ) → unsigned_abs (slice_index_or (map (λ z. z) below.now) s (pos 0)) ≤ 2 ^ 61 }
    ensures { AreRowsRaised rows.now (map (λ z. z) below.now) worth (map (λ z. z) line.old) (map (λ z. z) line.new) }
{
    for row in 0..rows.count {
        let at = row * rows.width;
        i64::raise_run(
            &mut line[at..at + rows.run],
            &below[at..at + rows.run],
            worth,
        );
    }
}

/// Raises four numbers from a place on.
fn raise_four(line: &mut [u32], below: &[u32], at: usize, worth: u32)
    requires places { length line.old ≡ length below.now }
    requires room { at + 4 ≤ length line.old }
    requires worth { worth ≤ 2 ^ 31 - 1 }
    requires sizes { (s : ℕ) → slice_index_or below.now s 0 ≤ 2 ^ 31 - 1 }
    ensures before { (s : ℕ) → s < at → slice_index_or line.new s 0 ≡ slice_index_or line.old s 0 }
    ensures raised { (s : ℕ) → at ≤ s → s < at + 4
        → slice_index_or line.new s 0 ≡ max (slice_index_or line.old s 0) (worth + slice_index_or below.now s 0) }
    ensures behind { (s : ℕ) → at + 4 ≤ s → slice_index_or line.new s 0 ≡ slice_index_or line.old s 0 }
{
    let sums = u32x4::from_slice(&below[at..]).strict_add(u32x4::splat(worth));
    let raised = u32x4::from_slice(&line[at..]).simd_max(sums);
    raised.copy_to_slice(&mut line[at..]);
}

/// Raises a run from a place on, of more than `4 * WHOLE` numbers and at most 4 more.
fn raise_fours<const WHOLE: usize>(
    line: &mut [u32],
    below: &[u32],
    at: usize,
    run: usize,
    worth: u32,
)
    requires places { length line.old ≡ length below.now }
    requires whole { (4 * WHOLE < run) × (4 ≤ run) × (run ≤ 4 * WHOLE + 4) }
    requires room { at + run ≤ length line.old }
    requires few { length line.old ≤ MOST_STATES }
    requires worth { worth ≤ 2 ^ 31 - 1 }
    requires sizes { (s : ℕ) → slice_index_or below.now s 0 ≤ 2 ^ 31 - 1 }
    ensures before { (s : ℕ) → s < at → slice_index_or line.new s 0 ≡ slice_index_or line.old s 0 }
    ensures raised { (s : ℕ) → at ≤ s → s < at + run
        → slice_index_or line.new s 0 ≡ max (slice_index_or line.old s 0) (worth + slice_index_or below.now s 0) }
    ensures behind { (s : ℕ) → at + run ≤ s → slice_index_or line.new s 0 ≡ slice_index_or line.old s 0 }
{
    for i in 0..WHOLE {
        raise_four(line, below, at + 4 * i, worth);
    }
    raise_four(line, below, at + run - 4, worth);
}

/// Raises rows whose runs have more than `4 * WHOLE` numbers and at most 4 more.
fn raise_by_fours<const WHOLE: usize>(line: &mut [u32], below: &[u32], rows: &Rows, worth: u32)
    requires places { length line.old ≡ length below.now }
    requires whole { (4 * WHOLE < rows.now.run) × (4 ≤ rows.now.run) × (rows.now.run ≤ 4 * WHOLE + 4) }
    requires rows { HasRows rows.now (length line.old) }
    requires few { length line.old ≤ MOST_STATES }
    requires worth { worth ≤ 2 ^ 31 - 1 }
    requires sizes { (s : ℕ) → slice_index_or below.now s 0 ≤ 2 ^ 31 - 1 }
    ensures { AreRowsRaised rows.now (map (λ n. pos n) below.now) (pos worth) (map (λ n. pos n) line.old) (map (λ n. pos n) line.new) }
{
    for row in 0..rows.count {
        raise_fours::<WHOLE>(line, below, row * rows.width, rows.run, worth);
    }
}

/// Raises rows of numbers of 32 bits, one by one.
fn raise_each(line: &mut [u32], below: &[u32], rows: &Rows, worth: u32)
    requires places { length line.old ≡ length below.now }
    requires rows { HasRows rows.now (length line.old) }
    requires few { length line.old ≤ MOST_STATES }
    requires worth { unsigned_abs (pos worth) ≤ 2 ^ 31 - 1 }
    requires sizes { (s : ℕ) → unsigned_abs (slice_index_or (map (λ n. pos n) below.now) s (pos 0)) ≤ 2 ^ 31 - 1 }
    ensures { AreRowsRaised rows.now (map (λ n. pos n) below.now) (pos worth) (map (λ n. pos n) line.old) (map (λ n. pos n) line.new) }
{
    for row in 0..rows.count {
        let at = row * rows.width;
        u32::raise_run(
            &mut line[at..at + rows.run],
            &below[at..at + rows.run],
            worth,
        );
    }
}

/// Raises rows of numbers of 32 bits. Most runs have at most 16 places.
pub fn raise_short(line: &mut [u32], below: &[u32], rows: &Rows, worth: u32)
    requires places { length line.old ≡ length below.now }
    requires rows { HasRows rows.now (length line.old) }
    requires few { length line.old ≤ MOST_STATES }
    requires worth { unsigned_abs (pos worth) ≤ 2 ^ 31 - 1 }
    requires sizes { (s : ℕ) → unsigned_abs (slice_index_or (map (λ n. pos n) below.now) s (pos 0)) ≤ 2 ^ 31 - 1 }
    ensures { AreRowsRaised rows.now (map (λ n. pos n) below.now) (pos worth) (map (λ n. pos n) line.old) (map (λ n. pos n) line.new) }
{
    match rows.run {
        4 => raise_by_fours::<0>(line, below, rows, worth),
        5..=8 => raise_by_fours::<1>(line, below, rows, worth),
        9..=12 => raise_by_fours::<2>(line, below, rows, worth),
        13..=16 => raise_by_fours::<3>(line, below, rows, worth),
        _ => raise_each(line, below, rows, worth),
    }
}
