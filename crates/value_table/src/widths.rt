// Lines in numbers of another width.
ghost use Rattle.std.specs.Prelude.{◌≡◌, ℕ, ◌≤◌, ◌≤ℤ◌, length, map, slice_index_or, pos, unsigned_abs};

use crate::cell::Cell;

/// Writes the numbers in the width of a list, which all of them fit.
pub fn narrow_into<C: Cell>(numbers: &mut [C], line: &[i128])
    requires places { length numbers.old ≡ length line.now }
    requires sizes { (s : ℕ) → unsigned_abs (slice_index_or line.now s (pos 0)) ≤ C.most }
    requires signs { (s : ℕ) → pos 0 ≤ℤ slice_index_or line.now s (pos 0) }
    ensures { map C.number numbers.new ≡ line.now }
{
    for i in 0..line.len() {
        numbers[i] = C::narrowed(line[i]);
    }
}

/// Writes the numbers in 128 bits each.
pub fn widen_into<C: Cell>(numbers: &mut [i128], line: &[C])
    requires { length numbers.old ≡ length line.now }
    ensures { numbers.new ≡ map C.number line.now }
{
    for i in 0..line.len() {
        numbers[i] = C::wide(line[i]);
    }
}
