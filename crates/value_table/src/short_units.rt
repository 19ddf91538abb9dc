// Lines of 32 bits that are in 16 bits too, as lines of 64 do (`choices::coarse`). There are none in units of `2^32` and more: no
// number is so large.
ghost use Rattle.std.specs.Prelude.{◌≡◌, ℕ, ◌+◌, ◌*◌, ◌^◌, ◌≤◌, ◌<◌, IsTrue, length, slice_index_or, map, pos, ◌≤ℤ◌};
ghost use Rattle.choices.specs.Coarse.{IsCeiling, IsFloor};

/// How many bits a number has.
const BITS: u32 = 32;

/// The most units of a number, whose bits are the last 15.
const MOST_UNITS: u32 = 32767;

/// A number in units of `2^shift`, rounded down.
fn units(number: u32, shift: u32) -> u32
    requires { shift < 32 }
    ensures low { result * 2 ^ shift ≤ number }
    ensures high { number ≤ (result + 1) * 2 ^ shift }
{
    number >> shift
}

/// The last 15 bits of a number in units of `2^shift`, rounded down. They are all if the unit is large enough.
fn low_units(number: u32, shift: u32) -> u16
    requires { shift < 32 }
    ensures { result * 2 ^ shift ≤ number }
{
    (units(number, shift) & MOST_UNITS) as u16
}

/// Units of a line, none at each place.
pub fn put_none(low: &mut [u16])
    ensures none { (s : ℕ) → s < length low.old → slice_index_or low.new s 0 ≡ 0 }
    ensures places { length low.new ≡ length low.old }
{
    for i in 0..low.len() {
        low[i] = 0;
    }
}

/// The numbers of a line in units of less than `2^32`, rounded down.
fn put_floor(low: &mut [u16], line: &[u32], shift: u32)
    requires places { length low.old ≡ length line.now }
    requires shift { shift < 32 }
    ensures floor { IsFloor (2 ^ shift) (map (λ n. pos n) line.now) low.new }
    ensures places { length low.new ≡ length line.now }
{
    for i in 0..line.len() {
        low[i] = low_units(line[i], shift);
    }
}

/// The numbers of a line in units of `2^shift`, rounded down.
pub fn put_low(low: &mut [u16], line: &[u32], shift: u32)
    requires places { length low.old ≡ length line.now }
    ensures floor { IsFloor (2 ^ shift) (map (λ n. pos n) line.now) low.new }
    ensures places { length low.new ≡ length line.now }
{
    if shift >= BITS {
        return put_none(low);
    }
    put_floor(low, line, shift);
}

/// The numbers of a line in units of `2^shift`, rounded up, and whether none has too many.
pub fn put_high(high: &mut [u16], line: &[u32], shift: u32) -> bool
    requires places { length high.old ≡ length line.now }
    ensures ceiling { IsTrue result → IsCeiling (2 ^ shift) (map (λ n. pos n) line.now) high.new }
    ensures places { length high.new ≡ length line.now }
{
    if shift >= BITS {
        return false;
    }
    for i in 0..line.len() {
        let part = units(line[i], shift);
        if part > MOST_UNITS {
            return false;
        }
        high[i] = part as u16 + 1;
    }
    true
}

/// A worth in units of `2^shift`, rounded up, or 0 if it has too many.
pub fn worth_units(worth: u32, shift: u32) -> u16
    ensures small { result < 2 ^ 15 }
    ensures size { 0 < result → pos worth ≤ℤ pos (result * 2 ^ shift) }
{
    if shift >= BITS {
        return 0;
    }
    let part = units(worth, shift);
    if part >= MOST_UNITS {
        return 0;
    }
    part as u16 + 1
}
