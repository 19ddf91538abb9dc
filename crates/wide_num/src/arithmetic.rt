ghost use Rattle.std.specs.Int.{IsGcd};
ghost use Rattle.std.specs.Prelude.{pos, unsigned_abs, ◌*ℤ◌, ◌+ℤ◌, ◌-ℤ◌, ◌<◌, ◌^◌, ◌≡◌, ◌≢◌, ◌≤ℤ◌};
ghost use Rattle.wide_num.specs.Range.{Divides, InRange, IsExact};

use crate::{EDGE, Op, Wide};

// The least size that doesn't fit 64 bits without a sign.
const SHORT: u128 = 1 << 64;

// The least size that doesn't fit 64 bits with a sign.
const SIGNED_SHORT: u128 = 1 << 63;

// The exact result if it is in the range.
fn in_range(op: Op, left: i128, right: i128, exact: i128) -> Result<i128, Wide>
    ensures { IsExact op left right exact result }
{
    if exact.unsigned_abs() < EDGE {
        Ok(exact)
    } else {
        Err(Wide { op, left, right })
    }
}

/// The exact sum. The error is a sum that leaves the range.
pub fn add(a: i128, b: i128) -> Result<i128, Wide>
    requires left { InRange a }
    requires right { InRange b }
    ensures { IsExact Op.Add a b (a +ℤ b) result }
{
    in_range(Op::Add, a, b, a + b)
}

/// The exact difference `a - b`. The error is a difference that leaves the range.
pub fn sub(a: i128, b: i128) -> Result<i128, Wide>
    requires left { InRange a }
    requires right { InRange b }
    ensures { IsExact Op.Sub a b (a -ℤ b) result }
{
    in_range(Op::Sub, a, b, a - b)
}

/// The exact product. The error is a product that leaves the range.
pub fn mul(a: i128, b: i128) -> Result<i128, Wide>
    requires left { InRange a }
    requires right { InRange b }
    ensures { IsExact Op.Mul a b (a *ℤ b) result }
{
    let (op, left, right) = (Op::Mul, a, b);
    match a.checked_mul(b) {
        Some(exact) => in_range(op, left, right, exact),
        None => Err(Wide { op, left, right }),
    }
}

/// The greatest common divisor, which isn't negative and is 0 for two zeros.
pub fn gcd(a: i128, b: i128) -> i128
    requires left { InRange a }
    requires right { InRange b }
    ensures sign { pos 0 ≤ℤ result }
    ensures greatest { IsGcd (unsigned_abs a) (unsigned_abs b) (unsigned_abs result) }
    ensures range { InRange result }
{
    euclid(a.unsigned_abs(), b.unsigned_abs()) as i128
}

// Euclid's algorithm.
fn euclid(a: u128, b: u128) -> u128
    requires left { a < 2 ^ 120 }
    requires right { b < 2 ^ 120 }
    ensures greatest { IsGcd a b result }
    ensures range { result < 2 ^ 120 }
{
    // What is shared so far is often 1.
    if a == 1 {
        return 1;
    }
    let mut x = a;
    let mut y = b;
    while y != 0 {
        if x < SHORT && y < SHORT {
            return short_euclid(x as u64, y as u64) as u128;
        }
        let rest = x % y;
        x = y;
        y = rest;
    }
    x
}

// Euclid's algorithm on numbers of 64 bits, whose division takes far fewer cycles.
fn short_euclid(a: u64, b: u64) -> u64
    ensures { IsGcd a b result }
{
    let mut x = a;
    let mut y = b;
    while y != 0 {
        let rest = x % y;
        x = y;
        y = rest;
    }
    x
}

/// The quotient `a / b` of a number and one of its divisors.
pub fn div_exact(a: i128, b: i128) -> i128
    requires range { InRange a }
    requires nonzero { b ≢ pos 0 }
    requires divides { Divides b a }
    ensures { b *ℤ result ≡ a }
{
    if a.unsigned_abs() < SIGNED_SHORT && b.unsigned_abs() < SIGNED_SHORT {
        short_quotient(a as i64, b as i64) as i128
    } else {
        a / b
    }
}

// The quotient of a number of 64 bits and one of its divisors.
fn short_quotient(a: i64, b: i64) -> i64
    requires range { unsigned_abs a < 2 ^ 63 }
    requires nonzero { b ≢ pos 0 }
    requires divides { Divides b a }
    ensures { b *ℤ result ≡ a }
{
    a / b
}
