// Fractions as they are printed.
ghost use Rattle.std.specs.Prelude.{◌≡◌, ℤ, ◌+◌, ◌<◌, ◌^◌, ◌++◌, ◌+ℤ◌, ◌*ℤ◌, ◌≤ℤ◌, pos, OnOk};
ghost use Rattle.wide_num.specs.Range.{InRange};
ghost use Rattle.outcome.specs.Fractions.{IsFractionOf, fraction_text};

use line_format::add_decimal;
use std::alloc::AllocError;
use wide_num::{Text, gcd};

/// A fraction that isn't negative: its whole part, and a rest over its least denominator.
#[derive(Clone, Copy, Debug, Drop, PartialEq, Eq)]
pub struct Fraction {
    /// The whole part.
    pub whole: u128,
    /// What is left, in parts; fewer than make a whole.
    pub rest: u128,
    /// How many parts make a whole. No number but 1 divides both this and the rest.
    pub parts: u128,
}

impl Fraction {
    /// The fraction `n` over `d`.
    pub fn new(n: i128, d: i128) -> Fraction
        requires number { pos 0 ≤ℤ n }
        requires denominator { pos 1 ≤ℤ d }
        requires range { InRange d }
        ensures fraction { IsFractionOf n d result }
        ensures small { result.whole < 2 ^ 127 }
    {
        mixed(n.unsigned_abs(), d.unsigned_abs())
    }

    /// The fraction that is greater by a whole number.
    pub fn plus(self, more: u128) -> Fraction
        requires { self.whole + more < 2 ^ 128 }
        ensures { (n d : ℤ) → IsFractionOf n d self → IsFractionOf (n +ℤ (d *ℤ pos more)) d result }
    {
        Fraction {
            whole: self.whole + more,
            ..self
        }
    }
}

// The fraction of two natural numbers.
fn mixed(n: u128, d: u128) -> Fraction
    requires number { n < 2 ^ 127 }
    requires denominator { (0 < d) × (d < 2 ^ 120) }
    ensures fraction { IsFractionOf (pos n) (pos d) result }
    ensures small { result.whole < 2 ^ 127 }
{
    let rest = n % d;
    let divisor = gcd(rest as i128, d as i128) as u128;
    Fraction {
        whole: n / d,
        rest: rest / divisor,
        parts: d / divisor,
    }
}

/// Adds a fraction: `W`, or `W+R/D` if it isn't whole. The only error is out of memory.
pub fn add_fraction(text: &mut Text, fraction: Fraction) -> Result<(), AllocError>
    ensures { OnOk result (text.new ≡ text.old ++ fraction_text fraction) }
{
    add_decimal(text, fraction.whole)?;
    if fraction.rest == 0 {
        return Ok(());
    }
    text.push(b'+')?;
    add_decimal(text, fraction.rest)?;
    text.push(b'/')?;
    add_decimal(text, fraction.parts)
}
