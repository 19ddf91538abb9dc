// Points over their least denominator.
ghost use Rattle.core_price.specs.Lowest.{DividesAll, DividesPoint, IsLowest, IsMultiple};
ghost use Rattle.nearest_point.specs.Numbers.{AreBelow};
ghost use Rattle.std.specs.Prelude.{IfOk, length, pos, ℕ, ℤ, ◌<ℤ◌, ◌^◌, ◌≡◌};
ghost use Rattle.wide_num.specs.Range.{Divides, InRange};

use lin_solve::quotients;
use nearest_point::Nearest;
use std::alloc::{AllocError, Global};
use wide_num::{div_exact, gcd};

/// The payment vector and its multipliers over the least denominator.
pub(crate) fn reduced(alloc: Global, near: Nearest) -> Result<Nearest, AllocError>
    requires den { (pos 0 <ℤ near.den) × InRange near.den }
    requires at { AreBelow (2 ^ 120) near.at }
    requires first { AreBelow (2 ^ 120) near.first }
    requires second { AreBelow (2 ^ 120) near.second }
    ensures same { IfOk result
        (λ p. (g : ℤ) × IsMultiple g p.den p.at p.first p.second near.den near.at near.first near.second) }
    ensures lowest { IfOk result (λ p. IsLowest p.den p.at p.first p.second) }
{
    let divisor = greatest_divisor(&near);
    let at = quotients(alloc, divisor, near.at.items())?;
    let first = quotients(alloc, divisor, near.first.items())?;
    let second = quotients(alloc, divisor, near.second.items())?;
    Ok(Nearest {
        den: div_exact(near.den, divisor),
        at,
        first,
        second,
    })
}

// The greatest common divisor of the denominator, all numbers and all multipliers.
fn greatest_divisor(near: &Nearest) -> i128
    requires den { (pos 0 <ℤ near.now.den) × InRange near.now.den }
    requires at { AreBelow (2 ^ 120) near.now.at }
    requires first { AreBelow (2 ^ 120) near.now.first }
    requires second { AreBelow (2 ^ 120) near.now.second }
    ensures positive { pos 0 <ℤ result }
    ensures divides { DividesPoint result near.now.den near.now.at near.now.first near.now.second }
    ensures greatest { (g : ℕ) → DividesPoint (pos g) near.now.den near.now.at near.now.first near.now.second
        → Divides (pos g) result }
{
    let divisor = common_divisor(near.den, near.at.items());
    let divisor = common_divisor(divisor, near.first.items());
    common_divisor(divisor, near.second.items())
}

// The greatest common divisor of a positive number and a list.
fn common_divisor(start: i128, numbers: &[i128]) -> i128
    requires start { (pos 0 <ℤ start) × InRange start }
    requires numbers { AreBelow (2 ^ 120) numbers.now }
    ensures positive { (pos 0 <ℤ result) × InRange result }
    ensures start { Divides result start }
    ensures numbers { DividesAll result numbers.now }
    ensures greatest { (g : ℕ) → Divides (pos g) start → DividesAll (pos g) numbers.now → Divides (pos g) result }
{
    let mut divisor = start;
    for number in numbers {
        divisor = gcd(divisor, *number);
    }
    divisor
}
