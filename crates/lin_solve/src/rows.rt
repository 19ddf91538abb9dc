ghost use Rattle.lin_solve.specs.Bounds.{reach};
ghost use Rattle.lin_solve.specs.Elimination.{AreQuotients, ContentOf, IsMix, IsPrimitivePart, Reduces, product};
ghost use Rattle.std.specs.Prelude.{IfOk, length, pos, unsigned_abs, ℕ, ◌*ℤ◌, ◌*◌, ◌+ℤ◌, ◌+◌, ◌-ℤ◌, ◌<◌, ◌^◌, ◌≡◌, ◌≢◌};
ghost use Rattle.wide_num.specs.Range.{Divides};
ghost use Rattle.wide_num.specs.Sums.{nth};

use std::alloc::{AllocError, Global};
use wide_num::{NumList, div_exact, gcd};

/// A product that is known to stay in the range.
pub fn times(a: i128, b: i128) -> i128
    requires { unsigned_abs a * unsigned_abs b < 2 ^ 120 }
    ensures { result ≡ a *ℤ b }
{
    a * b
}

fn add_product(sum: i128, a: i128, b: i128) -> i128
    requires { unsigned_abs sum + unsigned_abs a * unsigned_abs b < 2 ^ 120 }
    ensures { result ≡ sum +ℤ a *ℤ b }
{
    sum + a * b
}

fn minus_products(s: i128, v: i128, t: i128, w: i128) -> i128
    requires { unsigned_abs s * unsigned_abs v + unsigned_abs t * unsigned_abs w < 2 ^ 120 }
    ensures { result ≡ s *ℤ v -ℤ t *ℤ w }
{
    let left = times(s, v);
    let right = times(t, w);
    left - right
}

/// The product of two rows.
pub fn dot(line: &[i128], vector: &[i128]) -> i128
    requires long { length line.now ≡ length vector.now }
    requires room { reach line.now vector.now < 2 ^ 120 }
    ensures { result ≡ product line.now vector.now }
{
    let mut sum = 0;
    for i in 0..line.len() {
        sum = add_product(sum, line[i], vector[i]);
    }
    sum
}

/// The greatest common divisor of all numbers.
fn content(xs: &[i128]) -> i128
    requires { (i : ℕ) → i < length xs.now → unsigned_abs (nth xs.now i) < 2 ^ 120 }
    ensures { ContentOf (length xs.now) (nth xs.now) result }
{
    let mut shared = 0;
    for x in xs {
        shared = gcd(shared, *x);
    }
    shared
}

/// `s` times `v` less `t` times `w`.
fn mix(alloc: Global, s: i128, v: &[i128], t: i128, w: &[i128]) -> Result<NumList, AllocError>
    requires long { length v.now ≡ length w.now }
    requires room { (i : ℕ) → i < length v.now
        → unsigned_abs s * unsigned_abs (nth v.now i) + unsigned_abs t * unsigned_abs (nth w.now i) < 2 ^ 120 }
    ensures { IfOk result (λ y. IsMix s t v.now w.now y) }
{
    let mut out = NumList::with_capacity(alloc, v.len())?;
    for i in 0..v.len() {
        out.push(minus_products(s, v[i], t, w[i]))?;
    }
    Ok(out)
}

/// Each number divided by `g`, a divisor of all. The only error is out of memory.
pub fn quotients(alloc: Global, g: i128, v: &[i128]) -> Result<NumList, AllocError>
    requires apart { g ≢ pos 0 }
    requires divides { (i : ℕ) → i < length v.now → Divides g (nth v.now i) }
    requires room { (i : ℕ) → i < length v.now → unsigned_abs (nth v.now i) < 2 ^ 120 }
    ensures { IfOk result (λ y. AreQuotients g v.now y) }
{
    let mut out = NumList::with_capacity(alloc, v.len())?;
    for x in v {
        out.push(div_exact(*x, g))?;
    }
    Ok(out)
}

/// The numbers divided by what they share.
fn primitive(alloc: Global, v: NumList) -> Result<NumList, AllocError>
    requires room { (i : ℕ) → i < length v → unsigned_abs (nth v i) < 2 ^ 120 }
    requires apart { (p : ℕ) × (p < length v) × (nth v p ≢ pos 0) }
    ensures { IfOk result (λ y. IsPrimitivePart v y) }
{
    let shared = content(v.items());
    if shared == 1 {
        return Ok(v);
    }
    quotients(alloc, shared, v.items())
}

/// `s` times `v` less `t` times `w`, divided by what its numbers share.
pub fn reduced(
    alloc: Global,
    s: i128,
    v: &[i128],
    t: i128,
    w: &[i128],
) -> Result<NumList, AllocError>
    requires long { length v.now ≡ length w.now }
    requires room { (i : ℕ) → i < length v.now
        → unsigned_abs s * unsigned_abs (nth v.now i) + unsigned_abs t * unsigned_abs (nth w.now i) < 2 ^ 120 }
    requires apart { (p : ℕ) × (p < length v.now) × (s *ℤ nth v.now p -ℤ t *ℤ nth w.now p ≢ pos 0) }
    ensures { IfOk result (λ y. Reduces s t v.now w.now y) }
{
    let mixed = mix(alloc, s, v, t, w)?;
    primitive(alloc, mixed)
}
