ghost use Rattle.std.specs.Fmt.{decimal, signed_decimal};
ghost use Rattle.std.specs.Prelude.{IfNone, IfOk, IfSome, ℕ, ℤ, ◌<◌, ◌^◌, ◌∷◌, ◌≡◌};
ghost use Rattle.wide_num.specs.Range.{InRange};

use crate::{EDGE, Text};
use std::alloc::{AllocError, Global};

/// The decimal digits of a number without a leading zero, after a `-` if it is negative.
pub fn digits(alloc: Global, n: i128) -> Result<Text, AllocError>
    ensures { IfOk result (λ text. text ≡ signed_decimal n) }
{
    let spelled = n.to_string(alloc)?;
    let mut text = Text::new(alloc);
    text.add(spelled.as_bytes())?;
    Ok(text)
}

/// The number of the range that `digits` spells so, and None exactly if there is none.
pub fn read_number(text: &[u8]) -> Option<i128>
    ensures found { IfSome result (λ z. InRange z × (text.now ≡ signed_decimal z)) }
    ensures none { IfNone result ((z : ℤ) → InRange z → text.now ≡ signed_decimal z → ⊥) }
{
    match text {
        [b'-', size @ ..] => negative(size),
        _ => read_natural(text).map(|n| n as i128),
    }
}

// The number whose digits follow a `-`.
fn negative(size: &[u8]) -> Option<i128>
    ensures found { IfSome result (λ z. InRange z × (45 ∷ size.now ≡ signed_decimal z)) }
    ensures none { IfNone result ((z : ℤ) → InRange z → 45 ∷ size.now ≡ signed_decimal z → ⊥) }
{
    match read_natural(size) {
        Some(n) if n > 0 => Some(-(n as i128)),
        _ => None,
    }
}

/// The number below 2^120 that the text spells in decimal digits without sign or leading zero, and None exactly
/// if there is none.
pub fn read_natural(text: &[u8]) -> Option<u128>
    ensures found { IfSome result (λ n. (n < 2 ^ 120) × (text.now ≡ decimal n)) }
    ensures none { IfNone result ((n : ℕ) → n < 2 ^ 120 → text.now ≡ decimal n → ⊥) }
{
    match text {
        [] => return None,
        [b'0', _, ..] => return None,
        _ => {}
    }
    let mut n: u128 = 0;
    for byte in text {
        if !byte.is_ascii_digit() {
            return None;
        }
        n = 10 * n + (*byte - b'0') as u128;
        if n >= EDGE {
            return None;
        }
    }
    Some(n)
}
