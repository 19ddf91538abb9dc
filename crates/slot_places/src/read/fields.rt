// The fields of a line.
ghost use Rattle.std.specs.Prelude.{IfNone, IfSome, List, ℕ, ◌++◌, ◌∷◌, ◌≡◌, ◌≢◌, ◌≤◌};
ghost use Rattle.std.specs.Fmt.{decimal};
ghost use Rattle.std.specs.List.{AllByRecursion};

use line_format::{field_len, read_at_most};

/// The two fields of a text. The first one ends at the first space.
pub fn two_fields(text: &[u8]) -> Option<(&[u8], &[u8])>
    ensures found { IfSome result
        (λ parts. AllByRecursion (λ c. c ≢ 32) parts.0.now × (text.now ≡ parts.0.now ++ 32 ∷ parts.1.now)) }
    ensures none { IfNone result
        ((first second : List ℕ) → AllByRecursion (λ c. c ≢ 32) first → text.now ≡ first ++ 32 ∷ second → ⊥) }
{
    let (first, behind) = text.split_at(field_len(text));
    let second = behind.strip_prefix(b" ")?;
    Some((first, second))
}

/// The number from `least` to `most` that a field spells, and None exactly if it spells none.
pub fn read_within(field: &[u8], least: u64, most: u64) -> Option<u64>
    ensures found { IfSome result (λ n. ((least ≤ n) × (n ≤ most)) × (field.now ≡ decimal n)) }
    ensures none { IfNone result ((n : ℕ) → least ≤ n → n ≤ most → field.now ≡ decimal n → ⊥) }
{
    match read_at_most(field, most) {
        Some(n) if n >= least => Some(n),
        _ => None,
    }
}
