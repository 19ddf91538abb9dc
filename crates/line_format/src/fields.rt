// Fields of a line, between spaces.
ghost use Rattle.std.specs.Prelude.{IfNone, IfSome, drop, length, take, ℕ, ◌≡◌, ◌≢◌, ◌≤◌};
ghost use Rattle.std.specs.List.{AllByRecursion};
ghost use Rattle.std.specs.Fmt.{decimal};
ghost use Rattle.line_format.specs.Fields.{FieldEnds};

use wide_num::read_natural;

/// How many bytes come before the first space.
pub fn field_len(text: &[u8]) -> usize
    ensures within { result ≤ length text.now }
    ensures own { AllByRecursion (λ c. c ≢ 32) (take result text.now) }
    ensures stops { FieldEnds (drop result text.now) }
{
    for (i, c) in text.iter().enumerate() {
        if *c == b' ' {
            return i;
        }
    }
    text.len()
}

/// The number of at most `most` that a field spells, and None exactly if it spells none.
pub fn read_at_most(field: &[u8], most: u64) -> Option<u64>
    ensures found { IfSome result (λ n. (n ≤ most) × (field.now ≡ decimal n)) }
    ensures none { IfNone result ((n : ℕ) → n ≤ most → field.now ≡ decimal n → ⊥) }
{
    match read_natural(field) {
        Some(n) if n <= most as u128 => Some(n as u64),
        _ => None,
    }
}
