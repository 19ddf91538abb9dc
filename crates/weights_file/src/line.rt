// The line of a bidder.
ghost use Rattle.std.specs.Prelude.{IfNone, IfSome, ℕ, ◌≡◌, ◌≤◌};
ghost use Rattle.std.specs.Fmt.{decimal};
ghost use Rattle.limits.specs.declared.TheConstants.{MOST_WEIGHT};
ghost use Rattle.weights_file.specs.WeightsForm.{IsWeight, weight_line};

use limits::MOST_WEIGHT;
use wide_num::read_natural;

/// The weight in the line of the bidder of this name.
pub fn line_weight(line: &[u8], name: &str) -> Option<u32>
    ensures found { IfSome result (λ w. IsWeight w × (line.now ≡ (weight_line name.now w).0)) }
    ensures none { IfNone result ((w : ℕ) → IsWeight w → line.now ≡ (weight_line name.now w).0 → ⊥) }
{
    let behind_word = line.strip_prefix(b"weight ")?;
    let behind_name = behind_word.strip_prefix(name.as_bytes())?;
    let field = behind_name.strip_prefix(b" ")?;
    read_weight(field)
}

/// The weight that a field spells.
fn read_weight(field: &[u8]) -> Option<u32>
    ensures found { IfSome result (λ w. IsWeight w × (field.now ≡ decimal w)) }
    ensures none { IfNone result ((w : ℕ) → IsWeight w → field.now ≡ decimal w → ⊥) }
{
    match read_natural(field) {
        Some(n) if n >= 1 && n <= MOST_WEIGHT as u128 => Some(n as u32),
        _ => None,
    }
}
