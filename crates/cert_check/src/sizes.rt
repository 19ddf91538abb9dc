// C1: the denominator and the value.
ghost use Rattle.std.specs.Prelude.{IsTrue, [], pos, ◌≡◌, ◌*ℤ◌, ◌+ℤ◌, ◌<ℤ◌, ◌^◌, ◌≤ℤ◌, ◌↔◌};
ghost use Rattle.cert_check.specs.Places.{IsFirstFailing};
ghost use Rattle.cert_grammar.specs.Certificate.{CertValue};
ghost use Rattle.cert_soundness.specs.Tests.{C1};
ghost use Rattle.cert_check.specs.Fields.{cert_of};

/// The first place where C1 fails for a certificate with this denominator and this value.
pub fn sizes_test(den: i128, value: i128) -> Option<u64>
    ensures { (c : CertValue) → c.den ≡ den → c.value ≡ value → IsFirstFailing (C1 c) result }
{
    size_fault(den, value)
}

/// The place where the sizes fail their test, for the certificate of only these numbers.
fn size_fault(den: i128, value: i128) -> Option<u64>
    ensures { IsFirstFailing (C1 (cert_of den value [] [] [] [])) result }
{
    if den < 1 {
        return Some(1);
    }
    if value < 0 {
        return Some(2);
    }
    if !is_small(den, value) {
        return Some(3);
    }
    None
}

/// Whether `den * (value + 1)` is below 2^120. The quotient keeps all numbers within 128 bits.
pub fn is_small(den: i128, value: i128) -> bool
    requires den { pos 1 ≤ℤ den }
    requires value { pos 0 ≤ℤ value }
    ensures { IsTrue result ↔ ((den *ℤ (value +ℤ pos 1)) <ℤ pos (2 ^ 120)) }
{
    let most: u128 = (1 << 120) - 1;
    value.unsigned_abs() < most / den.unsigned_abs()
}
