// Laws of the text of placement certificates. It has no code.
ghost use Rattle.std.specs.Prelude.{◌≡◌, ℕ, ◌<◌, ◌≤◌, ◌^◌, List, length};
ghost use Rattle.line_format.specs.LineText.{Said, stated};
ghost use Rattle.cert_grammar.specs.PlaceCert.{PlaceCertValue};
ghost use Rattle.limits.specs.declared.TheConstants.{CERT_BYTES, MOST_PLACED};
ghost use Rattle.placement_cert.specs.PlaceText.{IsPlaceCertificate};
ghost use Rattle.placement_cert.specs.PlaceSays.{place_text, PlaceCertSays};

/// Bytes have at most one reading: a placement certificate, the place of the first faulty line, or the place of the first line
/// of right form with a number out of range.
pub fn one_place_cert()
    ensures { (bidders : ℕ) (bytes : List ℕ) (x y : Said PlaceCertValue ℕ) → PlaceCertSays bidders bytes x
        → PlaceCertSays bidders bytes y → x ≡ y }
{}

/// The text of a placement certificate states it, so each has a text.
pub fn text_of_place_cert()
    ensures { (bidders : ℕ) (c : PlaceCertValue) → bidders < 2 ^ 100 → IsPlaceCertificate bidders c
        → PlaceCertSays bidders (place_text c) (stated c) }
{}

/// The text of each placement certificate of at most that many bidders as a band may have is within the limit of a certificate file: it
/// has less than 50,000 bytes.
///
/// A table has one line of at most 64 entries of at most 37 digits, and a certificate has at most eight of them.
pub fn short_place_text()
    ensures short { (bidders : ℕ) (c : PlaceCertValue) → bidders ≤ MOST_PLACED → IsPlaceCertificate bidders c
        → length (place_text c) < 50000 }
    ensures within { (bidders : ℕ) (c : PlaceCertValue) → bidders ≤ MOST_PLACED → IsPlaceCertificate bidders c
        → length (place_text c) ≤ CERT_BYTES }
{}
