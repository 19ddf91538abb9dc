//! The text of a certificate by lines: its form, how bytes read as a certificate, and the laws of both. It has no code.
//!
//! Each line is a word and numbers. A plan says which line is to come, and a line that has come may put more into the plan: the
//! winning choice a part without each winner, and the count of the rows their lines.
#![tactic(auto)]

ghost use Rattle.std.specs.Prelude.{◌≡◌, ℕ, ◌<◌, ◌^◌, List};
ghost use Rattle.line_format.specs.LineText.{Said, stated};
ghost use Rattle.cert_grammar.specs.Certificate.{CertValue};
ghost use Rattle.cert_grammar.specs.CertText.{IsCertificate};
ghost use Rattle.cert_grammar.specs.Says.{cert_text, CertSays};

/// Bytes have at most one reading: a certificate, the place of the first faulty line, or the place of the first line of right
/// form with a number out of range.
pub fn one_cert()
    ensures { (bidders states : ℕ) (bytes : List ℕ) (x y : Said CertValue ℕ) → CertSays bidders states bytes x
        → CertSays bidders states bytes y → x ≡ y }
{}

/// The text of a certificate states it, so each certificate has a text.
pub fn text_of_cert()
    ensures { (bidders states : ℕ) (c : CertValue) → bidders < 2 ^ 100 → IsCertificate bidders states c
        → CertSays bidders states (cert_text c) (stated c) }
{}
