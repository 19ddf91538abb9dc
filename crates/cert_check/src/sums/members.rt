//! The members of a row.
ghost use Rattle.std.specs.Prelude.{IsTrue, length, ℕ, ◌≡◌, ◌↔◌};
ghost use Rattle.auction_model.specs.Market.{number_of, uses};
ghost use Rattle.cert_grammar.specs.CertText.{AreMembers};
ghost use Rattle.cert_grammar.specs.Certificate.{is_member};

use crate::judging::number;

/// Whether a bidder is among the members of a row.
pub fn is_among(members: &[u16], j: u16) -> bool
    ensures { result ≡ is_member members.now j }
{
    for member in members {
        if *member == j {
            return true;
        }
    }
    false
}

/// Whether the choice uses all members.
pub fn uses_all(choice: &[u16], members: &[u16]) -> bool
    requires { AreMembers (length choice.now) 0 members.now }
    ensures { IsTrue result ↔ ((j : ℕ) → IsTrue (is_member members.now j) → IsTrue (uses choice.now j)) }
{
    for member in members {
        if number(choice, *member) == 0 {
            return false;
        }
    }
    true
}

/// Whether the choice uses no member.
pub fn uses_none(choice: &[u16], members: &[u16]) -> bool
    requires { AreMembers (length choice.now) 0 members.now }
    ensures { IsTrue result ↔ ((j : ℕ) → IsTrue (is_member members.now j) → number_of choice.now j ≡ 0) }
{
    for member in members {
        if number(choice, *member) != 0 {
            return false;
        }
    }
    true
}
