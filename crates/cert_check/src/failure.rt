// What fails first, as far as a certificate has come.
ghost use Rattle.std.specs.Prelude.{◌≡◌, ◌≤◌, ◌<◌, ◌+◌, ◌^◌, ◌↔◌, ℕ, IsTrue, None};
ghost use Rattle.auction_model.specs.Book.{Book};
ghost use Rattle.cert_grammar.specs.Certificate.{CertValue};
ghost use Rattle.cert_check.specs.Places.{IsFirstFailing};
ghost use Rattle.cert_soundness.specs.Tests.{Asks};
ghost use Rattle.cert_check.specs.Partway.{failure_at, HoldsTo, IsJudged, IsLate, IsSmallPlace};
ghost use Rattle.cert_check.specs.Verdicts.{IsVerdict};

use crate::Verdict;

/// The first test that fails, and the first place where it does.
#[derive(Clone, Copy, Debug, PartialEq, Eq)]
pub struct Failure {
    /// The number of the test.
    pub test: u8,
    /// The place.
    pub place: u64,
}

/// The failure of a test with this first failing place: the test at this place, and nothing if there is none.
pub fn failure_of(test: u8, found: Option<u64>) -> Option<Failure>
    requires test { test < 10 }
    ensures judged { (book : Book) (w : ℕ → ℕ) (c : CertValue) → HoldsTo book w c test 0
        → IsFirstFailing (Asks book w c test) found → IsJudged book w c (test + 1) 0 result }
    ensures failure { result ≡ failure_at test found }
{
    match found {
        Some(place) => Some(Failure { test, place }),
        None => None,
    }
}

/// What fails first after a table, once all its rules were tested: what was found early comes after the rules.
pub fn after_table(
    failed: Option<Failure>,
    test: u8,
    base: u64,
    late: Option<u64>,
) -> Option<Failure>
    requires late { IsSmallPlace late }
    requires base { base < 2 ^ 62 }
    ensures { (book : Book) (w : ℕ → ℕ) (c : CertValue) (n : ℕ) → IsJudged book w c test base failed
        → IsLate book w c test base n late → ((q : ℕ) → base + n ≤ q → Asks book w c test q)
        → IsJudged book w c (test + 1) 0 result }
{
    match failed {
        Some(failure) => Some(failure),
        None => of_table(test, base, late),
    }
}

/// The first failure of those that were found early.
fn of_table(test: u8, base: u64, late: Option<u64>) -> Option<Failure>
    requires late { IsSmallPlace late }
    requires base { base < 2 ^ 62 }
    ensures { (book : Book) (w : ℕ → ℕ) (c : CertValue) (n : ℕ) → HoldsTo book w c test base
        → IsLate book w c test base n late → ((q : ℕ) → base + n ≤ q → Asks book w c test q)
        → IsJudged book w c (test + 1) 0 result }
{
    match late {
        Some(place) => Some(Failure {
            test,
            place: base + place,
        }),
        None => None,
    }
}

/// What is found early, with one more place of those after the rules.
pub fn merge_early(late: Option<u64>, place: u64, holds: bool) -> Option<u64>
    ensures { (book : Book) (w : ℕ → ℕ) (c : CertValue) (test base : ℕ) → IsLate book w c test base place late
        → (late ≡ None → IsTrue holds ↔ Asks book w c test (base + place))
        → IsLate book w c test base (place + 1) result }
{
    match late {
        Some(earlier) => Some(earlier),
        None => one_late(place, holds),
    }
}

/// The place, if it fails.
fn one_late(place: u64, holds: bool) -> Option<u64>
    ensures { (book : Book) (w : ℕ → ℕ) (c : CertValue) (test base : ℕ) → IsLate book w c test base place None
        → (IsTrue holds ↔ Asks book w c test (base + place)) → IsLate book w c test base (place + 1) result }
{
    if holds { None } else { Some(place) }
}

/// The verdict, once all lines were read.
pub fn verdict_of(failed: Option<Failure>) -> Verdict
    ensures { (book : Book) (w : ℕ → ℕ) (c : CertValue) → IsJudged book w c 10 0 failed → IsVerdict book w c result }
{
    match failed {
        Some(failure) => Verdict::No {
            test: failure.test,
            place: failure.place,
        },
        None => Verdict::Yes,
    }
}
