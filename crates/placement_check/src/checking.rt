// The tests in their order.
ghost use Rattle.std.specs.Prelude.{◌≡◌, ◌<◌, ◌≤◌, ◌↔◌, ℕ, IsTrue};
ghost use Rattle.cert_check.specs.Head.{HoldsBefore};
ghost use Rattle.cert_check.specs.Places.{IsFirstFailing};
ghost use Rattle.placement_cert.specs.CertValues.{place_cert_value};
ghost use Rattle.placement_check.specs.PlacePriced.{IsPricedPlaceCert};
ghost use Rattle.placement_check.specs.PlaceSound.{IsPlaceSound};
ghost use Rattle.placement_check.specs.PlaceTests.{Asks};
ghost use Rattle.placement_check.specs.Shown.{IsFor};
ghost use Rattle.placement_check.specs.Verdicts.{HoldsUpTo, IsPlaceVerdict};

use crate::claims::{least_holds, nearest_holds, payment_holds, row_holds};
use crate::heads::{amounts_hold, choice_holds, lowered_holds, sizes_hold};
use crate::laws::{one_place_verdict, sound_places};
use crate::parts::part_holds;
use cert_check::Verdict;
use placement_cert::PlaceCertificate;
use slot_places::Slots;

/// Tests a placement certificate of slots.
///
/// `Yes` is returned exactly if all nine tests pass, and then the order places the choice, which is one of the greatest, and
/// with the payments it is the core outcome. Else the result is the first test that fails, with the first place where it does.
/// The certificate is for as many bidders as the slots have. It takes no memory.
pub fn check_places(slots: &Slots, cert: &PlaceCertificate) -> Verdict
    requires { IsFor slots.now cert.now }
    ensures verdict { IsPlaceVerdict slots.now (place_cert_value cert.now) result }
    ensures sound { result ≡ Verdict.Yes → IsPlaceSound slots.now (place_cert_value cert.now) }
    ensures priced { IsPricedPlaceCert slots.now (place_cert_value cert.now) → result ≡ Verdict.Yes }
{
    sound_places();
    one_place_verdict();
    for test in 1..10 {
        if let Some(place) = first_failing(slots, cert, test) {
            return Verdict::No { test, place };
        }
    }
    Verdict::Yes
}

/// The first place where a test of 1 to 9 fails, once the tests before it pass.
fn first_failing(slots: &Slots, cert: &PlaceCertificate, test: u8) -> Option<u64>
    requires shape { IsFor slots.now cert.now }
    requires test { (0 < test) × (test ≤ 9) }
    requires before { HoldsUpTo slots.now (place_cert_value cert.now) test }
    ensures { IsFirstFailing (Asks slots.now (place_cert_value cert.now) test) result }
{
    for place in 0..places(slots, cert, test) {
        if !test_holds(slots, cert, test, place) {
            return Some(place as u64);
        }
    }
    None
}

/// How many places a test has, counted from 0: it asks nothing at those from this number on.
fn places(slots: &Slots, cert: &PlaceCertificate, test: u8) -> usize
    requires test { (0 < test) × (test ≤ 9) }
    ensures { (place : ℕ) → result ≤ place → Asks slots.now (place_cert_value cert.now) test place }
{
    let bidders = slots.bidders();
    let rows = cert.rows.items();
    match test {
        1 => 4,
        2 => bidders + 3,
        3 | 9 => (1 << bidders) + 1,
        4 | 5 => bidders + 1,
        6 => rows.len() + 1,
        _ => rows.len() + bidders + 1,
    }
}

/// Whether a test passes at a place, once all before it pass.
fn test_holds(slots: &Slots, cert: &PlaceCertificate, test: u8, place: usize) -> bool
    requires shape { IsFor slots.now cert.now }
    requires test { (0 < test) × (test ≤ 9) }
    requires before { HoldsUpTo slots.now (place_cert_value cert.now) test }
    requires earlier { HoldsBefore (Asks slots.now (place_cert_value cert.now) test) place }
    ensures { IsTrue result ↔ Asks slots.now (place_cert_value cert.now) test place }
{
    match test {
        1 => sizes_hold(cert, place),
        2 => choice_holds(slots, cert, place),
        3 => amounts_hold(slots, cert, place),
        4 => part_holds(slots, cert, place),
        5 => payment_holds(slots, cert, place),
        6 => row_holds(slots, cert, place),
        7 => least_holds(slots, cert, place),
        8 => nearest_holds(slots, cert, place),
        _ => lowered_holds(slots, cert, place),
    }
}
