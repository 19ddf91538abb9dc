// The prices of the bidders of a band, and the turns of their search.
use core_price::Turn;
use place_price::{PlaceCertificate, place_rounds, price_places};
use slot_places::{Slots, read_slots};
use std::alloc::{AllocError, Global};
use std::process::Abort;

/// A band of four slots: x bids 10 for slots 1 and 2, y 8 for slot 4, and z 12 for slot 2. So x and y win, and z blocks their
/// Vickrey prices of 4 and 2 by 6. Each pays half of it.
const SLOTS: &str =
    "slots 1\nband 4\nbidder x 2\nplace 1 10\nbidder y 1\nplace 4 8\nbidder z 1\nplace 2 12\nend\n";

fn band(rt: &impl Abort, alloc: Global) -> Slots {
    let Ok(slots) = read_slots(alloc, SLOTS.as_bytes()) else {
        panic!(rt; "these are slots");
    };
    slots
}

/// Asserts who wins, the order of the placed bidders, and what they pay.
fn shows_the_prices(rt: &impl Abort, cert: &PlaceCertificate) {
    assert_eq!(rt; cert.value, 18);
    assert!(rt; cert.choice.numbers() == [1, 1, 0].as_slice());
    assert!(rt; cert.order.items() == [1, 3, 2].as_slice());
    assert_eq!(rt; cert.den, 1);
    assert!(rt; cert.pay.items() == [7i128, 5, 0].as_slice());
}

#[test]
fn a_band_is_priced(rt: HostRuntime) -> Result<(), AllocError> {
    let slots = band(&rt, rt.alloc());
    let cert = price_places(rt.alloc(), &slots)?;
    shows_the_prices(&rt, &cert);
    Ok(())
}

/// Asserts the point of a turn, and what its block offers above the payments, if there is one.
fn is_turn(rt: &impl Abort, turn: &Turn, at: &[i128], excess: Option<i128>) {
    assert_eq!(rt; turn.den, 1);
    assert!(rt; turn.at.items() == at);
    match &turn.block {
        Some(block) => assert_eq!(rt; Some(block.excess), excess),
        None => assert_eq!(rt; None, excess),
    }
}

#[test]
fn a_band_is_priced_in_two_turns(rt: HostRuntime) -> Result<(), AllocError> {
    let slots = band(&rt, rt.alloc());
    let turns = place_rounds(rt.alloc(), &slots)?;
    match turns.items() {
        [first, last] => {
            is_turn(&rt, first, &[4, 2], Some(6));
            is_turn(&rt, last, &[7, 5], None);
        }
        _ => panic!(rt; "there are two turns"),
    }
    Ok(())
}
