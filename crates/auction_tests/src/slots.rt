ghost use Rattle.std.specs.Prelude.{IsTrue, pos};
ghost use Rattle.choices.specs.Lowering.{CanLower};
ghost use Rattle.slot_places.specs.Board.{market_of_slots};

use crate::samples::{choice_of, is_line};
use choices::Chooser;
use slot_places::{SlotChooser, Slots, place_win, read_slots};
use std::alloc::{AllocError, Global};
use std::process::Abort;
use std::test::Fail;

/// The bids of x and y fit together, and z's bid fits with neither.
const THREE: &str =
    "slots 1\nband 4\nbidder x 2\nplace 1 10\nbidder y 1\nplace 4 8\nbidder z 1\nplace 2 12\nend\n";

fn slots_of(rt: &impl Abort, alloc: Global, text: &str) -> Slots {
    let Ok(slots) = read_slots(alloc, text.as_bytes()) else {
        panic!(rt; "these are slots");
    };
    slots
}

// Asserts which order allows the choice first, if one does.
fn order_is(
    rt: &impl Abort,
    alloc: Global,
    slots: &Slots,
    numbers: &[u16],
    order: Option<&[u16]>,
) -> Result<(), AllocError> {
    let choice = choice_of(alloc, numbers)?;
    let found = slots.order_of(alloc, &choice)?;
    let items = found.as_ref().map(|list| list.items());
    assert!(rt; items == order);
    Ok(())
}

#[test]
fn the_first_order_places_a_choice(rt: HostRuntime) -> Result<(), Fail> {
    let slots = slots_of(&rt, rt.alloc(), THREE);
    order_is(&rt, rt.alloc(), &slots, &[0, 0, 0], Some(&[1, 2, 3]))?;
    order_is(&rt, rt.alloc(), &slots, &[0, 1, 0], Some(&[1, 3, 2]))?;
    order_is(&rt, rt.alloc(), &slots, &[0, 0, 1], Some(&[2, 3, 1]))?;
    order_is(&rt, rt.alloc(), &slots, &[1, 0, 1], None)?;
    order_is(&rt, rt.alloc(), &slots, &[1, 1, 2], None)?;
    order_is(&rt, rt.alloc(), &slots, &[1, 1], None)?;
    Ok(())
}

#[test]
fn an_order_lists_each_bidder(rt: HostRuntime) -> Result<(), Fail> {
    let slots = slots_of(&rt, rt.alloc(), THREE);
    let choice = choice_of(rt.alloc(), &[1, 1, 0])?;
    assert!(rt; slots.allows(&[1, 3, 2], &choice));
    assert!(rt; !slots.allows(&[1, 3], &choice));
    Ok(())
}

/// Asserts the names and the widths of three bidders.
fn has_widths(rt: &impl Abort, slots: &Slots) {
    if slots.bidders() != 3 {
        panic!(rt; "there are three bidders");
    }
    assert!(rt; slots.name(1) == "x");
    assert_eq!(rt; slots.width(1), 2);
    assert_eq!(rt; slots.width(3), 1);
}

/// Asserts the only bid of the second bidder.
fn has_one_place(rt: &impl Abort, slots: &Slots, start: u16, amount: u64) {
    if slots.bidders() < 2 || slots.places(2) != 1 {
        panic!(rt; "y has one bid");
    }
    let place = slots.place(2, 1);
    assert_eq!(rt; place.start, start);
    assert_eq!(rt; place.amount, amount);
}

#[test]
fn slots_tell_what_was_read(rt: HostRuntime) {
    let slots = slots_of(&rt, rt.alloc(), THREE);
    has_widths(&rt, &slots);
    has_one_place(&rt, &slots, 4, 8);
}

// Whether these can be the surpluses of a search: one for each bidder, 0 for losers, and no sum leaves the range.
fn are_surpluses(chooser: &SlotChooser, surplus: &[i128]) -> bool
    ensures { IsTrue result → CanLower (market_of_slots chooser.now.slots.now) chooser.now.winners (pos 1) surplus.now }
{
    let _bidders = chooser.slots.bidders();
    if surplus.len() != chooser.members() {
        return false;
    }
    for k in 0..surplus.len() {
        let lost = chooser.winners.number(k as u16 + 1) == 0;
        if surplus[k].unsigned_abs() > 1_000_000 || lost && surplus[k] != 0 {
            return false;
        }
    }
    true
}

// Asserts what the search at these surpluses finds.
fn lowered_is(
    rt: &impl Abort,
    alloc: Global,
    chooser: &SlotChooser,
    surplus: &[i128],
    numbers: &[u16],
    sum: i128,
    table: &[i128],
) -> Result<(), AllocError> {
    if !are_surpluses(chooser, surplus) {
        panic!(rt; "these are surpluses");
    }
    let found = chooser.best_lowered(alloc, 1, surplus)?;
    assert!(rt; found.choice.numbers() == numbers);
    assert_eq!(rt; found.sum, sum);
    assert!(rt; is_line(&found.table, 0, table));
    Ok(())
}

// Asserts that the bids of x and y win.
fn first_two_win(rt: &impl Abort, chooser: &SlotChooser) {
    assert!(rt; chooser.winners().numbers() == [1, 1, 0].as_slice());
    if chooser.members() != 3 {
        panic!(rt; "there are three bidders");
    }
    assert_eq!(rt; chooser.winner_value(1), 10);
    assert_eq!(rt; chooser.winner_value(3), 0);
}

// If x pays 15 for its bid of 10, its surplus is -5, and it counts 5 next to z, which leaves it without a bid.
fn searches(rt: &impl Abort, alloc: Global, chooser: &SlotChooser) -> Result<(), AllocError> {
    let paid = [12i128, 2, 12, 0, 2, 2, 0, 0];
    lowered_is(rt, alloc, chooser, &[6, 6, 0], &[0, 0, 1], 12, &paid)?;
    let above = [17i128, 1, 17, 0, 6, 1, 5, 0];
    lowered_is(rt, alloc, chooser, &[-5, 7, 0], &[0, 0, 1], 17, &above)
}

#[test]
fn a_chooser_searches_at_surpluses(rt: HostRuntime) -> Result<(), Fail> {
    let slots = slots_of(&rt, rt.alloc(), THREE);
    let chooser = SlotChooser::new(&slots, place_win(rt.alloc(), &slots)?);
    first_two_win(&rt, &chooser);
    searches(&rt, rt.alloc(), &chooser)?;
    Ok(())
}
