// The placement of an allowed choice.
ghost use Rattle.std.specs.Prelude.{IfOk, IsTrue};
ghost use Rattle.slot_places.specs.Board.{market_of_slots};
ghost use Rattle.slot_places.specs.Orders.{IsPlacement};

use choices::{Choice, Numbers};
use slot_places::Slots;
use std::alloc::{AllocError, Global};

/// The placement of an allowed choice: the first order that allows it. The only error is out of memory.
pub(crate) fn placement(
    alloc: Global,
    slots: &Slots,
    choice: &Choice,
) -> Result<Numbers, AllocError>
    requires { IsTrue ((market_of_slots slots.now).allowed choice.now) }
    ensures { IfOk result (λ order. IsPlacement slots.now choice.now order) }
{
    match slots.order_of(alloc, choice)? {
        Some(order) => Ok(order),
        None => unreachable!(),
    }
}
