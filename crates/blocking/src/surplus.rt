// Surpluses of bidders.
ghost use Rattle.std.specs.Prelude.{◌≡◌, IfOk, pos, ◌^◌, ◌≤ℤ◌, ◌<ℤ◌, ◌-ℤ◌, ◌*ℤ◌};
ghost use Rattle.core_laws.specs.Surplus.{surpluses_of};
ghost use Rattle.blocking.specs.Look.{CanLook};

use choices::Chooser;
use std::alloc::{AllocError, Global};

/// What each bidder gains at the point, times `den`: what it wins with less what it pays.
pub(crate) fn surpluses<C: Chooser>(
    alloc: Global,
    chooser: &C,
    den: i128,
    at: &[i128],
) -> Result<Vec<i128>, AllocError>
    requires { CanLook (C.market chooser.now) (C.chosen chooser.now) den at.now }
    ensures { IfOk result (λ list. list.items ≡ surpluses_of (C.market chooser.now) (C.chosen chooser.now) den at.now) }
{
    let mut list = Vec::with_capacity(alloc, at.len())?;
    for (k, paid) in at.iter().enumerate() {
        let own = chooser.winner_value(k as u16 + 1);
        list.push(surplus(den, own, *paid))?;
    }
    Ok(list)
}

fn surplus(den: i128, own: i128, paid: i128) -> i128
    requires own { (pos 0 ≤ℤ (den *ℤ own)) × ((den *ℤ own) <ℤ pos (2 ^ 120)) }
    requires paid { (pos 0 ≤ℤ paid) × (paid <ℤ pos (2 ^ 120)) }
    ensures { result ≡ (den *ℤ own) -ℤ paid }
{
    den * own - paid
}
