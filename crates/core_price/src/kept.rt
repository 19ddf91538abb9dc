// The rows that are kept for the proof of the prices.
ghost use Rattle.core_price.specs.Kept;
ghost use Rattle.core_price.specs.Kept.{pair_used, with_pairs};
ghost use Rattle.std.specs.Prelude.{IfOk, filter, length, ◌≡◌};

use crate::start::Constraints;
use crate::{PricedRow, RowList};
use nearest_point::Nearest;
use std::alloc::{AllocError, Global};

/// The rows whose multipliers aren't both 0, in the order of their arrival.
pub(crate) fn kept_rows(
    alloc: Global,
    asked: &Constraints,
    near: &Nearest,
) -> Result<RowList, AllocError>
    requires choices { length asked.now.choices.items ≡ length asked.now.rows.items }
    requires first { length near.now.first ≡ length asked.now.rows.items }
    requires second { length near.now.second ≡ length asked.now.rows.items }
    ensures { IfOk result
        (λ rows. rows ≡ filter Kept.is_used
        (with_pairs asked.now.rows.items asked.now.choices.items near.now.first near.now.second)) }
{
    let mut kept = RowList::new(alloc);
    for (i, row) in asked.rows.iter().enumerate() {
        let first = near.first.items()[i];
        let second = near.second.items()[i];
        if is_used(first, second) {
            let choice = asked.choices[i].copied(alloc)?;
            kept.push(PricedRow {
                row: *row,
                choice,
                first,
                second,
            })?;
        }
    }
    Ok(kept)
}

fn is_used(first: i128, second: i128) -> bool
    ensures { result ≡ pair_used first second }
{
    first != 0 || second != 0
}
