// The rows of the first turn.
ghost use Rattle.core_price.specs.Rows;
ghost use Rattle.core_price.specs.Rows.{single_bits};
ghost use Rattle.limits.specs.declared.TheConstants.{MOST_WINNERS};
ghost use Rattle.std.specs.Prelude.{IfOk, length, map, ◌≡◌, ◌≤◌};

use choices::{Choice, Single};
use far_num::Row;
use std::alloc::{AllocError, Global};

/// The rows so far, each with its choice.
#[derive(Drop)]
pub(crate) struct Constraints {
    pub(crate) rows: Vec<Row>,
    pub(crate) choices: Vec<Choice>,
}

/// The Vickrey prices in order.
pub(crate) fn prices_of(alloc: Global, singles: &[Single]) -> Result<Vec<i128>, AllocError>
    ensures { IfOk result (λ v. v.items ≡ Rows.prices_of singles.now) }
{
    let mut prices = Vec::new(alloc);
    for single in singles {
        prices.push(single.price)?;
    }
    Ok(prices)
}

/// The single winners, each with its Vickrey price as
/// bound.
pub(crate) fn first_rows(alloc: Global, singles: &[Single]) -> Result<Constraints, AllocError>
    requires { length singles.now ≤ MOST_WINNERS }
    ensures rows { IfOk result (λ a. a.rows.items ≡ single_bits 0 singles.now) }
    ensures choices { IfOk result (λ a. a.choices.items ≡ map (λ s. s.choice) singles.now) }
{
    let mut rows = Vec::new(alloc);
    let mut choices = Vec::new(alloc);
    for (i, single) in singles.iter().enumerate() {
        rows.push(Row {
            members: 1 << i,
            bound: single.price,
        })?;
        choices.push(single.choice.copied(alloc)?)?;
    }
    Ok(Constraints { rows, choices })
}
