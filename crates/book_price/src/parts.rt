// The parts of a certificate without each winner.
ghost use Rattle.std.specs.Prelude.{◌≡◌, IfOk, length, map};
ghost use Rattle.book_price.specs.Made.{parts_from};
ghost use Rattle.cert_text.specs.Parts.{without_value};

use cert_text::{WithoutList, WithoutPart, shared_table};
use choices::{Grid, Single};
use std::alloc::{AllocError, Global};
use vickrey::Vickrey;

/// A part for each winner, in order.
pub(crate) fn all_parts(alloc: Global, alone: &Vickrey) -> Result<WithoutList, AllocError>
    requires { length alone.now.tables ≡ length alone.now.singles }
    ensures { IfOk result (λ list. map without_value list ≡ parts_from alone.now.singles alone.now.tables) }
{
    let mut parts = WithoutList::new(alloc);
    for (i, single) in alone.singles().iter().enumerate() {
        parts.push(part(alloc, single, alone.table(i))?)?;
    }
    Ok(parts)
}

// The part of one winner. It shares the lines of its table.
fn part(alloc: Global, single: &Single, table: &Grid) -> Result<WithoutPart, AllocError>
    ensures winner { IfOk result (λ p. p.winner ≡ single.now.winner) }
    ensures choice { IfOk result (λ p. p.choice ≡ single.now.choice) }
    ensures table { IfOk result (λ p. p.table ≡ table.now) }
{
    let choice = single.choice.copied(alloc)?;
    let table = shared_table(alloc, table)?;
    Ok(WithoutPart {
        winner: single.winner,
        choice,
        table,
    })
}
