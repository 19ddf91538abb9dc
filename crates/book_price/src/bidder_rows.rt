// The rows of a certificate.
ghost use Rattle.std.specs.Prelude.{◌≡◌, ◌<◌, ◌^◌, IfOk, length, map};
ghost use Rattle.book_price.specs.Made.{row_from};
ghost use Rattle.cert_text.specs.Parts.{row_value};

use cert_text::{CertRow, CertRows};
use choices::Choice;
use core_price::{PricedRow, members_of};
use std::alloc::{AllocError, Global};

/// The rows with their members, multipliers and choices, in order.
pub(crate) fn all_rows(
    alloc: Global,
    winners: &Choice,
    rows: &[PricedRow],
) -> Result<CertRows, AllocError>
    requires { length winners.now < 2 ^ 16 }
    ensures { IfOk result (λ list. map row_value list ≡ map (row_from winners.now) rows.now) }
{
    let mut list = CertRows::new(alloc);
    for row in rows {
        list.push(cert_row(alloc, winners, row)?)?;
    }
    Ok(list)
}

fn cert_row(alloc: Global, winners: &Choice, row: &PricedRow) -> Result<CertRow, AllocError>
    requires { length winners.now < 2 ^ 16 }
    ensures { IfOk result (λ r. row_value r ≡ row_from winners.now row.now) }
{
    let members = members_of(alloc, winners, row.row.members)?;
    let choice = row.choice.copied(alloc)?;
    Ok(CertRow {
        members,
        first: row.first,
        second: row.second,
        choice,
    })
}
