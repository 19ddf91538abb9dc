// From bytes to a placement certificate.
ghost use Rattle.std.specs.Prelude.{◌≡◌, ◌≤◌, IfErr, IfOk, length};
ghost use Rattle.line_format.specs.LineText.{stated};
ghost use Rattle.limits.specs.declared.TheConstants.{MOST_PLACED};
ghost use Rattle.placement_cert.specs.CertValues.{place_cert_value, PlaceStopsAt};
ghost use Rattle.placement_cert.specs.Parts.{place_cert_from};
ghost use Rattle.placement_cert.specs.PlaceSays.{PlaceCertSays};
ghost use Rattle.placement_cert.specs.PlaceText.{IsPlaceCertificate};

pub(crate) mod parts;
pub(crate) mod pieces;
pub(crate) mod rows;
pub(crate) mod stages;

use crate::PlaceCertificate;
use crate::read::pieces::take_lowered;
use crate::read::stages::{Payments, Placing, take_payments, take_placing};
use cert_text::{CertStop, Opening, end_at, take_opening, take_these};
use choices::Grid;
use std::alloc::Global;

/// The placement certificate that the bytes are the text of, for that many bidders.
///
/// Errors: `Form` and `Range` with the byte where the first faulty line begins, the first if its form is wrong, the second if
/// its form is right and a number in it is out of range; `Memory` when out of memory.
pub fn read_places(alloc: Global, bytes: &[u8], bidders: u16) -> Result<PlaceCertificate, CertStop>
    requires { bidders ≤ MOST_PLACED }
    ensures says { IfOk result (λ c. PlaceCertSays bidders bytes.now (stated (place_cert_value c))) }
    ensures bidders { IfOk result (λ c. length c.choice ≡ bidders) }
    ensures stops { IfErr result (PlaceStopsAt bidders bytes.now) }
{
    let begin = take_these(alloc, bytes, 0, b"pcert", &[1])?;
    let opening = take_opening(alloc, bytes, begin)?;
    let placing = take_placing(alloc, bytes, opening.next, bidders)?;
    let payments = take_payments(alloc, bytes, placing.next, bidders)?;
    let closing = take_lowered(alloc, bytes, payments.next, bidders)?;
    end_at(bytes, closing.next)?;
    Ok(certificate(opening, placing, payments, closing.table))
}

/// The certificate of what was read of each stage.
fn certificate(
    opening: Opening,
    placing: Placing,
    payments: Payments,
    lowered: Grid,
) -> PlaceCertificate
    requires { IsPlaceCertificate (length placing.choice)
        (place_cert_from opening.den opening.value placing.choice placing.order placing.table placing.withouts payments.pay payments.rows lowered) }
    ensures { place_cert_value result
        ≡ place_cert_from opening.den opening.value placing.choice placing.order placing.table placing.withouts payments.pay payments.rows lowered }
{
    PlaceCertificate {
        den: opening.den,
        value: opening.value,
        choice: placing.choice,
        order: placing.order,
        table: placing.table,
        withouts: placing.withouts,
        pay: payments.pay,
        rows: payments.rows,
        lowered,
    }
}
