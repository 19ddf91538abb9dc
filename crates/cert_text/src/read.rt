// From bytes to a certificate.
ghost use Rattle.std.specs.Prelude.{◌≡◌, ◌≤◌, IfErr, IfOk, OnOk, length, drop};
ghost use Rattle.line_format.specs.LineText.{stated};
ghost use Rattle.choices.specs.Lines.{width_of};
ghost use Rattle.cert_grammar.specs.Says.{CertSays};
ghost use Rattle.cert_grammar.specs.CertText.{IsCertificate};
ghost use Rattle.cert_text.specs.CertValues.{cert_value, IsFor};
ghost use Rattle.cert_text.specs.Parts.{cert_from};
ghost use Rattle.cert_text.specs.Stops.{StopsAt};
ghost use Rattle.cert_text.specs.Readers.{HaltsAtEnd};

pub(crate) mod fields;
pub(crate) mod lines;
pub(crate) mod parts;
pub(crate) mod rows;
pub(crate) mod stages;
pub(crate) mod tables;

use crate::read::stages::{
    Opening, Payments, Winning, take_closing, take_opening, take_payments, take_winning,
};
use crate::version::take_version;
use crate::{CertStop, Certificate, Shape};
use choices::Grid;
use std::alloc::Global;

/// The certificate that the bytes are the text of, for that many bidders and states.
///
/// Errors: `Form` and `Range` with the byte where the first faulty line begins, the first if its form is wrong, the second if
/// its form is right and a number in it is out of range; `Memory` when out of memory.
pub fn read_cert(alloc: Global, bytes: &[u8], shape: Shape) -> Result<Certificate, CertStop>
    ensures says { IfOk result (λ c. CertSays shape.bidders shape.states bytes.now (stated (cert_value c))) }
    ensures shape { IfOk result (IsFor shape.bidders shape.states) }
    ensures stops { IfErr result (StopsAt shape.bidders shape.states bytes.now) }
{
    let begin = take_version(alloc, bytes, shape)?;
    let opening = take_opening(alloc, bytes, begin)?;
    let winning = take_winning(alloc, bytes, opening.next, shape)?;
    let payments = take_payments(alloc, bytes, winning.next, shape.bidders)?;
    let closing = take_closing(alloc, bytes, payments.next, shape)?;
    end_at(bytes, closing.next)?;
    Ok(certificate(opening, winning, payments, closing.table))
}

/// Nothing is at the place.
///
/// Errors: `Form` with the place where something does.
pub fn end_at(bytes: &[u8], place: usize) -> Result<(), CertStop>
    requires { place ≤ length bytes.now }
    ensures ok { OnOk result (length (drop place bytes.now) ≡ 0) }
    ensures halts { IfErr result (HaltsAtEnd bytes.now place) }
{
    if place < bytes.len() {
        return Err(CertStop::Form(place as u64));
    }
    Ok(())
}

/// The certificate of what was read of each stage.
fn certificate(opening: Opening, winning: Winning, payments: Payments, lowered: Grid) -> Certificate
    requires { IsCertificate (length winning.choice) (width_of winning.table)
        (cert_from opening.den opening.value winning.choice winning.table winning.withouts payments.pay payments.rows lowered) }
    ensures { cert_value result
        ≡ cert_from opening.den opening.value winning.choice winning.table winning.withouts payments.pay payments.rows lowered }
{
    Certificate {
        den: opening.den,
        value: opening.value,
        choice: winning.choice,
        table: winning.table,
        withouts: winning.withouts,
        pay: payments.pay,
        rows: payments.rows,
        lowered,
    }
}
