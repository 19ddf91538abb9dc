// Certificates of a placement as inputs.
use crate::{FileKind, Input, Status};
use limits::CERT_BYTES;
use placement_cert::{PlaceCertificate, read_places};
use slot_places::Slots;
use std::alloc::Global;

/// A certificate of a placement.
#[derive(Clone, Copy)]
pub struct PlaceCertInput<'a> {
    /// The slots whose bidders are placed.
    pub slots: &'a Slots,
}

impl<'a> PlaceCertInput<'a> {
    ghost use Rattle.std.specs.Prelude.{◌≡◌, ◌≤◌, length};
    ghost use Rattle.limits.specs.declared.TheConstants.{MOST_PLACED};

    // How many bidders the placement has.
    fn bidders(&self) -> u16
        ensures count { result ≡ length self.now.slots.now.bidders }
        ensures few { result ≤ MOST_PLACED }
    {
        self.slots.bidders() as u16
    }
}

impl<'a> Input for PlaceCertInput<'a> {
    ghost use Rattle.std.specs.Prelude.{◌≡◌, length};
    ghost use Rattle.limits.specs.declared.TheConstants.{CERT_BYTES};
    ghost use Rattle.placement_cert.specs.CertValues.{place_cert_value};
    ghost use Rattle.cca_cli.specs.Answers.{PlaceCertAnswers};
    ghost use Rattle.cca_cli.specs.Outcome.{value, stops};
    ghost use Rattle.cca_cli.specs.declared.status.FileKind.TheVariants.{Cert};

    type Value = PlaceCertificate;

    ghost part = { λ _. Cert };

    ghost room = { λ _. CERT_BYTES };

    ghost states = { λ s bytes cert. PlaceCertAnswers (length s.slots.now.bidders) bytes
        (value (place_cert_value cert)) × (length cert.choice ≡ length s.slots.now.bidders) };

    ghost halts = { λ s bytes status. PlaceCertAnswers (length s.slots.now.bidders) bytes (stops status) };

    fn kind(&self) -> FileKind {
        FileKind::Cert
    }

    fn most(&self) -> u64 {
        CERT_BYTES
    }

    fn read(&self, alloc: Global, bytes: &[u8]) -> Result<PlaceCertificate, Status> {
        match read_places(alloc, bytes, self.bidders()) {
            Ok(cert) => Ok(cert),
            Err(stop) => Err(Status::from(stop)),
        }
    }
}
