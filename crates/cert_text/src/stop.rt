// Why bytes are not read.
ghost use Rattle.cert_text.specs.declared.stop.CertStop.TheVariants.{Memory};
ghost use Rattle.std.specs.Prelude.{◌≡◌};

use std::alloc::AllocError;

/// Why bytes are not read as a certificate.
#[derive(Clone, Copy, Debug, PartialEq, Eq)]
pub enum CertStop {
    /// The byte where the first faulty line begins, counted from 0.
    Form(u64),
    /// The byte where the first faulty line begins, counted from 0. That line is of right form and has a number out of range.
    Range(u64),
    /// Out of memory.
    Memory,
}

impl From<AllocError> for CertStop {
    ghost from_gives = { λ _ stop. stop ≡ Memory };

    fn from(_error: AllocError) -> CertStop {
        CertStop::Memory
    }
}
