// Slots as inputs.
use crate::{FileKind, Input, Status};
use limits::SLOTS_BYTES;
use slot_places::{Slots, read_slots};
use std::alloc::Global;

/// The bidders of a band with their bids.
#[derive(Clone, Copy, Debug)]
pub struct SlotsInput;

impl Input for SlotsInput {
    ghost use Rattle.limits.specs.declared.TheConstants.{SLOTS_BYTES};
    ghost use Rattle.cca_cli.specs.Answers.{SlotsAnswers};
    ghost use Rattle.cca_cli.specs.Outcome.{value, stops};
    ghost use Rattle.cca_cli.specs.declared.status.FileKind.TheVariants as kinds;

    type Value = Slots;

    ghost part = { λ _. kinds.Slots };

    ghost room = { λ _. SLOTS_BYTES };

    ghost states = { λ _ bytes slots. SlotsAnswers bytes (value slots) };

    ghost halts = { λ _ bytes status. SlotsAnswers bytes (stops status) };

    fn kind(&self) -> FileKind {
        FileKind::Slots
    }

    fn most(&self) -> u64 {
        SLOTS_BYTES
    }

    fn read(&self, alloc: Global, bytes: &[u8]) -> Result<Slots, Status> {
        match read_slots(alloc, bytes) {
            Ok(slots) => Ok(slots),
            Err(stop) => Err(Status::from(stop)),
        }
    }
}
