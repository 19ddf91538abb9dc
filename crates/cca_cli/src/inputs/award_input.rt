// Awards as inputs.
use crate::{FileKind, Input, Status};
use award_file::{Award, read_award};
use limits::AWARD_BYTES;
use std::alloc::Global;

/// The settings of an auction.
#[derive(Clone, Copy, Debug)]
pub struct AwardInput;

impl Input for AwardInput {
    ghost use Rattle.limits.specs.declared.TheConstants.{AWARD_BYTES};
    ghost use Rattle.cca_cli.specs.Answers.{AwardAnswers};
    ghost use Rattle.cca_cli.specs.Outcome.{value, stops};
    ghost use Rattle.cca_cli.specs.declared.status.FileKind.TheVariants as kinds;

    type Value = Award;

    ghost part = { λ _. kinds.Award };

    ghost room = { λ _. AWARD_BYTES };

    ghost states = { λ _ bytes award. AwardAnswers bytes (value award) };

    ghost halts = { λ _ bytes status. AwardAnswers bytes (stops status) };

    fn kind(&self) -> FileKind {
        FileKind::Award
    }

    fn most(&self) -> u64 {
        AWARD_BYTES
    }

    fn read(&self, alloc: Global, bytes: &[u8]) -> Result<Award, Status> {
        match read_award(alloc, bytes) {
            Ok(award) => {
                award.kept();
                Ok(award)
            }
            Err(stop) => Err(Status::from(stop)),
        }
    }
}
