// Logs of an award as inputs.
use crate::{FileKind, Input, Status};
use award_file::Award;
use limits::LOG_BYTES;
use log_file::{Events, read_log};
use std::alloc::Global;

/// The log of an auction.
#[derive(Clone, Copy)]
pub struct LogInput<'a> {
    /// The settings of the auction.
    pub award: &'a Award,
}

impl<'a> Input for LogInput<'a> {
    ghost use Rattle.limits.specs.declared.TheConstants.{LOG_BYTES};
    ghost use Rattle.cca_cli.specs.Answers.{LogAnswers};
    ghost use Rattle.cca_cli.specs.Outcome.{value, stops};
    ghost use Rattle.cca_cli.specs.declared.status.FileKind.TheVariants.{Log};

    type Value = Events;

    ghost part = { λ _. Log };

    ghost room = { λ _. LOG_BYTES };

    ghost states = { λ s bytes log. LogAnswers s.award.now bytes (value log) };

    ghost halts = { λ s bytes status. LogAnswers s.award.now bytes (stops status) };

    fn kind(&self) -> FileKind {
        FileKind::Log
    }

    fn most(&self) -> u64 {
        LOG_BYTES
    }

    fn read(&self, alloc: Global, bytes: &[u8]) -> Result<Events, Status> {
        match read_log(alloc, bytes, self.award) {
            Ok(events) => Ok(events),
            Err(stop) => Err(Status::from(stop)),
        }
    }
}
