// What a command prints and appends, and why it may have nothing to print.
ghost use Rattle.std.specs.Prelude.{◌≡◌};
ghost use Rattle.cca_commands.specs.Works.{bare, price_status};
ghost use Rattle.cca_cli.specs.declared.status.Status.TheVariants.{Memory};

use cca_cli::{FileText, Status};
use core_price::PriceStop;
use limits::LimitKind;
use std::alloc::{AllocError, AllocFailed};
use wide_num::Text;

/// What a command prints, and the texts that it appends to its files, in order.
#[derive(Drop)]
pub struct Work {
    pub printed: Text,
    pub appended: Vec<FileText>,
}

/// Why a command has no work: the status that says it, and what is printed before that status's line.
#[derive(Drop)]
pub struct Stop {
    pub before: Option<Text>,
    pub status: Status,
}

impl From<Status> for Stop {
    ghost from_gives = { λ status stop. stop ≡ bare status };

    fn from(status: Status) -> Stop {
        Stop {
            before: None,
            status,
        }
    }
}

impl From<AllocError> for Stop {
    ghost from_gives = { λ _ stop. stop ≡ bare Memory };

    fn from(_error: AllocError) -> Stop {
        Stop::from(Status::Memory)
    }
}

impl<T: Drop> From<AllocFailed<T>> for Stop {
    ghost from_gives = { λ _ stop. stop ≡ bare Memory };

    fn from(_error: AllocFailed<T>) -> Stop {
        Stop::from(Status::Memory)
    }
}

impl From<PriceStop> for Stop {
    ghost from_gives = { λ price stop. stop ≡ bare (price_status price) };

    fn from(stop: PriceStop) -> Stop {
        match stop {
            PriceStop::Winners(count) => Stop::from(Status::Limit {
                which: LimitKind::Winners,
                count,
            }),
            PriceStop::Memory => Stop::from(Status::Memory),
        }
    }
}
