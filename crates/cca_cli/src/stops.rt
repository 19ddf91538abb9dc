// The statuses of the stops of the readers.
ghost use Rattle.std.specs.Prelude.{◌≡◌, ◌<◌, ◌^◌};
ghost use Rattle.cca_cli.specs.Stops.{award_status, book_status, cert_status, edit_status, log_status, read_status, slot_status, weight_status};
ghost use Rattle.cca_cli.specs.declared.status.Status.TheVariants.{Memory};

use crate::{FileKind, Status};
use award_file::AwardStop;
use bid_book::BookStop;
use cca_base::ReadStop;
use cert_text::CertStop;
use edits_file::EditStop;
use limits::LimitKind;
use log_file::LogStop;
use slot_places::SlotStop;
use std::alloc::{AllocError, AllocFailed};
use weights_file::WeightStop;

/// The status of a stop of reading a file of this kind, which has at most that many bytes.
pub fn status_of_read(file: FileKind, most: u64, stop: ReadStop) -> Status
    requires { most < 2 ^ 40 }
    ensures { result ≡ read_status file most stop }
{
    match stop {
        ReadStop::Fault => Status::ReadFault { file },
        ReadStop::TooLong => Status::Limit {
            which: LimitKind::Bytes,
            count: most + 1,
        },
        ReadStop::Memory => Status::Memory,
    }
}

impl From<AllocError> for Status {
    ghost from_gives = { λ _ status. status ≡ Memory };

    fn from(_error: AllocError) -> Status {
        Status::Memory
    }
}

impl<T: Drop> From<AllocFailed<T>> for Status {
    ghost from_gives = { λ _ status. status ≡ Memory };

    fn from(_error: AllocFailed<T>) -> Status {
        Status::Memory
    }
}

impl From<BookStop> for Status {
    ghost from_gives = { λ stop status. status ≡ book_status stop };

    fn from(stop: BookStop) -> Status {
        match stop {
            BookStop::Form(place) => refused(FileKind::Book, place),
            BookStop::Limit(which, count) => Status::Limit { which, count },
            BookStop::Memory => Status::Memory,
        }
    }
}

// A number out of range refuses a certificate as a faulty line does.
impl From<CertStop> for Status {
    ghost from_gives = { λ stop status. status ≡ cert_status stop };

    fn from(stop: CertStop) -> Status {
        match stop {
            CertStop::Form(place) => refused(FileKind::Cert, place),
            CertStop::Range(place) => refused(FileKind::Cert, place),
            CertStop::Memory => Status::Memory,
        }
    }
}

// A fault of the text is one of the award as a whole.
impl From<AwardStop> for Status {
    ghost from_gives = { λ stop status. status ≡ award_status stop };

    fn from(stop: AwardStop) -> Status {
        match stop {
            AwardStop::Text => refused(FileKind::Award, 0),
            AwardStop::Field { number, entry } => Status::Refused {
                file: FileKind::Award,
                place: number as u64,
                entry,
            },
            AwardStop::Limit(which, count) => Status::Limit { which, count },
            AwardStop::Memory => Status::Memory,
        }
    }
}

impl From<LogStop> for Status {
    ghost from_gives = { λ stop status. status ≡ log_status stop };

    fn from(stop: LogStop) -> Status {
        match stop {
            LogStop::Form(number) => refused(FileKind::Log, number),
            LogStop::Limit(which, count) => Status::Limit { which, count },
            LogStop::Memory => Status::Memory,
        }
    }
}

impl From<WeightStop> for Status {
    ghost from_gives = { λ stop status. status ≡ weight_status stop };

    fn from(stop: WeightStop) -> Status {
        match stop {
            WeightStop::Form(place) => refused(FileKind::Weights, place),
            WeightStop::Memory => Status::Memory,
        }
    }
}

impl From<SlotStop> for Status {
    ghost from_gives = { λ stop status. status ≡ slot_status stop };

    fn from(stop: SlotStop) -> Status {
        match stop {
            SlotStop::Form(place) => refused(FileKind::Slots, place),
            SlotStop::Limit(which, count) => Status::Limit { which, count },
            SlotStop::Memory => Status::Memory,
        }
    }
}

impl From<EditStop> for Status {
    ghost from_gives = { λ stop status. status ≡ edit_status stop };

    fn from(stop: EditStop) -> Status {
        match stop {
            EditStop::Form(place) => refused(FileKind::Edits, place),
            EditStop::Limit(which, count) => Status::Limit { which, count },
            EditStop::Memory => Status::Memory,
        }
    }
}

fn refused(file: FileKind, place: u64) -> Status
    ensures { result ≡ Status.Refused file place 0 }
{
    Status::Refused {
        file,
        place,
        entry: 0,
    }
}
