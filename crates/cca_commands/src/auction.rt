// What the log of an auction gives.
ghost use Rattle.std.specs.Prelude.{◌≡◌, ◌<◌, ◌^◌, [], ◌∷◌, Ok, Some};
ghost use Rattle.std.specs.List.{AllByRecursion};
ghost use Rattle.auction_rules.specs.Lawful.{HasCategories};
ghost use Rattle.cca_cli.specs.declared.status.FileKind.{FileKind};
ghost use Rattle.cca_commands.specs.Gives.{AuctionGives, RepliesGive, replay_status};
ghost use Rattle.cca_commands.specs.Works.{HasBook, IsWork};

use crate::work::{Stop, Work};
use award_file::Award;
use bid_book::{BidBook, write_book};
use cca_cli::{FileKind, FileText, Status};
use cert_output::LongText;
use limits::LimitKind;
use log_file::Events;
use log_replay::{Replay, ReplayStop, replay};
use std::alloc::Global;
use wide_num::Text;

/// The lines of the replies to a log and the text of its book, or those lines and why it has none.
pub fn replayed(alloc: Global, award: Award, log: &Events) -> Result<Work, Stop>
    requires { AllByRecursion (HasCategories award) log.now }
    ensures { IsWork (AuctionGives award log.now) (FileKind.Book ∷ []) result }
{
    let records = log.items().len() as u64;
    let Replay { replies, end } = replay(alloc, award, log)?;
    match end {
        Ok(book) => with_book(alloc, records, replies, &book),
        Err(stop) => Err(stop_of(records, replies, stop)),
    }
}

/// The book of a log, or why it has none.
pub fn logged_book(alloc: Global, award: Award, log: &Events) -> Result<BidBook, Stop>
    requires { AllByRecursion (HasCategories award) log.now }
    ensures { HasBook award log.now result }
{
    let records = log.items().len() as u64;
    let Replay { end, .. } = replay(alloc, award, log)?;
    match end {
        Ok(book) => Ok(book),
        Err(stop) => Err(Stop::from(status_of(records, stop))),
    }
}

// The work whose one appended text is a book.
fn with_book(alloc: Global, records: u64, replies: Text, book: &BidBook) -> Result<Work, Stop>
    ensures { IsWork (RepliesGive records replies (Ok book.now)) (FileKind.Book ∷ []) result }
{
    let bytes = write_book(alloc, book)?;
    let text = LongText::from_text(alloc, bytes)?;
    let mut appended = Vec::new(alloc);
    appended.push(FileText {
        kind: FileKind::Book,
        text,
    })?;
    Ok(Work {
        printed: replies,
        appended,
    })
}

// The stop of a log of that many records that leads to no book. The lines of the replies are printed before it.
fn stop_of(records: u64, replies: Text, stop: ReplayStop) -> Stop
    requires { records < 2 ^ 63 }
    ensures before { result.before ≡ Some replies }
    ensures status { result.status ≡ replay_status records stop }
{
    Stop {
        before: Some(replies),
        status: status_of(records, stop),
    }
}

// The status of a log of that many records that leads to no book.
fn status_of(records: u64, stop: ReplayStop) -> Status
    requires { records < 2 ^ 63 }
    ensures { result ≡ replay_status records stop }
{
    match stop {
        ReplayStop::Rounds(count) => Status::Limit {
            which: LimitKind::Rounds,
            count,
        },
        ReplayStop::Price(count) => Status::Limit {
            which: LimitKind::Price,
            count,
        },
        ReplayStop::Open => Status::Refused {
            file: FileKind::Log,
            place: records + 1,
            entry: 0,
        },
    }
}
