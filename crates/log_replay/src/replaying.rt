// The whole log, line by line.
ghost use Rattle.std.specs.Prelude.{◌≡◌, List, IfOk, reverse};
ghost use Rattle.std.specs.List.{AllByRecursion};
ghost use Rattle.auction_rules.specs.Lawful.{HasCategories};
ghost use Rattle.auction_rules.specs.State.{state_of};
ghost use Rattle.auction_rules.specs.Terms.{Terms};
ghost use Rattle.auction_rules.specs.declared.Event.{Event};
ghost use Rattle.log_replay.specs.Course.{IsCourse};
ghost use Rattle.log_replay.specs.ReplyLines.{book_or_open, end_of, reply_lines};

use crate::lines::{ReplayState, start, take_line};
use crate::{Replay, ReplayStop};
use award_file::Award;
use bid_book::BidBook;
use bid_desk::{Desk, Stage};
use log_file::Events;
use std::alloc::{AllocError, Global};

/// Replays a log of this award, whose packages have the award's number of categories.
///
/// Each line has the rules' reply, also after a close that is refused for a limit. After the first such limit there is no
/// book, even if a later close completes the log. The only error is out of memory.
pub fn replay(alloc: Global, award: Award, log: &Events) -> Result<Replay, AllocError>
    requires { AllByRecursion (HasCategories award) log.now }
    ensures replies { IfOk result (λ replay. replay.replies ≡ reply_lines award (reverse log.now)) }
    ensures end { IfOk result (λ replay. replay.end ≡ end_of award (reverse log.now)) }
{
    let course = take_all(alloc, award, log)?;
    finish(alloc, course)
}

/// Takes all lines of a log.
fn take_all(alloc: Global, award: Award, log: &Events) -> Result<ReplayState, AllocError>
    requires { AllByRecursion (HasCategories award) log.now }
    ensures { IfOk result (IsCourse award (reverse log.now)) }
{
    let mut course = start(alloc, award)?;
    for (i, line) in log.items().iter().enumerate() {
        take_line(alloc, &mut course, i as u64 + 1, line)?;
    }
    Ok(course)
}

/// What the lines lead to that were taken.
fn finish(alloc: Global, course: ReplayState) -> Result<Replay, AllocError>
    ensures { IfOk result (λ replay. (terms : Terms) (log : List Event) → IsCourse terms log course
        → (replay.replies ≡ reply_lines terms log) × (replay.end ≡ end_of terms log)) }
{
    let end = match course.stop {
        Some(stop) => Err(stop),
        None => book_of(alloc, &course.desk)?,
    };
    Ok(Replay {
        replies: course.replies,
        end,
    })
}

/// The book of the desk, if the sealed round is closed.
fn book_of(alloc: Global, desk: &Desk) -> Result<Result<BidBook, ReplayStop>, AllocError>
    ensures { IfOk result
        (λ book. (terms : Terms) (log : List Event) → desk.now ≡ state_of terms log
        → book ≡ book_or_open terms log) }
{
    match desk.stage() {
        Stage::Closed => match desk.book(alloc) {
            Ok(book) => Ok(Ok(book)),
            Err(_) => Err(AllocError),
        },
        _ => Ok(Err(ReplayStop::Open)),
    }
}
