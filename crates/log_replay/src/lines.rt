// One line of a log after the other.
ghost use Rattle.std.specs.Prelude.{◌≡◌, [], IfOk, OnErr, OnOk};
ghost use Rattle.std.specs.Option.{option_or};
ghost use Rattle.auction_rules.specs.Lawful.{HasCategories};
ghost use Rattle.auction_rules.specs.State.{reply_in, round_in};
ghost use Rattle.bid_desk.specs.Reached.{MayLack};
ghost use Rattle.log_replay.specs.Course.{Answers, IsCourse, TakesLine};
ghost use Rattle.log_replay.specs.ReplyLines.{done_at, done_by, refusal_of};

use crate::ReplayStop;
use auction_rules::{Event, Reply, Stage};
use award_file::Award;
use bid_desk::Desk;
use limits::MOST_ROUNDS;
use log_file::{CloseDone, add_reply_line};
use std::alloc::{AllocError, Global};
use wide_num::Text;

/// The state of a replay: the desk, the lines of the replies, and the first limit that refused a close.
#[derive(Drop)]
pub struct ReplayState {
    pub desk: Desk,
    pub replies: Text,
    pub stop: Option<ReplayStop>,
}

/// The replay of an award before its first line.
pub fn start(alloc: Global, award: Award) -> Result<ReplayState, AllocError>
    ensures { IfOk result (IsCourse award []) }
{
    let desk = Desk::new(alloc, award)?;
    Ok(ReplayState {
        desk,
        replies: Text::new(alloc),
        stop: None,
    })
}

/// Takes the line of this number, counted from 1. The only error is out of memory.
pub fn take_line(
    alloc: Global,
    course: &mut ReplayState,
    number: u64,
    line: &Event,
) -> Result<(), AllocError>
    requires { HasCategories course.old.desk.terms line.now }
    ensures { OnOk result (TakesLine course.old number line.now course.new) }
{
    let reply = answer(alloc, &mut course.desk, line)?;
    let done = done_by(&course.desk, line, reply);
    add_reply_line(
        &mut course.replies,
        number,
        &reply,
        done,
        course.desk.prices(),
    )?;
    course.stop = course.stop.or(refusal_of(line, reply));
    Ok(())
}

/// What the desk answers to a line. The only error is out of memory, if the desk's own may come.
fn answer(alloc: Global, desk: &mut Desk, line: &Event) -> Result<Reply, AllocError>
    requires { HasCategories desk.old.terms line.now }
    ensures answers { IfOk result (λ reply. Answers desk.old line.now reply desk.new) }
    ensures memory { OnErr result (MayLack desk.old.stage line.now (reply_in desk.old line.now)) }
{
    match desk.take(alloc, line) {
        Reply::Memory => Err(AllocError),
        reply => Ok(reply),
    }
}

/// What the line did that led to this desk, if it is an admitted close.
fn done_by(desk: &Desk, line: &Event, reply: Reply) -> Option<CloseDone>
    ensures { result ≡ done_by line.now reply desk.now.stage (round_in desk.now) }
{
    match (line, reply) {
        (Event::Close, Reply::Ok) => Some(close_result(desk)),
        _ => None,
    }
}

/// What the close did that led to this desk.
fn close_result(desk: &Desk) -> CloseDone
    ensures { result ≡ done_at desk.now.stage (round_in desk.now) }
{
    match desk.stage() {
        Stage::Clock => CloseDone::Round(desk.round()),
        Stage::Sealed => CloseDone::Sealed,
        Stage::Closed => CloseDone::Closed,
    }
}

/// The limit that refused the line, if it is a close.
fn refusal_of(line: &Event, reply: Reply) -> Option<ReplayStop>
    ensures { result ≡ refusal_of line.now reply }
{
    match (line, reply) {
        (Event::Close, Reply::Full(_)) => Some(ReplayStop::Rounds(MOST_ROUNDS + 1)),
        (Event::Close, Reply::PriceTop { price, .. }) => Some(ReplayStop::Price(price)),
        _ => None,
    }
}
