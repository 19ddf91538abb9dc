// Worked auctions: the replies of a desk to the lines of a log, and the book that it gives.
ghost use Rattle.std.specs.Prelude.{◌≡◌, IsTrue, length};
ghost use Rattle.auction_rules.specs.Lawful.{HasCategories};
ghost use Rattle.auction_rules.specs.Terms.{Terms};

use crate::samples::{award_of, events_of};
use bid_book::write_book;
use bid_desk::{Desk, DeskStop, Event, Reply};
use std::alloc::Global;
use std::process::Abort;
use std::test::Fail;

/// Whether a package of the line has that many categories.
fn has_categories(event: &Event, categories: usize) -> bool
    ensures { IsTrue result → (terms : Terms) → length terms.supply ≡ categories → HasCategories terms event.now }
{
    match event {
        Event::Bid { package, .. } => package.categories() == categories,
        Event::Draft { package, .. } => package.categories() == categories,
        Event::Drop { package, .. } => package.categories() == categories,
        Event::Submit { .. } => true,
        Event::Close => true,
    }
}

/// The reply to a line that is handed in once.
fn take_once(rt: &impl Abort, alloc: Global, desk: &mut Desk, event: &Event) -> Reply {
    let categories = desk.award().supply().categories();
    assert!(rt; has_categories(event, categories));
    desk.take(alloc, event)
}

/// The reply to a line. After the reply out of memory it is taken once more, so the replies are a desk's that never ran out of
/// memory.
fn take(rt: &impl Abort, alloc: Global, desk: &mut Desk, event: &Event) -> Reply {
    let reply = take_once(rt, alloc, desk, event);
    if reply == Reply::Memory {
        return take_once(rt, alloc, desk, event);
    }
    reply
}

/// The replies to the lines of a log, and after each close the stage, the round and the prices, and then the book, if there is
/// one.
fn replay(rt: &impl Abort, alloc: Global, award: &str, log: &str) -> Result<String, Fail> {
    let award = award_of(rt, alloc, award);
    let events = events_of(rt, alloc, log, &award);
    let mut desk = Desk::new(alloc, award)?;
    replay_on(rt, alloc, &mut desk, events.items())
}

/// What is replayed of a log on this desk.
fn replay_on(
    rt: &impl Abort,
    alloc: Global,
    desk: &mut Desk,
    events: &[Event],
) -> Result<String, Fail> {
    let mut text = String::new(alloc);
    for event in events {
        add_reply(rt, &mut text, alloc, desk, event)?;
    }
    add_book(rt, &mut text, alloc, desk)?;
    Ok(text)
}

/// The reply to a line, and after a close the desk's state.
fn add_reply(
    rt: &impl Abort,
    text: &mut String,
    alloc: Global,
    desk: &mut Desk,
    event: &Event,
) -> Result<(), Fail> {
    let reply = take(rt, alloc, desk, event);
    text.push_str(&format!(in alloc; "{reply:?}")?)?;
    if matches!(event, Event::Close) {
        add_place(text, alloc, desk)?;
    }
    text.push_str("\n")?;
    Ok(())
}

/// The desk's state: its stage, its round and its prices.
fn add_place(text: &mut String, alloc: Global, desk: &Desk) -> Result<(), Fail> {
    let stage = desk.stage();
    let place = format!(in alloc; " {stage:?} {} {:?}", desk.round(), desk.prices())?;
    text.push_str(&place)?;
    Ok(())
}

/// The book of a desk whose sealed round is closed.
fn add_book(rt: &impl Abort, text: &mut String, alloc: Global, desk: &Desk) -> Result<(), Fail> {
    match desk.book(alloc) {
        Ok(book) => {
            let written = write_book(alloc, &book)?;
            let Ok(lines) = str::from_utf8(written.items()) else {
                panic!(rt; "a book is a text");
            };
            text.push_str(lines)?;
        }
        Err(DeskStop::NotClosed) => text.push_str("no book\n")?,
        Err(DeskStop::Memory) => text.push_str("no memory\n")?,
    }
    Ok(())
}

/// One category of three lots for two bidders.
const LOTS: &str =
    "version = 1\ntick = 1\ncategory = [{ name = \"lot\", supply = 3, points = 1, reserve = 10 }]\n\
    bidder = [{ name = \"east\", eligibility = 3 }, { name = \"west\", eligibility = 2 }]\n\
    step = [{ excess = 1, permille = 200 }]\n";

/// Two categories for two bidders, with prices that double.
const DOUBLING: &str = "version = 1\ntick = 1\n\
    category = [{ name = \"a\", supply = 2, points = 1, reserve = 10 }, { name = \"c\", supply = 3, points = 1, reserve = 10 }]\n\
    bidder = [{ name = \"east\", eligibility = 3 }, { name = \"west\", eligibility = 1 }]\n\
    step = [{ excess = 1, permille = 1000 }]\n";

/// An award, a log and what is replayed of it.
const REPLAYS: &[(&str, &str, &str)] = &[
    // Lists that differ in a few entries from the one that was tested last.
    (
        LOTS,
        "bid,east,3,\nbid,west,2,\nclose,,,\nbid,east,1,\nbid,west,2,\nclose,,,\ndraft,east,1,20\ndraft,east,3,45\n\
        submit,east,,\ndraft,east,2,33\nsubmit,east,,\ndraft,east,1,21\nsubmit,east,,\ndrop,east,1,\nsubmit,east,,\n\
        draft,east,1,21\nsubmit,east,,\ndraft,east,1,20\nsubmit,east,,\nclose,,,\n",
        "Ok\nOk\nOk Clock 2 [12]\nOk\nOk\nOk Sealed 2 [12]\nOk\nOk\nRelativeCap { entry: 2, limit: 44 }\nOk\n\
        RelativeCap { entry: 2, limit: 32 }\nOk\nOk\nOk\nRelativeCap { entry: 1, limit: 24 }\nOk\nOk\nOk\n\
        RelativeCap { entry: 2, limit: 32 }\nOk Closed 2 [12]\nbook 1\nsupply 3\nreserve 10\nbidder east\nbid 1 21\n\
        bid 2 33\nbid 3 45\nbidder west\nbid 2 24\nend\n",
    ),
    // A package that was held in two rounds counts with the greater of its prices.
    (
        DOUBLING,
        "bid,east,2 0,\nbid,west,1 0,\nclose,,,\nbid,east,2 0,\nbid,west,1 0,\nclose,,,\nbid,east,0 1,\nbid,west,1 0,\n\
        close,,,\ndraft,east,0 3,51\nsubmit,east,,\ndraft,east,2 0,45\ndraft,east,0 3,55\nsubmit,east,,\n\
        draft,east,0 3,56\nsubmit,east,,\ndrop,east,2 0,\nsubmit,east,,\nclose,,,\n",
        "Ok\nOk\nOk Clock 2 [20, 10]\nOk\nOk\nOk Clock 3 [40, 10]\nOk\nOk\nOk Sealed 3 [40, 10]\nOk\n\
        RelativeCap { entry: 1, limit: 50 }\nOk\nOk\nOk\nOk\nRelativeCap { entry: 1, limit: 55 }\nOk\n\
        RelativeCap { entry: 1, limit: 50 }\nOk Closed 3 [40, 10]\nbook 1\nsupply 2 3\nreserve 10 10\nbidder east\n\
        bid 0 1 10\nbid 0 3 55\nbid 2 0 45\nbidder west\nbid 1 0 40\nend\n",
    ),
    // Lines that are refused in the first round.
    (
        LOTS,
        "bid,north,1,\nbid,east,4,\nbid,west,3,\ndraft,east,1,20\ndrop,east,1,\nsubmit,east,,\n",
        "Unknown\nSupply(1)\nPoints(2)\nStage\nStage\nStage\nno book\n",
    ),
];

#[test]
fn replays_are_as_worked_out(rt: HostRuntime) -> Result<(), Fail> {
    for (award, log, wanted) in REPLAYS {
        let got = replay(&rt, rt.alloc(), award, log)?;
        assert_eq!(rt; got.as_str(), *wanted);
    }
    Ok(())
}
