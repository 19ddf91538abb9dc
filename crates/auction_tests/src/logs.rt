use crate::samples::{award_of, events_of};
use log_file::{Event, Reply, reply_line};
use std::process::Abort;
use std::test::Fail;

/// Two categories for two bidders.
const AWARD: &str = "version = 1\ntick = 1\n\
    category = [{ name = \"a\", supply = 3, points = 1, reserve = 10 }, { name = \"b\", supply = 1, points = 1, reserve = 1 }]\n\
    bidder = [{ name = \"east\", eligibility = 3 }, { name = \"west\", eligibility = 2 }]\n\
    step = [{ excess = 1, permille = 100 }]\n";

// Asserts that these are a draft of the second bidder, and a submission of a stranger.
fn are_draft_and_submission(rt: &impl Abort, events: &[Event]) {
    match events {
        [
            Event::Draft {
                bidder,
                package,
                amount,
            },
            Event::Submit { bidder: other },
        ] => {
            assert_eq!(rt; *bidder, 2);
            assert!(rt; package.counts() == [2u16, 1].as_slice());
            assert_eq!(rt; *amount, 77);
            assert_eq!(rt; *other, 0);
        }
        _ => panic!(rt; "a draft and a submission"),
    }
}

#[test]
fn events_have_the_numbers_of_bidders(rt: HostRuntime) {
    let award = award_of(&rt, rt.alloc(), AWARD);
    let log = "draft,west,2 1,77\nsubmit,stranger,,\n";
    let events = events_of(&rt, rt.alloc(), log, &award);
    are_draft_and_submission(&rt, events.items());
}

#[test]
fn want_of_memory_has_its_line(rt: HostRuntime) -> Result<(), Fail> {
    let text = reply_line(rt.alloc(), 12, &Reply::Memory, None, &[10, 1])?;
    assert!(rt; text.items() == b"12 memory\n".as_slice());
    Ok(())
}
