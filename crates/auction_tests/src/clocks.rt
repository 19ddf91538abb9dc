ghost use Rattle.std.specs.Prelude.{◌<◌};
ghost use Rattle.clock_stage.specs.Kept.{IsFor, bidders_in};

use crate::samples::award_of;
use award_file::Award;
use clock_stage::{Clock, Closed, History, Reply};
use lots::{LotStop, Package};
use std::alloc::Global;
use std::process::Abort;
use std::test::Fail;

/// One category of three lots for two bidders.
pub(crate) const AWARD: &str = "version = 1\ntick = 1\n\
    category = [{ name = \"lot\", supply = 3, points = 1, reserve = 10 }]\n\
    bidder = [{ name = \"east\", eligibility = 3 }, { name = \"west\", eligibility = 2 }]\n\
    step = [{ excess = 1, permille = 200 }]\n";

/// Bids for that many lots of the one category, by these bidders in turn. Each has its reply.
pub(crate) fn take_bids(
    rt: &impl Abort,
    alloc: Global,
    clock: &mut Clock,
    award: &Award,
    bids: &[(u16, u16, Reply)],
) -> Result<(), LotStop>
    requires { IsFor award.now clock.old }
    ensures { IsFor award.now clock.new }
{
    for (bidder, lots, reply) in bids {
        let answer = take_bid(rt, alloc, clock, award, *bidder, *lots)?;
        assert_eq!(rt; answer, *reply);
    }
    Ok(())
}

/// The reply to a bid for that many lots of the one category.
fn take_bid(
    rt: &impl Abort,
    alloc: Global,
    clock: &mut Clock,
    award: &Award,
    bidder: u16,
    lots: u16,
) -> Result<Reply, LotStop>
    requires { IsFor award.now clock.old }
    ensures { IsFor award.now clock.new }
{
    let package = Package::new(alloc, &[lots])?;
    assert_eq!(rt; award.supply().categories(), 1);
    let running = clock.is_running();
    assert!(rt; running);
    Ok(clock.bid(award, bidder, &package))
}

/// The answer of a close.
pub(crate) fn close(rt: &impl Abort, alloc: Global, clock: &mut Clock, award: &Award) -> Closed
    requires { IsFor award.now clock.old }
    ensures { IsFor award.now clock.new }
{
    let running = clock.is_running();
    assert!(rt; running);
    clock.close(alloc, award)
}

/// The history of rounds at 10 and 12. The first bidder held three lots and then one.
fn check_history(rt: &impl Abort, history: &History)
    requires { 0 < bidders_in history.now }
{
    assert_eq!(rt; history.rounds(), 2);
    assert!(rt; history.prices(1) == [10].as_slice());
    assert!(rt; history.prices(2) == [12].as_slice());
    assert_eq!(rt; history.eligibility(2, 1), 3);
    assert!(rt; history.package(2, 1).counts() == [1].as_slice());
}

/// Two rounds of bids. In the second one demand is at most supply.
fn take_rounds(
    rt: &impl Abort,
    alloc: Global,
    clock: &mut Clock,
    award: &Award,
) -> Result<(), LotStop>
    requires { IsFor award.now clock.old }
    ensures { IsFor award.now clock.new }
{
    let bids = [(3, 1, Reply::Unknown), (1, 3, Reply::Ok), (2, 2, Reply::Ok)];
    take_bids(rt, alloc, clock, award, &bids)?;
    let first = close(rt, alloc, clock, award);
    assert_eq!(rt; first, Closed::NextRound(2));
    assert!(rt; clock.prices() == [12].as_slice());
    let bids = [(1, 1, Reply::Ok), (2, 2, Reply::Ok)];
    take_bids(rt, alloc, clock, award, &bids)?;
    let last = close(rt, alloc, clock, award);
    assert_eq!(rt; last, Closed::StageEnds);
    Ok(())
}

/// Where the clock ends.
fn check_end(rt: &impl Abort, clock: &Clock, award: &Award)
    requires { IsFor award.now clock.now }
{
    assert_eq!(rt; clock.round(), 2);
    assert_eq!(rt; clock.history().rounds(), 2);
    assert_eq!(rt; award.bidders(), 2);
    check_history(rt, clock.history());
}

#[test]
fn a_clock_keeps_its_rounds(rt: HostRuntime) -> Result<(), Fail> {
    let award = award_of(&rt, rt.alloc(), AWARD);
    let mut clock = Clock::start(rt.alloc(), &award)?;
    take_rounds(&rt, rt.alloc(), &mut clock, &award)?;
    check_end(&rt, &clock, &award);
    Ok(())
}
