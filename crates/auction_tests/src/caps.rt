// Caps of single questions, which a desk asks through a tester of lists.
ghost use Rattle.std.specs.Prelude.{◌≡◌, ◌≤◌, ◌<◌, ◌∷◌, [], length, slice_index};
ghost use Rattle.limits.specs.declared.TheConstants.{MOST_AMOUNT};
ghost use Rattle.clock_stage.specs.Kept.{IsFor, bidders_in, categories_in, closed_round};

use crate::clocks::{AWARD, close, take_bids};
use crate::samples::award_of;
use award_file::Award;
use clock_stage::{Clock, History, Reply};
use lots::{Bid, LotStop, Package};
use relative_cap::{Cap, OverCap, cap, list_fault};
use std::alloc::Global;
use std::process::Abort;
use std::test::Fail;

/// Rounds at 10 and 12. The first bidder, eligible for three lots, holds two lots and then one. So in round 2 it is eligible
/// for two.
fn take_rounds(
    rt: &impl Abort,
    alloc: Global,
    clock: &mut Clock,
    award: &Award,
) -> Result<(), LotStop>
    requires { IsFor award.now clock.old }
    ensures { IsFor award.now clock.new }
{
    take_bids(
        rt,
        alloc,
        clock,
        award,
        &[(1, 2, Reply::Ok), (2, 2, Reply::Ok)],
    )?;
    close(rt, alloc, clock, award);
    take_bids(
        rt,
        alloc,
        clock,
        award,
        &[(1, 1, Reply::Ok), (2, 2, Reply::Ok)],
    )?;
    close(rt, alloc, clock, award);
    Ok(())
}

/// An entry of a list.
fn entry(lots: u16, amount: u64) -> Bid
    ensures wanted { result.«package» ≡ lots ∷ [] }
    ensures amount { result.amount ≡ amount }
{
    Bid {
        package: Package::of_counts(&[lots]),
        amount,
    }
}

/// The cap of three lots for the first bidder, over a list with this amount for two lots.
fn cap_of_three(history: &History, final_cap: bool, amount: u64) -> Cap
    requires rounds { length history.now ≡ 2 }
    requires bidders { 0 < bidders_in history.now }
    requires categories { categories_in history.now ≡ 1 }
    requires eligible { slice_index (closed_round history.now 1).eligibility 0 ≡ 3 }
    requires amount { amount ≤ MOST_AMOUNT }
{
    let list = [entry(2, amount)];
    cap(
        history,
        &[1],
        final_cap,
        1,
        &list,
        &Package::of_counts(&[3]),
    )
}

/// The first fault of a list of the first bidder with this amount for two lots.
fn fault_of_two(history: &History, amount: u64) -> Option<OverCap>
    requires rounds { length history.now ≡ 2 }
    requires bidders { 0 < bidders_in history.now }
    requires categories { categories_in history.now ≡ 1 }
    requires eligible { slice_index (closed_round history.now 1).eligibility 0 ≡ 3 }
    requires amount { amount ≤ MOST_AMOUNT }
{
    let list = [entry(2, amount)];
    list_fault(history, &[1], false, 1, &list)
}

/// Asserts the caps of three lots, and the first faults, for the first bidder.
///
/// Its eligibility was last enough for three lots in round 1, and for two in round 2. By round 1, three lots may cost 10 more than what it
/// offered for two, which is 20 or the amount of its list; by round 2, 24 more than the 12 that it offered for one. For two lots it may
/// offer 12 more than that.
fn shows_the_caps(rt: &impl Abort, history: &History)
    requires rounds { length history.now ≡ 2 }
    requires bidders { 0 < bidders_in history.now }
    requires categories { categories_in history.now ≡ 1 }
    requires eligible { slice_index (closed_round history.now 1).eligibility 0 ≡ 3 }
{
    assert_eq!(rt; cap_of_three(history, false, 19), Cap::At(30));
    assert_eq!(rt; cap_of_three(history, false, 31), Cap::At(41));
    assert_eq!(rt; cap_of_three(history, true, 19), Cap::At(30));
    assert_eq!(rt; cap_of_three(history, true, 31), Cap::At(36));
    assert_eq!(rt; fault_of_two(history, 24), None);
    assert_eq!(rt;
        fault_of_two(history, 25),
        Some(OverCap {
            entry: 1,
            limit: 24
        })
    );
}

/// Asserts the bidders and rounds of the history, and then the caps.
fn check_caps(rt: &impl Abort, history: &History)
    requires bidders { 0 < bidders_in history.now }
    requires categories { categories_in history.now ≡ 1 }
{
    assert_eq!(rt; history.rounds(), 2);
    assert_eq!(rt; history.eligibility(1, 1), 3);
    shows_the_caps(rt, history);
}

#[test]
fn caps_follow_two_rounds(rt: HostRuntime) -> Result<(), Fail> {
    let award = award_of(&rt, rt.alloc(), AWARD);
    let mut clock = Clock::start(rt.alloc(), &award)?;
    take_rounds(&rt, rt.alloc(), &mut clock, &award)?;
    assert_eq!(rt; clock.history().rounds(), 2);
    assert_eq!(rt; award.bidders(), 2);
    assert_eq!(rt; award.supply().categories(), 1);
    check_caps(&rt, clock.history());
    Ok(())
}
