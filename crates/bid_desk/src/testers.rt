// The testers of the bidders' lists.
ghost use Rattle.std.specs.Prelude.{◌≡◌, ◌-◌, ◌<◌, ◌≤◌, ◌^◌, All, IfOk, None, Option, length, map, option_map, replicate};
ghost use Rattle.auction_rules.specs.Caps.{list_fault};
ghost use Rattle.auction_model.specs.PackageTests.{InOrder};
ghost use Rattle.clock_stage.specs.Kept.{categories_in};
ghost use Rattle.relative_cap.specs.Asked.{ArePoints, IsBidderOf, IsEligible, IsEntry};
ghost use Rattle.relative_cap.specs.Answer.{excess_value};
ghost use Rattle.relative_cap.specs.OwnRounds.{bid_value, entry_lots, rounds_of};
ghost use Rattle.bid_desk.specs.Testers.{AreFor, IsTesterOrNew};

use clock_stage::History;
use lots::Bid;
use relative_cap::{ListTester, OverCap};
use std::alloc::{AllocError, Global};

/// No tester yet for each of that many bidders.
pub fn no_testers(alloc: Global, bidders: usize) -> Result<Vec<Option<ListTester>>, AllocError>
    ensures { IfOk result (λ v. v.items ≡ replicate bidders None) }
{
    let mut testers = Vec::with_capacity(alloc, bidders)?;
    for _ in 0..bidders {
        testers.push(None)?;
    }
    Ok(testers)
}

/// The tester if there is one, and else a new one for bidder `j`.
fn tester_or_new(
    alloc: Global,
    kept: Option<ListTester>,
    history: &History,
    j: u16,
) -> Result<ListTester, AllocError>
    requires { IsBidderOf history.now j }
    ensures { IfOk result (λ tester. IsTesterOrNew history.now j kept tester) }
{
    match kept {
        Some(tester) => Ok(tester),
        None => Ok(ListTester::of(alloc, history, j)?),
    }
}

/// The first entry above its cap of a list of bidder `j`, by its tester, which is made for the first list. The only error is
/// out of memory.
pub fn test_list(
    alloc: Global,
    testers: &mut Vec<Option<ListTester>>,
    history: &History,
    points: &[u32],
    final_cap: bool,
    j: u16,
    list: &[Bid],
) -> Result<Option<OverCap>, AllocError>
    requires place { j - 1 < length testers.old.items }
    requires testers { AreFor history.now points.now testers.old.items }
    requires bidder { IsBidderOf history.now j }
    requires points { ArePoints history.now points.now }
    requires list { All (IsEntry (categories_in history.now)) list.now }
    requires order { InOrder (map entry_lots list.now) }
    requires eligible { All (IsEligible points.now history.now j) list.now }
    requires few { length list.now < 2 ^ 32 }
    ensures fault { IfOk result
        (λ over. option_map excess_value over
        ≡ list_fault final_cap points.now (rounds_of j history.now) (map bid_value list.now)) }
    ensures count { length testers.new.items ≡ length testers.old.items }
    ensures testers { AreFor history.now points.now testers.new.items }
{
    let place = j as usize - 1;
    let kept = testers[place].take();
    let mut tester = tester_or_new(alloc, kept, history, j)?;
    let fault = tester.list_fault(alloc, history, points, final_cap, j, list);
    testers[place] = Some(tester);
    fault
}
