// The reply to a clock bid.
ghost use Rattle.std.specs.Prelude.{◌≡◌, ◌≤◌, ◌-◌, length, slice_index, sum};
ghost use Rattle.limits.specs.declared.TheConstants.{MOST_LOTS};
ghost use Rattle.auction_rules.specs.declared.Reply.{Reply};
ghost use Rattle.auction_rules.specs.declared.Stage.{Stage};
ghost use Rattle.auction_rules.specs.Replies.{bid_reply};

use auction_rules::{Reply, Stage};
use award_file::Award;
use lots::Package;

/// The reply to a package of a bidder of the award who is eligible for that many points: the first category above the supply,
/// the first spectrum cap that it breaks, or the eligibility if its points are above that, and else Ok. Clock bids and drafts
/// are tested by it.
pub fn reply_to_package(award: &Award, eligible: u64, bidder: u16, package: &Package) -> Reply
    requires bidder { (1 ≤ bidder) × (bidder ≤ length award.now.bidders) }
    requires categories { length «package».now ≡ length award.now.supply }
    ensures reply { result ≡ bid_reply award.now Stage.Clock eligible bidder «package».now }
    ensures few { result ≡ Reply.Ok → sum «package».now ≤ MOST_LOTS }
{
    if let Some(category) = package.first_over(award.supply()) {
        return Reply::Supply(category);
    }
    if let Some(fault) = award.cap_fault(bidder, package) {
        return Reply::SpectrumCap {
            number: fault.number,
            limit: fault.limit,
        };
    }
    if package.points(award.points()) > eligible {
        return Reply::Points(eligible);
    }
    Reply::Ok
}

/// The reply to a bid of a bidder, if this is what each bidder is eligible for in the posted round.
pub fn reply_to_bid(award: &Award, eligibility: &[u64], bidder: u16, package: &Package) -> Reply
    requires bidders { length eligibility.now ≡ length award.now.bidders }
    requires categories { length «package».now ≡ length award.now.supply }
    ensures reply { result
        ≡ bid_reply award.now Stage.Clock (slice_index eligibility.now (bidder - 1)) bidder «package».now }
    ensures few { result ≡ Reply.Ok → sum «package».now ≤ MOST_LOTS }
{
    if bidder == 0 || bidder as usize > award.bidders() {
        return Reply::Unknown;
    }
    reply_to_package(award, eligibility[bidder as usize - 1], bidder, package)
}
