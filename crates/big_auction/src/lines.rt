// The lines of the log.
ghost use Rattle.std.specs.Prelude.{◌≡◌, ◌≤◌, ◌+◌, ◌*◌, ◌++◌, ◌∷◌, [], ℕ, OnOk, length, map, ◌<◌, if◌then◌else◌, nat_le};
ghost use Rattle.std.specs.List.{AllByRecursion};
ghost use Rattle.limits.specs.declared.TheConstants.{MOST_PRICE};
ghost use Rattle.log_file.specs.LogForm.{counts_text};
ghost use Rattle.auction_rules.specs.declared.Event.TheVariants.{Bid, Close, Draft, Submit};
ghost use Rattle.big_auction.specs.Draws.{advanced};
ghost use Rattle.big_auction.specs.LogText.{event_text, log_text};
ghost use Rattle.big_auction.specs.MadeAward.{made_name};
ghost use Rattle.big_auction.specs.MadeLog.{drawn_draft, last_draft, lines_from, draft_count, staying};
ghost use Rattle.big_auction.specs.Parts.{bids_for, counts_of, figures_of};

use crate::draws::Draws;
use crate::prices::{amount, cost};
use crate::values::{DRAFTS, Figures, Lots, STAYING};
use line_format::{add_decimal, add_number};
use std::alloc::AllocError;
use wide_num::Text;

/// A bidder by its number, with the package of its own and the one that it asks for at last.
#[derive(Clone, Copy)]
pub struct Bidder {
    pub number: u16,
    pub own: Lots,
    pub last: Lots,
}

/// Adds the kind of a line and the bidder's name, with the commas after them.
fn add_opening(text: &mut Text, kind: &[u8], bidder: u16) -> Result<(), AllocError>
    ensures { OnOk result (text.new ≡ text.old ++ (kind.now ++ 44 ∷ (made_name bidder ++ 44 ∷ []))) }
{
    text.add(kind)?;
    text.add(b",b")?;
    add_decimal(text, bidder as u128)?;
    text.push(b',')?;
    Ok(())
}

/// Adds the counts of a package.
fn add_counts(text: &mut Text, lots: Lots) -> Result<(), AllocError>
    ensures { OnOk result (text.new ≡ text.old ++ counts_text (counts_of lots)) }
{
    add_decimal(text, lots.a as u128)?;
    add_number(text, lots.b as u64)?;
    add_number(text, lots.c as u64)?;
    add_number(text, lots.e as u64)?;
    Ok(())
}

/// Adds the line of a clock bid.
pub fn add_bid(text: &mut Text, bidder: u16, lots: Lots) -> Result<(), AllocError>
    ensures { OnOk result (text.new ≡ text.old ++ event_text (Bid bidder (counts_of lots))) }
{
    add_opening(text, b"bid", bidder)?;
    add_counts(text, lots)?;
    text.add(b",\n")?;
    Ok(())
}

/// Adds the line of a draft.
fn add_draft(text: &mut Text, bidder: u16, lots: Lots, amount: u64) -> Result<(), AllocError>
    ensures { OnOk result (text.new ≡ text.old ++ event_text (Draft bidder (counts_of lots) amount)) }
{
    add_opening(text, b"draft", bidder)?;
    add_counts(text, lots)?;
    text.push(b',')?;
    add_decimal(text, amount as u128)?;
    text.push(b'\n')?;
    Ok(())
}

/// Adds the line of a submission.
fn add_submit(text: &mut Text, bidder: u16) -> Result<(), AllocError>
    ensures { OnOk result (text.new ≡ text.old ++ event_text (Submit bidder)) }
{
    add_opening(text, b"submit", bidder)?;
    text.add(b",\n")?;
    Ok(())
}

/// Adds the line of a close.
pub fn add_close(text: &mut Text) -> Result<(), AllocError>
    ensures { OnOk result (text.new ≡ text.old ++ event_text Close) }
{
    text.add(b"close,,,\n")?;
    Ok(())
}

/// Adds the clock bids of the bidders from the first on for these packages, one each.
pub fn add_bids(text: &mut Text, packages: &[Lots]) -> Result<(), AllocError>
    requires { length packages.now ≤ 1000 }
    ensures { OnOk result
        (text.new ≡ text.old ++ log_text (bids_for (map counts_of packages.now) (length packages.now))) }
{
    for (k, lots) in packages.iter().enumerate() {
        add_bid(text, k as u16 + 1, *lots)?;
    }
    Ok(())
}

/// Adds one draft that is drawn for the bidder.
fn add_drawn(
    text: &mut Text,
    draws: &mut Draws,
    prices: &Figures,
    bidder: &Bidder,
) -> Result<(), AllocError>
    requires prices { AllByRecursion (λ p. p ≤ MOST_PRICE) (figures_of prices.now) }
    requires some { 0 < bidder.now.own.a }
    ensures text { OnOk result
        (text.new ≡ text.old
        ++ event_text (drawn_draft draws.old.state (figures_of prices.now) bidder.now.number
        (counts_of bidder.now.own) (counts_of bidder.now.last))) }
    ensures state { draws.new.state ≡ advanced draws.old.state 5 }
{
    let lots = draws.package(bidder.own);
    let permille = 500 + draws.draw(501) as u64;
    let amount = amount(prices, bidder.own, bidder.last, lots, permille);
    add_draft(text, bidder.number, lots, amount)
}

/// Adds the draft more of a bidder that stays.
fn add_last(
    text: &mut Text,
    draws: &mut Draws,
    prices: &Figures,
    bidder: &Bidder,
) -> Result<(), AllocError>
    requires { AllByRecursion (λ p. p ≤ MOST_PRICE) (figures_of prices.now) }
    ensures text { OnOk result
        (text.new ≡ text.old
        ++ log_text (last_draft draws.old.state (figures_of prices.now) bidder.now.number
        (counts_of bidder.now.last))) }
    ensures state { draws.new.state ≡ advanced draws.old.state (if nat_le bidder.now.number staying then 1 else 0) }
{
    if bidder.number > STAYING {
        return Ok(());
    }
    let amount = cost(prices, bidder.last) + draws.draw(1000) as u64;
    add_draft(text, bidder.number, bidder.last, amount)
}

/// Adds the lines of a bidder in the sealed round.
pub fn add_bidder(
    text: &mut Text,
    draws: &mut Draws,
    prices: &Figures,
    bidder: &Bidder,
) -> Result<(), AllocError>
    requires prices { AllByRecursion (λ p. p ≤ MOST_PRICE) (figures_of prices.now) }
    requires some { 0 < bidder.now.own.a }
    ensures text { OnOk result
        (text.new ≡ text.old
        ++ log_text (lines_from draws.old.state (figures_of prices.now) bidder.now.number
        (counts_of bidder.now.own) (counts_of bidder.now.last))) }
    ensures state { OnOk result
        (draws.new.state
        ≡ advanced draws.old.state (5 * draft_count + (if nat_le bidder.now.number staying then 1 else 0))) }
{
    for _draft in 0..DRAFTS {
        add_drawn(text, draws, prices, bidder)?;
    }
    add_last(text, draws, prices, bidder)?;
    add_submit(text, bidder.number)
}
