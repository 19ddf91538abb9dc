// The made texts.
ghost use Rattle.std.specs.Prelude.{◌≡◌, ◌≤◌, ◌<◌, ◌++◌, IfOk, OnOk, length, map};
ghost use Rattle.std.specs.List.{AllByRecursion};
ghost use Rattle.limits.specs.declared.TheConstants.{MOST_PRICE};
ghost use Rattle.big_auction.specs.AwardText.{made_award_text};
ghost use Rattle.big_auction.specs.Draws.{advanced};
ghost use Rattle.big_auction.specs.LogText.{log_text};
ghost use Rattle.big_auction.specs.MadeAuction.{IsMadeAuction};
ghost use Rattle.big_auction.specs.MadeAward.{made_bidders};
ghost use Rattle.big_auction.specs.MadeLog.{full_rounds, made_log, staying};
ghost use Rattle.big_auction.specs.Parts.{counts_of, figures_of, full_rounds_for, last_bids_for, packages_from, sealed_for};

use crate::award::award_text;
use crate::draws::Draws;
use crate::laws::{answered_log, few_winners, lawful_award, stated_award, stated_log};
use crate::lines::{Bidder, add_bid, add_bidder, add_bids, add_close};
use crate::prices::{final_prices, last_package};
use crate::values::{BIDDERS, FULL_ROUNDS, Figures, Lots, STAYING, WIDEST};
use std::alloc::{AllocError, Global};
use wide_num::Text;

/// How many lines each log has.
const LINES: u64 = 1339;

/// A made auction.
#[derive(Drop)]
pub struct Made {
    /// The text of the award.
    pub award: Text,
    /// The text of the log.
    pub log: Text,
    /// How many lines the log has.
    pub lines: u64,
}

/// The auction of a number: the bytes of its award and of its log, each a function of only the number. The award is lawful and
/// read as its terms, the log is read as its lines, the reply to each is Ok, the log is complete, and at most four bidders can
/// win. The only error is out of memory.
pub fn make(alloc: Global, number: u32) -> Result<Made, AllocError>
    ensures award { IfOk result (λ made. made.award ≡ made_award_text) }
    ensures log { IfOk result (λ made. made.log ≡ log_text (made_log number)) }
    ensures lines { IfOk result (λ made. made.lines ≡ length (made_log number)) }
    ensures auction { IfOk result (λ made. IsMadeAuction number) }
{
    lawful_award();
    stated_award();
    stated_log();
    answered_log();
    few_winners();
    let mut draws = Draws::new(number);
    let packages = draw_packages(alloc, &mut draws)?;
    let prices = final_prices(alloc, &packages)?;
    let mut log = Text::new(alloc);
    add_full_rounds(&mut log, &packages)?;
    add_last_bids(&mut log, &packages)?;
    add_close(&mut log)?;
    add_sealed_lines(&mut log, &mut draws, &prices, &packages)?;
    add_close(&mut log)?;
    let award = award_text(alloc)?;
    Ok(Made {
        award,
        log,
        lines: LINES,
    })
}

/// The package of each bidder.
fn draw_packages(alloc: Global, draws: &mut Draws) -> Result<Vec<Lots>, AllocError>
    ensures packages { IfOk result (λ v. map counts_of v.items ≡ packages_from draws.old.state made_bidders) }
    ensures some { IfOk result (λ v. AllByRecursion (λ p. 0 < p.a) v.items) }
    ensures state { OnOk result (draws.new.state ≡ advanced draws.old.state 48) }
{
    let mut packages = Vec::with_capacity(alloc, BIDDERS as usize)?;
    for _bidder in 0..BIDDERS {
        packages.push(draws.package(WIDEST))?;
    }
    Ok(packages)
}

/// Adds the lines of the rounds with bids of all bidders.
fn add_full_rounds(text: &mut Text, packages: &[Lots]) -> Result<(), AllocError>
    requires { length packages.now ≡ made_bidders }
    ensures { OnOk result (text.new ≡ text.old ++ log_text (full_rounds_for (map counts_of packages.now) full_rounds)) }
{
    for _round in 0..FULL_ROUNDS {
        add_bids(text, packages)?;
        add_close(text)?;
    }
    Ok(())
}

/// Adds the bids of the last round.
fn add_last_bids(text: &mut Text, packages: &[Lots]) -> Result<(), AllocError>
    requires { length packages.now ≡ made_bidders }
    ensures { OnOk result (text.new ≡ text.old ++ log_text (last_bids_for (map counts_of packages.now) staying)) }
{
    for k in 0..STAYING {
        add_bid(text, k + 1, last_package(k + 1, packages[k as usize]))?;
    }
    Ok(())
}

/// Adds the lines of all bidders in the sealed round.
fn add_sealed_lines(
    text: &mut Text,
    draws: &mut Draws,
    prices: &Figures,
    packages: &[Lots],
) -> Result<(), AllocError>
    requires prices { AllByRecursion (λ p. p ≤ MOST_PRICE) (figures_of prices.now) }
    requires some { AllByRecursion (λ p. 0 < p.a) packages.now }
    requires few { length packages.now ≤ 1000 }
    ensures { OnOk result
        (text.new ≡ text.old
        ++ log_text (sealed_for draws.old.state (figures_of prices.now) (map counts_of packages.now)
        (length packages.now))) }
{
    for (k, own) in packages.iter().enumerate() {
        let number = k as u16 + 1;
        let bidder = Bidder {
            number,
            own: *own,
            last: last_package(number, *own),
        };
        add_bidder(text, draws, prices, &bidder)?;
    }
    Ok(())
}
