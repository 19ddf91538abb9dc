// Prices and costs.
ghost use Rattle.std.specs.Prelude.{◌≡◌, ◌≤◌, ◌-◌, ◌^◌, IfOk, if◌then◌else◌, length, map, nat_le};
ghost use Rattle.std.specs.List.{AllByRecursion};
ghost use Rattle.limits.specs.declared.TheConstants.{MOST_PRICE};
ghost use Rattle.auction_model.specs.Package.{cost_of};
ghost use Rattle.auction_model.specs.PackageTests.{is_same};
ghost use Rattle.auction_rules.specs.Rounds.{prices_after, raised_prices};
ghost use Rattle.auction_rules.specs.Step.{stepped};
ghost use Rattle.auction_rules.specs.State.{asked};
ghost use Rattle.big_auction.specs.MadeAward.{made_bidders, made_terms};
ghost use Rattle.big_auction.specs.MadeLog.{amount_of, full_rounds, last_of};
ghost use Rattle.big_auction.specs.Parts.{counts_of, figures_of, held_from};

use crate::values::{FULL_ROUNDS, Figures, Lots, NO_LOTS, RESERVES, STAYING, SUPPLY};
use award_file::StepTable;
use clock_stage::step;
use std::alloc::{AllocError, Global};

/// What the bidder asks for in the last round.
pub fn last_package(bidder: u16, own: Lots) -> Lots
    ensures { counts_of result ≡ last_of bidder (counts_of own) }
{
    if bidder > STAYING {
        return NO_LOTS;
    }
    Lots {
        a: 1,
        b: 0,
        c: own.c.min(3),
        e: own.e.min(2),
    }
}

/// What a package costs.
pub fn cost(prices: &Figures, lots: Lots) -> u64
    requires { AllByRecursion (λ p. p ≤ MOST_PRICE) (figures_of prices.now) }
    ensures cost { result ≡ cost_of (figures_of prices.now) (counts_of lots) }
    ensures top { result ≤ 2 ^ 54 }
{
    prices.a * lots.a as u64
        + prices.b * lots.b as u64
        + prices.c * lots.c as u64
        + prices.e * lots.e as u64
}

fn is_same(left: Lots, right: Lots) -> bool
    ensures { result ≡ is_same (counts_of left) (counts_of right) }
{
    left.a == right.a && left.b == right.b && left.c == right.c && left.e == right.e
}

/// The amount of a draft of a bidder with these two packages: what it costs, if it is one of them. Else that many thousandths
/// of that, but no less than at the reserves.
pub fn amount(prices: &Figures, own: Lots, last: Lots, lots: Lots, permille: u64) -> u64
    requires prices { AllByRecursion (λ p. p ≤ MOST_PRICE) (figures_of prices.now) }
    requires permille { permille ≤ 1000 }
    ensures { result ≡ amount_of (figures_of prices.now) (counts_of own) (counts_of last) (counts_of lots) permille }
{
    let whole = cost(prices, lots);
    if is_same(lots, own) || is_same(lots, last) {
        return whole;
    }
    cost(&RESERVES, lots).max(whole * permille / 1000)
}

/// What the packages ask for together.
fn demand(packages: &[Lots]) -> Figures
    requires { length packages.now ≤ 1000 }
    ensures { figures_of result ≡ asked made_terms (map counts_of packages.now) }
{
    let mut all = Figures {
        a: 0,
        b: 0,
        c: 0,
        e: 0,
    };
    for lots in packages {
        all = Figures {
            a: all.a + lots.a as u64,
            b: all.b + lots.b as u64,
            c: all.c + lots.c as u64,
            e: all.e + lots.e as u64,
        };
    }
    all
}

/// The next price of a category: it rises if more is asked for than there is.
fn raised_price(price: u64, asked: u64, supply: u16, table: &StepTable) -> u64
    requires { price ≤ MOST_PRICE }
    ensures { result
        ≡ (if nat_le asked supply then price else stepped table.now.tick table.now.thresholds price
        (asked - supply)) }
{
    let supply = supply as u64;
    if asked <= supply {
        return price;
    }
    step(price, asked - supply, table)
}

/// The prices of the next round.
fn raised(prices: &Figures, asked: &Figures, table: &StepTable) -> Figures
    requires { AllByRecursion (λ p. p ≤ MOST_PRICE) (figures_of prices.now) }
    ensures { figures_of result
        ≡ raised_prices table.now.tick table.now.thresholds (figures_of prices.now)
        (figures_of asked.now) made_terms.supply }
{
    Figures {
        a: raised_price(prices.a, asked.a, SUPPLY.a, table),
        b: raised_price(prices.b, asked.b, SUPPLY.b, table),
        c: raised_price(prices.c, asked.c, SUPPLY.c, table),
        e: raised_price(prices.e, asked.e, SUPPLY.e, table),
    }
}

/// The prices of the last round, if these packages are asked for in each round before it.
pub fn final_prices(alloc: Global, packages: &[Lots]) -> Result<Figures, AllocError>
    requires { length packages.now ≡ made_bidders }
    ensures prices { IfOk result
        (λ p. figures_of p ≡ prices_after made_terms (held_from (map counts_of packages.now)) full_rounds) }
    ensures low { IfOk result (λ p. AllByRecursion (λ p. p ≤ MOST_PRICE) (figures_of p)) }
{
    let table = StepTable::new(alloc, 1, &[(1, 100), (5, 200)])?;
    let asked = demand(packages);
    let mut prices = RESERVES;
    for _round in 0..FULL_ROUNDS {
        prices = raised(&prices, &asked, &table);
    }
    Ok(prices)
}
