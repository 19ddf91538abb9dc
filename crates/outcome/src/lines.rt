// The lines of the winners, and the revenue.
ghost use Rattle.std.specs.Prelude.{◌≡◌, ℕ, ◌≤◌, ◌<◌, ◌^◌, ◌++◌, ◌+ℤ◌, ◌*ℤ◌, ◌<ℤ◌, ◌≤ℤ◌, pos, length, codes, OnOk};
ghost use Rattle.std.specs.List.{AllByRecursion};
ghost use Rattle.wide_num.specs.Sums.{nth, total};
ghost use Rattle.wide_num.specs.Range.{InRange};
ghost use Rattle.std.specs.Fmt.{decimal, signed_decimal};
ghost use Rattle.line_format.specs.Decimals.{decimals_text};
ghost use Rattle.outcome.specs.Fractions.{IsFractionOf, fraction_text};
ghost use Rattle.outcome.specs.Prices.{line_of, lines_of, reserves_of, CanPrintPrice};

use crate::prices::WinnerPrice;
use crate::{Fraction, add_fraction, add_numbers};
use bid_book::BidBook;
use line_format::{add_decimal, add_signed};
use std::alloc::AllocError;
use wide_num::Text;

/// Adds the line of each winner.
pub(crate) fn add_prices(
    text: &mut Text,
    book: &BidBook,
    prices: &[WinnerPrice],
) -> Result<(), AllocError>
    requires { AllByRecursion (CanPrintPrice book.now) prices.now }
    ensures { OnOk result (text.new ≡ text.old ++ lines_of book.now prices.now) }
{
    for price in prices {
        add_price(text, book, price)?;
    }
    Ok(())
}

fn add_price(text: &mut Text, book: &BidBook, price: &WinnerPrice) -> Result<(), AllocError>
    requires { CanPrintPrice book.now price.now }
    ensures { OnOk result (text.new ≡ text.old ++ line_of book.now price.now) }
{
    let bid = book.bid(price.bidder, price.bid);
    add_package(text, book.name(price.bidder), bid.package.counts())?;
    add_amounts(text, bid.amount, price)?;
    text.push(b'\n')?;
    Ok(())
}

// Adds who wins what.
fn add_package(text: &mut Text, name: &str, counts: &[u16]) -> Result<(), AllocError>
    ensures { OnOk result (text.new ≡ text.old ++ codes "winner " ++ name.now ++ decimals_text counts.now) }
{
    text.add(b"winner ")?;
    text.add(name.as_bytes())?;
    add_numbers(text, counts)
}

// Adds the amount of the bid and the prices.
fn add_amounts(text: &mut Text, amount: u64, price: &WinnerPrice) -> Result<(), AllocError>
    ensures { OnOk result (text.new ≡ text.old ++ codes " bid " ++ decimal amount ++ codes " vickrey " ++ signed_decimal price.now.vickrey ++ codes " pays " ++ fraction_text price.now.pays) }
{
    add_bid(text, amount)?;
    add_vickrey(text, price.vickrey)?;
    add_pays(text, price.pays)
}

// Adds the amount of the bid.
fn add_bid(text: &mut Text, amount: u64) -> Result<(), AllocError>
    ensures { OnOk result (text.new ≡ text.old ++ codes " bid " ++ decimal amount) }
{
    text.add(b" bid ")?;
    add_decimal(text, amount as u128)
}

// Adds the Vickrey price.
fn add_vickrey(text: &mut Text, vickrey: i128) -> Result<(), AllocError>
    ensures { OnOk result (text.new ≡ text.old ++ codes " vickrey " ++ signed_decimal vickrey) }
{
    text.add(b" vickrey ")?;
    add_signed(text, vickrey)
}

// Adds what is paid.
fn add_pays(text: &mut Text, pays: Fraction) -> Result<(), AllocError>
    ensures { OnOk result (text.new ≡ text.old ++ codes " pays " ++ fraction_text pays) }
{
    text.add(b" pays ")?;
    add_fraction(text, pays)
}

/// Adds the line of the revenue.
pub(crate) fn add_revenue(text: &mut Text, revenue: Fraction) -> Result<(), AllocError>
    ensures { OnOk result (text.new ≡ text.old ++ codes "revenue " ++ fraction_text revenue ++ codes "\n") }
{
    text.add(b"revenue ")?;
    add_fraction(text, revenue)?;
    text.push(b'\n')
}

/// What all winners pay, gross.
pub(crate) fn revenue(prices: &[WinnerPrice], den: i128, at: &[i128]) -> Fraction
    requires den { (pos 1 ≤ℤ den) × InRange den }
    requires few { length prices.now ≤ 2 ^ 16 }
    requires not_negative { (i : ℕ) → i < length at.now → pos 0 ≤ℤ nth at.now i }
    requires range { total (length at.now) (nth at.now) <ℤ pos (2 ^ 120) }
    ensures { IsFractionOf (total (length at.now) (nth at.now) +ℤ (den *ℤ pos (reserves_of prices.now))) den result }
{
    Fraction::new(paid_by_all(at), den).plus(reserves(prices))
}

// What all winners pay, net, times the denominator.
fn paid_by_all(at: &[i128]) -> i128
    requires not_negative { (i : ℕ) → i < length at.now → pos 0 ≤ℤ nth at.now i }
    requires range { total (length at.now) (nth at.now) <ℤ pos (2 ^ 120) }
    ensures sum { result ≡ total (length at.now) (nth at.now) }
    ensures sign { pos 0 ≤ℤ result }
{
    let mut sum: i128 = 0;
    for paid in at {
        sum += *paid;
    }
    sum
}

// The reserves of all winning packages.
fn reserves(prices: &[WinnerPrice]) -> u128
    requires { length prices.now ≤ 2 ^ 16 }
    ensures sum { result ≡ reserves_of prices.now }
    ensures small { result ≤ 2 ^ 80 }
{
    let mut sum: u128 = 0;
    for price in prices {
        sum += price.reserve as u128;
    }
    sum
}
