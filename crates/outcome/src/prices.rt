// What is printed of each winner.
ghost use Rattle.std.specs.Prelude.{◌≡◌, ◌≤◌, ◌<◌, pos, length, IfOk};
ghost use Rattle.auction_model.specs.Book.{bids_of};
ghost use Rattle.limits.specs.declared.TheConstants.{MOST_AMOUNT};
ghost use Rattle.print_grammar.specs.Prices.{reserve_of};
ghost use Rattle.outcome.specs.Prices.{IsWinnerPrice, AreWinnerPrices};
ghost use Rattle.outcome.specs.Printable.{IsPrintable, IsWinnerOf, point_of};

use crate::Fraction;
use bid_book::BidBook;
use cert_summary::CertFacts;
use choices::Single;
use std::alloc::{AllocError, Global};

/// What is printed of a winner. All amounts are gross.
#[derive(Drop)]
pub(crate) struct WinnerPrice {
    /// The number of the winner.
    pub bidder: u16,
    /// The number of the bid that it wins with.
    pub bid: u16,
    /// The reserve of the package of this bid.
    pub reserve: u64,
    /// Its Vickrey price.
    pub vickrey: i128,
    /// What it pays.
    pub pays: Fraction,
}

/// What is printed of each winner of the facts, in order. The only error is out of memory.
pub(crate) fn winner_prices(
    alloc: Global,
    book: &BidBook,
    facts: &CertFacts,
) -> Result<Vec<WinnerPrice>, AllocError>
    requires { IsPrintable book.now facts.now }
    ensures { IfOk result
        (λ list. AreWinnerPrices book.now facts.now.choice (point_of facts.now) facts.now.singles list.items) }
{
    let mut prices = Vec::new(alloc);
    for single in facts.singles.items() {
        prices.push(winner_price(book, facts, single))?;
    }
    Ok(prices)
}

// What is printed of this winner.
fn winner_price(book: &BidBook, facts: &CertFacts, single: &Single) -> WinnerPrice
    requires facts { IsPrintable book.now facts.now }
    requires winner { IsWinnerOf facts.now single.now }
    ensures { IsWinnerPrice book.now facts.now.choice (point_of facts.now) single.now result }
{
    let j = single.winner;
    let bid = facts.choice.number(j);
    let reserve = reserve(book, j, bid);
    let paid = facts.pay.items()[j as usize - 1];
    WinnerPrice {
        bidder: j,
        bid,
        reserve,
        vickrey: single.price + reserve as i128,
        pays: Fraction::new(paid, facts.den).plus(reserve as u128),
    }
}

// The reserve of the package of bid `i` of bidder `j`.
fn reserve(book: &BidBook, j: u16, i: u16) -> u64
    requires bidder { (0 < j) × (j ≤ length book.now.bidders) }
    requires bid { (0 < i) × (i ≤ length (bids_of book.now j)) }
    ensures reserve { pos result ≡ reserve_of book.now j i }
    ensures small { result ≤ MOST_AMOUNT }
{
    book.kept();
    let bid = book.bid(j, i);
    bid.package.cost(book.reserves())
}
