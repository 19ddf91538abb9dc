// The winning choice of a small book by going through all its choices, with no table.
ghost use Rattle.std.specs.Prelude.{◌≡◌, ◌+◌, ◌-◌, ◌*◌, ◌^◌, ◌≤◌, ◌<◌, ◌∷◌, length, IfOk, unsigned_abs, ◌+ℤ◌, ◌≤ℤ◌, ◌<ℤ◌};
ghost use Rattle.auction_model.specs.Place.{left_at, states_of};
ghost use Rattle.auction_model.specs.Menu.{fits_after};
ghost use Rattle.auction_model.specs.Market.{sum_after};
ghost use Rattle.auction_model.specs.Greatest.{IsFirstGreatest, IsWinning};
ghost use Rattle.auction_model.specs.Book.{market_of, menu_of, net_of};
ghost use Rattle.limits.specs.declared.TheConstants.{MOST_AMOUNT};

use crate::judging::{place_after, worth};
use crate::{Choice, Numbers};
use bid_book::BidBook;
use std::alloc::{AllocError, Global};

/// A choice of the last bidders, and the sum of the net amounts of its bids.
#[derive(Drop)]
struct Best {
    numbers: Numbers,
    value: i128,
}

/// The choice with the number of one bidder more first.
fn with_number(number: u16, worth: i128, rest: Best) -> Result<Best, AllocError>
    requires worth { unsigned_abs worth ≤ 2 ^ 100 }
    requires rest { unsigned_abs rest.value ≤ 2 ^ 100 }
    ensures numbers { IfOk result (λ b. b.numbers ≡ number ∷ rest.numbers) }
    ensures value { IfOk result (λ b. b.value ≡ worth +ℤ rest.value) }
{
    let mut numbers = rest.numbers;
    numbers.push_front(number)?;
    Ok(Best {
        numbers,
        value: worth + rest.value,
    })
}

/// The one of greater value, and `next` if both are equal.
fn better(best: Best, next: Best) -> Best
    ensures kept { next.value <ℤ best.value → result ≡ best }
    ensures taken { best.value ≤ℤ next.value → result ≡ next }
{
    if next.value < best.value { best } else { next }
}

/// The first of the greatest choices of the bidders after `k`, within what a place leaves.
fn first_after(alloc: Global, book: &BidBook, k: usize, place: usize) -> Result<Best, AllocError>
    requires bidder { k ≤ length book.now.bidders }
    requires place { place < states_of book.now.supply }
    ensures first { IfOk result
        (λ b. IsFirstGreatest (fits_after (menu_of book.now) k (left_at book.now.supply place))
        (sum_after (net_of book.now) k) b.numbers) }
    ensures value { IfOk result (λ b. b.value ≡ sum_after (net_of book.now) k b.numbers) }
    ensures size { IfOk result (λ b. unsigned_abs b.value ≤ (length book.now.bidders - k) * MOST_AMOUNT) }
{
    if k == book.bidders() {
        let numbers = Numbers::new(alloc);
        return Ok(Best { numbers, value: 0 });
    }
    let j = k as u16 + 1;
    let mut best = with_number(0, 0, first_after(alloc, book, k + 1, place)?)?;
    for i in (0..book.bids(j)).rev() {
        if let Some(left) = place_after(book, j, i + 1, place) {
            let rest = first_after(alloc, book, k + 1, left)?;
            let next = with_number(i + 1, worth(book, j, i + 1), rest)?;
            best = better(best, next);
        }
    }
    Ok(best)
}

/// The winning choice of a book, by going through all its choices: for books of few bids, as in tests. Its time grows with
/// the product of the numbers of bids.
pub fn first_by_listing(alloc: Global, book: &BidBook) -> Result<Choice, AllocError>
    ensures { IfOk result (λ c. IsWinning (market_of book.now) c) }
{
    let whole = book.supply().states() - 1;
    let best = first_after(alloc, book, 0, whole)?;
    Ok(Choice::new(best.numbers))
}
