// Whether the winning choice stays when a bid is inserted, and its numbers then.
ghost use Rattle.std.specs.Prelude.{◌≡◌, ℕ, ◌^◌, ◌-◌, ◌≤◌, ◌<◌, IsTrue, length, pos, slice_index_or, slice_set, ◌-ℤ◌, unsigned_abs};
ghost use Rattle.auction_model.specs.Book.{market_of, menu_of};
ghost use Rattle.auction_model.specs.Market.{number_of, value_of};
ghost use Rattle.auction_model.specs.Menu.{is_known_after};
ghost use Rattle.auction_model.specs.Package.{cost_of, is_within};
ghost use Rattle.auction_model.specs.Place.{place_of, states_of};
ghost use Rattle.bid_book.specs.Changes.{CanPut};
ghost use Rattle.limits.specs.declared.TheConstants.{MOST_VALUE};
ghost use Rattle.review.specs.Reviewed.{AreBelow, AreSideLines, IsBeaten, IsBelowAt, IsReviewed, moved_down, moved_up};

use crate::lines::SideLines;
use bid_book::BidBook;
use choices::{Choice, value};
use lots::{Package, Supply};
use std::alloc::Global;

/// Whether each choice with such a bid of bidder `j` is worth less than the winning choice of the book.
pub fn is_beaten(
    alloc: Global,
    book: &BidBook,
    lines: &mut SideLines,
    choice: &Choice,
    j: u16,
    package: &Package,
    amount: u64,
) -> bool
    requires reviewed { IsReviewed book.now lines.old choice.now }
    requires bid { CanPut book.now j (record { lots = «package».now; amount = amount }) }
    ensures lines { AreSideLines book.now lines.new }
    ensures beaten { IsTrue result → IsBeaten book.now choice.now j (record { lots = «package».now; amount = amount }) }
{
    let k = j as usize;
    lines.renew_left(alloc, book, k - 1);
    lines.renew_right(alloc, book, k);
    let limit = limit_beside(book, choice, package, amount);
    are_below(
        book.supply(),
        package,
        &lines.left[k - 1],
        &lines.right[k],
        limit,
    )
}

/// What the bidders other than one with such a bid have to reach, so that all are together worth what the choice is.
fn limit_beside(book: &BidBook, choice: &Choice, package: &Package, amount: u64) -> i128
    requires known { IsTrue (is_known_after (menu_of book.now) 0 choice.now) }
    requires categories { length «package».now ≡ length book.now.supply }
    requires fits { IsTrue (is_within «package».now book.now.supply) }
    ensures { result ≡ value_of (market_of book.now) choice.now -ℤ (pos amount -ℤ pos (cost_of book.now.reserves «package».now)) }
{
    book.kept();
    let net = amount as i128 - package.cost(book.reserves()) as i128;
    value(book, choice) - net
}

/// Whether at each place where the package fits the numbers of both lines around it are together below the limit.
fn are_below(
    supply: &Supply,
    package: &Package,
    before: &[i128],
    after: &[i128],
    limit: i128,
) -> bool
    requires categories { length «package».now ≡ length supply.now }
    requires fits { IsTrue (is_within «package».now supply.now) }
    requires before { length before.now ≡ states_of supply.now }
    requires after { length after.now ≡ states_of supply.now }
    requires before_sizes { (s : ℕ) → unsigned_abs (slice_index_or before.now s (pos 0)) ≤ MOST_VALUE }
    requires after_sizes { (s : ℕ) → unsigned_abs (slice_index_or after.now s (pos 0)) ≤ MOST_VALUE }
    ensures { IsTrue result → AreBelow supply.now «package».now before.now after.now limit }
{
    let first = supply.place(package);
    for place in first..supply.states() {
        if !is_below_at(supply, package, before, after, limit, place, first) {
            return false;
        }
    }
    true
}

/// Whether the bid is below the limit at one place. The package has place `first`. It is tested for fit only if both numbers
/// reach the limit.
fn is_below_at(
    supply: &Supply,
    package: &Package,
    before: &[i128],
    after: &[i128],
    limit: i128,
    place: usize,
    first: usize,
) -> bool
    requires categories { length «package».now ≡ length supply.now }
    requires before { length before.now ≡ states_of supply.now }
    requires after { length after.now ≡ states_of supply.now }
    requires before_sizes { (s : ℕ) → unsigned_abs (slice_index_or before.now s (pos 0)) ≤ MOST_VALUE }
    requires after_sizes { (s : ℕ) → unsigned_abs (slice_index_or after.now s (pos 0)) ≤ MOST_VALUE }
    requires place { place < states_of supply.now }
    requires first { (first ≡ place_of supply.now «package».now) × (first ≤ place) }
    ensures { IsTrue result → IsBelowAt supply.now «package».now before.now after.now limit place }
{
    let last = supply.states() - 1;
    if before[last - place] + after[place - first] < limit {
        return true;
    }
    supply.minus(place, package).is_none()
}

/// Changes the choice to the number of its bid of bidder `j` after bid `put` was inserted.
pub fn move_up(choice: &mut Choice, j: u16, put: u16)
    requires bidder { (0 < j) × (j ≤ length choice.old) }
    requires few { number_of choice.old j < 2 ^ 16 - 1 }
    ensures { choice.new ≡ slice_set choice.old (j - 1) (moved_up put (number_of choice.old j)) }
{
    let number = choice.number(j);
    let moved = if put <= number { number + 1 } else { number };
    choice.set(j, moved);
}

/// Changes the choice to the number of its bid of bidder `j` after bid `gone` was removed.
pub fn move_down(choice: &mut Choice, j: u16, gone: u16)
    requires bidder { (0 < j) × (j ≤ length choice.old) }
    ensures { choice.new ≡ slice_set choice.old (j - 1) (moved_down gone (number_of choice.old j)) }
{
    let number = choice.number(j);
    let moved = if gone < number { number - 1 } else { number };
    choice.set(j, moved);
}
