ghost use Rattle.std.specs.Prelude.{IsTrue, pos};
ghost use Rattle.auction_model.specs.Book.{market_of};
ghost use Rattle.choices.specs.Lowering.{CanLower};
ghost use Rattle.value_table.specs.SideValues.{AreSidesOf};

use crate::samples::{DAY_CRAMTON, book_of, is_line};
use bid_book::{BidBook, read_book};
use choices::{Chooser, Found, Grid, first_by_listing, value};
use std::alloc::{AllocError, Global};
use std::process::Abort;
use value_table::{BookChooser, Sides, TurnTable, win};

/// One lot of each of two categories; a and b win it, and c bids for both.
const TWO_OR_ONE: &str =
    "book 1\nsupply 1 1\nreserve 0 0\nbidder a\nbid 1 0 10\nbidder b\nbid 0 1 10\nbidder c\nbid 1 1 12\nend\n";

// Whether these can be the surpluses of a search: one for each bidder, 0 for losers, and no sum leaves the range.
fn are_surpluses(chooser: &BookChooser, surplus: &[i128]) -> bool
    ensures { IsTrue result → CanLower (market_of chooser.now.book.now) chooser.now.winners (pos 1) surplus.now }
{
    let all = value(chooser.book, &chooser.winners);
    if surplus.len() != chooser.members() || all < 0 || all > 1_000_000 {
        return false;
    }
    for k in 0..surplus.len() {
        let lost = chooser.winners.number(k as u16 + 1) == 0;
        if surplus[k].unsigned_abs() > 1_000_000 || lost && surplus[k] != 0 {
            return false;
        }
    }
    true
}

// What the search at these surpluses finds, and the grid of its table.
fn search(
    rt: &impl Abort,
    alloc: Global,
    chooser: &BookChooser,
    surplus: &[i128],
) -> Result<(Found<TurnTable>, Grid), AllocError> {
    if !are_surpluses(chooser, surplus) {
        panic!(rt; "these are surpluses");
    }
    let found = chooser.best_lowered(alloc, 1, surplus)?;
    let grid = found.table.grid(alloc, chooser.book)?;
    Ok((found, grid))
}

// Asserts the sum and the choice of what was found.
fn found_is(rt: &impl Abort, found: &Found<TurnTable>, sum: i128, numbers: &[u16]) {
    assert_eq!(rt; found.sum, sum);
    assert!(rt; found.choice.numbers() == numbers);
}

// Asserts that the first two of five bidders win.
fn first_two_win(rt: &impl Abort, chooser: &BookChooser) {
    assert!(rt; chooser.winners().numbers() == [1, 1, 0, 0, 0].as_slice());
    assert_eq!(rt; chooser.winner_value(1), 28);
    assert_eq!(rt; chooser.winner_value(3), 0);
}

#[test]
fn a_chooser_searches_at_surpluses(rt: HostRuntime) -> Result<(), AllocError> {
    let book = book_of(&rt, rt.alloc(), DAY_CRAMTON);
    let chooser = BookChooser::new(&book, win(rt.alloc(), &book)?);
    first_two_win(&rt, &chooser);
    let (found, _grid) = search(&rt, rt.alloc(), &chooser, &[14, 8, 0, 0, 0])?;
    found_is(&rt, &found, 32, &[0, 0, 1, 0, 0]);
    Ok(())
}

// If a pays 15 for its bid of 10, its surplus is -5, and b's is 9 if it pays 1. So a and b together count 15 and 1, and c
// counts 12 together with the 5 of a, which isn't used.
#[test]
fn a_bidder_that_pays_more_than_its_bid_counts_where_it_is_not_used(
    rt: HostRuntime,
) -> Result<(), AllocError> {
    let book = book_of(&rt, rt.alloc(), TWO_OR_ONE);
    let chooser = BookChooser::new(&book, win(rt.alloc(), &book)?);
    assert!(rt; chooser.winners().numbers() == [1, 1, 0].as_slice());
    let (found, grid) = search(&rt, rt.alloc(), &chooser, &[-5, 9, 0])?;
    found_is(&rt, &found, 17, &[0, 0, 1]);
    assert!(rt; is_line(&grid, 0, &[5, 6, 15, 17]));
    assert!(rt; is_line(&grid, 1, &[0, 1, 0, 12]));
    Ok(())
}

/// The greatest value without each bidder of the book: without b1, b2 and b4 win, without b2, b1 and b5.
const WITHOUT_ONE: &[i128] = &[34, 40, 48, 48, 48];

// Whether these are the values without each bidder.
fn are_values_without(book: &BidBook, sides: &Sides, values: &[i128]) -> bool
    requires { AreSidesOf book.now sides.now }
{
    if values.len() != book.bidders() {
        return false;
    }
    for k in 0..values.len() {
        if sides.without(k as u16 + 1) != values[k] {
            return false;
        }
    }
    true
}

// Asserts the content of a side for the first bidders of five and for the last, and the table without the first.
fn are_sides(
    rt: &impl Abort,
    alloc: Global,
    book: &BidBook,
    sides: &Sides,
) -> Result<(), AllocError>
    requires { AreSidesOf book.now sides.now }
{
    assert!(rt; are_values_without(book, sides, WITHOUT_ONE));
    if book.bidders() < 2 || book.supply().states() != 4 {
        panic!(rt; "there are five bidders, and one lot of each of two categories");
    }
    assert_eq!(rt; sides.left(2, 3), 48);
    assert_eq!(rt; sides.right(2, 3), 32);
    let table = sides.table_without(alloc, book, 1)?;
    assert_eq!(rt; table.most(book), 34);
    Ok(())
}

#[test]
fn sides_give_the_values_without_each_bidder(rt: HostRuntime) -> Result<(), AllocError> {
    let book = book_of(&rt, rt.alloc(), DAY_CRAMTON);
    let sides = Sides::build(rt.alloc(), &book)?;
    are_sides(&rt, rt.alloc(), &book, &sides)
}

/// Two lots of one category with a reserve of 1, and one lot of another.
const THREE: &str =
    "book 1\nsupply 2 1\nreserve 1 0\nbidder a\nbid 1 0 10\nbid 2 0 16\nbidder b\nbid 0 1 5\nbid 1 1 12\nbidder c\n\
    bid 1 0 5\nbid 1 1 9\nend\n";

/// The book without a, without b and without c.
const TWO_OF_THREE: &[&str] = &[
    "book 1\nsupply 2 1\nreserve 1 0\nbidder b\nbid 0 1 5\nbid 1 1 12\nbidder c\nbid 1 0 5\nbid 1 1 9\nend\n",
    "book 1\nsupply 2 1\nreserve 1 0\nbidder a\nbid 1 0 10\nbid 2 0 16\nbidder c\nbid 1 0 5\nbid 1 1 9\nend\n",
    "book 1\nsupply 2 1\nreserve 1 0\nbidder a\nbid 1 0 10\nbid 2 0 16\nbidder b\nbid 0 1 5\nbid 1 1 12\nend\n",
];

// The value of the winning choice of each book, by going through all choices.
fn listed_values(alloc: Global, texts: &[&str]) -> Result<Vec<i128>, AllocError> {
    let mut values = Vec::new(alloc);
    for text in texts {
        if let Ok(book) = read_book(alloc, text.as_bytes()) {
            let winners = first_by_listing(alloc, &book)?;
            values.push(value(&book, &winners))?;
        }
    }
    Ok(values)
}

#[test]
fn sides_agree_with_a_listing(rt: HostRuntime) -> Result<(), AllocError> {
    let values = listed_values(rt.alloc(), TWO_OF_THREE)?;
    let book = book_of(&rt, rt.alloc(), THREE);
    let sides = Sides::build(rt.alloc(), &book)?;
    assert!(rt; are_values_without(&book, &sides, &values));
    Ok(())
}
