// Edits that the book can have, with what they leave of the lines and the winning choice.
ghost use Rattle.std.specs.Prelude.{◌≡◌, ◌≢◌, ℕ, ◌≤◌, ◌<◌, IsOk, IsTrue, List, None, OnErr, OnOk, length};
ghost use Rattle.auction_model.specs.Book.{bids_of, market_of};
ghost use Rattle.auction_model.specs.Entries.{without_entry};
ghost use Rattle.auction_model.specs.Greatest.{IsWinning};
ghost use Rattle.bid_book.specs.Changes.{CanPut, with_bids, with_put};
ghost use Rattle.review.specs.Edits.{amount_for, edit_lots, edit_reply, edited};
ghost use Rattle.review.specs.Reviewed.{AreSideLines, IsHigher, IsReviewed};

use crate::edit::{Edit, EditReply};
use crate::keeping::{is_beaten, move_down, move_up};
use crate::lines::SideLines;
use crate::replies::bid_for;
use crate::tracing::retrace;
use bid_book::{BidBook, rules_with_bid};
use choices::Choice;
use lots::{Bid, Package};
use std::alloc::{AllocError, Global};

/// Changes a book by an edit that it can have, and its winning choice. If memory runs out, both stay as they are.
pub fn change(
    alloc: Global,
    book: &mut BidBook,
    lines: &mut SideLines,
    choice: &mut Choice,
    edit: &Edit,
) -> Result<(), AllocError>
    requires categories { length (edit_lots edit.now) ≡ length book.old.supply }
    requires ok { edit_reply book.old edit.now ≡ EditReply.Ok }
    requires reviewed { IsReviewed book.old lines.old choice.old }
    ensures edited { OnOk result (book.new ≡ edited book.old edit.now) }
    ensures reviewed { IsReviewed book.new lines.new choice.new }
    ensures unchanged { OnErr result ((book.new ≡ book.old) × (choice.new ≡ choice.old)) }
    ensures removed { (j : ℕ) → (lots : List ℕ) → edit.now ≡ Edit.Remove j lots → IsOk result }
{
    book.kept();
    match edit {
        Edit::Add {
            bidder,
            package,
            amount,
        } => add(alloc, book, lines, choice, *bidder, package, *amount),
        Edit::Raise {
            bidder,
            package,
            amount,
        } => raise(alloc, book, lines, choice, *bidder, package, *amount),
        Edit::Remove { bidder, package } => {
            take_out(alloc, book, lines, choice, *bidder, package);
            Ok(())
        }
    }
}

/// Puts a bid for a package without a bid of the bidder into a book.
fn add(
    alloc: Global,
    book: &mut BidBook,
    lines: &mut SideLines,
    choice: &mut Choice,
    j: u16,
    wanted: &Package,
    amount: u64,
) -> Result<(), AllocError>
    requires bid { CanPut book.old j (record { lots = wanted.now; amount = amount }) }
    requires none { amount_for wanted.now (bids_of book.old j) ≡ None }
    requires reviewed { IsReviewed book.old lines.old choice.old }
    ensures put { OnOk result (book.new ≡ with_put book.old j (record { lots = wanted.now; amount = amount })) }
    ensures reviewed { IsReviewed book.new lines.new choice.new }
    ensures unchanged { OnErr result ((book.new ≡ book.old) × (choice.new ≡ choice.old)) }
{
    book.kept();
    let beaten = is_beaten(alloc, book, lines, choice, j, wanted, amount);
    put(book, j, wanted, amount)?;
    lines.mark(j);
    match bid_for(book, j, wanted) {
        Some(number) if beaten => move_up(choice, j, number),
        _ => retrace(alloc, book, lines, choice),
    }
    Ok(())
}

/// Puts a greater amount for a package with a bid of the bidder into a book.
fn raise(
    alloc: Global,
    book: &mut BidBook,
    lines: &mut SideLines,
    choice: &mut Choice,
    j: u16,
    wanted: &Package,
    amount: u64,
) -> Result<(), AllocError>
    requires bid { CanPut book.old j (record { lots = wanted.now; amount = amount }) }
    requires higher { IsHigher (amount_for wanted.now (bids_of book.old j)) amount }
    requires reviewed { IsReviewed book.old lines.old choice.old }
    ensures put { OnOk result (book.new ≡ with_put book.old j (record { lots = wanted.now; amount = amount })) }
    ensures reviewed { IsReviewed book.new lines.new choice.new }
    ensures unchanged { OnErr result ((book.new ≡ book.old) × (choice.new ≡ choice.old)) }
{
    let stays = stays_raised(alloc, book, lines, choice, j, wanted, amount);
    put(book, j, wanted, amount)?;
    lines.mark(j);
    if !stays {
        retrace(alloc, book, lines, choice);
    }
    Ok(())
}

/// Whether the winning choice stays if a bid has a greater amount: it uses the bid, or each choice that uses it is worth less.
fn stays_raised(
    alloc: Global,
    book: &BidBook,
    lines: &mut SideLines,
    choice: &Choice,
    j: u16,
    wanted: &Package,
    amount: u64,
) -> bool
    requires bid { CanPut book.now j (record { lots = wanted.now; amount = amount }) }
    requires higher { IsHigher (amount_for wanted.now (bids_of book.now j)) amount }
    requires reviewed { IsReviewed book.now lines.old choice.now }
    ensures lines { AreSideLines book.now lines.new }
    ensures stays { IsTrue result
        → IsWinning (market_of (with_put book.now j (record { lots = wanted.now; amount = amount }))) choice.now }
{
    book.kept();
    let Some(number) = bid_for(book, j, wanted) else {
        return false;
    };
    if choice.number(j) == number {
        return true;
    }
    is_beaten(alloc, book, lines, choice, j, wanted, amount)
}

/// Puts a bid for a copy of the package into a book.
fn put(book: &mut BidBook, j: u16, wanted: &Package, amount: u64) -> Result<(), AllocError>
    requires { CanPut book.old j (record { lots = wanted.now; amount = amount }) }
    ensures put { OnOk result (book.new ≡ with_put book.old j (record { lots = wanted.now; amount = amount })) }
    ensures unchanged { OnErr result (book.new ≡ book.old) }
{
    rules_with_bid();
    book.kept();
    let package = wanted.copied();
    book.put_bid(j, Bid { package, amount })?;
    Ok(())
}

/// Takes the bid of bidder `j` for the package out of a book.
fn take_out(
    alloc: Global,
    book: &mut BidBook,
    lines: &mut SideLines,
    choice: &mut Choice,
    j: u16,
    wanted: &Package,
)
    requires bidder { (0 < j) × (j ≤ length book.old.bidders) }
    requires has { amount_for wanted.now (bids_of book.old j) ≢ None }
    requires reviewed { IsReviewed book.old lines.old choice.old }
    ensures book { book.new ≡ with_bids book.old j (without_entry wanted.now (bids_of book.old j)) }
    ensures reviewed { IsReviewed book.new lines.new choice.new }
{
    book.kept();
    if let Some(number) = bid_for(book, j, wanted) {
        let stays = choice.number(j) != number;
        book.remove_bid(j, number);
        lines.mark(j);
        if stays {
            move_down(choice, j, number);
        } else {
            retrace(alloc, book, lines, choice);
        }
    }
}
