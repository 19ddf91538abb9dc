// From a book to its text.
ghost use Rattle.std.specs.Prelude.{◌≡◌, ◌≤◌, ◌<◌, ◌++◌, IfOk, OnOk, length};
ghost use Rattle.line_format.specs.LineText.{Says, stated};
ghost use Rattle.auction_model.specs.Book.{bidder_of};
ghost use Rattle.book_grammar.specs.BookForm.{IsBook};
ghost use Rattle.book_grammar.specs.BookLines.{book_lines};
ghost use Rattle.bid_book.specs.Lists.{bid_of};
ghost use Rattle.bid_book.specs.Written.{bid_text, bidder_text, bidders_text};

use crate::BidBook;
use line_format::{add_amounts, add_number, add_numbers};
use lots::Bid;
use std::alloc::{AllocError, Global};
use wide_num::Text;

/// The one text of a book, which states it. The only error is out of memory.
pub fn write_book(alloc: Global, book: &BidBook) -> Result<Text, AllocError>
    ensures { IfOk result (λ text. Says IsBook book_lines text (stated book.now)) }
{
    let mut text = Text::new(alloc);
    text.add(b"book 1\nsupply")?;
    add_numbers(&mut text, book.supply().counts())?;
    text.add(b"\nreserve")?;
    add_amounts(&mut text, book.reserves())?;
    text.push(b'\n')?;
    add_bidders(&mut text, book)?;
    text.add(b"end\n")?;
    Ok(text)
}

/// The lines of all bidders with their bids.
fn add_bidders(text: &mut Text, book: &BidBook) -> Result<(), AllocError>
    ensures { OnOk result (text.new ≡ text.old ++ bidders_text book.now.bidders) }
{
    for k in 0..book.bidders() as u16 {
        add_bidder(text, book, k + 1)?;
    }
    Ok(())
}

/// The lines of bidder `j` and of its bids.
fn add_bidder(text: &mut Text, book: &BidBook, j: u16) -> Result<(), AllocError>
    requires { (0 < j) × (j ≤ length book.now.bidders) }
    ensures { OnOk result (text.new ≡ text.old ++ bidder_text (bidder_of book.now j)) }
{
    text.add(b"bidder ")?;
    text.add(book.name(j).as_bytes())?;
    text.push(b'\n')?;
    for i in 0..book.bids(j) {
        add_bid(text, book.bid(j, i + 1))?;
    }
    Ok(())
}

/// The line of a bid.
fn add_bid(text: &mut Text, bid: &Bid) -> Result<(), AllocError>
    ensures { OnOk result (text.new ≡ text.old ++ bid_text (bid_of bid.now)) }
{
    text.add(b"bid")?;
    add_numbers(text, bid.package.counts())?;
    add_number(text, bid.amount)?;
    text.push(b'\n')?;
    Ok(())
}
