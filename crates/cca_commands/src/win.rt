// What `win` prints of a book.
ghost use Rattle.std.specs.Prelude.{◌≡◌, ℕ, List, IfOk};
ghost use Rattle.auction_model.specs.Greatest.{IsWinning};
ghost use Rattle.auction_model.specs.Book.{market_of};
ghost use Rattle.print_grammar.specs.WinText;

use bid_book::BidBook;
use outcome::win_text;
use std::alloc::{AllocError, Global};
use value_table::win;
use wide_num::Text;

/// The lines of the winners of a book, in order, and the line of their net value.
pub fn win_of(alloc: Global, book: &BidBook) -> Result<Text, AllocError>
    ensures { IfOk result
        (λ text. (c : List ℕ) × IsWinning (market_of book.now) c × (text ≡ WinText.win_text book.now c)) }
{
    let choice = win(alloc, book)?;
    win_text(alloc, book, &choice)
}
