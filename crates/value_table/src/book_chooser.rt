// Books as auctions that can be priced.
ghost use Rattle.std.specs.Prelude.{◌≡◌};
ghost use Rattle.auction_model.specs.Book.{market_of};
ghost use Rattle.auction_model.specs.Greatest.{IsWinning};
ghost use Rattle.auction_model.specs.Lawful.{IsMarket};

use crate::TurnTable;
use auction_model::book_market;
use bid_book::BidBook;
use choices::{Choice, Chooser, Found};
use std::alloc::{AllocError, Global};

/// A book with its winning choice, as an auction that can be priced. Its searches go by exact tables.
#[derive(Drop)]
pub struct BookChooser<'a> {
    /// The book.
    pub book: &'a BidBook,
    /// Its winning choice.
    pub winners: Choice,
    pub ghost lawful: { IsMarket (market_of book.now) },
    pub ghost winning: { IsWinning (market_of book.now) winners },
}

impl<'a> BookChooser<'a> {
    /// The chooser of a book with its winning choice. It takes no memory.
    pub fn new(book: &'a BidBook, winners: Choice) -> BookChooser<'a>
        requires { IsWinning (market_of book.now) winners }
        ensures book { result.book.now ≡ book.now }
        ensures winners { result.winners ≡ winners }
    {
        book_market();
        book.kept();
        BookChooser { book, winners }
    }
}

impl<'a> Chooser for BookChooser<'a> {
    ghost use Rattle.std.specs.Prelude.{◌≡◌, ℤ, List};
    ghost use Rattle.auction_model.specs.Book.{market_of};
    ghost use Rattle.value_table.specs.TableValue.{IsLoweredTable};

    type Table = TurnTable;

    ghost market = { λ s. market_of s.book.now };

    ghost chosen = { λ s. s.winners };

    ghost is_table = { λ s. IsLoweredTable s.book.now };

    fn members(&self) -> usize {
        self.book.bidders()
    }

    fn winners(&self) -> &Choice {
        &self.winners
    }

    fn winner_value(&self, j: u16) -> i128 {
        let number = self.winners.number(j);
        if number == 0 {
            0
        } else {
            self.book.net(j, number)
        }
    }

    fn best_lowered(
        &self,
        alloc: Global,
        den: i128,
        surplus: &[i128],
    ) -> Result<Found<TurnTable>, AllocError> {
        self.book.kept();
        let table = TurnTable::build(alloc, self.book, den, surplus)?;
        let choice = table.trace(alloc, self.book)?;
        let sum = table.most(self.book);
        Ok(Found { choice, sum, table })
    }

    ghost lawful = { λ s. s.lawful };

    ghost winning = { λ s. s.winning };
}
