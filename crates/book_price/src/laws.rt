// What is true for every book.
ghost use Rattle.std.specs.Prelude.{IsTrue, List, pos, ℕ, ◌*◌, ◌^◌, ◌≤ℤ◌, ◌≤◌};
ghost use Rattle.auction_model.specs.Book.{Book, market_of};
ghost use Rattle.auction_model.specs.Market.{value_of};
ghost use Rattle.bid_book.specs.Kept.{IsBidBook};
ghost use Rattle.limits.specs.declared.TheConstants.{MOST_AMOUNT};
ghost use Rattle.core_laws.specs.Winners.{winners_in};

/// Every book meets the conditions of `core_price::price`: it has at most 64 bidders, and no allowed choice is worth more than
/// 2^42 for each of its winners.
pub fn books_can_be_priced()
    ensures members { (book : Book) → IsBidBook book → (market_of book).bidders ≤ 64 }
    ensures worth { (book : Book) (z : List ℕ) → IsBidBook book → IsTrue ((market_of book).allowed z)
        → value_of (market_of book) z ≤ℤ pos (winners_in z * MOST_AMOUNT) }
{}
