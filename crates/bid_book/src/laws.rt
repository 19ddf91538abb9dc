// What is true for the form of a book, regardless of who reads it.
ghost use Rattle.std.specs.Prelude.{◌≡◌, ℕ, List};
ghost use Rattle.line_format.specs.LineText.{Said, Says, stated};
ghost use Rattle.auction_model.specs.Book.{Book, BookBid};
ghost use Rattle.book_grammar.specs.BookForm.{IsBook};
ghost use Rattle.book_grammar.specs.BookLines.{Excess, IsBookWithinLimits, book_lines};
ghost use Rattle.bid_book.specs.Changes.{CanPut, with_put};

/// Bytes have one reading as a book: a book, the place of the first faulty line, or what exceeds its limit first. So
/// `read_book` returns each result exactly if the bytes have this reading.
pub fn one_book()
    ensures { (bytes : List ℕ) (x y : Said Book Excess) → Says IsBook book_lines bytes x → Says IsBook book_lines bytes y
        → x ≡ y }
{}

/// Bytes always say something of a book, whatever they are.
pub fn some_book()
    ensures { (bytes : List ℕ) → (said : Said Book Excess) × Says IsBook book_lines bytes said }
{}

/// A book within the limits has one text, and a text states one book.
pub fn one_text()
    ensures text { (bytes other : List ℕ) (book : Book) → Says IsBook book_lines bytes (stated book)
        → Says IsBook book_lines other (stated book) → bytes ≡ other }
    ensures book { (bytes : List ℕ) (book other : Book) → Says IsBook book_lines bytes (stated book)
        → Says IsBook book_lines bytes (stated other) → book ≡ other }
{}

/// A book keeps its rules if a bid that keeps them is inserted.
pub fn rules_with_bid()
    ensures { (book : Book) (j : ℕ) (bid : BookBid) → IsBookWithinLimits book → CanPut book j bid
        → IsBookWithinLimits (with_put book j bid) }
{}
