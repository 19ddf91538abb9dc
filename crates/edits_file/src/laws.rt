// What is true for the form of a file of edits, regardless of who reads it.
ghost use Rattle.std.specs.Prelude.{◌≡◌, ℕ, List, length};
ghost use Rattle.std.specs.List.{AllByRecursion};
ghost use Rattle.auction_model.specs.Book.{Book};
ghost use Rattle.book_grammar.specs.BookLines.{Excess};
ghost use Rattle.line_format.specs.LineText.{Said, stated};
ghost use Rattle.review.specs.Edits.{edit_lots};
ghost use Rattle.edits_file.specs.EditsForm.{EditsSay, NamedEdit, edits_of};

/// Bytes have one reading as edits of a book: edits, the place of the first faulty line, or that there are too many. So
/// `read_edits` returns each result exactly if the bytes have this reading.
pub fn one_edits()
    ensures { (categories : ℕ) (bytes : List ℕ) (x y : Said (List NamedEdit) Excess) → EditsSay categories bytes x
        → EditsSay categories bytes y → x ≡ y }
{}

/// Bytes always say something of the edits of a book, whatever they are.
pub fn some_edits()
    ensures { (categories : ℕ) (bytes : List ℕ) → (said : Said (List NamedEdit) Excess) × EditsSay categories bytes said }
{}

/// Each edit that bytes state for a book has a count for each category of the book.
pub fn edit_counts()
    ensures { (book : Book) (bytes : List ℕ) (named : List NamedEdit)
        → EditsSay (length book.supply) bytes (stated named)
        → AllByRecursion (λ e. length (edit_lots e) ≡ length book.supply) (edits_of book named) }
{}
