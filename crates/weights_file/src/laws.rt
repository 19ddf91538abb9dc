// What is true for the form of a file of weights, regardless of who reads it.
ghost use Rattle.std.specs.Prelude.{◌≡◌, ℕ, List};
ghost use Rattle.auction_model.specs.Book.{Book};
ghost use Rattle.book_grammar.specs.BookForm.{IsBook};
ghost use Rattle.line_format.specs.LineText.{Said, stated};
ghost use Rattle.weights_file.specs.WeightsForm.{WeightsSay};

/// Bytes say one thing of the weights of a book: a list, or where the first faulty line begins. So each answer of
/// `read_weights` comes exactly if the bytes say so.
pub fn one_weighing()
    ensures { (book : Book) (bytes : List ℕ) (x y : Said (List ℕ) ⊥) → IsBook book → WeightsSay book bytes x
        → WeightsSay book bytes y → x ≡ y }
{}

/// Bytes always say something of the weights of a book, whatever they are.
pub fn some_weighing()
    ensures { (book : Book) (bytes : List ℕ) → IsBook book → (said : Said (List ℕ) ⊥) × WeightsSay book bytes said }
{}

/// The weights of a book have one text.
pub fn one_text()
    ensures { (book : Book) (bytes other weights : List ℕ) → WeightsSay book bytes (stated weights)
        → WeightsSay book other (stated weights) → bytes ≡ other }
{}
