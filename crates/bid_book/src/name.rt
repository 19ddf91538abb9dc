// Names.
ghost use Rattle.std.specs.Prelude.{◌≡◌, IfOk};
ghost use Rattle.book_grammar.specs.BookForm.{IsName};

use std::alloc::{AllocError, Global};
use std::marker::Model;

/// A name: 1 to 20 bytes of `a` to `z`, `0` to `9` and `_`, a letter first.
#[derive(Drop)]
pub struct Name {
    text: String,
}

impl Model for Name {
    ghost use Rattle.std.specs.Prelude.{List, ℕ, string_bytes};
    ghost use Rattle.book_grammar.specs.BookForm.{IsName};

    ghost Value = { List ℕ };

    ghost view = { λ n. string_bytes n.text };

    ghost invariant = { λ n. IsName (string_bytes n.text) };
}

impl Name {
    /// The name of this text, which has to be one.
    pub fn new(alloc: Global, text: &str) -> Result<Name, AllocError>
        requires { IsName text.now }
        ensures { IfOk result (λ n. n ≡ text.now) }
    {
        let text = String::from_str(alloc, text)?;
        Ok(Name { text })
    }

    /// The text of the name.
    pub fn text(&self) -> &str
        ensures text { result.now ≡ self.now }
        ensures kept { IsName self.now }
    {
        self.text.as_str()
    }
}
