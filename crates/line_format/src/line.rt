// A word, and numbers after it.
ghost use Rattle.std.specs.Prelude.{◌≡◌, ◌↔◌, ◌++◌, length, take, List, IsTrue, IfOk, [], ℤ};
ghost use Rattle.line_format.specs.Numeral.{numbers_text};
ghost use Rattle.line_format.specs.Fields.{HasLine};

use crate::numbers::{NumbersStop, read_numbers};

/// Appends to an empty list the numbers after the word of a line, just like `read_numbers`. The line has no line feed.
pub fn numbers_after(line: &[u8], word: &[u8], out: &mut Vec<i128>) -> Result<bool, NumbersStop>
    requires { out.old.items ≡ [] }
    ensures ok { IfOk result (HasLine line.now word.now out.new.items) }
    ensures form { result ≡ Err NumbersStop.Form → (ns : List ℤ) → line.now ≡ word.now ++ numbers_text ns → ⊥ }
{
    if !begins_with(line, word) {
        return Err(NumbersStop::Form);
    }
    read_numbers(&line[word.len()..], out)
}

/// Whether the line begins with the word.
fn begins_with(line: &[u8], word: &[u8]) -> bool
    ensures { IsTrue result ↔ (take (length word.now) line.now ≡ word.now) }
{
    if line.len() < word.len() {
        return false;
    }
    &line[..word.len()] == word
}
