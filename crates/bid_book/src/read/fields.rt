// The fields of a line.
ghost use Rattle.std.specs.Prelude.{IfErr, IfNone, IfOk, IfSome, IsTrue, List, drop, length, take, ℕ, ◌++◌, ◌∷◌, ◌↔◌, ◌≡◌, ◌≢◌, ◌≤◌, ◌<◌};
ghost use Rattle.std.specs.List.{AllByRecursion};
ghost use Rattle.std.specs.Fmt.{decimal};
ghost use Rattle.book_grammar.specs.BookForm.{IsName, IsNameByte};
ghost use Rattle.line_format.specs.Decimals.{decimals_text};
ghost use Rattle.bid_book.specs.Stops.{AreNumbers, IsField};
ghost use Rattle.limits.specs.declared.TheConstants.{MOST_AMOUNT, MOST_COUNT};

use crate::LimitKind;
use crate::stop::NoNumber;
use book_grammar::Excess;
use limits::{MOST_AMOUNT, MOST_CATEGORIES, MOST_COUNT, MOST_NAME_BYTES};
use line_format::{LineStop, field_len, read_at_most, short_field};
use std::alloc::Global;

/// The numbers of a line after its word, each after one space.
pub fn naturals_after(alloc: Global, word: &[u8], line: &[u8]) -> Result<Vec<u64>, LineStop<Excess>>
    ensures ok { IfOk result (λ v. AreNumbers v.items × (line.now ≡ word.now ++ decimals_text v.items)) }
    ensures form { result ≡ Err LineStop.Form → (ns : List ℕ) → AreNumbers ns
        → line.now ≡ word.now ++ decimals_text ns → ⊥ }
    ensures no_limit { (kind : LimitKind) (count : ℕ) → result ≡ Err (LineStop.Limit (kind, count)) → ⊥ }
{
    match line.strip_prefix(word) {
        Some(fields) => read_naturals(alloc, fields),
        None => Err(LineStop::Form),
    }
}

/// The numbers of a text, each after one space.
fn read_naturals(alloc: Global, text: &[u8]) -> Result<Vec<u64>, LineStop<Excess>>
    ensures ok { IfOk result (λ v. AreNumbers v.items × (text.now ≡ decimals_text v.items)) }
    ensures form { result ≡ Err LineStop.Form → (ns : List ℕ) → AreNumbers ns → text.now ≡ decimals_text ns → ⊥ }
    ensures no_limit { (kind : LimitKind) (count : ℕ) → result ≡ Err (LineStop.Limit (kind, count)) → ⊥ }
{
    let mut numbers = Vec::with_capacity(alloc, MOST_CATEGORIES + 1)?;
    let mut rest = text;
    while !rest.is_empty() {
        let (number, more) = first_number(rest)?;
        numbers.push(number)?;
        rest = more;
    }
    Ok(numbers)
}

/// The number that follows the first byte, which has to be a space, and what follows it. So whether a line states numbers
/// doesn't depend on memory.
fn first_number(text: &[u8]) -> Result<(u64, &[u8]), NoNumber>
    requires { 0 < length text.now }
    ensures found { IfOk result (λ p. (p.0 ≤ MOST_AMOUNT) × IsField text.now (decimal p.0) p.1.now) }
    ensures none { IfErr result (λ _. (ns : List ℕ) → AreNumbers ns → text.now ≢ decimals_text ns) }
{
    match short_number(text) {
        Some(found) => Ok(found),
        None => long_number(text),
    }
}

/// The number at the start of a text, of any size.
fn long_number(text: &[u8]) -> Result<(u64, &[u8]), NoNumber>
    requires { 0 < length text.now }
    ensures found { IfOk result (λ p. (p.0 ≤ MOST_AMOUNT) × IsField text.now (decimal p.0) p.1.now) }
    ensures none { IfErr result (λ _. (ns : List ℕ) → AreNumbers ns → text.now ≢ decimals_text ns) }
{
    let Some((field, more)) = first_field(text) else {
        return Err(NoNumber);
    };
    match read_at_most(field, MOST_AMOUNT) {
        Some(number) => Ok((number, more)),
        None => Err(NoNumber),
    }
}

/// The number at the start of a text in one pass, if it has few digits. None decides nothing.
fn short_number(text: &[u8]) -> Option<(u64, &[u8])>
    ensures { IfSome result (λ p. (p.0 ≤ MOST_AMOUNT) × IsField text.now (decimal p.0) p.1.now) }
{
    let rest = after_space(text)?;
    let (number, stop) = short_field(rest)?;
    if number > MOST_AMOUNT {
        return None;
    }
    Some((number, &rest[stop..]))
}

/// The first field of a text, which has to follow a space, and what follows it.
fn first_field(text: &[u8]) -> Option<(&[u8], &[u8])>
    ensures found { IfSome result (λ parts. IsField text.now parts.0.now parts.1.now) }
    ensures none { IfNone result ((rest : List ℕ) → text.now ≡ 32 ∷ rest → ⊥) }
{
    match after_space(text) {
        Some(rest) => Some(rest.split_at(field_len(rest))),
        None => None,
    }
}

/// What follows the space that a text begins with.
fn after_space(text: &[u8]) -> Option<&[u8]>
    ensures found { IfSome result (λ rest. text.now ≡ 32 ∷ rest.now) }
    ensures none { IfNone result ((rest : List ℕ) → text.now ≡ 32 ∷ rest → ⊥) }
{
    match text {
        [b' ', rest @ ..] => Some(rest),
        _ => None,
    }
}

/// The numbers as counts of lots.
pub fn lot_counts(alloc: Global, numbers: &[u64]) -> Result<Vec<u16>, LineStop<Excess>>
    ensures ok { IfOk result (λ v. (v.items ≡ numbers.now) × AllByRecursion (λ n. n ≤ MOST_COUNT) numbers.now) }
    ensures form { result ≡ Err LineStop.Form → AllByRecursion (λ n. n ≤ MOST_COUNT) numbers.now → ⊥ }
    ensures no_limit { (kind : LimitKind) (count : ℕ) → result ≡ Err (LineStop.Limit (kind, count)) → ⊥ }
{
    let mut counts = Vec::with_capacity(alloc, numbers.len())?;
    for number in numbers {
        if *number > MOST_COUNT {
            return Err(LineStop::Form);
        }
        counts.push(*number as u16)?;
    }
    Ok(counts)
}

/// Whether the bytes are a name.
pub fn is_name(text: &[u8]) -> bool
    ensures { IsTrue result ↔ IsName text.now }
{
    match text {
        [first, rest @ ..] => first.is_ascii_lowercase()
            && are_name_bytes(rest)
            && rest.len() < MOST_NAME_BYTES,
        [] => false,
    }
}

/// Whether each byte may be in a name.
fn are_name_bytes(bytes: &[u8]) -> bool
    ensures { IsTrue result ↔ AllByRecursion IsNameByte bytes.now }
{
    for c in bytes {
        if !is_name_byte(*c) {
            return false;
        }
    }
    true
}

/// Whether the byte may be in a name.
fn is_name_byte(c: u8) -> bool
    ensures { IsTrue result ↔ IsNameByte c }
{
    c.is_ascii_lowercase() || c.is_ascii_digit() || c == b'_'
}
