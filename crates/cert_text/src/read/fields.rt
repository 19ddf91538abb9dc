// The kinds of lines of a certificate.
ghost use Rattle.std.specs.Prelude.{◌≡◌, ◌≤◌, ◌<◌, ◌↔◌, ◌∷◌, length, codes, IsTrue, IfOk, IfErr, MatchOption, [], false, pos};
ghost use Rattle.cert_grammar.specs.Lines.{kind, these, signed, chosen, members, AreNumbers};
ghost use Rattle.line_format.specs.Range.{AllInRange, any_out};
ghost use Rattle.cert_grammar.specs.CertText.{line, as_numbers, IsChoice, AreMembers};
ghost use Rattle.cert_text.specs.Readers.{IsLineAt, Leads, Halts, LeadsLike, HaltsLike, LeadsChosen, HaltsChosen, LeadsCounted, HaltsCounted, HaltsSmall, IsCount, IsNoCount, AreSmall, AreNotSmall};

use crate::CertStop;
use crate::read::lines::{LineRead, take_line};
use choices::{Choice, Numbers};
use limits::{MOST_CHOSEN, MOST_ROWS};
use std::alloc::{AllocError, Global};
use wide_num::NumList;

/// Signed numbers that were read, and where the next line begins.
#[derive(Drop)]
pub struct SignedRead {
    /// The numbers.
    pub numbers: NumList,
    /// The byte where the next line begins.
    pub next: usize,
}

/// Numbers that were read, each at most 65,535, and where the next line begins.
#[derive(Drop)]
pub struct SmallRead {
    /// The numbers.
    pub numbers: Numbers,
    /// The byte where the next line begins.
    pub next: usize,
}

/// A choice that was read, and where the next line begins.
#[derive(Drop)]
pub struct ChoiceRead {
    /// The choice.
    pub choice: Choice,
    /// The byte where the next line begins.
    pub next: usize,
}

/// The members of a row that were read, and where the next line begins.
#[derive(Drop)]
pub struct MembersRead {
    /// The members.
    pub members: Numbers,
    /// The byte where the next line begins.
    pub next: usize,
}

/// How many rows there are, and where the next line begins.
#[derive(Clone, Copy)]
pub struct CountRead {
    /// How many rows come after the line.
    pub count: usize,
    /// The byte where the next line begins.
    pub next: usize,
}

/// Reads a line of the word and just these numbers, all in range. Returns the place of the next
/// line.
///
/// Errors: see [`read_cert`](crate::read_cert).
pub fn take_these(
    alloc: Global,
    bytes: &[u8],
    place: usize,
    word: &[u8],
    numbers: &[i128],
) -> Result<usize, CertStop>
    requires place { place ≤ length bytes.now }
    requires range { any_out numbers.now ≡ false }
    ensures leads { IfOk result
        (λ next. Leads bytes.now place (kind word.now (these numbers.now) ∷ []) next []
        (line word.now numbers.now ∷ [])) }
    ensures within { IfOk result (λ next. next ≤ length bytes.now) }
    ensures halts { IfErr result (Halts bytes.now place (kind word.now (these numbers.now) ∷ [])) }
{
    let line = take_line(alloc, bytes, place, word, numbers.len())?;
    let next = line.next;
    if !is_just(&line, numbers) {
        return Err(CertStop::Form(place as u64));
    }
    Ok(next)
}

/// Reads a line of the word and that many signed numbers.
///
/// Errors: see [`read_cert`](crate::read_cert).
pub fn take_signed(
    alloc: Global,
    bytes: &[u8],
    place: usize,
    word: &[u8],
    count: usize,
) -> Result<SignedRead, CertStop>
    requires { place ≤ length bytes.now }
    ensures leads { IfOk result
        (λ r. Leads bytes.now place (kind word.now (signed count) ∷ []) r.next [] (line word.now r.numbers ∷ [])) }
    ensures count { IfOk result (λ r. length r.numbers ≡ count) }
    ensures range { IfOk result (λ r. AllInRange r.numbers) }
    ensures within { IfOk result (λ r. r.next ≤ length bytes.now) }
    ensures halts { IfErr result (Halts bytes.now place (kind word.now (signed count) ∷ [])) }
{
    let line = take_line(alloc, bytes, place, word, count)?;
    if line.numbers.items().len() != count {
        return Err(CertStop::Form(place as u64));
    }
    if line.beyond {
        return Err(CertStop::Range(place as u64));
    }
    Ok(SignedRead {
        numbers: line.numbers,
        next: line.next,
    })
}

/// Whether the line has just these numbers, all in range.
fn is_just(line: &LineRead, numbers: &[i128]) -> bool
    ensures { IsTrue result ↔ ((line.now.beyond ≡ false) × (line.now.numbers ≡ numbers.now)) }
{
    if line.beyond {
        return false;
    }
    line.numbers.items() == numbers
}

/// Reads a line of the word and one number of 0 to 65,535 for each bidder.
///
/// Errors: see [`read_cert`](crate::read_cert).
pub fn take_each(
    alloc: Global,
    bytes: &[u8],
    place: usize,
    word: &[u8],
    bidders: u16,
) -> Result<SmallRead, CertStop>
    requires { place ≤ length bytes.now }
    ensures leads { IfOk result
        (λ r. LeadsLike bytes.now place word.now (chosen bidders) r.next (as_numbers r.numbers)) }
    ensures numbers { IfOk result (λ r. IsChoice bidders r.numbers) }
    ensures within { IfOk result (λ r. r.next ≤ length bytes.now) }
    ensures halts { IfErr result (HaltsLike bytes.now place word.now (chosen bidders)) }
{
    let read = take_small(alloc, bytes, place, word, bidders as usize)?;
    if read.numbers.items().len() != bidders as usize {
        return Err(CertStop::Form(place as u64));
    }
    Ok(read)
}

/// Reads a line of a choice of that many bidders.
///
/// Errors: see [`read_cert`](crate::read_cert).
pub fn take_choice(
    alloc: Global,
    bytes: &[u8],
    place: usize,
    bidders: u16,
) -> Result<ChoiceRead, CertStop>
    requires { place ≤ length bytes.now }
    ensures leads { IfOk result (λ r. LeadsChosen bytes.now place bidders r.next r.choice) }
    ensures choice { IfOk result (λ r. IsChoice bidders r.choice) }
    ensures within { IfOk result (λ r. r.next ≤ length bytes.now) }
    ensures halts { IfErr result (HaltsChosen bytes.now place bidders) }
{
    let read = take_each(alloc, bytes, place, b"choice", bidders)?;
    Ok(ChoiceRead {
        choice: Choice::new(read.numbers),
        next: read.next,
    })
}

/// Reads the line of a row's members.
///
/// Errors: see [`read_cert`](crate::read_cert).
pub fn take_members(
    alloc: Global,
    bytes: &[u8],
    place: usize,
    bidders: u16,
) -> Result<MembersRead, CertStop>
    requires { place ≤ length bytes.now }
    ensures leads { IfOk result (λ r. Leads bytes.now place (kind (codes "row") (members bidders) ∷ []) r.next [] (line (codes "row") (as_numbers r.members) ∷ [])) }
    ensures members { IfOk result (λ r. (0 < length r.members) × AreMembers bidders 0 r.members) }
    ensures within { IfOk result (λ r. r.next ≤ length bytes.now) }
    ensures halts { IfErr result (Halts bytes.now place (kind (codes "row") (members bidders) ∷ [])) }
{
    let read = take_small(alloc, bytes, place, b"row", 2)?;
    if !are_members(bidders, read.numbers.items()) {
        return Err(CertStop::Form(place as u64));
    }
    Ok(MembersRead {
        members: read.numbers,
        next: read.next,
    })
}

/// Whether there is a member, and they rise up to the last bidder at most.
fn are_members(bidders: u16, numbers: &[u16]) -> bool
    ensures { IsTrue result ↔ ((0 < length numbers.now) × AreMembers bidders 0 numbers.now) }
{
    !numbers.is_empty() && rise(bidders, numbers)
}

fn rise(bidders: u16, numbers: &[u16]) -> bool
    ensures { IsTrue result ↔ AreMembers bidders 0 numbers.now }
{
    let mut before = 0;
    for j in numbers {
        if *j <= before || *j > bidders {
            return false;
        }
        before = *j;
    }
    true
}

/// Reads the line of the count of rows.
///
/// Errors: see [`read_cert`](crate::read_cert).
pub fn take_count(
    alloc: Global,
    bytes: &[u8],
    place: usize,
    bidders: u16,
) -> Result<CountRead, CertStop>
    requires { place ≤ length bytes.now }
    ensures leads { IfOk result (λ r. LeadsCounted bytes.now place bidders r.next r.count) }
    ensures few { IfOk result (λ r. r.count ≤ 10) }
    ensures within { IfOk result (λ r. r.next ≤ length bytes.now) }
    ensures halts { IfErr result (HaltsCounted bytes.now place bidders) }
{
    let read = take_small(alloc, bytes, place, b"rows", 1)?;
    match row_count(bidders, read.numbers.items()) {
        Some(count) => Ok(CountRead {
            count,
            next: read.next,
        }),
        None => Err(CertStop::Form(place as u64)),
    }
}

/// The one number, if it is a count of rows.
fn row_count(bidders: u16, numbers: &[u16]) -> Option<usize>
    ensures { MatchOption result (IsNoCount bidders numbers.now) (IsCount bidders numbers.now) }
{
    if numbers.len() != 1 {
        return None;
    }
    let count = numbers[0];
    if count as usize > MOST_ROWS {
        return None;
    }
    if count > 0 && bidders == 0 {
        return None;
    }
    Some(count as usize)
}

/// Reads a line of the word and numbers of 0 to 65,535, as a rule that many.
fn take_small(
    alloc: Global,
    bytes: &[u8],
    place: usize,
    word: &[u8],
    count: usize,
) -> Result<SmallRead, CertStop>
    requires { place ≤ length bytes.now }
    ensures line { IfOk result (λ r. IsLineAt bytes.now place word.now (as_numbers r.numbers) false r.next) }
    ensures small { IfOk result (λ r. AreNumbers 65535 (as_numbers r.numbers)) }
    ensures within { IfOk result (λ r. r.next ≤ length bytes.now) }
    ensures halts { IfErr result (HaltsSmall bytes.now place word.now) }
{
    let line = take_line(alloc, bytes, place, word, count)?;
    if line.beyond {
        return Err(CertStop::Form(place as u64));
    }
    match small_numbers(alloc, line.numbers.items())? {
        Some(numbers) => Ok(SmallRead {
            numbers,
            next: line.next,
        }),
        None => Err(CertStop::Form(place as u64)),
    }
}

/// The numbers as they are, if each is one of 0 to 65,535.
fn small_numbers(alloc: Global, items: &[i128]) -> Result<Option<Numbers>, AllocError>
    ensures { IfOk result (λ r. MatchOption r (AreNotSmall items.now) (AreSmall items.now)) }
{
    let mut numbers = Numbers::new(alloc);
    for item in items {
        if *item < 0 || *item > MOST_CHOSEN as i128 {
            return Ok(None);
        }
        numbers.push(*item as u16)?;
    }
    Ok(Some(numbers))
}
