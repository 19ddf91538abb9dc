// Signed numbers of a line.
ghost use Rattle.std.specs.Prelude.{IfNone, IfOk, IfSome, IsTrue, List, MatchOption, [], drop, length, slice_index, ℕ, ℤ, ◌*◌, ◌+◌, ◌<◌, ◌^◌, ◌↔◌};
ghost use Rattle.std.specs.Prelude.{◌∷◌, ◌≡◌, ◌≢◌, ◌≤◌};
ghost use Rattle.line_format.specs.Numeral.{numbers_text};
ghost use Rattle.line_format.specs.Fields.{FieldEnds, ReadsNatural, ReadsSigned, IsField, IsTally, HasNoLeadingZero, IsNoField, KeepsField, HasNumbers};

use wide_num::EDGE;

/// A number at the start of a text, and where its digits end.
#[derive(Clone, Copy)]
enum Natural {
    /// A number below 2^120.
    Within(u128, usize),
    /// A number of at least 2^120.
    Beyond(usize),
    NoNumber,
}

/// A signed number at the start of a text, and where it ends.
#[derive(Clone, Copy)]
enum Signed {
    /// A number strictly between -2^120 and 2^120.
    Inside(i128, usize),
    /// A number that is out of this range.
    Outside(usize),
    Nothing,
}

/// The number that digits write so far, while it is below 2^120.
#[derive(Clone, Copy)]
struct Magnitude {
    n: u128,
    beyond: bool,
}

/// A number of a line and where it ends, or that one out of range ends there.
#[derive(Clone, Copy)]
struct Kept {
    number: i128,
    beyond: bool,
    stop: usize,
}

/// Why numbers are not read.
#[derive(Clone, Copy, Debug, PartialEq, Eq)]
pub enum NumbersStop {
    /// The text is none of numbers, each after one space.
    Form,
    /// Out of memory.
    Memory,
}

/// A number below this is of 64 bits with one more digit.
const SHORT: u64 = 1 << 60;

/// Appends to an empty list the numbers of a text, each after one space, to its end. Each number may have any length. Says whether
/// one isn't strictly between -2^120 and 2^120, and then the list has as many numbers as the text, and says no more of them.
///
/// Errors: `Form` if it isn't such a text, and `Memory` when out of memory. The list's content is then unspecified.
pub fn read_numbers(text: &[u8], out: &mut Vec<i128>) -> Result<bool, NumbersStop>
    requires { out.old.items ≡ [] }
    ensures ok { IfOk result (λ beyond. HasNumbers text.now out.new.items beyond) }
    ensures form { result ≡ Err NumbersStop.Form → (ns : List ℤ) → text.now ≡ numbers_text ns → ⊥ }
{
    let mut at: usize = 0;
    let mut beyond = false;
    while at < text.len() {
        if text[at] != b' ' {
            return Err(NumbersStop::Form);
        }
        let Some(kept) = read_kept(&text[at + 1..]) else {
            return Err(NumbersStop::Form);
        };
        match out.push(kept.number) {
            Ok(()) => {}
            Err(_) => return Err(NumbersStop::Memory),
        }
        beyond = beyond || kept.beyond;
        at += kept.stop + 1;
    }
    Ok(beyond)
}

fn read_kept(text: &[u8]) -> Option<Kept>
    ensures { MatchOption result (IsNoField text.now) (λ k. KeepsField text.now k) }
{
    match read_signed(text) {
        Signed::Inside(number, stop) => Some(Kept {
            number,
            beyond: false,
            stop,
        }),
        Signed::Outside(stop) => Some(Kept {
            number: 0,
            beyond: true,
            stop,
        }),
        Signed::Nothing => None,
    }
}

/// The signed number at the start of the text, up to a space or to its end.
fn read_signed(text: &[u8]) -> Signed
    ensures { ReadsSigned text.now result }
{
    if !text.is_empty() && text[0] == b'-' {
        return below_zero(&text[1..]);
    }
    not_below_zero(text)
}

/// The number after a minus.
fn below_zero(rest: &[u8]) -> Signed
    ensures { ReadsSigned (45 ∷ rest.now) result }
{
    match read_natural(rest) {
        Natural::Within(n, stop) => {
            if n == 0 {
                return Signed::Nothing;
            }
            Signed::Inside(-(n as i128), stop + 1)
        }
        Natural::Beyond(stop) => Signed::Outside(stop + 1),
        Natural::NoNumber => Signed::Nothing,
    }
}

fn not_below_zero(text: &[u8]) -> Signed
    requires { slice_index text.now 0 ≢ 45 }
    ensures { ReadsSigned text.now result }
{
    match read_natural(text) {
        Natural::Within(n, stop) => Signed::Inside(n as i128, stop),
        Natural::Beyond(stop) => Signed::Outside(stop),
        Natural::NoNumber => Signed::Nothing,
    }
}

/// The natural number at the start of the text, up to a space or to its end.
fn read_natural(text: &[u8]) -> Natural
    ensures { ReadsNatural text.now result }
{
    match read_short(text) {
        Some(number) => number,
        None => read_long(text),
    }
}

/// The natural number at the start of the text, if it has few digits. If it is None, no number below 2^60 is there as a field.
fn read_short(text: &[u8]) -> Option<Natural>
    ensures found { IfSome result (λ number. ReadsNatural text.now number) }
    ensures none { IfNone result ((n stop : ℕ) → IsField text.now n stop → 2 ^ 60 ≤ n) }
{
    let (number, stop) = short_field(text)?;
    Some(Natural::Within(number as u128, stop))
}

/// The natural number at the start of the text, up to a space or to its end, and where it ends. It is a fast way for numbers of
/// few digits: it returns the number if it is below 2^60, and may return a greater one. If it returns none, the text has no
/// number below 2^60 there as a field.
pub fn short_field(text: &[u8]) -> Option<(u64, usize)>
    ensures found { IfSome result (λ field. IsField text.now field.0 field.1) }
    ensures none { IfNone result ((n stop : ℕ) → IsField text.now n stop → 2 ^ 60 ≤ n) }
{
    let mut number = 0u64;
    let mut stop: usize = 0;
    while stop < text.len() && number < SHORT && text[stop].is_ascii_digit() {
        number = 10 * number + (text[stop] - b'0') as u64;
        stop += 1;
    }
    if !ends_at(text, stop) || !may_be_number(text, stop) {
        return None;
    }
    Some((number, stop))
}

/// Whether a field ends at this place.
fn ends_at(text: &[u8], stop: usize) -> bool
    requires { stop ≤ length text.now }
    ensures { IsTrue result ↔ FieldEnds (drop stop text.now) }
{
    if stop == text.len() {
        return true;
    }
    text[stop] == b' '
}

/// The natural number at the start of the text, of any size.
fn read_long(text: &[u8]) -> Natural
    ensures { ReadsNatural text.now result }
{
    let mut tally = Magnitude {
        n: 0,
        beyond: false,
    };
    let mut stop: usize = 0;
    for c in text {
        if *c == b' ' {
            break;
        }
        if !c.is_ascii_digit() {
            return Natural::NoNumber;
        }
        tally = more(tally, *c - b'0');
        stop += 1;
    }
    if !may_be_number(text, stop) {
        return Natural::NoNumber;
    }
    made(tally, stop)
}

/// One more digit.
fn more(tally: Magnitude, digit: u8) -> Magnitude
    requires { digit < 10 }
    ensures { (value : ℕ) → IsTally tally value → IsTally result (10 * value + digit) }
{
    if tally.beyond || tally.n >= EDGE {
        return Magnitude { n: 0, beyond: true };
    }
    let n = 10 * tally.n + digit as u128;
    Magnitude {
        n,
        beyond: n >= EDGE,
    }
}

/// Whether that many digits at the start may be a number.
fn may_be_number(text: &[u8], stop: usize) -> bool
    requires { stop ≤ length text.now }
    ensures { IsTrue result ↔ HasNoLeadingZero text.now stop }
{
    stop > 0 && (stop == 1 || text[0] != b'0')
}

fn made(tally: Magnitude, stop: usize) -> Natural
    ensures { (text : List ℕ) (value : ℕ) → IsTally tally value → IsField text value stop → ReadsNatural text result }
{
    if tally.beyond {
        Natural::Beyond(stop)
    } else {
        Natural::Within(tally.n, stop)
    }
}
