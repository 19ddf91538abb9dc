// Which number may follow others.
ghost use Rattle.std.specs.Prelude.{◌≡◌, ◌≤◌, ◌<◌, ◌^◌, ◌↔◌, ℕ, List, length, IsTrue, false, Bool, ℤ, pos, ◌≤ℤ◌, ◌<ℤ◌, ◌+ℤ◌, unsigned_abs};
ghost use Rattle.cert_grammar.specs.Lines.{FitNumbers, members};
ghost use Rattle.cert_stream.specs.Forms.{numbers_of, MayBegin, Keeps, last_of, Decides};
ghost use Rattle.cert_stream.specs.Tallies.{IsKept};

use crate::line::form::Form;
use crate::line::phase::ReadNumber;
use limits::{MOST_CHOSEN, MOST_ROWS};

/// Whether a number may follow those that are kept.
pub(crate) fn may_follow(form: Form, out: &[i128], count: usize, kept: ReadNumber) -> bool
    requires { count ≤ length out.now }
    ensures { Decides form out.now count kept result }
{
    match form {
        Form::Nothing => none_follows(out, count, kept),
        Form::Just(number) => one_follows(out, count, kept, number),
        Form::Both(first, second) => both_follow(out, count, kept, first, second),
        Form::Signed(most) => count < most,
        Form::Chosen(bidders) => count < bidders as usize
            && is_between(kept, -1, MOST_CHOSEN as i128),
        Form::Counted(bidders) => count_follows(out, count, kept, bidders),
        Form::Members(bidders) => member_follows(out, count, kept, bidders),
    }
}

fn none_follows(out: &[i128], count: usize, kept: ReadNumber) -> bool
    ensures { Decides Form.Nothing out.now count kept result }
{
    false
}

fn one_follows(out: &[i128], count: usize, kept: ReadNumber, number: u16) -> bool
    ensures { Decides (Form.Just number) out.now count kept result }
{
    if count > 0 {
        return false;
    }
    is_between(kept, number as i128 - 1, number as i128)
}

fn both_follow(out: &[i128], count: usize, kept: ReadNumber, first: u16, second: u16) -> bool
    ensures { Decides (Form.Both first second) out.now count kept result }
{
    if count > 1 {
        return false;
    }
    let number = first_or_second(count, first, second);
    is_between(kept, number as i128 - 1, number as i128)
}

/// The number that comes after that many of two.
fn first_or_second(count: usize, first: u16, second: u16) -> u16
    ensures first { count ≡ 0 → result ≡ first }
    ensures second { 0 < count → result ≡ second }
{
    if count == 0 { first } else { second }
}

fn count_follows(out: &[i128], count: usize, kept: ReadNumber, bidders: u16) -> bool
    ensures { Decides (Form.Counted bidders) out.now count kept result }
{
    if count > 0 {
        return false;
    }
    is_between(kept, -1, most_rows(bidders))
}

fn member_follows(out: &[i128], count: usize, kept: ReadNumber, bidders: u16) -> bool
    requires { count ≤ length out.now }
    ensures { Decides (Form.Members bidders) out.now count kept result }
{
    let before = last(out, count);
    is_between(kept, before, bidders as i128)
}

/// Whether a number is above one and at most another.
fn is_between(kept: ReadNumber, above: i128, most: i128) -> bool
    requires above { pos 0 ≤ℤ (above +ℤ pos 1) }
    requires most { most <ℤ pos (2 ^ 120) }
    ensures { (z : ℤ) → IsKept kept z → IsTrue result ↔ ((above <ℤ z) × (z ≤ℤ most)) }
{
    !kept.beyond && above < kept.number && kept.number <= most
}

/// How many rows there may be.
fn most_rows(bidders: u16) -> i128
    ensures none { bidders ≡ 0 → result ≡ pos 0 }
    ensures some { 0 < bidders → result ≡ pos 10 }
{
    if bidders == 0 { 0 } else { MOST_ROWS as i128 }
}

/// The last member that is kept, and 0 if there is none.
fn last(out: &[i128], count: usize) -> i128
    requires { count ≤ length out.now }
    ensures low { pos 0 ≤ℤ result }
    ensures last { (ns : List ℤ) (bidders : ℕ) → Keeps ns out.now count false → MayBegin (members bidders) ns
        → result ≡ last_of (pos 0) ns }
{
    if count == 0 {
        return 0;
    }
    not_below_zero(out[count - 1])
}

fn not_below_zero(number: i128) -> i128
    ensures low { pos 0 ≤ℤ result }
    ensures same { pos 0 ≤ℤ number → result ≡ number }
{
    if number < 0 { 0 } else { number }
}

/// Whether the numbers of a line are all there.
pub(crate) fn is_whole(form: Form, count: usize) -> bool
    ensures { (ns : List ℤ) → length ns ≡ count → MayBegin (numbers_of form) ns
        → IsTrue result ↔ FitNumbers (numbers_of form) ns }
{
    match form {
        Form::Nothing => true,
        Form::Just(_) => count == 1,
        Form::Both(_, _) => count == 2,
        Form::Signed(most) => count == most,
        Form::Chosen(bidders) => count == bidders as usize,
        Form::Counted(_) => count == 1,
        Form::Members(_) => count > 0,
    }
}
