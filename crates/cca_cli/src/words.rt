// The plain form of the arguments.
ghost use Rattle.std.specs.Prelude.{◌≡◌, ◌≢◌, map, string_bytes, option_map, ℕ, List, [], IfSome, true, length, get_or, if◌then◌else◌};
ghost use Rattle.cca_cli.specs.Command.{are_file_words, command_of, is_among, is_file_word, number_said, output_as, row, said_after, said_by, said_numbered, said_with};
ghost use Rattle.cca_cli.specs.Words.{AreAmong, command_value};
ghost use Rattle.cca_cli.specs.declared.status.FileKind.{FileKind};

use crate::kind::kind_of;
use crate::price_form::form_of;
use crate::{FileKind, Kind, PriceForm, Use};
use wide_num::read_natural;

// The greatest number of a made auction.
const MOST_NUMBER: u128 = u32::MAX as u128;

/// A command in its plain form. What its kind has no use for says nothing.
#[derive(Clone, Copy, Debug)]
pub struct Command<'a> {
    pub kind: Kind,
    /// The names of its files, in the order of its row.
    pub first: &'a str,
    pub second: &'a str,
    pub third: &'a str,
    /// The form of its printed prices.
    pub form: PriceForm,
    /// The number before its files.
    pub number: u32,
}

impl<'a> Command<'a> {
    /// The name of the file of this kind that the command appends to.
    pub fn output(self, kind: FileKind) -> Option<&'a str>
        ensures name { option_map (λ name. name.now) result ≡ output_as (command_value self.entry) kind }
        ensures no_out { IfSome result (λ _. kind ≢ FileKind.Out) }
    {
        match (self.kind, kind) {
            (Kind::Price | Kind::Place, FileKind::Cert) => Some(self.second),
            (Kind::Weigh | Kind::Award, FileKind::Cert) => Some(self.third),
            (Kind::Auction, FileKind::Book) => Some(self.third),
            (Kind::Make, FileKind::Award) => Some(self.first),
            (Kind::Make, FileKind::Log) => Some(self.second),
            _ => None,
        }
    }
}

fn can_be_file(word: &str) -> bool
    ensures { result ≡ is_file_word word.now }
{
    match word.as_bytes() {
        [] => false,
        [first, ..] => *first != b'-',
    }
}

fn is_one_of(word: &str, others: &[String]) -> bool
    ensures { result ≡ is_among word.now (map string_bytes others.now) }
{
    match others {
        [] => false,
        [first, rest @ ..] => word == first.as_str() || is_one_of(word, rest),
    }
}

// Whether these can be names of files, no two of them the same.
fn can_be_files(words: &[String]) -> bool
    ensures { result ≡ are_file_words (map string_bytes words.now) }
{
    match words {
        [] => true,
        [first, rest @ ..] => {
            can_be_file(first.as_str()) && (!is_one_of(first.as_str(), rest) && can_be_files(rest))
        }
    }
}

// The number that a word says.
fn number_of(word: &str) -> Option<u32>
    ensures { result ≡ number_said word.now }
{
    let number = read_natural(word.as_bytes())?;
    if number > MOST_NUMBER {
        return None;
    }
    Some(number as u32)
}

// The name at this place; none is empty.
fn name_at(names: &[String], at: usize) -> &str
    ensures { result.now ≡ get_or (map string_bytes names.now) at [] }
{
    match names.get(at) {
        Some(name) => name.as_str(),
        None => "",
    }
}

// The command of a kind and a number, if these can be names of its files and these are flags of it.
fn said_after<'a>(
    kind: Kind,
    number: u32,
    names: &'a [String],
    flags: &[String],
) -> Option<Command<'a>>
    requires names { length names.now ≡ length (row kind).files }
    requires number { (if (row kind).number then number else 0) ≡ number }
    ensures among { IfSome result (λ c. AreAmong (map string_bytes names.now) (command_value c)) }
    ensures command { option_map command_value result ≡ said_after kind number (map string_bytes names.now) (map string_bytes flags.now) }
{
    if !can_be_files(names) {
        return None;
    }
    let form = form_of(kind.row().flags, flags)?;
    Some(Command {
        kind,
        first: name_at(names, 0),
        second: name_at(names, 1),
        third: name_at(names, 2),
        form,
        number,
    })
}

// The command of a kind and a number that words say: its files, and then flags.
fn said_with(kind: Kind, number: u32, words: &[String]) -> Option<Command<'_>>
    requires { (if (row kind).number then number else 0) ≡ number }
    ensures among { IfSome result (λ c. AreAmong (map string_bytes words.now) (command_value c)) }
    ensures command { option_map command_value result ≡ said_with kind number (map string_bytes words.now) }
{
    let count = kind.row().files.len();
    if words.len() < count {
        return None;
    }
    said_after(kind, number, &words[..count], &words[count..])
}

// The command of a kind whose first argument is a number.
fn said_numbered(kind: Kind, words: &[String]) -> Option<Command<'_>>
    requires { (row kind).number ≡ true }
    ensures among { IfSome result (λ c. AreAmong (map string_bytes words.now) (command_value c)) }
    ensures command { option_map command_value result ≡ said_numbered kind (map string_bytes words.now) }
{
    let [number, rest @ ..] = words else {
        return None;
    };
    let number = number_of(number.as_str())?;
    said_with(kind, number, rest)
}

// The command of a kind that the arguments after its name state.
fn said_by(kind: Kind, words: &[String]) -> Option<Command<'_>>
    ensures among { IfSome result (λ c. AreAmong (map string_bytes words.now) (command_value c)) }
    ensures command { option_map command_value result ≡ said_by kind (map string_bytes words.now) }
{
    if kind.row().number {
        said_numbered(kind, words)
    } else {
        said_with(kind, 0, words)
    }
}

/// The command that the arguments state, if they are of the plain form. It takes no memory.
pub fn read_command(words: &[String]) -> Option<Command<'_>>
    ensures among { IfSome result (λ c. AreAmong (map string_bytes words.now) (command_value c)) }
    ensures command { option_map command_value result ≡ command_of (map string_bytes words.now) }
{
    let [name, rest @ ..] = words else {
        return None;
    };
    match kind_of(name.as_str()) {
        Some(kind) => said_by(kind, rest),
        None => None,
    }
}
