// The table of the commands.
ghost use Rattle.std.specs.Prelude.{◌≡◌, false};
ghost use Rattle.cca_cli.specs.Command.{kind_named, row};

use crate::FileKind::{self, Award, Book, Cert, Edits, Log, Slots, Weights};
use Use::{Appends, Reads};

/// A command, by what it does.
#[derive(Clone, Copy, Debug, PartialEq, Eq)]
pub enum Kind {
    /// The winners of a book are printed.
    Win,
    /// A book is priced; its certificate is appended, and the prices are printed in the form that is asked for.
    Price,
    /// A certificate of a book is tested.
    Check,
    /// A book is priced by the weights of its bidders.
    Weigh,
    /// A certificate of a book is tested by the weights of its bidders.
    WeighCheck,
    /// The log of an auction is replayed; its book is appended, and the replies to its lines are printed.
    Auction,
    /// The log of an auction is replayed, and its book is priced.
    Award,
    /// The log of an auction is replayed, and a certificate of its book is tested.
    Audit,
    /// An auction is made from a number; its award and its log are appended, and a summary is printed.
    Make,
    /// The bidders of a band are placed and priced; the certificate is appended, and the placement and the prices are printed,
    /// after the lines of the turns if they are asked for.
    Place,
    /// A certificate of a placement is tested.
    PlaceCheck,
    /// A book is edited; its value and its winning choice after each edit are printed.
    Review,
}

/// What a command does with a file.
#[derive(Clone, Copy, Debug, PartialEq, Eq)]
pub enum Use {
    /// It reads the file.
    Reads,
    /// It appends to the file.
    Appends,
}

/// The flags that may follow the files of a command.
#[derive(Clone, Copy, Debug, PartialEq, Eq)]
pub enum Flags {
    /// No flags.
    None,
    /// `--rounds`.
    Rounds,
    /// `--rounds` and `--json`, each at most once and in either order.
    Form,
}

/// A row of the table: what words follow a command's name.
#[derive(Clone, Copy, Debug)]
pub struct Row {
    /// A number comes before the files.
    pub number: bool,
    /// The part of each file, and what is done with it, in the order of the arguments.
    pub files: &'static [(FileKind, Use)],
    /// The flags after the files.
    pub flags: Flags,
}

// The row of a command that has only files.
fn plain(files: &'static [(FileKind, Use)]) -> Row
    ensures { (result.number ≡ false) × (result.files.now ≡ files.now) × (result.flags ≡ Flags.None) }
{
    Row {
        number: false,
        files,
        flags: Flags::None,
    }
}

impl Kind {
    /// The row of this command.
    pub fn row(self) -> Row
        ensures number { result.number ≡ (row self).number }
        ensures files { result.files.now ≡ (row self).files }
        ensures flags { result.flags ≡ (row self).flags }
    {
        match self {
            Kind::Win => plain(&[(Book, Reads)]),
            Kind::Price => Row {
                number: false,
                files: &[(Book, Reads), (Cert, Appends)],
                flags: Flags::Form,
            },
            Kind::Check => plain(&[(Book, Reads), (Cert, Reads)]),
            Kind::Weigh => Row {
                number: false,
                files: &[(Book, Reads), (Weights, Reads), (Cert, Appends)],
                flags: Flags::Form,
            },
            Kind::WeighCheck => plain(&[(Book, Reads), (Weights, Reads), (Cert, Reads)]),
            Kind::Auction => plain(&[(Award, Reads), (Log, Reads), (Book, Appends)]),
            Kind::Award => Row {
                number: false,
                files: &[(Award, Reads), (Log, Reads), (Cert, Appends)],
                flags: Flags::Form,
            },
            Kind::Audit => plain(&[(Award, Reads), (Log, Reads), (Cert, Reads)]),
            Kind::Make => Row {
                number: true,
                files: &[(Award, Appends), (Log, Appends)],
                flags: Flags::None,
            },
            Kind::Place => Row {
                number: false,
                files: &[(Slots, Reads), (Cert, Appends)],
                flags: Flags::Rounds,
            },
            Kind::PlaceCheck => plain(&[(Slots, Reads), (Cert, Reads)]),
            Kind::Review => plain(&[(Book, Reads), (Edits, Reads)]),
        }
    }
}

/// The command that a word names.
pub fn kind_of(name: &str) -> Option<Kind>
    ensures { result ≡ kind_named name.now }
{
    match name {
        "win" => Some(Kind::Win),
        "price" => Some(Kind::Price),
        "check" => Some(Kind::Check),
        "weigh" => Some(Kind::Weigh),
        "weigh-check" => Some(Kind::WeighCheck),
        "auction" => Some(Kind::Auction),
        "award" => Some(Kind::Award),
        "audit" => Some(Kind::Audit),
        "make" => Some(Kind::Make),
        "place" => Some(Kind::Place),
        "place-check" => Some(Kind::PlaceCheck),
        "review" => Some(Kind::Review),
        _ => None,
    }
}
