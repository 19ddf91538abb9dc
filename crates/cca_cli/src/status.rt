// How a run ends.
ghost use Rattle.std.specs.Prelude.{◌≡◌};
ghost use Rattle.cca_cli.specs.Code.{code_of};

use limits::LimitKind;

/// The part that a file plays. It is printed in lower case.
#[derive(Clone, Copy, Debug, PartialEq, Eq)]
pub enum FileKind {
    /// The settings of an auction.
    Award,
    /// The lines of the bidders.
    Log,
    /// A book of bids.
    Book,
    /// A certificate.
    Cert,
    /// The weights of the bidders of a book.
    Weights,
    /// The bidders of a band with their bids.
    Slots,
    /// Changes of a book.
    Edits,
    /// The standard output.
    Out,
}

/// Of what a certificate shows the prices. It names the tests that are made of it.
#[derive(Clone, Copy, Debug, PartialEq, Eq)]
pub enum CertKind {
    /// Of a book: its tests are printed with a `C`.
    Book,
    /// Of a placement in a band: its tests are printed with a `P`.
    Placement,
}

/// How a run ends.
#[derive(Clone, Copy, Debug, PartialEq, Eq)]
pub enum Status {
    /// All was read, written and printed.
    Done,
    /// A certificate fails this test at this place, the first that fails.
    No {
        of: CertKind,
        test: u8,
        place: u64,
    },
    /// The arguments aren't of the plain form.
    Words,
    /// A file isn't of its form, or a log isn't complete. For a book, a certificate, weights, slots and edits the place is the
    /// byte where the first faulty line begins, and for a log the number of the first faulty record, or of the one that would
    /// follow. For an award the place is the number of the field whose rule is broken first, with the number of its table as
    /// the entry, or 0 if it isn't TOML.
    Refused {
        file: FileKind,
        place: u64,
        entry: u32,
    },
    /// A file couldn't be read.
    ReadFault {
        file: FileKind,
    },
    /// A file or the output couldn't be written to.
    WriteFault {
        file: FileKind,
    },
    /// Out of memory.
    Memory,
    /// A quantity exceeds its limit, with its count.
    Limit {
        which: LimitKind,
        count: u64,
    },
}

impl Status {
    /// The exit status of the program, 0 to 7.
    pub fn code(&self) -> u8
        ensures { result ≡ code_of self.now }
    {
        match self {
            Status::Done => 0,
            Status::No { .. } => 1,
            Status::Words => 2,
            Status::Refused { .. } => 3,
            Status::ReadFault { .. } => 4,
            Status::WriteFault { .. } => 5,
            Status::Memory => 6,
            Status::Limit { .. } => 7,
        }
    }
}
