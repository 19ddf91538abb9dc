// Lines of a word and numbers.
ghost use Rattle.std.specs.Prelude.{◌≡◌, ◌≤◌, ◌↔◌, ◌++◌, length, take, List, IsTrue, IfOk, IfErr, [], ℤ};
ghost use Rattle.line_format.specs.Numeral.{numbers_text};
ghost use Rattle.cert_text.specs.Readers.{IsLineAt, IsRefused};
ghost use Rattle.line_format.specs.Fields.{HasLine};

use crate::CertStop;
use line_format::{NumbersStop, line_len, numbers_after};
use std::alloc::Global;
use wide_num::NumList;

/// The numbers of a line, and where the next line begins. If one is out of range, only the count of the list is right.
#[derive(Drop)]
pub(crate) struct LineRead {
    pub(crate) numbers: NumList,
    /// Whether a number is out of range.
    pub(crate) beyond: bool,
    pub(crate) next: usize,
}

/// Reads the line at the place, of a word and numbers, as a rule that many.
pub(crate) fn take_line(
    alloc: Global,
    bytes: &[u8],
    place: usize,
    word: &[u8],
    count: usize,
) -> Result<LineRead, CertStop>
    requires { place ≤ length bytes.now }
    ensures line { IfOk result (λ l. IsLineAt bytes.now place word.now l.numbers l.beyond l.next) }
    ensures within { IfOk result (λ l. l.next ≤ length bytes.now) }
    ensures stops { IfErr result (IsRefused bytes.now place word.now) }
{
    match line_len(&bytes[place..]) {
        None => Err(CertStop::Form(place as u64)),
        Some(len) => {
            let mut numbers = Vec::with_capacity(alloc, count)?;
            match numbers_after(&bytes[place..][..len], word, &mut numbers) {
                Ok(beyond) => Ok(LineRead {
                    numbers: NumList::from_vec(numbers),
                    beyond,
                    next: place + len + 1,
                }),
                Err(NumbersStop::Form) => Err(CertStop::Form(place as u64)),
                Err(NumbersStop::Memory) => Err(CertStop::Memory),
            }
        }
    }
}
