// The value and the head's choice.
ghost use Rattle.std.specs.Prelude.{◌≡◌};
ghost use Rattle.stream_check.specs.Moments.{IsPossible, Shows};

use crate::judging::finding::Finding;
use crate::moment::LineContext;
use crate::room::{choice_in, number_in};
use cert_check::{choice_test, failure_of, sizes_test};
use cert_stream::NextLine;

/// What the value shows, with the denominator before it: the first test.
pub(crate) fn value_line(at: &LineContext) -> Finding
    requires due { at.now.due ≡ NextLine.Value }
    requires some { IsPossible at.now }
    ensures { Shows at.now result }
{
    let den = number_in(at.book, NextLine::Den, at.room);
    let value = number_in(at.book, NextLine::Value, at.room);
    Finding::of(failure_of(1, sizes_test(den, value)))
}

/// What the head's choice shows: the second test.
pub(crate) fn choice_line(at: &LineContext) -> Finding
    requires due { at.now.due ≡ NextLine.Choice }
    requires some { IsPossible at.now }
    ensures { Shows at.now result }
{
    let value = number_in(at.book, NextLine::Value, at.room);
    let choice = choice_in(at.book, NextLine::Choice, at.room);
    Finding::of(failure_of(2, choice_test(at.book, choice.as_slice(), value)))
}
