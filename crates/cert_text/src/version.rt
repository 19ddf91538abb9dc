// The version of a certificate's text.
ghost use Rattle.std.specs.Prelude.{◌≡◌, ◌≤◌, length, map, false, IfOk, IfErr, []};
ghost use Rattle.cert_grammar.specs.Lines.{is_first_version, just_line, version_lines, version_of, version_plan};
ghost use Rattle.cert_text.specs.Readers.{Leads, Halts};

use crate::read::fields::take_these;
use crate::{CertStop, Shape};
use limits::{FIRST_VERSION_BIDDERS, FIRST_VERSION_STATES, MOST_BIDDERS, MOST_STATES};
use std::alloc::Global;

/// Whether the text of a certificate for that many bidders and states is of the first version.
pub fn has_first_version(bidders: usize, states: usize) -> bool
    ensures { result ≡ is_first_version bidders states }
{
    bidders <= FIRST_VERSION_BIDDERS && states as u64 <= FIRST_VERSION_STATES
}

/// Reads the lines that state the version. Returns the place of the next line.
pub(crate) fn take_version(alloc: Global, bytes: &[u8], shape: Shape) -> Result<usize, CertStop>
    ensures leads { IfOk result
        (λ next. Leads bytes.now 0 (version_plan shape.bidders shape.states) next []
        (version_lines shape.bidders shape.states)) }
    ensures within { IfOk result (λ next. next ≤ length bytes.now) }
    ensures halts { IfErr result (Halts bytes.now 0 (version_plan shape.bidders shape.states)) }
{
    if has_first_version(shape.bidders as usize, shape.states as usize) {
        let first = take_these(alloc, bytes, 0, b"cert", &[1])?;
        return Ok(first);
    }
    let next = take_second_version(alloc, bytes)?;
    Ok(next)
}

/// Reads the lines that state the second version and its limits.
fn take_second_version(alloc: Global, bytes: &[u8]) -> Result<usize, CertStop>
    ensures leads { IfOk result
        (λ next. Leads bytes.now 0 (map just_line (version_of false)) next [] (version_of false)) }
    ensures within { IfOk result (λ next. next ≤ length bytes.now) }
    ensures halts { IfErr result (Halts bytes.now 0 (map just_line (version_of false))) }
{
    let second = take_these(alloc, bytes, 0, b"cert", &[2])?;
    let limits = [MOST_BIDDERS as i128, MOST_STATES as i128];
    let next = take_these(alloc, bytes, second, b"limits", &limits)?;
    Ok(next)
}
