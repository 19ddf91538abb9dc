// The size of a number, digit by digit.
ghost use Rattle.std.specs.Prelude.{◌≡◌, ◌↔◌, ℕ, ◌+◌, ◌*◌, ◌<◌, ◌≤◌, length, IsTrue};
ghost use Rattle.wide_num.proofs.Decimal.{AreDigits, read_on};
ghost use Rattle.cert_stream.specs.Tallies.{IsTally};
ghost use Rattle.cert_stream.specs.Pieces.{between};

use crate::line::tally::Magnitude;
use wide_num::EDGE;

/// The tally of a first digit.
pub(crate) fn first(digit: u8) -> Magnitude
    requires { digit < 10 }
    ensures { IsTally result digit }
{
    Magnitude {
        size: digit as u128,
        beyond: false,
    }
}

/// One more digit.
pub(crate) fn more(tally: Magnitude, digit: u8) -> Magnitude
    requires { digit < 10 }
    ensures { (value : ℕ) → IsTally tally value → IsTally result (10 * value + digit) }
{
    let size = 10 * tally.size + digit as u128;
    if tally.beyond || size >= EDGE {
        return Magnitude {
            size: 0,
            beyond: true,
        };
    }
    Magnitude {
        size,
        beyond: false,
    }
}

/// Whether the number is 0.
pub(crate) fn is_zero(tally: Magnitude) -> bool
    ensures { (value : ℕ) → IsTally tally value → IsTrue result ↔ (value ≡ 0) }
{
    !tally.beyond && tally.size == 0
}

/// The size of a number after more digits, and where they end.
#[derive(Clone, Copy)]
pub(crate) struct DigitRun {
    pub(crate) tally: Magnitude,
    pub(crate) end: usize,
}

/// Reads the digits that are in a piece from a place on. While the size is below 10^18, it is kept in 64 bits.
pub(crate) fn read_digits(piece: &[u8], at: usize, tally: Magnitude) -> DigitRun
    requires { at ≤ length piece.now }
    ensures from { at ≤ result.end }
    ensures to { result.end ≤ length piece.now }
    ensures digits { AreDigits (between at result.end piece.now) }
    ensures tally { (value : ℕ) → IsTally tally value
        → IsTally result.tally (read_on value (between at result.end piece.now)) }
{
    if tally.beyond || tally.size >= SMALL as u128 {
        return read_wide(piece, at, tally);
    }
    let mut size = tally.size as u64;
    for i in at..piece.len() {
        let byte = piece[i];
        if !byte.is_ascii_digit() {
            return DigitRun {
                tally: small(size),
                end: i,
            };
        }
        if size >= SMALL {
            return read_wide(piece, i, small(size));
        }
        size = 10 * size + (byte - b'0') as u64;
    }
    DigitRun {
        tally: small(size),
        end: piece.len(),
    }
}

/// 10^18. With one more digit the size still has 64 bits.
pub(crate) const SMALL: u64 = 1_000_000_000_000_000_000;

/// The tally of a size of 64 bits.
fn small(size: u64) -> Magnitude
    ensures { IsTally result size }
{
    Magnitude {
        size: size as u128,
        beyond: false,
    }
}

/// Reads the digits at the start of a piece in 128 bits.
fn read_wide(piece: &[u8], at: usize, tally: Magnitude) -> DigitRun
    requires { at ≤ length piece.now }
    ensures from { at ≤ result.end }
    ensures to { result.end ≤ length piece.now }
    ensures digits { AreDigits (between at result.end piece.now) }
    ensures tally { (value : ℕ) → IsTally tally value
        → IsTally result.tally (read_on value (between at result.end piece.now)) }
{
    let mut tally = tally;
    for i in at..piece.len() {
        let byte = piece[i];
        if !byte.is_ascii_digit() {
            return DigitRun { tally, end: i };
        }
        tally = more(tally, byte - b'0');
    }
    DigitRun {
        tally,
        end: piece.len(),
    }
}
