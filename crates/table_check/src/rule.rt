// What one bid asks of a line of a table.
ghost use Rattle.std.specs.Prelude.{◌≡◌, ℕ, ◌^◌, ◌<◌, ◌≤◌, true, length, slice_index_or, pos, unsigned_abs};
ghost use Rattle.choices.specs.Coarse.{AreCoarse};
ghost use Rattle.table_check.specs.Narrow.{AreNarrow};

use crate::narrow::{CoarseLines, NarrowLines};

/// A line of a table and the line below it. If `is_narrow` says so both are in 64 bits too, and so small that no sum of four
/// numbers leaves these. If `is_coarse` says so they are in 16 bits as well, in units of `2^shift`.
#[derive(Drop)]
pub struct LinePair<'a> {
    pub line: &'a [i128],
    pub below: &'a [i128],
    pub is_narrow: bool,
    pub narrow_line: &'a [i64],
    pub narrow_below: &'a [i64],
    pub is_coarse: bool,
    pub shift: u32,
    pub low: &'a [u16],
    pub high: &'a [u16],
    pub ghost places: { length below.now ≡ length line.now },
    pub ghost small_below: { (s : ℕ) → unsigned_abs (slice_index_or below.now s (pos 0)) < 2 ^ 122 },
    pub ghost narrow: { is_narrow ≡ true → AreNarrow line.now below.now narrow_line.now narrow_below.now },
    pub ghost coarse: { is_coarse ≡ true → (shift < 64)
        × AreCoarse (2 ^ shift) narrow_line.now narrow_below.now low.now high.now },
}

impl<'a> LinePair<'a> {
    /// Both lines in 64 bits.
    pub fn in_64_bits(&self) -> NarrowLines<'a>
        requires { self.now.is_narrow ≡ true }
        ensures line { result.line.now ≡ self.now.line.now }
        ensures below { result.below.now ≡ self.now.below.now }
    {
        NarrowLines {
            line: self.narrow_line,
            below: self.narrow_below,
        }
    }

    /// Both lines in 64 bits and in 16.
    pub fn in_16_bits(&self) -> CoarseLines<'a>
        requires narrow { self.now.is_narrow ≡ true }
        requires coarse { self.now.is_coarse ≡ true }
        ensures line { result.narrow.line.now ≡ self.now.line.now }
        ensures below { result.narrow.below.now ≡ self.now.below.now }
        ensures shift { result.shift ≡ self.now.shift }
        ensures low { result.low.now ≡ self.now.low.now }
        ensures high { result.high.now ≡ self.now.high.now }
    {
        CoarseLines {
            narrow: self.in_64_bits(),
            shift: self.shift,
            low: self.low,
            high: self.high,
        }
    }
}

/// What one bid asks of a line: at each place where its package fits, the line is at least the worth of the bid and what the
/// line below has for the rest, which is the place less `shift`.
#[derive(Drop)]
pub struct LineRule<'a> {
    pub line: &'a [i128],
    pub below: &'a [i128],
    pub shift: usize,
    pub worth: i128,
    pub ghost places: { length below.now ≡ length line.now },
    pub ghost small_worth: { unsigned_abs worth < 2 ^ 122 },
    pub ghost small_below: { (s : ℕ) → unsigned_abs (slice_index_or below.now s (pos 0)) < 2 ^ 122 },
}

/// What a bid is worth in 64 bits, and whether it is known that neither line falls where more is left.
#[derive(Drop)]
pub struct NarrowRule {
    pub worth: i64,
    pub grow: bool,
    pub ghost small: { unsigned_abs worth ≤ 2 ^ 60 },
}
