// Two lines of a table in few bits, and parts of them.
ghost use Rattle.std.specs.Prelude.{◌≡◌, ◌+◌, ◌^◌, ◌≤◌, ◌<◌, length, take, drop};
ghost use Rattle.choices.specs.Coarse.{AreCoarse};
ghost use Rattle.table_check.specs.Narrow.{IsSmall};

/// A line and the line below it in 64 bits, so small that no sum of four numbers leaves these.
#[derive(Drop)]
pub struct NarrowLines<'a> {
    pub line: &'a [i64],
    pub below: &'a [i64],
    pub ghost places: { length below.now ≡ length line.now },
    pub ghost small: { IsSmall line.now },
    pub ghost small_below: { IsSmall below.now },
}

/// These lines, and both in 16 bits as well, in units of `2^shift`: the line rounded down, and the line below it up.
#[derive(Drop)]
pub struct CoarseLines<'a> {
    pub narrow: NarrowLines<'a>,
    pub shift: u32,
    pub low: &'a [u16],
    pub high: &'a [u16],
    pub ghost range: { shift < 64 },
    pub ghost coarse: { AreCoarse (2 ^ shift) narrow.line.now narrow.below.now low.now high.now },
}

impl<'a> NarrowLines<'a> {
    /// A part of both lines: `width` places of the line from `here` on, and as many of the line below from `rest` on.
    pub fn part(&self, here: usize, rest: usize, width: usize) -> NarrowLines<'a>
        requires here { here + width ≤ length self.now.line.now }
        requires rest { rest + width ≤ length self.now.line.now }
        ensures line { result.line.now ≡ take width (drop here self.now.line.now) }
        ensures below { result.below.now ≡ take width (drop rest self.now.below.now) }
    {
        NarrowLines {
            line: &self.line[here..here + width],
            below: &self.below[rest..rest + width],
        }
    }
}

impl<'a> CoarseLines<'a> {
    /// A part of both lines: `width` places of the line from `here` on, and as many of the line below from `rest` on.
    pub fn part(&self, here: usize, rest: usize, width: usize) -> CoarseLines<'a>
        requires here { here + width ≤ length self.now.narrow.line.now }
        requires rest { rest + width ≤ length self.now.narrow.line.now }
        ensures line { result.narrow.line.now ≡ take width (drop here self.now.narrow.line.now) }
        ensures below { result.narrow.below.now ≡ take width (drop rest self.now.narrow.below.now) }
        ensures shift { result.shift ≡ self.now.shift }
        ensures low { result.low.now ≡ take width (drop here self.now.low.now) }
        ensures high { result.high.now ≡ take width (drop rest self.now.high.now) }
    {
        CoarseLines {
            narrow: self.narrow.part(here, rest, width),
            shift: self.shift,
            low: &self.low[here..here + width],
            high: &self.high[rest..rest + width],
        }
    }
}
