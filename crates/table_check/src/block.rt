// A block of a line: all its places, or the places with given numbers of lots of the first categories left.
ghost use Rattle.std.specs.Prelude.{◌≡◌, ◌+◌, ◌*◌, ◌≤◌, ◌<◌, IsTrue, length, slice_index_or, take, drop};
ghost use Rattle.table_check.specs.Block.{IsBlock};

use lots::{Package, Supply, used_categories};

/// The places of a block: the supply of some categories with the widths of their steps, and a package's lots of the first of these,
/// which have the place `first`.
#[derive(Drop)]
pub struct Block<'a> {
    pub supply: &'a [u16],
    pub widths: &'a [usize],
    pub lots: &'a [u16],
    pub first: usize,
    pub ghost is: { IsBlock supply.now widths.now lots.now first },
}

impl<'a> Block<'a> {
    ghost use Rattle.auction_model.specs.Package.{IsNothingFrom, is_within};
    ghost use Rattle.auction_model.specs.Place.{states_of};

    /// All places of a supply, with the lots of a package up to its last category with lots.
    pub fn of(supply: &'a Supply, lots: &'a Package) -> Block<'a>
        requires categories { length lots.now ≡ length supply.now }
        requires fits { IsTrue (is_within lots.now supply.now) }
        ensures supply { result.supply.now ≡ supply.now }
        ensures lots { result.lots.now ≡ take (length result.lots.now) lots.now }
        ensures rest { IsNothingFrom (length result.lots.now) lots.now }
    {
        supply.kept();
        let counts = lots.counts();
        let used = used_categories(counts);
        Block {
            supply: supply.counts(),
            widths: supply.widths(),
            lots: &counts[..used],
            first: supply.place(lots),
        }
    }

    /// The place of the package's lots.
    pub fn place(&self) -> usize
        ensures place { result ≡ self.now.first }
        ensures inside { result < states_of self.now.supply.now }
    {
        self.first
    }

    /// How many lots of the first category the package has.
    pub fn count(&self) -> usize
        ensures count { result ≡ slice_index_or self.now.lots.now 0 0 }
        ensures most { result ≤ slice_index_or self.now.supply.now 0 0 }
    {
        self.lots[0] as usize
    }

    /// How many parts the block has: one for each number of lots of the first category.
    pub fn parts(&self) -> usize
        ensures { result ≡ slice_index_or self.now.supply.now 0 0 + 1 }
    {
        self.supply[0] as usize + 1
    }

    /// How many places a part has.
    pub fn width(&self) -> usize
        ensures { result ≡ states_of (drop 1 self.now.supply.now) }
    {
        self.widths[0]
    }

    /// How many places the block has.
    pub fn size(&self) -> usize
        ensures { result ≡ states_of self.now.supply.now }
    {
        self.parts() * self.widths[0]
    }

    /// The first place of a part.
    pub fn start(&self, part: usize) -> usize
        requires { part < slice_index_or self.now.supply.now 0 0 + 1 }
        ensures start { result ≡ part * states_of (drop 1 self.now.supply.now) }
        ensures room { result + states_of (drop 1 self.now.supply.now) ≤ states_of self.now.supply.now }
    {
        part * self.widths[0]
    }

    /// A part, as the block of the other categories.
    pub fn rest(&self) -> Block<'a>
        requires { 1 < length self.now.lots.now }
        ensures supply { result.supply.now ≡ drop 1 self.now.supply.now }
        ensures widths { result.widths.now ≡ drop 1 self.now.widths.now }
        ensures lots { result.lots.now ≡ drop 1 self.now.lots.now }
        ensures first { slice_index_or self.now.lots.now 0 0 * states_of (drop 1 self.now.supply.now) + result.first ≡ self.now.first }
    {
        Block {
            supply: &self.supply[1..],
            widths: &self.widths[1..],
            lots: &self.lots[1..],
            first: self.first - self.lots[0] as usize * self.widths[0],
        }
    }
}
