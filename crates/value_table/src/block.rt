// The blocks that a bid changes. In one category, block `q` of a line has the places with `q` lots of that category left.
// `table_check` has blocks of its own on purpose: a checker uses no crate that prices.
ghost use Rattle.std.specs.Prelude.{◌≡◌, ◌<◌, IsTrue, drop, length, take};
ghost use Rattle.auction_model.specs.Package.{IsNothingFrom, is_within};
ghost use Rattle.value_table.specs.Block.{IsBlock};

use lots::{Package, Supply, used_categories};

/// The places of some categories, with the widths of these, and the lots that a bid wants of the first of them. `first` is the place
/// of these lots.
#[derive(Drop)]
pub struct Block<'a> {
    pub supply: &'a [u16],
    pub widths: &'a [usize],
    pub counts: &'a [u16],
    pub first: usize,
    pub ghost is: { IsBlock supply.now widths.now counts.now first },
}

impl<'a> Block<'a> {
    /// All places of a supply, for a package in it, without the last categories if the package has no lots of them.
    pub fn whole(supply: &'a Supply, lots: &'a Package) -> Block<'a>
        requires categories { length lots.now ≡ length supply.now }
        requires fits { IsTrue (is_within lots.now supply.now) }
        ensures supply { result.supply.now ≡ supply.now }
        ensures counts { result.counts.now ≡ take (length result.counts.now) lots.now }
        ensures rest { IsNothingFrom (length result.counts.now) lots.now }
    {
        let radices = supply.counts();
        let counts = lots.counts();
        let used = used_categories(counts);
        Block {
            supply: radices,
            widths: supply.widths(),
            counts: &counts[..used],
            first: supply.place(lots),
        }
    }

    /// The places of the other categories than the first.
    pub fn rest(&self) -> Block<'_>
        requires { 1 < length self.now.counts.now }
        ensures supply { result.supply.now ≡ drop 1 self.now.supply.now }
        ensures widths { result.widths.now ≡ drop 1 self.now.widths.now }
        ensures counts { result.counts.now ≡ drop 1 self.now.counts.now }
    {
        let start = self.counts[0] as usize * self.widths[0];
        Block {
            supply: &self.supply[1..],
            widths: &self.widths[1..],
            counts: &self.counts[1..],
            first: self.first - start,
        }
    }
}
