// The generator, and what is drawn from it.
ghost use Rattle.std.specs.Prelude.{◌≡◌, ◌<◌};
ghost use Rattle.big_auction.specs.Draws.{advanced, drawn, drawn_package, first_state, turned};
ghost use Rattle.big_auction.specs.Parts.{counts_of};

use crate::values::Lots;

/// How many states there are.
const PERIOD: u64 = 1 << 31;

/// A generator by its state.
#[derive(Drop)]
pub struct Draws {
    pub state: u32,
}

impl Draws {
    /// The generator that begins with this number.
    pub fn new(number: u32) -> Draws
        ensures { result.state ≡ first_state number }
    {
        Draws {
            state: (number as u64 % PERIOD) as u32,
        }
    }

    /// The next number drawn, below the bound.
    #[tactic(auto, unfolding(crate::specs::Draws::turned, crate::specs::Draws::advanced, crate::specs::Draws::drawn))]
    pub fn draw(&mut self, bound: u32) -> u32
        requires { 0 < bound }
        ensures state { self.new.state ≡ advanced self.old.state 1 }
        ensures drawn { result ≡ drawn self.old.state 1 bound }
        ensures below { result < bound }
    {
        let next = (1_103_515_245 * self.state as u64 + 12_345) % PERIOD;
        self.state = next as u32;
        (next / 0x1_0000 % bound as u64) as u32
    }

    /// A package within this one, with a lot of the first category at least.
    pub fn package(&mut self, most: Lots) -> Lots
        requires { 0 < most.a }
        ensures state { self.new.state ≡ advanced self.old.state 4 }
        ensures drawn { counts_of result ≡ drawn_package self.old.state (counts_of most) }
    {
        let a = 1 + self.draw(most.a as u32) as u16;
        let b = self.draw(most.b as u32 + 1) as u16;
        let c = self.draw(most.c as u32 + 1) as u16;
        let e = self.draw(most.e as u32 + 1) as u16;
        Lots { a, b, c, e }
    }
}
