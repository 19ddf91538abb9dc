// Slots as auctions that can be priced.
ghost use Rattle.std.specs.Prelude.{◌≡◌, ◌<◌, ◌≤◌, ℕ, length, pos, slice_index_or, IfOk};
ghost use Rattle.auction_model.specs.Greatest.{IsFirstGreatest, IsWinning};
ghost use Rattle.auction_model.specs.Lawful.{IsMarket};
ghost use Rattle.auction_model.specs.Market.{value_of};
ghost use Rattle.auction_model.specs.Prices.{allowed_without};
ghost use Rattle.slot_places.specs.Slots.{amount_of};
ghost use Rattle.slot_places.specs.Board.{market_of_slots, board_of, board_without, is_placed};
ghost use Rattle.slot_places.specs.SetTable.{IsSetTable};
ghost use Rattle.limits.specs.declared.TheConstants.{MOST_PLACED};

use crate::search::Search;
use crate::searching::greatest;
use crate::{Slots, slot_market};
use choices::{Choice, Chooser, Found, Grid};
use std::alloc::{AllocError, Global};

/// Slots with their winning choice, as an auction that can be priced. Its searches go by exact tables over sets of bidders.
#[derive(Drop)]
pub struct SlotChooser<'a> {
    /// The slots.
    pub slots: &'a Slots,
    /// Their winning choice.
    pub winners: Choice,
    pub ghost lawful: { IsMarket (market_of_slots slots.now) },
    pub ghost winning: { IsWinning (market_of_slots slots.now) winners },
}

impl<'a> SlotChooser<'a> {
    /// The chooser of slots with their winning choice. It takes no memory.
    pub fn new(slots: &'a Slots, winners: Choice) -> SlotChooser<'a>
        requires { IsWinning (market_of_slots slots.now) winners }
        ensures slots { result.slots.now ≡ slots.now }
        ensures winners { result.winners ≡ winners }
    {
        slot_market();
        slots.kept();
        SlotChooser { slots, winners }
    }

    /// The first of the greatest allowed choices that don't use bidder `j`, its worth, and the table for the amounts without
    /// bids of `j`. The only error is out of memory.
    pub fn best_without(&self, alloc: Global, j: u16) -> Result<Found<Grid>, AllocError>
        requires { (0 < j) × (j ≤ length self.now.slots.now.bidders) }
        ensures choice { IfOk result
            (λ f. IsFirstGreatest (allowed_without (market_of_slots self.now.slots.now) j)
            (value_of (market_of_slots self.now.slots.now)) f.choice) }
        ensures sum { IfOk result (λ f. f.sum ≡ value_of (market_of_slots self.now.slots.now) f.choice) }
        ensures table { IfOk result
            (λ f. IsSetTable (board_without self.now.slots.now j) (amount_of self.now.slots.now) f.table) }
    {
        let found = plain_search(alloc, self.slots, j)?;
        Ok(found)
    }
}

/// That many zeros.
fn zeros(alloc: Global, count: usize) -> Result<Vec<i128>, AllocError>
    requires { count ≤ MOST_PLACED }
    ensures count { IfOk result (λ v. length v.items ≡ count) }
    ensures zeros { IfOk result (λ v. (k : ℕ) → slice_index_or v.items k (pos 0) ≡ pos 0) }
{
    vec![in alloc; 0i128; count]
}

/// The first of the greatest placed choices without bids of bidder `skip`, or with all bids if `skip` is 0.
fn plain_search(alloc: Global, slots: &Slots, skip: u16) -> Result<Found<Grid>, AllocError>
    ensures choice { IfOk result
        (λ f. IsFirstGreatest (is_placed (board_without slots.now skip))
        (value_of (market_of_slots slots.now)) f.choice) }
    ensures sum { IfOk result (λ f. f.sum ≡ value_of (market_of_slots slots.now) f.choice) }
    ensures table { IfOk result (λ f. IsSetTable (board_without slots.now skip) (amount_of slots.now) f.table) }
{
    let surplus = zeros(alloc, slots.bidders())?;
    let search = Search {
        slots,
        skip,
        den: 1,
        surplus: &surplus,
    };
    let found = greatest(alloc, &search)?;
    Ok(found)
}

/// The winning choice with its worth and the table for the amounts. The only error is out of memory.
pub fn place_best(alloc: Global, slots: &Slots) -> Result<Found<Grid>, AllocError>
    ensures choice { IfOk result (λ f. IsWinning (market_of_slots slots.now) f.choice) }
    ensures sum { IfOk result (λ f. f.sum ≡ value_of (market_of_slots slots.now) f.choice) }
    ensures table { IfOk result (λ f. IsSetTable (board_of slots.now) (amount_of slots.now) f.table) }
{
    let found = plain_search(alloc, slots, 0)?;
    Ok(found)
}

/// The winning choice: the first allowed choice of greatest worth. The only error is out of memory.
pub fn place_win(alloc: Global, slots: &Slots) -> Result<Choice, AllocError>
    ensures { IfOk result (λ c. IsWinning (market_of_slots slots.now) c) }
{
    let found = place_best(alloc, slots)?;
    Ok(found.choice)
}

impl<'a> Chooser for SlotChooser<'a> {
    ghost use Rattle.std.specs.Prelude.{◌≡◌, ℤ, List};
    ghost use Rattle.auction_model.specs.Lowered.{lowered};
    ghost use Rattle.slot_places.specs.Slots.{amount_of};
    ghost use Rattle.slot_places.specs.Board.{market_of_slots, board_of};
    ghost use Rattle.slot_places.specs.SetTable.{IsSetTable};

    type Table = Grid;

    ghost market = { λ s. market_of_slots s.slots.now };

    ghost chosen = { λ s. s.winners };

    ghost is_table = { λ s den surplus table. IsSetTable (board_of s.slots.now)
        (lowered den (amount_of s.slots.now) surplus) table };

    fn members(&self) -> usize {
        self.slots.bidders()
    }

    fn winners(&self) -> &Choice {
        &self.winners
    }

    fn winner_value(&self, j: u16) -> i128 {
        let number = self.winners.number(j);
        if number == 0 {
            return 0;
        }
        let place = self.slots.place(j, number);
        place.amount as i128
    }

    fn best_lowered(
        &self,
        alloc: Global,
        den: i128,
        surplus: &[i128],
    ) -> Result<Found<Grid>, AllocError> {
        self.slots.kept();
        let search = Search {
            slots: self.slots,
            skip: 0,
            den,
            surplus,
        };
        let found = greatest(alloc, &search)?;
        Ok(found)
    }

    ghost lawful = { λ s. s.lawful };

    ghost winning = { λ s. s.winning };
}
