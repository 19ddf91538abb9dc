// Slots, and the calls that read them.
ghost use Rattle.std.specs.Prelude.{◌≡◌, ◌≢◌, ◌≤◌, ◌<◌, ◌↔◌, ◌+◌, ◌++◌, ◌∷◌, [], IsFalse, OnOk, length};
ghost use Rattle.std.specs.List.{AllByRecursion, list_any};
ghost use Rattle.std.specs.Str.{bytes_eq};
ghost use Rattle.limits.specs.declared.TheConstants.{MOST_LOTS, MOST_PLACED};
ghost use Rattle.slot_places.specs.Kept.{AreSlots};
ghost use Rattle.slot_places.specs.Slots.{bidder_of, width_of, bids_of, bid_of};

use bid_book::Name;
use std::alloc::{AllocError, Global};
use std::marker::Model;

/// A bid for a start in the band.
#[derive(Drop)]
pub struct Place {
    /// The slot where the bidder starts. Slots are numbered from 1.
    pub start: u16,
    /// The amount, at most 2^42.
    pub amount: u64,
}

/// A bidder with its width in slots and its bids, in the order of their starts.
#[derive(Drop)]
pub struct BandBidder {
    pub(crate) name: Name,
    pub(crate) width: u16,
    pub(crate) places: Vec<Place>,
}

/// A band of at most 40 slots, and at most six bidders that are laid side by side in it. Bidders and bids are numbered from 1.
#[derive(Drop)]
pub struct Slots {
    band: u16,
    bidders: Vec<BandBidder>,
}

impl Model for Slots {
    ghost use Rattle.slot_places.specs.Slots.{SlotList};
    ghost use Rattle.slot_places.specs.Kept.{AreSlots};
    ghost use Rattle.slot_places.specs.Fields.{slots_value};

    ghost Value = { SlotList };

    ghost view = { slots_value };

    ghost invariant = { λ s. AreSlots (slots_value s) };
}

impl Slots {
    ghost use Rattle.slot_places.specs.SlotForm.{AreSlotsWithinLimits, width_together};
    ghost use Rattle.slot_places.specs.Fields.{bid_value};
    ghost use Rattle.slot_places.specs.Stages.{bidder_with, last_width, opened, start_before, with_bid, with_bidders};

    /// The band before its first bidder.
    pub(crate) fn open(alloc: Global, band: u16) -> Slots
        requires { (1 ≤ band) × (band ≤ MOST_LOTS) }
        ensures { result ≡ opened band }
    {
        Slots {
            band,
            bidders: Vec::new(alloc),
        }
    }

    /// Puts a bidder without bids after the others.
    pub(crate) fn add_bidder(
        &mut self,
        alloc: Global,
        name: Name,
        width: u16,
    ) -> Result<(), AllocError>
        requires { AreSlotsWithinLimits (with_bidders self.old (self.old.bidders ++ bidder_with name width [] ∷ [])) }
        ensures { OnOk result (self.new ≡ with_bidders self.old (self.old.bidders ++ bidder_with name width [] ∷ [])) }
    {
        let places = Vec::new(alloc);
        self.bidders.push(BandBidder {
            name,
            width,
            places,
        })?;
        Ok(())
    }

    /// Puts a bid after the bids of the last bidder.
    pub(crate) fn add_place(&mut self, place: Place) -> Result<(), AllocError>
        requires some { 0 < length self.old.bidders }
        requires kept { AreSlotsWithinLimits (with_bid self.old (bid_value place)) }
        ensures { OnOk result (self.new ≡ with_bid self.old (bid_value place)) }
    {
        let last = self.bidders.len() - 1;
        let bidder = &mut self.bidders[last];
        bidder.places.push(place)?;
        Ok(())
    }

    /// How many slots the bidders leave of the band.
    pub(crate) fn room(&self) -> u16
        ensures { result + width_together self.now.bidders ≡ self.now.band }
    {
        let mut used: u16 = 0;
        for k in 0..self.bidders() {
            used += self.width(k as u16 + 1);
        }
        self.band - used
    }

    /// The first slot where the next bid of the last bidder may start.
    pub(crate) fn next_start(&self) -> u16
        requires { 0 < length self.now.bidders }
        ensures { result ≡ start_before self.now + 1 }
    {
        let last_bidder = self.bidders() as u16;
        let last = self.places(last_bidder);
        if last == 0 {
            return 1;
        }
        let place = self.place(last_bidder, last);
        place.start + 1
    }

    /// The last slot where the last bidder may start.
    pub(crate) fn last_start(&self) -> u16
        requires { 0 < length self.now.bidders }
        ensures { result + last_width self.now ≡ self.now.band + 1 }
    {
        self.band + 1 - self.width(self.bidders() as u16)
    }

    /// The rules that all slots keep. Nothing is done: proofs read the clause.
    pub fn kept(&self)
        ensures { AreSlots self.now }
    {
        // The rules of a type are known once its field is used.
        let _ = &self.bidders;
    }

    /// How many bidders there are.
    pub fn bidders(&self) -> usize
        ensures bidders { result ≡ length self.now.bidders }
        ensures most { result ≤ MOST_PLACED }
        ensures kept { AreSlots self.now }
    {
        self.bidders.len()
    }

    /// Whether a bidder has this name.
    pub(crate) fn has_bidder(&self, name: &str) -> bool
        ensures { IsFalse result ↔ AllByRecursion (λ b. b.name ≢ name.now) self.now.bidders }
    {
        is_named(&self.bidders, name)
    }

    /// The name of bidder `j`.
    pub fn name(&self, j: u16) -> &str
        requires { (0 < j) × (j ≤ length self.now.bidders) }
        ensures { result.now ≡ (bidder_of self.now j).name }
    {
        let bidder = &self.bidders[j as usize - 1];
        bidder.name.text()
    }

    /// How many slots bidder `j` takes.
    pub fn width(&self, j: u16) -> u16
        requires { (0 < j) × (j ≤ length self.now.bidders) }
        ensures { result ≡ width_of self.now j }
    {
        let bidder = &self.bidders[j as usize - 1];
        bidder.width
    }

    /// How many bids bidder `j` has.
    pub fn places(&self, j: u16) -> u16
        requires { (0 < j) × (j ≤ length self.now.bidders) }
        ensures bids { result ≡ length (bids_of self.now j) }
        ensures most { result ≤ MOST_LOTS }
    {
        let bidder = &self.bidders[j as usize - 1];
        bidder.places.len() as u16
    }

    /// Bid `i` of bidder `j`.
    pub fn place(&self, j: u16, i: u16) -> Place
        requires bidder { (0 < j) × (j ≤ length self.now.bidders) }
        requires bid { (0 < i) × (i ≤ length (bids_of self.now j)) }
        ensures start { result.start ≡ (bid_of self.now j i).start }
        ensures amount { result.amount ≡ (bid_of self.now j i).amount }
    {
        let bidder = &self.bidders[j as usize - 1];
        let place = &bidder.places[i as usize - 1];
        Place {
            start: place.start,
            amount: place.amount,
        }
    }
}

/// Whether one of the bidders has this name.
fn is_named(bidders: &[BandBidder], name: &str) -> bool
    ensures { result ≡ list_any (λ b. bytes_eq b.name name.now) bidders.now }
{
    bidders.iter().any(|bidder| bidder.name.text() == name)
}
