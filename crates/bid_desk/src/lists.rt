// The lists of one bidder.
ghost use Rattle.std.specs.Prelude.{◌≡◌, [], ℕ, List, IfOk, Some, OnErr, OnOk, length, map, replicate, true};
ghost use Rattle.auction_model.specs.Entries.{with_entry, without_entry};
ghost use Rattle.auction_rules.specs.Replies.{has_entry};
ghost use Rattle.relative_cap.specs.OwnRounds.{bid_value};
ghost use Rattle.auction_model.specs.Book.{BookBid};
ghost use Rattle.bid_desk.specs.Differences.{Differs, IsSameButAt, SetsAmount};
ghost use Rattle.bid_desk.specs.Lists.{IsKept, lists_with};

use crate::difference::Difference;
use crate::slots::{Position, copy_entries, has_entry, put_entry, slot_of};
use lots::{Bid, Package};
use std::alloc::{AllocError, Global};
use std::marker::Model;
use std::mem;

/// The draft list and the submitted list of a bidder, each in the order of its packages, each package once.
#[derive(Drop)]
pub struct BidderLists {
    drafts: Vec<Bid>,
    submitted: Vec<Bid>,
    // The entries of an earlier submitted list, which the next one overwrites. They mean nothing.
    spare: Vec<Bid>,
    // A list that was submitted last and hasn't changed since is valid still, and one amount is copied faster than a list.
    difference: Difference,
}

impl Model for BidderLists {
    ghost use Rattle.std.specs.Prelude.{map};
    ghost use Rattle.relative_cap.specs.OwnRounds.{bid_value};
    ghost use Rattle.bid_desk.specs.Differences.{Differs};
    ghost use Rattle.bid_desk.specs.Lists.{Lists, lists_with};

    ghost Value = { Lists };

    ghost view = { λ l. lists_with (map bid_value l.drafts.items) (map bid_value l.submitted.items) };

    ghost invariant = { λ l. Differs l.difference (map bid_value l.drafts.items) (map bid_value l.submitted.items) };
}

impl BidderLists {
    /// Two empty lists. It takes no memory.
    pub fn new(alloc: Global) -> BidderLists
        ensures { result ≡ lists_with [] [] }
    {
        BidderLists {
            drafts: Vec::new(alloc),
            submitted: Vec::new(alloc),
            spare: Vec::new(alloc),
            difference: Difference::Nothing,
        }
    }

    /// The entries of the draft list.
    pub fn drafts(&self) -> &[Bid]
        ensures { map bid_value result.now ≡ self.now.drafts }
    {
        self.drafts.as_slice()
    }

    /// The entries of the submitted list.
    pub fn submitted(&self) -> &[Bid]
        ensures { map bid_value result.now ≡ self.now.submitted }
    {
        self.submitted.as_slice()
    }

    /// Whether the draft list is known to be the submitted one.
    pub fn are_alike(&self) -> bool
        ensures { result ≡ true → self.now.drafts ≡ self.now.submitted }
    {
        matches!(self.difference, Difference::Nothing)
    }

    /// Whether the draft list has an entry for the package. It takes no memory.
    pub fn has_draft(&self, package: &Package) -> bool
        requires { IsKept (length «package».now) self.now.drafts }
        ensures { result ≡ has_entry «package».now self.now.drafts }
    {
        has_entry(&self.drafts, package)
    }

    /// Sets the amount for the package in the draft list. If memory runs out, the lists stay as they are.
    pub fn put(&mut self, package: &Package, amount: u64) -> Result<(), AllocError>
        requires { IsKept (length «package».now) self.old.drafts }
        ensures put { OnOk result
            (self.new ≡ lists_with (with_entry «package».now amount self.old.drafts) self.old.submitted) }
        ensures unchanged { OnErr result (self.new ≡ self.old) }
    {
        let place = put_entry(&mut self.drafts, package, amount)?;
        self.difference = with_amount(self.difference, place);
        Ok(())
    }

    /// Takes the entry for the package out of the draft list. It takes no memory.
    pub fn remove(&mut self, package: &Package)
        requires { IsKept (length «package».now) self.old.drafts }
        ensures { self.new ≡ lists_with (without_entry «package».now self.old.drafts) self.old.submitted }
    {
        if let Position::Taken(place) = slot_of(&self.drafts, package) {
            let _ = self.drafts.remove(place);
            self.difference = Difference::Anything;
        }
    }

    /// The draft list becomes the submitted list. If memory runs out, the lists stay as they are, and lists that are known to be
    /// alike need none.
    pub fn submit(&mut self) -> Result<(), AllocError>
        ensures submitted { OnOk result (self.new ≡ lists_with self.old.drafts self.old.drafts) }
        ensures unchanged { OnErr result (self.new ≡ self.old) }
    {
        match self.difference {
            Difference::Nothing => {}
            Difference::AmountAt(place) => self.submit_amount(place),
            Difference::Anything => self.submit_all()?,
        }
        Ok(())
    }

    /// Copies the amount of the draft at the place, the only difference of the lists, to the submitted entry.
    fn submit_amount(&mut self, place: usize)
        requires { IsSameButAt place self.old.drafts self.old.submitted }
        ensures { self.new ≡ lists_with self.old.drafts self.old.drafts }
    {
        self.submitted[place].amount = self.drafts[place].amount;
        self.difference = Difference::Nothing;
    }

    /// All drafts become the submitted list.
    fn submit_all(&mut self) -> Result<(), AllocError>
        ensures submitted { OnOk result (self.new ≡ lists_with self.old.drafts self.old.drafts) }
        ensures unchanged { OnErr result (self.new ≡ self.old) }
    {
        copy_entries(&self.drafts, &mut self.spare)?;
        mem::swap(&mut self.submitted, &mut self.spare);
        self.difference = Difference::Nothing;
        Ok(())
    }
}

/// The difference of two lists once the amount at the place is set in the first, or once another entry is put in.
fn with_amount(difference: Difference, place: Option<usize>) -> Difference
    ensures { (old new others : List BookBid) → Differs difference old others
        → ((at : ℕ) → place ≡ Some at → (amount : ℕ) × SetsAmount old at amount new) → Differs result new others }
{
    match (difference, place) {
        (Difference::Nothing, Some(place)) => Difference::AmountAt(place),
        (Difference::AmountAt(at), Some(place)) if at == place => Difference::AmountAt(at),
        _ => Difference::Anything,
    }
}

/// The lists of that many bidders, all empty.
pub fn empty_lists(alloc: Global, bidders: usize) -> Result<Vec<BidderLists>, AllocError>
    ensures { IfOk result (λ v. v.items ≡ replicate bidders (lists_with [] [])) }
{
    let mut lists = Vec::with_capacity(alloc, bidders)?;
    for _ in 0..bidders {
        lists.push(BidderLists::new(alloc))?;
    }
    Ok(lists)
}
