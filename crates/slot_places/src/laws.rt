// What is true for all slots.
ghost use Rattle.std.specs.Prelude.{◌≡◌, ℕ, ◌<◌, ◌^◌, IsTrue, List, length};
ghost use Rattle.auction_model.specs.Lawful.{IsMarket};
ghost use Rattle.slot_places.specs.Slots.{SlotList};
ghost use Rattle.slot_places.specs.Board.{market_of_slots};
ghost use Rattle.slot_places.specs.Orders.{allows};
ghost use Rattle.line_format.specs.LineText.{Said, Says, stated};
ghost use Rattle.book_grammar.specs.BookLines.{Excess};
ghost use Rattle.slot_places.specs.SlotForm.{IsSlotText, slot_lines};

/// Slots are a market: it is allowed that nobody wins, and an allowed choice stays allowed when a bidder leaves it, which is then
/// placed without a bid.
pub fn slot_market()
    ensures { (slots : SlotList) → length slots.bidders < 2 ^ 16 → IsMarket (market_of_slots slots) }
{}

/// A choice is allowed exactly if some order of all bidders allows it.
pub fn slot_orders()
    ensures some { (slots : SlotList) (c : List ℕ) → IsTrue ((market_of_slots slots).allowed c)
        → (order : List ℕ) × IsTrue (allows slots order c) }
    ensures allowed { (slots : SlotList) (c order : List ℕ) → IsTrue (allows slots order c)
        → IsTrue ((market_of_slots slots).allowed c) }
{}

/// Bytes say one thing of slots: slots, where the first faulty line begins, or what exceeds its limit first. So each answer of
/// `read_slots` comes exactly if the bytes say so. And slots within the limits have one text.
pub fn one_slots()
    ensures one { (bytes : List ℕ) (x y : Said SlotList Excess) → Says IsSlotText slot_lines bytes x
        → Says IsSlotText slot_lines bytes y → x ≡ y }
    ensures text { (bytes other : List ℕ) (slots : SlotList) → Says IsSlotText slot_lines bytes (stated slots)
        → Says IsSlotText slot_lines other (stated slots) → bytes ≡ other }
{}

/// Bytes always say something of slots, whatever they are.
pub fn some_slots()
    ensures { (bytes : List ℕ) → (said : Said SlotList Excess) × Says IsSlotText slot_lines bytes said }
{}
