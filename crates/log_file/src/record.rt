// What a record states.
ghost use Rattle.std.specs.Prelude.{◌≡◌, ◌≢◌, ◌<◌, Some, true, false, length, codes, IfNone, IfSome};
ghost use Rattle.csv.specs.Records.{field_at, fields_of};
ghost use Rattle.log_file.specs.LogForm.{ReadsAs, four};

use crate::fields::{read_amount, read_bidder, read_package};
use auction_rules::Event;
use award_file::Award;
use csv::ByteRecord;

/// The four fields of a record.
#[derive(Clone, Copy)]
struct Fields<'a> {
    kind: &'a [u8],
    bidder: &'a [u8],
    lots: &'a [u8],
    amount: &'a [u8],
}

/// The event that a record states, and None if it states none. It takes no memory.
pub fn read_event(award: &Award, row: &ByteRecord) -> Option<Event>
    ensures { ReadsAs award.now (fields_of row.now) result }
{
    match four_fields(row) {
        Some(fields) => event_of(award, fields),
        None => None,
    }
}

/// The fields of a record, if there are four.
fn four_fields(row: &ByteRecord) -> Option<Fields<'_>>
    ensures found { IfSome result (λ f. fields_of row.now ≡ four f.kind.now f.bidder.now f.lots.now f.amount.now) }
    ensures none { IfNone result (length (fields_of row.now) ≢ 4) }
{
    if row.len() != 4 {
        return None;
    }
    Some(Fields {
        kind: field(row, 0),
        bidder: field(row, 1),
        lots: field(row, 2),
        amount: field(row, 3),
    })
}

/// A field of a record, counted from 0.
fn field(row: &ByteRecord, i: usize) -> &[u8]
    requires { i < length (fields_of row.now) }
    ensures { field_at (fields_of row.now) i ≡ Some result.now }
{
    row.get(i).unwrap()
}

/// What these fields state.
fn event_of(award: &Award, fields: Fields<'_>) -> Option<Event>
    ensures { ReadsAs award.now
        (four fields.entry.kind.now fields.entry.bidder.now fields.entry.lots.now fields.entry.amount.now)
        result }
{
    if is_word(fields.kind, b"bid") {
        return bid_of(award, fields.bidder, fields.lots, fields.amount);
    }
    if is_word(fields.kind, b"draft") {
        return draft_of(award, fields.bidder, fields.lots, fields.amount);
    }
    if is_word(fields.kind, b"drop") {
        return drop_of(award, fields.bidder, fields.lots, fields.amount);
    }
    if is_word(fields.kind, b"submit") {
        return submit_of(award, fields.bidder, fields.lots, fields.amount);
    }
    if is_word(fields.kind, b"close") {
        return close_of(award, fields.bidder, fields.lots, fields.amount);
    }
    None
}

/// Whether a field is this word.
fn is_word(field: &[u8], word: &[u8]) -> bool
    ensures same { result ≡ true → field.now ≡ word.now }
    ensures other { result ≡ false → field.now ≢ word.now }
{
    field == word
}

/// The clock bid that these fields state.
fn bid_of(award: &Award, bidder: &[u8], lots: &[u8], amount: &[u8]) -> Option<Event>
    ensures { ReadsAs award.now (four (codes "bid") bidder.now lots.now amount.now) result }
{
    if !amount.is_empty() {
        return None;
    }
    let Some(bidder) = read_bidder(award, bidder) else {
        return None;
    };
    match read_package(award, lots) {
        Some(package) => Some(Event::Bid { bidder, package }),
        None => None,
    }
}

/// The draft that these fields state.
fn draft_of(award: &Award, bidder: &[u8], lots: &[u8], amount: &[u8]) -> Option<Event>
    ensures { ReadsAs award.now (four (codes "draft") bidder.now lots.now amount.now)
        result }
{
    let Some(number) = read_amount(amount) else {
        return None;
    };
    let Some(bidder) = read_bidder(award, bidder) else {
        return None;
    };
    match read_package(award, lots) {
        Some(package) => Some(Event::Draft {
            bidder,
            package,
            amount: number,
        }),
        None => None,
    }
}

/// The drop that these fields state.
fn drop_of(award: &Award, bidder: &[u8], lots: &[u8], amount: &[u8]) -> Option<Event>
    ensures { ReadsAs award.now (four (codes "drop") bidder.now lots.now amount.now)
        result }
{
    if !amount.is_empty() {
        return None;
    }
    let Some(bidder) = read_bidder(award, bidder) else {
        return None;
    };
    match read_package(award, lots) {
        Some(package) => Some(Event::Drop { bidder, package }),
        None => None,
    }
}

/// The submission that these fields state.
fn submit_of(award: &Award, bidder: &[u8], lots: &[u8], amount: &[u8]) -> Option<Event>
    ensures { ReadsAs award.now (four (codes "submit") bidder.now lots.now amount.now)
        result }
{
    if !lots.is_empty() || !amount.is_empty() {
        return None;
    }
    match read_bidder(award, bidder) {
        Some(bidder) => Some(Event::Submit { bidder }),
        None => None,
    }
}

/// The close that these fields state.
fn close_of(award: &Award, bidder: &[u8], lots: &[u8], amount: &[u8]) -> Option<Event>
    ensures { ReadsAs award.now (four (codes "close") bidder.now lots.now amount.now)
        result }
{
    if !bidder.is_empty() || !lots.is_empty() || !amount.is_empty() {
        return None;
    }
    Some(Event::Close)
}
