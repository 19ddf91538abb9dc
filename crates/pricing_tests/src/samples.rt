// What several tests share: a book and its certificate, a placement's certificate, and texts with other lines.
use bid_book::{BidBook, read_book};
use cert_text::Shape;
use std::alloc::{AllocError, Global};
use std::process::Abort;

/// The example of Day and Cramton (2012): one lot of each of two categories, and five bidders; b1 and b2 win.
const DAY_CRAMTON: &str =
    "book 1\nsupply 1 1\nreserve 0 0\nbidder b1\nbid 1 0 28\nbidder b2\nbid 0 1 20\n\
    bidder b3\nbid 1 1 32\nbidder b4\nbid 1 0 14\nbidder b5\nbid 0 1 12\nend\n";

/// The book of this example.
pub(crate) fn day_cramton(rt: &impl Abort, alloc: Global) -> BidBook {
    let Ok(book) = read_book(alloc, DAY_CRAMTON.as_bytes()) else {
        panic!(rt; "this is a book");
    };
    book
}

/// Its certificate: 476 bytes. The last line has 4 of them.
pub(crate) const DAY_CRAMTON_CERT: &str = "cert 1\nden 1\nvalue 48\nchoice 1 1 0 0 0\ntable\n\
    t 0 20 28 48\nt 0 20 14 34\nt 0 12 14 32\nt 0 12 14 26\nt 0 12 0 12\nt 0 0 0 0\n\
    without 1\nchoice 0 1 0 1 0\ntable\n\
    t 0 20 14 34\nt 0 20 14 34\nt 0 12 14 32\nt 0 12 14 26\nt 0 12 0 12\nt 0 0 0 0\n\
    without 2\nchoice 1 0 0 0 1\ntable\n\
    t 0 12 28 40\nt 0 12 14 32\nt 0 12 14 32\nt 0 12 14 26\nt 0 12 0 12\nt 0 0 0 0\n\
    pay 17 15 0 0 0\nrows 1\nrow 1 2\nmult 1 3\nchoice 0 0 1 0 0\nlowered\n\
    t 0 15 17 32\nt 0 15 14 32\nt 0 12 14 32\nt 0 12 14 26\nt 0 12 0 12\nt 0 0 0 0\nend\n";

/// How many bidders and states this certificate is for.
pub(crate) const DAY_CRAMTON_SHAPE: Shape = Shape {
    bidders: 5,
    states: 4,
};

/// A certificate for three bidders in a band of four slots: the first has two slots and 10 for slot 1, the second one slot and 8 for slot
/// 4, the third one slot and 12 for slot 2. The first two win, and pay together what the third bids. It has 287 bytes.
pub(crate) const PLACE_CERT: &str =
    "pcert 1\nden 1\nvalue 18\norder 1 3 2\nchoice 1 1 0\ntable\nt 18 8 12 0 8 8 0 0\n\
    without 1\norder 2 3 1\nchoice 0 0 1\ntable\nt 12 8 12 0 8 8 0 0\n\
    without 2\norder 2 3 1\nchoice 0 0 1\ntable\nt 12 0 12 0 0 0 0 0\n\
    pay 7 5 0\nrows 1\nrow 1 2\nmult 1 3\norder 2 3 1\nchoice 0 0 1\nlowered\nt 12 5 12 0 5 5 0 0\nend\n";

/// A text with other lines instead of the bytes from the one place up to the other.
pub(crate) fn edited(
    alloc: Global,
    old: &str,
    from: usize,
    to: usize,
    lines: &str,
) -> Result<Vec<u8>, AllocError> {
    let bytes = old.as_bytes();
    let mut text = Vec::new(alloc);
    if from <= to && to <= bytes.len() {
        text.extend_from_slice(&bytes[..from])?;
        text.extend_from_slice(lines.as_bytes())?;
        text.extend_from_slice(&bytes[to..])?;
    }
    Ok(text)
}
