// What the reader takes.
use crate::samples::book_of;
use weights_file::read_weights;

/// Two bidders.
const BOOK: &str = "book 1\nsupply 2\nreserve 0\nbidder east\nbid 1 5\nbidder west_2\nend\n";

#[test]
fn reads_one_weight_for_each_bidder(rt: HostRuntime) {
    let book = book_of(&rt, rt.alloc(), BOOK);
    let text = b"weights 1\nweight east 1\nweight west_2 20\nend\n";
    let Ok(weights) = read_weights(rt.alloc(), text, &book) else {
        panic!(rt; "these are weights");
    };
    assert!(rt; weights.items() == [1u32, 20].as_slice());
}
