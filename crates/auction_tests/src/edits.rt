// Edits of bidders that the book doesn't have: a review has one reply to each, whatever it adds.
use crate::samples::{DAY_CRAMTON, book_of};
use edits_file::read_edits;
use review::Edit;

// Whether the edit adds this bid.
fn adds(edit: &Edit, j: u16, counts: &[u16], sum: u64) -> bool {
    match edit {
        Edit::Add {
            bidder,
            package,
            amount,
        } => *bidder == j && package.counts() == counts && *amount == sum,
        _ => false,
    }
}

#[test]
fn reads_the_edit_of_an_unknown_bidder(rt: HostRuntime) {
    let book = book_of(&rt, rt.alloc(), DAY_CRAMTON);
    let text = b"edits 1\nadd north 1 0 5\nend\n";
    let Ok(edits) = read_edits(rt.alloc(), text, &book) else {
        panic!(rt; "this is an edit");
    };
    let [edit] = edits.items() else {
        panic!(rt; "there is one");
    };
    assert!(rt; adds(edit, 0, &[1, 0], 5));
}

#[test]
fn reads_the_greatest_numbers(rt: HostRuntime) {
    let book = book_of(&rt, rt.alloc(), "book 1\nsupply 1\nreserve 0\nend\n");
    let text = b"edits 1\nadd b1 65535 1000000000000000000\nend\n";
    let Ok(edits) = read_edits(rt.alloc(), text, &book) else {
        panic!(rt; "this is an edit");
    };
    let [edit] = edits.items() else {
        panic!(rt; "there is one");
    };
    assert!(rt; adds(edit, 0, &[65535], 1_000_000_000_000_000_000));
}
