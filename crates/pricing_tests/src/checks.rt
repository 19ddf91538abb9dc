// The checker of a certificate in memory.
use crate::samples::{DAY_CRAMTON_CERT, day_cramton, edited};
use bid_book::BidBook;
use cert_check::{Verdict, check};
use cert_text::{Shape, read_cert};
use std::alloc::{AllocError, Global};
use std::test::Fail;

/// The checker's verdict on the certificate in the text, if all bidders weigh 1, and `None` if the text has no certificate.
fn verdict_of(alloc: Global, book: &BidBook, text: &[u8]) -> Result<Option<Verdict>, AllocError> {
    let weights = vec![in alloc; 1u32; book.bidders()]?;
    match read_cert(alloc, text, Shape::of(book)) {
        Ok(cert) => Ok(Some(check(book, &cert, &weights))),
        Err(_) => Ok(None),
    }
}

#[test]
fn says_yes_to_a_certificate_that_pricing_writes(rt: HostRuntime) -> Result<(), Fail> {
    let book = day_cramton(&rt, rt.alloc());
    let verdict = verdict_of(rt.alloc(), &book, DAY_CRAMTON_CERT.as_bytes())?;
    assert_eq!(rt; verdict, Some(Verdict::Yes));
    Ok(())
}

/// Other lines instead of these bytes, and the first test that fails with them, at its first place: the part without the second winner has
/// less than its choice is worth; the payments are a core point of the least sum that isn't nearest to the Vickrey prices.
const FAILING: &[(usize, usize, &str, u8, u64)] = &[
    (259, 272, "t 0 12 28 39\n", 4, 2),
    (333, 349, "pay 16 16 0 0 0\n", 8, 2),
];

#[test]
fn names_the_first_place_of_the_first_test_that_fails(rt: HostRuntime) -> Result<(), Fail> {
    let book = day_cramton(&rt, rt.alloc());
    for (from, to, lines, test, place) in FAILING {
        let text = edited(rt.alloc(), DAY_CRAMTON_CERT, *from, *to, lines)?;
        let verdict = verdict_of(rt.alloc(), &book, &text)?;
        let expected = Verdict::No {
            test: *test,
            place: *place,
        };
        assert_eq!(rt; verdict, Some(expected));
    }
    Ok(())
}
