// The certificate with other lines, in pieces.
use crate::samples::{DAY_CRAMTON_CERT, day_cramton, edited};
use crate::streams::verdict_of;
use bid_book::BidBook;
use cert_check::Verdict;
use cert_stream::TextStop;
use std::alloc::{AllocError, Global};
use std::process::Abort;
use std::test::Fail;

// Asserts a checker's verdict on a text in pieces of seven bytes.
fn says(
    rt: &impl Abort,
    alloc: Global,
    book: &BidBook,
    text: &[u8],
    told: Result<Verdict, TextStop>,
) -> Result<(), AllocError> {
    assert_eq!(rt; verdict_of(alloc, book, text, 6)?, told);
    Ok(())
}

// Asserts it for the certificate with other lines instead of these bytes.
fn says_of_edit(
    rt: &impl Abort,
    alloc: Global,
    edit: (usize, usize, &str),
    told: Result<Verdict, TextStop>,
) -> Result<(), AllocError> {
    let (from, to, lines) = edit;
    let book = day_cramton(rt, alloc);
    let text = edited(alloc, DAY_CRAMTON_CERT, from, to, lines)?;
    says(rt, alloc, &book, &text, told)
}

// Which test and place fail first with these lines.
const FAILING: &[(usize, usize, &str, u8, u64)] = &[
    (58, 71, "t 0 20 14 33\n", 3, 7),
    (333, 349, "pay 16 16 0 0 0\n", 8, 2),
    (398, 411, "t 0 15 17 33\n", 9, 24),
];

#[test]
fn names_the_first_test_that_fails(rt: HostRuntime) -> Result<(), Fail> {
    for (from, to, lines, test, place) in FAILING {
        let told = Verdict::No {
            test: *test,
            place: *place,
        };
        says_of_edit(&rt, rt.alloc(), (*from, *to, lines), Ok(told))?;
    }
    Ok(())
}

#[test]
fn refuses_a_number_out_of_range(rt: HostRuntime) -> Result<(), Fail> {
    let line = "mult 1 1329227995784915872903807060280344576\n";
    let told = Err(TextStop::Range(364));
    says_of_edit(&rt, rt.alloc(), (364, 373, line), told)?;
    Ok(())
}
