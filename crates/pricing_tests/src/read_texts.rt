use crate::samples::{DAY_CRAMTON_CERT, DAY_CRAMTON_SHAPE};
use cert_text::{CertRow, CertStop, Certificate, Shape, read_cert, write_cert};
use choices::Grid;
use std::alloc::{AllocError, Global};
use std::process::Abort;
use std::test::Fail;

/// Two bidders, one state.
const TWO: Shape = Shape {
    bidders: 2,
    states: 1,
};

/// A certificate for two bidders and one state, of whom the first wins, up to the part without it: 89 bytes.
const PARTS: &str = "cert 1\nden 1\nvalue 0\nchoice 1 0\ntable\nt 0\nt 0\nt 0\n\
    without 1\nchoice 0 0\ntable\nt 0\nt 0\nt 0\n";

/// The certificate up to the count of one row: 104 bytes.
const COUNT: &str = "cert 1\nden 1\nvalue 0\nchoice 1 0\ntable\nt 0\nt 0\nt 0\n\
    without 1\nchoice 0 0\ntable\nt 0\nt 0\nt 0\npay 0 0\nrows 1\n";

/// A certificate for thirteen bidders, of whom nobody wins, and one state.
const SECOND: &str =
    "cert 2\nlimits 16 16384\nden 1\nvalue 0\nchoice 0 0 0 0 0 0 0 0 0 0 0 0 0\ntable\n\
    t 0\nt 0\nt 0\nt 0\nt 0\nt 0\nt 0\nt 0\nt 0\nt 0\nt 0\nt 0\nt 0\nt 0\n\
    pay 0 0 0 0 0 0 0 0 0 0 0 0 0\nrows 0\nlowered\n\
    t 0\nt 0\nt 0\nt 0\nt 0\nt 0\nt 0\nt 0\nt 0\nt 0\nt 0\nt 0\nt 0\nt 0\nend\n";

/// A certificate for four bidders and eight states, over the denominator 3.
const THIRDS: &str = "cert 1\nden 3\nvalue 30\nchoice 1 1 1 0\ntable\nt 0 10 10 20 10 20 20 30\n\
    t 0 10 10 20 0 10 10 20\nt 0 10 0 10 0 10 0 11\nt 0 0 0 0 0 0 0 11\nt 0 0 0 0 0 0 0 0\n\
    without 1\nchoice 0 1 1 0\ntable\nt 0 10 10 20 0 10 10 20\nt 0 10 10 20 0 10 10 20\n\
    t 0 10 0 10 0 10 0 11\nt 0 0 0 0 0 0 0 11\nt 0 0 0 0 0 0 0 0\nwithout 2\nchoice 1 0 1 0\n\
    table\nt 0 10 0 10 10 20 10 20\nt 0 10 0 10 0 10 0 11\nt 0 10 0 10 0 10 0 11\n\
    t 0 0 0 0 0 0 0 11\nt 0 0 0 0 0 0 0 0\nwithout 3\nchoice 1 1 0 0\ntable\n\
    t 0 0 10 10 10 10 20 20\nt 0 0 10 10 0 0 10 11\nt 0 0 0 0 0 0 0 11\nt 0 0 0 0 0 0 0 11\n\
    t 0 0 0 0 0 0 0 0\npay 11 11 11 0\nrows 1\nrow 1 2 3\nmult 3 11\nchoice 0 0 0 1\nlowered\n\
    t 0 11 11 22 11 22 22 33\nt 0 11 11 22 0 11 11 33\nt 0 11 0 11 0 11 0 33\n\
    t 0 0 0 0 0 0 0 33\nt 0 0 0 0 0 0 0 0\nend\n";

/// A certificate for five bidders and eight states. It has three rows, and a second multiplier below 0.
const THREE_ROWS: &str =
    "cert 1\nden 1\nvalue 30\nchoice 1 1 1 0 0\ntable\nt 0 10 10 20 10 20 20 30\n\
    t 0 10 10 20 0 10 10 20\nt 0 10 0 10 0 10 8 18\nt 0 0 0 8 0 0 8 8\nt 0 0 0 8 0 0 0 8\n\
    t 0 0 0 0 0 0 0 0\nwithout 1\nchoice 0 1 1 0 0\ntable\nt 0 10 10 20 0 10 10 20\n\
    t 0 10 10 20 0 10 10 20\nt 0 10 0 10 0 10 8 18\nt 0 0 0 8 0 0 8 8\nt 0 0 0 8 0 0 0 8\n\
    t 0 0 0 0 0 0 0 0\nwithout 2\nchoice 1 0 1 0 0\ntable\nt 0 10 0 10 10 20 10 20\n\
    t 0 10 0 10 0 10 8 18\nt 0 10 0 10 0 10 8 18\nt 0 0 0 8 0 0 8 8\nt 0 0 0 8 0 0 0 8\n\
    t 0 0 0 0 0 0 0 0\nwithout 3\nchoice 1 1 0 0 0\ntable\nt 0 0 10 10 10 10 20 20\n\
    t 0 0 10 10 0 0 10 10\nt 0 0 0 8 0 0 8 8\nt 0 0 0 8 0 0 8 8\nt 0 0 0 8 0 0 0 8\n\
    t 0 0 0 0 0 0 0 0\npay 0 8 0 0 0\n\
    rows 3\nrow 1 2\nmult 1 0\nchoice 0 0 1 1 0\nrow 2 3\nmult 0 8\nchoice 1 0 0 0 1\n\
    row 3\nmult 1 -8\nchoice 1 1 0 0 0\n\
    lowered\nt 0 0 8 8 0 0 8 8\nt 0 0 8 8 0 0 8 8\nt 0 0 0 8 0 0 8 8\nt 0 0 0 8 0 0 8 8\n\
    t 0 0 0 8 0 0 0 8\nt 0 0 0 0 0 0 0 0\nend\n";

// Where the reader stops at the text of both parts, if it stops.
fn stop_at(
    alloc: Global,
    shape: Shape,
    front: &str,
    rest: &str,
) -> Result<Option<CertStop>, AllocError> {
    let text = format!(in alloc; "{front}{rest}")?;
    Ok(read_cert(alloc, text.as_bytes(), shape).err())
}

// Asserts that a row is of these members, multipliers and choice.
fn row_is(
    rt: &impl Abort,
    row: &CertRow,
    members: &[u16],
    multipliers: (i128, i128),
    choice: &[u16],
) {
    assert!(rt; row.members.items() == members);
    assert_eq!(rt; (row.first, row.second), multipliers);
    assert!(rt; row.choice.numbers() == choice);
}

// The certificate of a text.
fn certificate_of(rt: &impl Abort, alloc: Global, text: &str, shape: Shape) -> Certificate {
    let Ok(cert) = read_cert(alloc, text.as_bytes(), shape) else {
        panic!(rt; "this is a certificate");
    };
    cert
}

// Asserts that a certificate has this text.
fn is_written(
    rt: &impl Abort,
    alloc: Global,
    cert: &Certificate,
    text: &str,
) -> Result<(), AllocError> {
    let written = write_cert(alloc, cert)?;
    assert!(rt; written.items() == text.as_bytes());
    Ok(())
}

// Asserts that what is read of a text has this text again.
fn is_written_back(
    rt: &impl Abort,
    alloc: Global,
    text: &str,
    shape: Shape,
) -> Result<(), AllocError> {
    let cert = certificate_of(rt, alloc, text, shape);
    is_written(rt, alloc, &cert, text)
}

// Asserts the denominator with the value, and what is paid.
fn pays(rt: &impl Abort, cert: &Certificate, head: (i128, i128), pay: &[i128]) {
    assert_eq!(rt; (cert.den, cert.value), head);
    assert!(rt; cert.pay.items() == pay);
}

// Asserts that there is one row, of these members, multipliers and choice.
fn has_one_row(
    rt: &impl Abort,
    cert: &Certificate,
    members: &[u16],
    multipliers: (i128, i128),
    choice: &[u16],
) {
    let [row] = cert.rows.items() else {
        panic!(rt; "there is one row");
    };
    row_is(rt, row, members, multipliers, choice);
}

// Asserts the size of the lowered table of the sample, and its first line.
fn is_lowered_table(rt: &impl Abort, table: &Grid) {
    assert_eq!(rt; table.lines(), 6);
    assert_eq!(rt; table.width(), 4);
    let mut line = [0i128; 4];
    table.put_part(0, 0, &mut line);
    assert!(rt; line == [0, 15, 17, 32]);
}

// Asserts the choice and the tables of the sample.
fn holds_the_sample(rt: &impl Abort, cert: &Certificate) {
    assert!(rt; cert.choice.numbers() == [1, 1, 0, 0, 0].as_slice());
    assert_eq!(rt; cert.withouts.items().len(), 2);
    is_lowered_table(rt, &cert.lowered);
}

#[test]
fn tells_what_a_certificate_holds(rt: HostRuntime) {
    assert_eq!(rt; DAY_CRAMTON_CERT.len(), 476);
    let cert = certificate_of(&rt, rt.alloc(), DAY_CRAMTON_CERT, DAY_CRAMTON_SHAPE);
    holds_the_sample(&rt, &cert);
    pays(&rt, &cert, (1, 48), &[17, 15, 0, 0, 0]);
    has_one_row(&rt, &cert, &[1, 2], (1, 3), &[0, 0, 1, 0, 0]);
}

#[test]
fn writes_back_what_was_read(rt: HostRuntime) -> Result<(), AllocError> {
    is_written_back(&rt, rt.alloc(), DAY_CRAMTON_CERT, DAY_CRAMTON_SHAPE)
}

/// The lines before a faulty one, it and those after it, and where it stops the reader. Only signed numbers have a range, and a
/// line with too many fields has no form.
const RANGES_AND_FORMS: [(&str, &str, CertStop); 7] = [
    (
        "",
        "cert 1\nden 1329227995784915872903807060280344576\n",
        CertStop::Range(7),
    ),
    (
        "",
        "cert 1\nden -1329227995784915872903807060280344576\n",
        CertStop::Range(7),
    ),
    (
        "",
        "cert 1\nden 1329227995784915872903807060280344576 1\n",
        CertStop::Form(7),
    ),
    (
        PARTS,
        "pay 0 0\nrows 1329227995784915872903807060280344576\n",
        CertStop::Form(97),
    ),
    (
        COUNT,
        "row 1329227995784915872903807060280344576\n",
        CertStop::Form(104),
    ),
    (
        COUNT,
        "row 1 2\nmult 1 1329227995784915872903807060280344576\n",
        CertStop::Range(112),
    ),
    (
        COUNT,
        "row 1 2\nmult 1 3\nchoice 1329227995784915872903807060280344576 0\n",
        CertStop::Form(121),
    ),
];

#[test]
fn tells_a_range_from_a_form(rt: HostRuntime) -> Result<(), Fail> {
    for (front, rest, stop) in RANGES_AND_FORMS {
        assert_eq!(rt;
            stop_at(rt.alloc(), TWO, front, rest)?,
            Some(stop),
            "{rest}"
        );
    }
    Ok(())
}

// No book has just one state more than the first version is for.
#[test]
fn tells_the_version_by_the_states(rt: HostRuntime) -> Result<(), Fail> {
    let shape = Shape {
        bidders: 12,
        states: 4097,
    };
    let front = "cert 2\nlimits 16 16384\nden 1\nvalue 0\n";
    assert_eq!(rt;
        stop_at(rt.alloc(), shape, front, "")?,
        Some(CertStop::Form(37))
    );
    Ok(())
}

#[test]
fn writes_back_a_text_of_the_second_version(rt: HostRuntime) -> Result<(), AllocError> {
    assert_eq!(rt; SECOND.len(), 237);
    let shape = Shape {
        bidders: 13,
        states: 1,
    };
    is_written_back(&rt, rt.alloc(), SECOND, shape)
}

// Asserts that three win, and what is chosen without the last.
fn has_three_parts(rt: &impl Abort, cert: &Certificate) {
    let [_, _, last] = cert.withouts.items() else {
        panic!(rt; "three win");
    };
    assert_eq!(rt; last.winner, 3);
    assert!(rt; last.choice.numbers() == [1, 1, 0, 0].as_slice());
}

// Asserts the three rows of five bidders.
fn has_three_rows(rt: &impl Abort, cert: &Certificate) {
    let [both, others, last] = cert.rows.items() else {
        panic!(rt; "there are three rows");
    };
    row_is(rt, both, &[1, 2], (1, 0), &[0, 0, 1, 1, 0]);
    row_is(rt, others, &[2, 3], (0, 8), &[1, 0, 0, 0, 1]);
    row_is(rt, last, &[3], (1, -8), &[1, 1, 0, 0, 0]);
}

#[test]
fn reads_and_writes_payments_over_3(rt: HostRuntime) -> Result<(), AllocError> {
    let shape = Shape {
        bidders: 4,
        states: 8,
    };
    let cert = certificate_of(&rt, rt.alloc(), THIRDS, shape);
    pays(&rt, &cert, (3, 30), &[11, 11, 11, 0]);
    has_one_row(&rt, &cert, &[1, 2, 3], (3, 11), &[0, 0, 0, 1]);
    has_three_parts(&rt, &cert);
    is_written(&rt, rt.alloc(), &cert, THIRDS)
}

#[test]
fn reads_and_writes_three_rows(rt: HostRuntime) -> Result<(), AllocError> {
    let shape = Shape {
        bidders: 5,
        states: 8,
    };
    let cert = certificate_of(&rt, rt.alloc(), THREE_ROWS, shape);
    pays(&rt, &cert, (1, 30), &[0, 8, 0, 0, 0]);
    has_three_rows(&rt, &cert);
    is_written(&rt, rt.alloc(), &cert, THREE_ROWS)
}
