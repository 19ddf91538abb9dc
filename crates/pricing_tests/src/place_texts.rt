use crate::samples::{PLACE_CERT, edited};
use choices::Grid;
use placement_cert::{
    CertStop, PlaceCertificate, PlaceRow, PlaceWithout, read_places, write_places,
};
use std::alloc::{AllocError, Global};
use std::process::Abort;
use std::test::Fail;

// Where the reader stops at the sample with other lines instead of these bytes, if it stops.
fn stop_at(
    alloc: Global,
    from: usize,
    to: usize,
    lines: &str,
) -> Result<Option<CertStop>, AllocError> {
    let text = edited(alloc, PLACE_CERT, from, to, lines)?;
    Ok(read_places(alloc, text.as_slice(), 3).err())
}

// Asserts where the reader stops at each of these edited texts.
fn stops_at(
    rt: &impl Abort,
    alloc: Global,
    faulty: &[(usize, usize, &str, CertStop)],
) -> Result<(), AllocError> {
    for (from, to, lines, stop) in faulty {
        assert_eq!(rt;
            stop_at(alloc, *from, *to, lines)?,
            Some(*stop),
            "{from} {lines}"
        );
    }
    Ok(())
}

// The certificate of the sample.
fn sample(rt: &impl Abort, alloc: Global) -> PlaceCertificate {
    let Ok(cert) = read_places(alloc, PLACE_CERT.as_bytes(), 3) else {
        panic!(rt; "this is a certificate");
    };
    cert
}

// Asserts the content of a part without a winner.
fn part_is(rt: &impl Abort, part: &PlaceWithout, winner: u16, entries: &[i128; 8]) {
    assert_eq!(rt; part.winner, winner);
    assert!(rt; part.choice.numbers() == [0, 0, 1].as_slice());
    assert!(rt; part.order.items() == [2, 3, 1].as_slice());
    is_table(rt, &part.table, entries);
}

// Asserts the only line of a table.
fn is_table(rt: &impl Abort, table: &Grid, entries: &[i128; 8]) {
    assert_eq!(rt; table.lines(), 1);
    assert_eq!(rt; table.width(), 8);
    let mut line = [0i128; 8];
    table.put_part(0, 0, &mut line);
    assert!(rt; line == *entries);
}

// Asserts the content of the sample's row.
fn row_is(rt: &impl Abort, row: &PlaceRow) {
    assert!(rt; row.members.items() == [1, 2].as_slice());
    assert_eq!(rt; (row.first, row.second), (1, 3));
    assert!(rt; row.order.items() == [2, 3, 1].as_slice());
    assert!(rt; row.choice.numbers() == [0, 0, 1].as_slice());
}

// Asserts what the sample states before its parts and rows.
fn states_the_prices(rt: &impl Abort, cert: &PlaceCertificate) {
    assert_eq!(rt; (cert.den, cert.value), (1, 18));
    assert!(rt; cert.order.items() == [1, 3, 2].as_slice());
    assert!(rt; cert.choice.numbers() == [1, 1, 0].as_slice());
    assert!(rt; cert.pay.items() == [7i128, 5, 0].as_slice());
}

// Asserts the parts of the sample, and its row.
fn has_its_parts(rt: &impl Abort, cert: &PlaceCertificate) {
    let [first, second] = cert.withouts.items() else {
        panic!(rt; "two win");
    };
    part_is(rt, first, 1, &[12, 8, 12, 0, 8, 8, 0, 0]);
    part_is(rt, second, 2, &[12, 0, 12, 0, 0, 0, 0, 0]);
    let [row] = cert.rows.items() else {
        panic!(rt; "there is one row");
    };
    row_is(rt, row);
}

// Asserts that a certificate has the text of the sample.
fn is_written(rt: &impl Abort, alloc: Global, cert: &PlaceCertificate) -> Result<(), AllocError> {
    let written = write_places(alloc, cert)?;
    assert!(rt; written.items() == PLACE_CERT.as_bytes());
    Ok(())
}

#[test]
fn tells_what_a_certificate_holds(rt: HostRuntime) {
    assert_eq!(rt; PLACE_CERT.len(), 287);
    let cert = sample(&rt, rt.alloc());
    states_the_prices(&rt, &cert);
    has_its_parts(&rt, &cert);
}

#[test]
fn writes_back_what_was_read(rt: HostRuntime) -> Result<(), AllocError> {
    let cert = sample(&rt, rt.alloc());
    is_written(&rt, rt.alloc(), &cert)
}

#[test]
fn names_the_first_line_out_of_range(rt: HostRuntime) -> Result<(), Fail> {
    let faulty = [
        (
            14,
            23,
            "value 1329227995784915872903807060280344576\n",
            CertStop::Range(14),
        ),
        (
            54,
            74,
            "t 18 8 12 0 8 8 0 -1329227995784915872903807060280344576\n",
            CertStop::Range(54),
        ),
        (
            54,
            74,
            "t 18 8 12 0 8 8 1329227995784915872903807060280344576\n",
            CertStop::Form(54),
        ),
        (
            263,
            283,
            "t 12 5 12 0 5 5 0 1329227995784915872903807060280344576\n",
            CertStop::Range(263),
        ),
    ];
    stops_at(&rt, rt.alloc(), &faulty)?;
    Ok(())
}
