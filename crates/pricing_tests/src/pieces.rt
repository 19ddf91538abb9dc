ghost use Rattle.std.specs.Prelude.{◌≡◌, length};
ghost use Rattle.cert_stream.specs.Rooms.{room_size};

use crate::samples::{DAY_CRAMTON_CERT, DAY_CRAMTON_SHAPE};
use cert_stream::{Reader, TextStop, room_len};
use cert_text::{CertStop, Shape, read_cert};
use limits::CERT_BYTES;
use std::alloc::{AllocError, Global};
use std::process::Abort;

/// The sample before its first table.
const BEFORE_TABLE: &str = "cert 1\nden 1\nvalue 48\nchoice 1 1 0 0 0\ntable\n";

/// One bidder more than a text of the first version may have.
const THIRTEEN: Shape = Shape {
    bidders: 13,
    states: 1,
};

// A reader's result for a text in pieces of that many bytes after the first one, as far as a file may go.
fn in_pieces(
    alloc: Global,
    shape: Shape,
    text: &[u8],
    more: u16,
) -> Result<Result<(), TextStop>, AllocError> {
    let mut room = vec![in alloc; 0i128; room_len(shape)]?;
    Ok(in_room(&mut room, shape, text, more))
}

// Reads the text in pieces, in a room.
fn in_room(room: &mut [i128], shape: Shape, text: &[u8], more: u16) -> Result<(), TextStop>
    requires { length room.old ≡ room_size shape.bidders shape.states }
{
    let mut reader = Reader::start(shape);
    let most = text.len().min(CERT_BYTES as usize);
    let mut at = 0;
    while at < most {
        let end = most.min(at + 1 + more as usize);
        reader.feed(room, &text[at..end]);
        at = end;
    }
    reader.finish()
}

// What the reader of whole texts says.
fn at_once(alloc: Global, shape: Shape, text: &[u8]) -> Result<Result<(), TextStop>, AllocError> {
    match read_cert(alloc, text, shape) {
        Ok(_) => Ok(Ok(())),
        Err(CertStop::Form(place)) => Ok(Err(TextStop::Form(place))),
        Err(CertStop::Range(place)) => Ok(Err(TextStop::Range(place))),
        Err(CertStop::Memory) => Err(AllocError),
    }
}

// Asserts that both readers say this of a text.
fn says(
    rt: &impl Abort,
    alloc: Global,
    shape: Shape,
    text: &[u8],
    more: u16,
    told: Result<(), TextStop>,
) -> Result<(), AllocError> {
    assert_eq!(rt; in_pieces(alloc, shape, text, more)?, told);
    assert_eq!(rt; at_once(alloc, shape, text)?, told);
    Ok(())
}

// Asserts the stop in a table that begins with this line, in short and in long pieces.
fn table_says(
    rt: &impl Abort,
    alloc: Global,
    line: &str,
    stop: TextStop,
) -> Result<(), AllocError> {
    let text = format!(in alloc; "{}{line}", BEFORE_TABLE)?;
    says(rt, alloc, DAY_CRAMTON_SHAPE, text.as_bytes(), 5, Err(stop))?;
    says(rt, alloc, DAY_CRAMTON_SHAPE, text.as_bytes(), 99, Err(stop))
}

#[test]
fn reads_a_certificate_in_pieces(rt: HostRuntime) -> Result<(), AllocError> {
    for more in [0u16, 6, 475] {
        says(
            &rt,
            rt.alloc(),
            DAY_CRAMTON_SHAPE,
            DAY_CRAMTON_CERT.as_bytes(),
            more,
            Ok(()),
        )?;
    }
    Ok(())
}

#[test]
fn tells_the_line_that_holds_the_cut(rt: HostRuntime) -> Result<(), AllocError> {
    let cuts = [
        (0usize, 0u64),
        (6, 0),
        (7, 7),
        (20, 13),
        (38, 22),
        (472, 472),
        (475, 472),
    ];
    for (len, place) in cuts {
        let front = &DAY_CRAMTON_CERT.as_bytes()[..len];
        says(
            &rt,
            rt.alloc(),
            DAY_CRAMTON_SHAPE,
            front,
            7,
            Err(TextStop::Form(place)),
        )?;
    }
    Ok(())
}

#[test]
fn tells_a_form_from_a_range(rt: HostRuntime) -> Result<(), AllocError> {
    let cases: &[(&str, TextStop)] = &[
        (
            "cert 1\nden 1329227995784915872903807060280344576\n",
            TextStop::Range(7),
        ),
        (
            "cert 1\nden 1329227995784915872903807060280344576x\n",
            TextStop::Form(7),
        ),
        ("cert 1\nden -0\n", TextStop::Form(7)),
        ("cert 1\nden 01\n", TextStop::Form(7)),
        ("cert 2\nlimits 16 16384\n", TextStop::Form(0)),
    ];
    for (text, stop) in cases {
        says(
            &rt,
            rt.alloc(),
            DAY_CRAMTON_SHAPE,
            text.as_bytes(),
            5,
            Err(*stop),
        )?;
    }
    Ok(())
}

#[test]
fn reads_the_head_of_the_second_version(rt: HostRuntime) -> Result<(), AllocError> {
    let cases: &[(&str, TextStop)] = &[
        ("cert 2\nlimits 16 16384\nden 1\n", TextStop::Form(29)),
        ("cert 2\nlimits 16 16385\nden 1\n", TextStop::Form(7)),
        ("cert 1\nden 1\n", TextStop::Form(0)),
    ];
    for (text, stop) in cases {
        says(&rt, rt.alloc(), THIRTEEN, text.as_bytes(), 3, Err(*stop))?;
    }
    Ok(())
}

#[test]
fn reads_each_field_of_a_table(rt: HostRuntime) -> Result<(), AllocError> {
    let cases: &[(&str, TextStop)] = &[
        ("t 0 020 28 48\n", TextStop::Form(45)),
        ("t 0 20 28 48 1\n", TextStop::Form(45)),
        ("t 0 20  28 48\n", TextStop::Form(45)),
        ("t 0 -5 0 48\nx", TextStop::Form(57)),
        ("t 0 1234567890123456789 28 48\nx", TextStop::Form(75)),
        ("t 0 12345678901234567890 28 48\nx", TextStop::Form(76)),
        (
            "t 0 1329227995784915872903807060280344576 28 48\n",
            TextStop::Range(45),
        ),
    ];
    for (line, stop) in cases {
        table_says(&rt, rt.alloc(), line, *stop)?;
    }
    Ok(())
}
