use line_format::{
    NumbersStop, add_numbers, add_signed_numbers, field_len, numbers_after, read_at_most,
};
use std::alloc::{AllocError, Global};
use std::process::Abort;
use std::test::Fail;
use wide_num::Text;

/// Adds the word "t" and four numbers.
fn add_line(text: &mut Text) -> Result<(), AllocError> {
    text.add(b"t")?;
    add_signed_numbers(text, &[-7, 0, 0, 120])
}

/// Whether a number after the word "t" of this line is out of range, or why they aren't read.
fn read_line(alloc: Global, line: &[u8]) -> Result<bool, NumbersStop> {
    let mut numbers = Vec::new(alloc);
    numbers_after(line, b"t", &mut numbers)
}

/// Asserts which numbers follow the word "t" of this line.
fn has_numbers(rt: &impl Abort, alloc: Global, line: &[u8], numbers: &[i128]) {
    let mut read = Vec::new(alloc);
    if numbers_after(line, b"t", &mut read) != Ok(false) {
        panic!(rt; "numbers in the range");
    }
    assert!(rt; read.as_slice() == numbers);
}

#[test]
fn reads_back_the_numbers_that_it_wrote(rt: HostRuntime) -> Result<(), Fail> {
    let mut text = Text::new(rt.alloc());
    add_line(&mut text)?;
    assert!(rt; text.items() == b"t -7 0 0 120".as_slice());
    has_numbers(&rt, rt.alloc(), text.items(), &[-7, 0, 0, 120]);
    Ok(())
}

#[test]
fn tells_a_number_out_of_range_from_no_number(rt: HostRuntime) {
    let cases: &[(&str, Result<bool, NumbersStop>)] = &[
        ("t", Ok(false)),
        ("t 1329227995784915872903807060280344575", Ok(false)),
        ("t 1329227995784915872903807060280344576", Ok(true)),
        ("t 1 -1329227995784915872903807060280344576 2", Ok(true)),
        (
            "t 100000000000000000000000000000000000000000000000000000000000000000000",
            Ok(true),
        ),
        ("t 01", Err(NumbersStop::Form)),
        ("t -0", Err(NumbersStop::Form)),
        ("t  1", Err(NumbersStop::Form)),
        ("t 1 ", Err(NumbersStop::Form)),
        ("u 1", Err(NumbersStop::Form)),
    ];
    for (line, told) in cases {
        let read = read_line(rt.alloc(), line.as_bytes());
        assert_eq!(rt; read, *told, "{line}");
    }
}

#[test]
fn reads_a_field_up_to_a_limit(rt: HostRuntime) {
    assert_eq!(rt; field_len(b"12 3"), 2);
    assert_eq!(rt; field_len(b"12"), 2);
    assert_eq!(rt; read_at_most(b"999", 999), Some(999));
    assert_eq!(rt; read_at_most(b"1000", 999), None);
    assert_eq!(rt; read_at_most(b"09", 999), None);
    assert_eq!(rt; read_at_most(b"", 999), None);
}

#[test]
fn writes_numbers_after_one_space_each(rt: HostRuntime) -> Result<(), Fail> {
    let mut text = Text::new(rt.alloc());
    add_numbers(&mut text, &[0, 12, 65535])?;
    assert!(rt; text.items() == b" 0 12 65535".as_slice());
    Ok(())
}
