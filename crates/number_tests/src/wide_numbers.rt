use std::alloc::{AllocError, Global};
use std::process::Abort;
use std::test::Fail;
use wide_num::{
    NumList, Op, Text, Wide, add, digits, div_exact, gcd, mul, read_natural, read_number, sub,
};

const HALF: i128 = 1 << 119;

/// Asserts what a calculation gives.
fn gives(rt: &impl Abort, got: Result<i128, Wide>, wanted: Result<i128, Wide>) {
    assert_eq!(rt; got, wanted);
}

fn too_wide(op: Op, left: i128, right: i128) -> Result<i128, Wide> {
    Err(Wide { op, left, right })
}

#[test]
fn sums_and_products(rt: HostRuntime) {
    gives(&rt, add(HALF - 1, HALF), Ok(2 * HALF - 1));
    gives(&rt, add(-HALF, -HALF), too_wide(Op::Add, -HALF, -HALF));
    gives(&rt, sub(3, 5), Ok(-2));
    gives(&rt, sub(-HALF, HALF), too_wide(Op::Sub, -HALF, HALF));
    gives(&rt, mul(HALF, 1), Ok(HALF));
    gives(&rt, mul(HALF, 2), too_wide(Op::Mul, HALF, 2));
    gives(&rt, mul(HALF, -HALF), too_wide(Op::Mul, HALF, -HALF));
}

#[test]
fn divisors(rt: HostRuntime) {
    assert_eq!(rt; gcd(12, -18), 6);
    assert_eq!(rt; gcd(0, -5), 5);
    assert_eq!(rt; gcd(0, 0), 0);
    assert_eq!(rt; div_exact(-18, 6), -3);
    assert_eq!(rt; div_exact(0, -7), 0);
}

/// Whether a number is written so.
fn is_spelled(alloc: Global, number: i128, spelling: &str) -> Result<bool, AllocError> {
    let text = digits(alloc, number)?;
    Ok(text.items() == spelling.as_bytes())
}

#[test]
fn spellings(rt: HostRuntime) -> Result<(), Fail> {
    let table: [(i128, &str); 5] = [
        (0, "0"),
        (-1, "-1"),
        (1_000_000, "1000000"),
        (2 * (HALF - 1) + 1, "1329227995784915872903807060280344575"),
        (
            -2 * (HALF - 1) - 1,
            "-1329227995784915872903807060280344575",
        ),
    ];
    for (n, spelling) in table {
        assert!(rt; is_spelled(rt.alloc(), n, spelling)?, "{spelling}");
        assert_eq!(rt; read_number(spelling.as_bytes()), Some(n), "{spelling}");
    }
    Ok(())
}

#[test]
fn no_spellings(rt: HostRuntime) {
    let table = [
        "",
        "-",
        "-0",
        "00",
        "007",
        "-01",
        "+1",
        "1 ",
        "--1",
        "1329227995784915872903807060280344576",
        "-1329227995784915872903807060280344576",
        "99999999999999999999999999999999999999999999999999999999999999999999999",
    ];
    for text in table {
        assert_eq!(rt; read_number(text.as_bytes()), None, "{text}");
        assert_eq!(rt; read_natural(text.as_bytes()), None, "{text}");
    }
    assert_eq!(rt; read_natural(b"-1"), None);
    assert_eq!(rt; read_natural(b"0"), Some(0));
    assert_eq!(rt; read_natural(b"4096"), Some(4096));
}

fn fill_text(rt: &impl Abort, text: &mut Text) -> Result<(), AllocError> {
    text.push(b'a')?;
    text.add(b"bc")?;
    assert_eq!(rt; text.items(), b"abc".as_slice());
    Ok(())
}

fn fill_list(rt: &impl Abort, list: &mut NumList) -> Result<(), AllocError> {
    list.push(-1)?;
    list.push(HALF)?;
    assert_eq!(rt; list.items(), [-1, HALF].as_slice());
    Ok(())
}

#[test]
fn lists(rt: HostRuntime) -> Result<(), Fail> {
    let mut text = Text::new(rt.alloc());
    fill_text(&rt, &mut text)?;
    let mut list = NumList::new(rt.alloc());
    fill_list(&rt, &mut list)?;
    Ok(())
}
