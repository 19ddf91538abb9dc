ghost use Rattle.std.specs.Prelude.{◌≡◌};

use far_num::{Far, FarList, FarPoint, Row, add, dot01, sub, times};
use std::process::Abort;
use std::test::Fail;
use wide_num::{Op, Wide};

const HALF: i128 = 1 << 119;

fn pair(far: i128, near: i128) -> Far
    ensures far { result.far ≡ far }
    ensures near { result.near ≡ near }
{
    Far { far, near }
}

/// Asserts what a calculation gives.
fn gives(rt: &impl Abort, got: Result<Far, Wide>, wanted: Result<Far, Wide>) {
    assert_eq!(rt; got, wanted);
}

fn too_wide(op: Op, left: i128, right: i128) -> Result<Far, Wide> {
    Err(Wide { op, left, right })
}

#[test]
fn operations(rt: HostRuntime) {
    gives(&rt, add(pair(1, -2), pair(3, 4)), Ok(pair(4, 2)));
    gives(
        &rt,
        add(pair(1, HALF), pair(3, HALF)),
        too_wide(Op::Add, HALF, HALF),
    );
    gives(
        &rt,
        add(pair(HALF, HALF), pair(HALF, -7)),
        too_wide(Op::Add, HALF, HALF),
    );
    gives(&rt, sub(pair(1, -2), pair(3, 4)), Ok(pair(-2, -6)));
    gives(
        &rt,
        sub(pair(-HALF, 5), pair(HALF, 6)),
        too_wide(Op::Sub, -HALF, HALF),
    );
    gives(&rt, times(pair(7, -2), -3), Ok(pair(-21, 6)));
    gives(&rt, times(pair(7, HALF), 2), too_wide(Op::Mul, HALF, 2));
}

#[test]
fn order(rt: HostRuntime) {
    assert!(rt; pair(0, HALF) < pair(1, -HALF));
    assert!(rt; pair(1, 2) < pair(1, 3));
    assert!(rt; pair(-1, 9) < pair(0, 0));
}

#[test]
fn sums_of_members(rt: HostRuntime) {
    let list = [pair(1, 10), pair(2, 20), pair(4, 40)];
    gives(&rt, dot01(0, &list), Ok(pair(0, 0)));
    gives(&rt, dot01(0b101, &list), Ok(pair(5, 50)));
    gives(&rt, dot01(0b111, &list), Ok(pair(7, 70)));
    gives(&rt, dot01(0, &[]), Ok(pair(0, 0)));
    // The sum of all is in the range, and the third sum on the way isn't.
    let list = [pair(0, HALF), pair(5, 9), pair(1, HALF), pair(0, -HALF)];
    gives(&rt, dot01(0b1101, &list), too_wide(Op::Add, HALF, HALF));
    gives(&rt, dot01(0b1001, &list), Ok(pair(0, 0)));
}

#[test]
fn points_and_rows(rt: HostRuntime) -> Result<(), Fail> {
    let mut at = FarList::with_capacity(rt.alloc(), 2)?;
    at.push(pair(1, 2))?;
    at.push(pair(3, 4))?;
    let point = FarPoint { den: 3, at };
    assert_eq!(rt; point.at.items(), [pair(1, 2), pair(3, 4)].as_slice());
    let row = Row {
        members: 0b11,
        bound: 6,
    };
    assert_eq!(rt; dot01(row.members, point.at.items()), Ok(pair(4, 6)));
    Ok(())
}
