ghost use Rattle.far_num.specs.Pairs.{far_at, near_at};
ghost use Rattle.std.specs.Prelude.{IsTrue, length, pos, unsigned_abs, ℕ, ◌<◌, ◌^◌, ◌≡◌, ◌≤ℤ◌, ◌≤◌};
ghost use Rattle.wide_num.specs.Sums.{nth};

use far_num::Far;
use lin_solve::{Solved, Square, solve};
use std::alloc::{AllocError, Global};
use std::process::Abort;
use std::slice::Iter;
use std::test::Fail;

const MOST: i128 = 1 << 46;

const HALF: i128 = 1 << 45;

fn pair(far: i128, near: i128) -> Far {
    Far { far, near }
}

fn are_small(top: u128, entries: &[i128]) -> bool
    ensures { IsTrue result → (k : ℕ) → k < length entries.now
        → (pos 0 ≤ℤ nth entries.now k) × (unsigned_abs (nth entries.now k) ≤ top) }
{
    for x in entries {
        if *x < 0 {
            return false;
        }
        if x.unsigned_abs() > top {
            return false;
        }
    }
    true
}

fn have_small_parts(edge: u128, right: &[Far]) -> bool
    ensures { IsTrue result → (k : ℕ) → k < length right.now
        → (unsigned_abs (far_at right.now k) ≤ edge) × (unsigned_abs (near_at right.now k) ≤ edge) }
{
    for x in right {
        if x.far.unsigned_abs() > edge {
            return false;
        }
        if x.near.unsigned_abs() > edge {
            return false;
        }
    }
    true
}

// Tests the conditions of `solve`, and calls it.
fn answer(
    rt: &impl Abort,
    alloc: Global,
    size: usize,
    entries: &[i128],
    right: &[Far],
) -> Result<Solved, AllocError> {
    assert!(rt; size >= 1);
    assert!(rt; size <= 6);
    assert_eq!(rt; entries.len(), size * size);
    assert_eq!(rt; right.len(), size);
    assert!(rt; are_small(6, entries));
    assert!(rt; have_small_parts(1 << 46, right));
    let matrix = Square::new(alloc, size, entries)?;
    solve(alloc, &matrix, right)
}

// Tests the conditions of the second case, and calls `solve`.
fn weighed_answer(
    rt: &impl Abort,
    alloc: Global,
    size: usize,
    entries: &[i128],
    right: &[Far],
) -> Result<Solved, AllocError> {
    assert!(rt; size >= 1);
    assert!(rt; size <= 4);
    assert_eq!(rt; entries.len(), size * size);
    assert_eq!(rt; right.len(), size);
    assert!(rt; are_small(80, entries));
    assert!(rt; have_small_parts(1 << 45, right));
    let matrix = Square::new(alloc, size, entries)?;
    solve(alloc, &matrix, right)
}

fn times(rt: &impl Abort, a: i128, b: i128) -> i128 {
    a.checked_mul(b).expect(rt, "a small product")
}

fn plus(rt: &impl Abort, a: i128, b: i128) -> i128 {
    a.checked_add(b).expect(rt, "a small sum")
}

// The product of the next row and the values.
fn next_product(rt: &impl Abort, entries: &mut Iter<'_, i128>, values: &[Far]) -> Far {
    let mut far = 0;
    let mut near = 0;
    for value in values {
        let entry = *entries.next().expect(rt, "an entry");
        far = plus(rt, far, times(rt, entry, value.far));
        near = plus(rt, near, times(rt, entry, value.near));
    }
    pair(far, near)
}

// The matrix times the values is `den` times the right side.
fn assert_solves(rt: &impl Abort, entries: &[i128], right: &[Far], den: i128, values: &[Far]) {
    assert!(rt; den >= 1);
    assert_eq!(rt; values.len(), right.len());
    let mut next = entries.iter();
    for goal in right {
        let sum = next_product(rt, &mut next, values);
        assert_eq!(rt; sum.far, times(rt, den, goal.far));
        assert_eq!(rt; sum.near, times(rt, den, goal.near));
    }
}

// The matrix is regular, and the answer solves the system.
fn assert_regular(rt: &impl Abort, solved: &Solved, entries: &[i128], right: &[Far]) {
    match solved {
        Solved::One { den, values } => assert_solves(rt, entries, right, *den, values.items()),
        Solved::Dependent { .. } => panic!(rt; "a regular matrix of size {}", right.len()),
    }
}

// The matrix sends the numbers, which aren't all 0, to 0.
fn assert_depends(rt: &impl Abort, entries: &[i128], numbers: &[i128]) {
    assert!(rt; numbers.iter().any(|x| *x != 0));
    let mut next = entries.iter();
    for _ in numbers {
        let mut sum = 0;
        for x in numbers {
            let entry = *next.next().expect(rt, "an entry");
            sum = plus(rt, sum, times(rt, entry, *x));
        }
        assert_eq!(rt; sum, 0);
    }
    assert!(rt; next.next().is_none());
}

// The matrix is dependent, and the result shows a dependence.
fn assert_dependent(rt: &impl Abort, solved: &Solved, size: usize, entries: &[i128]) {
    match solved {
        Solved::One { den, .. } => panic!(rt; "a dependent matrix of size {size} with den {den}"),
        Solved::Dependent { combination } => {
            assert_eq!(rt; combination.items().len(), size);
            assert_depends(rt, entries, combination.items());
        }
    }
}

#[test]
fn small_regular_systems(rt: HostRuntime) -> Result<(), Fail> {
    let table: [(usize, &[i128], &[Far]); 5] = [
        (1, &[3], &[pair(7, 0)]),
        (2, &[1, 2, 3, 4], &[pair(5, 0), pair(6, -1)]),
        (
            3,
            &[0, 1, 1, 1, 0, 1, 1, 1, 0],
            &[pair(1, 1), pair(2, -2), pair(3, 5)],
        ),
        (
            4,
            &[0, 6, 0, 0, 0, 0, 5, 0, 0, 0, 0, 4, 3, 0, 0, 0],
            &[pair(1, 0), pair(1, 0), pair(1, 0), pair(1, 0)],
        ),
        (
            5,
            &[
                6, 1, 2, 3, 4, 0, 5, 6, 1, 2, 0, 0, 4, 5, 6, 0, 0, 0, 3, 1, 0, 0, 0, 0, 2,
            ],
            &[
                pair(MOST, -MOST),
                pair(-MOST, MOST),
                pair(MOST, 1),
                pair(0, -MOST),
                pair(MOST, MOST),
            ],
        ),
    ];
    for (size, entries, right) in table {
        let solved = answer(&rt, rt.alloc(), size, entries, right)?;
        assert_regular(&rt, &solved, entries, right);
    }
    Ok(())
}

#[test]
fn large_regular_systems(rt: HostRuntime) -> Result<(), Fail> {
    let table: [(usize, &[i128], &[Far]); 2] = [
        (
            6,
            &[
                0, 1, 1, 1, 1, 1, 1, 0, 1, 1, 1, 1, 1, 1, 0, 1, 1, 1, 1, 1, 1, 0, 1, 1, 1, 1, 1, 1,
                0, 1, 1, 1, 1, 1, 1, 0,
            ],
            &[
                pair(MOST, 0),
                pair(1, 2),
                pair(0, 0),
                pair(-MOST, 9),
                pair(7, MOST),
                pair(-1, -MOST),
            ],
        ),
        (
            6,
            &[
                6, 1, 0, 3, 2, 5, 1, 6, 4, 0, 3, 2, 0, 4, 5, 1, 6, 3, 3, 0, 1, 6, 2, 4, 2, 3, 6, 2,
                5, 0, 5, 2, 3, 4, 0, 6,
            ],
            &[
                pair(3, 1),
                pair(1, 4),
                pair(4, 1),
                pair(1, 5),
                pair(5, 9),
                pair(9, 2),
            ],
        ),
    ];
    for (size, entries, right) in table {
        let solved = answer(&rt, rt.alloc(), size, entries, right)?;
        assert_regular(&rt, &solved, entries, right);
    }
    Ok(())
}

#[test]
fn weighed_systems(rt: HostRuntime) -> Result<(), Fail> {
    let table: [(usize, &[i128], &[Far]); 3] = [
        (1, &[80], &[pair(HALF, -HALF)]),
        (2, &[80, 20, 20, 60], &[pair(HALF, 1), pair(-HALF, 2)]),
        (
            4,
            &[80, 0, 79, 78, 1, 80, 0, 77, 80, 2, 76, 0, 0, 75, 3, 80],
            &[
                pair(HALF, -HALF),
                pair(-HALF, HALF),
                pair(HALF, HALF),
                pair(1, -HALF),
            ],
        ),
    ];
    for (size, entries, right) in table {
        let solved = weighed_answer(&rt, rt.alloc(), size, entries, right)?;
        assert_regular(&rt, &solved, entries, right);
    }
    let entries = [40, 60, 20, 30];
    let solved = weighed_answer(&rt, rt.alloc(), 2, &entries, &[pair(1, 2), pair(3, 4)])?;
    assert_dependent(&rt, &solved, 2, &entries);
    Ok(())
}

#[test]
fn dependent_systems(rt: HostRuntime) -> Result<(), Fail> {
    let table: [(usize, &[i128]); 7] = [
        (1, &[0]),
        (2, &[1, 1, 1, 1]),
        (3, &[1, 2, 3, 0, 0, 0, 4, 5, 6]),
        (3, &[0, 1, 2, 0, 3, 4, 0, 5, 6]),
        (4, &[1, 2, 3, 4, 5, 6, 0, 1, 1, 2, 3, 4, 6, 5, 4, 3]),
        (
            5,
            &[
                1, 0, 0, 0, 1, 0, 1, 0, 0, 1, 0, 0, 1, 0, 1, 0, 0, 0, 1, 1, 1, 1, 1, 1, 4,
            ],
        ),
        (
            6,
            &[
                1, 2, 0, 1, 0, 3, 2, 1, 3, 0, 4, 1, 3, 3, 3, 1, 4, 4, 5, 0, 6, 1, 2, 3, 1, 1, 1, 1,
                1, 1, 0, 6, 0, 5, 0, 4,
            ],
        ),
    ];
    let right = [
        pair(1, 2),
        pair(3, 4),
        pair(5, 6),
        pair(7, 8),
        pair(9, 10),
        pair(11, 12),
    ];
    for (size, entries) in table {
        assert!(rt; size <= 6);
        let solved = answer(&rt, rt.alloc(), size, entries, &right[..size])?;
        assert_dependent(&rt, &solved, size, entries);
    }
    Ok(())
}
