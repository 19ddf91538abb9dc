ghost use Rattle.nearest_point.specs.Problem.{HasSingles, IsProblem, bounds, row_at};
ghost use Rattle.std.specs.Prelude.{IfOk, IfSome, IsTrue, length, pos, slice_index_or, ℕ, ◌<◌, ◌^◌, ◌≡◌, ◌≤ℤ◌, ◌≤◌};
ghost use Rattle.wide_num.specs.Sums.{nth, total};

use super::{Nearest, guess, nearest, search_all};
use far_num::Row;
use std::alloc::{AllocError, Global};
use std::process::Abort;
use std::test::Fail;

const MOST: i128 = 1 << 46;

const HALF: i128 = 1 << 45;

fn row(members: u16, bound: i128) -> Row {
    Row { members, bound }
}

fn are_ones(weights: &[u32]) -> bool
    ensures { IsTrue result → (j : ℕ) → j < length weights.now → slice_index_or weights.now j 0 ≡ 1 }
{
    for weight in weights {
        if *weight != 1 {
            return false;
        }
    }
    true
}

fn are_weights(weights: &[u32]) -> bool
    ensures { IsTrue result → (j : ℕ) → j < length weights.now
        → (1 ≤ slice_index_or weights.now j 0) × (slice_index_or weights.now j 0 ≤ 20) }
{
    for weight in weights {
        if *weight < 1 {
            return false;
        }
        if *weight > 20 {
            return false;
        }
    }
    true
}

fn are_targets(edge: i128, target: &[i128]) -> bool
    requires { (pos 0 ≤ℤ edge) × (edge ≤ℤ pos (2 ^ 46)) }
    ensures low { IsTrue result → (j : ℕ) → j < length target.now → pos 0 ≤ℤ nth target.now j }
    ensures sum { IsTrue result → total (length target.now) (nth target.now) ≤ℤ edge }
{
    let mut sum: i128 = 0;
    for x in target {
        if *x < 0 {
            return false;
        }
        if *x > edge - sum {
            return false;
        }
        sum += *x;
    }
    true
}

fn are_bounds(edge: i128, rows: &[Row]) -> bool
    ensures low { IsTrue result → (i : ℕ) → i < length rows.now → pos 0 ≤ℤ bounds rows.now i }
    ensures small { IsTrue result → (i : ℕ) → i < length rows.now → bounds rows.now i ≤ℤ edge }
{
    for row in rows {
        if row.bound < 0 {
            return false;
        }
        if row.bound > edge {
            return false;
        }
    }
    true
}

fn have_members(end: u16, rows: &[Row]) -> bool
    ensures { IsTrue result → (i : ℕ) → i < length rows.now
        → (0 < (row_at rows.now i).members) × ((row_at rows.now i).members < end) }
{
    for row in rows {
        if row.members == 0 {
            return false;
        }
        if row.members >= end {
            return false;
        }
    }
    true
}

fn find_row(members: u16, rows: &[Row]) -> Option<usize>
    ensures { IfSome result (λ i. (i < length rows.now) × ((row_at rows.now i).members ≡ members)) }
{
    for (i, row) in rows.iter().enumerate() {
        if row.members == members {
            return Some(i);
        }
    }
    None
}

fn have_singles(size: usize, rows: &[Row]) -> bool
    requires { size < 16 }
    ensures { IsTrue result → HasSingles size rows.now }
{
    for j in 0..size {
        if find_row(1 << j, rows).is_none() {
            return false;
        }
    }
    true
}

// A weight of 1 for each coordinate, after a test of the conditions of the search.
fn tested_ones(
    rt: &impl Abort,
    alloc: Global,
    target: &[i128],
    rows: &[Row],
) -> Result<Vec<u32>, AllocError>
    ensures { IfOk result (λ weights. IsProblem target.now weights.items rows.now) }
{
    let weights = vec![in alloc; 1u32; target.len()]?;
    assert!(rt; target.len() <= 6);
    assert!(rt; are_ones(&weights));
    assert!(rt; are_targets(MOST, target));
    assert!(rt; are_bounds(MOST, rows));
    assert!(rt; have_members(1 << target.len(), rows));
    assert!(rt; have_singles(target.len(), rows));
    Ok(weights)
}

// Tests the conditions of `nearest`, and calls it.
fn answer(
    rt: &impl Abort,
    alloc: Global,
    target: &[i128],
    rows: &[Row],
) -> Result<Nearest, AllocError> {
    let weights = tested_ones(rt, alloc, target, rows)?;
    assert!(rt; target.len() >= 1);
    nearest(alloc, target, &weights, rows)
}

// Tests the conditions of `nearest` for four coordinates and any weights, and calls it.
fn weighed_answer(
    rt: &impl Abort,
    alloc: Global,
    target: &[i128],
    weights: &[u32],
    rows: &[Row],
) -> Result<Nearest, AllocError> {
    assert!(rt; target.len() >= 1);
    assert!(rt; target.len() <= 4);
    assert_eq!(rt; weights.len(), target.len());
    assert!(rt; are_weights(weights));
    assert!(rt; are_targets(HALF, target));
    assert!(rt; are_bounds(HALF, rows));
    assert!(rt; have_members(1 << target.len(), rows));
    assert!(rt; have_singles(target.len(), rows));
    nearest(alloc, target, weights, rows)
}

// The fractions of the point are `numbers` over `den`.
fn assert_point(rt: &impl Abort, point: &Nearest, den: i128, numbers: &[i128]) {
    assert!(rt; point.den >= 1);
    assert_eq!(rt; point.at.items().len(), numbers.len());
    for (x, y) in point.at.items().iter().zip(numbers) {
        assert_eq!(rt;
            x.checked_mul(den).expect(rt, "a small product"),
            y.checked_mul(point.den).expect(rt, "a small product")
        );
    }
}

// The point of these rows has these fractions, and a multiplier of each family for each row.
fn assert_nearest(
    rt: &impl Abort,
    alloc: Global,
    target: &[i128],
    rows: &[Row],
    den: i128,
    numbers: &[i128],
) -> Result<(), AllocError> {
    let point = answer(rt, alloc, target, rows)?;
    assert_eq!(rt; point.first.items().len(), rows.len());
    assert_eq!(rt; point.second.items().len(), rows.len());
    assert_point(rt, &point, den, numbers);
    Ok(())
}

#[test]
fn points_of_two_coordinates(rt: HostRuntime) -> Result<(), Fail> {
    let table: [(&[i128], &[Row], i128, &[i128]); 8] = [
        (&[3], &[row(1, 4)], 1, &[4]),
        (&[9], &[row(1, 4)], 1, &[4]),
        (&[0, 0], &[row(1, 0), row(2, 0), row(3, 6)], 1, &[3, 3]),
        (
            &[0, 0],
            &[row(1, 0), row(3, 6), row(2, 0), row(3, 6)],
            1,
            &[3, 3],
        ),
        (&[0, 0], &[row(1, 5), row(2, 5), row(3, 6)], 1, &[5, 5]),
        (&[5, 7], &[row(1, 1), row(2, 1), row(3, 4)], 1, &[1, 3]),
        (&[10, 0], &[row(1, 0), row(2, 0), row(3, 6)], 1, &[6, 0]),
        (&[1, 0], &[row(1, 1), row(2, 0), row(3, 6)], 2, &[7, 5]),
    ];
    for (target, rows, den, numbers) in table {
        assert_nearest(&rt, rt.alloc(), target, rows, den, numbers)?;
    }
    Ok(())
}

#[test]
fn points_of_three_coordinates(rt: HostRuntime) -> Result<(), Fail> {
    let table: [(&[i128], &[Row], i128, &[i128]); 3] = [
        (
            &[0, 0, 0],
            &[row(1, 0), row(2, 0), row(4, 0), row(7, 11)],
            3,
            &[11, 11, 11],
        ),
        (
            &[0, 0, 0],
            &[row(1, 0), row(2, 0), row(4, 0), row(3, 5), row(6, 4)],
            1,
            &[1, 4, 0],
        ),
        (
            &[0, 0, 0],
            &[
                row(7, 9),
                row(3, 6),
                row(5, 8),
                row(6, 6),
                row(4, 0),
                row(2, 0),
                row(1, 0),
            ],
            1,
            &[4, 2, 4],
        ),
    ];
    for (target, rows, den, numbers) in table {
        assert_nearest(&rt, rt.alloc(), target, rows, den, numbers)?;
    }
    Ok(())
}

// What is above the target is shared by the weights, if no other row asks for more.
#[test]
fn points_by_weights(rt: HostRuntime) -> Result<(), Fail> {
    let table: [(&[i128], &[u32], &[Row], i128, &[i128]); 4] = [
        (
            &[14, 12],
            &[1, 3],
            &[row(1, 14), row(2, 12), row(3, 32)],
            2,
            &[31, 33],
        ),
        (
            &[0, 0, 0],
            &[1, 2, 3],
            &[row(1, 0), row(2, 0), row(4, 0), row(7, 11)],
            6,
            &[11, 22, 33],
        ),
        (
            &[0, 0, 0],
            &[1, 2, 3],
            &[row(1, 4), row(2, 0), row(4, 0), row(7, 14)],
            1,
            &[4, 4, 6],
        ),
        (
            &[0, 0, 0, 0],
            &[20, 1, 1, 20],
            &[row(1, 0), row(2, 0), row(4, 0), row(8, 0), row(15, HALF)],
            21,
            &[10 * HALF, HALF / 2, HALF / 2, 10 * HALF],
        ),
    ];
    for (target, weights, rows, den, numbers) in table {
        let point = weighed_answer(&rt, rt.alloc(), target, weights, rows)?;
        assert_point(&rt, &point, den, numbers);
    }
    Ok(())
}

#[test]
fn point_of_six_coordinates(rt: HostRuntime) -> Result<(), Fail> {
    let rows = [
        row(1, 0),
        row(2, 0),
        row(4, 0),
        row(8, 0),
        row(16, 0),
        row(32, 0),
        row(63, MOST),
    ];
    assert_nearest(&rt, rt.alloc(), &[0; 6], &rows, 6, &[MOST; 6])?;
    Ok(())
}

// The number of systems that the search solves.
fn systems_solved(
    rt: &impl Abort,
    alloc: Global,
    target: &[i128],
    rows: &[Row],
) -> Result<u32, AllocError> {
    let weights = tested_ones(rt, alloc, target, rows)?;
    let mut systems = 0;
    search_all(alloc, target, &weights, rows, &mut systems)?;
    Ok(systems)
}

// A row for each set of six coordinates, sets of fewer members first. Its bound depends on its number of members.
fn all_rows(alloc: Global, bounds: [i128; 7]) -> Result<Vec<Row>, AllocError> {
    let mut rows = Vec::new(alloc);
    for size in 1u32..7 {
        for members in 1u16..64 {
            if members.count_ones() == size {
                rows.push(row(members, bounds[size as usize]))?;
            }
        }
    }
    Ok(rows)
}

// Counted by a plain search over fractions in another language.
#[test]
fn systems(rt: HostRuntime) -> Result<(), Fail> {
    let rows = all_rows(rt.alloc(), [0, 1, 4, 9, 16, 25, 36])?;
    assert_eq!(&rt; rows.len(), 63);
    let table: [([i128; 6], u32); 3] = [
        ([0, 0, 0, 0, 0, 0], 2),
        ([5, 1, 9, 2, 7, 3], 2),
        ([10, 20, 30, 40, 50, 60], 512),
    ];
    for (target, count) in table {
        assert_eq!(&rt; systems_solved(&rt, rt.alloc(), &target, &rows)?, count);
    }
    Ok(())
}

// The number of sets that the guess tries until one passes.
fn sets_tried(
    rt: &impl Abort,
    alloc: Global,
    target: &[i128],
    rows: &[Row],
) -> Result<u32, AllocError> {
    let weights = tested_ones(rt, alloc, target, rows)?;
    let mut sets = 0;
    let found = guess(alloc, target, &weights, rows, &mut sets)?;
    assert!(rt; found.is_some());
    Ok(sets)
}

// Counted by a plain guess over fractions in another language.
#[test]
fn guesses(rt: HostRuntime) -> Result<(), Fail> {
    let rows = all_rows(rt.alloc(), [0, 1, 4, 9, 16, 25, 36])?;
    let table: [([i128; 6], u32); 3] = [
        ([0, 0, 0, 0, 0, 0], 2),
        ([5, 1, 9, 2, 7, 3], 2),
        ([10, 20, 30, 40, 50, 60], 9),
    ];
    for (target, count) in table {
        assert_eq!(&rt; sets_tried(&rt, rt.alloc(), &target, &rows)?, count);
    }
    Ok(())
}
