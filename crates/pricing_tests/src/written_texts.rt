// The texts of three small certificates.
ghost use Rattle.std.specs.Prelude.{◌≡◌, ◌∷◌, [], negsuc, pos, IfOk};

use cert_text::{CertRow, CertRows, Certificate, WithoutList, WithoutPart, write_cert};
use choices::{Choice, Grid, Numbers};
use std::alloc::{AllocError, Global};
use std::process::Abort;
use wide_num::NumList;

// What a helper expects that makes a whole certificate. There a `?` would drop all that is made before it, and its proof would
// be slow.
const MEMORY: &str = "there is memory";

// The list of one number.
fn single(alloc: Global, number: u16) -> Result<Numbers, AllocError>
    ensures { IfOk result (λ list. list ≡ number ∷ []) }
{
    let mut list = Numbers::new(alloc);
    list.push(number)?;
    Ok(list)
}

// The line of a table of two states: nothing if nothing is left, and that much if the lot is.
fn line_of(alloc: Global, worth: i128) -> Result<NumList, AllocError>
    ensures { IfOk result (λ line. line ≡ pos 0 ∷ worth ∷ []) }
{
    let mut line = NumList::new(alloc);
    line.push(0)?;
    line.push(worth)?;
    Ok(line)
}

// The table of nobody.
fn idle_table(alloc: Global) -> Result<Grid, AllocError>
    ensures { IfOk result (λ table. table ≡ (pos 0 ∷ pos 0 ∷ []) ∷ []) }
{
    let mut table = Grid::new(alloc);
    table.push_line(line_of(alloc, 0)?)?;
    Ok(table)
}

// The table of one bidder.
fn table_of(alloc: Global, worth: i128) -> Result<Grid, AllocError>
    ensures { IfOk result (λ table. table ≡ (pos 0 ∷ worth ∷ []) ∷ (pos 0 ∷ pos 0 ∷ []) ∷ []) }
{
    let mut table = Grid::new(alloc);
    table.push_line(line_of(alloc, worth)?)?;
    table.push_line(line_of(alloc, 0)?)?;
    Ok(table)
}

// The certificate where nobody bids for one lot.
fn nobody(rt: &impl Abort, alloc: Global) -> Certificate {
    let table = idle_table(alloc).expect(rt, MEMORY);
    let lowered = idle_table(alloc).expect(rt, MEMORY);
    Certificate {
        den: 1,
        value: 0,
        choice: Choice::new(Numbers::new(alloc)),
        table,
        withouts: WithoutList::new(alloc),
        pay: NumList::new(alloc),
        rows: CertRows::new(alloc),
        lowered,
    }
}

// The part without the only bidder.
fn part(alloc: Global) -> Result<WithoutPart, AllocError>
    ensures { IfOk result
        (λ w. (w.winner ≡ 1) × (w.choice ≡ 0 ∷ []) × (w.table ≡ (pos 0 ∷ pos 0 ∷ []) ∷ (pos 0 ∷ pos 0 ∷ []) ∷ [])) }
{
    let choice = Choice::new(single(alloc, 0)?);
    let table = table_of(alloc, 0)?;
    Ok(WithoutPart {
        winner: 1,
        choice,
        table,
    })
}

// A row of the only bidder.
fn row(alloc: Global) -> Result<CertRow, AllocError>
    ensures { IfOk result
        (λ r. (r.members ≡ 1 ∷ []) × (r.choice ≡ 0 ∷ []) × (r.first ≡ pos 1) × (r.second ≡ negsuc 104)) }
{
    let members = single(alloc, 1)?;
    let choice = Choice::new(single(alloc, 0)?);
    Ok(CertRow {
        members,
        first: 1,
        second: -105,
        choice,
    })
}

// The list of the only part.
fn parts_of_one(alloc: Global, part: WithoutPart) -> Result<WithoutList, AllocError>
    ensures { IfOk result (λ list. list ≡ part ∷ []) }
{
    let mut withouts = WithoutList::new(alloc);
    withouts.push(part)?;
    Ok(withouts)
}

// The list of the only row.
fn rows_of_one(alloc: Global, row: CertRow) -> Result<CertRows, AllocError>
    ensures { IfOk result (λ list. list ≡ row ∷ []) }
{
    let mut rows = CertRows::new(alloc);
    rows.push(row)?;
    Ok(rows)
}

// What the only bidder pays.
fn payment(alloc: Global) -> Result<NumList, AllocError>
    ensures { IfOk result (λ list. list ≡ negsuc 3 ∷ []) }
{
    let mut pay = NumList::new(alloc);
    pay.push(-4)?;
    Ok(pay)
}

// A certificate that has all kinds of lines.
fn one_bidder(rt: &impl Abort, alloc: Global) -> Certificate {
    let choice = Choice::new(single(alloc, 3).expect(rt, MEMORY));
    let table = table_of(alloc, 10).expect(rt, MEMORY);
    let part = part(alloc).expect(rt, MEMORY);
    let withouts = parts_of_one(alloc, part).expect(rt, MEMORY);
    let pay = payment(alloc).expect(rt, MEMORY);
    let row = row(alloc).expect(rt, MEMORY);
    let rows = rows_of_one(alloc, row).expect(rt, MEMORY);
    let lowered = table_of(alloc, 14).expect(rt, MEMORY);
    Certificate {
        den: 1,
        value: 10,
        choice,
        table,
        withouts,
        pay,
        rows,
        lowered,
    }
}

// The list of two numbers.
fn pair(alloc: Global, first: u16, second: u16) -> Result<Numbers, AllocError>
    ensures { IfOk result (λ list. list ≡ first ∷ second ∷ []) }
{
    let mut list = single(alloc, first)?;
    list.push(second)?;
    Ok(list)
}

// The table of two bidders of whom nobody bids.
fn two_lines(alloc: Global) -> Result<Grid, AllocError>
    ensures { IfOk result (λ table. table ≡ (pos 0 ∷ pos 0 ∷ []) ∷ (pos 0 ∷ pos 0 ∷ []) ∷ (pos 0 ∷ pos 0 ∷ []) ∷ []) }
{
    let mut table = table_of(alloc, 0)?;
    table.push_line(line_of(alloc, 0)?)?;
    Ok(table)
}

// The part without one of the two.
fn part_of_two(alloc: Global, winner: u16) -> Result<WithoutPart, AllocError>
    ensures { IfOk result
        (λ w. (w.winner ≡ winner) × (w.choice ≡ 0 ∷ 0 ∷ [])
        × (w.table ≡ (pos 0 ∷ pos 0 ∷ []) ∷ (pos 0 ∷ pos 0 ∷ []) ∷ (pos 0 ∷ pos 0 ∷ []) ∷ [])) }
{
    let choice = Choice::new(pair(alloc, 0, 0)?);
    let table = two_lines(alloc)?;
    Ok(WithoutPart {
        winner,
        choice,
        table,
    })
}

// A row of one of the two.
fn row_of_one(alloc: Global, member: u16, second: i128) -> Result<CertRow, AllocError>
    ensures { IfOk result
        (λ r. (r.members ≡ member ∷ []) × (r.choice ≡ 0 ∷ 0 ∷ []) × (r.first ≡ pos 1) × (r.second ≡ second)) }
{
    let members = single(alloc, member)?;
    let choice = Choice::new(pair(alloc, 0, 0)?);
    Ok(CertRow {
        members,
        first: 1,
        second,
        choice,
    })
}

// A row of both.
fn row_of_both(alloc: Global) -> Result<CertRow, AllocError>
    ensures { IfOk result
        (λ r. (r.members ≡ 1 ∷ 2 ∷ []) × (r.choice ≡ 0 ∷ 0 ∷ []) × (r.first ≡ pos 3) × (r.second ≡ pos 11)) }
{
    let members = pair(alloc, 1, 2)?;
    let choice = Choice::new(pair(alloc, 0, 0)?);
    Ok(CertRow {
        members,
        first: 3,
        second: 11,
        choice,
    })
}

// What the two pay.
fn payments(alloc: Global) -> Result<NumList, AllocError>
    ensures { IfOk result (λ list. list ≡ pos 11 ∷ negsuc 3 ∷ []) }
{
    let mut pay = NumList::new(alloc);
    pay.push(11)?;
    pay.push(-4)?;
    Ok(pay)
}

// A certificate over the denominator 3 that has three rows.
fn two_bidders(rt: &impl Abort, alloc: Global) -> Certificate {
    let choice = Choice::new(pair(alloc, 3, 1).expect(rt, MEMORY));
    let table = two_lines(alloc).expect(rt, MEMORY);
    let first = part_of_two(alloc, 1).expect(rt, MEMORY);
    let second = part_of_two(alloc, 2).expect(rt, MEMORY);
    let mut withouts = parts_of_one(alloc, first).expect(rt, MEMORY);
    withouts.push(second).expect(rt, MEMORY);
    let pay = payments(alloc).expect(rt, MEMORY);
    let both = row_of_both(alloc).expect(rt, MEMORY);
    let mut rows = rows_of_one(alloc, both).expect(rt, MEMORY);
    rows.push(row_of_one(alloc, 2, 0).expect(rt, MEMORY))
        .expect(rt, MEMORY);
    rows.push(row_of_one(alloc, 1, -8).expect(rt, MEMORY))
        .expect(rt, MEMORY);
    let lowered = two_lines(alloc).expect(rt, MEMORY);
    Certificate {
        den: 3,
        value: 30,
        choice,
        table,
        withouts,
        pay,
        rows,
        lowered,
    }
}

// Asserts the text of a certificate.
fn is_written(
    rt: &impl Abort,
    alloc: Global,
    cert: &Certificate,
    lines: &str,
) -> Result<(), AllocError> {
    let text = write_cert(alloc, cert)?;
    assert_eq!(rt; text.items(), lines.as_bytes());
    Ok(())
}

#[test]
fn writes_the_certificate_of_nobody(rt: HostRuntime) -> Result<(), AllocError> {
    let cert = nobody(&rt, rt.alloc());
    let lines = "cert 1\nden 1\nvalue 0\nchoice\ntable\nt 0 0\npay\nrows 0\nlowered\nt 0 0\nend\n";
    is_written(&rt, rt.alloc(), &cert, lines)
}

#[test]
fn writes_all_kinds_of_lines(rt: HostRuntime) -> Result<(), AllocError> {
    let cert = one_bidder(&rt, rt.alloc());
    let lines =
        "cert 1\nden 1\nvalue 10\nchoice 3\ntable\nt 0 10\nt 0 0\nwithout 1\nchoice 0\ntable\nt 0 0\nt 0 0\npay -4\n\
        rows 1\nrow 1\nmult 1 -105\nchoice 0\nlowered\nt 0 14\nt 0 0\nend\n";
    is_written(&rt, rt.alloc(), &cert, lines)
}

#[test]
fn writes_three_rows_over_3(rt: HostRuntime) -> Result<(), AllocError> {
    let cert = two_bidders(&rt, rt.alloc());
    let lines = "cert 1\nden 3\nvalue 30\nchoice 3 1\ntable\nt 0 0\nt 0 0\nt 0 0\n\
        without 1\nchoice 0 0\ntable\nt 0 0\nt 0 0\nt 0 0\nwithout 2\nchoice 0 0\ntable\nt 0 0\nt 0 0\nt 0 0\n\
        pay 11 -4\nrows 3\nrow 1 2\nmult 3 11\nchoice 0 0\nrow 2\nmult 1 0\nchoice 0 0\n\
        row 1\nmult 1 -8\nchoice 0 0\nlowered\nt 0 0\nt 0 0\nt 0 0\nend\n";
    is_written(&rt, rt.alloc(), &cert, lines)
}
