use crate::samples::award_of;
use award_file::{Award, CapFault};
use lots::Package;
use std::alloc::Global;
use std::process::Abort;

/// Asserts the version and what is sold.
fn sells(
    rt: &impl Abort,
    award: &Award,
    version: u8,
    counts: &[u16],
    points: &[u32],
    reserves: &[u64],
) {
    assert_eq!(rt; award.version(), version);
    assert_eq!(rt; award.final_cap(), version == 2);
    assert!(rt; award.supply().counts() == counts);
    assert!(rt; award.points() == points);
    assert!(rt; award.reserves() == reserves);
}

/// Asserts by how much prices rise.
fn rises_by(rt: &impl Abort, award: &Award, tick: u64, thresholds: &[(u64, u64)]) {
    assert_eq!(rt; award.tick(), tick);
    assert_eq!(rt; award.steps().tick(), tick);
    assert!(rt; award.steps().thresholds() == thresholds);
}

/// Asserts the bidders, by name and eligibility.
fn has_bidders(rt: &impl Abort, award: &Award, bidders: &[(&str, u64)]) {
    assert_eq!(rt; award.bidders(), bidders.len());
    for k in 0..bidders.len() {
        let j = k as u16 + 1;
        assert_eq!(rt; award.name(j), bidders[k].0);
        assert_eq!(rt; award.number_of(bidders[k].0), j);
        assert_eq!(rt; award.eligibility(j), bidders[k].1);
    }
}

/// Asserts which cap the first bidder breaks with these lots.
fn breaks(rt: &impl Abort, alloc: Global, award: &Award, counts: &[u16], fault: Option<CapFault>) {
    let Ok(package) = Package::new(alloc, counts) else {
        panic!(rt; "this is a package");
    };
    assert_eq!(rt; award.supply().categories(), package.categories());
    assert!(rt; award.bidders() >= 1);
    assert_eq!(rt; award.cap_fault(1, &package), fault);
}

#[test]
fn tells_what_an_award_states(rt: HostRuntime) {
    let text =
        "version = 1\ntick = 1\n\n[[category]]\nname = \"lot\"\nsupply = 3\npoints = 1\nreserve = 10\n\n[[bidder]]\n\
        name = \"east\"\neligibility = 3\n\n[[bidder]]\nname = \"west\"\neligibility = 2\n\n[[step]]\nexcess = 1\n\
        permille = 200\n";
    let award = award_of(&rt, rt.alloc(), text);
    sells(&rt, &award, 1, &[3], &[1], &[10]);
    rises_by(&rt, &award, 1, &[(1, 200)]);
    has_bidders(&rt, &award, &[("east", 3), ("west", 2)]);
    assert_eq!(rt; award.number_of("north"), 0);
    breaks(&rt, rt.alloc(), &award, &[3], None);
}

#[test]
fn reads_every_spelling(rt: HostRuntime) {
    let text =
        "\u{feff}'cap' = [{weight = [0, 1_000], limit = 2000}, {limit = 0x7_d1, weight = [1, 1000]}] # caps\r\n\
        \"tick\" = 0x10\r\n\
        category = [{name = 'a', supply = 1, points = 0b11, reserve = +0}, {name = '''b''', supply = 2, points = 10_000, reserve = 68719476736}]\r\n\
        step = [{excess = 1, permille = 1}, {excess = 1_000, permille = 1000}]\r\nversion = 2\r\n[[ bidder ]]\r\n\
        holding = [\r\n  999, # the first category\r\n  2,\r\n]\r\neligibility = 1000000\r\n\
        name = \"a_name_of_20_bytes__\"\r\n";
    let award = award_of(&rt, rt.alloc(), text);
    sells(&rt, &award, 2, &[1, 2], &[3, 10_000], &[0, 1 << 36]);
    rises_by(&rt, &award, 16, &[(1, 1), (1000, 1000)]);
    has_bidders(&rt, &award, &[("a_name_of_20_bytes__", 1_000_000)]);
    // The first cap has 2 * 1000, which is its limit, and the second 999 more, which is above its limit.
    let fault = CapFault {
        number: 2,
        limit: 2001,
    };
    breaks(&rt, rt.alloc(), &award, &[0, 0], Some(fault));
}
