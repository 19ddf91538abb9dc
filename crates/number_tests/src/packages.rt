use lots::{LotStop, Package, Supply};
use std::alloc::Global;
use std::process::Abort;

/// The supply of these counts.
fn supply_of(rt: &impl Abort, alloc: Global, counts: &[u16]) -> Supply {
    let Ok(supply) = Supply::new(alloc, counts) else {
        panic!(rt; "these are a supply's counts");
    };
    supply
}

/// The package of these counts.
fn package_of(rt: &impl Abort, alloc: Global, counts: &[u16]) -> Package {
    let Ok(package) = Package::new(alloc, counts) else {
        panic!(rt; "these are a package's counts");
    };
    package
}

#[test]
fn supplies_stop_at_the_first_broken_rule(rt: HostRuntime) {
    let broken = [
        ([].as_slice(), LotStop::Categories(0)),
        (&[1, 1, 1, 0, 1, 1, 1], LotStop::Categories(7)),
        (&[1, 0, 50], LotStop::Zero(2)),
        (&[41], LotStop::Lots(41)),
        (&[10, 10, 10, 11], LotStop::Lots(41)),
        (&[3, 3, 3, 3, 7, 8], LotStop::States(18432)),
    ];
    for (counts, stop) in broken {
        assert_eq!(rt; Supply::new(rt.alloc(), counts).err(), Some(stop));
    }
}

/// How many states the supply of these counts has.
fn states_of(rt: &impl Abort, alloc: Global, counts: &[u16]) -> usize {
    supply_of(rt, alloc, counts).states()
}

/// Asserts what is reported of a supply of two categories.
fn supply_tells(rt: &impl Abort, supply: &Supply, counts: [u16; 2], widths: [usize; 2]) {
    assert_eq!(rt; supply.categories(), 2);
    assert_eq!(rt; supply.units(1), counts[1]);
    assert!(rt; supply.counts() == counts.as_slice());
    assert!(rt; supply.widths() == widths.as_slice());
}

#[test]
fn supplies_tell_what_they_hold(rt: HostRuntime) {
    assert_eq!(rt; states_of(&rt, rt.alloc(), &[7, 7, 7, 8]), 4608);
    assert_eq!(rt; states_of(&rt, rt.alloc(), &[3, 3, 3, 3, 7, 7]), 16384);
    assert_eq!(rt; states_of(&rt, rt.alloc(), &[2, 3]), 12);
    let supply = supply_of(&rt, rt.alloc(), &[2, 3]);
    supply_tells(&rt, &supply, [2, 3], [4, 1]);
}

/// Asserts that a package fits, and its place.
fn has_place(rt: &impl Abort, supply: &Supply, package: &Package, place: usize) {
    assert_eq!(rt; package.categories(), supply.categories());
    let fits = package.fits(supply);
    assert!(rt; fits);
    assert_eq!(rt; supply.place(package), place);
}

/// Asserts which place is left once a package is taken away.
fn leaves(rt: &impl Abort, supply: &Supply, place: usize, package: &Package, left: Option<usize>) {
    assert_eq!(rt; package.categories(), supply.categories());
    assert!(rt; place < supply.states());
    assert_eq!(rt; supply.minus(place, package), left);
}

/// Asserts the counts of the package at a place.
fn has_at(rt: &impl Abort, alloc: Global, supply: &Supply, place: usize, counts: &[u16]) {
    assert!(rt; place < supply.states());
    let Ok(package) = supply.package_at(alloc, place) else {
        panic!(rt; "there is memory");
    };
    assert!(rt; package.counts() == counts);
}

#[test]
fn places_count_in_mixed_radix(rt: HostRuntime) {
    let supply = supply_of(&rt, rt.alloc(), &[2, 3]);
    let package = package_of(&rt, rt.alloc(), &[1, 2]);
    has_place(&rt, &supply, &package, 6);
    leaves(&rt, &supply, 11, &package, Some(5));
    leaves(&rt, &supply, 3, &package, None);
    has_at(&rt, rt.alloc(), &supply, 6, &[1, 2]);
    has_at(&rt, rt.alloc(), &supply, 11, supply.counts());
}

/// Asserts what is reported of a package of two categories.
fn package_tells(rt: &impl Abort, package: &Package, counts: [u16; 2], cost: u64, points: u64) {
    assert_eq!(rt; package.categories(), 2);
    assert_eq!(rt; package.units(0), counts[0]);
    assert_eq!(rt; package.cost(&[100, 7]), cost);
    assert_eq!(rt; package.points(&[10, 1]), points);
    assert!(rt; package.counts() == counts.as_slice());
}

/// Whether the package fits in the supply.
fn fits(rt: &impl Abort, package: &Package, supply: &Supply) -> bool {
    assert_eq!(rt; package.categories(), supply.categories());
    package.fits(supply)
}

/// Asserts that a copy of a package has its counts, and takes over another one's counts.
fn is_copied(rt: &impl Abort, package: &Package, other: &Package) {
    let mut copy = package.copied();
    assert!(rt; copy.counts() == package.counts());
    assert_eq!(rt; copy.categories(), other.categories());
    copy.copy_from(other);
    assert!(rt; copy.counts() == other.counts());
}

#[test]
fn packages_tell_what_they_hold(rt: HostRuntime) {
    assert_eq!(rt;
        Package::new(rt.alloc(), &[]).err(),
        Some(LotStop::Categories(0))
    );
    let none = package_of(&rt, rt.alloc(), &[0, 0]);
    package_tells(&rt, &none, [0, 0], 0, 0);
    assert!(rt; none.is_empty());
    let package = package_of(&rt, rt.alloc(), &[1, 2]);
    package_tells(&rt, &package, [1, 2], 114, 12);
    assert!(rt; !package.is_empty());
    let supply = supply_of(&rt, rt.alloc(), &[1, 1]);
    assert!(rt; !fits(&rt, &package, &supply));
    is_copied(&rt, &none, &package);
}
