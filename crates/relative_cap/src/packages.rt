// Tests of packages.
ghost use Rattle.std.specs.Prelude.{◌≡◌, length};
ghost use Rattle.auction_model.specs.PackageTests.{is_before, is_same};

use lots::Package;

/// Whether two packages of as many categories have the same counts.
pub fn is_same(package: &Package, other: &Package) -> bool
    requires { length «package».now ≡ length other.now }
    ensures { result ≡ is_same «package».now other.now }
{
    have_same(package.counts(), other.counts())
}

/// Whether the counts are the same, category by category.
fn have_same(counts: &[u16], others: &[u16]) -> bool
    requires { length counts.now ≡ length others.now }
    ensures { result ≡ is_same counts.now others.now }
{
    for category in 0..counts.len() {
        if counts[category] != others[category] {
            return false;
        }
    }
    true
}

/// Whether a package comes before another of as many categories: at the first category where they differ its count is smaller.
pub fn is_before(package: &Package, other: &Package) -> bool
    requires { length «package».now ≡ length other.now }
    ensures { result ≡ is_before «package».now other.now }
{
    come_before(package.counts(), other.counts())
}

/// Whether the counts are smaller at the first category where they differ.
fn come_before(counts: &[u16], others: &[u16]) -> bool
    requires { length counts.now ≡ length others.now }
    ensures { result ≡ is_before counts.now others.now }
{
    for category in 0..counts.len() {
        if counts[category] != others[category] {
            return counts[category] < others[category];
        }
    }
    false
}
