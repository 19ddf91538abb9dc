// The fields of a record.
ghost use Rattle.std.specs.Prelude.{◌≡◌, ◌≢◌, ℕ, ◌+◌, ◌≤◌, ◌<◌, ◌^◌, ◌++◌, List, true, false, length, take, drop, IfNone, IfSome};
ghost use Rattle.limits.specs.declared.TheConstants.{MOST_CATEGORIES, MOST_STATED_AMOUNT};
ghost use Rattle.std.specs.Fmt.{decimal};
ghost use Rattle.book_grammar.specs.BookForm.{IsName};
ghost use Rattle.log_file.specs.LogForm.{AreCounts, IsNameOf, counts_text};

use arrayvec::ArrayVec;
use award_file::Award;
use bid_book::name_text;
use limits::{MOST_CATEGORIES, MOST_STATED_AMOUNT, MOST_STATED_COUNT};
use line_format::{field_len, read_at_most};
use lots::Package;

/// The counts of a package.
type Counts = ArrayVec<u16, MOST_CATEGORIES>;

/// The number of the bidder that a field names, 0 for a stranger, and None if the field isn't a name.
pub fn read_bidder(award: &Award, field: &[u8]) -> Option<u16>
    ensures found { IfSome result (λ k. IsNameOf award.now k field.now) }
    ensures none { IfNone result (IsName field.now → ⊥) }
{
    match name_text(field) {
        Some(name) => Some(award.number_of(name)),
        None => None,
    }
}

/// The amount that a field spells, and None if it spells none of at most `MOST_STATED_AMOUNT`.
pub fn read_amount(field: &[u8]) -> Option<u64>
    ensures found { IfSome result (λ n. (n ≤ MOST_STATED_AMOUNT) × (field.now ≡ decimal n)) }
    ensures none { IfNone result ((n : ℕ) → n ≤ MOST_STATED_AMOUNT → field.now ≡ decimal n → ⊥) }
{
    read_at_most(field, MOST_STATED_AMOUNT)
}

/// The package that a field spells by its counts, one for each category of the award, and None if it spells none.
pub fn read_package(award: &Award, field: &[u8]) -> Option<Package>
    ensures found { IfSome result
        (λ lots. AreCounts (length award.now.supply) lots × (field.now ≡ counts_text lots)) }
    ensures none { IfNone result
        ((ns : List ℕ) → AreCounts (length award.now.supply) ns → field.now ≡ counts_text ns → ⊥) }
{
    let mut counts = Counts::new();
    if !add_counts(&mut counts, categories(award), field) {
        return None;
    }
    Some(Package::of_counts(counts.as_slice()))
}

/// How many categories the award has.
fn categories(award: &Award) -> usize
    ensures count { result ≡ length award.now.supply }
    ensures some { 0 < result }
    ensures few { result ≤ MOST_CATEGORIES }
{
    award.supply().counts().len()
}

/// Adds that many counts that a text spells, with one space between each two, and says whether it spells them.
fn add_counts(counts: &mut Counts, categories: usize, text: &[u8]) -> bool
    requires some { 0 < categories }
    requires room { length counts.old.items + categories ≤ MOST_CATEGORIES }
    ensures added { result ≡ true
        → (ns : List ℕ) × AreCounts categories ns × (text.now ≡ counts_text ns)
        × (counts.new.items ≡ counts.old.items ++ ns) }
    ensures none { result ≡ false → (ns : List ℕ) → AreCounts categories ns → text.now ≡ counts_text ns → ⊥ }
{
    let (field, more) = text.split_at(field_len(text));
    let Some(count) = read_at_most(field, MOST_STATED_COUNT) else {
        return false;
    };
    counts.push(count as u16);
    match more {
        [] => categories == 1,
        [_, behind @ ..] => categories > 1 && add_counts(counts, categories - 1, behind),
    }
}
