// Places in mixed radix, over counts.
ghost use Rattle.std.specs.Prelude.{◌≡◌, ◌≤◌, ◌<◌, length, take, IfOk, IfSome, IfNone, IsTrue, IsFalse};
ghost use Rattle.auction_model.specs.Package.{is_within, less};
ghost use Rattle.auction_model.specs.Place.{states_of, place_of, left_at, widths_of};
ghost use Rattle.limits.specs.declared.TheConstants.{MOST_CATEGORIES, MOST_STATES};

use limits::MOST_CATEGORIES;
use std::alloc::{AllocError, Global};

/// The place of `counts` in mixed radix.
pub fn place_among(supply: &[u16], counts: &[u16]) -> usize
    requires states { states_of supply.now ≤ MOST_STATES }
    requires categories { length counts.now ≡ length supply.now }
    requires fits { IsTrue (is_within counts.now supply.now) }
    ensures place { result ≡ place_of supply.now counts.now }
    ensures below { result < states_of supply.now }
{
    let mut place = 0usize;
    for i in 0..supply.len() {
        place = place * (supply[i] as usize + 1) + counts[i] as usize;
    }
    place
}

/// Whether the remaining supply of a place has at least these counts.
fn leaves_enough(supply: &[u16], states: usize, place: usize, counts: &[u16]) -> bool
    requires states { states ≡ states_of supply.now }
    requires most { states ≤ MOST_STATES }
    requires place { place < states }
    requires categories { length counts.now ≡ length supply.now }
    ensures { result ≡ is_within counts.now (left_at supply.now place) }
{
    let mut weight = states;
    let mut rest = place;
    for i in 0..supply.len() {
        weight /= supply[i] as usize + 1;
        if rest / weight < counts[i] as usize {
            return false;
        }
        rest %= weight;
    }
    true
}

/// The place of what is left of a place, or None if the counts exceed it.
pub fn place_less(supply: &[u16], states: usize, place: usize, counts: &[u16]) -> Option<usize>
    requires states { states ≡ states_of supply.now }
    requires most { states ≤ MOST_STATES }
    requires place { place < states }
    requires categories { length counts.now ≡ length supply.now }
    ensures fits { IfSome result (λ _. IsTrue (is_within counts.now (left_at supply.now place))) }
    ensures left { IfSome result (λ p. p ≡ place_of supply.now (less (left_at supply.now place) counts.now)) }
    ensures below { IfSome result (λ p. p < states_of supply.now) }
    ensures exceeds { IfNone result (IsFalse (is_within counts.now (left_at supply.now place))) }
{
    if leaves_enough(supply, states, place, counts) {
        Some(place - place_among(supply, counts))
    } else {
        None
    }
}

/// How many places one count of each category spans.
pub fn widths_among(alloc: Global, supply: &[u16], states: usize) -> Result<Vec<usize>, AllocError>
    requires { states ≡ states_of supply.now }
    ensures { IfOk result (λ v. v.items ≡ widths_of supply.now) }
{
    let mut widths = Vec::with_capacity(alloc, supply.len())?;
    let mut width = states;
    for i in 0..supply.len() {
        width /= supply[i] as usize + 1;
        widths.push(width)?;
    }
    Ok(widths)
}

/// The counts of the remaining supply of a place, and zeros after them.
pub fn counts_at(supply: &[u16], states: usize, place: usize) -> [u16; MOST_CATEGORIES]
    requires categories { length supply.now ≤ MOST_CATEGORIES }
    requires states { states ≡ states_of supply.now }
    requires most { states ≤ MOST_STATES }
    requires place { place < states }
    ensures { take (length supply.now) result ≡ left_at supply.now place }
{
    let mut counts = [0; MOST_CATEGORIES];
    let mut weight = states;
    let mut rest = place;
    for i in 0..supply.len() {
        weight /= supply[i] as usize + 1;
        counts[i] = (rest / weight) as u16;
        rest %= weight;
    }
    counts
}
