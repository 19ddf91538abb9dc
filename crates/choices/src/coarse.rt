// Lines of tables in 16 bits: two lines are counted in one unit, the line rounded down, and the line below and the worth of a
// bid rounded up. Then a block of the last few categories is tested in one run, with a mask of the places where the package
// fits. Acceptance is sound for the exact numbers. If units are too coarse to decide, the caller uses the exact numbers.
ghost use Rattle.std.specs.Prelude.{◌≡◌, ℕ, ◌+◌, ◌-◌, ◌*◌, ◌%◌, ◌^◌, ◌≤◌, ◌<◌, IsTrue, length, slice_index_or, pos, ◌≤ℤ◌};
ghost use Rattle.auction_model.specs.Place.{states_of, widths_of};
ghost use Rattle.limits.specs.declared.TheConstants.{MOST_STATES};
ghost use Rattle.choices.specs.Coarse.{HasMask, IsCeiling, IsFloor, Marks};

/// Room for a mask. Longer blocks are tested part by part.
pub const MASK_ROOM: usize = 512;

/// All bits of a mask.
const ALL: u16 = 65535;

/// The most units of a number, whose bits are the last 15.
const MOST_UNITS: u64 = 32767;

/// The last 16 bits.
const LAST_BITS: u64 = 65535;

/// The first bit of 64, which a number below 0 has.
const SIGN: u64 = 1 << 63;

/// What a bid is worth in units of `2^shift`, rounded up. The mask names the places where it fits in a block of the last `level`
/// categories of its package.
#[derive(Drop)]
pub struct CoarseBid<'a> {
    pub worth: u16,
    pub shift: u32,
    pub level: usize,
    pub mask: &'a [u16],
    pub ghost some: { 0 < worth },
    pub ghost small: { worth < 2 ^ 15 },
}

/// A number in units of `2^shift`, rounded down.
fn units(number: i64, shift: u32) -> u64
    requires number { pos 0 ≤ℤ number }
    requires shift { shift < 64 }
    ensures low { pos (result * 2 ^ shift) ≤ℤ number }
    ensures high { number ≤ℤ pos ((result + 1) * 2 ^ shift) }
{
    number as u64 >> shift
}

/// A worth in units of `2^shift`, rounded up, or 0 if it is below 0 or has too many.
pub fn worth_units(worth: i64, shift: u32) -> u16
    requires { shift < 64 }
    ensures small { result < 2 ^ 15 }
    ensures size { 0 < result → worth ≤ℤ pos (result * 2 ^ shift) }
{
    if worth < 0 {
        return 0;
    }
    let part = units(worth, shift);
    if part >= MOST_UNITS {
        return 0;
    }
    part as u16 + 1
}

/// Units of a line, none at each place.
fn put_none(low: &mut [u16])
    ensures none { (s : ℕ) → s < length low.old → slice_index_or low.new s 0 ≡ 0 }
    ensures places { length low.new ≡ length low.old }
{
    for i in 0..low.len() {
        low[i] = 0;
    }
}

/// The last 16 bits of a number.
fn last_bits(bits: u64) -> u16
    ensures { result ≡ bits % 2 ^ 16 }
{
    (bits & LAST_BITS) as u16
}

/// The last 16 bits of the numbers of a line in units of `2^shift`, and whether no number is below 0. It goes on if one is, and
/// looks at the bits of all at the end, so that no number costs a test.
fn put_units(low: &mut [u16], line: &[i64], shift: u32) -> bool
    requires places { length low.old ≡ length line.now }
    requires shift { shift < 64 }
    ensures floor { IsTrue result → IsFloor (2 ^ shift) line.now low.new }
    ensures places { length low.new ≡ length line.now }
{
    let mut seen = 0;
    for i in 0..line.len() {
        let bits = line[i].cast_unsigned();
        seen |= bits;
        low[i] = last_bits(bits >> shift);
    }
    seen < SIGN
}

/// The numbers of a line in units of `2^shift`, rounded down, and none of these if a number is below 0.
pub fn put_low(low: &mut [u16], line: &[i64], shift: u32)
    requires places { length low.old ≡ length line.now }
    requires shift { shift < 64 }
    ensures floor { IsFloor (2 ^ shift) line.now low.new }
    ensures places { length low.new ≡ length line.now }
{
    if !put_units(low, line, shift) {
        put_none(low);
    }
}

/// The numbers of a line in units of `2^shift`, rounded up, and whether none has too many. It goes on if one has, just like
/// `put_units`.
pub fn put_high(high: &mut [u16], line: &[i64], shift: u32) -> bool
    requires places { length high.old ≡ length line.now }
    requires shift { shift < 64 }
    ensures ceiling { IsTrue result → IsCeiling (2 ^ shift) line.now high.new }
    ensures places { length high.new ≡ length line.now }
{
    let mut seen = 0;
    for i in 0..line.len() {
        let part = line[i].cast_unsigned() >> shift;
        seen |= part;
        high[i] = last_bits(part).wrapping_add(1);
    }
    seen <= MOST_UNITS
}

/// A shift that leaves numbers up to this one at most 15 bits.
pub fn shift_for(most: u64) -> u32
    ensures { result < 64 }
{
    let bits = 64 - most.leading_zeros();
    bits.saturating_sub(15)
}

/// Whether at each place that the mask names the line has at least the worth and what the line below has. It goes on if it
/// hasn't, so that it takes several places at a time.
fn covers_masked(low: &[u16], high: &[u16], mask: &[u16], worth: u16) -> bool
    requires places { length high.now ≡ length low.now }
    requires mask { length mask.now ≡ length low.now }
    requires short { (s : ℕ) → s < length high.now → slice_index_or high.now s 0 ≤ 2 ^ 15 }
    requires worth { worth < 2 ^ 15 }
    ensures { IsTrue result → (s : ℕ) → s < length low.now → slice_index_or mask.now s 0 ≡ 2 ^ 16 - 1
        → slice_index_or high.now s 0 + worth ≤ slice_index_or low.now s 0 }
{
    let mut over = 0;
    for i in 0..low.len() {
        over |= (high[i] + worth).saturating_sub(low[i]) & mask[i];
    }
    over == 0
}

/// Whether a block is seen in these units to have at least the worth of a bid and what the line below has for the rest, at each
/// place that the bid's mask names. The lots of its package have the place `first`.
pub fn is_covered(bid: &CoarseBid, first: usize, low: &[u16], high: &[u16]) -> bool
    requires places { length high.now ≡ length low.now }
    requires first { first ≤ length low.now }
    requires short { (s : ℕ) → s < length high.now → slice_index_or high.now s 0 ≤ 2 ^ 15 }
    ensures { IsTrue result → (s : ℕ) → first + s < length low.now
        → slice_index_or bid.now.mask.now (first + s) 0 ≡ 2 ^ 16 - 1
        → slice_index_or high.now s 0 + bid.now.worth ≤ slice_index_or low.now (first + s) 0 }
{
    let all = low.len();
    if all > bid.mask.len() {
        return false;
    }
    covers_masked(
        &low[first..],
        &high[..all - first],
        &bid.mask[first..all],
        bid.worth,
    )
}

/// Writes a part of a mask from a place on.
fn put_part(mask: &mut [u16], from: usize, part: &[u16])
    requires room { from + length part.now ≤ length mask.old }
    ensures before { (n : ℕ) → n < from → slice_index_or mask.new n 0 ≡ slice_index_or mask.old n 0 }
    ensures part { (i : ℕ) → i < length part.now → slice_index_or mask.new (from + i) 0 ≡ slice_index_or part.now i 0 }
    ensures places { length mask.new ≡ length mask.old }
{
    for i in 0..part.len() {
        mask[from + i] = part[i];
    }
}

/// Names all places from one up to another.
fn put_run(mask: &mut [u16], from: usize, to: usize)
    requires room { to ≤ length mask.old }
    ensures run { (n : ℕ) → from ≤ n → n < to → slice_index_or mask.new n 0 ≡ 2 ^ 16 - 1 }
    ensures places { length mask.new ≡ length mask.old }
{
    for i in from..to {
        mask[i] = ALL;
    }
}

/// Writes a part of a mask to the blocks of its length from one up to another.
fn put_parts(mask: &mut [u16], from: usize, to: usize, part: &[u16])
    requires room { to * length part.now ≤ length mask.old }
    requires size { length mask.old ≤ 2 ^ 40 }
    ensures parts { (q i : ℕ) → from ≤ q → q < to → i < length part.now
        → slice_index_or mask.new (q * length part.now + i) 0 ≡ slice_index_or part.now i 0 }
    ensures places { length mask.new ≡ length mask.old }
{
    let width = part.len();
    for block in from..to {
        put_part(mask, block * width, part);
    }
}

/// Writes the mask of a package: it names each place of a block where the package fits.
fn put_mask(supply: &[u16], widths: &[usize], lots: &[u16], mask: &mut [u16])
    requires widths { widths.now ≡ widths_of supply.now }
    requires some { 0 < length lots.now }
    requires categories { length lots.now ≤ length supply.now }
    requires room { states_of supply.now ≤ MASK_ROOM }
    requires places { length mask.old ≡ MASK_ROOM }
    ensures marks { Marks supply.now lots.now mask.new }
    ensures places { length mask.new ≡ length mask.old }
{
    let width = widths[0];
    let radix = supply[0] as usize + 1;
    if lots.len() == 1 {
        put_run(mask, lots[0] as usize * width, radix * width);
        return;
    }
    let mut part = [0u16; MASK_ROOM];
    put_mask(&supply[1..], &widths[1..], &lots[1..], &mut part);
    put_parts(mask, lots[0] as usize, radix, &part[..width]);
}

/// Writes the mask of the last categories of a package whose blocks have room, and gives how many these are, or 0.
pub fn put_deep_mask(supply: &[u16], widths: &[usize], lots: &[u16], mask: &mut [u16]) -> usize
    requires widths { widths.now ≡ widths_of supply.now }
    requires some { 0 < length lots.now }
    requires categories { length lots.now ≤ length supply.now }
    requires states { states_of supply.now ≤ MOST_STATES }
    requires places { length mask.old ≡ MASK_ROOM }
    ensures mask { HasMask result supply.now lots.now mask.new }
    ensures most { result ≤ length lots.now }
    ensures places { length mask.new ≡ length mask.old }
{
    if (supply[0] as usize + 1) * widths[0] <= MASK_ROOM {
        put_mask(supply, widths, lots, mask);
        return lots.len();
    }
    if lots.len() == 1 {
        return 0;
    }
    put_deep_mask(&supply[1..], &widths[1..], &lots[1..], mask)
}
