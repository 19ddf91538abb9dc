// Up to eight digits of a piece at once, as one word: each byte less the byte of 0, the first one lowest.
ghost use Rattle.std.specs.Prelude.{◌≡◌, ℕ, ◌+◌, ◌*◌, ◌≤◌, ◌<◌, ◌^◌, List, length, take, drop, get_or};
ghost use Rattle.std.specs.Int.{bit_at};
ghost use Rattle.wide_num.proofs.Decimal.{AreDigits, IsDigit, read_on};
ghost use Rattle.cert_stream.specs.Words.{AreDigitsFrom, AreEight, AreFours, ArePairs, word_of};

use std::simd::prelude::*;

/// Every second byte of a word.
const SECOND_BYTES: u64 = 0x00ff_00ff_00ff_00ff;

/// Every second two bytes of a word.
const SECOND_PAIRS: u64 = 0x0000_ffff_0000_ffff;

/// The lower half of a word.
const LOWER_HALF: u64 = 0xffff_ffff;

/// Which of eight bytes of a piece are digits: the lowest bit is for the first. They are compared at once.
fn digits_at(piece: &[u8], at: usize) -> u64
    requires { at + 8 ≤ length piece.now }
    ensures small { result < 2 ^ 8 }
    ensures digits { (i : ℕ) → bit_at result i ≡ 1 → IsDigit (get_or piece.now (at + i) 0) }
{
    let bytes = u8x8::from_slice(&piece[at..]);
    let values = bytes - u8x8::splat(b'0');
    values.simd_lt(u8x8::splat(10)).to_bitmask()
}

/// How many digits are in a piece from a place on, up to eight.
pub(crate) fn digit_count(piece: &[u8], at: usize) -> usize
    requires { at + 8 ≤ length piece.now }
    ensures most { result ≤ 8 }
    ensures digits { AreDigitsFrom piece.now at result }
{
    digits_at(piece, at).trailing_ones() as usize
}

/// The word of eight bytes of a piece.
pub(crate) fn word_at(piece: &[u8], at: usize) -> u64
    requires { at + 8 ≤ length piece.now }
    ensures { result ≡ word_of (take 8 (drop at piece.now)) }
{
    let bytes = u8x8::from_slice(&piece[at..]);
    u64x1::from_le_bytes(bytes - u8x8::splat(b'0')).to_array()[0]
}

/// Of eight digits the numbers that each two of them spell, in two bytes each.
fn digit_pairs(digits: u64) -> u64
    ensures { (a b c d e f g h : ℕ) → AreEight digits a b c d e f g h
        → ArePairs result (10 * a + b) (10 * c + d) (10 * e + f) (10 * g + h) }
{
    digits.wrapping_mul(10).wrapping_add(digits >> 8) & SECOND_BYTES
}

/// Of four such numbers those that each two of them spell, in four bytes each.
fn pair_fours(pairs: u64) -> u64
    ensures { (a b c d : ℕ) → ArePairs pairs a b c d → AreFours result (100 * a + b) (100 * c + d) }
{
    pairs.wrapping_mul(100).wrapping_add(pairs >> 16) & SECOND_PAIRS
}

/// What the two numbers of four digits each spell.
fn both_fours(fours: u64) -> u64
    ensures spelled { (a b : ℕ) → AreFours fours a b → result ≡ 10000 * a + b }
    ensures low { result < 10 ^ 14 }
{
    10_000 * (fours & LOWER_HALF) + (fours >> 32)
}

/// The number that the first bytes of a word spell. The others are pushed out of it, so that zeros come before the digits.
pub(crate) fn spelled(word: u64, count: usize) -> u64
    requires some { 0 < count }
    requires most { count ≤ 8 }
    ensures spelled { (bytes : List ℕ) → length bytes ≡ 8 → word ≡ word_of bytes → AreDigits (take count bytes)
        → result ≡ read_on 0 (take count bytes) }
    ensures low { result < 10 ^ 14 }
{
    let digits = word << (64 - 8 * count);
    both_fours(pair_fours(digit_pairs(digits)))
}
