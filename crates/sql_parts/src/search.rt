//! A search for a text in another one, at sixteen places together.
ghost use Rattle.std.specs.Prelude.{◌≡◌, ◌≢◌, ◌+◌, ◌<◌, ◌≤◌, ◌++◌, ℕ, IsTrue, MatchOption, drop, false, if◌then◌else◌, length, nat_eq, slice_index, true};
ghost use Rattle.std.specs.Int.{bit_at};
ghost use Rattle.std.specs.List.{starts_with};
ghost use Rattle.std.specs.Str.Pattern.{LacksTextAt};
ghost use Rattle.sql_parts.specs.Search.{front_of, gap, has_front};

use std::simd::prelude::*;

const LANES: usize = 16;

const WIDE: usize = 64;

/// The first two bytes of a text that is sought, or its only one twice.
#[derive(Clone, Copy)]
pub(crate) struct Front {
    first: u8,
    second: u8,
    /// How far the second one is behind the first one.
    gap: usize,
}

impl Front {
    pub(crate) fn of(sought: &str) -> Front
        requires { 0 < length sought.now }
        ensures { result ≡ front_of sought.now }
    {
        let bytes = sought.as_bytes();
        let gap = (bytes.len() - 1).min(1);
        Front {
            first: bytes[0],
            second: bytes[gap],
            gap,
        }
    }
}

// Which of sixteen places have these bytes, a bit for each.
#[inline(always)]
fn fronts(bytes: &[u8], at: usize, front: Front) -> u64
    requires room { at + LANES + front.gap ≤ length bytes.now }
    ensures places { (k : ℕ) → k < LANES → bit_at result k
        ≡ (if has_front front bytes.now (at + k) then 1 else 0) }
    ensures within { (k : ℕ) → LANES ≤ k → bit_at result k ≡ 0 }
{
    let first = u8x16::from_slice(&bytes[at..]).simd_eq(u8x16::splat(front.first));
    let second = u8x16::from_slice(&bytes[at + front.gap..]).simd_eq(u8x16::splat(front.second));
    (first & second).to_bitmask()
}

// The first place from `from` on with these bytes.
#[inline(always)]
fn next_place(bytes: &[u8], from: usize, front: Front) -> Option<usize>
    requires gap { front.gap ≤ 1 }
    requires start { from ≤ length bytes.now }
    ensures { MatchOption result
        ((k : ℕ) → from ≤ k → k + front.gap < length bytes.now → has_front front bytes.now k ≡ false)
        (λ place. (from ≤ place) × (place + front.gap < length bytes.now)
        × ((k : ℕ) → from ≤ k → k < place → has_front front bytes.now k ≡ false)
        × (has_front front bytes.now place ≡ true)) }
{
    let mut at = from;
    while LANES + front.gap <= bytes.len() - at {
        let found = fronts(bytes, at, front);
        if found != 0 {
            return Some(at + found.trailing_zeros() as usize);
        }
        at += LANES;
    }
    while front.gap < bytes.len() - at {
        if bytes[at] == front.first && bytes[at + front.gap] == front.second {
            return Some(at);
        }
        at += 1;
    }
    None
}

// Whether a byte is not one of sixty-four. Of an answer no nothing is said.
#[inline(always)]
fn lacks(bytes: &[u8], at: usize, byte: u8) -> bool
    requires { at + WIDE ≤ length bytes.now }
    ensures { IsTrue result → (k : ℕ) → at ≤ k → k < at + WIDE → slice_index bytes.now k ≢ byte }
{
    let found = u8x64::from_slice(&bytes[at..]).simd_eq(u8x64::splat(byte));
    found.to_bitmask() == 0
}

/// The first place of a byte, which is sought 64 bytes at a time: std's took 73 instructions for six bytes.
pub(crate) fn find_byte(bytes: &[u8], byte: u8) -> Option<usize>
    ensures { MatchOption result
        ((k : ℕ) → k < length bytes.now → slice_index bytes.now k ≢ byte)
        (λ place. (place < length bytes.now) × (slice_index bytes.now place ≡ byte)
        × ((k : ℕ) → k < place → slice_index bytes.now k ≢ byte)) }
{
    let mut at = 0;
    while WIDE <= bytes.len() - at && lacks(bytes, at, byte) {
        at += WIDE;
    }
    let front = Front {
        first: byte,
        second: byte,
        gap: 0,
    };
    next_place(bytes, at, front)
}

// Whether the text is at a place that has its first two bytes.
#[inline(always)]
fn begins_at(bytes: &[u8], place: usize, sought: &[u8]) -> bool
    requires some { 0 < length sought.now }
    requires room { place + gap sought.now < length bytes.now }
    requires front { has_front (front_of sought.now) bytes.now place ≡ true }
    ensures { result ≡ starts_with nat_eq (drop place bytes.now) sought.now }
{
    sought.len() <= 2 || bytes[place..].starts_with(sought)
}

// Whether the places that failed took more than eight bytes for each one that was passed, but for
// the first hundreds, if at each of them all bytes were compared.
#[inline(always)]
fn wastes_time(compared: usize, passed: usize) -> bool {
    compared / 8 > passed.saturating_add(128)
}

// The text before the first place of another one, and the text behind it, in a time that grows with
// the text alone.
#[cold]
fn split_linearly<'t>(text: &'t str, sought: &str) -> Option<(&'t str, &'t str)>
    requires { 0 < length sought.now }
    ensures { MatchOption result ((k : ℕ) → LacksTextAt sought.now text.now k)
        (λ parts. (text.now ≡ parts.0.now ++ (sought.now ++ parts.1.now))
        × ((k : ℕ) → k < length parts.0.now → LacksTextAt sought.now text.now k)) }
{
    text.split_once(sought)
}

/// The text before the first place of another one, and the text behind it. It is `split_once`, made
/// for texts that are short, and for one that is there often: its first bytes are read once. Where
/// they are at many places that fail, `split_once` itself goes on.
#[inline(always)]
pub(crate) fn split_at_first<'t>(
    text: &'t str,
    sought: &str,
    front: Front,
) -> Option<(&'t str, &'t str)>
    requires some { 0 < length sought.now }
    requires front { front ≡ front_of sought.now }
    ensures { MatchOption result ((k : ℕ) → LacksTextAt sought.now text.now k)
        (λ parts. (text.now ≡ parts.0.now ++ (sought.now ++ parts.1.now))
        × ((k : ℕ) → k < length parts.0.now → LacksTextAt sought.now text.now k)) }
{
    let bytes = text.as_bytes();
    let needle = sought.as_bytes();
    let mut at = 0;
    let mut compared = 0_usize;
    while let Some(place) = next_place(bytes, at, front) {
        if begins_at(bytes, place, needle) {
            return Some((&text[..place], &text[place + needle.len()..]));
        }
        at = place + 1;
        compared = compared.saturating_add(needle.len());
        if wastes_time(compared, at) {
            return split_linearly(text, sought);
        }
    }
    None
}
