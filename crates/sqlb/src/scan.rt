//! Scans of sixteen bytes at a time.
ghost use Rattle.std.specs.Prelude.{◌≡◌, ◌+◌, ◌<◌, ◌≤◌, MatchOption, drop, length, position, take};
ghost use Rattle.std.specs.List.{position_or_len};
ghost use Rattle.sqlb.specs.Arguments.{is_or_feed};

use std::simd::prelude::*;

const LANES: usize = 16;

// How many of the next sixteen bytes precede the first that is this one or a line feed, if there is
// one.
#[inline(always)]
fn find_in_block(text: &[u8], at: usize, first: u8) -> Option<usize>
    requires { at + LANES ≤ length text.now }
    ensures { MatchOption result
        (position_or_len (is_or_feed first) (take LANES (drop at text.now)) ≡ LANES)
        (λ run. (run < LANES)
        × (position_or_len (is_or_feed first) (take LANES (drop at text.now)) ≡ run)) }
{
    let block = u8x16::from_slice(&text[at..]);
    let ends = block.simd_eq(u8x16::splat(first)) | block.simd_eq(u8x16::splat(b'\n'));
    let ends = ends.to_bitmask();
    if ends == 0 {
        return None;
    }
    Some(ends.trailing_zeros() as usize)
}

fn find_end(text: &[u8], first: u8) -> Option<usize>
    ensures { result ≡ position (is_or_feed first) text.now }
{
    text.iter()
        .position(|byte| *byte == first || *byte == b'\n')
}

// The last bytes of a text fill no block.
#[inline(never)]
fn end_in_rest(text: &[u8], from: usize, first: u8) -> usize
    requires { from ≤ length text.now }
    ensures { result ≡ from + position_or_len (is_or_feed first) (drop from text.now) }
{
    match find_end(&text[from..], first) {
        Some(count) => from + count,
        None => text.len(),
    }
}

/// Returns the place of the next byte that is this one or a line feed, or the end of the text.
#[inline(always)]
pub(crate) fn end_at(text: &[u8], from: usize, first: u8) -> usize
    requires { from ≤ length text.now }
    ensures { result ≡ from + position_or_len (is_or_feed first) (drop from text.now) }
{
    let mut at = from;
    while text.len() - at >= LANES {
        if let Some(run) = find_in_block(text, at, first) {
            return at + run;
        }
        at += LANES;
    }
    end_in_rest(text, at, first)
}
