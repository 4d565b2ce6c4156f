//! A test for UTF-8 that reads many bytes at a time.
ghost use Rattle.std.specs.Prelude.{◌≡◌, ◌<◌, ◌≤◌, length, map, take, IsTrue, MatchResult};
ghost use Rattle.std.specs.Int.{bit_at, is_in_range};
ghost use Rattle.std.specs.Simd.Lanes.{mask_l};
ghost use Rattle.std.specs.Str.{IsUtf8, IsValidUpTo};
ghost use Rattle.sqlb.specs.Utf8.{BeginsText};

use std::simd::prelude::*;
use std::str;

const LANES: usize = 64;

/// How many bytes std tests where a block holds characters that are not tested here.
const STRETCH: usize = 256;

// A bit for each byte of a block that is in a range, the lowest for the first.
#[inline(always)]
fn bytes_within(block: u8x64, least: u8, most: u8) -> u64
    ensures { result ≡ mask_l (map (is_in_range least most) block) }
{
    let within = block.simd_ge(u8x64::splat(least)) & block.simd_le(u8x64::splat(most));
    within.to_bitmask()
}

#[inline(always)]
fn is_ascii(block: u8x64) -> bool
    ensures { IsTrue result → IsUtf8 block }
{
    bytes_within(block, 0x80, 0xff) == 0
}

// Whether a block begins a text. Of one with a character of four bytes the answer is no, and of one
// with 0xe0 or 0xed, after which only some of the tails may follow.
#[inline(always)]
fn begins_text(block: u8x64) -> bool
    ensures { IsTrue result → BeginsText block }
{
    let high = bytes_within(block, 0x80, 0xff);
    let tails = bytes_within(block, 0x80, 0xbf);
    let twos = bytes_within(block, 0xc2, 0xdf);
    // These share no bit, so that a sum has the bits of both.
    if high == twos + tails {
        return tails == twos << 1;
    }
    let threes = bytes_within(block, 0xe1, 0xef);
    if high != twos + threes + tails || bytes_within(block, 0xed, 0xed) != 0 {
        return false;
    }
    tails == ((twos + threes) << 1).wrapping_add(threes << 2)
}

// Where the last character of a block begins, which may end in the next. Tails begin none.
#[inline(always)]
fn last_char_start(tails: u64) -> usize
    ensures within { result < LANES }
    ensures start { 0 < result → bit_at tails result ≡ 0 }
{
    match tails >> 61 {
        0..=3 => 63,
        4..=5 => 62,
        6 => 61,
        _ => 0,
    }
}

// How many bytes of a block are text, or 0 where it holds characters that are not tested here.
#[inline(always)]
fn run_in_block(block: u8x64) -> usize
    ensures within { result ≤ LANES }
    ensures text { IsUtf8 (take result block) }
{
    if is_ascii(block) {
        return LANES;
    }
    if !begins_text(block) {
        return 0;
    }
    last_char_start(bytes_within(block, 0x80, 0xbf))
}

// How many bytes at the front are blocks of ASCII. Many inputs have no others, so two are tested a
// step.
fn ascii_prefix(bytes: &[u8]) -> usize
    ensures within { result ≤ length bytes.now }
    ensures text { IsUtf8 (take result bytes.now) }
{
    let mut at = 0;
    while bytes.len() - at >= 2 * LANES {
        if !is_ascii(u8x64::from_slice(&bytes[at..])) {
            break;
        }
        if !is_ascii(u8x64::from_slice(&bytes[at + LANES..])) {
            break;
        }
        at += 2 * LANES;
    }
    at
}

// How many bytes at the front are text that is tested here.
fn block_prefix(bytes: &[u8]) -> usize
    ensures within { result ≤ length bytes.now }
    ensures text { IsUtf8 (take result bytes.now) }
{
    let mut at = 0;
    while bytes.len() - at >= LANES {
        let run = run_in_block(u8x64::from_slice(&bytes[at..]));
        if run == 0 {
            break;
        }
        at += run;
    }
    at
}

// How many bytes at the front are text, of a stretch that std tests.
fn stretch_prefix(bytes: &[u8]) -> usize
    ensures within { result ≤ length bytes.now }
    ensures text { IsUtf8 (take result bytes.now) }
{
    let end = bytes.len().min(STRETCH);
    match str::from_utf8(&bytes[..end]) {
        Ok(_) => end,
        Err(fault) => fault.valid_up_to(),
    }
}

// How many bytes at the front are text. What follows them begins with a fault.
fn text_prefix(bytes: &[u8]) -> usize
    ensures within { result ≤ length bytes.now }
    ensures text { IsUtf8 (take result bytes.now) }
{
    let mut at = ascii_prefix(bytes);
    while at < bytes.len() {
        at += block_prefix(&bytes[at..]);
        let run = stretch_prefix(&bytes[at..]);
        if run == 0 {
            break;
        }
        at += run;
    }
    at
}

/// Returns the bytes as a text, as `str::from_utf8` does. Fails with the place of the first fault
/// alone.
pub(crate) fn from_utf8(bytes: &[u8]) -> Result<&str, usize>
    ensures { MatchResult result (λ text. text.now ≡ bytes.now)
        (λ valid. IsValidUpTo bytes.now valid) }
{
    let at = text_prefix(bytes);
    match str::from_utf8(&bytes[at..]) {
        Ok(_) => Ok(unsafe { str::from_utf8_unchecked(bytes) }),
        Err(fault) => Err(at + fault.valid_up_to()),
    }
}

#[cfg(test)]
mod tests {
    use super::from_utf8;
    use std::alloc::{AllocError, Global};
    use std::str;
    use std::test::Fail;

    /// Bytes, and whether they are text.
    const SAMPLES: [(&[u8], bool); 30] = [
        (b"", true),
        (b"\x7f", true),
        (b"\xc2\x80", true),
        (b"\xdf\xbf", true),
        (b"\xe0\xa0\x80", true),
        (b"\xe1\x80\x80", true),
        (b"\xe2\x82\xac", true),
        (b"\xed\x9f\xbf", true),
        (b"\xee\x80\x80", true),
        (b"\xef\xbf\xbf", true),
        (b"\xf0\x90\x80\x80", true),
        (b"\xf4\x8f\xbf\xbf", true),
        (b"\x80", false),
        (b"\xbf\xbf", false),
        (b"\xc0\x80", false),
        (b"\xc1\xbf", false),
        (b"\xc2", false),
        (b"\xdfa", false),
        (b"\xc3\xc3\xa9", false),
        (b"\xc3\xa9\xa9", false),
        (b"\xe0\x80\x80", false),
        (b"\xe0\x9f\xbf", false),
        (b"\xe1\x80", false),
        (b"\xe1\xc3\xa9\x80", false),
        (b"\xef\xbf\xbf\xbf", false),
        (b"\xed\xa0\x80", false),
        (b"\xf0\x8f\xbf\xbf", false),
        (b"\xf4\x90\x80\x80", false),
        (b"\xf5\x80\x80\x80", false),
        (b"\xff", false),
    ];

    /// What follows a sample, to fill the blocks.
    const FILLS: [&str; 5] = ["", "a", "é", "中", "🙂"];

    fn placed(
        alloc: Global,
        before: usize,
        sample: &[u8],
        fill: &str,
    ) -> Result<Vec<u8>, AllocError> {
        let mut bytes = Vec::new(alloc);
        for _ in 0..before {
            bytes.push(b'a')?;
        }
        bytes.extend_from_slice(sample)?;
        for _ in 0..150 {
            bytes.extend_from_slice(fill.as_bytes())?;
        }
        Ok(bytes)
    }

    #[test]
    fn same_as_std_at_each_place(rt: HostRuntime) -> Result<(), Fail> {
        for (sample, is_text) in SAMPLES {
            for fill in FILLS {
                for before in 0..130 {
                    let bytes = placed(rt.alloc(), before, sample, fill)?;
                    let fault = from_utf8(&bytes).err();
                    let want = str::from_utf8(&bytes)
                        .err()
                        .map(|fault| fault.valid_up_to());
                    assert_eq!(rt; fault, want);
                    assert_eq!(rt; fault.is_none(), is_text);
                }
            }
        }
        Ok(())
    }
}
