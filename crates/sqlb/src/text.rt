//! Finds how much of an input is text.
ghost use Rattle.std.specs.Prelude.{◌≡◌, ◌≢◌, ◌-◌, ◌<◌, ◌≤◌, ℕ, false, length, slice_index, IsTrue};
ghost use Rattle.std.specs.Str.{IsValidUpTo};
ghost use Rattle.sqlb.specs.Utf8.{EndsBeforeInvalidLine};

use crate::utf8::from_utf8;

// Where the last line ends that has a line feed.
fn end_of_lines(text: &[u8]) -> usize
    ensures within { result ≤ length text.now }
    ensures feed { 0 < result → slice_index text.now (result - 1) ≡ 10 }
    ensures last { (k : ℕ) → result ≤ k → k < length text.now → slice_index text.now k ≢ 10 }
{
    let mut end = text.len();
    while end > 0 && text[end - 1] != b'\n' {
        end -= 1;
    }
    end
}

// The whole lines before the place up to which an input is UTF-8.
#[inline(never)]
fn lines_before(input: &[u8], valid: usize) -> &str
    requires { IsValidUpTo input.now valid }
    ensures { EndsBeforeInvalidLine input.now result.now }
{
    let end = end_of_lines(&input[..valid]);
    match from_utf8(&input[..end]) {
        Ok(text) => text,
        Err(_) => unreachable!(),
    }
}

/// Returns the lines of an input before the first that isn't UTF-8, and whether there is such a
/// line.
pub(crate) fn lines_of_text(input: &[u8]) -> (&str, bool)
    ensures whole { result.1 ≡ false → result.0.now ≡ input.now }
    ensures cut { IsTrue result.1 → EndsBeforeInvalidLine input.now result.0.now }
{
    match from_utf8(input) {
        Ok(text) => (text, false),
        Err(valid) => (lines_before(input, valid), true),
    }
}
