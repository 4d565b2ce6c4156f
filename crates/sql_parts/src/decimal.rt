//! Whole numbers in decimal.
ghost use Rattle.std.specs.Prelude.{◌≡◌, ◌+◌, ◌/◌, ◌%◌, ◌^◌, ◌<◌, ◌≤◌, ◌∷◌, ◌++◌, IfOk, OnErr, OnOk, drop, length, string_bytes, suc};
ghost use Rattle.std.specs.Fmt.{decimal, signed_decimal};
ghost use Rattle.std.specs.Str.{IsAscii};
ghost use Rattle.sql_parts.specs.{last_digits, decimal_text, number_text};

use std::alloc::{AllocError, Global};
use std::str;

static PAIRS: [u8; 200] =
    *b"00010203040506070809101112131415161718192021222324252627282930313233343536373839404142434445464748495051525354555657585960616263646566676869707172737475767778798081828384858687888990919293949596979899";

/// A minus, and the digits of the greatest number.
const LONGEST: usize = 40;

/// A number with nineteen zeros, the greatest one that has only zeros and is an u64.
const BASE: u128 = 10_000_000_000_000_000_000;

// Writes two digits.
#[inline(always)]
fn write_pair(pair: u64, text: &mut [u8], at: usize)
    requires { (pair < 100) × (at + 2 ≤ length text.old) }
    ensures { drop at text.new ≡ (48 + pair / 10) ∷ (48 + pair % 10) ∷ drop (at + 2) text.old }
{
    let from = pair as usize * 2;
    let (tens, ones) = (PAIRS[from], PAIRS[from + 1]);
    text[at] = tens;
    text[at + 1] = ones;
}

// Writes one digit or two, which end there, and says where they begin.
#[inline(always)]
fn write_first(number: u64, text: &mut [u8], end: usize) -> usize
    requires { (number < 100) × (length (decimal number) ≤ end) × (end ≤ length text.old) }
    ensures start { result + length (decimal number) ≡ end }
    ensures written { drop result text.new ≡ decimal number ++ drop end text.old }
{
    if number < 10 {
        text[end - 1] = b'0' + number as u8;
        return end - 1;
    }
    write_pair(number, text, end - 2);
    end - 2
}

// Writes the digits, which end there, and says where they begin.
#[inline(always)]
fn write_digits(number: u64, text: &mut [u8], end: usize) -> usize
    requires { (length (decimal number) ≤ end) × (end ≤ length text.old) }
    ensures start { result + length (decimal number) ≡ end }
    ensures written { drop result text.new ≡ decimal number ++ drop end text.old }
{
    let mut left = number;
    let mut at = end;
    while left >= 100 {
        write_pair(left % 100, text, at - 2);
        left /= 100;
        at -= 2;
    }
    write_first(left, text, at)
}

// Writes four digits.
#[inline(always)]
fn write_four(four: u64, text: &mut [u8], at: usize)
    requires { (four < 10000) × (at + 4 ≤ length text.old) }
    ensures { drop at text.new ≡ last_digits 4 four ++ drop (at + 4) text.old }
{
    write_pair(four % 100, text, at + 2);
    write_pair(four / 100, text, at);
}

// Writes the last nineteen digits, which end there, and says where they begin.
#[inline(always)]
fn write_last(number: u64, text: &mut [u8], end: usize) -> usize
    requires { (number < 10 ^ 19) × (19 ≤ end) × (end ≤ length text.old) }
    ensures start { result + 19 ≡ end }
    ensures written { drop result text.new ≡ last_digits 19 number ++ drop end text.old }
{
    let mut left = number;
    for fours in 0..4 {
        write_four(left % 10_000, text, end - 4 * fours - 4);
        left /= 10_000;
    }
    write_pair(left % 100, text, end - 18);
    text[end - 19] = b'0' + (left / 100) as u8;
    end - 19
}

// Writes the digits of any number at the end, and says where they begin.
#[inline(always)]
fn write_number(number: u128, text: &mut [u8; LONGEST]) -> usize
    ensures start { result + length (decimal number) ≡ 40 }
    ensures written { drop result text.new ≡ decimal number }
{
    let mut left = number;
    let mut end = LONGEST;
    while left > u64::MAX as u128 {
        let high = left / BASE;
        end = write_last((left - high * BASE) as u64, text, end);
        left = high;
    }
    write_digits(left as u64, text, end)
}

// The same with a minus before a negative number.
#[inline(always)]
fn write_signed(number: i128, text: &mut [u8; LONGEST]) -> usize
    ensures within { result ≤ 40 }
    ensures written { drop result text.new ≡ signed_decimal number }
{
    let start = write_number(number.unsigned_abs(), text);
    if number >= 0 {
        return start;
    }
    text[start - 1] = b'-';
    start - 1
}

// The end of a text of digits.
#[inline(always)]
fn written(text: &[u8], start: usize) -> &str
    requires start { start ≤ length text.now }
    requires ascii { IsAscii (drop start text.now) }
    ensures { result.now ≡ drop start text.now }
{
    let digits = &text[start..];
    // It is proved that they are ASCII, so no test looks at them again.
    unsafe { str::from_utf8_unchecked(digits) }
}

/// The text of a number. It takes the number by value, so that its range is known.
#[inline(always)]
pub(crate) fn unsigned_text(alloc: Global, number: u128) -> Result<String, AllocError>
    ensures { IfOk result (λ s. string_bytes s ≡ decimal_text number) }
{
    let mut text = [0; LONGEST];
    let start = write_number(number, &mut text);
    String::from_str(alloc, written(&text, start))
}

/// The text of a number, with a minus before a negative one.
#[inline(always)]
pub(crate) fn signed_text(alloc: Global, number: i128) -> Result<String, AllocError>
    ensures { IfOk result (λ s. string_bytes s ≡ number_text number) }
{
    let mut text = [0; LONGEST];
    let start = write_signed(number, &mut text);
    String::from_str(alloc, written(&text, start))
}

/// Appends the text of a number.
#[inline(always)]
pub(crate) fn push_unsigned(out: &mut String, number: u128) -> Result<(), AllocError>
    ensures text { OnOk result (string_bytes out.new ≡ string_bytes out.old ++ decimal_text number) }
    ensures kept { OnErr result (string_bytes out.new ≡ string_bytes out.old) }
{
    let mut text = [0; LONGEST];
    let start = write_number(number, &mut text);
    out.push_str(written(&text, start))?;
    Ok(())
}

/// Appends the text of a number, with a minus before a negative one.
#[inline(always)]
pub(crate) fn push_signed(out: &mut String, number: i128) -> Result<(), AllocError>
    ensures text { OnOk result (string_bytes out.new ≡ string_bytes out.old ++ number_text number) }
    ensures kept { OnErr result (string_bytes out.new ≡ string_bytes out.old) }
{
    let mut text = [0; LONGEST];
    let start = write_signed(number, &mut text);
    out.push_str(written(&text, start))?;
    Ok(())
}

// Writes the digits of a number behind one byte, up to the end, and says where that is.
#[inline(always)]
fn write_prefixed(prefix: u8, number: u64, text: &mut [u8]) -> usize
    requires { length (decimal number) < length text.old }
    ensures start { result + suc (length (decimal number)) ≡ length text.old }
    ensures written { drop result text.new ≡ prefix ∷ decimal number }
{
    let start = write_digits(number, text, text.len()) - 1;
    text[start] = prefix;
    start
}

/// The text of a number behind an ASCII byte.
#[inline(always)]
pub(crate) fn prefixed_text(alloc: Global, prefix: u8, number: u64) -> Result<String, AllocError>
    requires ascii { prefix < 128 }
    ensures { IfOk result (λ s. string_bytes s ≡ prefix ∷ decimal_text number) }
{
    let mut text = [0; LONGEST];
    let start = write_prefixed(prefix, number, &mut text);
    String::from_str(alloc, written(&text, start))
}

// Appends the text of a number behind an ASCII byte, written where there is room for it.
#[inline(always)]
fn push_by(out: &mut String, prefix: u8, number: u64, room: &mut [u8]) -> Result<(), AllocError>
    requires ascii { prefix < 128 }
    requires fits { length (decimal number) < length room.old }
    ensures text { OnOk result (string_bytes out.new ≡ string_bytes out.old ++ prefix ∷ decimal_text number) }
    ensures kept { OnErr result (string_bytes out.new ≡ string_bytes out.old) }
{
    let start = write_prefixed(prefix, number, room);
    out.push_str(written(room, start))?;
    Ok(())
}

/// Appends the text of a number behind an ASCII byte. A text whose length is known is copied at once.
#[inline(always)]
pub(crate) fn push_prefixed(out: &mut String, prefix: u8, number: u64) -> Result<(), AllocError>
    requires ascii { prefix < 128 }
    ensures text { OnOk result (string_bytes out.new ≡ string_bytes out.old ++ prefix ∷ decimal_text number) }
    ensures kept { OnErr result (string_bytes out.new ≡ string_bytes out.old) }
{
    match number {
        0..10 => push_by(out, prefix, number, &mut [0; 2]),
        10..100 => push_by(out, prefix, number, &mut [0; 3]),
        100..1000 => push_by(out, prefix, number, &mut [0; 4]),
        _ => push_by(out, prefix, number, &mut [0; LONGEST]),
    }
}
