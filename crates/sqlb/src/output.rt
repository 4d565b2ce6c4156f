//! Writes texts and faults.
ghost use Rattle.std.specs.Prelude.{◌≡◌, ◌≤◌, ℕ, List, ◌++◌};
ghost use Rattle.std.specs.Prelude.{codes, decimal, drop, false, flat_map};
ghost use Rattle.std.specs.Io.KnownBytes.{Appends};
ghost use Rattle.sqlb.specs.{WritesOrFails, fault_text};

use crate::fault::Fault;
use crate::watched::Watched;
use std::io::Write;

/// Writes all the bytes. Fails with `Write` at the first write that fails, and then stops.
pub(crate) fn write_all<W: Write>(writer: &mut Watched<W>, bytes: &[u8]) -> Result<(), Fault>
    requires not_failed { writer.old.failed ≡ false }
    ensures wrote { (written : List ℕ) × Appends (W.contents writer.old.inner)
        (W.contents writer.new.inner) written × WritesOrFails result written bytes.now writer.new.failed }
    ensures ended { writer.new.ended ≡ writer.old.ended }
    ensures retried { writer.new.retried ≡ writer.old.retried }
{
    let mut rest = bytes;
    'writes: while !rest.is_empty() {
        match writer.write(rest) {
            Ok(0) | Err(_) => return Err(Fault::Write),
            Ok(n) => rest = &rest[n..],
        }
    }
    Ok(())
}

/// Writes all the parts, one after another. Fails with `Write` at the first write that fails, and
/// then stops.
pub(crate) fn write_parts<W: Write>(writer: &mut Watched<W>, parts: &[&[u8]]) -> Result<(), Fault>
    requires not_failed { writer.old.failed ≡ false }
    ensures wrote { (written : List ℕ) × Appends (W.contents writer.old.inner)
        (W.contents writer.new.inner) written
        × WritesOrFails result written (flat_map (λ part. part.now) parts.now) writer.new.failed }
    ensures ended { writer.new.ended ≡ writer.old.ended }
    ensures retried { writer.new.retried ≡ writer.old.retried }
{
    for part in parts {
        write_all(writer, part)?;
    }
    Ok(())
}

/// Writes the text and a line feed. Fails with `Write` at the first write that fails, and then
/// stops.
pub(crate) fn write_line<W: Write>(writer: &mut Watched<W>, text: &str) -> Result<(), Fault>
    requires not_failed { writer.old.failed ≡ false }
    ensures wrote { (written : List ℕ) × Appends (W.contents writer.old.inner)
        (W.contents writer.new.inner) written
        × WritesOrFails result written (text.now ++ codes "\n") writer.new.failed }
    ensures ended { writer.new.ended ≡ writer.old.ended }
    ensures retried { writer.new.retried ≡ writer.old.retried }
{
    write_parts(writer, &[text.as_bytes(), b"\n"])
}

/// The most digits that a `usize` has.
const MOST_DIGITS: usize = 20;

// Writes the decimal digits of the number at the end of `digits`, and gives where they begin.
// They don't go through `Display`, since nothing says that it succeeds.
fn write_digits(number: usize, digits: &mut [u8; MOST_DIGITS]) -> usize
    ensures digits { drop result digits.new ≡ decimal number }
    ensures within { result ≤ 20 }
{
    let mut start = MOST_DIGITS;
    let mut rest = number;
    'digits: loop {
        start -= 1;
        digits[start] = b'0' + (rest % 10) as u8;
        rest /= 10;
        if rest == 0 {
            return start;
        }
    }
}

/// Writes the fault as a line, and asks for no memory. Fails only with `Write`, if the writer
/// fails. Then only a beginning of the line is written.
pub fn write_fault<W: Write>(fault: &Fault, writer: &mut Watched<W>) -> Result<(), Fault>
    requires not_failed { writer.old.failed ≡ false }
    ensures wrote { (written : List ℕ) × Appends (W.contents writer.old.inner)
        (W.contents writer.new.inner) written
        × WritesOrFails result written (fault_text fault.now ++ codes "\n") writer.new.failed }
    ensures ended { writer.new.ended ≡ writer.old.ended }
    ensures retried { writer.new.retried ≡ writer.old.retried }
{
    match fault {
        Fault::At(line, reason) => {
            let mut digits = [0; MOST_DIGITS];
            let start = write_digits(*line, &mut digits);
            let reason = reason.message().as_bytes();
            write_parts(writer, &[b"line ", &digits[start..], b": ", reason, b"\n"])
        }
        Fault::Memory => write_all(writer, b"Out of memory\n"),
        Fault::Read => write_all(writer, b"read failed\n"),
        Fault::Write => write_all(writer, b"write failed\n"),
    }
}
