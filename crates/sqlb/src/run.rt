//! Runs an input, from its bytes to the statements that it prints.
ghost use Rattle.std.specs.Prelude.{◌≡◌, ◌↔◌, ◌<◌, ◌^◌, ℕ, List, None, true, false, IfErr, IsErrOf};
ghost use Rattle.std.specs.Io.KnownBytes.{Appends, Consumes, IsAtEnd};
ghost use Rattle.std.specs.Io.Buffered.{writer_contents};
ghost use Rattle.sqlb.specs.{output, EndsUnlessStopped, FailsOnlyToWrite, NamesNoMemory, MemoryRunsOutInLine, AgreesWithOutput, RunsBuffered, result_at_end};

use crate::arguments::Arguments;
use crate::fault::{Fault, LineError, Reason};
use crate::input::read_all;
use crate::output::write_line;
use crate::script::Script;
use crate::text::lines_of_text;
use crate::watched::Watched;
use std::alloc::Global;
use std::io::{BufWriter, Read, Write};
use std::mem::forget;

// Runs the lines of an input, and writes each statement where it is finished. No statement is open
// before.
fn run_lines<W: Write>(
    alloc: Global,
    input: &[u8],
    mut script: Script,
    writer: &mut Watched<W>,
) -> Result<(), Fault>
    requires none_open { script ≡ None }
    requires not_failed { writer.old.failed ≡ false }
    ensures ran { (written : List ℕ) × Appends (W.contents writer.old.inner)
        (W.contents writer.new.inner) written × AgreesWithOutput result written (output input.now)
        × MemoryRunsOutInLine result written input.now }
    ensures failed { FailsOnlyToWrite result writer.new.failed }
    ensures no_memory { IfErr result NamesNoMemory }
    ensures ended { writer.new.ended ≡ writer.old.ended }
    ensures retried { writer.new.retried ≡ writer.old.retried }
{
    let (text, has_invalid_line) = lines_of_text(input);
    let mut statement = String::new(alloc);
    let mut number = 0;
    let mut arguments = Arguments::of(text);
    'lines: while arguments.next_line() {
        number += 1;
        match script.take_line(&mut arguments, &mut statement) {
            Ok(true) => write_line(writer, &statement)?,
            Ok(false) => {}
            Err(LineError::Rejected(reason)) => return Err(Fault::At(number, reason)),
            Err(LineError::Memory) => return Err(Fault::Memory),
        }
    }
    let is_open = script.is_open();
    // The process ends soon: to drop a million conditions before takes a fifth of a run.
    forget(script);
    check_end(number, has_invalid_line, is_open)
}

// What a run returns at the end of its text, which has so many lines.
fn check_end(number: usize, has_invalid_line: bool, is_open: bool) -> Result<(), Fault>
    requires counted { number < 2 ^ 63 }
    ensures end { result ≡ result_at_end number has_invalid_line is_open }
{
    if has_invalid_line {
        return Err(Fault::At(number + 1, Reason::NotUtf8));
    }
    if is_open {
        return Err(Fault::At(number, Reason::NoEnd));
    }
    Ok(())
}

/// Reads the whole input, runs its lines, and writes each finished statement and a line feed. The
/// first fault ends the run, and the statements before it are written.
///
/// Fails with `Read` if a read fails, and with `Write` if a write fails. No read or write is tried
/// again after an error. Fails with `At` if a line is not accepted. Fails with `Memory` if memory
/// runs out, as it does for a reader that never ends.
pub fn run_input<R: Read, W: Write>(
    alloc: Global,
    reader: &mut Watched<R>,
    writer: &mut Watched<W>,
) -> Result<(), Fault>
    requires reader_not_failed { reader.old.failed ≡ false }
    requires reader_not_ended { reader.old.ended ≡ false }
    requires writer_not_failed { writer.old.failed ≡ false }

    // Some bytes were read, and what is written agrees with what they say to print. Once the reader
    // has ended, memory runs out in no line that fails a check.
    ensures ran { (taken : List ℕ) × (written : List ℕ)
        × Consumes (R.remaining reader.old.inner) (R.remaining reader.new.inner) taken
        × Appends (W.contents writer.old.inner) (W.contents writer.new.inner) written
        × AgreesWithOutput result written (output taken)
        × EndsUnlessStopped result written reader.new.ended
        × (reader.new.ended ≡ true → MemoryRunsOutInLine result written taken) }
    ensures end { reader.new.ended ≡ true → IsAtEnd (R.remaining reader.new.inner) }

    // No call of the writer is made before the reader has ended.
    ensures unwritten { reader.new.ended ≡ false → writer.new ≡ writer.old }

    // `Read` and `Write` are returned exactly where the reader and the writer have failed.
    ensures read { IsErrOf result Fault.Read ↔ (reader.new.failed ≡ true) }
    ensures write { IsErrOf result Fault.Write ↔ (writer.new.failed ≡ true) }

    // Nothing is called after it has failed, nor read after its end.
    ensures reads { reader.new.retried ≡ reader.old.retried }
    ensures writes { writer.new.retried ≡ writer.old.retried }

    // Out of memory is returned as `Memory`, and never as a line's reason.
    ensures no_memory { IfErr result NamesNoMemory }
{
    let script = Script::new(alloc)?;
    let text = read_all(alloc, reader)?;
    run_lines(alloc, &text, script, writer)
}

/// Runs an input as `run_input` does, and flushes the buffer before it returns. It returns the
/// writer below the buffer, and the result of the run. After a failed write, nothing more is
/// written or flushed. A failed flush is the fault `Write`, unless a read has failed. What is still
/// in the buffer then is lost.
pub(crate) fn run_flushed<R: Read, W: Write + Drop>(
    alloc: Global,
    reader: &mut Watched<R>,
    mut writer: Watched<BufWriter<W>>,
) -> (Watched<W>, Result<(), Fault>)
    requires reader_not_failed { reader.old.failed ≡ false }
    requires reader_not_ended { reader.old.ended ≡ false }
    requires writer_not_failed { writer.failed ≡ false }

    ensures ran { RunsBuffered result.1 (R.remaining reader.old.inner) (R.remaining reader.new.inner)
        reader.new.ended (writer_contents W.contents writer.inner) (W.contents result.0.inner)
        result.0.failed }
    ensures read { IsErrOf result.1 Fault.Read ↔ (reader.new.failed ≡ true) }

    // Unless a read has failed, `Write` is answered exactly where a write or a flush has failed.
    ensures write { reader.new.failed ≡ false
        → (IsErrOf result.1 Fault.Write ↔ (result.0.failed ≡ true)) }

    // Nothing is called after it has failed, nor read after its end. A new watch of the writer
    // would not have the value of the one that was given.
    ensures reads { reader.new.retried ≡ reader.old.retried }
    ensures writes { result.0.retried ≡ writer.retried }
    ensures no_memory { IfErr result.1 NamesNoMemory }
{
    let answer = run_input(alloc, reader, &mut writer);
    // Dropped whole, a buffered writer would try once more to write what it holds.
    if writer.failed() {
        return (writer.into_below(), Err(Fault::Write));
    }
    let flushed = writer.flush();
    let below = writer.into_below();
    match answer {
        Err(Fault::Read) => (below, Err(Fault::Read)),
        _ if flushed.is_err() => (below, Err(Fault::Write)),
        _ => (below, answer),
    }
}
