//! Runs the program over its three streams.
ghost use Rattle.std.specs.Prelude.{◌≡◌, ◌↔◌, ◌++◌, ℕ, List, Err, codes, false, true, IfErr, IfSome, IsErrOf, IsNone, IsSomeAnd, OnOk, is_some};
ghost use Rattle.std.specs.Io.Buffered.{writer_contents};
ghost use Rattle.std.specs.Io.KnownBytes.{Appends};
ghost use Rattle.sqlb.specs.{IsWrittenUnless, fault_text, NamesNoMemory, RunsBuffered, status_of};

use crate::fault::Fault;
use crate::output::write_fault;
use crate::run::run_flushed;
use crate::watched::Watched;
use std::alloc::Global;
use std::io::{BufWriter, Read, Write};

/// The end of a run of the program.
#[derive(Drop)]
pub(crate) struct Ended<W> {
    /// The writer below the buffer, or `None` if none was given.
    pub(crate) writer: Option<Watched<W>>,
    /// The fault, if there is one.
    pub(crate) answer: Result<(), Fault>,
    /// The exit status.
    pub(crate) status: u8,
}

// Writes the fault as a line, if there is one, and gives the exit status.
fn report<E: Write>(answer: &Result<(), Fault>, errors: &mut Watched<E>) -> u8
    requires not_failed { errors.old.failed ≡ false }
    ensures silent { OnOk answer.now (errors.new ≡ errors.old) }
    ensures reported { IfErr answer.now (λ fault. (written : List ℕ)
        × Appends (E.contents errors.old.inner) (E.contents errors.new.inner) written
        × IsWrittenUnless errors.new.failed (fault_text fault ++ codes "\n") written) }
    ensures retried { errors.new.retried ≡ errors.old.retried }
    ensures status { result ≡ status_of answer.now }
{
    match answer {
        Ok(()) => 0,
        Err(fault) => {
            // Nothing is left to say where this fails too.
            let _ = write_fault(fault, errors);
            fault.status()
        }
    }
}

/// Runs what the reader gives, and writes the statements to the writer. Then it writes the fault,
/// if there is one, to `errors`. A missing writer means that there was no memory for its buffer:
/// the fault is `Memory`.
pub(crate) fn run_streams<R: Read, W: Write + Drop, E: Write>(
    alloc: Global,
    reader: &mut Watched<R>,
    writer: Option<Watched<BufWriter<W>>>,
    errors: &mut Watched<E>,
) -> Ended<W>
    requires reader_not_failed { reader.old.failed ≡ false }
    requires reader_not_ended { reader.old.ended ≡ false }
    requires writer_not_failed { IfSome writer (λ buffered. buffered.failed ≡ false) }
    requires errors_not_failed { errors.old.failed ≡ false }
    ensures ran { IfSome writer (λ buffered. IfSome result.writer (λ below.
        RunsBuffered result.answer (R.remaining reader.old.inner) (R.remaining reader.new.inner)
        reader.new.ended (writer_contents W.contents buffered.inner) (W.contents below.inner)
        below.failed)) }
    ensures returned { is_some result.writer ≡ is_some writer }
    ensures not_run { IsNone result.writer
        → (result.answer ≡ Err Fault.Memory) × (reader.new ≡ reader.old) }
    ensures read { IsErrOf result.answer Fault.Read ↔ (reader.new.failed ≡ true) }

    // Unless a read has failed, `Write` is answered exactly where a write or a flush has failed.
    ensures write { reader.new.failed ≡ false → (IsErrOf result.answer Fault.Write
        ↔ IsSomeAnd result.writer (λ below. below.failed ≡ true)) }

    // Nothing is called after it has failed, nor read after its end. A new watch of the writer
    // would not have the value of the one that was given.
    ensures reads { reader.new.retried ≡ reader.old.retried }
    ensures writes { IfSome writer (λ buffered. IfSome result.writer (λ below.
        below.retried ≡ buffered.retried)) }
    ensures reports { errors.new.retried ≡ errors.old.retried }
    ensures no_memory { IfErr result.answer NamesNoMemory }

    // The fault goes to `errors`, and nothing else does.
    ensures silent { OnOk result.answer (errors.new ≡ errors.old) }
    ensures reported { IfErr result.answer (λ fault. (written : List ℕ)
        × Appends (E.contents errors.old.inner) (E.contents errors.new.inner) written
        × IsWrittenUnless errors.new.failed (fault_text fault ++ codes "\n") written) }
    ensures status { result.status ≡ status_of result.answer }
{
    let (writer, answer) = match writer {
        Some(writer) => {
            let (below, answer) = run_flushed(alloc, reader, writer);
            (Some(below), answer)
        }
        None => (None, Err(Fault::Memory)),
    };
    let status = report(&answer, errors);
    Ended {
        writer,
        answer,
        status,
    }
}
