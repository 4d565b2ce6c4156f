//! Reads the whole input.
ghost use Rattle.std.specs.Prelude.{◌≡◌, ◌+◌, ◌≤◌, ℕ, List, true, false, take, vec_len, IfOk, OnOk};
ghost use Rattle.std.specs.Io.KnownBytes.{Consumes, IsAtEnd};
ghost use Rattle.sqlb.specs.Streams.{ReadingFails};

use crate::fault::Fault;
use crate::watched::Watched;
use std::alloc::{AllocError, Global};
use std::io::Read;

/// How much is read at once, at the least.
const CHUNK: usize = 65536;

/// How much room is made at once: few bytes are cleared in fewer steps than many.
const STEP: usize = 1024;

// Makes room for a chunk after the bytes that are filled.
fn make_room(buffer: &mut Vec<u8>, filled: usize) -> Result<(), AllocError>
    requires { filled ≤ vec_len buffer.old }
    ensures room { OnOk result (filled + CHUNK ≤ vec_len buffer.new) }
    ensures filled { take filled buffer.new.items ≡ take filled buffer.old.items }
{
    while buffer.len() - filled < CHUNK {
        buffer.resize(buffer.len() + STEP, 0)?;
    }
    Ok(())
}

/// Reads to the end, and returns every byte. Fails with `Read` if a read fails. Fails with `Memory`
/// if memory runs out, as it does for a reader that never ends.
pub(crate) fn read_all<R: Read>(alloc: Global, reader: &mut Watched<R>) -> Result<Vec<u8>, Fault>
    requires not_failed { reader.old.failed ≡ false }
    requires not_ended { reader.old.ended ≡ false }
    ensures took { (taken : List ℕ) × Consumes (R.remaining reader.old.inner)
        (R.remaining reader.new.inner) taken × IfOk result (λ buffer. buffer.items ≡ taken) }
    ensures end { OnOk result (IsAtEnd (R.remaining reader.new.inner)) }
    ensures flags { OnOk result ((reader.new.failed ≡ false) × (reader.new.ended ≡ true)) }
    ensures fails { ReadingFails result reader.new.failed reader.new.ended }
    ensures retried { reader.new.retried ≡ reader.old.retried }
{
    let mut buffer = Vec::new(alloc);
    let mut filled = 0;
    'reads: loop {
        if make_room(&mut buffer, filled).is_err() {
            return Err(Fault::Memory);
        }
        match reader.read(&mut buffer[filled..]) {
            Ok(0) => {
                buffer.truncate(filled);
                return Ok(buffer);
            }
            Ok(n) => filled += n,
            Err(_) => return Err(Fault::Read),
        }
    }
}
