//! Reads lines of calls from standard input, and prints the statements that they make.
#![tactic(auto)]

mod arguments;
mod fault;
mod input;
mod names;
mod output;
mod run;
mod scan;
mod script;
mod streams;
#[cfg(test)]
mod tests;
mod text;
mod utf8;
mod watched;
#[cfg(test)]
mod write_error_tests;

use crate::streams::run_streams;
use crate::watched::Watched;
use std::io::BufWriter;
use std::process::ExitCode;

/// How much output is buffered before it is written.
const BUFFER_SIZE: usize = 65536;

// No contract can say which stream is which, that nothing else calls them, nor what the process ends
// with: `tests/program/check` does, by its rows of what is printed, said and returned, and by
// `try_streams`. Beside tests only `main` makes watches.
fn main(rt: HostRuntime) -> ExitCode {
    let mut input = Watched::new(rt.stdin());
    let mut errors = Watched::new(rt.stderr());
    let output = match BufWriter::with_capacity(rt.alloc(), BUFFER_SIZE, rt.stdout()) {
        Ok(buffered) => Some(Watched::new(buffered)),
        Err(_) => None,
    };
    ExitCode::from(run_streams(rt.alloc(), &mut input, output, &mut errors).status)
}
