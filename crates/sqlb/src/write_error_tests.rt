//! Runs and faults over writers that fail at each of their calls.

use crate::fault::{Fault, Reason};
use crate::output::write_fault;
use crate::tests::{HELD, Slow, Small, TWO, TWO_PRINTS, run_over};
use crate::watched::Watched;
use std::test::Fail;

/// How many bytes a write takes, and how many writes print `TWO_PRINTS`: each statement and each
/// line feed after one is written by itself.
const STEPS: [(usize, usize); 4] = [(1, 42), (5, 11), (16, 5), (HELD, 4)];

#[test]
fn each_write_that_fails_ends_the_run(rt: HostRuntime) -> Result<(), Fail> {
    for (step, calls) in STEPS {
        for at in 1..=calls + 1 {
            let writer = Small::new(HELD, step, at);
            let ran = run_over(rt.alloc(), Slow::new(TWO, 7, 0), writer);
            let fails = at <= calls;
            let is_beginning = TWO_PRINTS.starts_with(ran.writer.held());
            let is_whole = ran.writer.held() == TWO_PRINTS;
            assert_eq!(rt;
                (ran.failed, ran.writer.calls, is_beginning, is_whole),
                ((false, fails), at.min(calls), true, !fails),
                "step {step} at {at}"
            );
            let status = if fails { 2 } else { 0 };
            let wanted: &[u8] = if fails { b"write failed\n" } else { b"" };
            assert_eq!(rt;
                (ran.line.as_slice(), ran.exit),
                (wanted, status),
                "step {step} at {at}"
            );
        }
    }
    Ok(())
}

#[test]
fn each_write_of_a_fault_that_fails_is_answered(rt: HostRuntime) -> Result<(), Fail> {
    let faults: [(Fault, &[u8]); 4] = [
        (
            Fault::At(12, Reason::UnknownCall),
            b"line 12: unknown call\n",
        ),
        (Fault::Memory, b"Out of memory\n"),
        (Fault::Read, b"read failed\n"),
        (Fault::Write, b"write failed\n"),
    ];
    for (fault, line) in faults.iter() {
        for at in 1..=line.len() + 1 {
            let mut writer = Watched::new(Small::new(HELD, 1, at));
            let answer = write_fault(fault, &mut writer);
            let fails = at <= line.len();
            let failed = writer.failed();
            let writer = writer.into_inner();
            assert_eq!(rt;
                (
                    answer.is_ok(),
                    matches!(answer, Err(Fault::Write)),
                    failed,
                    writer.calls
                ),
                (!fails, fails, fails, at.min(line.len())),
                "at {at}"
            );
            assert_eq!(rt; writer.held(), &line[..at - 1], "at {at}");
        }
    }
    Ok(())
}
