//! What no clause says: that calls succeed where there is memory, what is printed, and what a run
//! does where a reader or a writer fails.
ghost use Rattle.std.specs.Prelude.{◌<◌, ◌≤◌, IfOk};

use crate::fault::{Fault, Reason};
use crate::output::write_fault;
use crate::run::{run_flushed, run_input};
use crate::streams::{Ended, run_streams};
use crate::watched::Watched;
use sql_builder::SqlBuilderError;
use std::alloc::{AllocError, Global};
use std::io;
use std::io::{BufWriter, ErrorKind, Read, Write};
use std::test::Fail;

/// Gives a few bytes a call, and fails at one call alone.
#[derive(Drop)]
pub(crate) struct Slow<'a> {
    rest: &'a [u8],
    step: usize,
    calls: usize,
    fails_at: usize,
    ghost moves: { 0 < step },
}

impl<'a> Slow<'a> {
    pub(crate) fn new(rest: &'a [u8], step: usize, fails_at: usize) -> Self
        requires { 0 < step }
    {
        Slow {
            rest,
            step,
            calls: 0,
            fails_at,
        }
    }
}

impl<'a> Read for Slow<'a> {
    ghost use Rattle.std.specs.Prelude.{Some};

    ghost remaining = { λ s. Some s.rest.now };

    fn read(&mut self, buf: &mut [u8]) -> io::Result<usize> {
        self.calls = self.calls.saturating_add(1);
        if self.calls == self.fails_at {
            return Err(io::Error::from(ErrorKind::BrokenPipe));
        }
        let count = self.step.min(buf.len()).min(self.rest.len());
        let (front, back) = self.rest.split_at(count);
        buf[..count].copy_from_slice(front);
        self.rest = back;
        Ok(count)
    }
}

pub(crate) const HELD: usize = 128;

/// Takes a few bytes a write into a few places, and fails at one call alone, a write or a flush.
#[derive(Drop)]
pub(crate) struct Small {
    bytes: [u8; HELD],
    len: usize,
    room: usize,
    step: usize,
    pub(crate) calls: usize,
    fails_at: usize,
    ghost fits: { (len ≤ room) × (room ≤ 128) },
}

impl Small {
    pub(crate) fn new(room: usize, step: usize, fails_at: usize) -> Self
        requires { room ≤ 128 }
    {
        Small {
            bytes: [0; HELD],
            len: 0,
            room,
            step,
            calls: 0,
            fails_at,
        }
    }

    pub(crate) fn held(&self) -> &[u8] {
        &self.bytes[..self.len]
    }
}

impl Write for Small {
    ghost use Rattle.std.specs.Prelude.{Some, take};

    ghost contents = { λ s. Some (take s.len s.bytes) };

    fn write(&mut self, buf: &[u8]) -> io::Result<usize> {
        self.calls = self.calls.saturating_add(1);
        if self.calls == self.fails_at {
            return Err(io::Error::from(ErrorKind::StorageFull));
        }
        let count = self.step.min(buf.len()).min(self.room - self.len);
        let end = self.len + count;
        self.bytes[self.len..end].copy_from_slice(&buf[..count]);
        self.len = end;
        Ok(count)
    }

    fn flush(&mut self) -> io::Result<()> {
        self.calls = self.calls.saturating_add(1);
        if self.calls == self.fails_at {
            return Err(io::Error::from(ErrorKind::StorageFull));
        }
        Ok(())
    }
}

/// Records how often it is called and how long a slice it is given, and returns what it is to give.
#[derive(Drop)]
struct Recorder {
    calls: usize,
    len: usize,
    gives: Option<usize>,
}

impl Recorder {
    fn new(gives: Option<usize>) -> Self {
        Recorder {
            calls: 0,
            len: 0,
            gives,
        }
    }

    fn note(&mut self, len: usize) -> io::Result<usize>
        ensures { IfOk result (λ n. n ≤ len) }
    {
        self.calls = self.calls.saturating_add(1);
        self.len = len;
        match self.gives {
            Some(n) => Ok(n.min(len)),
            None => Err(io::Error::from(ErrorKind::BrokenPipe)),
        }
    }
}

impl Read for Recorder {
    fn read(&mut self, buf: &mut [u8]) -> io::Result<usize> {
        self.note(buf.len())
    }
}

impl Write for Recorder {
    fn write(&mut self, buf: &[u8]) -> io::Result<usize> {
        self.note(buf.len())
    }

    fn flush(&mut self) -> io::Result<()> {
        Ok(())
    }
}

/// An input, what it prints, the line of its fault, and the exit status.
type Row = (&'static [u8], &'static [u8], &'static [u8], u8);

const ROWS: [Row; 32] = [
    (
        b"select_from\tcompany\nfield\tid\nfield\tname\nand_where_gt\tsalary\t25000\nsql\n",
        b"SELECT id, name FROM company WHERE salary > 25000;\n",
        b"",
        0,
    ),
    (
        b"select_from\tt\nsql\nfrobnicate\n",
        b"SELECT * FROM t;\n",
        b"line 3: unknown call\n",
        1,
    ),
    (b"select_from\tt\n", b"", b"line 1: no end\n", 1),
    (b"sql\n", b"", b"line 1: no statement\n", 1),
    (
        b"select_from\ta\nselect_from\tb\n",
        b"",
        b"line 2: statement open\n",
        1,
    ),
    (b"select_from\t\nsql\n", b"", b"line 2: No table name\n", 1),
    (b"\xff", b"", b"line 1: not UTF-8\n", 1),
    (b"", b"", b"", 0),
    (b"limit\n", b"", b"line 1: wrong arguments\n", 1),
    (b"field\n", b"", b"line 1: wrong arguments\n", 1),
    (
        b"select_from\tt\norder_by\ta\tmaybe\nsql\n",
        b"",
        b"line 2: wrong arguments\n",
        1,
    ),
    (
        b"select_from\tt\norder_by\ta\ttrue\norder_by\tb\tfalse\nsql\n",
        b"SELECT * FROM t ORDER BY a DESC, b;\n",
        b"",
        0,
    ),
    (
        b"select_from\tt\norder_by\ta\n",
        b"",
        b"line 2: wrong arguments\n",
        1,
    ),
    // A finish prints what it is, and no more than its text.
    (
        b"select_values\t1\t'a'\nquery_values\nselect_from\tt\nlimit\t3\nsubquery_as\ts\n",
        b"SELECT 1, 'a'\n(SELECT * FROM t LIMIT 3) AS s\n",
        b"",
        0,
    ),
    // Each kind of statement fails for its own reason.
    (b"select_values\nsql\n", b"", b"line 2: No values\n", 1),
    (
        b"update_table\tt\nsql\n",
        b"",
        b"line 2: No set fields\n",
        1,
    ),
    (b"\nsql\n", b"", b"line 1: unknown call\n", 1),
    (
        b"select_from\tt\nand_where\ta\nand_where\tb\nsql\n",
        b"SELECT * FROM t WHERE (a) AND (b);\n",
        b"",
        0,
    ),
    // A list may be empty, but its field may not be left out.
    (
        b"select_from\tt\nand_where_in\ta\nquery\n",
        b"SELECT * FROM t WHERE a IN ()\n",
        b"",
        0,
    ),
    (
        b"select_from\tt\nor_where_in\ta\t1\t2\nquery\n",
        b"SELECT * FROM t WHERE a IN (1, 2)\n",
        b"",
        0,
    ),
    (b"and_where_in\n", b"", b"line 1: wrong arguments\n", 1),
    (
        b"or_where_not_in_quoted\n",
        b"",
        b"line 1: wrong arguments\n",
        1,
    ),
    (
        b"select_from\tt\nor_where_is_null\ta\tb\n",
        b"",
        b"line 2: wrong arguments\n",
        1,
    ),
    (
        b"select_from\tt\nand_where_between\ta\t1\n",
        b"",
        b"line 2: wrong arguments\n",
        1,
    ),
    (
        b"select_from\tt\nor_where_not_between\ta\t1\t2\t3\n",
        b"",
        b"line 2: wrong arguments\n",
        1,
    ),
    (
        b"select_from\tt\nand_where\ta\nor_where_like_any\tb\tit's\nquery\n",
        b"SELECT * FROM t WHERE a OR b LIKE '%it''s%'\n",
        b"",
        0,
    ),
    (
        b"select_from\tt\nfields\nsql\n",
        b"SELECT * FROM t;\n",
        b"",
        0,
    ),
    (
        b"select_from\tt\nfields\t\nsql\n",
        b"SELECT  FROM t;\n",
        b"",
        0,
    ),
    // The last line needs no line feed; a carriage return is an ordinary character.
    (
        b"select_from\tt\nfields\ta\tb\nfield\t\xc3\xa9\r\nsql",
        b"SELECT a, b, \xc3\xa9\r FROM t;\n",
        b"",
        0,
    ),
    (
        b"select_from\tt\nsql\r\n",
        b"",
        b"line 2: unknown call\n",
        1,
    ),
    // A line that is not UTF-8 does not hide an earlier fault.
    (b"frobnicate\n\xff\n", b"", b"line 1: unknown call\n", 1),
    (
        b"select_from\tt\nsql\n\xe2\x82",
        b"SELECT * FROM t;\n",
        b"line 3: not UTF-8\n",
        1,
    ),
];

/// What is printed of a fault, and its exit status.
fn fault_line(alloc: Global, answer: Result<(), Fault>) -> (Vec<u8>, u8) {
    let mut line = Watched::new(Vec::new(alloc));
    let status = match answer {
        Ok(()) => 0,
        Err(fault) => {
            let _ = write_fault(&fault, &mut line);
            fault.status()
        }
    };
    (line.into_inner(), status)
}

/// What came of a run. It has the reader and the writer, whether the reader ended, and whether each
/// failed. It has the line of the fault and the exit status too.
#[derive(Drop)]
pub(crate) struct Outcome<R> {
    reader: R,
    pub(crate) writer: Small,
    ended: bool,
    pub(crate) failed: (bool, bool),
    pub(crate) line: Vec<u8>,
    pub(crate) exit: u8,
}

/// Runs what a reader gives into a writer.
pub(crate) fn run_over<R: Read>(alloc: Global, reader: R, writer: Small) -> Outcome<R> {
    let mut reader = Watched::new(reader);
    let mut writer = Watched::new(writer);
    let answer = run_input(alloc, &mut reader, &mut writer);
    let (ended, failed) = (reader.ended(), (reader.failed(), writer.failed()));
    let (line, exit) = fault_line(alloc, answer);
    Outcome {
        reader: reader.into_inner(),
        writer: writer.into_inner(),
        ended,
        failed,
        line,
        exit,
    }
}

/// Runs what a reader gives into a writer behind a buffer of 24 bytes, and gives the writer and the
/// line of the fault.
fn run_buffered<R: Read + Drop>(
    alloc: Global,
    reader: R,
    writer: Small,
) -> Result<(Small, Vec<u8>), Fail> {
    let mut reader = Watched::new(reader);
    let writer = BufWriter::with_capacity(alloc, 24, writer)?;
    let (writer, answer) = run_flushed(alloc, &mut reader, Watched::new(writer));
    let (line, _) = fault_line(alloc, answer);
    Ok((writer.into_inner(), line))
}

#[test]
fn prints_what_the_lines_say(rt: HostRuntime) -> Result<(), Fail> {
    for (row, (input, prints, fault, status)) in ROWS.iter().enumerate() {
        for step in [1, 7, 4096] {
            let writer = Small::new(HELD, step, 0);
            let ran = run_over(rt.alloc(), Slow::new(input, step, 0), writer);
            assert_eq!(rt;
                (
                    ran.writer.held(),
                    ran.line.as_slice(),
                    ran.exit,
                    ran.ended,
                    ran.failed
                ),
                (*prints, *fault, *status, true, (false, false)),
                "row {row}"
            );
        }
    }
    Ok(())
}

// The writer of a run that has ended, or one that holds nothing.
fn below(ended: Ended<Small>) -> Small {
    match ended.writer {
        Some(writer) => writer.into_inner(),
        None => Small::new(0, 1, 0),
    }
}

#[test]
fn faults_go_to_the_error_writer(rt: HostRuntime) -> Result<(), Fail> {
    for (row, (input, prints, fault, status)) in ROWS.iter().enumerate() {
        let mut reader = Watched::new(*input);
        let mut errors = Watched::new(Small::new(HELD, HELD, 0));
        let writer = BufWriter::with_capacity(rt.alloc(), HELD, Small::new(HELD, HELD, 0))?;
        let writer = Some(Watched::new(writer));
        let ended = run_streams(rt.alloc(), &mut reader, writer, &mut errors);
        let status_given = ended.status;
        let written = below(ended);
        let errors = errors.into_inner();
        assert_eq!(rt;
            (written.held(), errors.held(), status_given),
            (*prints, *fault, *status),
            "row {row}"
        );
    }
    Ok(())
}

#[test]
fn a_writer_without_a_buffer_is_out_of_memory(rt: HostRuntime) -> Result<(), Fail> {
    let mut reader = Watched::new(Slow::new(TWO, 7, 0));
    let mut errors = Watched::new(Small::new(HELD, HELD, 0));
    let writer: Option<Watched<BufWriter<Small>>> = None;
    let ended = run_streams(rt.alloc(), &mut reader, writer, &mut errors);
    let errors = errors.into_inner();
    assert_eq!(rt;
        (reader.into_inner().calls, errors.held(), ended.status),
        (0, b"Out of memory\n".as_slice(), 1)
    );
    Ok(())
}

pub(crate) const TWO: &[u8] = b"select_from\tt\nsql\nselect_from\tbooks\nfield\ttitle\nsql\n";

pub(crate) const TWO_PRINTS: &[u8] = b"SELECT * FROM t;\nSELECT title FROM books;\n";

#[test]
fn a_read_that_fails_ends_the_run(rt: HostRuntime) -> Result<(), Fail> {
    for at in 1..=9 {
        let writer = Small::new(HELD, HELD, 0);
        let ran = run_over(rt.alloc(), Slow::new(TWO, 7, at), writer);
        // No read is tried again, and nothing is written.
        assert_eq!(rt;
            (ran.reader.calls, ran.writer.calls, ran.ended, ran.failed),
            (at, 0, false, (true, false)),
            "at {at}"
        );
        assert_eq!(rt;
            (ran.line.as_slice(), ran.exit),
            (b"read failed\n".as_slice(), 2),
            "at {at}"
        );
    }
    Ok(())
}

#[test]
fn a_write_that_fails_ends_the_run(rt: HostRuntime) -> Result<(), Fail> {
    for at in 1..=9 {
        let ran = run_over(rt.alloc(), TWO, Small::new(HELD, 5, at));
        let is_beginning = TWO_PRINTS.starts_with(ran.writer.held());
        // No write is tried again, and a beginning is written.
        assert_eq!(rt;
            (ran.writer.calls, is_beginning, ran.ended, ran.failed),
            (at, true, true, (false, true)),
            "at {at}"
        );
        assert_eq!(rt;
            (ran.line.as_slice(), ran.exit),
            (b"write failed\n".as_slice(), 2),
            "at {at}"
        );
    }
    Ok(())
}

#[test]
fn a_writer_that_is_full_fails_the_run(rt: HostRuntime) -> Result<(), Fail> {
    for room in [0, 1, 16, 17, 41] {
        let ran = run_over(rt.alloc(), TWO, Small::new(room, 2, 0));
        let is_beginning = TWO_PRINTS.starts_with(ran.writer.held());
        // A text ends in a step of its own: none is tried again once no byte is taken.
        assert_eq!(rt;
            (
                ran.writer.calls,
                is_beginning,
                ran.failed,
                ran.line.as_slice(),
                ran.exit
            ),
            (
                room.div_ceil(2) + 1,
                true,
                (false, true),
                b"write failed\n".as_slice(),
                2
            ),
            "room {room}"
        );
    }
    Ok(())
}

#[test]
fn a_buffered_run_is_flushed(rt: HostRuntime) -> Result<(), Fail> {
    for (room, calls) in [(42, 8), (41, 8), (0, 1)] {
        let (writer, line) = run_buffered(rt.alloc(), TWO, Small::new(room, 7, 0))?;
        let is_beginning = TWO_PRINTS.starts_with(writer.held());
        let is_whole = writer.held() == TWO_PRINTS;
        let wanted: &[u8] = if room == 42 { b"" } else { b"write failed\n" };
        assert_eq!(rt;
            (writer.calls, is_beginning, is_whole, line.as_slice()),
            (calls, true, room == 42, wanted),
            "room {room}"
        );
    }
    Ok(())
}

/// The stored run's input, twice over.
const STORED_TWICE: &[u8] = b"select_from\tcompany\nfield\tid\nfield\tname\n\
    and_where_gt\tsalary\t25000\nsql\n\
    select_from\tcompany\nfield\tid\nfield\tname\nand_where_gt\tsalary\t25000\nsql\n";

const STORED_TWICE_PRINTS: &[u8] = b"SELECT id, name FROM company WHERE salary > 25000;\n\
    SELECT id, name FROM company WHERE salary > 25000;\n";

/// Shows what a run has written into a few places, and its fault, on standard output.
/// `tests/program/allocations` runs it with each of its allocations failing, and reads what is shown.
#[test]
fn shows_what_is_written_into_places(rt: HostRuntime) -> Result<(), Fail> {
    let mut reader = Watched::new(STORED_TWICE);
    let mut writer = Watched::new(Small::new(HELD, HELD, 0));
    let answer = run_input(rt.alloc(), &mut reader, &mut writer);
    let writer = writer.into_inner();
    let _ = rt.stdout().write_all(writer.held());
    if let Err(fault) = &answer {
        let _ = write_fault(fault, &mut Watched::new(rt.stdout()));
    }
    assert!(rt; answer.is_ok());
    assert_eq!(rt; writer.held(), STORED_TWICE_PRINTS);
    Ok(())
}

const FOUR: &[u8] = b"select_from\tt\nsql\nselect_from\tbooks\nfield\ttitle\nsql\n\
    select_from\tt\nsql\nselect_from\tbooks\nfield\ttitle\nsql\n";

const FOUR_PRINTS: &[u8] = b"SELECT * FROM t;\nSELECT title FROM books;\n\
    SELECT * FROM t;\nSELECT title FROM books;\n";

#[test]
fn a_buffered_run_stops_at_the_first_call_that_fails(rt: HostRuntime) -> Result<(), Fail> {
    // How many bytes a write takes, and how many calls a run makes, the last of them the flush.
    for (step, calls) in [(7, 15), (HELD, 6)] {
        for at in 1..=calls + 1 {
            let (writer, line) = run_buffered(rt.alloc(), FOUR, Small::new(HELD, step, at))?;
            let is_beginning = FOUR_PRINTS.starts_with(writer.held());
            let ends_whole = at < calls || writer.held() == FOUR_PRINTS;
            let wanted: &[u8] = if at > calls { b"" } else { b"write failed\n" };
            assert_eq!(rt;
                (writer.calls, is_beginning, ends_whole, line.as_slice()),
                (at.min(calls), true, true, wanted),
                "step {step} at {at}"
            );
        }
    }
    Ok(())
}

#[test]
fn a_buffered_run_says_that_a_read_failed(rt: HostRuntime) -> Result<(), Fail> {
    let writer = Small::new(HELD, 7, 1);
    let (writer, line) = run_buffered(rt.alloc(), Slow::new(TWO, 7, 2), writer)?;
    assert_eq!(rt;
        (writer.held(), line.as_slice()),
        (b"".as_slice(), b"read failed\n".as_slice())
    );
    Ok(())
}

#[test]
fn prints_a_fault_as_one_line(rt: HostRuntime) -> Result<(), Fail> {
    let fault = Fault::At(
        usize::MAX,
        Reason::Builder(SqlBuilderError::Memory(AllocError)),
    );
    let line: &[u8] = b"line 18446744073709551615: Out of memory\n";
    let mut writer = Watched::new(Small::new(HELD, 3, 0));
    let is_written = write_fault(&fault, &mut writer).is_ok();
    assert_eq!(rt; (is_written, writer.into_inner().held()), (true, line));
    for room in 0..41 {
        let mut writer = Watched::new(Small::new(room, 3, 0));
        let answer = write_fault(&fault, &mut writer);
        let failed = (matches!(answer, Err(Fault::Write)), writer.failed());
        let is_beginning = line.starts_with(writer.into_inner().held());
        assert_eq!(rt; (failed, is_beginning), ((true, true), true), "room {room}");
    }
    let (line, exit) = fault_line(rt.alloc(), Err(Fault::Memory));
    assert_eq!(rt; (line.as_slice(), exit), (b"Out of memory\n".as_slice(), 1));
    Ok(())
}

/// A result, with the kind of its error alone.
fn kind(answer: io::Result<usize>) -> Result<usize, ErrorKind> {
    answer.map_err(|e| e.kind())
}

/// Whether what is watched has failed, and whether it has ended.
fn flags<T>(watched: &Watched<T>) -> (bool, bool) {
    (watched.failed(), watched.ended())
}

#[test]
fn watched_hands_on_the_whole_slice(rt: HostRuntime) -> Result<(), Fail> {
    let mut buf = [0; 1000];
    for gives in [Some(1000), Some(3), Some(0), None] {
        let mut reader = Watched::new(Recorder::new(gives));
        let mut writer = Watched::new(Recorder::new(gives));
        let read = kind(reader.read(&mut buf));
        let written = kind(writer.write(&buf));
        let read_of = reader.into_inner();
        let written_to = writer.into_inner();
        let wanted = gives.ok_or(ErrorKind::BrokenPipe);
        assert_eq!(rt;
            (read, read_of.calls, read_of.len),
            (wanted, 1, 1000),
            "a read that gives {gives:?}"
        );
        assert_eq!(rt;
            (written, written_to.calls, written_to.len),
            (wanted, 1, 1000),
            "a write that gives {gives:?}"
        );
    }
    Ok(())
}

#[test]
fn a_watched_reader_gives_the_answers_of_what_it_holds(rt: HostRuntime) -> Result<(), Fail> {
    let mut buf = [0; 4];
    let mut reader = Watched::new(Slow::new(b"abcdef", 3, 2));
    assert_eq!(rt; flags(&reader), (false, false));
    let first = (kind(reader.read(&mut buf)), flags(&reader));
    let chain_start = buf;
    let second = (kind(reader.read(&mut buf)), flags(&reader));
    // No room is no end, and the flags stay as they are.
    let third = (kind(reader.read(&mut [])), flags(&reader));
    let fourth = (kind(reader.read(&mut buf)), flags(&reader));
    let fifth = (kind(reader.read(&mut buf)), flags(&reader));
    assert_eq!(rt;
        [first, second, third, fourth, fifth],
        [
            (Ok(3), (false, false)),
            (Err(ErrorKind::BrokenPipe), (true, false)),
            (Ok(0), (true, false)),
            (Ok(3), (true, false)),
            (Ok(0), (true, true)),
        ]
    );
    assert!(rt; chain_start.starts_with(b"abc"));
    Ok(())
}

#[test]
fn a_watched_writer_gives_the_answers_of_what_it_holds(rt: HostRuntime) -> Result<(), Fail> {
    let mut writer = Watched::new(Small::new(4, 3, 2));
    let first = (kind(writer.write(b"")), flags(&writer));
    let second = (kind(writer.write(b"abcd")), flags(&writer));
    let third = (kind(writer.write(b"abcd")), flags(&writer));
    let mut full = Watched::new(Small::new(0, 3, 0));
    let fourth = (kind(full.write(b"a")), flags(&full));
    assert_eq!(rt;
        [first, second, third, fourth],
        [
            (Ok(0), (false, false)),
            (Err(ErrorKind::StorageFull), (true, false)),
            (Ok(3), (true, false)),
            (Ok(0), (true, false)),
        ]
    );
    assert_eq!(rt; writer.into_inner().held(), b"abc".as_slice());
    Ok(())
}
