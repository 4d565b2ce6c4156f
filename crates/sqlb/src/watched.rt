//! A reader or a writer that remembers whether it failed, whether it ended, and whether it was called
//! after that.
ghost use Rattle.std.specs.Prelude.{◌≡◌, ◌||◌, [], false, is_err, OnOk};
ghost use Rattle.std.specs.Io.{ReadsAtMost, WritesAtMost};
ghost use Rattle.std.specs.Io.Buffered.{writer_buffer, writer_contents, writer_inner};
ghost use Rattle.std.specs.Io.KnownBytes.{Keeps, ReadConsumes, WriteAppends};
ghost use Rattle.sqlb.specs.Watched.{fails_to_write, gives_end};

use std::io;
use std::io::{BufWriter, Read, Write};
use std::marker::Model;

/// A reader or a writer, and what its calls have returned so far. No call asks for memory, unless
/// the reader or the writer itself does.
#[derive(Drop)]
pub struct Watched<T> {
    inner: T,
    has_failed: bool,
    has_ended: bool,
    // Nothing but contracts reads it. As ghost data a proof by hand could give it any value.
    was_retried: bool,
}

impl<T> Model for Watched<T> {
    ghost use Rattle.sqlb.specs.Watched.{Watch};

    ghost Value = { Watch T };

    ghost view = { λ w. record {
      inner = w.inner;
      failed = w.has_failed;
      ended = w.has_ended;
      retried = w.was_retried;
    } };
}

impl<T> Watched<T> {
    /// Watches a reader or a writer that has neither failed nor ended. From then on only the watch
    /// calls it. Never fails.
    pub fn new(inner: T) -> Self
        ensures inner { result.inner ≡ inner }
        ensures failed { result.failed ≡ false }
        ensures ended { result.ended ≡ false }
        ensures retried { result.retried ≡ false }
    {
        Watched {
            inner,
            has_failed: false,
            has_ended: false,
            was_retried: false,
        }
    }

    // For tests alone: who has what it holds could call that unseen.
    #[cfg(test)]
    pub(crate) fn into_inner(self) -> T
        ensures inner { result ≡ self.inner }
    {
        self.inner
    }

    /// Returns whether a call has failed. A write fails too if it takes no byte of a slice that
    /// isn't empty. Never fails.
    pub fn failed(&self) -> bool
        ensures failed { result ≡ self.now.failed }
    {
        self.has_failed
    }

    /// Returns whether a read has returned 0 bytes for a slice that isn't empty. Never fails.
    pub fn ended(&self) -> bool
        ensures ended { result ≡ self.now.ended }
    {
        self.has_ended
    }
}

impl<R: Read> Watched<R> {
    /// Calls the reader's `read` once, and returns its result. Fails if that fails.
    pub fn read(&mut self, buf: &mut [u8]) -> io::Result<usize>
        ensures bound { ReadsAtMost result buf.new }
        ensures bytes { ReadConsumes (R.remaining self.old.inner) (R.remaining self.new.inner)
            result buf.new }
        ensures failed { self.new.failed ≡ (self.old.failed || is_err result) }
        ensures ended { self.new.ended ≡ (self.old.ended || gives_end result buf.old) }
        ensures retried { self.new.retried
            ≡ (self.old.retried || (self.old.failed || self.old.ended)) }
    {
        self.was_retried |= self.has_failed || self.has_ended;
        let answer = self.inner.read(buf);
        match &answer {
            Ok(0) if !buf.is_empty() => self.has_ended = true,
            Ok(_) => {}
            Err(_) => self.has_failed = true,
        }
        answer
    }
}

impl<W: Write> Watched<W> {
    /// Calls the writer's `write` once, and returns its result. Fails if that fails.
    pub fn write(&mut self, buf: &[u8]) -> io::Result<usize>
        ensures bound { WritesAtMost result buf.now }
        ensures bytes { WriteAppends (W.contents self.old.inner) (W.contents self.new.inner)
            result buf.now }
        ensures failed { self.new.failed ≡ (self.old.failed || fails_to_write result buf.now) }
        ensures ended { self.new.ended ≡ self.old.ended }
        ensures retried { self.new.retried ≡ (self.old.retried || self.old.failed) }
    {
        self.was_retried |= self.has_failed;
        let answer = self.inner.write(buf);
        match &answer {
            Ok(0) if !buf.is_empty() => self.has_failed = true,
            Ok(_) => {}
            Err(_) => self.has_failed = true,
        }
        answer
    }
}

impl<W: Write + Drop> Watched<BufWriter<W>> {
    // The writer below the buffer, and what the calls answered. Nothing is written here: what the
    // buffer holds back is lost.
    pub(crate) fn into_below(self) -> Watched<W>
        ensures inner { result.inner ≡ writer_inner self.inner }
        ensures failed { result.failed ≡ self.failed }
        ensures ended { result.ended ≡ self.ended }
        ensures retried { result.retried ≡ self.retried }
    {
        Watched {
            inner: self.inner.into_parts().0,
            has_failed: self.has_failed,
            has_ended: self.has_ended,
            was_retried: self.was_retried,
        }
    }

    /// Flushes the buffer once, and returns the result. Fails if that fails.
    pub(crate) fn flush(&mut self) -> io::Result<()>
        ensures bytes { Keeps (writer_contents W.contents self.old.inner)
            (writer_contents W.contents self.new.inner) }
        ensures emptied { OnOk result (writer_buffer self.new.inner ≡ []) }
        ensures failed { self.new.failed ≡ (self.old.failed || is_err result) }
        ensures ended { self.new.ended ≡ self.old.ended }
        ensures retried { self.new.retried ≡ (self.old.retried || self.old.failed) }
    {
        self.was_retried |= self.has_failed;
        let answer = self.inner.flush();
        self.has_failed |= answer.is_err();
        answer
    }
}
