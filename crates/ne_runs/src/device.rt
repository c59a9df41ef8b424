//! What a run reads from and writes to.
//!
//! [`Source`] and [`Sink`] are the two sides of a run. In contracts, each says what its bytes are
//! and whether a call on it has failed, and a sink also says whether it was flushed. So the
//! contract of a run can say what was read and written, and when a call failed. [`StdIo`] makes a
//! source or a sink of std's readers and writers.
ghost use Rattle.std.specs.Prelude.{◌≡◌, ℕ, ◌<◌, ◌≤◌, Bool, true, false, ◌||◌, List, length, IfOk};
ghost use Rattle.std.specs.Prelude.{OnOk, Option, is_err};
ghost use Rattle.std.specs.Io.KnownBytes.{ReadConsumes, WriteAppends, Keeps};

use std::io;
use std::marker::Model;

/// Where bytes come from.
pub trait Source {
    /// The bytes that are left; `None` says nothing about them.
    ghost left: { Self → Option (List ℕ) };

    /// Whether a call has failed. Once a call has failed, it stays true.
    ghost has_failed: { Self → Bool };

    /// Reads into the first bytes of `buffer`, and returns how many bytes were read.
    ///
    /// Returns `Ok(0)` with room in the buffer only at the end. Returns `Err` if and only if the
    /// call failed; no byte was then read.
    fn read(&mut self, buffer: &mut [u8]) -> Result<usize, ()>
        ensures bound { IfOk result (λ count. count ≤ length buffer.new) }
        ensures bytes { ReadConsumes (left self.old) (left self.new) result buffer.new }
        ensures failed { has_failed self.new ≡ (has_failed self.old || is_err result) };
}

/// Where bytes go.
pub trait Sink {
    /// The bytes that were taken; `None` says nothing about them.
    ghost taken: { Self → Option (List ℕ) };

    /// Whether a call has failed. Once a call has failed, it stays true.
    ghost has_failed: { Self → Bool };

    /// Whether all that was taken was flushed.
    ghost is_flushed: { Self → Bool };

    /// Writes the first bytes of `text`, and returns how many bytes were taken: at least one, if
    /// the text is not empty.
    ///
    /// Returns `Err` if and only if the call failed; no byte was then taken.
    fn write(&mut self, text: &[u8]) -> Result<usize, ()>
        ensures bound { IfOk result (λ count. count ≤ length text.now) }
        ensures progress { 0 < length text.now → IfOk result (λ count. 0 < count) }
        ensures bytes { WriteAppends (taken self.old) (taken self.new) result text.now }
        ensures failed { has_failed self.new ≡ (has_failed self.old || is_err result) };

    /// Sends on the bytes that were taken and are still held. Returns `Err` if and only if the call
    /// failed.
    fn flush(&mut self) -> Result<(), ()>
        ensures bytes { Keeps (taken self.old) (taken self.new) }
        ensures flushed { OnOk result (is_flushed self.new ≡ true) }
        ensures failed { has_failed self.new ≡ (has_failed self.old || is_err result) };
}

/// A reader or a writer of std as a [`Source`] or a [`Sink`].
///
/// It says what its bytes are if std's reader or writer does. In contracts it is the reader or
/// writer, whether a call on it has failed, and whether all that was written is flushed.
#[derive(Drop)]
pub struct StdIo<T> {
    inner: T,
    has_failed: bool,
    is_flushed: bool,
}

impl<T> Model for StdIo<T> {
    ghost use Rattle.ne_runs.specs.Devices.{Device};

    ghost Value = { Device T };

    ghost view = { λ d. record {
      inner = d.inner;
      has_failed = d.has_failed;
      is_flushed = d.is_flushed;
    } };
}

impl<T> StdIo<T> {
    /// Wraps a reader or a writer. No call on it has failed, and there is nothing to flush.
    pub fn new(inner: T) -> StdIo<T>
        ensures { result ≡ record { inner = inner; has_failed = false; is_flushed = true } }
    {
        StdIo {
            inner,
            has_failed: false,
            is_flushed: true,
        }
    }

    /// Returns the reader or writer as it is.
    pub fn into_inner(self) -> T
        ensures { result ≡ self.inner }
    {
        let StdIo {
            inner,
            has_failed: _,
            is_flushed: _,
        } = self;
        inner
    }
}

impl<T: io::Read> Source for StdIo<T> {
    ghost left = { λ device. T.remaining device.inner };

    ghost has_failed = { λ device. device.has_failed };

    fn read(&mut self, buffer: &mut [u8]) -> Result<usize, ()> {
        match self.inner.read(buffer) {
            Ok(count) => Ok(count),
            Err(_) => {
                self.has_failed = true;
                Err(())
            }
        }
    }
}

impl<T: io::Write> Sink for StdIo<T> {
    ghost taken = { λ device. T.contents device.inner };

    ghost has_failed = { λ device. device.has_failed };

    ghost is_flushed = { λ device. device.is_flushed };

    /// A write that takes no byte of a non-empty text has failed. What is taken is not yet flushed.
    fn write(&mut self, text: &[u8]) -> Result<usize, ()>
        ensures bound { IfOk result (λ count. count ≤ length text.now) }
        ensures progress { 0 < length text.now → IfOk result (λ count. 0 < count) }
        ensures bytes { WriteAppends (T.contents self.old.inner) (T.contents self.new.inner) result
            text.now }
        ensures failed { self.new.has_failed ≡ (self.old.has_failed || is_err result) }
        ensures unflushed { OnOk result (self.new.is_flushed ≡ false) }
    {
        match self.inner.write(text) {
            Ok(count) if count > 0 || text.is_empty() => {
                self.is_flushed = false;
                Ok(count)
            }
            _ => {
                self.has_failed = true;
                Err(())
            }
        }
    }

    fn flush(&mut self) -> Result<(), ()> {
        match self.inner.flush() {
            Ok(()) => {
                self.is_flushed = true;
                Ok(())
            }
            Err(_) => {
                self.has_failed = true;
                Err(())
            }
        }
    }
}
