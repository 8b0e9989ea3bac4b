//! Devices for tests, which move a few bytes a call, or fail at a chosen one.

ghost use Rattle.std.specs.Prelude.{Some};

use std::io;
use std::io::{Read, Write};

/// What a device does at the call of its number, where calls count from 1, and by which kind of error it fails.
#[derive(Clone, Copy)]
pub enum Failure {
    Never,
    At(u64, io::ErrorKind),
    TakesNothingAt(u64),
    AtFlush(io::ErrorKind),
}

/// Kinds of error by which a call fails. Others would try some of these calls again.
pub const KINDS: [io::ErrorKind; 5] = [
    io::ErrorKind::Interrupted,
    io::ErrorKind::WouldBlock,
    io::ErrorKind::TimedOut,
    io::ErrorKind::WriteZero,
    io::ErrorKind::Other,
];

/// As many bytes as a call asks for.
pub const ALL: usize = usize::MAX;

/// Gives its bytes, at most `step` a call. Counts its calls, and those that failed.
#[derive(Drop)]
pub struct SlowReader<'b> {
    bytes: &'b [u8],
    step: usize,
    failure: Failure,
    pub calls: u64,
    pub failed_calls: u64,
}

impl<'b> SlowReader<'b> {
    /// A reader of these bytes.
    pub fn new(bytes: &'b [u8], step: usize, failure: Failure) -> Self {
        SlowReader {
            bytes,
            step,
            failure,
            calls: 0,
            failed_calls: 0,
        }
    }
}

impl Read for SlowReader<'_> {
    ghost remaining = { λ reader. Some reader.bytes.now };

    fn read(&mut self, buf: &mut [u8]) -> io::Result<usize> {
        self.calls = self.calls.saturating_add(1);
        match self.failure {
            Failure::At(call, kind) if call == self.calls => {
                self.failed_calls = self.failed_calls.saturating_add(1);
                return Err(io::Error::from(kind));
            }
            _ => {}
        }
        let most = buf.len().min(self.step.max(1));
        self.bytes.read(&mut buf[..most])
    }
}

/// Takes at most `step` bytes a call. Counts its calls, flushes too, and those that failed.
#[derive(Drop)]
pub struct SlowWriter {
    pub taken: Vec<u8>,
    step: usize,
    failure: Failure,
    pub calls: u64,
    pub failed_calls: u64,
}

impl SlowWriter {
    /// A writer that has taken nothing yet.
    pub fn new(rt: &impl AllocGlobal, step: usize, failure: Failure) -> Self {
        SlowWriter {
            taken: Vec::new(rt.alloc()),
            step,
            failure,
            calls: 0,
            failed_calls: 0,
        }
    }
}

impl Write for SlowWriter {
    ghost contents = { λ writer. Some writer.taken.items };

    fn write(&mut self, buf: &[u8]) -> io::Result<usize> {
        self.calls = self.calls.saturating_add(1);
        match self.failure {
            Failure::At(call, kind) if call == self.calls => {
                self.failed_calls = self.failed_calls.saturating_add(1);
                return Err(io::Error::from(kind));
            }
            Failure::TakesNothingAt(call) if call == self.calls => {
                self.failed_calls = self.failed_calls.saturating_add(1);
                return Ok(0);
            }
            _ => {}
        }
        let most = buf.len().min(self.step);
        self.taken.extend_from_slice(&buf[..most])?;
        Ok(most)
    }

    fn flush(&mut self) -> io::Result<()> {
        self.calls = self.calls.saturating_add(1);
        match self.failure {
            Failure::AtFlush(kind) => {
                self.failed_calls = self.failed_calls.saturating_add(1);
                Err(io::Error::from(kind))
            }
            _ => Ok(()),
        }
    }
}
