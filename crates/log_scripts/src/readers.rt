//! Readers and writers of runs.

ghost use Rattle.std.specs.Prelude.{Some};

use std::io;
use std::io::{Read, Write};

/// Gives its bytes, half as many a call as the call before, and after a call of one byte the most again.
#[derive(Drop)]
pub struct ShortReader<'b> {
    bytes: &'b [u8],
    most: usize,
    step: usize,
}

impl<'b> ShortReader<'b> {
    pub fn new(bytes: &'b [u8], most: usize) -> ShortReader<'b> {
        ShortReader {
            bytes,
            most,
            step: most,
        }
    }
}

impl Read for ShortReader<'_> {
    ghost remaining = { λ reader. Some reader.bytes.now };

    fn read(&mut self, buf: &mut [u8]) -> io::Result<usize> {
        let step = buf.len().min(self.step.max(1));
        self.step = if step > 1 { step / 2 } else { self.most };
        self.bytes.read(&mut buf[..step])
    }
}

/// A writer of which each call fails.
#[derive(Drop)]
pub struct Unwritten;

impl Write for Unwritten {
    fn write(&mut self, _buf: &[u8]) -> io::Result<usize> {
        Err(io::Error::from(io::ErrorKind::BrokenPipe))
    }

    fn flush(&mut self) -> io::Result<()> {
        Err(io::Error::from(io::ErrorKind::BrokenPipe))
    }
}
