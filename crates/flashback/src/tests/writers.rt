//! A writer that fails.

use std::io;
use std::io::Write;

/// A writer of which each write fails, and which counts them.
#[derive(Drop)]
pub struct Broken {
    writes: u32,
}

impl Broken {
    pub fn new() -> Broken {
        Broken { writes: 0 }
    }

    /// How often a write was tried.
    pub fn writes(&self) -> u32 {
        self.writes
    }
}

impl Write for Broken {
    fn write(&mut self, _buf: &[u8]) -> io::Result<usize> {
        self.writes = self.writes.saturating_add(1);
        Err(io::Error::from(io::ErrorKind::BrokenPipe))
    }

    fn flush(&mut self) -> io::Result<()> {
        Ok(())
    }
}
