//! A writer that keeps the cause of a failed call.

ghost use Rattle.std.specs.Prelude.{◌≡◌, None};
ghost use Rattle.result_file.specs.Notes.{cause_of};

use std::io;
use std::io::Write;

/// A writer that keeps the cause of its last call that failed. The calls and their results are the writer's own.
#[derive(Debug, Drop)]
pub struct Noted<W> {
    writer: W,
    cause: Option<io::Error>,
}

impl<W> Noted<W> {
    /// Keeps the causes of this writer, of which no call has failed yet.
    pub fn new(writer: W) -> Self
        ensures { cause_of result ≡ None }
    {
        Noted {
            writer,
            cause: None,
        }
    }

    /// Returns the cause of the last call that failed.
    pub fn cause(&self) -> Option<io::Error>
        ensures { result ≡ cause_of self.now }
    {
        self.cause
    }

    /// Returns the writer itself.
    pub fn writer(&self) -> &W {
        &self.writer
    }
}

impl<W: Write> Write for Noted<W> {
    ghost contents = { λ noted. W.contents noted.writer };

    fn write(&mut self, buf: &[u8]) -> io::Result<usize> {
        let result = self.writer.write(buf);
        if let Err(cause) = &result {
            self.cause = Some(*cause);
        }
        result
    }

    fn flush(&mut self) -> io::Result<()> {
        let result = self.writer.flush();
        if let Err(cause) = &result {
            self.cause = Some(*cause);
        }
        result
    }
}
