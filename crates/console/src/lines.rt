//! The lines on standard error.

ghost use Rattle.std.specs.Prelude.{◌<◌};

use crate::escapes::Shown;
use blog_device::{RunFault, Watched, put};
use std::fmt;
use std::fmt::{Display, Write as _};
use std::io::Write;

/// The most bytes that a line has, with its end: a path has at most 4,095.
const LINE_ROOM: usize = 4608;

/// A line without its end.
#[derive(Drop)]
struct Line {
    room: [u8; LINE_ROOM],
    end: usize,
    ghost inside: { end < 4608 },
}

impl Line {
    /// Appends a part, if there is room for it and for the end of the line.
    fn put(&mut self, part: &[u8]) -> fmt::Result {
        let free = LINE_ROOM - 1 - self.end;
        if part.len() > free {
            return Err(fmt::Error);
        }
        self.room[self.end..self.end + part.len()].copy_from_slice(part);
        self.end += part.len();
        Ok(())
    }

    /// Ends the line, and returns its bytes.
    fn ended(&mut self) -> &[u8] {
        self.room[self.end] = b'\n';
        &self.room[..self.end + 1]
    }
}

impl fmt::Write for Line {
    fn write_str(&mut self, text: &str) -> fmt::Result {
        for c in text.chars() {
            self.put(Shown::new(c).bytes())?;
        }
        Ok(())
    }
}

/// Writes the line `program: message` at once, and without memory. Characters of the message that could change what a terminal
/// shows, or make two lines of one, are escaped. A line of more than 4,607 bytes is cut between two characters. Fails as `put`
/// does.
pub fn put_line<E: Write, M: Display>(
    errors: &mut Watched<E>,
    program: &str,
    message: &M,
) -> Result<(), RunFault> {
    let mut line = Line {
        room: [0; LINE_ROOM],
        end: 0,
    };
    // what doesn't fit is left out
    let _ = write!(line, "{program}: {message}");
    put(errors, line.ended())
}
