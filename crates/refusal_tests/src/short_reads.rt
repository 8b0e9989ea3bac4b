//! Runs that read a log a few bytes a call.

ghost use Rattle.std.specs.Prelude.{Some};

use blog_flash::{Mode, Watched, run};
use blog_trans::Selection;
use std::io;
use std::io::Read;
use std::process::Abort;

/// Gives its bytes, half as many a call as the call before, and after a call of one byte the most again.
#[derive(Drop)]
struct ShortReader<'b> {
    bytes: &'b [u8],
    most: usize,
    step: usize,
}

impl Read for ShortReader<'_> {
    ghost remaining = { λ reader. Some reader.bytes.now };

    fn read(&mut self, buf: &mut [u8]) -> io::Result<usize> {
        let step = buf.len().min(self.step.max(1));
        self.step = if step > 1 { step / 2 } else { self.most };
        self.bytes.read(&mut buf[..step])
    }
}

/// A run of a log that is read by calls of at most so many bytes writes this text.
pub fn check_written<R: AllocGlobal + Abort>(
    rt: &R,
    log: &[u8],
    most: usize,
    mode: Mode,
    text: &[u8],
) {
    let mut reader = Watched::new(ShortReader {
        bytes: log,
        most,
        step: most,
    });
    let mut writer = Watched::new(Vec::new(rt.alloc()));
    let all = Selection::all();
    let ran = run(rt.alloc(), &mut reader, mode, &all, &mut writer);
    assert!(rt; ran == Ok(()), "in {mode:?} by {most}");
    let written = writer.device();
    assert!(rt; written.len() == text.len(), "in {mode:?} by {most}");
    assert!(rt; written.as_slice() == text, "in {mode:?} by {most}");
    assert!(rt; !reader.failed() && !writer.failed());
}
