//! The ways in which a log is refused.

use blog_event::Fault;
use blog_flash::{Mode, RunFault, Watched, run};
use blog_trans::Selection;
use log_calls::calls::{flashback, forward};
use log_calls::index_view::fault_of;
use std::alloc::AllocError;
use std::io;
use std::io::Write;
use std::process::Abort;

/// The index of a log and both ways of writing it refuse it with this fault, and so does a run, without a call of the
/// writer; all of them take it where there is none.
pub fn check_fault<R: AllocGlobal + Abort>(
    rt: &R,
    bytes: &[u8],
    sel: &Selection<'_>,
    fault: Option<Fault>,
) {
    assert!(rt; fault_of(rt, bytes, sel) == fault, "of the index");
    assert!(rt; flashback(rt.alloc(), bytes, sel).err() == fault, "undone");
    assert!(rt; forward(rt.alloc(), bytes, sel).err() == fault, "forward");
    if let Some(fault) = fault {
        check_run(rt, bytes, sel, fault);
    }
}

/// A log that was built, unless memory was refused.
pub type Built = Result<Vec<u8>, AllocError>;

/// A writer of which each call fails.
#[derive(Drop)]
struct Unwritten;

impl Write for Unwritten {
    fn write(&mut self, _buf: &[u8]) -> io::Result<usize> {
        Err(io::Error::from(io::ErrorKind::BrokenPipe))
    }

    fn flush(&mut self) -> io::Result<()> {
        Err(io::Error::from(io::ErrorKind::BrokenPipe))
    }
}

/// A run of a refused log answers its fault, and the writer's mark tells that it wasn't called.
fn check_run<R: AllocGlobal + Abort>(rt: &R, bytes: &[u8], sel: &Selection<'_>, fault: Fault) {
    let mut reader = Watched::new(bytes);
    let mut writer = Watched::new(Unwritten);
    let ran = run(rt.alloc(), &mut reader, Mode::Flashback, sel, &mut writer);
    assert!(rt; ran == Err(RunFault::Log(fault)));
    assert!(rt; !reader.failed() && !writer.failed());
}
