//! Logs that are cut into memory.

use blog_device::Watched;
use blog_event::Fault;
use blog_flash::Selection;
use blog_row::Order;
use blog_run::{Writing, WritingFault, write_changes};

/// The log with its statements cut, or why there is none.
pub(crate) fn split<R: AllocGlobal>(
    rt: &R,
    log: &[u8],
    limit: usize,
) -> Result<Vec<u8>, WritingFault> {
    let mut writer = Watched::new(Vec::new(rt.alloc()));
    let writing = Writing {
        order: Order::Forward,
        limit,
        sql: None,
    };
    write_changes(rt.alloc(), &mut writer, log, &Selection::all(), 0, &writing)?;
    match writer.device().to_vec(rt.alloc()) {
        Ok(text) => Ok(text),
        Err(_) => Err(WritingFault::Log(Fault::OutOfMemory)),
    }
}
