//! Reading a server's log.

ghost use Rattle.std.specs.Prelude.{◌≡◌, ◌||◌, IfOk, false};
ghost use Rattle.std.specs.Result.{result_err};
ghost use Rattle.blog_device.specs.Watched.{device_of, has_failed};
ghost use Rattle.blog_source.specs.Found.{source_refusal};
ghost use Rattle.undo_run.specs.code.Steps.{IsSource, OpensLog, is_failed_opening};

use crate::fault::OpeningFault;
use blog_device::{Watched, read_log};
use blog_source::{Reading, Source, handed_logs_open};
use blog_sum::SumFault;
use std::alloc::Allocator;
use std::io::Read;

/// Reads a server's log, and opens it as a source up to a stop, or to its end. What is handed out opens as a log.
pub(crate) fn open_log<A: Allocator, R: Read>(
    alloc: A,
    reader: &mut Watched<R>,
    stop: Option<u32>,
) -> Result<Source<A>, OpeningFault>
    ensures opens { OpensLog (record { stop = stop; skip_damaged = false }) (R.remaining (device_of reader.old)) (R.remaining (device_of reader.new)) result }
    ensures mark { has_failed reader.new ≡ (has_failed reader.old || is_failed_opening result) }
{
    let log = read_log(alloc, reader)?;
    let how = Reading {
        stop,
        skip_damaged: false,
    };
    match open_source(log, how) {
        Ok(source) => Ok(source),
        Err(fault) => Err(OpeningFault::Sums(fault)),
    }
}

/// Opens a log as a source. What it hands out opens as a log.
fn open_source<A: Allocator>(log: Vec<u8, A>, how: Reading) -> Result<Source<A>, SumFault>
    ensures exact { result_err result ≡ source_refusal log.items }
    ensures opened { IfOk result (IsSource how log.items) }
{
    handed_logs_open();
    Source::open(log, how)
}
