//! The line that says why nothing is listed or shown.

use blog_device::Watched;
use blog_list::time_text;
use blog_reasons::{NearTable, Reason};
use console::put_line;
use jiff::tz::TimeZone;
use std::alloc::{AllocError, Allocator};
use std::io::Write;

/// Prints why nothing is done with units: `done` says what would be. What can't be printed is dropped.
pub(crate) fn tell_reason<A: Allocator + Copy, E: Write>(
    alloc: A,
    reason: &Reason<'_, A>,
    done: &str,
    zone: TimeZone<'_>,
    errors: &mut Watched<E>,
) {
    if let Ok(line) = reason_text(alloc, reason, done, zone) {
        let _ = put_line(errors, "binlog", &line.as_str());
    }
}

/// Returns what is told of a reason.
fn reason_text<A: Allocator + Copy>(
    alloc: A,
    reason: &Reason<'_, A>,
    done: &str,
    zone: TimeZone<'_>,
) -> Result<String<A>, AllocError> {
    match reason {
        Reason::NoUnit => {
            format!(in alloc; "nothing is {done}: no transaction starts in this range")
        }
        Reason::NoTime { first, last } => {
            let (first, last) = (time_text(zone, *first), time_text(zone, *last));
            format!(in alloc;
                "nothing is {done}: no transaction is of these times: the first is of {}, the last of {}",
                first.as_str(),
                last.as_str()
            )
        }
        Reason::NoTable { near } => near_text(alloc, near, done),
        Reason::Other => {
            format!(in alloc;
                "nothing is {done}: no transaction meets all that is asked for: leave an option out"
            )
        }
    }
}

/// Returns what is told where no chosen table is in the logs, with tables that come close to one that is asked for.
fn near_text<A: Allocator + Copy>(
    alloc: A,
    near: &[NearTable<A>],
    done: &str,
) -> Result<String<A>, AllocError> {
    let mut text = format!(in alloc; "nothing is {done}: no such table is changed")?;
    let mut first = true;
    for table in near {
        let schema = String::from_utf8_lossy(alloc, table.schema())?;
        let name = String::from_utf8_lossy(alloc, table.table())?;
        text.push_str(if first { ": near it is " } else { ", " })?;
        text.push_str(schema.as_str())?;
        text.push_str(".")?;
        text.push_str(name.as_str())?;
        first = false;
    }
    Ok(text)
}
