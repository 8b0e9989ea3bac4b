//! How long a log would be with its events changed.

ghost use Rattle.std.specs.Prelude.{◌≡◌, ◌+◌, ◌≤◌, map, IfSome};
ghost use Rattle.std.specs.List.{AllByRecursion};
ghost use Rattle.blog_event.specs.Event.{event_size};
ghost use Rattle.blog_flash.specs.code.Measured.{GetsLonger, Measures};
ghost use Rattle.blog_flash.specs.code.Skipping.{IsSkipped};
ghost use Rattle.blog_flash.specs.Written.{Written, event_written};
ghost use Rattle.blog_sql.specs.Changed.{HasShortNames, changed};

use crate::changed::changed_body_len;
use crate::options::SqlOptions;
use blog_event::HEADER_LEN;
use blog_flash::{LogSizes, WrittenEvents};
use blog_trans::SkippedEvent;

/// Adds an event with a body of `body_len` bytes. Returns `None` if the log would be too long.
fn with_event(sizes: LogSizes, body_len: usize) -> Option<LogSizes>
    requires { sizes.len ≤ 4294967295 }
    ensures longer { GetsLonger sizes body_len result }
    ensures bounded { sizes.largest ≤ sizes.len → IfSome result (λ after. after.largest ≤ after.len) }
{
    let left = u32::MAX as usize - sizes.len;
    if left < HEADER_LEN {
        return None;
    }
    if left - HEADER_LEN < body_len {
        return None;
    }
    let len = HEADER_LEN + body_len;
    Some(LogSizes {
        len: sizes.len + len,
        largest: sizes.largest.max(len),
    })
}

/// Returns how many bytes the body has that is written for an event.
fn body_len(event: &SkippedEvent<'_>, how: &SqlOptions<'_>) -> usize
    requires { HasShortNames how.now }
    ensures { (w : Written) → IsSkipped event.now w → event_size (event_written (changed how.now w)) ≡ 19 + result }
{
    match event {
        SkippedEvent::Begin(event) | SkippedEvent::End(event) => event.body.len(),
        SkippedEvent::Map(event) => changed_body_len(event.body, how.schemas),
        SkippedEvent::Rows(rows) => rows.len,
    }
}

/// Returns the sizes of the log that these events would make after a front of `front_len` bytes, or `None` if it would have more
/// than 4,294,967,295 bytes. Each new name of a schema must have at most 255 bytes.
pub fn sql_sizes<'a, E: WrittenEvents<'a>>(
    front_len: usize,
    events: &mut E,
    how: &SqlOptions<'_>,
) -> Option<LogSizes>
    requires front { front_len ≤ 4294967295 }
    requires events { E.can_next events.old }
    requires names { HasShortNames how.now }
    ensures measures { Measures front_len (map event_written (map (changed how.now) (E.to_come events.old))) result }
    ensures bounded { IfSome result (λ sizes. sizes.largest ≤ 4294967295) }
{
    let mut sizes = LogSizes {
        len: front_len,
        largest: 0,
    };
    'events: while let Some(event) = events.skip_event() {
        sizes = with_event(sizes, body_len(&event, how))?;
    }
    Some(sizes)
}
