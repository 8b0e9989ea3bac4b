//! How long a log will be: from sizes alone, so that no row is read.

ghost use Rattle.std.specs.Prelude.{◌≡◌, ◌+◌, ◌≤◌, map};
ghost use Rattle.blog_event.specs.Event.{event_size};
ghost use Rattle.blog_flash.specs.code.Measured.{GetsLonger, Measures};
ghost use Rattle.blog_flash.specs.Written.{Written, event_written};
ghost use Rattle.blog_flash.specs.code.Skipping.{IsSkipped};

use crate::written_events::WrittenEvents;
use blog_event::HEADER_LEN;
use blog_trans::SkippedEvent;

/// The size of a log and of its largest event after the front, or upper bounds of these.
#[derive(Clone, Copy, Debug)]
pub struct LogSizes {
    /// The bytes of the log.
    pub len: usize,
    /// The bytes of its largest event, header included; 0 where there is none.
    pub largest: usize,
}

/// Adds an event with a body of `body_len` bytes. Returns `None` if the log would be too long.
fn with_event(sizes: LogSizes, body_len: usize) -> Option<LogSizes>
    requires { sizes.len ≤ 4294967295 }
    ensures { GetsLonger sizes body_len result }
{
    let left = u32::MAX as usize - sizes.len;
    if left < HEADER_LEN {
        return None;
    }
    if left - HEADER_LEN < body_len {
        return None;
    }
    let len = HEADER_LEN + body_len;
    Some(LogSizes {
        len: sizes.len + len,
        largest: sizes.largest.max(len),
    })
}

/// Returns how many bytes the body has that is written for an event.
fn body_len(event: &SkippedEvent<'_>) -> usize
    ensures { (w : Written) → IsSkipped event.now w → event_size (event_written w) ≡ 19 + result }
{
    match event {
        SkippedEvent::Begin(event) | SkippedEvent::Map(event) | SkippedEvent::End(event) => {
            event.body.len()
        }
        SkippedEvent::Rows(rows) => rows.len,
    }
}

/// Returns the sizes of a log with a front of `front_len` bytes and these events after it, or `None` if it would have more than
/// 4,294,967,295 bytes.
pub fn sizes_of<'a, E: WrittenEvents<'a>>(front_len: usize, events: &mut E) -> Option<LogSizes>
    requires front { front_len ≤ 4294967295 }
    requires events { E.can_next events.old }
    ensures { Measures front_len (map event_written (E.to_come events.old)) result }
{
    let mut sizes = LogSizes {
        len: front_len,
        largest: 0,
    };
    'events: while let Some(event) = events.skip_event() {
        sizes = with_event(sizes, body_len(&event))?;
    }
    Some(sizes)
}
