//! Going through the events of a log.

ghost use Rattle.std.specs.Prelude.{◌≡◌, ◌≤◌, ◌+◌, ◌-◌, ◌/◌, length, Some, IfSome};

use crate::event::Event;
use crate::fault::Fault;
use crate::log::Log;
use crate::reading::HEADER_LEN;

/// The events of a log that follow each other from a byte position on, each with its start. If they end before the log
/// does, or the position lies past the log's end, the last item is the fault `CutEvent` where the next event would begin.
/// Nothing comes after the last item.
#[derive(Debug, Drop)]
pub struct Events<'a> {
    log: Log<'a>,
    // Where the next event begins; None after the last item.
    at: Option<u32>,
}

impl<'a> Log<'a> {
    ghost use Rattle.blog_event.specs.Items.{items_from};
    ghost use Rattle.blog_event.specs.code.LogView.{log_bytes, items_left, most_left};

    /// The events that follow each other from the byte position `from` on, each where the one before ends. If they end
    /// before the log does, or `from` lies past the log's end, one last item is the fault `CutEvent` at that position.
    pub fn events(&self, from: u32) -> Events<'a>
        ensures items { items_left result ≡ items_from (log_bytes self.now) from }
        ensures most { most_left result ≡ 1 + (length (log_bytes self.now) - from) / 19 }
    {
        Events {
            log: *self,
            at: Some(from),
        }
    }
}

impl<'a> Iterator for Events<'a> {
    type Item = Result<Event<'a>, Fault>;

    ghost use Rattle.std.specs.Iterator.{UpTo, at_most};
    ghost use Rattle.std.specs.Iterator.SizeHint.{IsWithinCount};
    ghost use Rattle.blog_event.specs.code.LogView.{GivesItem, items_left, most_left};

    ghost next_gives = { GivesItem };

    ghost remaining = { λ events. at_most (most_left events) };

    fn next(&mut self) -> Option<Result<Event<'a>, Fault>> {
        let at = self.at?;
        self.at = None;
        if at == self.log.end() {
            return None;
        }
        let item = self.log.event_at(at);
        if let Ok(event) = &item {
            self.at = Some(at + event.header.size);
        }
        Some(item)
    }

    /// How many items are left is known by going through them alone: at least none, and at most one for each 19 bytes and
    /// one more.
    fn size_hint(&self) -> (usize, Option<usize>)
        ensures least { result.0 ≤ length (items_left self.now) }
        ensures most { result.1 ≡ Some (most_left self.now) }
        ensures lower { IsWithinCount result.0 (at_most (most_left self.now)) }
        ensures upper { IfSome result.1 (UpTo (at_most (most_left self.now))) }
    {
        let most = match self.at {
            Some(at) => 1 + self.log.end().saturating_sub(at) as usize / HEADER_LEN,
            None => 0,
        };
        (0, Some(most))
    }
}
