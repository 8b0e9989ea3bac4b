//! Sources of events to write.

ghost use Rattle.std.specs.Prelude.{◌≡◌, List, map, ⊤};

use crate::written_event::{WrittenEvent, WrittenRows};
use blog_row::Order;
use blog_trans::{GroupEvent, GroupEvents, Index, SkippedEvent};
use std::alloc::{Allocator, Global};

/// A source of events to write, in order.
pub trait WrittenEvents<'a> {
    ghost use Rattle.std.specs.Iterator.{YieldsFirstBy};
    ghost use Rattle.blog_flash.specs.Written.{Written};
    ghost use Rattle.blog_flash.specs.code.Skipping.{Skips};
    ghost use Rattle.blog_flash.specs.code.WrittenView.{written_told};

    // The events that are still to come, as values.
    ghost to_come: { Self → List Written };

    // What must hold of a source, and holds of each that is made.
    ghost can_next: { Self → Type 0 };

    /// Returns the next event, if one is left.
    fn next_event(&mut self) -> Option<WrittenEvent<'a>>
        requires { can_next self.old }
        ensures first { YieldsFirstBy written_told to_come self.old result self.new }
        ensures can { can_next self.new };

    /// Skips the next event, if one is left. Returns what is known of it without its map and its rows.
    fn skip_event(&mut self) -> Option<SkippedEvent<'a>>
        requires { can_next self.old }
        ensures first { Skips to_come self.old result self.new }
        ensures can { can_next self.new };
}

/// The events of the groups of an index, in one of the two orders.
#[derive(Drop)]
pub struct WrittenGroups<'i, 'a, 's, A: Allocator = Global> {
    events: GroupEvents<'i, 'a, 's, A>,
    order: Order,
}

impl<'i, 'a, 's, A: Allocator> WrittenGroups<'i, 'a, 's, A> {
    ghost use Rattle.blog_trans.specs.code.IndexView.{index_groups};
    ghost use Rattle.blog_flash.specs.code.LaidOut.{transactions_of};
    ghost use Rattle.blog_flash.specs.Written.{groups_written};
    ghost use Rattle.blog_flash.specs.code.WrittenGroupsView.{groups_to_come};

    /// Takes the groups as they are in the log (forward), or what undoes them (backward).
    pub fn new(index: &'i Index<'a, 's, A>, order: Order) -> WrittenGroups<'i, 'a, 's, A>
        ensures { groups_to_come result ≡ groups_written (transactions_of order (index_groups index.now)) }
    {
        WrittenGroups {
            events: index.in_turn(order),
            order,
        }
    }
}

impl<'i, 'a, 's, A: Allocator> WrittenEvents<'a> for WrittenGroups<'i, 'a, 's, A> {
    ghost use Rattle.blog_flash.specs.code.WrittenGroupsView.{groups_to_come};

    ghost to_come = { groups_to_come };

    ghost can_next = { λ groups. ⊤ };

    #[inline(always)]
    fn next_event(&mut self) -> Option<WrittenEvent<'a>> {
        match self.events.next()? {
            GroupEvent::Begin(event) | GroupEvent::End(event) => Some(WrittenEvent::Same(event)),
            GroupEvent::Map(event) => Some(WrittenEvent::Map(event)),
            GroupEvent::Rows(rows) => Some(WrittenEvent::Rows(WrittenRows {
                event: rows.event,
                map: rows.map.body,
                rows: rows.rows,
                order: self.order,
                last: rows.last,
            })),
        }
    }

    #[inline(always)]
    fn skip_event(&mut self) -> Option<SkippedEvent<'a>> {
        self.events.skip_event()
    }
}
