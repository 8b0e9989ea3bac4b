//! Reading rows events, and writing their images in reverse order.

use crate::failure::Failure;
use crate::stopwatch::{Best, Stopwatch};
use blog_event::constants::TABLE_MAP_EVENT;
use blog_event::{Event, Log};
use blog_row::{Layout, RowsAction, RowsEvent, RowsHead, RowsKind, TableMap};
use std::alloc::{AllocError, Allocator};
use std::rt::Runtime;
use std::time::CpuClock;

/// The body of a rows event with what it takes to read it.
#[derive(Clone, Copy)]
struct Unread<'a> {
    kind: RowsKind,
    body: &'a [u8],
    layout: Layout<'a>,
}

/// The columns of a table, by its id.
#[derive(Clone, Copy)]
struct Mapped<'a> {
    id: u64,
    layout: Layout<'a>,
}

/// The table of a table map.
fn mapped_by<'a>(event: &Event<'a>) -> Result<Mapped<'a>, Failure> {
    let bad = |_| Failure::Body { pos: event.pos };
    let map = TableMap::read(event.body).map_err(bad)?;
    let layout = map.layout().map_err(bad)?;
    Ok(Mapped {
        id: map.id(),
        layout,
    })
}

/// The columns of the table of this id, by the first map of it.
fn layout_of<'a>(maps: &[Mapped<'a>], id: u64) -> Option<Layout<'a>> {
    for map in maps {
        if map.id == id {
            return Some(map.layout);
        }
    }
    None
}

/// The rows events of a log, unread. It looks through all maps of a statement for each, so it is meant for few.
fn rows_events_of<'a, A: Allocator + Copy>(
    alloc: A,
    log: &Log<'a>,
) -> Result<Vec<Unread<'a>, A>, Failure> {
    let mut maps = Vec::new(alloc);
    let mut unread = Vec::new(alloc);
    for item in log.events(log.first()) {
        let event = item?;
        if event.header.kind == TABLE_MAP_EVENT {
            maps.push(mapped_by(&event)?)?;
        } else if let Some(kind) = RowsKind::of_type(event.header.kind) {
            let bad = Failure::Body { pos: event.pos };
            let Ok(head) = RowsHead::read(kind.version, event.body) else {
                return Err(bad);
            };
            let Some(layout) = layout_of(&maps, head.table_id()) else {
                return Err(bad);
            };
            unread.push(Unread {
                kind,
                body: event.body,
                layout,
            })?;
            if head.ends() {
                maps.clear();
            }
        }
    }
    Ok(unread)
}

/// Reads the rows events; those that can't be read are left out.
fn read_all<'a, A: Allocator>(
    unread: &[Unread<'a>],
    read: &mut Vec<RowsEvent<'a>, A>,
) -> Result<(), AllocError> {
    read.clear();
    for event in unread {
        if let Ok((rows, _)) = RowsEvent::read_counted(event.kind, event.body, &event.layout) {
            read.push(rows)?;
        }
    }
    Ok(())
}

/// Writes the images of all events in reverse order, those of one event behind those of the event before, as long as
/// there is room. Answers how many bytes were written.
fn put_all(read: &[RowsEvent<'_>], room: &mut [u8]) -> usize {
    let mut at = 0;
    for rows in read {
        let len = rows.rows_len();
        if len > room.len() - at {
            break;
        }
        rows.put_reversed(&mut room[at..at + len]);
        at += len;
    }
    at
}

/// What rows events have together.
#[derive(Drop)]
struct Sizes {
    rows: u64,
    values: u64,
    bytes: usize,
}

/// The sizes of all events together: of an update's row the values before and after count.
fn sizes_of(read: &[RowsEvent<'_>]) -> Sizes {
    let mut sizes = Sizes {
        rows: 0,
        values: 0,
        bytes: 0,
    };
    for event in read {
        let rows = event.rows().count() as u64;
        let images = match event.kind().action {
            RowsAction::Update => rows.saturating_mul(2),
            RowsAction::Write | RowsAction::Delete => rows,
        };
        sizes.rows = sizes.rows.saturating_add(rows);
        let values = images.saturating_mul(event.layout().columns() as u64);
        sizes.values = sizes.values.saturating_add(values);
        sizes.bytes = sizes.bytes.saturating_add(event.rows_len());
    }
    sizes
}

/// Measures both.
pub fn measure_rows<R: Runtime + CpuClock + AllocGlobal>(
    rt: &R,
    log: &Log<'_>,
    times: u32,
) -> Result<(), Failure> {
    let unread = rows_events_of(rt.alloc(), log)?;
    let mut read = Vec::new(rt.alloc());
    read_all(&unread, &mut read)?;
    let sizes = sizes_of(&read);
    let mut room = Vec::new(rt.alloc());
    room.resize(sizes.bytes, 0u8)?;
    let written = put_all(&read, &mut room);
    let (events, all) = (read.len(), unread.len());
    println!(rt;
        "rows events: {events} of {all}, {} rows, {} values",
        sizes.rows, sizes.values
    )?;
    println!(rt; "reversed: {written} bytes")?;
    let mut reading = Best::new();
    let mut reversing = Best::new();
    for _ in 0..times {
        let watch = Stopwatch::start(rt)?;
        read_all(&unread, &mut read)?;
        reading.stop(rt, watch)?;
        let watch = Stopwatch::start(rt)?;
        let again = put_all(&read, &mut room);
        reversing.stop(rt, watch)?;
        if read.len() != events || again != written {
            return Err(Failure::Differs);
        }
    }
    if times > 0 {
        println!(rt; "reading: {reading}")?;
        println!(rt; "reversing: {reversing}")?;
    }
    Ok(())
}
