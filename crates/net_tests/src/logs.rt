//! Logs of updates, and what is written for these.

use blog_event::{Event, Header, Log};
use blog_flash::front;
use blog_net::{NetFault, NetLog, NetUpdate, net_log};
use blog_row::Order;
use blog_trans::{GroupEvent, GroupRows, Index, Selection, index};
use std::alloc::{Allocator, Global};
use std::process::Abort;
use std::test::Fail;

/// The seed of each call. No result depends on it.
const SEED: u64 = 7;

/// A log of updates, as it is read.
#[derive(Drop)]
pub struct Source<'a> {
    pub front: &'a [u8],
    pub begin: Event<'a>,
    pub end: Event<'a>,
    pub updates: Vec<NetUpdate<'a>>,
}

/// The index of a log.
pub fn indexed<'a>(alloc: Global, bytes: &'a [u8]) -> Result<Index<'a, 'static, Global>, Fail> {
    let log = Log::open(bytes)?;
    Ok(index(alloc, &log, &Selection::all())?)
}

/// Appends the updates of a rows event. An image that a row lacks is empty.
fn put_updates<'a>(updates: &mut Vec<NetUpdate<'a>>, group: &GroupRows<'a>) -> Result<(), Fail> {
    let body = group.event.body;
    let front_len = body.len().saturating_sub(group.rows.rows_len());
    let front = body.get(..front_len).ok_or("no front")?;
    for row in group.rows.rows() {
        updates.push(NetUpdate {
            map: group.map,
            rows: group.event.header,
            front,
            before: row.before.unwrap_or(&[]),
            after: row.after.unwrap_or(&[]),
        })?;
    }
    Ok(())
}

/// The events of the first transaction of a log, and the updates of all.
pub fn source_of<'a>(alloc: Global, bytes: &'a [u8]) -> Result<Source<'a>, Fail> {
    let index = indexed(alloc, bytes)?;
    let mut begin = None;
    let mut end = None;
    let mut updates = Vec::new(alloc);
    for event in index.in_turn(Order::Forward) {
        match event {
            GroupEvent::Begin(event) => begin = Some(event),
            GroupEvent::Map(_) => {}
            GroupEvent::Rows(group) => put_updates(&mut updates, &group)?,
            GroupEvent::End(event) => end = Some(event),
        }
    }
    Ok(Source {
        front: front(&index),
        begin: begin.ok_or("no transaction")?,
        end: end.ok_or("no transaction")?,
        updates,
    })
}

/// What is written for a source.
pub fn net_of<A: Allocator + Copy>(alloc: A, source: &Source<'_>) -> Result<NetLog<A>, NetFault> {
    net_log(
        alloc,
        source.front,
        &source.begin,
        &source.end,
        &source.updates,
        SEED,
    )
}

/// Checks the bytes of a log of updates.
pub fn check_text(
    rt: &(impl AllocGlobal + Abort),
    source: &Source<'_>,
    text: &[u8],
) -> Result<(), Fail> {
    let net = net_of(rt.alloc(), source).expect(rt, "a log of the updates");
    assert!(rt; net.len() == text.len());
    let index = net.index(rt.alloc(), SEED)?;
    assert!(rt; index.log().bytes() == text);
    Ok(())
}

/// Checks that no log is written for a source.
pub fn check_unfit(rt: &(impl AllocGlobal + Abort), source: &Source<'_>) -> Result<(), Fail> {
    match net_of(rt.alloc(), source) {
        Ok(_) => Err("a log that isn't one of the updates".into()),
        Err(fault) => {
            assert!(rt; fault == NetFault::Unfit);
            Ok(())
        }
    }
}

/// Checks that no log is written for an update in place of those of a source.
pub fn check_unfit_update(
    rt: &(impl AllocGlobal + Abort),
    source: &Source<'_>,
    update: NetUpdate<'_>,
) -> Result<(), Fail> {
    let updates = [update];
    let Source {
        front,
        begin,
        end,
        ..
    } = source;
    match net_log(rt.alloc(), front, begin, end, &updates, SEED) {
        Ok(_) => Err("a log that isn't one of the update".into()),
        Err(fault) => {
            assert!(rt; fault == NetFault::Unfit);
            Ok(())
        }
    }
}

/// The first update of a source.
pub fn first_of<'a>(source: &Source<'a>) -> Result<NetUpdate<'a>, Fail> {
    let update = source.updates.first().ok_or("no update")?;
    Ok(*update)
}

/// An update with these images.
pub fn with_images<'a>(update: &NetUpdate<'a>, before: &'a [u8], after: &'a [u8]) -> NetUpdate<'a> {
    NetUpdate {
        before,
        after,
        ..*update
    }
}

/// An update with these bytes in front of its images.
pub fn with_front<'a>(update: &NetUpdate<'a>, front: &'a [u8]) -> NetUpdate<'a> {
    NetUpdate { front, ..*update }
}

/// An update with this body of its table map.
pub fn with_map<'a>(update: &NetUpdate<'a>, body: &'a [u8]) -> NetUpdate<'a> {
    let map = Event { body, ..update.map };
    NetUpdate { map, ..*update }
}

/// An update whose rows event has this type.
pub fn with_kind<'a>(update: &NetUpdate<'a>, kind: u8) -> NetUpdate<'a> {
    let rows = Header {
        kind,
        ..update.rows
    };
    NetUpdate { rows, ..*update }
}
