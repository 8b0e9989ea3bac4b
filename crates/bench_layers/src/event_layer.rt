//! Going through the events of a log, and copying them one by one.

ghost use Rattle.std.specs.Prelude.{◌≡◌, length, IfOk, OnOk, vec_len};
ghost use Rattle.blog_event.specs.Items.{items_from};
ghost use Rattle.blog_event.specs.code.LogView.{log_bytes};

use crate::failure::Failure;
use crate::stopwatch::{Best, Stopwatch};
use blog_event::{Event, Fault, Log, put_event};
use std::alloc::Allocator;
use std::rt::Runtime;
use std::time::CpuClock;

/// The four bytes with which each log begins.
const MAGIC: &[u8] = b"\xfebin";

/// What a walk has seen.
#[derive(Drop, PartialEq)]
pub struct Walked {
    /// The number of events.
    pub events: u64,
    /// All fields of all headers, one over the other, so that each is read.
    pub fields: u32,
}

/// The fields of a header, one over the other.
fn fields_of(event: &Event<'_>) -> u32 {
    let header = &event.header;
    header.timestamp
        ^ header.server_id
        ^ header.size
        ^ header.log_pos
        ^ header.flags as u32
        ^ header.kind as u32
}

/// Goes through the events from a position on, and counts them.
pub fn walk(log: &Log<'_>, from: u32) -> Result<Walked, Fault>
    ensures { IfOk result (λ walked. walked.events ≡ length (items_from (log_bytes log.now) from)) }
{
    let mut events = 0;
    let mut fields = 0;
    for item in log.events(from) {
        let event = item?;
        events += 1;
        fields ^= fields_of(&event);
    }
    Ok(Walked { events, fields })
}

/// Copies the log, event by event, to its end.
pub fn copy<A: Allocator>(log: &Log<'_>, out: &mut Vec<u8, A>) -> Result<(), Failure>
    ensures { OnOk result (vec_len out.new ≡ length (log_bytes log.now)) }
{
    out.clear();
    out.extend_from_slice(MAGIC)?;
    let mut at = 4;
    while at != log.end() {
        let event = log.event_at(at)?;
        put_event(out, event.header, &[event.body])?;
        at += event.header.size;
    }
    Ok(())
}

/// Measures both.
pub fn measure_events<R: Runtime + CpuClock + AllocGlobal>(
    rt: &R,
    log: &Log<'_>,
    times: u32,
) -> Result<(), Failure> {
    let walked = walk(log, log.first())?;
    let mut out = Vec::with_capacity(rt.alloc(), log.end() as usize)?;
    copy(log, &mut out)?;
    println!(rt;
        "events: {} behind the first, fields {}",
        walked.events, walked.fields
    )?;
    println!(rt; "copied: {} bytes", out.len())?;
    let mut walking = Best::new();
    let mut copying = Best::new();
    for _ in 0..times {
        let watch = Stopwatch::start(rt)?;
        let again = walk(log, log.first())?;
        walking.stop(rt, watch)?;
        if again != walked {
            return Err(Failure::Differs);
        }
        let watch = Stopwatch::start(rt)?;
        copy(log, &mut out)?;
        copying.stop(rt, watch)?;
    }
    if times > 0 {
        println!(rt; "walking: {walking}")?;
        println!(rt; "copying: {copying}")?;
    }
    Ok(())
}
