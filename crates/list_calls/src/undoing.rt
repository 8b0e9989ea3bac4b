//! Undoing the ranges of units.

use blog_event::Log;
use blog_flash::{Mode, Selection, answer};
use blog_units::Units;
use std::test::Fail;

/// Undoes the range of each unit of a log. Returns how many can be undone and how many can't, or fails where a range isn't refused by
/// the fault of its unit.
pub fn undo_each(rt: &impl AllocGlobal, bytes: &[u8]) -> Result<(usize, usize), Fail> {
    let log = Log::open(bytes)?;
    let mut undone = 0_usize;
    let mut refused = 0_usize;
    for unit in Units::new(&log) {
        let sel = Selection {
            start: unit.start,
            stop: Some(unit.stop),
            database: None,
            table: None,
        };
        let answer = answer(rt.alloc(), bytes, Mode::Flashback, &sel);
        let judged = unit.with_groups(rt.alloc());
        if answer.err() != judged.groups.as_ref().err().copied() {
            let start = unit.start;
            return Err(Fail::new(format_args!("the range from {start} on")));
        }
        match judged.groups {
            Ok(_) => undone = undone.wrapping_add(1),
            Err(_) => refused = refused.wrapping_add(1),
        }
    }
    Ok((undone, refused))
}
