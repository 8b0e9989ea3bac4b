//! Seeds for hashing: no answer depends on them.

use blog_flash::{Mode, answer, answer_seeded};
use blog_trans::Selection;
use sample_logs::builder::{BEGIN, XID, front, insert, map_of, put};
use std::alloc::AllocError;
use std::process::Abort;
use std::test::Fail;

const TABLES: u32 = 300;

/// By the seed 0 these bytes, in the second half of a block, make one factor of its product all ones. Such a product
/// folds to all ones, unless the other factor is 0. So all blocks that end in them have the same hash.
const ALL_ONES: [u8; 8] = [0x1C, 0x4B, 0xEF, 0x3D, 0x6B, 0x27, 0xB1, 0x54];

/// A name of a block and one byte more, which has the same hash as all others by the seed 0.
fn name_of(id: u32) -> [u8; 17] {
    let mut name = [b'n'; 17];
    for (place, byte) in id.to_le_bytes().into_iter().enumerate() {
        name[2 * place] = b'a' + byte / 16;
        name[2 * place + 1] = b'a' + byte % 16;
    }
    name[8..16].copy_from_slice(&ALL_ONES);
    name
}

/// A statement that inserts a row into each of many tables. The names of these have the same hash by the seed 0.
fn names_that_collide(rt: &impl AllocGlobal) -> Result<Vec<u8>, AllocError> {
    let mut log = Vec::new(rt.alloc());
    log.extend_from_slice(front())?;
    put(&mut log, &BEGIN)?;
    for id in 1..=TABLES {
        put(&mut log, &map_of(id, &name_of(id)))?;
        put(&mut log, &insert(id, &[1]).open())?;
    }
    put(&mut log, &insert(1, &[2]))?;
    put(&mut log, &XID)?;
    Ok(log)
}

/// The answer in a mode is the same by each of some seeds.
fn check_answer<R: AllocGlobal + Abort>(rt: &R, log: &[u8], mode: Mode) {
    let all = Selection::all();
    let fixed = answer(rt.alloc(), log, mode, &all);
    for seed in [0, 1, 0x0123_4567_89AB_CDEF, u64::MAX] {
        let seeded = answer_seeded(rt.alloc(), log, mode, &all, seed);
        assert!(rt; seeded == fixed, "{mode:?} by {seed}");
    }
}

#[test]
fn answers_are_the_same_by_each_seed(rt: HostRuntime) -> Result<(), Fail> {
    let log = names_that_collide(&rt)?;
    let cut = log.get(..log.len().wrapping_sub(31)).ok_or("a short log")?;
    for mode in [
        Mode::Flashback,
        Mode::Forward,
        Mode::FlashbackSql,
        Mode::ForwardSql,
        Mode::Summary,
    ] {
        check_answer(&rt, &log, mode);
        check_answer(&rt, cut, mode);
    }
    let summary = answer(rt.alloc(), &log, Mode::Summary, &Selection::all()).expect(
        &rt,
        "an accepted log",
    );
    assert!(&rt; (summary.iter().filter(|byte| **byte == b'\n').count()) == TABLES as usize + 2);
    Ok(())
}
