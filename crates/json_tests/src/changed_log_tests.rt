//! Logs with a byte changed: what is listed of them has no control character, is JSON where it should be, and holds of their ranges.

use blog_device::Watched;
use blog_event::Log;
use blog_list::{Style, list};
use blog_source::{Reading, Source};
use list_calls::lists::{ALL, JSON, TEXT};
use list_calls::undoing::undo_each;
use sample_logs::samples::ALTER_BETWEEN;
use sample_logs::summed::{CLOSED, IN_USE_PLAIN};
use serde_json::Value;
use std::process::Abort;
use std::test::Fail;

/// What bytes are changed by in turn: one bit, and to bytes that text must not have.
const MASKS: [u8; 4] = [0x01, 0x1B, 0x80, 0xFF];

/// No format description of these logs ends after this position.
const FIRST: usize = 127;

/// Lists a log in this style. Returns nothing if it doesn't open.
fn listed(
    rt: &(impl AllocGlobal + Abort),
    bytes: &[u8],
    style: &Style<'_>,
) -> Result<Option<Vec<u8>>, Fail> {
    let mut log = Vec::with_capacity(rt.alloc(), bytes.len())?;
    log.extend_from_slice(bytes)?;
    let how = Reading {
        stop: None,
        skip_damaged: true,
    };
    let Ok(source) = Source::open(log, how) else {
        return Ok(None);
    };
    let mut output = Watched::new(Vec::new(rt.alloc()));
    match list(rt.alloc(), rt.alloc(), &source, &ALL, style, &mut output) {
        Ok(_) => Ok(Some(output.device().to_vec(rt.alloc())?)),
        Err(_) => Ok(None),
    }
}

/// Checks that a text is UTF-8 and has no control character but line feeds.
fn check_text<'t>(rt: &impl Abort, text: &'t [u8]) -> Result<&'t str, Fail> {
    let text = str::from_utf8(text)?;
    assert!(rt;
        text.chars().all(|c| c == '\n' || !c.is_control()),
        "{text}"
    );
    assert!(rt; text.ends_with("\n"));
    Ok(text)
}

/// Checks the lists of a log, as text and as JSON. Returns whether it has any.
fn check_lists(rt: &(impl AllocGlobal + Abort), bytes: &[u8]) -> Result<bool, Fail> {
    let Some(text) = listed(rt, bytes, &TEXT)? else {
        return Ok(false);
    };
    check_text(rt, text.as_slice())?;
    let Some(json) = listed(rt, bytes, &JSON)? else {
        return Err(Fail::new("a list as text alone"));
    };
    for line in check_text(rt, json.as_slice())?.lines() {
        let Ok(value) = Value::from_str(rt.alloc(), line) else {
            return Err(Fail::new(format_args!("{line}")));
        };
        assert!(rt; value.is_object());
    }
    Ok(true)
}

/// Checks the lists of a log with each of its bytes changed in turn, and undoes the ranges of its units if it has no checksums.
/// Returns how many logs were listed.
fn check_changed(
    rt: &(impl AllocGlobal + Abort),
    bytes: &[u8],
    is_plain: bool,
) -> Result<usize, Fail> {
    let mut log = bytes.to_vec(rt.alloc())?;
    let mut count = 0_usize;
    for at in FIRST..bytes.len() {
        let mask = MASKS[at % MASKS.len()];
        *log.get_mut(at).ok_or("a byte")? ^= mask;
        if check_lists(rt, log.as_slice())? {
            count = count.wrapping_add(1);
        }
        if is_plain && Log::open(log.as_slice()).is_ok() {
            undo_each(rt, log.as_slice())?;
        }
        *log.get_mut(at).ok_or("a byte")? ^= mask;
    }
    Ok(count)
}

#[test]
fn changed_plain_logs_are_listed(rt: HostRuntime) -> Result<(), Fail> {
    let all = IN_USE_PLAIN.len().wrapping_sub(FIRST);
    assert!(rt; check_changed(&rt, &IN_USE_PLAIN, true)? == all);
    let all = ALTER_BETWEEN.len().wrapping_sub(FIRST);
    assert!(rt; check_changed(&rt, &ALTER_BETWEEN, true)? == all);
    Ok(())
}

#[test]
fn changed_logs_with_checksums_are_listed(rt: HostRuntime) -> Result<(), Fail> {
    let all = CLOSED.len().wrapping_sub(FIRST);
    assert!(rt; check_changed(&rt, &CLOSED, false)? == all);
    Ok(())
}
