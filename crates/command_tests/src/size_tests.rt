//! The size of `split` and `sql`, where it isn't given.

use command_runs::large_logs::long_texts;
use command_runs::run_log;
use std::process::Abort;
use std::test::Fail;

/// How many statements a log has as SQL.
fn statements(rt: &HostRuntime, log: &[u8]) -> Result<usize, Fail> {
    let outcome = run_log(rt, "uncut-sql", log, &["sql"])?;
    if !outcome.is_done(outcome.output()) {
        return Err(Fail::new("the run isn't done"));
    }
    let text = str::from_utf8(outcome.output())?;
    // one has the format description
    Ok(text.matches("BINLOG '\n").count().wrapping_sub(1))
}

/// A statement of 8,000,000 bytes is whole, and one of 8,000,001 is cut: two rows events of 3,999,981 bytes, and a map.
#[test]
fn statements_are_cut_at_the_size_in_the_help(rt: HostRuntime) -> Result<(), Fail> {
    let least = long_texts(&rt, b"t", 2, 3_999_945)?;
    assert!(rt; least.len() == 8_000_186);
    assert!(rt; run_log(&rt, "at-size", &least, &["split"])?.is_done(&least));
    assert!(rt; statements(&rt, &least)? == 1);
    let more = long_texts(&rt, b"t2", 2, 3_999_945)?;
    let cut = run_log(&rt, "over-size", &more, &["split"])?;
    // one map more
    assert!(rt; cut.output().len() == more.len().wrapping_add(39));
    assert!(rt; statements(&rt, &more)? == 2);
    Ok(())
}
