//! Lists of the units of several logs.

use blog_choice::TableName;
use blog_device::Watched;
use blog_event::Fault;
use blog_list::{ListWriter, Style, Totals};
use blog_request::Wanted;
use blog_source::{Reading, Source};
use blog_sum::SumFault;
use list_calls::lists::{ALL, JSON, TEXT, of_tables};
use list_calls::sources::{source_of, source_with};
use sample_logs::builder::{BEGIN, DROP_TABLE, XID, build};
use sample_logs::summed::{CLOSED, IN_USE_PLAIN};
use std::io;
use std::io::Write;
use std::process::Abort;
use std::test::Fail;

/// Checks the list of two logs in this style, and returns what it counts.
fn check_two(
    rt: &(impl AllocGlobal + Abort),
    style: &Style<'_>,
    wanted: &Wanted<'_>,
    first: (&Source, Option<&[u8]>),
    second: (&Source, Option<&[u8]>),
    lines: &str,
) -> Result<Totals, Fail> {
    let mut output = Watched::new(Vec::new(rt.alloc()));
    let list = ListWriter::new(rt.alloc(), rt.alloc(), style)?;
    let mut totals = Totals::NONE;
    assert!(rt; list.write_header(&mut output) == Ok(()));
    let (source, name) = first;
    let answer = list.write_log(source, name, wanted, &mut totals, &mut output);
    assert!(rt; answer == Ok(None));
    let (source, name) = second;
    let answer = list.write_log(source, name, wanted, &mut totals, &mut output);
    assert!(rt; answer == Ok(None));
    assert!(rt; list.write_totals(&totals, &mut output) == Ok(()));
    assert!(rt; str::from_utf8(output.device().as_slice())? == lines);
    Ok(totals)
}

/// The log `CLOSED` with a damaged event that is passed over.
fn damaged(rt: &(impl AllocGlobal + Abort)) -> Result<Source, Fail> {
    let mut damaged = CLOSED;
    damaged[1060] ^= 1;
    let how = Reading {
        stop: None,
        skip_damaged: true,
    };
    source_with(rt, &damaged, how)
}

#[test]
fn the_lines_of_each_log_are_below_its_name(rt: HostRuntime) -> Result<(), Fail> {
    let items = [TableName::read(b"items")];
    let wanted = of_tables(&items, &[]);
    let first = damaged(&rt)?;
    let second = source_of(&rt, &IN_USE_PLAIN)?;
    let lines = "     start       stop  time (UTC)               thread  rows
binlog.000041:
       512        811  2026-11-21 02:01:00          13  `shop`.`items` inserts 2
       811       1215  2026-11-21 02:02:00          13  Damaged at 1026: rows
a\\n\\xff\\\\:
       466        670  2026-11-21 03:01:00          16  Statement at 539: alter table items add column price decimal(..
       670        943  2026-11-21 03:02:00          16  `shop`.`items` inserts 1
      1474       1760  2026-11-21 03:05:00          16  `shop`.`items` deletes 2
units 5, not undoable 2, rows 5
statements passed over 2
damaged events passed over 1
";
    let totals = check_two(
        &rt,
        &TEXT,
        &wanted,
        (&first, Some(b"binlog.000041")),
        (&second, Some(b"a\n\xff\\")),
        lines,
    )?;
    let counted = Totals {
        units: 5,
        refused: 2,
        rows: 5,
        passed_over: 2,
        damaged: 1,
    };
    assert!(rt; totals == counted);
    Ok(())
}

#[test]
fn logs_without_names_have_their_lines(rt: HostRuntime) -> Result<(), Fail> {
    let bytes = build(&rt, &[BEGIN, XID])?;
    let source = source_of(&rt, &bytes)?;
    let lines = "     start       stop  time (UTC)               thread  rows
       120        186  1970-01-01 00:00:00           0  no rows
       120        186  1970-01-01 00:00:00           0  no rows
units 2, not undoable 0, rows 0
";
    let totals = check_two(&rt, &TEXT, &ALL, (&source, None), (&source, None), lines)?;
    assert!(rt; totals.units == 2);
    Ok(())
}

#[test]
fn each_object_has_the_name_of_its_log(rt: HostRuntime) -> Result<(), Fail> {
    let bytes = build(&rt, &[DROP_TABLE])?;
    let second = source_of(&rt, &bytes)?;
    let lines =
        "{\"log\":\"a\\\"b\",\"start\":120,\"stop\":166,\"time\":\"1970-01-01T00:00:00+00:00\",\"timestamp\":0,\"thread\":0,\"gtid\":null,\"fault\":\"Statement\",\"position\":120,\"statement\":\"DROP TABLE t\"}
{\"log\":\"\u{FFFD}\",\"log_hex\":\"FF\",\"start\":120,\"stop\":166,\"time\":\"1970-01-01T00:00:00+00:00\",\"timestamp\":0,\"thread\":0,\"gtid\":null,\"fault\":\"Statement\",\"position\":120,\"statement\":\"DROP TABLE t\"}
{\"units\":2,\"not_undoable\":2,\"rows\":0,\"passed_over\":0}
";
    let totals = check_two(
        &rt,
        &JSON,
        &ALL,
        (&second, Some(b"a\"b")),
        (&second, Some(b"\xff")),
        lines,
    )?;
    assert!(rt; totals.refused == 2);
    // what is passed over is counted
    let elsewhere = [TableName::read(b"elsewhere")];
    let wanted = of_tables(&elsewhere, &[]);
    let first = damaged(&rt)?;
    let lines =
        "{\"start\":811,\"stop\":1215,\"time\":\"2026-11-21T02:02:00+00:00\",\"timestamp\":1795226520,\"thread\":13,\"gtid\":\"283c105d-e730-11f1-97ff-02fc00000001:6\",\"fault\":\"Damaged\",\"position\":1026,\"event\":\"rows\"}
{\"units\":1,\"not_undoable\":1,\"rows\":0,\"passed_over\":1}
{\"damaged_events\":1}
";
    let totals = check_two(&rt, &JSON, &wanted, (&first, None), (&second, None), lines)?;
    assert!(rt; totals.damaged == 1);
    Ok(())
}

#[test]
fn a_log_that_is_none_has_no_lines(rt: HostRuntime) -> Result<(), Fail> {
    let bytes = build(&rt, &[BEGIN])?;
    let source = source_of(&rt, &bytes)?;
    let mut output = Watched::new(Vec::new(rt.alloc()));
    let list = ListWriter::new(rt.alloc(), rt.alloc(), &TEXT)?;
    let mut totals = Totals::NONE;
    let answer = list.write_log(&source, Some(b"open"), &ALL, &mut totals, &mut output);
    let unended = SumFault::Log(Fault::Unended { pos: 159 });
    assert!(rt; answer == Ok(Some(unended)));
    let lines = "open:\n       120        159  1970-01-01 00:00:00           0  Unended at 159\n";
    assert!(rt; str::from_utf8(output.device().as_slice())? == lines);
    assert!(rt; totals.refused == 1);
    Ok(())
}

/// Takes all bytes, and keeps how many were there when it was flushed last.
#[derive(Drop)]
struct FlushedWriter {
    taken: Vec<u8>,
    flushed: usize,
}

impl Write for FlushedWriter {
    fn write(&mut self, buf: &[u8]) -> io::Result<usize> {
        self.taken.extend_from_slice(buf)?;
        Ok(buf.len())
    }

    fn flush(&mut self) -> io::Result<()> {
        self.flushed = self.taken.len();
        Ok(())
    }
}

#[test]
fn each_part_of_a_list_is_flushed(rt: HostRuntime) -> Result<(), Fail> {
    let source = source_of(&rt, &CLOSED)?;
    let mut output = Watched::new(FlushedWriter {
        taken: Vec::new(rt.alloc()),
        flushed: 0,
    });
    let list = ListWriter::new(rt.alloc(), rt.alloc(), &TEXT)?;
    let mut totals = Totals::NONE;
    assert!(rt; list.write_header(&mut output) == Ok(()));
    let header = output.device().flushed;
    assert!(rt; header > 0);
    assert!(rt; output.device().taken.len() == header);
    let answer = list.write_log(&source, None, &ALL, &mut totals, &mut output);
    assert!(rt; answer == Ok(None));
    let lines = output.device().flushed;
    assert!(rt; lines > header);
    assert!(rt; output.device().taken.len() == lines);
    assert!(rt; list.write_totals(&totals, &mut output) == Ok(()));
    let all = output.device().flushed;
    assert!(rt; all > lines);
    assert!(rt; output.device().taken.len() == all);
    Ok(())
}
