//! Lists of the units whose global transaction ids are asked for.

use blog_choice::TableChoice;
use blog_device::Watched;
use blog_list::{Style, list};
use blog_request::{GlobalIds, Wanted};
use list_calls::lists::TEXT;
use list_calls::sources::source_of;
use sample_logs::builder::{BEGIN, Part, XID, build};
use std::process::Abort;
use std::test::Fail;

/// The units with these ids, or all if there are none.
fn of_ids<'c>(gtids: &'c [GlobalIds<'c>]) -> Wanted<'c> {
    Wanted {
        start: None,
        stop: None,
        from_time: None,
        to_time: None,
        threads: &[],
        gtids,
        choice: TableChoice {
            database: None,
            tables: &[],
            excluded: &[],
        },
    }
}

/// The list of the units whose ids these texts spell, or of all if there are none: with ids, and without its header.
fn list_of(rt: &(impl AllocGlobal + Abort), bytes: &[u8], texts: &[&str]) -> Result<String, Fail> {
    let mut asked = Vec::new(rt.alloc());
    for text in texts {
        asked.push(GlobalIds::read(text.as_bytes()).expect(rt, "ids"))?;
    }
    let wanted = of_ids(asked.as_slice());
    let style = Style {
        gtids: true,
        ..TEXT
    };
    let mut output = Watched::new(Vec::new(rt.alloc()));
    let source = source_of(rt, bytes)?;
    let answer = list(
        rt.alloc(),
        rt.alloc(),
        &source,
        &wanted,
        &style,
        &mut output,
    );
    assert!(rt; answer == Ok(None));
    let text = str::from_utf8(output.device().as_slice())?;
    let (_, lines) = text.split_once("rows\n").expect(rt, "a header");
    Ok(String::from_str(rt.alloc(), lines)?)
}

/// Checks the list of the units whose ids these texts spell.
fn check(
    rt: &(impl AllocGlobal + Abort),
    bytes: &[u8],
    texts: &[&str],
    lines: &str,
) -> Result<(), Fail> {
    assert!(rt; list_of(rt, bytes, texts)?.as_str() == lines);
    Ok(())
}

/// A Gtid event of this server, number and tag.
fn gtid_of(rt: &impl AllocGlobal, server: u8, number: u64, tag: &[u8]) -> Result<Vec<u8>, Fail> {
    let mut body = Vec::new(rt.alloc());
    body.push(1)?;
    for n in 0..16u8 {
        body.push(server.wrapping_mul(n).wrapping_add(n / 2))?;
    }
    body.extend_from_slice(&number.to_le_bytes())?;
    if !tag.is_empty() {
        body.push(42)?;
        body.extend_from_slice(tag)?;
    }
    Ok(body)
}

/// Appends the Gtid events of this server and number, with each tag and without one.
fn put_tags(
    rt: &impl AllocGlobal,
    bodies: &mut Vec<Vec<u8>>,
    server: u8,
    number: u64,
) -> Result<(), Fail> {
    for tag in ["", "_", "a", "tag1", "abcdefghijklmnopqrstuvwxyz_12345"] {
        bodies.push(gtid_of(rt, server, number, tag.as_bytes())?)?;
    }
    Ok(())
}

/// Appends the Gtid events of this server, with the ends of ranges as numbers.
fn put_numbers(rt: &impl AllocGlobal, bodies: &mut Vec<Vec<u8>>, server: u8) -> Result<(), Fail> {
    for number in [1, 9, 10, 4_294_967_296, 18_446_744_073_709_551_615] {
        put_tags(rt, bodies, server, number)?;
    }
    Ok(())
}

/// The Gtid events of these servers.
fn gtids_of(rt: &impl AllocGlobal, servers: &[u8]) -> Result<Vec<Vec<u8>>, Fail> {
    let mut bodies = Vec::new(rt.alloc());
    for server in servers {
        put_numbers(rt, &mut bodies, *server)?;
    }
    Ok(bodies)
}

/// A log of a unit without changes for each of these Gtid events.
fn log_of(rt: &impl AllocGlobal, bodies: &[Vec<u8>]) -> Result<Vec<u8>, Fail> {
    let mut parts = Vec::new(rt.alloc());
    for body in bodies {
        parts.push(Part::Other {
            kind: 33,
            flags: 0,
            body: body.as_slice(),
        })?;
        parts.push(BEGIN)?;
        parts.push(XID)?;
    }
    Ok(build(rt, parts.as_slice())?)
}

/// Checks that the text of the id in a unit's line chooses this unit alone, and answers whether the line is a unit's.
fn check_line(rt: &(impl AllocGlobal + Abort), bytes: &[u8], line: &str) -> Result<bool, Fail> {
    let Some(shown) = line.strip_suffix("  no rows") else {
        return Ok(false);
    };
    let (_, text) = shown.rsplit_once("  ").expect(rt, "an id");
    let lines = format!(in rt.alloc(); "{line}\nunits 1, not undoable 0, rows 0\n")?;
    check(rt, bytes, &[text], lines.as_str())?;
    Ok(true)
}

/// Ids of many servers, with the ends of ranges as numbers, with and without tags. Each is listed with a text.
#[test]
fn the_text_of_an_id_chooses_its_unit_alone(rt: HostRuntime) -> Result<(), Fail> {
    let bodies = gtids_of(&rt, &[0, 1, 16, 171, 255])?;
    let bytes = log_of(&rt, bodies.as_slice())?;
    let all = list_of(&rt, &bytes, &[])?;
    let mut units = 0_usize;
    for line in all.lines() {
        if check_line(&rt, &bytes, line)? {
            units = units.wrapping_add(1);
        }
    }
    assert!(rt; units == bodies.len());
    Ok(())
}
