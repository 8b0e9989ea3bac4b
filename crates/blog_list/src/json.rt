//! Units as lines of JSON.

ghost use Rattle.std.specs.Prelude.{◌≡◌, ◌++◌, OnOk, option_copied, option_map};
ghost use Rattle.jiff.specs.Words.{plain_zone};
ghost use Rattle.blog_event.specs.code.LogView.{log_bytes};
ghost use Rattle.blog_request.specs.Wanted.{changes_told};
ghost use Rattle.blog_trans.specs.Changes.{counts_of};
ghost use Rattle.blog_trans.specs.Groups.{groups};
ghost use Rattle.blog_trans.specs.code.IndexView.{index_bytes, index_selection, table_counted};
ghost use Rattle.blog_units.specs.code.UnitsView.{id_told};
ghost use Rattle.blog_list.specs.Json.{json_changes, json_count, json_counts, json_damaged, json_event, json_gtid, json_id, json_log, json_name, json_position, json_refusal, json_statement, json_tables, json_thread, json_totals};
ghost use Rattle.blog_list.specs.Shown.{changes_shown, refusal_of};
ghost use Rattle.blog_list.specs.code.Json.{PutsJsonTime};
ghost use Rattle.blog_list.specs.code.Told.{PutsJsonLine, shown_told, source_place};

use crate::beginning::put_beginning;
use crate::fault_events::{name_in, statement_of, words_of};
use crate::lines::put_id;
use crate::times::rfc_3339_text;
use crate::totals::{Totals, put_numbered};
use blog_event::{Fault, Log};
use blog_source::Source;
use blog_text::{put_lossy, put_str, put_string, put_text};
use blog_trans::{Index, TableCount};
use blog_units::{GlobalId, Unit};
use jiff::tz::TimeZone;
use std::alloc::{AllocError, Allocator, Global};

/// How many columns of a statement's text are printed.
const TEXT_COLUMNS: usize = 1000;

/// The most characters of it: many of them can be in no column.
const TEXT_CHARACTERS: usize = 4000;

/// Appends the line of a unit, with positions of the server's log, and with the log's name, if there is one.
#[tactic(auto, unfolding(crate::specs::Json::json_line))]
pub(crate) fn put_unit<A: Allocator + Copy, B: Allocator>(
    global: Global,
    out: &mut Vec<u8, A>,
    zone: TimeZone<'_>,
    source: &Source<B>,
    log: &Log<'_>,
    name: Option<&[u8]>,
    unit: &Unit<'_, B>,
) -> Result<(), AllocError>
    ensures { OnOk result (PutsJsonLine (plain_zone zone.entry) (option_copied name.entry) (shown_told (log_bytes log.now) (source_place source.now) unit.now) out.old.items out.new.items) }
{
    put_text(out, b"{")?;
    put_log_name(global, out, name)?;
    put_numbered(
        out,
        b"\"start\":",
        u64::from(source.place(unit.facts.start)),
    )?;
    put_numbered(out, b",\"stop\":", u64::from(source.place(unit.facts.stop)))?;
    put_time(out, zone, unit.facts.time)?;
    put_thread(out, unit.facts.thread)?;
    put_gtid(global, out, unit.facts.id)?;
    put_changes(global, out, source, log, unit)?;
    put_text(out, b"}\n")
}

/// Appends the name of a log, if there is one.
fn put_log_name<A: Allocator>(
    global: Global,
    out: &mut Vec<u8, A>,
    name: Option<&[u8]>,
) -> Result<(), AllocError>
    ensures { OnOk result (out.new.items ≡ out.old.items ++ json_log (option_copied name.entry)) }
{
    match name {
        Some(name) => {
            put_name(global, out, b"\"log\":", b",\"log_hex\":\"", name)?;
            put_text(out, b",")
        }
        None => Ok(()),
    }
}

/// Appends when a unit was. No character of a time needs an escape.
fn put_time<A: Allocator>(
    out: &mut Vec<u8, A>,
    zone: TimeZone<'_>,
    seconds: u32,
) -> Result<(), AllocError>
    ensures { OnOk result (PutsJsonTime (plain_zone zone.entry) seconds out.old.items out.new.items) }
{
    put_text(out, b",\"time\":\"")?;
    put_text(out, rfc_3339_text(zone, seconds).as_str().as_bytes())?;
    put_numbered(out, b"\",\"timestamp\":", u64::from(seconds))
}

/// Appends the thread of a unit, or that none is known.
fn put_thread<A: Allocator>(out: &mut Vec<u8, A>, thread: Option<u32>) -> Result<(), AllocError>
    ensures { OnOk result (out.new.items ≡ out.old.items ++ json_thread thread) }
{
    match thread {
        Some(thread) => put_numbered(out, b",\"thread\":", u64::from(thread)),
        None => put_text(out, b",\"thread\":null"),
    }
}

/// Appends the global transaction id of a unit, or that it has none.
fn put_gtid<A: Allocator>(
    global: Global,
    out: &mut Vec<u8, A>,
    id: Option<GlobalId<'_>>,
) -> Result<(), AllocError>
    ensures { OnOk result (out.new.items ≡ out.old.items ++ json_gtid (option_map id_told id.entry)) }
{
    match id {
        Some(id) => {
            put_text(out, b",\"gtid\":")?;
            put_id_string(global, out, &id)
        }
        None => put_text(out, b",\"gtid\":null"),
    }
}

/// Appends a global transaction id as a string. Only a tag can have characters that need an escape.
fn put_id_string<A: Allocator>(
    global: Global,
    out: &mut Vec<u8, A>,
    id: &GlobalId<'_>,
) -> Result<(), AllocError>
    ensures { OnOk result (out.new.items ≡ out.old.items ++ json_id (id_told id.now)) }
{
    if id.tag.is_empty() {
        put_text(out, b"\"")?;
        put_id(out, id)?;
        return put_text(out, b"\"");
    }
    let mut text = Vec::new(global);
    put_id(&mut text, id)?;
    put_string(out, &text)
}

/// Appends what a unit changes, or why it can't be undone.
fn put_changes<A: Allocator, B: Allocator>(
    global: Global,
    out: &mut Vec<u8, A>,
    source: &Source<B>,
    log: &Log<'_>,
    unit: &Unit<'_, B>,
) -> Result<(), AllocError>
    ensures { OnOk result (out.new.items ≡ out.old.items ++ json_changes (changes_shown (log_bytes log.now) (source_place source.now) unit.now.facts.stop (changes_told unit.now.groups))) }
{
    match &unit.groups {
        Ok(groups) => put_tables(global, out, groups),
        Err(fault) => put_refusal(out, source, log, fault, unit.facts.stop),
    }
}

/// Appends the numbers of rows by table.
fn put_tables<A: Allocator, B: Allocator>(
    global: Global,
    out: &mut Vec<u8, A>,
    index: &Index<'_, '_, B>,
) -> Result<(), AllocError>
    ensures { OnOk result (out.new.items ≡ out.old.items ++ json_tables (counts_of (groups (index_bytes index.now) (index_selection index.now)))) }
{
    put_text(out, b",\"tables\":[")?;
    put_counts(global, out, index)?;
    put_text(out, b"]")
}

/// Appends the same without the name of the field and without brackets.
fn put_counts<A: Allocator, B: Allocator>(
    global: Global,
    out: &mut Vec<u8, A>,
    index: &Index<'_, '_, B>,
) -> Result<(), AllocError>
    ensures { OnOk result (out.new.items ≡ out.old.items ++ json_counts (counts_of (groups (index_bytes index.now) (index_selection index.now)))) }
{
    if index.tables() == 0 {
        return Ok(());
    }
    put_count(global, out, &index.table(0))?;
    for n in 1..index.tables() {
        put_text(out, b",")?;
        put_count(global, out, &index.table(n))?;
    }
    Ok(())
}

/// Appends the numbers of a table's rows. Names that aren't UTF-8 stand in hexadecimal digits as well.
fn put_count<A: Allocator>(
    global: Global,
    out: &mut Vec<u8, A>,
    count: &TableCount<'_>,
) -> Result<(), AllocError>
    ensures { OnOk result (out.new.items ≡ out.old.items ++ json_count (table_counted count.now)) }
{
    put_name(
        global,
        out,
        b"{\"schema\":",
        b",\"schema_hex\":\"",
        count.schema,
    )?;
    put_name(
        global,
        out,
        b",\"table\":",
        b",\"table_hex\":\"",
        count.table,
    )?;
    put_numbered(out, b",\"inserts\":", count.inserts)?;
    put_numbered(out, b",\"updates\":", count.updates)?;
    put_numbered(out, b",\"deletes\":", count.deletes)?;
    put_text(out, b"}")
}

/// Appends a name as text, and in hexadecimal digits if it isn't UTF-8, each after the name of its field. `hex_field` ends in
/// the opening quote of the digits, and `field` doesn't end in a quote.
#[tactic(auto, unfolding(crate::specs::Json::json_name))]
fn put_name<A: Allocator>(
    global: Global,
    out: &mut Vec<u8, A>,
    field: &[u8],
    hex_field: &[u8],
    name: &[u8],
) -> Result<(), AllocError>
    ensures { OnOk result (out.new.items ≡ out.old.items ++ json_name field.now hex_field.now name.now) }
{
    put_text(out, field)?;
    match str::from_utf8(name) {
        Ok(text) => put_str(out, text),
        Err(_) => {
            put_lossy(out, name)?;
            put_text(out, hex_field)?;
            put_text(out, hex::encode_upper(global, name)?.as_bytes())?;
            put_text(out, b"\"")
        }
    }
}

/// Appends why a unit can't be undone that stops at a position.
fn put_refusal<A: Allocator, B: Allocator>(
    out: &mut Vec<u8, A>,
    source: &Source<B>,
    log: &Log<'_>,
    fault: &Fault,
    stop: u32,
) -> Result<(), AllocError>
    ensures { OnOk result (out.new.items ≡ out.old.items ++ json_refusal (refusal_of (log_bytes log.now) (source_place source.now) stop fault.now)) }
{
    put_text(out, b",\"fault\":")?;
    put_str(out, name_in(log, fault, stop))?;
    put_position(out, source.at_place(fault).at())?;
    put_statement(out, statement_of(log, fault, stop))?;
    put_event(out, words_of(log, fault, stop))
}

/// Appends the position of a fault, if it has one.
fn put_position<A: Allocator>(out: &mut Vec<u8, A>, position: Option<u32>) -> Result<(), AllocError>
    ensures { OnOk result (out.new.items ≡ out.old.items ++ json_position position) }
{
    match position {
        Some(pos) => put_numbered(out, b",\"position\":", u64::from(pos)),
        None => Ok(()),
    }
}

/// Appends the beginning of the text of a statement, if there is one.
fn put_statement<A: Allocator>(out: &mut Vec<u8, A>, text: Option<&[u8]>) -> Result<(), AllocError>
    ensures { OnOk result (out.new.items ≡ out.old.items ++ json_statement (option_copied text.entry)) }
{
    match text {
        Some(text) => {
            put_text(out, b",\"statement\":\"")?;
            put_beginning(out, text, TEXT_COLUMNS, TEXT_CHARACTERS)?;
            put_text(out, b"\"")
        }
        None => Ok(()),
    }
}

/// Appends what an event is, if that is known.
fn put_event<A: Allocator>(out: &mut Vec<u8, A>, words: Option<&str>) -> Result<(), AllocError>
    ensures { OnOk result (out.new.items ≡ out.old.items ++ json_event (option_copied words.entry)) }
{
    match words {
        Some(words) => {
            put_text(out, b",\"event\":")?;
            put_str(out, words)
        }
        None => Ok(()),
    }
}

/// Appends the last lines.
pub(crate) fn put_totals<A: Allocator>(
    out: &mut Vec<u8, A>,
    totals: &Totals,
) -> Result<(), AllocError>
    ensures { OnOk result (out.new.items ≡ out.old.items ++ json_totals totals.now) }
{
    put_numbered(out, b"{\"units\":", totals.units)?;
    put_numbered(out, b",\"not_undoable\":", totals.refused)?;
    put_numbered(out, b",\"rows\":", totals.rows)?;
    put_numbered(out, b",\"passed_over\":", totals.passed_over)?;
    put_text(out, b"}\n")?;
    put_damaged(out, totals.damaged)
}

/// Appends the line of the damaged events, where there are any.
fn put_damaged<A: Allocator>(out: &mut Vec<u8, A>, count: u64) -> Result<(), AllocError>
    ensures { OnOk result (out.new.items ≡ out.old.items ++ json_damaged count) }
{
    if count == 0 {
        return Ok(());
    }
    put_numbered(out, b"{\"damaged_events\":", count)?;
    put_text(out, b"}\n")
}
