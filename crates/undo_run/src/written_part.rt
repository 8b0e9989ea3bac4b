//! Reading a log, and writing a part of it, or wanted units of that.

ghost use Rattle.std.specs.Prelude.{◌≡◌, ◌||◌, ◌++◌, IfOk, None, OnErr, Some, false, map, option_map, true};
ghost use Rattle.blog_device.specs.Watched.{device_of, has_failed};
ghost use Rattle.blog_event.specs.Opening.{opening_fault};
ghost use Rattle.blog_event.specs.code.LogView.{log_bytes};
ghost use Rattle.blog_later.specs.code.LeavingView.{HasLeft};
ghost use Rattle.blog_left_out.specs.code.LeftOutView.{bytes_left};
ghost use Rattle.blog_run.specs.Writing.{HasShortWriting};
ghost use Rattle.blog_source.specs.code.SourceView.{end_of, fault_of, log_of};
ghost use Rattle.blog_trans.specs.Selection.{all, selection_of};
ghost use Rattle.blog_trans.specs.code.IndexView.{index_bytes, index_selection};
ghost use Rattle.undo_run.specs.Parts.{part_taken, reading_of, selection_in};
ghost use Rattle.undo_run.specs.Units.{chosen_taken, chosen_units, damage_among, kept_log, units_of_part};
ghost use Rattle.undo_run.specs.Writes.{IsLocatedIn, WritesHanded, WritesPart, has_failed_read, has_failed_write, is_failed_write, leaves_rows, merges_rows};
ghost use Rattle.undo_run.specs.code.NamesView.{names_told};
ghost use Rattle.undo_run.specs.code.Leaves.{WritesLeft};
ghost use Rattle.undo_run.specs.code.SinceView.{since_seen};
ghost use Rattle.undo_run.specs.code.Steps.{LacksUnits, Looks, WritesGroups, WritesIndex, chosen_by, chosen_changes, report_told};

use crate::chosen::{Chosen, choose, index_of_chosen};
use crate::fault::{LogsFault, PartFault};
use crate::later::{look_after_units, look_later};
use crate::log_names::Names;
use crate::merged_part::write_merged;
use crate::missing::{first_missing, first_without_unit};
use crate::part::{damage_before, has_start, inside_of, no_start, select_part};
use crate::reports::report_of;
use crate::request::{Among, UnitRequest, positions_of};
use crate::several::{Logs, open_logs};
use crate::since::Since;
use crate::untouched::{Rest, Seen, look_and_leave};
use advice::no_schema;
use blog_device::{RunFault, Watched};
use blog_event::{Fault, Log};
use blog_later::Leaving;
use blog_request::Wanted;
use blog_run::{Writing, WritingFault, write_groups};
use blog_source::Source;
use blog_sum::SumFault;
use blog_text::put_text;
use blog_trans::{Index, Selection};
use jiff::tz::TimeZone;
use list_run::GivenLog;
use std::alloc::{AllocError, Allocator};
use std::io::{Read, Write};

/// Reads logs of one server, and writes the changes of a part, or what undoes them, as a log or as SQL. Each new name of a schema must have
/// at most 255 bytes. Returns a report for people, with the names of the logs: how many transactions, and how many rows of which tables. All
/// memory is taken before the first write.
///
/// The logs are a first one, and further ones, each begun where the one before ended. They are read as one, and held in memory together. All but
/// the last are read to their ends.
///
/// The part is a selection by places: positions in the server's logs, with their checksums. Its start is where an event of the first log begins,
/// or, of one log alone, its end; one up to 4 is the first event. Its stop is a place of the last log.
///
/// Without `asked` all of the part is written. With it units are made of the events from the start on, and those are written that
/// start before the stop, and are asked for; but if the part has a database or a table, a statement that names none of its tables is
/// passed over, as `list` does it. Each is accepted by itself, up to the stop, and the others stay as they are. Places that are asked for are
/// counted from the start of the first log.
///
/// `looks` says whether what came after is looked at: the units after the stop, or from the first chosen one on those that aren't chosen, to
/// the end of the logs; and then the later logs, each of which is read when its turn comes, to its end. It fails with `ChangedSince` if these
/// take rows that changes before them left, which are written, and else with `UnknownSince` if the last log or a later one is damaged, for a part
/// after its stop, or if something there may concern the changed tables, and can't be looked into. Without `looks` no later log is read, and
/// of the last log what is at the stop or after it only if units are asked for.
///
/// If `asked` leaves rows that were changed since, a change of the units isn't written if a change after it takes the row that it left, unless that
/// change is written too. The report says how many changes aren't written, and where their rows were changed. It fails with `ChangedSince` then only
/// if no change is left to write, and first with `UnknownSince`.
///
/// If `asked` merges these rows, the same changes aren't written, and then each of these rows is updated to what it would be without the changes of the
/// units: a column that only these changed gets its value from before them, and one that others changed keeps theirs. Rows that the units inserted stay.
/// The report says how many rows are updated and how many stay. It fails with `ChangedSince` only if nothing is written, and with `Unmerged` if a
/// table of these rows had other columns when they were changed.
///
/// Fails at the first of these that holds: with `Opening` if the reader fails, the first log is too long or can't be opened, or if memory is
/// refused; with `Further` of the first further log that can't be opened, or read behind those before it; and else with `Part`: with `NoEventAt` if no
/// event of the first log begins at the start, or with `Sums` if the log ends too early or is damaged in front of it; with `NoUnitAt` at the
/// first of the asked places that no unit of the part has, or with `NoUnitWithGtid` of the first of the global transaction ids, or with `Sums` if
/// the part is damaged then; with `Log` or `Sums` of the first fault in the order of the logs; with `NothingSelected` if no rows are changed; with
/// `LaterLog` of the first later log that isn't opened, by its number; with `ChangedSince`, `UnknownSince` or `Unmerged`; with `NoSchema` if the changes
/// have no table of a schema that is to have another name; with `TooLong`. The writer wasn't called then. With `looks` and `asked` damage of
/// the last log is no fault of its own, but `UnknownSince`.
/// Fails with `Run(Write)` if a write failed; the writer then has a beginning of what is written.
///
/// Names and ids of tables are hashed by the seed (`Log::with_seed`). What is written doesn't depend on it. The lines of `ChangedSince` have
/// times in a zone.
pub fn write_part<'n, A: Allocator + Copy, R: Read, L: Read + Drop, W: Write>(
    alloc: A,
    reader: &mut Watched<R>,
    name: &'n [u8],
    more: Vec<GivenLog<'n, L>, A>,
    part: &Selection<'_>,
    asked: Option<UnitRequest<'_>>,
    looks: bool,
    later: Vec<GivenLog<'n, L>, A>,
    seed: u64,
    zone: TimeZone<'_>,
    writing: &Writing<'_>,
    writer: &mut Watched<W>,
) -> Result<Vec<u8, A>, LogsFault<A>>
    requires { HasShortWriting writing.now }
    ensures writes { WritesPart looks L.remaining later.entry.items writing.now name.now more.entry.items (selection_of part.now) asked.entry (R.remaining (device_of reader.old)) (R.remaining (device_of reader.new))
        (W.contents (device_of writer.old)) (W.contents (device_of writer.new)) result }
    ensures untouched { OnErr result (has_failed writer.new ≡ false → writer.new ≡ writer.old) }
    ensures reader_mark { has_failed reader.new ≡ (has_failed reader.old || has_failed_read result) }
    ensures writer_mark { has_failed writer.new ≡ (has_failed writer.old || has_failed_write result) }
{
    let logs = match open_logs(alloc, reader, name, more, read_to(part, &asked, looks)) {
        Ok(logs) => logs,
        Err(fault) => return Err(fault),
    };
    if !logs.names.starts_in_first(part.start) {
        return Err(LogsFault::Part(0, PartFault::NoEventAt(part.start)));
    }
    let inside = logs.names.part_among(part);
    match write_read(
        alloc, &logs, &inside, asked, looks, later, seed, zone, writing, writer,
    ) {
        Ok(told) => Ok(told),
        Err(fault) => Err(located_fault(&logs.names, fault)),
    }
}

/// A fault of logs that were read as one, by its log.
fn located_fault<A: Allocator, N: Allocator>(
    names: &Names<'_, N>,
    fault: PartFault<A>,
) -> LogsFault<A>
    ensures { IsLocatedIn (names_told names.now) fault result }
{
    match fault {
        PartFault::Log(fault) => match fault.at() {
            Some(place) => {
                let located = names.located(place);
                LogsFault::Part(located.number, PartFault::Log(fault.moved_to(located.at)))
            }
            None => LogsFault::Part(0, PartFault::Log(fault)),
        },
        PartFault::Sums(fault) => LogsFault::Part(names.more.len(), PartFault::Sums(fault)),
        PartFault::NoUnitAt(place) => {
            let located = names.located(place);
            LogsFault::Part(located.number, PartFault::NoUnitAt(located.at))
        }
        fault => LogsFault::Part(0, fault),
    }
}

/// Writes a part of logs that were read as one.
fn write_read<'n, A: Allocator + Copy, L: Read + Drop, W: Write>(
    alloc: A,
    logs: &Logs<'n, A>,
    part: &Selection<'_>,
    asked: Option<UnitRequest<'_>>,
    looks: bool,
    later: Vec<GivenLog<'n, L>, A>,
    seed: u64,
    zone: TimeZone<'_>,
    writing: &Writing<'_>,
    writer: &mut Watched<W>,
) -> Result<Vec<u8, A>, PartFault<A>>
    requires short { HasShortWriting writing.now }
    requires opens { opening_fault (log_of logs.now.source) ≡ None }
    ensures writes { WritesHanded looks L.remaining later.entry.items writing.now (names_told logs.now.names) (selection_of part.now) asked.entry
        (log_of logs.now.source) (end_of logs.now.source) (fault_of logs.now.source) (W.contents (device_of writer.old)) (W.contents (device_of writer.new)) result }
    ensures untouched { OnErr result (has_failed writer.new ≡ false → writer.new ≡ writer.old) }
    ensures mark { has_failed writer.new ≡ (has_failed writer.old || is_failed_write result) }
{
    let source = &logs.source;
    let names = &logs.names;
    match asked {
        None => write_all(
            alloc, source, names, part, looks, later, seed, zone, writing, writer,
        ),
        Some(asked) => write_units(
            alloc, source, names, part, &asked, looks, later, seed, zone, writing, writer,
        ),
    }
}

/// Up to where the log of a part is read; to its end if there is no such place.
fn read_to(part: &Selection<'_>, asked: &Option<UnitRequest<'_>>, looks: bool) -> Option<u32>
    ensures { result ≡ (reading_of looks asked.now (selection_of part.now)).stop }
{
    if looks || asked.is_some() {
        None
    } else {
        part.stop
    }
}

/// Looks at what came after a part of the log of a source, if that is asked for.
fn look_if<'n, 'l, A: Allocator + Copy, L: Read + Drop>(
    alloc: A,
    source: &'l Source<A>,
    logs: &Names<'n, A>,
    part: &Selection<'_>,
    index: &Index<'l, 'l, A>,
    looks: bool,
    later: Vec<GivenLog<'n, L>, A>,
    seed: u64,
    zone: TimeZone<'_>,
) -> Result<Option<Since<'n, A>>, PartFault<A>>
    requires bytes { index_bytes index.now ≡ log_of source.now }
    requires selection { index_selection index.now ≡ selection_in (selection_of part.now) (log_of source.now) }
    ensures { Looks looks L.remaining later.entry.items (part_taken (names_told logs.now) (selection_of part.now) (log_of source.now) (end_of source.now) (fault_of source.now)) result }
{
    if looks {
        match look_later(alloc, source, logs, part, index, later, seed, zone) {
            Ok(since) => Ok(Some(since)),
            Err(fault) => Err(fault),
        }
    } else {
        Ok(None)
    }
}

/// Writes a part of the log of a source.
fn write_all<'n, A: Allocator + Copy, L: Read + Drop, W: Write>(
    alloc: A,
    source: &Source<A>,
    logs: &Names<'n, A>,
    part: &Selection<'_>,
    looks: bool,
    later: Vec<GivenLog<'n, L>, A>,
    seed: u64,
    zone: TimeZone<'_>,
    writing: &Writing<'_>,
    writer: &mut Watched<W>,
) -> Result<Vec<u8, A>, PartFault<A>>
    requires { HasShortWriting writing.now }
    ensures writes { WritesHanded looks L.remaining later.entry.items writing.now (names_told logs.now) (selection_of part.now) None (log_of source.now) (end_of source.now) (fault_of source.now)
        (W.contents (device_of writer.old)) (W.contents (device_of writer.new)) result }
    ensures untouched { OnErr result (has_failed writer.new ≡ false → writer.new ≡ writer.old) }
    ensures mark { has_failed writer.new ≡ (has_failed writer.old || is_failed_write result) }
{
    let index = match select_part(alloc, source, part, looks, seed) {
        Ok(index) => index,
        Err(fault) => return Err(fault),
    };
    let since = match look_if(alloc, source, logs, part, &index, looks, later, seed, zone) {
        Ok(since) => since,
        Err(fault) => return Err(fault),
    };
    write_index(alloc, logs, &index, &since, writing, writer)
}

/// Why the reading of a source ended, if units are asked for and it ended in front of the stop of their part; nothing if what came later is looked at.
fn damage_among<A: Allocator>(
    source: &Source<A>,
    part: &Selection<'_>,
    looks: bool,
) -> Option<SumFault>
    ensures { result ≡ damage_among looks (selection_of part.now) (end_of source.now) (fault_of source.now) }
{
    if looks {
        None
    } else {
        damage_before(source, part, true)
    }
}

/// The first place or global transaction id that is asked for and that no unit of a range has: why nothing is written. `damage` is why the
/// reading of the log ended too early.
fn missing<A: Allocator>(
    source: &Source<A>,
    log: &Log<'_>,
    inside: &Selection<'_>,
    asked: &UnitRequest<'_>,
    damage: Option<SumFault>,
) -> Option<PartFault<A>>
    requires { log_bytes log.now ≡ log_of source.now }
    ensures { LacksUnits asked.now (selection_of inside.now) (log_of source.now) (end_of source.now) damage result }
{
    let missing = match first_without_unit(source, log, inside, asked.at) {
        Some(place) => PartFault::NoUnitAt(place),
        None => match first_missing(log, inside, asked.wanted.gtids) {
            Some(number) => PartFault::NoUnitWithGtid(number),
            None => return None,
        },
    };
    match damage {
        Some(damage) => Some(PartFault::Sums(damage)),
        None => Some(missing),
    }
}

/// Looks at what came after the first chosen unit of the log of a source, if that is asked for.
fn look_among_if<'n, A: Allocator + Copy, L: Read + Drop>(
    alloc: A,
    source: &Source<A>,
    logs: &Names<'n, A>,
    log: &Log<'_>,
    inside: &Selection<'_>,
    among: &Among<'_, '_>,
    chosen: &[bool],
    index: &Index<'_, '_, A>,
    leaving: Leaving<A>,
    looks: bool,
    later: Vec<GivenLog<'n, L>, A>,
    seed: u64,
    zone: TimeZone<'_>,
) -> Result<Option<Since<'n, A>>, PartFault<A>>
    requires bytes { log_bytes log.now ≡ log_of source.now }
    requires kept { index_bytes index.now ≡ kept_log (selection_of inside.now) (log_of source.now) (chosen_units (chosen_by among.now (selection_of inside.now) (log_of source.now)) (selection_of inside.now) (log_of source.now)) }
    requires selection { index_selection index.now ≡ all }
    requires chosen { chosen.now ≡ map (chosen_by among.now (selection_of inside.now) (log_of source.now)) (units_of_part (selection_of inside.now) (log_of source.now)) }
    requires left { looks ≡ true → HasLeft (chosen_changes (selection_of inside.now) (log_of source.now) (chosen_units (chosen_by among.now (selection_of inside.now) (log_of source.now)) (selection_of inside.now) (log_of source.now))) leaving }
    ensures { Looks looks L.remaining later.entry.items (chosen_taken (names_told logs.now) (chosen_by among.now (selection_of inside.now) (log_of source.now)) (selection_of inside.now) (log_of source.now) (end_of source.now) (fault_of source.now)) result }
{
    if looks {
        match look_after_units(
            alloc, source, logs, log, inside, among, chosen, index, leaving, later, seed, zone,
        ) {
            Ok(since) => Ok(Some(since)),
            Err(fault) => Err(fault),
        }
    } else {
        Ok(None)
    }
}

/// Whether rows that were changed since are left as they are.
fn leaves_rows(looks: bool, asked: &UnitRequest<'_>) -> bool
    ensures { result ≡ leaves_rows looks (Some asked.now) }
{
    looks && asked.leaves
}

/// Whether rows that were changed since are merged.
fn merges_rows(looks: bool, asked: &UnitRequest<'_>) -> bool
    ensures { result ≡ merges_rows looks (Some asked.now) }
{
    looks && asked.merges
}

/// Writes those units of a part of the log of a source that are asked for.
fn write_units<'n, A: Allocator + Copy, L: Read + Drop, W: Write>(
    alloc: A,
    source: &Source<A>,
    logs: &Names<'n, A>,
    part: &Selection<'_>,
    asked: &UnitRequest<'_>,
    looks: bool,
    later: Vec<GivenLog<'n, L>, A>,
    seed: u64,
    zone: TimeZone<'_>,
    writing: &Writing<'_>,
    writer: &mut Watched<W>,
) -> Result<Vec<u8, A>, PartFault<A>>
    requires short { HasShortWriting writing.now }
    requires opens { opening_fault (log_of source.now) ≡ None }
    ensures writes { WritesHanded looks L.remaining later.entry.items writing.now (names_told logs.now) (selection_of part.now) (Some asked.now) (log_of source.now) (end_of source.now) (fault_of source.now)
        (W.contents (device_of writer.old)) (W.contents (device_of writer.new)) result }
    ensures untouched { OnErr result (has_failed writer.new ≡ false → writer.new ≡ writer.old) }
    ensures mark { has_failed writer.new ≡ (has_failed writer.old || is_failed_write result) }
{
    if !has_start(source, part) {
        return Err(no_start(source, part, source.fault()));
    }
    let log = match Log::open(source.bytes()) {
        Ok(log) => log.with_seed(seed),
        Err(fault) => return Err(PartFault::Run(RunFault::Log(fault))),
    };
    let inside = inside_of(source, part);
    if let Some(fault) = missing(
        source,
        &log,
        &inside,
        asked,
        damage_before(source, part, true),
    ) {
        return Err(fault);
    }
    let at = positions_of(alloc, source, asked.at)?;
    let among = Among {
        wanted: Wanted {
            start: None,
            stop: inside.stop,
            ..asked.wanted
        },
        at: &at,
    };
    let damage = damage_among(source, part, looks);
    let (chosen, marks) = match choose(alloc, source, &log, &inside, &among, damage, looks) {
        Ok(both) => both,
        Err(fault) => return Err(fault),
    };
    let Chosen {
        gathered,
        places,
        leaving,
    } = chosen;
    let index = match index_of_chosen(alloc, source, &inside, &among, &gathered, &places, seed) {
        Ok(index) => index,
        Err(fault) => return Err(fault),
    };
    let merges = merges_rows(looks, asked);
    if merges {
        return write_merged(
            alloc, source, logs, &log, &inside, &among, &marks, &index, leaving, later, seed, zone,
            writing, writer,
        );
    }
    let leaves = leaves_rows(looks, asked);
    if leaves {
        return write_untouched(
            alloc, source, logs, &log, &inside, &among, &marks, &index, leaving, later, seed, zone,
            writing, writer,
        );
    }
    let since = match look_among_if(
        alloc, source, logs, &log, &inside, &among, &marks, &index, leaving, looks, later, seed,
        zone,
    ) {
        Ok(since) => since,
        Err(fault) => return Err(fault),
    };
    write_index(alloc, logs, &index, &since, writing, writer)
}

/// Writes those changes of chosen units that nothing touched since.
fn write_untouched<'n, A: Allocator + Copy, L: Read + Drop, W: Write>(
    alloc: A,
    source: &Source<A>,
    logs: &Names<'n, A>,
    log: &Log<'_>,
    inside: &Selection<'_>,
    among: &Among<'_, '_>,
    chosen: &[bool],
    index: &Index<'_, '_, A>,
    leaving: Leaving<A>,
    later: Vec<GivenLog<'n, L>, A>,
    seed: u64,
    zone: TimeZone<'_>,
    writing: &Writing<'_>,
    writer: &mut Watched<W>,
) -> Result<Vec<u8, A>, PartFault<A>>
    requires short { HasShortWriting writing.now }
    requires bytes { log_bytes log.now ≡ log_of source.now }
    requires kept { index_bytes index.now ≡ kept_log (selection_of inside.now) (log_of source.now) (chosen_units (chosen_by among.now (selection_of inside.now) (log_of source.now)) (selection_of inside.now) (log_of source.now)) }
    requires selection { index_selection index.now ≡ all }
    requires chosen { chosen.now ≡ map (chosen_by among.now (selection_of inside.now) (log_of source.now)) (units_of_part (selection_of inside.now) (log_of source.now)) }
    requires left { HasLeft (chosen_changes (selection_of inside.now) (log_of source.now) (chosen_units (chosen_by among.now (selection_of inside.now) (log_of source.now)) (selection_of inside.now) (log_of source.now))) leaving }
    ensures writes { WritesLeft L.remaining later.entry.items writing.now (names_told logs.now) (chosen_taken (names_told logs.now) (chosen_by among.now (selection_of inside.now) (log_of source.now)) (selection_of inside.now) (log_of source.now) (end_of source.now) (fault_of source.now))
        (W.contents (device_of writer.old)) (W.contents (device_of writer.new)) result }
    ensures untouched { OnErr result (has_failed writer.new ≡ false → writer.new ≡ writer.old) }
    ensures mark { has_failed writer.new ≡ (has_failed writer.old || is_failed_write result) }
{
    let seen = match look_and_leave(
        alloc, source, logs, log, inside, among, chosen, index, leaving, later, seed, zone,
    ) {
        Ok(seen) => seen,
        Err(fault) => return Err(fault),
    };
    let Seen { since, rest } = seen;
    let since = Some(since);
    match &rest {
        None => write_index(alloc, logs, index, &since, writing, writer),
        Some(rest) => write_rest(alloc, logs, rest, seed, &since, writing, writer),
    }
}

/// Writes what is left of chosen units, and returns the report of that, with the rows that are left as they are.
fn write_rest<'n, A: Allocator + Copy, W: Write>(
    alloc: A,
    logs: &Names<'n, A>,
    rest: &Rest<A>,
    seed: u64,
    since: &Option<Since<'n, A>>,
    writing: &Writing<'_>,
    writer: &mut Watched<W>,
) -> Result<Vec<u8, A>, PartFault<A>>
    requires { HasShortWriting writing.now }
    ensures writes { WritesGroups writing.now (report_told writing.now (names_told logs.now) (option_map since_seen since.now) (bytes_left rest.now.log) all ++ rest.now.told.items)
        (bytes_left rest.now.log) all (W.contents (device_of writer.old)) (W.contents (device_of writer.new)) result }
    ensures untouched { OnErr result (has_failed writer.new ≡ false → writer.new ≡ writer.old) }
    ensures mark { has_failed writer.new ≡ (has_failed writer.old || is_failed_write result) }
{
    // without the rows that are left out the log is accepted, so only memory can be refused
    let Ok(index) = rest.log.index(alloc, seed) else {
        return Err(PartFault::Run(RunFault::Log(Fault::OutOfMemory)));
    };
    let told = report_with(alloc, logs, writing, &index, since, &rest.told)?;
    write_told(alloc, &index, told, writing, writer)
}

/// The report of the groups of an index, and of what was seen of what came later, and what is told of rows that are left as they are.
fn report_with<'n, A: Allocator + Copy>(
    alloc: A,
    logs: &Names<'n, A>,
    writing: &Writing<'_>,
    index: &Index<'_, '_, A>,
    since: &Option<Since<'n, A>>,
    left: &[u8],
) -> Result<Vec<u8, A>, AllocError>
    ensures { IfOk result (λ told. told.items ≡ report_told writing.now (names_told logs.now) (option_map since_seen since.now) (index_bytes index.now) (index_selection index.now) ++ left.now) }
{
    let mut told = match report_of(alloc, logs, writing.order, index, since) {
        Ok(told) => told,
        Err(fault) => return Err(fault),
    };
    match put_text(&mut told, left) {
        Ok(()) => Ok(told),
        Err(fault) => Err(fault),
    }
}

/// Writes the groups of an index, and returns the report of them and of what was seen of what came later.
pub(crate) fn write_index<'n, A: Allocator + Copy, W: Write>(
    alloc: A,
    logs: &Names<'n, A>,
    index: &Index<'_, '_, A>,
    since: &Option<Since<'n, A>>,
    writing: &Writing<'_>,
    writer: &mut Watched<W>,
) -> Result<Vec<u8, A>, PartFault<A>>
    requires { HasShortWriting writing.now }
    ensures writes { WritesIndex writing.now (names_told logs.now) (option_map since_seen since.now) (index_bytes index.now) (index_selection index.now) (W.contents (device_of writer.old)) (W.contents (device_of writer.new)) result }
    ensures untouched { OnErr result (has_failed writer.new ≡ false → writer.new ≡ writer.old) }
    ensures mark { has_failed writer.new ≡ (has_failed writer.old || is_failed_write result) }
{
    let told = report_of(alloc, logs, writing.order, index, since)?;
    write_told(alloc, index, told, writing, writer)
}

/// Writes the groups of an index, and returns what is told of them.
pub(crate) fn write_told<A: Allocator + Copy, W: Write>(
    alloc: A,
    index: &Index<'_, '_, A>,
    told: Vec<u8, A>,
    writing: &Writing<'_>,
    writer: &mut Watched<W>,
) -> Result<Vec<u8, A>, PartFault<A>>
    requires { HasShortWriting writing.now }
    ensures writes { WritesGroups writing.now told.items (index_bytes index.now) (index_selection index.now) (W.contents (device_of writer.old)) (W.contents (device_of writer.new)) result }
    ensures untouched { OnErr result (has_failed writer.new ≡ false → writer.new ≡ writer.old) }
    ensures mark { has_failed writer.new ≡ (has_failed writer.old || is_failed_write result) }
{
    match write_groups(alloc, writer, index, writing) {
        Ok(()) => Ok(told),
        Err(WritingFault::Log(fault)) => Err(PartFault::Run(RunFault::Log(fault))),
        Err(WritingFault::TooLong) => Err(PartFault::TooLong),
        Err(WritingFault::NoSchema(number)) => {
            Err(PartFault::NoSchema(lacking(alloc, index, writing, number)?))
        }
        Err(WritingFault::Write) => Err(PartFault::Run(RunFault::Write)),
    }
}

/// What is told of changes that have no table of the schema of a number that is to have another name.
fn lacking<A: Allocator + Copy>(
    alloc: A,
    index: &Index<'_, '_, A>,
    writing: &Writing<'_>,
    number: usize,
) -> Result<String<A>, AllocError> {
    let from: &[u8] = match writing.sql.and_then(|how| how.schemas.get(number)) {
        Some(renamed) => renamed.from,
        None => b"",
    };
    no_schema(alloc, index, from)
}
