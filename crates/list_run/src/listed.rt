//! Listing logs in turn.

ghost use Rattle.std.specs.Prelude.{◌≡◌, ◌||◌, ◌⊎◌, ◌<◌, ◌+◌, ◌-◌, IfErr, IfOk, IsSome, OnErr, OnOk, List, Option, length, option_copied, option_map, [], ◌∷◌};
ghost use Rattle.jiff.specs.Words.{plain_zone};
ghost use Rattle.blog_device.specs.Devices.{is_write_fault};
ghost use Rattle.blog_device.specs.Watched.{device_of, has_failed};
ghost use Rattle.blog_event.specs.Opening.{opening_fault};
ghost use Rattle.blog_event.specs.declared.fault.Fault.TheVariants.{OutOfMemory};
ghost use Rattle.blog_device.specs.Devices.{AppendsBeginning};
ghost use Rattle.std.specs.Io.KnownBytes.{Appends};
ghost use Rattle.blog_source.specs.Found.{source_refusal};
ghost use Rattle.blog_source.specs.code.SourceView.{log_of};
ghost use Rattle.std.specs.Result.{result_err};
ghost use Rattle.blog_list.specs.code.WriterView.{form_of, gtids_of, heading_of, sorting_of, zone_of};
ghost use Rattle.list_run.specs.Listed.{ListsLogs, MayFollow, has_failed_write, name_shown, wanted_of};
ghost use Rattle.list_run.specs.code.Turns.{ListsOne, IsOpened, above, ListsSource, OpensSource, earlier, is_failed_write, listing_of};

use crate::fault::ListFault;
use crate::given::GivenLog;
use blog_device::{RunFault, Watched, read_log};
use blog_event::{Fault, Log};
use blog_list::{ListWriter, Sorting, Style, Totals, list_counted};
use blog_reasons::Reasons;
use blog_request::Wanted;
use blog_source::{Reading, Source, handed_logs_open};
use blog_sum::SumFault;
use std::alloc::{Allocator, Global};
use std::io::{Read, Write};

/// Which of the logs is listed, and what is wanted of all.
#[derive(Clone, Copy)]
struct Turn<'w> {
    /// How each is read.
    how: Reading,
    /// What is wanted of them.
    wanted: &'w Wanted<'w>,
    /// How the units of each are sorted.
    sorting: Sorting,
    /// The seed by which names of tables are looked up.
    seed: u64,
    /// How many they are.
    count: usize,
    /// The number of this one, from 0 on.
    n: usize,
}

/// Lists the wanted units of logs, which are read in turn, one at a time in memory. Where there are several logs, what is listed
/// of each stands below its name, or has it in each object of JSON. The last lines have the totals of all. The units of each log are sorted by
/// themselves.
///
/// A start of what is wanted is one of the first log, and a stop one of the last. Each log is listed up to its end, and so are
/// those behind a log that ends early, or is damaged behind what was listed: `EndsEarly` of the first of these, by its number from
/// 0 on. Of a log that can't be read, or of which nothing can be read, and of those behind it nothing is listed, and no totals are
/// written: `Run` and `Unread` by its number. `Run(Write)` where a write failed.
///
/// Where no unit is listed, `reasons` are of all logs then, and say why. They are taken away where a unit is listed, and where memory
/// for them was refused.
///
/// Memory is taken from `alloc`, and for some strings in lines of JSON from `global`.
pub fn list_logs<A: Allocator + Copy, R: Read + Drop, W: Write>(
    global: Global,
    alloc: A,
    logs: Vec<GivenLog<'_, R>, A>,
    how: Reading,
    wanted: &Wanted<'_>,
    style: &Style<'_>,
    reasons: &mut Option<Reasons<'_, A>>,
    writer: &mut Watched<W>,
) -> Result<(), (usize, ListFault)>
    ensures text { 0 < length logs.entry.items → ListsLogs R.remaining style.now.form (plain_zone style.now.zone) style.now.gtids
        (record { how = how; wanted = wanted.now; sorting = style.now.sorting; count = length logs.entry.items }) logs.entry.items (W.contents (device_of writer.old)) (W.contents (device_of writer.new)) result }
    ensures mark { has_failed writer.new ≡ (has_failed writer.old || has_failed_write result) }

    // Where nothing can be read of the first log, nothing is written.
    ensures unwritten { IfErr result (λ e. ((0 < e.0) × (1 < length logs.entry.items)) ⊎ (writer.new ≡ writer.old) ⊎ MayFollow e.1) }
{
    let mut logs = logs;
    if logs.len() == 1 {
        if let Some(given) = logs.pop() {
            return list_alone(global, alloc, given, how, wanted, style, reasons, writer);
        }
    }
    list_several(global, alloc, logs, how, wanted, style, reasons, writer)
}

/// Reads a log, and lists it as a whole.
fn list_alone<A: Allocator + Copy, R: Read + Drop, W: Write>(
    global: Global,
    alloc: A,
    given: GivenLog<'_, R>,
    how: Reading,
    wanted: &Wanted<'_>,
    style: &Style<'_>,
    reasons: &mut Option<Reasons<'_, A>>,
    writer: &mut Watched<W>,
) -> Result<(), (usize, ListFault)>
    ensures text { ListsLogs R.remaining style.now.form (plain_zone style.now.zone) style.now.gtids
        (record { how = how; wanted = wanted.now; sorting = style.now.sorting; count = 1 }) (given.entry ∷ []) (W.contents (device_of writer.old)) (W.contents (device_of writer.new)) result }
    ensures mark { has_failed writer.new ≡ (has_failed writer.old || has_failed_write result) }
    ensures unwritten { IfErr result (λ e. (writer.new ≡ writer.old) ⊎ MayFollow e.1) }
{
    let mut totals = Totals::NONE;
    match read_source(alloc, given.reader, how) {
        Ok(source) => match list_counted(
            global,
            alloc,
            &source,
            wanted,
            style,
            &mut totals,
            writer,
        ) {
            Ok(None) => {
                look_at(reasons, &source, style.seed, &totals, wanted);
                Ok(())
            }
            Ok(Some(fault)) => Err((0, ListFault::EndsEarly(fault))),
            Err(fault) => Err((0, ListFault::Run(fault))),
        },
        Err(fault) => Err((0, fault)),
    }
}

/// Lists logs as `list_logs`, each by itself: it may be one.
fn list_several<A: Allocator + Copy, R: Read + Drop, W: Write>(
    global: Global,
    alloc: A,
    logs: Vec<GivenLog<'_, R>, A>,
    how: Reading,
    wanted: &Wanted<'_>,
    style: &Style<'_>,
    reasons: &mut Option<Reasons<'_, A>>,
    writer: &mut Watched<W>,
) -> Result<(), (usize, ListFault)>
    ensures text { 0 < length logs.entry.items → ListsLogs R.remaining style.now.form (plain_zone style.now.zone) style.now.gtids
        (record { how = how; wanted = wanted.now; sorting = style.now.sorting; count = length logs.entry.items }) logs.entry.items (W.contents (device_of writer.old)) (W.contents (device_of writer.new)) result }
    ensures mark { has_failed writer.new ≡ (has_failed writer.old || has_failed_write result) }
    ensures unwritten { IfErr result (λ e. ((0 < e.0) × (1 < length logs.entry.items)) ⊎ (writer.new ≡ writer.old) ⊎ MayFollow e.1) }
{
    let list = match ListWriter::new(global, alloc, style) {
        Ok(list) => list,
        Err(_) => return Err((0, NO_MEMORY)),
    };
    let mut turn = Turn {
        how,
        wanted,
        sorting: style.sorting,
        seed: style.seed,
        count: logs.len(),
        n: 0,
    };
    let mut totals = Totals::NONE;
    let mut end = None;
    'logs: for given in logs {
        match list_one(&list, alloc, given, &turn, &mut totals, reasons, writer) {
            Ok(fault) => end = earlier(end, turn.n, fault),
            Err(fault) => return Err((turn.n, fault)),
        }
        turn.n += 1;
    }
    match list.write_totals(&totals, writer) {
        Ok(()) => {}
        Err(fault) => return Err((turn.n.saturating_sub(1), ListFault::Run(fault))),
    }
    match end {
        Some((n, fault)) => Err((n, ListFault::EndsEarly(fault))),
        None => Ok(()),
    }
}

/// Memory was refused.
const NO_MEMORY: ListFault = ListFault::Run(RunFault::Log(Fault::OutOfMemory));

/// Returns the first early end of logs, of which the n-th has the last.
pub fn earlier(
    end: Option<(usize, SumFault)>,
    n: usize,
    fault: Option<SumFault>,
) -> Option<(usize, SumFault)>
    ensures { result ≡ earlier end n fault }
{
    match (end, fault) {
        (Some(end), _) => Some(end),
        (None, Some(fault)) => Some((n, fault)),
        (None, None) => None,
    }
}

/// Reads a log when its turn comes, and lists it.
fn list_one<A: Allocator + Copy, R: Read + Drop, W: Write>(
    list: &ListWriter<'_, A>,
    alloc: A,
    given: GivenLog<'_, R>,
    turn: &Turn<'_>,
    totals: &mut Totals,
    reasons: &mut Option<Reasons<'_, A>>,
    writer: &mut Watched<W>,
) -> Result<Option<SumFault>, ListFault>
    requires number { turn.now.n < turn.now.count }
    requires sorting { sorting_of list.now ≡ turn.now.sorting }
    ensures text { ListsOne R.remaining (form_of list.now) (zone_of list.now) (gtids_of list.now) (heading_of list.now) (listing_of turn.now) turn.now.n
        given.entry totals.old totals.new (W.contents (device_of writer.old)) (W.contents (device_of writer.new)) result }
    ensures mark { has_failed writer.new ≡ (has_failed writer.old || is_failed_write result) }
    ensures unwritten { IfErr result (λ e. (writer.new ≡ writer.old) ⊎ MayFollow e) }
{
    let source = read_source(alloc, given.reader, turn.how)?;
    match list_source(list, &source, turn.name(given.name), turn, totals, writer) {
        Ok(end) => {
            look_at(reasons, &source, turn.seed, totals, &turn.wanted());
            Ok(end)
        }
        Err(fault) => Err(ListFault::Run(fault)),
    }
}

/// Looks at a log that was listed, unless a unit was: then the reasons are taken away, as where memory is refused.
fn look_at<A: Allocator + Copy>(
    reasons: &mut Option<Reasons<'_, A>>,
    source: &Source<A>,
    seed: u64,
    totals: &Totals,
    wanted: &Wanted<'_>,
) {
    if totals.units > 0 || look(reasons, source, seed, wanted).is_none() {
        *reasons = None;
    }
}

/// Looks at the log of a source for the reason why nothing of it is wanted. Returns None if there are no reasons, or if out of memory.
pub fn look<A: Allocator + Copy>(
    reasons: &mut Option<Reasons<'_, A>>,
    source: &Source<A>,
    seed: u64,
    wanted: &Wanted<'_>,
) -> Option<()> {
    let seen = reasons.as_mut()?;
    let log = Log::open(source.bytes()).ok()?;
    let start = wanted.start.map(|place| source.position(place));
    let stop = wanted.stop.map(|place| source.position(place));
    seen.look(&log.with_seed(seed), start, stop).ok()
}

/// Reads a log to its end, and opens it as a source. Fails with `Run` if it can't be read, or if out of memory, and with `Unread` if nothing can
/// be read of it.
pub fn read_source<A: Allocator, R: Read + Drop>(
    alloc: A,
    reader: Watched<R>,
    how: Reading,
) -> Result<Source<A>, ListFault>
    ensures opens { OpensSource how (R.remaining (device_of reader)) result }
{
    let mut reader = reader;
    match read_log(alloc, &mut reader) {
        Ok(log) => match open_source(log, how) {
            Ok(source) => Ok(source),
            Err(fault) => Err(ListFault::Unread(fault)),
        },
        Err(fault) => Err(ListFault::Run(fault)),
    }
}

/// Opens a log as a source. What it hands out opens as a log.
fn open_source<A: Allocator>(log: Vec<u8, A>, how: Reading) -> Result<Source<A>, SumFault>
    ensures exact { result_err result ≡ source_refusal log.items }
    ensures opened { IfOk result (IsOpened how log.items) }
{
    handed_logs_open();
    Source::open(log, how)
}

/// Lists the log of a source, the first one below the line above all others.
fn list_source<A: Allocator + Copy, W: Write>(
    list: &ListWriter<'_, A>,
    source: &Source<A>,
    name: Option<&[u8]>,
    turn: &Turn<'_>,
    totals: &mut Totals,
    writer: &mut Watched<W>,
) -> Result<Option<SumFault>, RunFault>
    requires number { turn.now.n < turn.now.count }
    requires sorting { sorting_of list.now ≡ turn.now.sorting }
    ensures text { ListsSource (form_of list.now) (zone_of list.now) (gtids_of list.now) (heading_of list.now) source.now (option_copied name.entry) (listing_of turn.now) turn.now.n
        totals.old totals.new (W.contents (device_of writer.old)) (W.contents (device_of writer.new)) result }
    ensures mark { has_failed writer.new ≡ (has_failed writer.old || is_write_fault result) }
    ensures fault { IfErr result (λ e. (e ≡ RunFault.Log OutOfMemory) ⊎ (e ≡ RunFault.Write) ⊎ IsSome (opening_fault (log_of source.now))) }
{
    put_above(list, turn.n, writer)?;
    list.write_log(source, name, &turn.wanted(), totals, writer)
}

/// Writes what is above the n-th log: the line above all others, if it is the first.
fn put_above<A: Allocator + Copy, W: Write>(
    list: &ListWriter<'_, A>,
    n: usize,
    writer: &mut Watched<W>,
) -> Result<(), RunFault>
    ensures text { OnOk result (Appends (W.contents (device_of writer.old)) (W.contents (device_of writer.new)) (above (form_of list.now) n (gtids_of list.now) (heading_of list.now))) }
    ensures beginning { OnErr result (AppendsBeginning (W.contents (device_of writer.old)) (W.contents (device_of writer.new)) (above (form_of list.now) n (gtids_of list.now) (heading_of list.now))) }
    ensures mark { has_failed writer.new ≡ (has_failed writer.old || is_write_fault result) }
    ensures fault { IfErr result (λ e. (e ≡ RunFault.Log OutOfMemory) ⊎ (e ≡ RunFault.Write)) }
{
    if n == 0 {
        list.write_header(writer)
    } else {
        Ok(())
    }
}

impl Turn<'_> {
    /// The name that is shown of a log.
    fn name<'a>(&self, name: &'a str) -> Option<&'a [u8]>
        ensures { option_copied result ≡ name_shown self.now.count name.now }
    {
        if self.count == 1 {
            None
        } else {
            Some(name.as_bytes())
        }
    }

    /// What is wanted of the log whose turn it is.
    fn wanted(&self) -> Wanted<'_>
        requires { self.now.n < self.now.count }
        ensures { result ≡ wanted_of (listing_of self.now) self.now.n }
    {
        Wanted {
            start: if self.n == 0 { self.wanted.start } else { None },
            stop: if self.n + 1 == self.count {
                self.wanted.stop
            } else {
                None
            },
            ..*self.wanted
        }
    }
}
