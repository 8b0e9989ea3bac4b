//! Looking at what came after what is taken out of a log.

ghost use Rattle.std.specs.Prelude.{◌≡◌, ◌∷◌, ℕ, IfOk, List, [], map, true};
ghost use Rattle.blog_choice.specs.code.ChosenView.{names_choice};
ghost use Rattle.blog_event.specs.code.LogView.{log_bytes};
ghost use Rattle.blog_later.specs.code.LeavingView.{HasLeft};
ghost use Rattle.blog_later.specs.code.LookedView.{left_before};
ghost use Rattle.blog_source.specs.code.SourceView.{end_of, fault_of, log_of};
ghost use Rattle.blog_trans.specs.Selection.{all, selection_of};
ghost use Rattle.blog_trans.specs.code.IndexView.{index_bytes, index_selection};
ghost use Rattle.undo_run.specs.After.{Later};
ghost use Rattle.undo_run.specs.Parts.{part_taken, selection_in, stop_in};
ghost use Rattle.undo_run.specs.Taken.{Taken, tables_taken};
ghost use Rattle.undo_run.specs.Units.{chosen_taken, chosen_units, kept_log, units_of_part};
ghost use Rattle.undo_run.specs.code.Leaves.{Records};
ghost use Rattle.undo_run.specs.code.NamesView.{names_told};
ghost use Rattle.undo_run.specs.code.SinceView.{AreSeen};
ghost use Rattle.undo_run.specs.code.Steps.{CountsOn, Judges, LooksAt, LooksInto, LooksOn, chosen_by, chosen_changes};

use crate::fault::PartFault;
use crate::lines::Lines;
use crate::log_names::Names;
use crate::opening::open_log;
use crate::request::Among;
use crate::seen::{look_between, look_on};
use crate::since::Since;
use crate::tables::tables_named;
use crate::tracked::{Tracked, track_if, untracked};
use blog_choice::{ChosenNames, TableChoice};
use blog_device::RunFault;
use blog_event::Log;
use blog_later::{Leaving, LeftRows};
use blog_source::Source;
use blog_trans::{Index, Selection};
use jiff::tz::TimeZone;
use list_run::GivenLog;
use std::alloc::Allocator;
use std::io::Read;

/// Where the stop of a part is in what is handed out, or its end.
fn stop_in<A: Allocator>(source: &Source<A>, part: &Selection<'_>) -> u32
    ensures { result ≡ stop_in (selection_of part.now) (log_of source.now) }
{
    match part.stop {
        Some(stop) => source.position(stop),
        None => source.bytes().len() as u32,
    }
}

/// Reads a later log when its turn comes, looks at all of it, and returns what was seen so far. `records` says whether the rows that it takes are
/// recorded; those that were left are then of all lists.
fn look_into<'n, A: Allocator + Copy, L: Read + Drop>(
    alloc: A,
    n: usize,
    given: GivenLog<'n, L>,
    seed: u64,
    since: &Since<'n, A>,
    lines: &mut Lines<'_, A>,
    tracked: &mut Tracked<A>,
    records: bool,
    left: &LeftRows<A>,
    lists: u32,
    names: &ChosenNames<'_, A>,
) -> Result<Since<'n, A>, PartFault<A>>
    requires { records ≡ true → lists ≡ 4294967295 }
    ensures { (m : ℕ) → (ls : List Later) → AreSeen m (names_choice names.now) ls since.now
        → LooksInto L.remaining n given.entry (left_before left.now lists) (names_choice names.now) m ls (Records records (left_before left.now lists) tracked.old tracked.new) result }
{
    let mut given = given;
    let source = match open_log(alloc, &mut given.reader, None) {
        Ok(source) => source,
        Err(fault) => return Err(PartFault::LaterLog(n, fault)),
    };
    let log = match Log::open(source.bytes()) {
        Ok(log) => log.with_seed(seed),
        Err(fault) => return Err(PartFault::Run(RunFault::Log(fault))),
    };
    track_if(alloc, tracked, records, left, &log)?;
    let logs = Names::one(alloc, given.name.as_bytes());
    Ok(look_on(
        alloc, since, lines, &logs, &source, &log, 0, left, lists, names,
    )?)
}

/// Looks at later logs, each of which is read when its turn comes, and returns what was seen of all. `records` says whether the rows that they take are
/// recorded; those that were left are then of all lists.
pub(crate) fn look_into_all<'n, A: Allocator + Copy, L: Read + Drop>(
    alloc: A,
    later: Vec<GivenLog<'n, L>, A>,
    seed: u64,
    since: Since<'n, A>,
    lines: &mut Lines<'_, A>,
    tracked: &mut Tracked<A>,
    records: bool,
    left: &LeftRows<A>,
    lists: u32,
    names: &ChosenNames<'_, A>,
) -> Result<Since<'n, A>, PartFault<A>>
    requires { records ≡ true → lists ≡ 4294967295 }
    ensures { (m : ℕ) → (ls : List Later) → AreSeen m (names_choice names.now) ls since.entry
        → LooksOn L.remaining later.entry.items (left_before left.now lists) (names_choice names.now) m ls (Records records (left_before left.now lists) tracked.old tracked.new) result }
{
    let mut since = since;
    let mut n = 0usize;
    'logs: for given in later {
        match look_into(
            alloc, n, given, seed, &since, lines, tracked, records, left, lists, names,
        ) {
            Ok(with) => since = with,
            Err(fault) => return Err(fault),
        }
        n += 1;
    }
    Ok(since)
}

/// Returns what was seen, unless it touches a part, or may.
fn judged<'n, A: Allocator + Copy>(
    alloc: A,
    since: Since<'n, A>,
    lines: &Lines<'_, A>,
) -> Result<Since<'n, A>, PartFault<A>>
    ensures judges { (m : ℕ) → (choice : _) → (ls : List Later) → AreSeen m choice ls since.entry → Judges m choice ls result }
    ensures same { IfOk result (λ told. told ≡ since.entry) }
{
    if since.touched > 0 {
        return Err(PartFault::ChangedSince(since.touched, lines.text(alloc)?));
    }
    if since.unknown > 0 || since.is_damaged {
        return Err(PartFault::UnknownSince(lines.text(alloc)?));
    }
    Ok(since)
}

/// Looks at later logs, after what was seen of the log itself, and returns what was seen of all, unless it touches what is taken, or may.
/// `left` has the rows that were left, in so many lists.
fn look_further<'n, A: Allocator + Copy, L: Read + Drop>(
    alloc: A,
    later: Vec<GivenLog<'n, L>, A>,
    seed: u64,
    rest: Since<'n, A>,
    lines: &mut Lines<'_, A>,
    left: &LeftRows<A>,
    lists: u32,
    names: &ChosenNames<'_, A>,
) -> Result<Since<'n, A>, PartFault<A>>
    ensures { (t : Taken) → (m : ℕ) → names_choice names.now ≡ tables_taken t → AreSeen m (names_choice names.now) (t.rest ∷ []) rest.entry → CountsOn (left_before left.now lists) m t.steps
        → LooksAt L.remaining later.entry.items t result }
{
    let mut tracked = untracked(alloc);
    match look_into_all(
        alloc,
        later,
        seed,
        rest,
        lines,
        &mut tracked,
        false,
        left,
        lists,
        names,
    ) {
        Ok(all) => judged(alloc, all, lines),
        Err(fault) => Err(fault),
    }
}

/// Looks at what came after a part of the log of a source, of which an index has the groups: at the rest of that log, and at later
/// logs. Returns what was seen, unless it touches the part, or may. Times are told in a zone.
pub(crate) fn look_later<'n, 'l, A: Allocator + Copy, L: Read + Drop>(
    alloc: A,
    source: &'l Source<A>,
    logs: &Names<'n, A>,
    part: &Selection<'_>,
    index: &Index<'l, 'l, A>,
    later: Vec<GivenLog<'n, L>, A>,
    seed: u64,
    zone: TimeZone<'_>,
) -> Result<Since<'n, A>, PartFault<A>>
    requires bytes { index_bytes index.now ≡ log_of source.now }
    requires selection { index_selection index.now ≡ selection_in (selection_of part.now) (log_of source.now) }
    ensures { LooksAt L.remaining later.entry.items (part_taken (names_told logs.now) (selection_of part.now) (log_of source.now) (end_of source.now) (fault_of source.now)) result }
{
    let tables = tables_named(alloc, index)?;
    let choice = TableChoice {
        database: None,
        tables: &tables,
        excluded: &[],
    };
    let names = ChosenNames::new(alloc, &choice)?;
    let left = LeftRows::of(alloc, index)?;
    let mut lines = Lines::none(alloc, zone);
    let rest = look_on(
        alloc,
        &Since::none(alloc),
        &mut lines,
        logs,
        source,
        &index.log(),
        stop_in(source, part),
        &left,
        1,
        &names,
    )?;
    look_further(alloc, later, seed, rest, &mut lines, &left, 1, &names)
}

/// Looks at what came after the first chosen unit of the log of a source, which is in the range of a selection, but for the chosen ones: at
/// the units of that log, and at later logs. `chosen` says of each unit in turn whether it is chosen; an index has the groups of these, and
/// `leaving` the rows that each of them left. Returns what was seen, unless it touches the chosen units, or may. Times are told in a zone.
pub(crate) fn look_after_units<'n, A: Allocator + Copy, L: Read + Drop>(
    alloc: A,
    source: &Source<A>,
    logs: &Names<'n, A>,
    log: &Log<'_>,
    inside: &Selection<'_>,
    among: &Among<'_, '_>,
    chosen: &[bool],
    index: &Index<'_, '_, A>,
    leaving: Leaving<A>,
    later: Vec<GivenLog<'n, L>, A>,
    seed: u64,
    zone: TimeZone<'_>,
) -> Result<Since<'n, A>, PartFault<A>>
    requires bytes { log_bytes log.now ≡ log_of source.now }
    requires kept { index_bytes index.now ≡ kept_log (selection_of inside.now) (log_of source.now) (chosen_units (chosen_by among.now (selection_of inside.now) (log_of source.now)) (selection_of inside.now) (log_of source.now)) }
    requires selection { index_selection index.now ≡ all }
    requires chosen { chosen.now ≡ map (chosen_by among.now (selection_of inside.now) (log_of source.now)) (units_of_part (selection_of inside.now) (log_of source.now)) }
    requires left { HasLeft (chosen_changes (selection_of inside.now) (log_of source.now) (chosen_units (chosen_by among.now (selection_of inside.now) (log_of source.now)) (selection_of inside.now) (log_of source.now))) leaving }
    ensures { LooksAt L.remaining later.entry.items (chosen_taken (names_told logs.now) (chosen_by among.now (selection_of inside.now) (log_of source.now)) (selection_of inside.now) (log_of source.now) (end_of source.now) (fault_of source.now)) result }
{
    let tables = tables_named(alloc, index)?;
    let choice = TableChoice {
        database: None,
        tables: &tables,
        excluded: &[],
    };
    let names = ChosenNames::new(alloc, &choice)?;
    let left = leaving.sorted();
    let mut lines = Lines::none(alloc, zone);
    let rest = look_between(
        alloc,
        &mut lines,
        logs,
        source,
        log,
        inside.start,
        chosen,
        &left,
        &names,
    )?;
    look_further(
        alloc,
        later,
        seed,
        rest,
        &mut lines,
        &left,
        u32::MAX,
        &names,
    )
}
