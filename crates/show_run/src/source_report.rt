//! What one log adds to a report.

ghost use Rattle.std.specs.Prelude.{◌≡◌, ◌+◌, IfOk, OnOk, Ok, if◌then◌else◌, length, map};
ghost use Rattle.blog_choice.specs.code.ChosenView.{names_choice};
ghost use Rattle.blog_choice.specs.code.Views.{choice_value};
ghost use Rattle.blog_event.specs.code.LogView.{log_bytes};
ghost use Rattle.blog_list.specs.Shown.{changes_of, last_whole, wanted_of as wanted_among};
ghost use Rattle.blog_list.specs.code.Told.{end_listed, source_place};
ghost use Rattle.blog_report.specs.Said.{with_refusal};
ghost use Rattle.blog_report.specs.Sums.{at_most, none};
ghost use Rattle.blog_report.specs.code.ReportView.{said_of};
ghost use Rattle.blog_request.specs.Wanted.{changes_told, is_wanted_unit};
ghost use Rattle.blog_source.specs.code.SourceView.{end_of, log_of};
ghost use Rattle.blog_trans.specs.code.IndexView.{index_groups, table_counted};
ghost use Rattle.blog_units.specs.Units.{facts_of, units};
ghost use Rattle.blog_units.specs.code.UnitsView.{facts_told};
ghost use Rattle.show_run.specs.Reported.{chosen, seconds_from, sum_rows, unit_fact, wanted_units, with_changes, with_log};
ghost use Rattle.show_run.specs.Reported.{with_reported, with_tables, with_units};
ghost use Rattle.show_run.specs.code.Becomes.{Becomes, index_counts, plus_if, seconds_told, with_if};

use crate::ends::log_end;
use crate::source_rows::{Shown, has_no_memory, is_wanted};
use crate::turns::Asked;
use blog_choice::{ChosenNames, TableChoice};
use blog_device::RunFault;
use blog_event::{Fault, Log};
use blog_list::{open_log, put_refusal, wanted_inside};
use blog_report::{Report, RowSums, TableRows, UnitFact};
use blog_request::{Wanted, is_before};
use blog_source::Source;
use blog_trans::{Index, TableCount};
use blog_units::{Unit, UnitFacts, Units};
use std::alloc::{AllocError, Allocator};

/// In how many columns of a terminal it is said why a unit is refused.
const REFUSAL_COLUMNS: usize = 80;

/// How many seconds the groups of an index took that began at a time.
fn seconds_of<A: Allocator>(index: &Index<'_, '_, A>, time: u32) -> u32
    ensures { result ≡ seconds_from time (index_groups index.now) }
{
    match index.transactions().checked_sub(1) {
        Some(last) => index.end(last).header.timestamp.saturating_sub(time),
        None => 0,
    }
}

/// What is reported of a unit of a log of this number, but for its rows and how many seconds it took.
fn fact_of<A: Allocator>(source: &Source<A>, log: usize, unit: &UnitFacts<'_>) -> UnitFact
    ensures { result ≡ unit_fact log (source_place source.now) (facts_told unit.now) 0 none }
{
    let position = source.place(unit.start);
    UnitFact {
        log,
        position,
        time: unit.time,
        seconds: 0,
        bytes: u64::from(source.place(unit.stop).saturating_sub(position)),
        thread: unit.thread,
        rows: RowSums::none(),
    }
}

/// Adds the rows of a table that a unit of this time changes, if the table is chosen. Returns rows with these.
fn add_table<A: Allocator + Copy>(
    report: &mut Report<A>,
    time: u32,
    count: &TableCount<'_>,
    choice: &TableChoice<'_>,
    rows: RowSums,
) -> Result<RowSums, AllocError>
    ensures said { OnOk result (Becomes report.old report.new (with_if (choice_value choice.now) (table_counted count.now) (said_of report.old))) }
    ensures rows { IfOk result (λ sum. sum ≡ plus_if (choice_value choice.now) (table_counted count.now) rows) }
{
    if !choice.has(count.schema, count.table) {
        return Ok(rows);
    }
    let more = RowSums {
        inserts: count.inserts,
        updates: count.updates,
        deletes: count.deletes,
    };
    report.add_rows(
        time,
        &TableRows {
            schema: count.schema,
            table: count.table,
            rows: more,
        },
    )?;
    Ok(rows.plus(more))
}

/// Adds the rows of chosen tables that the groups of an index change, of a unit of this time. Returns how many they are.
fn add_tables<A: Allocator + Copy>(
    report: &mut Report<A>,
    time: u32,
    index: &Index<'_, '_, A>,
    choice: &TableChoice<'_>,
) -> Result<RowSums, AllocError>
    ensures said { OnOk result (Becomes report.old report.new
        (with_tables (chosen (choice_value choice.now) (index_counts index.now)) (said_of report.old))) }
    ensures rows { IfOk result (λ sum. sum ≡ sum_rows (chosen (choice_value choice.now) (index_counts index.now))) }
{
    let mut rows = RowSums::none();
    for n in 0..index.tables() {
        let sum = add_table(report, time, &index.table(n), choice, rows)?;
        rows = sum;
    }
    Ok(rows)
}

/// Adds a unit of a log of this number, with these groups, to a report, with the rows of chosen tables.
fn add_groups<A: Allocator + Copy>(
    report: &mut Report<A>,
    source: &Source<A>,
    number: usize,
    unit: &UnitFacts<'_>,
    index: &Index<'_, '_, A>,
    choice: &TableChoice<'_>,
) -> Result<(), AllocError>
    ensures { OnOk result (Becomes report.old report.new (with_changes number (source_place source.now) (choice_value choice.now) (facts_told unit.now)
        (seconds_from unit.now.time (index_groups index.now)) (Ok (index_counts index.now)) (said_of report.old))) }
{
    let rows = add_tables(report, unit.time, index, choice)?;
    let fact = UnitFact {
        seconds: seconds_of(index, unit.time),
        rows,
        ..fact_of(source, number, unit)
    };
    report.add_unit(&fact)?;
    Ok(())
}

/// Adds a unit of a log of this number that is refused to a report. `why` is put in place of what is there.
fn add_fault<A: Allocator + Copy>(
    report: &mut Report<A>,
    why: &mut Vec<u8, A>,
    source: &Source<A>,
    log: &Log<'_>,
    number: usize,
    unit: &UnitFacts<'_>,
    fault: &Fault,
) -> Result<(), AllocError>
    ensures { OnOk result (Becomes report.old report.new
        (with_refusal (unit_fact number (source_place source.now) (facts_told unit.now) 0 none) (said_of report.old))) }
{
    why.clear();
    put_refusal(why, REFUSAL_COLUMNS, source, log, fault, unit.stop)?;
    report.add_refused(&fact_of(source, number, unit), why)?;
    Ok(())
}

/// Adds a unit to a report. `why` is put in place of what is there, if it is refused.
fn add_judged<A: Allocator + Copy>(
    report: &mut Report<A>,
    why: &mut Vec<u8, A>,
    source: &Source<A>,
    log: &Log<'_>,
    number: usize,
    unit: &Unit<'_, A>,
    choice: &TableChoice<'_>,
) -> Result<(), AllocError>
    ensures { OnOk result (Becomes report.old report.new (with_changes number (source_place source.now) (choice_value choice.now) (facts_told unit.now.facts)
        (seconds_told unit.now.facts.time unit.now.groups) (changes_told unit.now.groups) (said_of report.old))) }
{
    match &unit.groups {
        Ok(index) => add_groups(report, source, number, &unit.facts, index, choice),
        Err(fault) => add_fault(report, why, source, log, number, &unit.facts, fault),
    }
}

/// Adds the wanted units of a log, of this number, to a report.
pub(crate) fn report_source<A: Allocator + Copy>(
    alloc: A,
    report: &mut Report<A>,
    source: &Source<A>,
    number: usize,
    asked: &Asked<'_>,
) -> Result<Shown, RunFault>
    ensures said { OnOk result (Becomes report.old report.new
        (with_log number asked.now.wanted (log_of source.now) (end_of source.now) (said_of report.old))) }
    ensures units { IfOk result (λ shown. shown.units ≡ at_most (length (wanted_units asked.now.wanted (log_of source.now)))) }
    ensures end { IfOk result (λ shown. shown.end ≡ end_listed source.now asked.now.wanted) }
{
    let log = match open_log(source, asked.seed) {
        Ok(log) => log,
        Err(fault) => return Err(RunFault::Log(fault)),
    };
    let inside = wanted_inside(source, &asked.wanted);
    let (units, whole) = report_units(alloc, report, source, &log, number, &inside)?;
    let end = log_end(source, whole, asked.wanted.stop);
    Ok(Shown { units, end })
}

/// The same, by positions of the log. Returns how many units were added, and whether the last unit is whole; None where units stopped being
/// wanted before.
fn report_units<A: Allocator + Copy>(
    alloc: A,
    report: &mut Report<A>,
    source: &Source<A>,
    log: &Log<'_>,
    number: usize,
    wanted: &Wanted<'_>,
) -> Result<(u64, Option<bool>), RunFault>
    ensures said { OnOk result (Becomes report.old report.new (with_units number (source_place source.now) (log_bytes log.now) (choice_value wanted.now.choice)
        (wanted_among wanted.now (log_bytes log.now) (map facts_of (units (log_bytes log.now)))) (said_of report.old))) }
    ensures units { IfOk result (λ told. told.0 ≡ at_most (length (wanted_among wanted.now (log_bytes log.now) (map facts_of (units (log_bytes log.now)))))) }
    ensures end { IfOk result (λ told. told.1 ≡ last_whole wanted.now.stop (map facts_of (units (log_bytes log.now)))) }
{
    let names = ChosenNames::new(alloc, &wanted.choice)?;
    let mut why = Vec::new(alloc);
    let mut units = 0u64;
    let mut whole = true;
    for unit in Units::new(log) {
        if !is_before(unit.start, wanted.stop) {
            return Ok((units, None));
        }
        whole = unit.whole;
        let is_added = report_unit(
            alloc, report, &mut why, source, log, number, wanted, &names, unit,
        )?;
        units = counted(units, is_added);
    }
    Ok((units, Some(whole)))
}

/// So many units, and one more if it is added, or the greatest number of 64 bits.
fn counted(units: u64, is_added: bool) -> u64
    ensures { result ≡ at_most (units + (if is_added then 1 else 0)) }
{
    if is_added {
        units.saturating_add(1)
    } else {
        units
    }
}

/// Adds a unit, if it is wanted. Returns whether it is. `why` may be put in place of what is there.
fn report_unit<A: Allocator + Copy>(
    alloc: A,
    report: &mut Report<A>,
    why: &mut Vec<u8, A>,
    source: &Source<A>,
    log: &Log<'_>,
    number: usize,
    wanted: &Wanted<'_>,
    names: &ChosenNames<'_, A>,
    unit: UnitFacts<'_>,
) -> Result<bool, RunFault>
    requires names { names_choice names.now ≡ choice_value wanted.now.choice }
    requires log { unit.log ≡ log.now }
    ensures said { OnOk result (Becomes report.old report.new
        (if is_wanted_unit wanted.now (log_bytes log.now) (facts_told unit.entry) (changes_of (log_bytes log.now) (facts_told unit.entry))
        then with_reported number (source_place source.now) (log_bytes log.now) (choice_value wanted.now.choice) (facts_told unit.entry) (said_of report.old)
        else said_of report.old)) }
    ensures told { IfOk result (λ told. told
        ≡ is_wanted_unit wanted.now (log_bytes log.now) (facts_told unit.entry) (changes_of (log_bytes log.now) (facts_told unit.entry))) }
{
    if !wanted.has_in_range(&unit) {
        return Ok(false);
    }
    let judged = unit.with_groups(alloc);
    if has_no_memory(&judged) {
        return Err(RunFault::Log(Fault::OutOfMemory));
    }
    if !is_wanted(wanted.concern(names, log, &judged)) {
        return Ok(false);
    }
    add_judged(report, why, source, log, number, &judged, &wanted.choice)?;
    Ok(true)
}
