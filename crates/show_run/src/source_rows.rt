//! Showing the rows of one log.

ghost use Rattle.std.specs.Prelude.{◌≡◌, ◌⊎◌, ◌++◌, IfErr, IfOk, List, OnOk, false, map, option_copied};
ghost use Rattle.blog_choice.specs.code.ChosenView.{names_choice};
ghost use Rattle.blog_choice.specs.code.Views.{choice_value};
ghost use Rattle.blog_device.specs.Watched.{device_of};
ghost use Rattle.blog_event.specs.code.LogView.{log_bytes};
ghost use Rattle.blog_list.specs.code.Held.{has_no_memory};
ghost use Rattle.blog_list.specs.Shown.{last_whole};
ghost use Rattle.blog_list.specs.code.Told.{end_listed, source_place};
ghost use Rattle.blog_request.specs.Wanted.{is_wanted};
ghost use Rattle.blog_source.specs.Places.{position_of};
ghost use Rattle.blog_source.specs.code.SourceView.{end_of, log_of};
ghost use Rattle.blog_units.specs.Units.{facts_of, units};
ghost use Rattle.blog_units.specs.code.UnitsView.{IsJudged, facts_told};
ghost use Rattle.show_run.specs.Shown.{HasShown, ShowsIf, ShowsLog, ShowsUnit, above, is_shown, shown_among};
ghost use Rattle.blog_device.specs.declared.fault.RunFault.TheVariants as RunFault;
ghost use Rattle.blog_event.specs.declared.fault.Fault.TheVariants.{OutOfMemory};
ghost use Rattle.list_run.specs.Listed.{MayFollow};
ghost use Rattle.list_run.specs.declared.fault.ListFault.TheVariants.{Run};

use crate::ends::log_end;
use crate::turns::{Asked, is_at};
use blog_choice::ChosenNames;
use blog_device::{RunFault, Watched, put};
use blog_event::{Fault, Log};
use blog_list::{open_log, put_name, put_refusal, time_text, wanted_inside, write_full};
use blog_request::{Concern, Wanted, is_before};
use blog_show::{LastMap, LineRoom, RowForm, RowStyle, put_csv_field, put_unit};
use blog_source::Source;
use blog_sum::SumFault;
use blog_text::{put_number, put_string, put_text};
use blog_units::{Unit, UnitFacts, Units};
use std::alloc::{AllocError, Allocator};
use std::io::Write;

/// What was shown of a log.
#[derive(Clone, Copy)]
pub(crate) struct Shown {
    /// How many units.
    pub(crate) units: u64,
    /// Why it ends early.
    pub(crate) end: Option<SumFault>,
}

/// What units of logs are shown by, kept from one log to the next.
#[derive(Drop)]
pub(crate) struct Page<A: Allocator> {
    /// What is shown of a log and isn't written yet.
    text: Vec<u8, A>,
    /// What is said of a unit that isn't shown, and why it isn't.
    said: Vec<u8, A>,
    why: Vec<u8, A>,
    /// The room of a line. It has the head of columns that CSV had last, of whichever log.
    room: LineRoom<A>,
}

/// In how many columns of a terminal it is said why a unit isn't shown.
const REFUSAL_COLUMNS: usize = 80;

/// Whether memory for the groups of a unit was refused.
pub(crate) fn has_no_memory<A: Allocator>(unit: &Unit<'_, A>) -> bool
    ensures { result ≡ has_no_memory unit.now.groups }
{
    match &unit.groups {
        Err(Fault::OutOfMemory) => true,
        _ => false,
    }
}

/// Appends that a unit isn't shown, and why.
fn put_not_shown<A: Allocator>(
    out: &mut Vec<u8, A>,
    form: &RowForm<'_>,
    place: u32,
    time: &[u8],
    why: &[u8],
) -> Result<(), AllocError> {
    match form {
        RowForm::Lines => {
            put_number(out, u64::from(place))?;
            put_text(out, b" ")?;
            put_text(out, time)?;
            put_text(out, b" not shown: ")?;
            put_text(out, why)?;
            put_text(out, b"\n")
        }
        RowForm::Json { log } => {
            put_text(out, b"{\"log\":")?;
            put_string(out, log)?;
            put_text(out, b",\"position\":")?;
            put_number(out, u64::from(place))?;
            put_text(out, b",\"time\":\"")?;
            put_text(out, time)?;
            put_text(out, b"\",\"not_shown\":")?;
            put_string(out, why)?;
            put_text(out, b"}\n")
        }
        RowForm::Csv => {
            put_number(out, u64::from(place))?;
            put_text(out, b",")?;
            put_text(out, time)?;
            put_text(out, b",not-shown,")?;
            put_csv_field(out, why)?;
            put_text(out, b"\n")
        }
    }
}

impl<A: Allocator + Copy> Page<A> {
    /// Returns an empty one.
    pub(crate) fn new(alloc: A) -> Page<A> {
        Page {
            text: Vec::new(alloc),
            said: Vec::new(alloc),
            why: Vec::new(alloc),
            room: LineRoom::new(alloc),
        }
    }

    /// Appends why the rows of a unit aren't known: it is refused.
    fn put_refused(
        &mut self,
        source: &Source<A>,
        log: &Log<'_>,
        facts: &UnitFacts<'_>,
        fault: &Fault,
        style: &RowStyle<'_>,
    ) -> Result<(), AllocError>
        ensures { OnOk result ((said : List _) × (self.new.text.items ≡ self.old.text.items ++ said)) }
    {
        self.why.clear();
        put_refusal(
            &mut self.why,
            REFUSAL_COLUMNS,
            source,
            log,
            fault,
            facts.stop,
        )?;
        self.said.clear();
        put_not_shown(
            &mut self.said,
            &style.form,
            source.place(facts.start),
            time_text(style.zone, facts.time).as_bytes(),
            &self.why,
        )?;
        put_text(&mut self.text, &self.said)
    }

    /// Appends the rows of a unit.
    fn put_unit<'a>(
        &mut self,
        alloc: A,
        last: &mut LastMap<'a, A>,
        source: &Source<A>,
        log: &Log<'_>,
        wanted: &Wanted<'_>,
        unit: &Unit<'a, A>,
        style: &RowStyle<'_>,
    ) -> Result<(), AllocError>
        requires judged { IsJudged (log_bytes log.now) unit.now }
        requires memory { has_no_memory unit.now.groups ≡ false }
        ensures { OnOk result (ShowsUnit style.now.form (choice_value wanted.now.choice) (source_place source.now) (log_bytes log.now) (facts_told unit.now.facts) self.old.text.items self.new.text.items) }
    {
        match &unit.groups {
            Ok(index) => put_unit(
                alloc,
                &mut self.text,
                &mut self.room,
                last,
                source,
                index,
                &wanted.choice,
                style,
            ),
            Err(fault) => self.put_refused(source, log, &unit.facts, fault, style),
        }
    }
}

/// Appends what is above the rows of a log: its name, if there is one, on lines for people.
fn put_above<A: Allocator>(
    out: &mut Vec<u8, A>,
    form: &RowForm<'_>,
    name: Option<&[u8]>,
) -> Result<(), AllocError>
    ensures { OnOk result (out.new.items ≡ out.old.items ++ above form.now (option_copied name.entry)) }
{
    match form {
        RowForm::Lines => put_name(out, name),
        RowForm::Json { .. } => Ok(()),
        RowForm::Csv => Ok(()),
    }
}

/// Shows the rows of a log's wanted units below its name, if there is one.
pub(crate) fn show_source<A: Allocator + Copy, W: Write>(
    alloc: A,
    page: &mut Page<A>,
    source: &Source<A>,
    name: Option<&[u8]>,
    asked: &Asked<'_>,
    style: &RowStyle<'_>,
    writer: &mut Watched<W>,
) -> Result<Shown, RunFault>
    ensures shown { OnOk result (ShowsLog style.now.form (option_copied name.entry) asked.now.wanted asked.now.at.now (log_of source.now) (end_of source.now) (W.contents (device_of writer.old)) (W.contents (device_of writer.new))) }
    ensures end { IfOk result (λ shown. shown.end ≡ end_listed source.now asked.now.wanted) }
    ensures unwritten { IfErr result (λ e. (writer.new ≡ writer.old) ⊎ MayFollow (Run e)) }
{
    let log = match open_log(source, asked.seed) {
        Ok(log) => log,
        Err(fault) => return Err(RunFault::Log(fault)),
    };
    let inside = wanted_inside(source, &asked.wanted);
    page.text.clear();
    put_above(&mut page.text, &style.form, name)?;
    let (units, whole) = show_units(alloc, page, source, &log, &inside, asked.at, style, writer)?;
    put(writer, &page.text)?;
    let end = log_end(source, whole, asked.wanted.stop);
    Ok(Shown { units, end })
}

/// Appends the rows of a log's wanted units, and writes what is collected by chunks. Returns how many units were shown, and whether
/// the last unit is whole; None where units stopped being wanted before.
fn show_units<A: Allocator + Copy, W: Write>(
    alloc: A,
    page: &mut Page<A>,
    source: &Source<A>,
    log: &Log<'_>,
    wanted: &Wanted<'_>,
    places: &[u32],
    style: &RowStyle<'_>,
    writer: &mut Watched<W>,
) -> Result<(u64, Option<bool>), RunFault>
    ensures shown { OnOk result (HasShown style.now.form (choice_value wanted.now.choice) (source_place source.now) (log_bytes log.now)
        (shown_among wanted.now (map (position_of (log_of source.now)) places.now) (log_bytes log.now) (map facts_of (units (log_bytes log.now))))
        (W.contents (device_of writer.old)) (W.contents (device_of writer.new)) page.old.text.items page.new.text.items) }
    ensures end { IfOk result (λ told. told.1 ≡ last_whole wanted.now.stop (map facts_of (units (log_bytes log.now)))) }
    ensures fault { IfErr result (λ e. (e ≡ RunFault.Log OutOfMemory) ⊎ (e ≡ RunFault.Write)) }
{
    let names = ChosenNames::new(alloc, &wanted.choice)?;
    let mut last = LastMap::none(alloc);
    let mut shown = 0u64;
    let mut whole = true;
    for unit in Units::new(log) {
        if !is_before(unit.start, wanted.stop) {
            return Ok((shown, None));
        }
        whole = unit.whole;
        let is_shown = show_unit(
            alloc, page, &mut last, source, log, wanted, &names, places, unit, style, writer,
        )?;
        shown = shown.saturating_add(u64::from(is_shown));
    }
    Ok((shown, Some(whole)))
}

/// Appends the rows of a unit, if it is wanted and has an event at one of some places, and writes what is collected once it is a chunk. Returns
/// whether it is shown.
fn show_unit<'a, A: Allocator + Copy, W: Write>(
    alloc: A,
    page: &mut Page<A>,
    last: &mut LastMap<'a, A>,
    source: &Source<A>,
    log: &Log<'_>,
    wanted: &Wanted<'_>,
    names: &ChosenNames<'_, A>,
    places: &[u32],
    unit: UnitFacts<'a>,
    style: &RowStyle<'_>,
    writer: &mut Watched<W>,
) -> Result<bool, RunFault>
    requires names { names_choice names.now ≡ choice_value wanted.now.choice }
    requires log { unit.log ≡ log.now }
    ensures shown { OnOk result (ShowsIf (is_shown wanted.now (map (position_of (log_of source.now)) places.now) (log_bytes log.now) (facts_told unit.entry))
        style.now.form (choice_value wanted.now.choice) (source_place source.now) (log_bytes log.now) (facts_told unit.entry)
        (W.contents (device_of writer.old)) (W.contents (device_of writer.new)) page.old.text.items page.new.text.items) }
    ensures told { IfOk result (λ told. told ≡ is_shown wanted.now (map (position_of (log_of source.now)) places.now) (log_bytes log.now) (facts_told unit.entry)) }
    ensures fault { IfErr result (λ e. (e ≡ RunFault.Log OutOfMemory) ⊎ (e ≡ RunFault.Write)) }
{
    if !is_at(source, places, &unit) {
        return Ok(false);
    }
    if !wanted.has_in_range(&unit) {
        return Ok(false);
    }
    let judged = unit.with_groups(alloc);
    if has_no_memory(&judged) {
        return Err(RunFault::Log(Fault::OutOfMemory));
    }
    if !is_wanted(wanted.concern(names, log, &judged)) {
        return Ok(false);
    }
    page.put_unit(alloc, last, source, log, wanted, &judged, style)?;
    write_full(&mut page.text, writer)?;
    Ok(true)
}

/// Whether a unit is shown, by whether it is wanted.
pub(crate) fn is_wanted(concern: Concern) -> bool
    ensures { result ≡ is_wanted concern }
{
    match concern {
        Concern::Wanted => true,
        Concern::PassedOver | Concern::Other => false,
    }
}
