//! The parts of a list, log by log.

ghost use Rattle.std.specs.Prelude.{◌≡◌, ◌||◌, ◌++◌, ◌⊎◌, IfErr, IfOk, IsSome, List, OnErr, OnOk, [], ◌∷◌, length, map, option_copied};
ghost use Rattle.std.specs.Io.KnownBytes.{Appends};
ghost use Rattle.std.specs.Result.{result_err};
ghost use Rattle.jiff.specs.Words.{plain_zone};
ghost use Rattle.blog_event.specs.Opening.{opening_fault};
ghost use Rattle.blog_event.specs.code.LogView.{log_bytes};
ghost use Rattle.blog_event.specs.declared.fault.Fault.TheVariants.{OutOfMemory};
ghost use Rattle.blog_device.specs.Devices.{AppendsBeginning, is_write_fault};
ghost use Rattle.blog_device.specs.Watched.{device_of, has_failed};
ghost use Rattle.blog_choice.specs.code.ChosenView.{names_choice};
ghost use Rattle.blog_source.specs.code.SourceView.{damaged_of, log_of};
ghost use Rattle.blog_request.specs.Wanted.{is_wanted};
ghost use Rattle.blog_units.specs.Units.{facts_of, units};
ghost use Rattle.blog_list.specs.Columns.{IsHeading};
ghost use Rattle.blog_list.specs.Lines.{LogList};
ghost use Rattle.blog_list.specs.Lists.{Lists};
ghost use Rattle.blog_list.specs.Shown.{last_whole, log_list};
ghost use Rattle.blog_list.specs.Texts.{AppendsLog, AppendsLogBeginning, header_of, name_above, totals_of};
ghost use Rattle.blog_list.specs.code.Held.{HasBegun, HasListed, HasWritten, has_no_memory};
ghost use Rattle.blog_list.specs.code.Ranked.{HasBroken, HasHeld, HasKept, IsEmptyRanking};
ghost use Rattle.blog_list.specs.code.Told.{PutsLineIn, end_listed, listed, shown_told, source_place};
ghost use Rattle.blog_list.specs.code.Totals.{AreTotals, CountsLog, totals_put};
ghost use Rattle.blog_list.specs.code.WriterView.{form_of, gtids_of, heading_of, sheet_of, sorting_of, zone_of};

use crate::column::TimeColumn;
use crate::list_end::early_end;
use crate::listing::{Form, Sorting, Style};
use crate::places::wanted_inside;
use crate::ranking::{Ranking, fewer};
use crate::totals::Totals;
use crate::{json, lines, totals};
use blog_choice::ChosenNames;
use blog_device::{RunFault, Watched, put, put_part};
use blog_event::{Fault, Log};
use blog_request::{Concern, Wanted, is_before};
use blog_source::Source;
use blog_sum::SumFault;
use blog_units::{Unit, Units};
use std::alloc::{AllocError, Allocator, Global};
use std::io::Write;

/// How much of a list is collected before it is written, in bytes.
const CHUNK_LEN: usize = 1 << 16;

/// Writes a list of the units of several logs, of which one at a time need be in memory: the header, what is listed of each
/// log, and the totals.
///
/// Its calls fail with `Log(OutOfMemory)`, and with `Write` if a write failed. Memory is taken from `alloc`, and for some
/// strings in lines of JSON from `global`.
#[derive(Drop)]
pub struct ListWriter<'z, A: Allocator = Global> {
    global: Global,
    alloc: A,
    style: Style<'z>,
    times: TimeColumn<'z, A>,
}

impl<'z, A: Allocator + Copy> ListWriter<'z, A> {
    /// Returns what writes lists in this style.
    pub fn new(global: Global, alloc: A, style: &Style<'z>) -> Result<Self, AllocError>
        ensures form { IfOk result (λ list. form_of list ≡ style.now.form) }
        ensures gtids { IfOk result (λ list. gtids_of list ≡ style.now.gtids) }
        ensures sorting { IfOk result (λ list. sorting_of list ≡ style.now.sorting) }
        ensures zone { IfOk result (λ list. zone_of list ≡ plain_zone style.now.zone) }
        ensures heading { IfOk result (λ list. IsHeading (plain_zone style.now.zone) (heading_of list)) }
    {
        let times = TimeColumn::new(alloc, style.zone)?;
        Ok(ListWriter {
            global,
            alloc,
            style: *style,
            times,
        })
    }

    /// Writes the line above all others, if the form has one.
    pub fn write_header<O: Write>(&self, writer: &mut Watched<O>) -> Result<(), RunFault>
        ensures fault { IfErr result (λ e. (e ≡ RunFault.Log OutOfMemory) ⊎ (e ≡ RunFault.Write)) }
        ensures mark { has_failed writer.new ≡ (has_failed writer.old || is_write_fault result) }
        ensures text { OnOk result (Appends (O.contents (device_of writer.old)) (O.contents (device_of writer.new)) (header_of (form_of self.now) (gtids_of self.now) (heading_of self.now))) }
        ensures beginning { OnErr result (AppendsBeginning (O.contents (device_of writer.old)) (O.contents (device_of writer.new)) (header_of (form_of self.now) (gtids_of self.now) (heading_of self.now))) }
    {
        let mut text = Vec::new(self.alloc);
        self.put_header(&mut text)?;
        put(writer, &text)
    }

    /// Writes a line for each wanted unit of the log of a source, and counts them. If there is a name, a line of it is above
    /// theirs, or it is in each object of JSON. In the order of the log they are written while they are found; they are written by
    /// some 64 KB at once. Positions that are given and written are those of the server's log.
    ///
    /// Returns why the list of the log ends early, as `list`. Fails with `Log` of the fault of a log that can't be opened, of
    /// which nothing is written. The totals mean nothing after a failure.
    pub fn write_log<O: Write>(
        &self,
        source: &Source<A>,
        name: Option<&[u8]>,
        wanted: &Wanted<'_>,
        totals: &mut Totals,
        writer: &mut Watched<O>,
    ) -> Result<Option<SumFault>, RunFault>
        ensures refused { IsSome (opening_fault (log_of source.now)) → writer.new ≡ writer.old }
        ensures lists { Lists (log_of source.now) result }
        ensures mark { has_failed writer.new ≡ (has_failed writer.old || is_write_fault result) }
        ensures text { OnOk result (AppendsLog (form_of self.now) (zone_of self.now) (gtids_of self.now) (length (heading_of self.now)) (listed (option_copied name.entry) (sorting_of self.now) source.now wanted.now) (O.contents (device_of writer.old)) (O.contents (device_of writer.new))) }
        ensures beginning { OnErr result (AppendsLogBeginning (form_of self.now) (zone_of self.now) (gtids_of self.now) (length (heading_of self.now)) (listed (option_copied name.entry) (sorting_of self.now) source.now wanted.now) (O.contents (device_of writer.old)) (O.contents (device_of writer.new))) }
        ensures counted { OnOk result (CountsLog totals.old totals.new (listed (option_copied name.entry) (sorting_of self.now) source.now wanted.now)) }
        ensures end { IfOk result (λ end. end ≡ end_listed source.now wanted.now) }
    {
        let log = match open_log(source, self.style.seed) {
            Ok(log) => log,
            Err(fault) => return Err(RunFault::Log(fault)),
        };
        let inside = wanted_inside(source, wanted);
        match self.write_opened(source, &log, name, &inside, totals, writer)? {
            Some(whole) => Ok(early_end(source, whole, wanted.stop)),
            None => Ok(None),
        }
    }

    /// Writes the last lines, which have the totals.
    pub fn write_totals<O: Write>(
        &self,
        totals: &Totals,
        writer: &mut Watched<O>,
    ) -> Result<(), RunFault>
        ensures fault { IfErr result (λ e. (e ≡ RunFault.Log OutOfMemory) ⊎ (e ≡ RunFault.Write)) }
        ensures mark { has_failed writer.new ≡ (has_failed writer.old || is_write_fault result) }
        ensures text { (ls : List LogList) → AreTotals totals.now ls → OnOk result (Appends (O.contents (device_of writer.old)) (O.contents (device_of writer.new)) (totals_of (form_of self.now) ls)) }
        ensures beginning { (ls : List LogList) → AreTotals totals.now ls → OnErr result (AppendsBeginning (O.contents (device_of writer.old)) (O.contents (device_of writer.new)) (totals_of (form_of self.now) ls)) }
    {
        let mut text = Vec::new(self.alloc);
        self.put_totals(&mut text, totals)?;
        put(writer, &text)
    }

    /// The same as `write_log` for a log that is opened, by positions of that log. Returns whether its last unit is whole, and
    /// None where units stopped being wanted before.
    fn write_opened<O: Write>(
        &self,
        source: &Source<A>,
        log: &Log<'_>,
        name: Option<&[u8]>,
        wanted: &Wanted<'_>,
        totals: &mut Totals,
        writer: &mut Watched<O>,
    ) -> Result<Option<bool>, RunFault>
        ensures fault { IfErr result (λ e. (e ≡ RunFault.Log OutOfMemory) ⊎ (e ≡ RunFault.Write)) }
        ensures mark { has_failed writer.new ≡ (has_failed writer.old || is_write_fault result) }
        ensures text { OnOk result (AppendsLog (form_of self.now) (zone_of self.now) (gtids_of self.now) (length (heading_of self.now)) (log_list (option_copied name.entry) (sorting_of self.now) wanted.now (log_bytes log.now) (source_place source.now) (damaged_of source.now)) (O.contents (device_of writer.old)) (O.contents (device_of writer.new))) }
        ensures beginning { OnErr result (AppendsLogBeginning (form_of self.now) (zone_of self.now) (gtids_of self.now) (length (heading_of self.now)) (log_list (option_copied name.entry) (sorting_of self.now) wanted.now (log_bytes log.now) (source_place source.now) (damaged_of source.now)) (O.contents (device_of writer.old)) (O.contents (device_of writer.new))) }
        ensures counted { OnOk result (CountsLog totals.old totals.new (log_list (option_copied name.entry) (sorting_of self.now) wanted.now (log_bytes log.now) (source_place source.now) (damaged_of source.now))) }
        ensures end { IfOk result (λ whole. whole ≡ last_whole wanted.now.stop (map facts_of (units (log_bytes log.now)))) }
    {
        let mut text = Vec::new(self.alloc);
        let whole = self.put_log(&mut text, source, log, name, wanted, totals, writer)?;
        put(writer, &text)?;
        Ok(whole)
    }

    /// Appends what is listed of a log, counts it, and writes what is collected by chunks. Returns the same as `write_opened`.
    pub(crate) fn put_log<O: Write>(
        &self,
        text: &mut Vec<u8, A>,
        source: &Source<A>,
        log: &Log<'_>,
        name: Option<&[u8]>,
        wanted: &Wanted<'_>,
        totals: &mut Totals,
        writer: &mut Watched<O>,
    ) -> Result<Option<bool>, RunFault>
        ensures fault { IfErr result (λ e. (e ≡ RunFault.Log OutOfMemory) ⊎ (e ≡ RunFault.Write)) }
        ensures mark { has_failed writer.new ≡ (has_failed writer.old || is_write_fault result) }
        ensures text { OnOk result (HasListed (form_of self.now) (zone_of self.now) (gtids_of self.now) (length (heading_of self.now)) (log_list (option_copied name.entry) (sorting_of self.now) wanted.now (log_bytes log.now) (source_place source.now) (damaged_of source.now)) (O.contents (device_of writer.old)) (O.contents (device_of writer.new)) text.old.items text.new.items) }
        ensures beginning { OnErr result (HasBegun (form_of self.now) (zone_of self.now) (gtids_of self.now) (length (heading_of self.now)) (log_list (option_copied name.entry) (sorting_of self.now) wanted.now (log_bytes log.now) (source_place source.now) (damaged_of source.now)) (O.contents (device_of writer.old)) (O.contents (device_of writer.new)) text.old.items) }
        ensures counted { OnOk result (CountsLog totals.old totals.new (log_list (option_copied name.entry) (sorting_of self.now) wanted.now (log_bytes log.now) (source_place source.now) (damaged_of source.now))) }
        ensures end { IfOk result (λ whole. whole ≡ last_whole wanted.now.stop (map facts_of (units (log_bytes log.now)))) }
    {
        let mut ranking = Ranking::none(self.alloc);
        let whole = self.put_units(
            text,
            &mut ranking,
            source,
            log,
            name,
            wanted,
            totals,
            writer,
        )?;
        match self.style.sorting {
            Sorting::Place => {}
            Sorting::Rows => ranking.put_lines(text, writer)?,
        }
        Ok(whole)
    }

    /// The same, but that lines which are to be sorted are held in a ranking, which is empty at first.
    fn put_units<O: Write>(
        &self,
        text: &mut Vec<u8, A>,
        ranking: &mut Ranking<A>,
        source: &Source<A>,
        log: &Log<'_>,
        name: Option<&[u8]>,
        wanted: &Wanted<'_>,
        totals: &mut Totals,
        writer: &mut Watched<O>,
    ) -> Result<Option<bool>, RunFault>
        requires { IsEmptyRanking ranking.old }
        ensures fault { IfErr result (λ e. (e ≡ RunFault.Log OutOfMemory) ⊎ (e ≡ RunFault.Write)) }
        ensures mark { has_failed writer.new ≡ (has_failed writer.old || is_write_fault result) }
        ensures text { OnOk result (HasHeld (sheet_of self.now text.old.items) (log_list (option_copied name.entry) (sorting_of self.now) wanted.now (log_bytes log.now) (source_place source.now) (damaged_of source.now)) (O.contents (device_of writer.old)) (O.contents (device_of writer.new)) text.new.items ranking.new) }
        ensures beginning { OnErr result (HasBegun (form_of self.now) (zone_of self.now) (gtids_of self.now) (length (heading_of self.now)) (log_list (option_copied name.entry) (sorting_of self.now) wanted.now (log_bytes log.now) (source_place source.now) (damaged_of source.now)) (O.contents (device_of writer.old)) (O.contents (device_of writer.new)) text.old.items) }
        ensures counted { OnOk result (CountsLog totals.old totals.new (log_list (option_copied name.entry) (sorting_of self.now) wanted.now (log_bytes log.now) (source_place source.now) (damaged_of source.now))) }
        ensures end { IfOk result (λ whole. whole ≡ last_whole wanted.now.stop (map facts_of (units (log_bytes log.now)))) }
    {
        self.put_name(text, name)?;
        totals.add_damaged(source.damaged());
        let names = ChosenNames::new(self.alloc, &wanted.choice)?;
        let mut whole = true;
        for unit in Units::new(log) {
            if !is_before(unit.start, wanted.stop) {
                return Ok(None);
            }
            whole = unit.whole;
            if !wanted.has_in_range(&unit) {
                continue;
            }
            let judged = unit.with_groups(self.alloc);
            if has_no_memory(&judged) {
                return Err(RunFault::Log(Fault::OutOfMemory));
            }
            let concern = wanted.concern(&names, log, &judged);
            totals.count(concern, &judged);
            if is_listed(concern) {
                self.keep_unit(text, ranking, &names, source, log, name, &judged, writer)?;
            }
        }
        Ok(Some(whole))
    }

    /// Appends the line of a unit, and writes what is collected once it is a chunk; or holds the line, if it is to be sorted.
    fn keep_unit<O: Write>(
        &self,
        text: &mut Vec<u8, A>,
        ranking: &mut Ranking<A>,
        names: &ChosenNames<'_, A>,
        source: &Source<A>,
        log: &Log<'_>,
        name: Option<&[u8]>,
        unit: &Unit<'_, A>,
        writer: &mut Watched<O>,
    ) -> Result<(), RunFault>
        ensures fault { IfErr result (λ e. (e ≡ RunFault.Log OutOfMemory) ⊎ (e ≡ RunFault.Write)) }
        ensures mark { has_failed writer.new ≡ (has_failed writer.old || is_write_fault result) }
        ensures text { OnOk result (HasKept (sorting_of self.now) (form_of self.now) self.now.times (gtids_of self.now) (names_choice names.now) (option_copied name.entry) (shown_told (log_bytes log.now) (source_place source.now) unit.now)
            (O.contents (device_of writer.old)) (O.contents (device_of writer.new)) text.old.items text.new.items ranking.old ranking.new) }
        ensures beginning { OnErr result (HasBroken (sorting_of self.now) (form_of self.now) self.now.times (gtids_of self.now) (option_copied name.entry) (shown_told (log_bytes log.now) (source_place source.now) unit.now)
            (O.contents (device_of writer.old)) (O.contents (device_of writer.new)) text.old.items) }
    {
        match self.style.sorting {
            Sorting::Place => {
                self.put_unit(text, source, log, name, unit)?;
                write_full(text, writer)
            }
            Sorting::Rows => {
                let start = ranking.held.len();
                self.put_unit(&mut ranking.held, source, log, name, unit)?;
                ranking.add(fewer(&names.choice(), unit), start)?;
                Ok(())
            }
        }
    }

    /// Appends the line above all others, if the form has one.
    pub(crate) fn put_header(&self, out: &mut Vec<u8, A>) -> Result<(), AllocError>
        ensures { OnOk result (out.new.items ≡ out.old.items ++ header_of (form_of self.now) (gtids_of self.now) (heading_of self.now)) }
    {
        match self.style.form {
            Form::Text => lines::put_header(out, &self.times, self.style.gtids),
            Form::Json => Ok(()),
        }
    }

    /// Appends the line with a log's name, if there is one and the form has such a line.
    fn put_name(&self, out: &mut Vec<u8, A>, name: Option<&[u8]>) -> Result<(), AllocError>
        ensures { OnOk result (out.new.items ≡ out.old.items ++ name_above (form_of self.now) (option_copied name.entry)) }
    {
        match self.style.form {
            Form::Text => lines::put_name(out, name),
            Form::Json => Ok(()),
        }
    }

    /// Appends the line of a unit.
    fn put_unit(
        &self,
        out: &mut Vec<u8, A>,
        source: &Source<A>,
        log: &Log<'_>,
        name: Option<&[u8]>,
        unit: &Unit<'_, A>,
    ) -> Result<(), AllocError>
        ensures { OnOk result (PutsLineIn (form_of self.now) self.now.times (gtids_of self.now) (option_copied name.entry) (shown_told (log_bytes log.now) (source_place source.now) unit.now) out.old.items out.new.items) }
    {
        match self.style.form {
            Form::Text => lines::put_unit(out, &self.times, self.style.gtids, source, log, unit),
            Form::Json => json::put_unit(
                self.global,
                out,
                self.times.zone(),
                source,
                log,
                name,
                unit,
            ),
        }
    }

    /// Appends the last lines.
    pub(crate) fn put_totals(&self, out: &mut Vec<u8, A>, totals: &Totals) -> Result<(), AllocError>
        ensures { OnOk result (out.new.items ≡ out.old.items ++ totals_put (form_of self.now) totals.now) }
    {
        match self.style.form {
            Form::Text => totals::put_totals(out, totals),
            Form::Json => json::put_totals(out, totals),
        }
    }
}

/// Opens the log of a source, with a seed by which its tables are looked up. Fails with its first fault if it can't be opened.
pub fn open_log<A: Allocator>(source: &Source<A>, seed: u64) -> Result<Log<'_>, Fault>
    ensures exact { result_err result ≡ opening_fault (log_of source.now) }
    ensures bytes { IfOk result (λ log. log_bytes log ≡ log_of source.now) }
{
    match Log::open(source.bytes()) {
        Ok(log) => Ok(log.with_seed(seed)),
        Err(fault) => Err(fault),
    }
}

/// Whether memory for the groups of a unit was refused.
fn has_no_memory<A: Allocator>(unit: &Unit<'_, A>) -> bool
    ensures { result ≡ has_no_memory unit.now.groups }
{
    match &unit.groups {
        Err(Fault::OutOfMemory) => true,
        _ => false,
    }
}

/// Whether a unit is listed, by whether it is wanted.
fn is_listed(concern: Concern) -> bool
    ensures { result ≡ is_wanted concern }
{
    match concern {
        Concern::Wanted => true,
        Concern::PassedOver | Concern::Other => false,
    }
}

/// Writes what is collected once it has 64 KB, and then empties it. Fails with `Write` if a write failed.
pub fn write_full<A: Allocator, O: Write>(
    text: &mut Vec<u8, A>,
    writer: &mut Watched<O>,
) -> Result<(), RunFault>
    ensures fault { IfErr result (λ e. (e ≡ RunFault.Log OutOfMemory) ⊎ (e ≡ RunFault.Write)) }
    ensures mark { has_failed writer.new ≡ (has_failed writer.old || is_write_fault result) }
    ensures written { OnOk result (HasWritten (O.contents (device_of writer.old)) (O.contents (device_of writer.new)) text.old.items text.new.items) }
    ensures beginning { OnErr result (AppendsBeginning (O.contents (device_of writer.old)) (O.contents (device_of writer.new)) text.old.items) }
{
    if text.len() >= CHUNK_LEN {
        put_part(writer, text)?;
        text.clear();
    }
    Ok(())
}
