//! Chosen units of a log, whose groups are gathered in one log.

ghost use Rattle.std.specs.Prelude.{◌≡◌, ◌&&◌, ◌++◌, ◌∷◌, IfOk, List, []};
ghost use Rattle.blog_choice.specs.code.ChosenView.{names_choice};
ghost use Rattle.blog_choice.specs.code.Views.{choice_value};
ghost use Rattle.blog_event.specs.Fault.{name_of};
ghost use Rattle.blog_event.specs.code.LogView.{log_bytes};
ghost use Rattle.blog_gathered.specs.code.GatheredView.{range_of};
ghost use Rattle.blog_later.specs.Later.{leaves_alone};
ghost use Rattle.blog_source.specs.code.SourceView.{end_of, log_of};
ghost use Rattle.blog_trans.specs.Selection.{Selection as ASelection, selection_of};
ghost use Rattle.blog_units.specs.Units.{Facts};
ghost use Rattle.blog_units.specs.code.UnitsView.{facts_told};
ghost use Rattle.undo_run.specs.Units.{chosen_range, chosen_units, tables_in};
ghost use Rattle.undo_run.specs.code.Steps.{Adds, Chooses, Gathers, HandsGroups, HasChosen, Indexes, IsKept, RefusesFor, chosen_by};

use crate::fault::PartFault;
use crate::part::{has_rows, is_at_end};
use crate::request::Among;
use blog_choice::{ChosenNames, TableChoice, TableName};
use blog_device::RunFault;
use blog_event::{Fault, Log};
use blog_gathered::{GatherFault, Gathered};
use blog_later::Leaving;
use blog_request::is_passed_over;
use blog_source::Source;
use blog_sum::SumFault;
use blog_trans::{Index, Selection};
use blog_units::{UnitFacts, Units};
use std::alloc::{AllocError, Allocator};

/// Where a chosen unit starts in its log, and where its groups end in the log in which they are gathered.
#[derive(Clone, Copy)]
pub(crate) struct Place {
    start: u32,
    end: usize,
}

/// Chosen units of a log.
#[derive(Drop)]
pub(crate) struct Chosen<A: Allocator> {
    /// A log in which their groups are, if there are any.
    pub(crate) gathered: Option<Gathered<A>>,
    /// Where each of them is, in order.
    pub(crate) places: Vec<Place, A>,
    /// The rows that they left, a list for each, if these are asked for.
    pub(crate) leaving: Leaving<A>,
}

impl<A: Allocator + Copy> Chosen<A> {
    /// None.
    fn none(alloc: A) -> Chosen<A>
        ensures { (looks : _) → (sel : ASelection) → (handed : _) → HasChosen looks sel handed [] result }
    {
        Chosen {
            gathered: None,
            places: Vec::new(alloc),
            leaving: Leaving::none(alloc),
        }
    }

    /// Those with one more, which starts at a position and has the groups of an index.
    fn with(
        self,
        alloc: A,
        start: u32,
        index: &Index<'_, '_, A>,
        looks: bool,
    ) -> Result<Chosen<A>, PartFault<A>>
        ensures { (sel : ASelection) → (handed : _) → (us : List Facts) → (u : Facts) → range_of index.now ≡ chosen_range sel handed u → HasChosen looks sel handed us self
            → Adds looks sel handed (us ++ u ∷ []) result }
    {
        let Chosen {
            gathered,
            places,
            leaving,
        } = self;
        let gathered = match gather(alloc, gathered, index) {
            Ok(gathered) => gathered,
            Err(fault) => return Err(fault),
        };
        let mut places = places;
        put_place(&mut places, start, gathered.len())?;
        let mut leaving = leaving;
        if looks {
            leaving.add(index)?;
        }
        Ok(Chosen {
            gathered: Some(gathered),
            places,
            leaving,
        })
    }
}

/// Appends where a unit starts, and where its groups end.
fn put_place<A: Allocator>(
    places: &mut Vec<Place, A>,
    start: u32,
    end: usize,
) -> Result<(), AllocError> {
    places.push(Place { start, end })?;
    Ok(())
}

/// Gathers the groups of an index after others, if there are any.
fn gather<A: Allocator + Copy>(
    alloc: A,
    gathered: Option<Gathered<A>>,
    index: &Index<'_, '_, A>,
) -> Result<Gathered<A>, PartFault<A>>
    ensures { (sel : ASelection) → (handed : _) → (us : List Facts) → (u : Facts) → range_of index.now ≡ chosen_range sel handed u → IsKept sel handed us gathered
        → Gathers sel handed (us ++ u ∷ []) result }
{
    let mut all = match gathered {
        Some(gathered) => gathered,
        None => Gathered::new(alloc, index)?,
    };
    match all.add(index) {
        Ok(()) => Ok(all),
        Err(GatherFault::OutOfMemory) => Err(PartFault::Run(RunFault::Log(Fault::OutOfMemory))),
        Err(GatherFault::TooLong) => Err(PartFault::TooLong),
    }
}

/// Why a unit isn't written that is refused: the log may be damaged where it ends.
fn refusal<A: Allocator, B: Allocator>(
    source: &Source<A>,
    fault: &Fault,
    damage: Option<SumFault>,
) -> PartFault<B>
    ensures { RefusesFor (log_of source.now) (end_of source.now) damage fault.now result }
{
    match damage {
        Some(damage) if is_at_end(source, fault) => PartFault::Sums(damage),
        _ => PartFault::Log(source.at_place(fault)),
    }
}

/// Marks one more unit as chosen, or not.
fn put_mark<A: Allocator>(marks: &mut Vec<bool, A>, mark: bool) -> Result<(), AllocError>
    ensures { IfOk result (λ _. marks.new.items ≡ marks.old.items ++ mark ∷ []) }
{
    marks.push(mark)?;
    Ok(())
}

/// Whether a unit that is refused is left out: it is whole, and leaves the chosen tables alone.
fn is_left_out<A: Allocator + Copy>(
    names: &ChosenNames<'_, A>,
    log: &Log<'_>,
    unit: &UnitFacts<'_>,
) -> bool
    ensures { result ≡ ((facts_told unit.now).whole && leaves_alone (names_choice names.now) (log_bytes log.now) (facts_told unit.now)) }
{
    unit.whole && is_passed_over(names, log, unit.start, unit.stop)
}

/// Returns the groups of a unit, if it is chosen.
fn groups_if_chosen<'a, 's, A: Allocator + Copy>(
    alloc: A,
    source: &Source<A>,
    log: &Log<'_>,
    inside: &Selection<'s>,
    among: &Among<'_, '_>,
    names: &ChosenNames<'_, A>,
    unit: &UnitFacts<'a>,
    damage: Option<SumFault>,
) -> Result<Option<Index<'a, 's, A>>, PartFault<A>>
    requires bytes { log_bytes log.now ≡ log_of source.now }
    requires stop { among.now.wanted.stop ≡ inside.now.stop }
    requires unit { log_bytes unit.now.log ≡ log_of source.now }
    requires names { names_choice names.now ≡ tables_in (selection_of inside.now) }
    ensures { HandsGroups (chosen_by among.now (selection_of inside.now) (log_of source.now)) (selection_of inside.now) (log_of source.now) (end_of source.now) damage (facts_told unit.now) result }
{
    if !among.has(log, unit) {
        return Ok(None);
    }
    match unit.groups_of(alloc, inside) {
        Ok(index) => Ok(Some(index)),
        Err(Fault::OutOfMemory) => Err(PartFault::Run(RunFault::Log(Fault::OutOfMemory))),
        Err(_) if is_left_out(names, log, unit) => Ok(None),
        Err(fault) => Err(refusal(source, &fault, damage)),
    }
}

/// Chooses units of the log of a source, in the range of a selection, and the changes of its tables; and marks each unit as chosen, or not, in
/// turn. `damage` is why the reading of the log ended too early. `looks` says whether the rows that they left are asked for.
pub(crate) fn choose<A: Allocator + Copy>(
    alloc: A,
    source: &Source<A>,
    log: &Log<'_>,
    inside: &Selection<'_>,
    among: &Among<'_, '_>,
    damage: Option<SumFault>,
    looks: bool,
) -> Result<(Chosen<A>, Vec<bool, A>), PartFault<A>>
    requires bytes { log_bytes log.now ≡ log_of source.now }
    requires stop { among.now.wanted.stop ≡ inside.now.stop }
    ensures { Chooses looks (chosen_by among.now (selection_of inside.now) (log_of source.now)) (selection_of inside.now) (log_of source.now) (end_of source.now) damage result }
{
    match inside.table {
        None => {
            let choice = TableChoice {
                database: inside.database,
                tables: &[],
                excluded: &[],
            };
            choose_of(alloc, source, log, inside, among, &choice, damage, looks)
        }
        Some(table) => {
            let tables = [TableName {
                schema: None,
                table,
            }];
            let choice = TableChoice {
                database: inside.database,
                tables: &tables,
                excluded: &[],
            };
            choose_of(alloc, source, log, inside, among, &choice, damage, looks)
        }
    }
}

/// The same, with the selection's tables as a choice.
fn choose_of<A: Allocator + Copy>(
    alloc: A,
    source: &Source<A>,
    log: &Log<'_>,
    inside: &Selection<'_>,
    among: &Among<'_, '_>,
    choice: &TableChoice<'_>,
    damage: Option<SumFault>,
    looks: bool,
) -> Result<(Chosen<A>, Vec<bool, A>), PartFault<A>>
    requires bytes { log_bytes log.now ≡ log_of source.now }
    requires stop { among.now.wanted.stop ≡ inside.now.stop }
    requires tables { choice_value choice.now ≡ tables_in (selection_of inside.now) }
    ensures { Chooses looks (chosen_by among.now (selection_of inside.now) (log_of source.now)) (selection_of inside.now) (log_of source.now) (end_of source.now) damage result }
{
    match ChosenNames::new(alloc, choice) {
        Ok(names) => choose_among(alloc, source, log, inside, among, &names, damage, looks),
        Err(fault) => Err(PartFault::from(fault)),
    }
}

/// The same, with the names of the selection's tables.
fn choose_among<A: Allocator + Copy>(
    alloc: A,
    source: &Source<A>,
    log: &Log<'_>,
    inside: &Selection<'_>,
    among: &Among<'_, '_>,
    names: &ChosenNames<'_, A>,
    damage: Option<SumFault>,
    looks: bool,
) -> Result<(Chosen<A>, Vec<bool, A>), PartFault<A>>
    requires bytes { log_bytes log.now ≡ log_of source.now }
    requires stop { among.now.wanted.stop ≡ inside.now.stop }
    requires names { names_choice names.now ≡ tables_in (selection_of inside.now) }
    ensures { Chooses looks (chosen_by among.now (selection_of inside.now) (log_of source.now)) (selection_of inside.now) (log_of source.now) (end_of source.now) damage result }
{
    let mut chosen = Chosen::none(alloc);
    let mut marks = Vec::new(alloc);
    for unit in Units::from_position(log, inside.start) {
        let groups = match groups_if_chosen(
            alloc, source, log, inside, among, names, &unit, damage,
        ) {
            Ok(groups) => groups,
            Err(fault) => return Err(fault),
        };
        match put_mark(&mut marks, groups.is_some()) {
            Ok(()) => {}
            Err(fault) => return Err(PartFault::from(fault)),
        }
        match groups {
            Some(index) => match chosen.with(alloc, unit.start, &index, looks) {
                Ok(more) => chosen = more,
                Err(fault) => return Err(fault),
            },
            None => {}
        }
    }
    match damage {
        Some(damage) => Err(PartFault::Sums(damage)),
        None => Ok((chosen, marks)),
    }
}

/// A fault of the log in which the groups of units are gathered: it is told where the unit starts in whose groups it is.
fn told_at<A: Allocator>(source: &Source<A>, places: &[Place], fault: &Fault) -> Fault
    ensures { name_of result ≡ name_of fault.now }
{
    if let Some(pos) = fault.at() {
        for place in places {
            if (pos as usize) < place.end {
                return fault.moved_to(source.place(place.start));
            }
        }
    }
    *fault
}

/// Returns the index of the groups of chosen units, if these have rows.
pub(crate) fn index_of_chosen<'g, A: Allocator + Copy>(
    alloc: A,
    source: &Source<A>,
    inside: &Selection<'_>,
    among: &Among<'_, '_>,
    gathered: &'g Option<Gathered<A>>,
    places: &[Place],
    seed: u64,
) -> Result<Index<'g, 'static, A>, PartFault<A>>
    requires { IsKept (selection_of inside.now) (log_of source.now) (chosen_units (chosen_by among.now (selection_of inside.now) (log_of source.now)) (selection_of inside.now) (log_of source.now)) gathered.now }
    ensures { Indexes (chosen_by among.now (selection_of inside.now) (log_of source.now)) (selection_of inside.now) (log_of source.now) (end_of source.now) result }
{
    let Some(gathered) = gathered else {
        return Err(PartFault::NothingSelected);
    };
    match gathered.index(alloc, seed) {
        Ok(index) if has_rows(&index) => Ok(index),
        Ok(_) => Err(PartFault::NothingSelected),
        Err(fault) => Err(PartFault::Log(told_at(source, places, &fault))),
    }
}
