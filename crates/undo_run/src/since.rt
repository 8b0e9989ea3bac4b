//! What was seen of what came later, and what is told where it touches nothing of a part.

ghost use Rattle.std.specs.Prelude.{◌≡◌, ◌++◌, OnOk, option_map};
ghost use Rattle.undo_run.specs.Reports.{apart_text, end_text, looked_text, next_text, place_text, statements_text, statements_words, units_text, units_words};
ghost use Rattle.undo_run.specs.code.SinceView.{place_seen, since_seen};

use blog_text::{put_escaped, put_number, put_text};
use std::alloc::{AllocError, Allocator};

/// A place in the server's log of a name.
#[derive(Clone, Copy)]
pub(crate) struct Place<'n> {
    /// The log's name.
    pub(crate) name: &'n [u8],
    /// In bytes from its start.
    pub(crate) at: u32,
}

/// What was seen of what logs have after the changes of a part.
#[derive(Drop)]
pub(crate) struct Since<'n, A: Allocator> {
    /// How many units can be undone by themselves, so that their changes are known.
    pub(crate) units: u64,
    /// How many rows they take that the part's changes left.
    pub(crate) touched: u64,
    /// How many of the others may concern the part's tables.
    pub(crate) unknown: u64,
    /// How many of them don't.
    pub(crate) apart: u64,
    /// Where the first of these begins.
    pub(crate) first: Option<Place<'n>>,
    /// Where the reading of the last log ended.
    pub(crate) end: Option<Place<'n>>,
    /// The name of the log in which that one goes on; empty if it doesn't.
    pub(crate) next: Vec<u8, A>,
    /// Whether a log is damaged there.
    pub(crate) is_damaged: bool,
}

/// Appends a place.
fn put_place<A: Allocator>(out: &mut Vec<u8, A>, place: &Place<'_>) -> Result<(), AllocError>
    ensures { OnOk result (out.new.items ≡ out.old.items ++ place_text (place_seen place.now)) }
{
    put_number(out, u64::from(place.at))?;
    put_text(out, b" of ")?;
    put_escaped(out, place.name)
}

/// What follows a number of later transactions.
fn units_words(units: u64) -> &'static [u8]
    ensures { result.now ≡ units_words units }
{
    if units == 1 {
        b" later transaction"
    } else {
        b" later transactions"
    }
}

/// Appends how many later transactions there are.
fn put_units<A: Allocator>(out: &mut Vec<u8, A>, units: u64) -> Result<(), AllocError>
    ensures { OnOk result (out.new.items ≡ out.old.items ++ units_text units) }
{
    put_text(out, b"looked at ")?;
    put_number(out, units)?;
    put_text(out, units_words(units))
}

/// Appends up to where they were looked at.
fn put_end<A: Allocator>(out: &mut Vec<u8, A>, end: &Option<Place<'_>>) -> Result<(), AllocError>
    ensures { OnOk result (out.new.items ≡ out.old.items ++ end_text (option_map place_seen end.now)) }
{
    if let Some(place) = end {
        put_text(out, b", up to ")?;
        put_place(out, place)?;
    }
    put_text(out, b": none changes these rows\n")
}

/// What follows a number of statements.
fn statements_words(n: u64) -> &'static [u8]
    ensures { result.now ≡ statements_words n }
{
    if n == 1 {
        b" statement, at "
    } else {
        b" statements, the first at "
    }
}

/// Appends a number of statements.
fn put_statements<A: Allocator>(out: &mut Vec<u8, A>, n: u64) -> Result<(), AllocError>
    ensures { OnOk result (out.new.items ≡ out.old.items ++ statements_text n) }
{
    put_text(out, b"passed over ")?;
    put_number(out, n)?;
    put_text(out, statements_words(n))
}

/// Appends how many statements were passed over.
fn put_apart<A: Allocator>(
    out: &mut Vec<u8, A>,
    n: u64,
    first: &Option<Place<'_>>,
) -> Result<(), AllocError>
    ensures { OnOk result (out.new.items ≡ out.old.items ++ apart_text n (option_map place_seen first.now)) }
{
    match first {
        Some(place) => {
            put_statements(out, n)?;
            put_place(out, place)?;
            put_text(out, b"\n")
        }
        None => Ok(()),
    }
}

/// Appends in which log the last one goes on, if it does.
fn put_next<A: Allocator>(
    out: &mut Vec<u8, A>,
    end: &Option<Place<'_>>,
    next: &[u8],
) -> Result<(), AllocError>
    ensures { OnOk result (out.new.items ≡ out.old.items ++ next_text (option_map place_seen end.now) next.now) }
{
    match end {
        Some(place) if !next.is_empty() => {
            put_escaped(out, place.name)?;
            put_text(out, b" goes on in ")?;
            put_escaped(out, next)?;
            put_text(out, b": give that as the next --later\n")
        }
        _ => Ok(()),
    }
}

/// Appends what is told of what came later.
pub(crate) fn put_since<A: Allocator, B: Allocator>(
    out: &mut Vec<u8, A>,
    since: &Since<'_, B>,
) -> Result<(), AllocError>
    ensures { OnOk result (out.new.items ≡ out.old.items ++ looked_text (since_seen since.now)) }
{
    put_units(out, since.units)?;
    put_end(out, &since.end)?;
    put_apart(out, since.apart, &since.first)?;
    put_next(out, &since.end, &since.next)
}
