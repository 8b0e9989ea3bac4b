//! The names of logs that are read as one, and in which of them a place is.

ghost use Rattle.std.specs.Prelude.{◌≡◌, IfOk};
ghost use Rattle.undo_run.specs.After.{place_in};
ghost use Rattle.undo_run.specs.Several.{located, located_by, one_name, part_among, starts_in_first, stop_behind, with_name};
ghost use Rattle.undo_run.specs.code.NamesView.{begun_told, located_told, names_told};
ghost use Rattle.undo_run.specs.code.SinceView.{place_seen};
ghost use Rattle.blog_trans.specs.Selection.{selection_of};

use crate::since::Place;
use blog_trans::Selection;
use std::alloc::{AllocError, Allocator};

/// A further log.
#[derive(Clone, Copy)]
pub(crate) struct Begun<'n> {
    /// Its number, from 1 on.
    pub(crate) number: usize,
    /// The place at which it begins.
    pub(crate) start: u32,
    /// Its name.
    pub(crate) name: &'n [u8],
}

/// The names of logs that are read as one.
#[derive(Drop)]
pub(crate) struct Names<'n, A: Allocator> {
    /// That of the first.
    pub(crate) first: &'n [u8],
    /// The further ones.
    pub(crate) more: Vec<Begun<'n>, A>,
    /// The place at which the last of all begins.
    pub(crate) last: u32,
}

/// A place by the log in which it is.
#[derive(Clone, Copy)]
pub(crate) struct Located<'n> {
    /// The log's number, from 0 on.
    pub(crate) number: usize,
    /// Its name.
    pub(crate) name: &'n [u8],
    /// In bytes from its start.
    pub(crate) at: u32,
}

/// The log of a place, by one more that may be it.
fn located_by<'n>(so_far: Located<'n>, begun: Begun<'n>, place: u32) -> Located<'n>
    ensures { located_told result ≡ located_by (located_told so_far.entry) (begun_told begun.entry) place }
{
    if begun.start <= place {
        Located {
            number: begun.number,
            name: begun.name,
            at: place - begun.start,
        }
    } else {
        so_far
    }
}

/// A stop that is counted from where the last log begins.
fn stop_behind(start: u32, stop: Option<u32>) -> Option<u32>
    ensures { result ≡ stop_behind start stop }
{
    match stop {
        Some(stop) => Some(start.saturating_add(stop)),
        None => None,
    }
}

impl<'n, A: Allocator> Names<'n, A> {
    /// That of one log.
    pub(crate) fn one(alloc: A, name: &'n [u8]) -> Names<'n, A>
        ensures { names_told result ≡ one_name name.now }
    {
        Names {
            first: name,
            more: Vec::new(alloc),
            last: 0,
        }
    }

    /// These with that of one more, which begins at a place.
    pub(crate) fn with(self, start: u32, name: &'n [u8]) -> Result<Names<'n, A>, AllocError>
        ensures { IfOk result (λ all. names_told all ≡ with_name (names_told self.entry) start name.now) }
    {
        let Names { first, more, .. } = self;
        let mut more = more;
        let number = more.len() + 1;
        more.push(Begun {
            number,
            start,
            name,
        })?;
        Ok(Names {
            first,
            more,
            last: start,
        })
    }

    /// The log of a place, and where it is there.
    pub(crate) fn located(&self, place: u32) -> Located<'n>
        ensures { located_told result ≡ located (names_told self.now) place }
    {
        let mut so_far = Located {
            number: 0,
            name: self.first,
            at: place,
        };
        for n in 0..self.more.len() {
            so_far = located_by(so_far, self.more[n], place);
        }
        so_far
    }

    /// A place by the name of its log.
    pub(crate) fn place(&self, place: u32) -> Place<'n>
        ensures { place_seen result ≡ place_in (names_told self.now) place }
    {
        let located = self.located(place);
        Place {
            name: located.name,
            at: located.at,
        }
    }

    /// Whether a place is one of the first log.
    pub(crate) fn starts_in_first(&self, place: u32) -> bool
        ensures { result ≡ starts_in_first (names_told self.now).more place }
    {
        match self.more.first() {
            Some(begun) => place < begun.start,
            None => true,
        }
    }

    /// A part of the logs: its stop, which is one of the last log, is counted from the start of the first.
    pub(crate) fn part_among<'s>(&self, part: &Selection<'s>) -> Selection<'s>
        ensures { selection_of result ≡ part_among (names_told self.now) (selection_of part.now) }
    {
        match self.more.first() {
            None => *part,
            Some(_) => Selection {
                stop: stop_behind(self.last, part.stop),
                ..*part
            },
        }
    }
}
