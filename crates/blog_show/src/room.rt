//! What lines are made of, kept from one to the next.

use crate::csv_rows::Head;
use crate::forms::{RowForm, RowStyle};
use crate::scratch::{Clock, Scratch};
use crate::tables::LastMap;
use crate::{csv_rows, json_rows, line_rows};
use blog_row::{RowChange, StoredLayout};
use blog_trans::GroupRows;
use std::alloc::{AllocError, Allocator, Global};

/// What a line is made of, before it is appended, and the head of columns that CSV had last: it isn't repeated in front of further rows,
/// also of another log.
#[derive(Drop)]
pub struct LineRoom<A: Allocator = Global> {
    /// What each line of an event begins with.
    pub(crate) begin: Vec<u8, A>,
    pub(crate) parts: Parts<A>,
    pub(crate) head: Head<A>,
}

/// The parts of a line.
#[derive(Drop)]
pub(crate) struct Parts<A: Allocator> {
    /// What each line of an event tells behind its place, before the columns.
    pub(crate) told: Vec<u8, A>,
    /// What the second line of each row of an update begins with in CSV.
    second: Vec<u8, A>,
    /// The columns of a row.
    pub(crate) line: Vec<u8, A>,
    /// The time of an event that was shown last.
    clock: Clock<A>,
    scratch: Scratch<A>,
}

impl<A: Allocator> LineRoom<A> {
    /// Returns an empty one.
    pub fn new(alloc: A) -> LineRoom<A>
    where
        A: Copy,
    {
        LineRoom {
            begin: Vec::new(alloc),
            parts: Parts {
                told: Vec::new(alloc),
                second: Vec::new(alloc),
                line: Vec::new(alloc),
                clock: Clock::new(alloc),
                scratch: Scratch {
                    text: Vec::new(alloc),
                    changed: Vec::new(alloc),
                    clock: Clock::new(alloc),
                },
            },
            head: Head::none(alloc),
        }
    }
}

impl<A: Allocator> Parts<A> {
    /// Forgets times as another style may have shown them.
    pub(crate) fn forget(&mut self) {
        self.clock.forget();
        self.scratch.clock.forget();
    }

    /// Puts what each line of an event tells before the columns in place of what is there.
    pub(crate) fn tell(
        &mut self,
        place: u32,
        group: &GroupRows<'_>,
        style: &RowStyle<'_>,
    ) -> Result<(), AllocError> {
        self.told.clear();
        match style.form {
            RowForm::Lines => line_rows::put_told(&mut self.told, &mut self.clock, group, style),
            RowForm::Json { .. } => {
                json_rows::put_told(&mut self.told, &mut self.clock, group, style)
            }
            RowForm::Csv => {
                self.second.clear();
                csv_rows::put_second(&mut self.second, &mut self.clock, place, group, style)?;
                csv_rows::put_told(&mut self.told, &mut self.clock, group, style)
            }
        }
    }

    /// Puts the columns of a row in place of those that are there.
    pub(crate) fn fill<B: Allocator>(
        &mut self,
        map: &LastMap<'_, B>,
        layout: &StoredLayout<'_>,
        row: &RowChange<'_>,
        style: &RowStyle<'_>,
    ) -> Result<(), AllocError> {
        let out = &mut self.line;
        let scratch = &mut self.scratch;
        out.clear();
        match style.form {
            RowForm::Lines => line_rows::put_row(out, scratch, map, layout, row, style),
            RowForm::Json { .. } => json_rows::put_row(out, scratch, map, layout, row, style),
            RowForm::Csv => {
                csv_rows::put_row(out, scratch, &self.second, map, layout, row, style)
            }
        }
    }
}
