//! The columns of the tables whose rows are shown.

use crate::forms::RowForm;
use crate::labels::{Naming, naming_of, put_label};
use blog_columns::{Column, read_columns, text_at};
use blog_row::Layout;
use std::alloc::{AllocError, Allocator, Global};

/// Some of several items that stand one after another.
#[derive(Clone, Copy, Debug)]
struct Span {
    start: usize,
    end: usize,
}

impl Span {
    /// The bytes that these are.
    fn of<'b>(&self, bytes: &'b [u8]) -> &'b [u8] {
        match bytes.get(self.start..self.end) {
            Some(some) => some,
            None => &[],
        }
    }
}

/// A column, with what of it is made ready to be shown.
#[derive(Clone, Copy, Debug)]
pub(crate) struct ShownColumn<'a> {
    pub(crate) column: Column<'a>,
    /// Whether it is shown although an update leaves it: it is one of the primary key, or if that isn't known, the first.
    pub(crate) names_row: bool,
    /// Where its name is among the labels.
    label: Span,
    /// Where the texts of an ENUM or a SET are among those of the table.
    members: Span,
}

/// The table map that was read last, and its columns.
#[derive(Drop)]
pub struct LastMap<'a, A: Allocator = Global> {
    body: &'a [u8],
    naming: Naming,
    pub(crate) columns: Vec<ShownColumn<'a>, A>,
    /// The names of the columns, one after another, as they stand in front of values.
    pub(crate) labels: Vec<u8, A>,
    /// The texts of its ENUM and SET columns, one after another.
    members: Vec<&'a [u8], A>,
}

/// Whether one of some columns is known to be of the primary key.
fn has_key(columns: &[Column<'_>]) -> bool {
    columns.iter().any(|column| column.is_key)
}

/// Whether a column that an update leaves is shown.
fn names_row(column: &Column<'_>, n: usize, has_key: bool) -> bool {
    if has_key { column.is_key } else { n == 0 }
}

/// Appends the texts of an ENUM or a SET, each of which stands after its packed length.
fn put_members<'a, A: Allocator>(
    members: &mut Vec<&'a [u8], A>,
    texts: Option<&'a [u8]>,
) -> Result<(), AllocError> {
    let Some(bytes) = texts else {
        return Ok(());
    };
    let mut rest = bytes;
    'texts: while let Some(text) = text_at(rest) {
        members.push(text.text)?;
        rest = text.rest;
    }
    Ok(())
}

impl<'a, A: Allocator> LastMap<'a, A> {
    /// The name of a column, as it stands in front of a value.
    pub(crate) fn label(&self, column: &ShownColumn<'a>) -> &[u8] {
        column.label.of(&self.labels)
    }

    /// A text of an ENUM or a SET by its number, from 0 on, if the map has it.
    pub(crate) fn member(&self, column: &ShownColumn<'a>, number: u64) -> Option<&'a [u8]> {
        let n = usize::try_from(number).ok()?;
        let at = column.members.start.checked_add(n)?;
        if at >= column.members.end {
            return None;
        }
        self.members.get(at).copied()
    }

    /// Makes a column ready, which is the nth from 0 on.
    fn add(
        &mut self,
        naming: Naming,
        column: &Column<'a>,
        n: usize,
        has_key: bool,
    ) -> Result<(), AllocError> {
        let label = self.labels.len();
        put_label(&mut self.labels, naming, column, n)?;
        let member = self.members.len();
        put_members(&mut self.members, column.members)?;
        self.columns.push(ShownColumn {
            column: *column,
            names_row: names_row(column, n, has_key),
            label: Span {
                start: label,
                end: self.labels.len(),
            },
            members: Span {
                start: member,
                end: self.members.len(),
            },
        })?;
        Ok(())
    }

    /// Makes columns ready in place of those that are there.
    fn fill(&mut self, naming: Naming, columns: &[Column<'a>]) -> Result<(), AllocError> {
        self.columns.clear();
        self.labels.clear();
        self.members.clear();
        let has_key = has_key(columns);
        for n in 0..columns.len() {
            self.add(naming, &columns[n], n, has_key)?;
        }
        Ok(())
    }
}

impl<'a, A: Allocator + Copy> LastMap<'a, A> {
    /// Returns none.
    pub fn none(alloc: A) -> LastMap<'a, A> {
        LastMap {
            body: &[],
            naming: Naming::Lines,
            columns: Vec::new(alloc),
            labels: Vec::new(alloc),
            members: Vec::new(alloc),
        }
    }

    /// Reads a table map, of this body and layout, unless it is like the last one and its names are ready for the form.
    pub(crate) fn read(
        &mut self,
        alloc: A,
        body: &'a [u8],
        layout: &Layout<'a>,
        form: &RowForm<'_>,
    ) -> Result<(), AllocError> {
        let naming = naming_of(form);
        if self.body == body && self.naming == naming {
            return Ok(());
        }
        self.body = &[];
        let columns = read_columns(alloc, body, layout)?;
        self.fill(naming, &columns)?;
        self.naming = naming;
        self.body = body;
        Ok(())
    }
}
