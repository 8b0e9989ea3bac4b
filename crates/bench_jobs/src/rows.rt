//! Rows events of a table.

use crate::events::Events;
use crate::random::Source;
use crate::sums::Ending;
use crate::tables::{Column, Table, put_packed};
use std::alloc::{AllocError, Global};

/// What rows events do.
#[derive(Clone, Copy)]
pub enum Action {
    Insert,
    Update,
    Delete,
}

impl Action {
    /// The number of its events' type.
    fn kind(self) -> u8 {
        match self {
            Action::Insert => 30,
            Action::Update => 31,
            Action::Delete => 32,
        }
    }

    /// How many images a row has.
    fn images(self) -> usize {
        match self {
            Action::Insert | Action::Delete => 1,
            Action::Update => 2,
        }
    }
}

/// How large rows events are made, and of what.
#[derive(Clone, Copy)]
pub struct Sizes {
    /// How many different ones there are.
    pub bodies: usize,
    /// They have rows till they have this many bytes..
    pub least: u64,
    /// ..and up to as many more.
    pub more: u64,
    /// Of how many columns of 256 the value is NULL, but for optional ones.
    pub nulls: u8,
    /// The first ones of these are the columns of the shop's tables.
    pub columns: &'static [Column; 40],
}

/// Bodies of rows events of one table.
#[derive(Drop)]
pub struct Bodies {
    table: u32,
    map: Vec<u8>,
    kind: u8,
    bytes: Vec<u8>,
    ends: Vec<usize>,
    /// What is known of each behind those four bytes.
    endings: Vec<Ending>,
    /// Where the first four bytes of the first row's first value are in each.
    key: usize,
}

/// What a body has before its rows: the table's id, flags, and which columns there are.
fn head_of(alloc: Global, table: &Table<'_>, action: Action) -> Result<Vec<u8>, AllocError> {
    let mut head = Vec::new(alloc);
    head.extend_from_slice(&table.id.to_le_bytes())?;
    head.extend_from_slice(&[0, 0, 0, 0, 2, 0])?;
    put_packed(&mut head, table.columns.len())?;
    let bits = table.columns.len().div_ceil(8);
    for _ in 0..action.images() {
        for _ in 0..bits {
            head.push(0xFF)?;
        }
    }
    Ok(head)
}

impl Bodies {
    /// Makes bodies of these sizes.
    pub fn new(
        alloc: Global,
        source: &mut Source,
        table: &Table<'_>,
        action: Action,
        sizes: Sizes,
    ) -> Result<Bodies, AllocError> {
        let head = head_of(alloc, table, action)?;
        let mut bodies = Bodies {
            table: table.id,
            map: table.map_body(alloc)?,
            kind: action.kind(),
            bytes: Vec::new(alloc),
            ends: Vec::new(alloc),
            endings: Vec::new(alloc),
            key: head.len().wrapping_add(table.columns.len().div_ceil(8)),
        };
        let mut values = Vec::new(alloc);
        for _ in 0..sizes.bodies {
            let most = sizes.least.wrapping_add(source.below(sizes.more)) as usize;
            let start = bodies.bytes.len();
            bodies.bytes.extend_from_slice(&head)?;
            let end = bodies.bytes.len().wrapping_add(most);
            // no row has less than a byte
            for _ in 0..most {
                for _ in 0..action.images() {
                    table.put_image(source, sizes.nulls, &mut values, &mut bodies.bytes)?;
                }
                if bodies.bytes.len() >= end {
                    break;
                }
            }
            bodies.ends.push(bodies.bytes.len())?;
            let rest = start.wrapping_add(bodies.key).wrapping_add(4);
            let rest = bodies.bytes.as_slice().get(rest..).unwrap_or(&[]);
            bodies.endings.push(Ending::new(rest))?;
        }
        Ok(bodies)
    }

    /// That of this number.
    fn body(&self, number: usize) -> &[u8] {
        let ends = self.ends.as_slice();
        let start = match number.checked_sub(1) {
            Some(before) => ends.get(before).copied().unwrap_or(0),
            None => 0,
        };
        let end = ends.get(number).copied().unwrap_or(0);
        self.bytes.as_slice().get(start..end).unwrap_or(&[])
    }

    /// Appends the map of the table.
    pub fn put_map(&self, events: &mut Events) -> Result<(), AllocError> {
        events.put(19, 0, &[&self.map])
    }

    /// Appends a rows event, with a new value in its first row.
    pub fn put_rows(
        &self,
        source: &mut Source,
        events: &mut Events,
        last: bool,
    ) -> Result<(), AllocError> {
        self.put_rows_of(self.table, source, events, last)
    }

    /// Appends a rows event of a table with this id and the same columns, with a new value in its first row.
    pub fn put_rows_of(
        &self,
        table: u32,
        source: &mut Source,
        events: &mut Events,
        last: bool,
    ) -> Result<(), AllocError> {
        let number = source.index(self.ends.len());
        let body = self.body(number);
        let [first, second, third, fourth] = table.to_le_bytes();
        let front = [first, second, third, fourth, 0, 0, last as u8, 0];
        let middle = body.get(8..self.key).unwrap_or(&[]);
        let rest = body.get(self.key.wrapping_add(4)..).unwrap_or(&[]);
        let body: [&[u8]; 3] = [&front, middle, &source.four()];
        match self.endings.as_slice().get(number) {
            Some(ending) => events.put_ending(self.kind, 0, &body, rest, ending),
            None => Ok(()),
        }
    }

    /// Appends a statement: a map, and rows events till the log has so many bytes; at least one.
    pub fn put_statement(
        &self,
        source: &mut Source,
        events: &mut Events,
        end: usize,
    ) -> Result<(), AllocError> {
        self.put_map(events)?;
        for _ in events.len()..end {
            if events.len() >= end {
                break;
            }
            self.put_rows(source, events, false)?;
        }
        self.put_rows(source, events, true)
    }
}
