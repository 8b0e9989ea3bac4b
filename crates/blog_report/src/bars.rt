//! The bars of the picture.

use crate::cells::interval_of;
use crate::sums::RowSums;
use crate::timeline::Timeline;
use std::alloc::{AllocError, Allocator};

/// No interval of seconds of 32 bits is doubled more often.
const MOST_DOUBLINGS: u32 = 32;

/// The bars of the picture, each for an interval of time.
#[derive(Drop)]
pub(crate) struct Bars<A: Allocator> {
    /// How many intervals there are from 1970 to the first bar.
    pub(crate) first: u32,
    /// How many seconds an interval has.
    pub(crate) seconds: u32,
    /// How many intervals of the timeline it has.
    pub(crate) factor: u32,
    /// The rows in each.
    pub(crate) sums: Vec<RowSums, A>,
}

/// How many intervals there are from one to another.
fn count_of(first: u32, last: u32, factor: u32) -> u32 {
    if factor == 0 {
        return 0;
    }
    (last / factor)
        .saturating_sub(first / factor)
        .saturating_add(1)
}

/// Returns by which power of two intervals are made longer, so that there are at most so many.
fn factor_of(first: u32, last: u32, most: u32) -> u32 {
    let mut factor = 1_u32;
    for _ in 0..MOST_DOUBLINGS {
        if count_of(first, last, factor) <= most {
            return factor;
        }
        factor = factor.saturating_mul(2);
    }
    factor
}

/// Adds rows at a place of a list, if it has that.
pub(crate) fn add_at<A: Allocator>(list: &mut Vec<RowSums, A>, place: usize, rows: RowSums) {
    if let Some(sums) = list.get_mut(place) {
        *sums = sums.plus(rows);
    }
}

/// Returns at most so many bars with the rows of a timeline.
pub(crate) fn bars_of<A: Allocator + Copy>(
    alloc: A,
    timeline: &Timeline<A>,
    most: u32,
) -> Result<Bars<A>, AllocError> {
    let interval = timeline.interval().max(1);
    let Some((first, last)) = timeline.range() else {
        return Ok(Bars {
            first: 0,
            seconds: interval,
            factor: 1,
            sums: Vec::new(alloc),
        });
    };
    let (first, last) = (first / interval, last / interval);
    let factor = factor_of(first, last, most).max(1);
    let count = count_of(first, last, factor).min(most);
    let mut bars = Bars {
        first: first / factor,
        seconds: interval.saturating_mul(factor),
        factor,
        sums: vec![in alloc; RowSums::none(); count as usize]?,
    };
    for (key, rows) in timeline.cells().iter() {
        let bar = bars.place_of(interval_of(*key));
        add_at(&mut bars.sums, bar, *rows);
    }
    Ok(bars)
}

impl<A: Allocator> Bars<A> {
    /// Returns the number of the bar that has an interval of the timeline.
    pub(crate) fn place_of(&self, interval: u32) -> usize {
        (interval / self.factor.max(1)).saturating_sub(self.first) as usize
    }

    /// Returns when a bar begins, in seconds since 1970.
    pub(crate) fn start_of(&self, bar: usize) -> u32 {
        let number = u64::from(self.first).saturating_add(bar as u64);
        let seconds = number.saturating_mul(u64::from(self.seconds));
        u32::try_from(seconds).unwrap_or(u32::MAX)
    }

    /// Returns the most rows that a bar has.
    pub(crate) fn most_rows(&self) -> u64 {
        let mut most = 0_u64;
        for sums in &self.sums {
            most = most.max(sums.rows());
        }
        most
    }
}
