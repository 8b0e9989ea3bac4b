//! Texts that are made before they are appended, kept from one to the next.

use crate::forms::RowStyle;
use blog_list::time_text;
use blog_text::put_text;
use std::alloc::{AllocError, Allocator};

/// Texts of values that are made before they are appended.
#[derive(Drop)]
pub(crate) struct Scratch<A: Allocator> {
    /// A text that isn't in the log as it is shown.
    pub(crate) text: Vec<u8, A>,
    /// The same text once more, with its quotes doubled or without what is no character.
    pub(crate) changed: Vec<u8, A>,
    /// The time of a value that was shown last.
    pub(crate) clock: Clock<A>,
}

/// The time that a clock showed last.
#[derive(Drop)]
pub(crate) struct Clock<A: Allocator> {
    seconds: Option<u32>,
    text: Vec<u8, A>,
}

impl<A: Allocator> Clock<A> {
    /// Returns a clock that showed none.
    pub(crate) fn new(alloc: A) -> Clock<A> {
        Clock {
            seconds: None,
            text: Vec::new(alloc),
        }
    }

    /// Forgets the time, as it was shown in another zone.
    pub(crate) fn forget(&mut self) {
        self.seconds = None;
    }

    /// Appends a time since 1970 as the clock shows it in the zone of a style.
    pub(crate) fn put<B: Allocator>(
        &mut self,
        out: &mut Vec<u8, B>,
        style: &RowStyle<'_>,
        seconds: u32,
    ) -> Result<(), AllocError> {
        if self.seconds != Some(seconds) {
            self.seconds = None;
            self.text.clear();
            put_text(&mut self.text, time_text(style.zone, seconds).as_bytes())?;
            self.seconds = Some(seconds);
        }
        put_text(out, &self.text)
    }
}
