//! The beginning of a statement's text.

use bstr::ByteSlice;
use std::fmt;
use unicode_width::UnicodeWidthChar;

/// The beginning of a text on one line, no wider than so many columns. Control characters are printed as spaces, and what is
/// no character as U+FFFD.
#[derive(Clone, Copy, Debug)]
pub(crate) struct Beginning<'t> {
    pub(crate) text: &'t [u8],
    pub(crate) columns: usize,
}

impl<'t> fmt::Display for Beginning<'t> {
    fn fmt<W: fmt::Write>(&self, f: &mut fmt::Formatter<W>) -> fmt::Result {
        let mut width = 0_usize;
        for c in self.text.chars() {
            let shown = if c.is_control() { ' ' } else { c };
            width = width.saturating_add(shown.width().unwrap_or(0));
            if width > self.columns {
                return f.write_str("..");
            }
            f.write_char(shown)?;
        }
        Ok(())
    }
}
