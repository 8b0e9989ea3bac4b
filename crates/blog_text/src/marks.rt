//! The characters of bytes that may be text.

use bstr::decode_utf8;

/// What stands in bytes: a character, or a byte that is part of none.
#[derive(Clone, Copy, Debug)]
pub(crate) enum Mark {
    /// A character.
    Character(char),
    /// A byte that is part of no character.
    Byte(u8),
}

/// The marks of bytes that are left.
#[derive(Clone, Copy, Debug)]
pub(crate) struct Marks<'t> {
    rest: &'t [u8],
}

impl<'t> Marks<'t> {
    ghost use Rattle.std.specs.Prelude.{◌≡◌};
    ghost use Rattle.blog_text.specs.Escapes.{marks};
    ghost use Rattle.blog_text.specs.code.MarksView.{marks_left};

    /// The marks of a text.
    pub(crate) fn new(text: &'t [u8]) -> Marks<'t>
        ensures { marks_left result ≡ marks text.now }
    {
        Marks { rest: text }
    }
}

impl<'t> Iterator for Marks<'t> {
    type Item = Mark;

    ghost use Rattle.std.specs.Prelude.{length};
    ghost use Rattle.std.specs.Iterator.{YieldsFirst, at_most};
    ghost use Rattle.blog_text.specs.code.MarksView.{marks_left, bytes_left};

    ghost next_gives = { YieldsFirst marks_left };

    ghost remaining = { λ left. at_most (bytes_left left) };

    fn next(&mut self) -> Option<Mark> {
        let rest = self.rest;
        let first = *rest.first()?;
        match decode_utf8(rest) {
            (Some(c), size) => {
                self.rest = &rest[size..];
                Some(Mark::Character(c))
            }
            (None, _) => {
                self.rest = &rest[1..];
                Some(Mark::Byte(first))
            }
        }
    }
}
