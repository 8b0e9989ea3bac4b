//! What is promised of texts that are printed.

ghost use Rattle.std.specs.Prelude.{◌≡◌, ◌≤◌, ◌+◌, List, length, ℕ};
ghost use Rattle.blog_trans.specs.Changes.{TableCount};
ghost use Rattle.blog_text.specs.Escapes.{beginning, escaped, marks};
ghost use Rattle.blog_text.specs.Laws.{IsWithin, all_columns};
ghost use Rattle.blog_text.specs.Tables.{count_columns, more_text};

/// A text that fits in the columns, and has no more than this many characters, is printed whole, escaped. The call does nothing.
pub fn short_texts_are_whole()
    ensures { (columns characters : ℕ) (text : List ℕ) → all_columns (marks text) ≤ columns → length (marks text) ≤ characters → beginning columns characters (marks text) ≡ escaped text }
{}

/// The tables of a unit in a line: the first, as many others as are printed, and the number of the rest fit in the room, if the
/// first fits with the number of the others. The call does nothing.
pub fn shown_tables_fit()
    ensures { (room : ℕ) (c : TableCount) (cs : List TableCount) → count_columns c + length (more_text (length cs)) ≤ room → (k : ℕ) × IsWithin room k c cs }
{}
