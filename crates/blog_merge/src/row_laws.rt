//! What is promised of the values that rows have after a merge.

ghost use Rattle.std.specs.Prelude.{◌≡◌, List};
ghost use Rattle.blog_merge.specs.Columns.{RestoresColumns};
ghost use Rattle.blog_merge.specs.Laws.{IsMergedRow};
ghost use Rattle.blog_merge.specs.Merge.{merged};
ghost use Rattle.blog_row.specs.Image.{Row};
ghost use Rattle.blog_undo.specs.Mixed.{Marked};

/// An update is made to another row column by column. The call does nothing.
pub fn rows_are_merged_by_column()
    ensures { (before after other : Row) → IsMergedRow before after other (merged before after other) }
{}

/// An update made to the row itself gives the row after it. The call does nothing.
pub fn own_row_is_updated()
    ensures { (before after : Row) → merged before after before ≡ after }
{}

/// If no later update changes a column, each row has a value there in the end that a row had at first or that others inserted, and
/// none that only a selected change put there. The call does nothing.
pub fn columns_are_restored()
    ensures { (ms : List Marked) → RestoresColumns ms }
{}
