//! What is promised of a log that is printed as SQL.

ghost use Rattle.std.specs.Prelude.{ℕ, List, length};
ghost use Rattle.std.specs.List.{AllByRecursion};
ghost use Rattle.blog_event.specs.File.{AreBytes};
ghost use Rattle.blog_trans.specs.Groups.{Transaction};
ghost use Rattle.blog_sql.specs.Changed.{changed_groups};
ghost use Rattle.blog_sql.specs.Laws.{AreReadBack};
ghost use Rattle.blog_sql.specs.ReadBack.{IsReadBack, binlogs_of_groups};
ghost use Rattle.blog_sql.specs.declared.options.SqlOptions.{SqlOptions};

/// What stands between the quotes of a `BINLOG` decodes to the bytes that it was made of, and has no quote, backslash or semicolon.
/// The call does nothing.
pub fn binlogs_are_read_back()
    ensures { (bytes : List ℕ) → AreBytes bytes → AreReadBack bytes }
{}

/// Split into lines, the whole text has these BINLOGs, in order: the format description, and the events of each statement at their
/// positions. All other lines are fixed. What is encoded must be bytes. The call does nothing.
pub fn texts_are_read_back()
    ensures { (how : SqlOptions) → (front : List ℕ) → (ts : List Transaction) → AreBytes front
        → AllByRecursion AreBytes (binlogs_of_groups (length front) (changed_groups how ts)) → IsReadBack how front ts }
{}
