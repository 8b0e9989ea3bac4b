//! What is promised of changes that aren't undone by themselves.

ghost use Rattle.std.specs.Prelude.{◌≡◌, List};
ghost use Rattle.blog_merge.specs.Laws.{outside_of};
ghost use Rattle.blog_undo.specs.Mixed.{Marked};
ghost use Rattle.blog_undo.specs.Part.{SelectsWithin};
ghost use Rattle.blog_untouched.specs.Recorded.{marks_in};
ghost use Rattle.blog_differences.specs.Outside.{outside_by};

/// Without the changes that a part of the selected ones undoes, as their marks say, all changes are those outside of the part. The call does nothing.
pub fn changes_that_are_not_undone_are_those_outside_of_the_part()
    ensures { (ms part : List Marked) → SelectsWithin part ms → outside_by (marks_in ms part) ms ≡ outside_of part ms }
{}
