//! What is promised of gathered groups.

ghost use Rattle.std.specs.Prelude.{◌≡◌, ◌≤◌, List, length};
ghost use Rattle.std.specs.List.{AllByRecursion, flat_map};
ghost use Rattle.blog_trans.specs.Changes.{changes};
ghost use Rattle.blog_trans.specs.Groups.{groups};
ghost use Rattle.blog_trans.specs.Selection.{all};
ghost use Rattle.blog_gathered.specs.Gathered.{IsSoundRange, Range, gathered_text, groups_of, range_changes};

/// A log in which the groups of ranges are gathered has these groups, whether it is accepted or not. It isn't if two of the ranges
/// have one table with two layouts. The call does nothing.
pub fn gathered_groups_are_those_of_the_ranges()
    ensures { (first : Range) → (rs : List Range) → IsSoundRange first → AllByRecursion IsSoundRange rs → length (gathered_text first rs) ≤ 4294967295
        → groups (gathered_text first rs) all ≡ groups_of rs }
{}

/// Its changes are those of the ranges, one range after the other. The call does nothing.
pub fn gathered_changes_are_those_of_the_ranges()
    ensures { (first : Range) → (rs : List Range) → IsSoundRange first → AllByRecursion IsSoundRange rs → length (gathered_text first rs) ≤ 4294967295
        → changes (gathered_text first rs) all ≡ flat_map range_changes rs }
{}
