//! Which maps of a statement the open piece uses: their numbers, and a flag for each map of the statement.

ghost use Rattle.std.specs.Prelude.{◌≡◌, ◌+◌, ◌<◌, ◌≤◌, ℕ, List, [], ◌++◌, length, IfSome, option_to_list, vec_len, vec_capacity};
ghost use Rattle.blog_split.specs.code.Marks.{AreFlags, IsNew, IsUnmarked};

use std::alloc::Allocator;

/// Adds a flag for one more map, which the piece doesn't use.
pub(crate) fn push_flag<A: Allocator>(flags: &mut Vec<bool, A>)
    requires { vec_len flags.old < vec_capacity flags.old }
    ensures flags { (numbers : List ℕ) → AreFlags numbers flags.old.items → AreFlags numbers flags.new.items }
    ensures len { vec_len flags.new ≡ vec_len flags.old + 1 }
    ensures capacity { vec_capacity flags.old ≤ vec_capacity flags.new }
{
    flags.push(false).unwrap();
}

/// The number of a map, if there is one and the piece doesn't use it yet.
pub(crate) fn unmarked(flags: &[bool], number: Option<usize>) -> Option<usize>
    requires { IfSome number (λ n. n < length flags.now) }
    ensures { IsUnmarked flags.now number result }
{
    let number = number?;
    if flags[number] {
        return None;
    }
    Some(number)
}

/// Marks a map that the piece doesn't use yet, if there is one.
pub(crate) fn mark<A: Allocator>(
    used: &mut Vec<usize, A>,
    flags: &mut [bool],
    number: Option<usize>,
)
    requires room { length flags.old ≤ vec_capacity used.old }
    requires new { IsNew flags.old number }
    requires flags { AreFlags used.old.items flags.old }
    ensures items { used.new.items ≡ used.old.items ++ option_to_list number }
    ensures flags { AreFlags used.new.items flags.new }
    ensures capacity { vec_capacity used.old ≤ vec_capacity used.new }
{
    if let Some(number) = number {
        used.push(number).unwrap();
        flags[number] = true;
    }
}

/// Takes all marks back.
pub(crate) fn unmark<A: Allocator>(used: &mut Vec<usize, A>, flags: &mut [bool])
    requires { AreFlags used.old.items flags.old }
    ensures items { used.new.items ≡ [] }
    ensures flags { AreFlags used.new.items flags.new }
    ensures capacity { vec_capacity used.old ≤ vec_capacity used.new }
{
    for number in used.iter() {
        flags[*number] = false;
    }
    used.clear();
}
