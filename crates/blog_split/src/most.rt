//! How many maps and rows events a statement of a log has at most.

ghost use Rattle.std.specs.Prelude.{◌≡◌, ◌<◌, ◌≤◌, ℕ, Some, length};
ghost use Rattle.blog_trans.specs.Groups.{PlacedStatement};
ghost use Rattle.blog_trans.specs.code.IndexView.{index_groups, statement_at};
ghost use Rattle.blog_split.specs.code.Sizes.{IsAmongMost};

use blog_trans::Index;
use std::alloc::Allocator;

/// How many maps a statement has at most, and how many rows events.
#[derive(Clone, Copy, Debug)]
pub(crate) struct Most {
    pub(crate) maps: usize,
    pub(crate) rows: usize,
}

/// The most with a statement of so many maps and rows events.
fn with_statement(most: Most, maps: usize, rows: usize) -> Most
    ensures maps { most.maps ≤ result.maps }
    ensures rows { most.rows ≤ result.rows }
    ensures own_maps { maps ≤ result.maps }
    ensures own_rows { rows ≤ result.rows }
{
    Most {
        maps: most.maps.max(maps),
        rows: most.rows.max(rows),
    }
}

/// The most that a statement of transaction `t` has, or as many as `least`.
fn most_in<B: Allocator>(index: &Index<'_, '_, B>, t: usize, least: Most) -> Most
    requires { t < length (index_groups index.now) }
    ensures maps { least.maps ≤ result.maps }
    ensures rows { least.rows ≤ result.rows }
    ensures each { (s : ℕ) (y : PlacedStatement) → statement_at (index_groups index.now) t s ≡ Some y → IsAmongMost result y }
{
    let mut most = least;
    let statements = index.statements(t);
    let mut s = 0;
    'statements: while s < statements {
        most = with_statement(most, index.maps(t, s), index.rows(t, s));
        s += 1;
    }
    most
}

/// The most that a statement has.
pub(crate) fn most_of<B: Allocator>(index: &Index<'_, '_, B>) -> Most
    ensures { (t s : ℕ) (y : PlacedStatement) → statement_at (index_groups index.now) t s ≡ Some y → IsAmongMost result y }
{
    let mut most = Most { maps: 0, rows: 0 };
    let transactions = index.transactions();
    let mut t = 0;
    'transactions: while t < transactions {
        most = most_in(index, t, most);
        t += 1;
    }
    most
}
