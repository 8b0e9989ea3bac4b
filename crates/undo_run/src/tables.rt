//! The tables whose rows a part changes.

ghost use Rattle.std.specs.Prelude.{◌≡◌, ◌++◌, ◌∷◌, IfOk, OnOk, [], map};
ghost use Rattle.blog_choice.specs.code.Views.{name_value};
ghost use Rattle.blog_text.specs.code.Counted.{counts_in};
ghost use Rattle.blog_trans.specs.code.IndexView.{table_counted};
ghost use Rattle.undo_run.specs.Taken.{names_of};

use crate::part::has_some;
use blog_choice::TableName;
use blog_trans::{Index, TableCount};
use std::alloc::{AllocError, Allocator};

/// Appends the name of a table, if rows of it are changed.
fn put_name<'l, A: Allocator>(
    names: &mut Vec<TableName<'l>, A>,
    count: &TableCount<'l>,
) -> Result<(), AllocError>
    ensures { OnOk result (map name_value names.new.items ≡ map name_value names.old.items ++ names_of (table_counted count.now ∷ [])) }
{
    if has_some(count) {
        names.push(TableName {
            schema: Some(count.schema),
            table: count.table,
        })?;
    }
    Ok(())
}

/// Returns the names of the tables whose rows an index changes.
pub(crate) fn tables_named<'l, A: Allocator, B: Allocator>(
    alloc: A,
    index: &Index<'l, '_, B>,
) -> Result<Vec<TableName<'l>, A>, AllocError>
    ensures { IfOk result (λ names. map name_value names.items ≡ names_of (counts_in index.now)) }
{
    let mut names = Vec::new(alloc);
    for n in 0..index.tables() {
        put_name(&mut names, &index.table(n))?;
    }
    Ok(names)
}
