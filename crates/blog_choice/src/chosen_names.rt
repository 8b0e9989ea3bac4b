//! Whether a statement names a chosen table.

ghost use Rattle.std.specs.Prelude.{◌≡◌, Bool, List, false, true, filter_map, map, ℕ, IfOk};
ghost use Rattle.std.specs.List.{list_any};
ghost use Rattle.std.specs.Option.{option_copied, option_map_or, option_or};
ghost use Rattle.blog_choice.specs.Naming.{has_name, names_chosen, names_table};
ghost use Rattle.blog_choice.specs.code.ChosenNaming.{is_of_any_schema, schemas_of, tables_of};
ghost use Rattle.blog_choice.specs.code.NameSetView.{set_names};
ghost use Rattle.blog_choice.specs.code.Sets.{words_of};
ghost use Rattle.blog_choice.specs.code.Views.{name_value};

use crate::choice::{TableChoice, TableName};
use crate::name_set::NameSet;
use crate::naming::{changes_what_it_names, has_name, is_about_schemas};
use std::alloc::{AllocError, Allocator, Global};

/// The names of a choice, made ready to be looked for in statements.
#[derive(Drop)]
pub struct ChosenNames<'c, A: Allocator = Global> {
    choice: TableChoice<'c>,
    // The names of the chosen tables, and of their schemas.
    tables: NameSet<'c, A>,
    schemas: NameSet<'c, A>,
    // Whether one of the tables is of any schema.
    any_schema: bool,
    ghost named: { (test : List ℕ → Bool) → list_any test (set_names tables) ≡ list_any test (tables_of (map name_value choice.tables.now)) },
    ghost within: { (test : List ℕ → Bool) → list_any test (set_names schemas) ≡ list_any test (schemas_of (option_copied choice.database) (map name_value choice.tables.now)) },
    ghost anywhere: { any_schema ≡ list_any (is_of_any_schema (option_copied choice.database)) (map name_value choice.tables.now) },
}

/// Returns the names of tables.
fn table_names<'c, A: Allocator>(
    alloc: A,
    tables: &[TableName<'c>],
) -> Result<Vec<&'c [u8], A>, AllocError>
    ensures { IfOk result (λ names. words_of names.items ≡ tables_of (map name_value tables.now)) }
{
    let mut names = Vec::new(alloc);
    for name in tables {
        names.push(name.table)?;
    }
    Ok(names)
}

/// Returns the names of the schemas of tables, of those that have one. It is `database` if a table's name has none.
fn schema_names<'c, A: Allocator>(
    alloc: A,
    tables: &[TableName<'c>],
    database: Option<&'c [u8]>,
) -> Result<Vec<&'c [u8], A>, AllocError>
    ensures { IfOk result (λ names. words_of names.items ≡ schemas_of (option_copied database.entry) (map name_value tables.now)) }
{
    let mut names = Vec::new(alloc);
    for name in tables {
        if let Some(schema) = name.schema.or(database) {
            names.push(schema)?;
        }
    }
    Ok(names)
}

/// Returns whether one of the tables is of any schema.
fn is_any_of_any_schema(tables: &[TableName<'_>], database: Option<&[u8]>) -> bool
    ensures { result ≡ list_any (is_of_any_schema (option_copied database.entry)) (map name_value tables.now) }
{
    tables.iter().any(|name| name.schema.or(database).is_none())
}

impl<'c, A: Allocator + Copy> ChosenNames<'c, A> {
    ghost use Rattle.blog_choice.specs.code.ChosenView.{names_choice};
    ghost use Rattle.blog_choice.specs.code.Views.{choice_value};

    /// Returns the names of a choice. Fails if out of memory.
    pub fn new(alloc: A, choice: &TableChoice<'c>) -> Result<Self, AllocError>
        ensures { IfOk result (λ names. names_choice names ≡ choice_value choice.now) }
    {
        let tables = NameSet::new(alloc, table_names(alloc, choice.tables)?)?;
        let schemas = NameSet::new(alloc, schema_names(alloc, choice.tables, choice.database)?)?;
        let any_schema = is_any_of_any_schema(choice.tables, choice.database);
        Ok(ChosenNames {
            choice: *choice,
            tables,
            schemas,
            any_schema,
        })
    }

    /// Returns the choice.
    pub fn choice(&self) -> TableChoice<'c>
        ensures { choice_value result ≡ names_choice self.now }
    {
        self.choice
    }

    /// Returns whether a text has the schema of one of the chosen tables, or one of them is of any schema.
    fn has_any_schema(&self, text: &[u8], twins: bool) -> bool
        ensures { result ≡ list_any (λ name. option_map_or (has_name twins text.now) (option_or name.schema (option_copied self.now.choice.database)) true) (map name_value self.now.choice.tables.now) }
    {
        self.any_schema || self.schemas.is_in(text, twins)
    }

    /// Returns whether a text names one of the chosen tables, or its schema if the text is about schemas.
    fn is_any_named(&self, text: &[u8], twins: bool) -> bool
        ensures { result ≡ list_any (names_table twins (option_copied self.now.choice.database) text.now) (map name_value self.now.choice.tables.now) }
    {
        self.tables.is_in(text, twins) || is_about_schemas(text) && self.has_any_schema(text, twins)
    }

    /// Returns whether a statement names a chosen table. In doubt it does.
    ///
    /// `text` is the statement's text, and `default_schema` the schema that it runs in. `inside` says whether it is inside a
    /// transaction: between `BEGIN` or `XA START` and the end. `twins` says whether its client's character set is armscii8,
    /// sjis or ujis.
    ///
    /// - A statement can change tables that it doesn't name, through a trigger, a view or a cascade. So it names every table,
    ///   unless its first word is ALTER, ANALYZE, CREATE, DROP, FLUSH, GRANT, OPTIMIZE, RENAME, REPAIR, REVOKE, TRUNCATE
    ///   or XA. Inside a transaction it names every table, unless its first two words are CREATE TABLE. A text that begins
    ///   with a comment has no first word.
    /// - It names one of `tables` if its text has the table's name. It also does if its text has the word DATABASE or SCHEMA
    ///   and the schema's name. A name without a schema is in `database`; without a `database`, one of these two words is
    ///   enough.
    /// - If `tables` is empty, it names a table of `database` if that is its default schema, or if its text has that name. If
    ///   there is no `database` either, it names every table.
    ///
    /// A text has a name if the name is in it as a word: ASCII letters are compared without case, and no letter, digit, `_`
    /// or `$` is beside it. Every text has a name that can be spelled in other bytes: an empty one, one with a backtick, `"`
    /// or a byte from 128 on, and if `twins` is true, one with `'`, `(`, `)`, `,`, `-`, `.` or `\`. `excluded` has no effect.
    ///
    /// How long it takes depends on the text, and hardly on how many tables are chosen.
    #[tactic(auto, unfolding(crate::specs::Naming::names_chosen))]
    pub fn is_named(&self, default_schema: &[u8], text: &[u8], inside: bool, twins: bool) -> bool
        ensures { result ≡ names_chosen (names_choice self.now) default_schema.now text.now inside twins }
    {
        if !changes_what_it_names(text, inside) {
            return true;
        }
        if !self.choice.tables.is_empty() {
            return self.is_any_named(text, twins);
        }
        match self.choice.database {
            Some(name) => default_schema == name || has_name(text, name, twins),
            None => true,
        }
    }
}
