//! Which tables are chosen.

ghost use Rattle.std.specs.Prelude.{◌≡◌, map};
ghost use Rattle.std.specs.List.{list_any};
ghost use Rattle.std.specs.Option.{option_copied};
ghost use Rattle.blog_choice.specs.Choice.{read_name, chooses_all, is_in, matches, chooses};
ghost use Rattle.blog_choice.specs.code.Views.{name_value, choice_value};

/// The name of a table, compared byte by byte.
#[derive(Clone, Copy, Debug)]
pub struct TableName<'n> {
    /// The name of its schema; None for any schema.
    pub schema: Option<&'n [u8]>,
    /// Its own name.
    pub table: &'n [u8],
}

/// The tables that a user chooses, by name.
#[derive(Clone, Copy, Debug)]
pub struct TableChoice<'c> {
    /// The schema of the chosen tables; None for any schema.
    pub database: Option<&'c [u8]>,
    /// The chosen tables. If there are none, all tables of `database` are chosen.
    pub tables: &'c [TableName<'c>],
    /// Tables that aren't chosen, even if `tables` has them.
    pub excluded: &'c [TableName<'c>],
}

/// Whether a schema is the given one. Any is, if none is given.
fn is_in(given: Option<&[u8]>, schema: &[u8]) -> bool
    ensures { result ≡ is_in (option_copied given.entry) schema.now }
{
    match given {
        Some(name) => schema == name,
        None => true,
    }
}

/// Whether one of the names matches a table. A name without a schema does so in `database`, or in any schema.
fn is_any_matching(
    names: &[TableName<'_>],
    database: Option<&[u8]>,
    schema: &[u8],
    table: &[u8],
) -> bool
    ensures { result ≡ list_any (matches (option_copied database.entry) schema.now table.now) (map name_value names.now) }
{
    names.iter().any(|name| is_in(name.schema.or(database), schema) && table == name.table)
}

impl<'n> TableName<'n> {
    /// Returns the name that `[SCHEMA.]TABLE` spells. The schema ends before the first point.
    #[tactic(auto, unfolding(crate::specs::Choice::read_name))]
    pub fn read(text: &'n [u8]) -> Self
        ensures { name_value result ≡ read_name text.now }
    {
        match text.iter().position(|byte| *byte == b'.') {
            Some(point) => TableName {
                schema: Some(&text[..point]),
                table: &text[point + 1..],
            },
            None => TableName {
                schema: None,
                table: text,
            },
        }
    }
}

impl TableChoice<'_> {
    /// Returns whether nothing is asked for: no schema, no table, and none that is left out.
    #[tactic(auto, unfolding(crate::specs::Choice::chooses_all))]
    pub fn is_all(&self) -> bool
        ensures { result ≡ chooses_all (choice_value self.now) }
    {
        self.database.is_none() && self.tables.is_empty() && self.excluded.is_empty()
    }

    /// Returns whether a table is chosen.
    ///
    /// It is if one of `tables` matches it, and none of `excluded`. A name with a schema matches in that schema, even if
    /// `database` is another. A name without one matches in `database`, or in any schema if there is no `database`; in
    /// `excluded` it matches in every schema. If `tables` is empty, all tables of `database` are chosen, or all there are.
    #[tactic(auto, unfolding(crate::specs::Choice::chooses))]
    pub fn has(&self, schema: &[u8], table: &[u8]) -> bool
        ensures { result ≡ chooses (choice_value self.now) schema.now table.now }
    {
        let is_wanted = if self.tables.is_empty() {
            is_in(self.database, schema)
        } else {
            is_any_matching(self.tables, self.database, schema, table)
        };
        is_wanted && !is_any_matching(self.excluded, None, schema, table)
    }
}
