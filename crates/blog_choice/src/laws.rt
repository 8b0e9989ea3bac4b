//! Laws of the definitions.

ghost use Rattle.std.specs.Prelude.{◌≡◌, ◌↔◌, ℕ, Bool, List, true, false};
ghost use Rattle.blog_choice.specs.Choice.{Name, Choice, read_name, spelled, can_be_spelled, is_nil, chooses};
ghost use Rattle.blog_choice.specs.Naming.{IsAbout, names_chosen};
ghost use Rattle.blog_choice.specs.Words.{occurs, HasWord};

/// A name that is spelled is read, and what is read is so spelled. The call does nothing.
pub fn names_are_read()
    ensures again { (name : Name) → can_be_spelled name ≡ true → read_name (spelled name) ≡ name }
    ensures same { (text : List ℕ) → spelled (read_name text) ≡ text }
{}

/// A word is found exactly where a text has it. The call does nothing.
pub fn words_are_found_exactly()
    ensures exact { (word text : List ℕ) → is_nil word ≡ false → (occurs word text ≡ true) ↔ HasWord word text }
{}

/// A statement about a chosen table names it. The call does nothing.
pub fn statements_about_chosen_tables_name_them()
    ensures named { (choice : Choice) (default_schema text schema table : List ℕ) (inside twins : Bool)
        → chooses choice schema table ≡ true → IsAbout default_schema text schema table → names_chosen choice default_schema text inside twins ≡ true }
{}
