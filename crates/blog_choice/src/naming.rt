//! Which names a statement's text has, and whether it changes only tables that it names.

ghost use Rattle.std.specs.Prelude.{◌≡◌};
ghost use Rattle.std.specs.List.{list_any};
ghost use Rattle.std.specs.Str.{str_eq_ignore_ascii_case};
ghost use Rattle.blog_choice.specs.Naming.{changes_what_it_names, has_name, has_twins, is_about_schemas, is_special, is_twin, naming_words};

use crate::words::{is_same_word, occurs, split_first_word};

/// The first words of statements that change no table by a trigger, a view or a cascade.
const NAMING_WORDS: [&[u8]; 12] = [
    b"ALTER",
    b"ANALYZE",
    b"CREATE",
    b"DROP",
    b"FLUSH",
    b"GRANT",
    b"OPTIMIZE",
    b"RENAME",
    b"REPAIR",
    b"REVOKE",
    b"TRUNCATE",
    b"XA",
];

/// Returns whether any client can spell a name in other bytes: an empty one, or one with a byte from 128 on, a backtick or `"`.
#[tactic(auto, unfolding(crate::specs::Naming::is_special))]
pub(crate) fn is_special(name: &[u8]) -> bool
    ensures { result ≡ is_special name.now }
{
    name.is_empty()
        || name
            .iter()
            .any(|byte| *byte == b'"' || *byte == b'`' || *byte >= 128)
}

/// Returns whether a byte is a character of ASCII that has two spellings in armscii8, sjis or ujis.
fn is_twin(byte: u8) -> bool
    ensures { result ≡ is_twin byte }
{
    matches!(byte, b'\'' | b'(' | b')' | b',' | b'-' | b'.' | b'\\')
}

/// Returns whether a client of one of these character sets can spell a name in other bytes.
#[tactic(auto, unfolding(crate::specs::Naming::has_twins))]
pub(crate) fn has_twins(name: &[u8]) -> bool
    ensures { result ≡ has_twins name.now }
{
    name.iter().any(|byte| is_twin(*byte))
}

/// Returns whether a text has a name. `twins` says whether its client has one of these character sets.
#[tactic(auto, unfolding(crate::specs::Naming::has_name))]
pub(crate) fn has_name(text: &[u8], name: &[u8], twins: bool) -> bool
    ensures { result ≡ has_name twins text.now name.now }
{
    is_special(name) || has_twins(name) && twins || occurs(name, text)
}

/// Returns whether a text is about schemas.
pub(crate) fn is_about_schemas(text: &[u8]) -> bool
    ensures { result ≡ is_about_schemas text.now }
{
    occurs(b"DATABASE", text) || occurs(b"SCHEMA", text)
}

/// Whether a word is one of some words.
fn is_one_of(word: &[u8], words: &[&[u8]]) -> bool
    ensures { result ≡ list_any (λ other. str_eq_ignore_ascii_case word.now other.now) words.now }
{
    words.iter().any(|other| is_same_word(word, *other))
}

/// Whether a statement with this first word changes only tables that it names.
fn is_naming_word(first: &[u8]) -> bool
    ensures { result ≡ list_any (str_eq_ignore_ascii_case first.now) naming_words }
{
    let words: [&[u8]; 12] = NAMING_WORDS;
    is_one_of(first, words.as_slice())
}

/// Whether a statement of this text changes only tables that it names.
#[tactic(auto, unfolding(crate::specs::Naming::changes_what_it_names))]
pub(crate) fn changes_what_it_names(text: &[u8], inside: bool) -> bool
    ensures { result ≡ changes_what_it_names inside text.now }
{
    let (first, rest) = split_first_word(text);
    if inside {
        let (second, _) = split_first_word(rest);
        is_same_word(first, b"CREATE") && is_same_word(second, b"TABLE")
    } else {
        is_naming_word(first)
    }
}
