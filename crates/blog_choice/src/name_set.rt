//! Names that are looked for in a text together.

ghost use Rattle.std.specs.Prelude.{◌≡◌, ◌≤◌, ◌+◌, ◌==◌, ◌&&◌, ◌||◌, ℕ, List, Bool, length, map, true, IfOk};
ghost use Rattle.std.specs.Cmp.Lexicographic.{slice_cmp};
ghost use Rattle.std.specs.List.{list_any};
ghost use Rattle.std.specs.Ordering.{nat_cmp};
ghost use Rattle.std.specs.Str.{str_eq_ignore_ascii_case, str_to_ascii_lowercase};
ghost use Rattle.blog_choice.specs.Naming.{has_name, has_twins, is_special};
ghost use Rattle.blog_choice.specs.Words.{occurs};
ghost use Rattle.blog_choice.specs.code.Sets.{AreInOrder, AreLengths, is_any_at, is_one_at, words_of};

use crate::naming::{has_twins, is_special};
use crate::words::{is_word_at, is_word_before};
use std::alloc::{AllocError, Allocator};
use std::cmp::Ordering;

/// Names that are looked for in a text together: how long that takes hardly depends on how many they are.
#[derive(Drop)]
pub(crate) struct NameSet<'n, A: Allocator> {
    // In the order of their bytes, ASCII letters in lower case.
    names: Vec<&'n [u8], A>,
    // Each length that a name has, once.
    lengths: Vec<usize, A>,
    // Whether one of them can be spelled in other bytes by any client, and by clients of some character sets.
    special: bool,
    twins: bool,
    ghost order: { AreInOrder names.items },
    ghost long: { AreLengths (words_of names.items) lengths.items },
    ghost others: { special ≡ list_any is_special (words_of names.items) },
    ghost in_two: { twins ≡ list_any has_twins (words_of names.items) },
}

/// Compares two words by their bytes, ASCII letters in lower case.
fn compare(one: &[u8], other: &[u8]) -> Ordering
    ensures { result ≡ slice_cmp nat_cmp (str_to_ascii_lowercase one.now) (str_to_ascii_lowercase other.now) }
{
    let mut left = one;
    let mut right = other;
    'bytes: while let Some((first, behind)) = left.split_first() {
        let Some((second, after)) = right.split_first() else {
            return Ordering::Greater;
        };
        match first.to_ascii_lowercase().cmp(&second.to_ascii_lowercase()) {
            Ordering::Equal => {}
            unequal => return unequal,
        }
        left = behind;
        right = after;
    }
    if right.is_empty() {
        Ordering::Equal
    } else {
        Ordering::Less
    }
}

/// Returns each length that a word has, once.
fn lengths_of<A: Allocator>(alloc: A, words: &[&[u8]]) -> Result<Vec<usize, A>, AllocError>
    ensures { IfOk result (λ lengths. AreLengths (words_of words.now) lengths.items) }
{
    let mut lengths = Vec::new(alloc);
    for word in words {
        if !lengths.contains(&word.len()) {
            lengths.push(word.len())?;
        }
    }
    Ok(lengths)
}

/// Returns whether one of some names is special.
fn is_any_special(names: &[&[u8]]) -> bool
    ensures { result ≡ list_any is_special (words_of names.now) }
{
    names.iter().any(|name| is_special(*name))
}

/// Returns whether one of some names has a character of ASCII for which some character sets have other bytes.
fn has_any_twins(names: &[&[u8]]) -> bool
    ensures { result ≡ list_any has_twins (words_of names.now) }
{
    names.iter().any(|name| has_twins(*name))
}

impl<'n, A: Allocator + Copy> NameSet<'n, A> {
    ghost use Rattle.blog_choice.specs.code.NameSetView.{set_names};

    /// Returns the set of these names. Fails if out of memory.
    pub(crate) fn new(alloc: A, names: Vec<&'n [u8], A>) -> Result<Self, AllocError>
        ensures { IfOk result (λ set. (test : List ℕ → Bool) → list_any test (set_names set) ≡ list_any test (words_of names.entry.items)) }
    {
        let lengths = lengths_of(alloc, &names)?;
        let special = is_any_special(&names);
        let twins = has_any_twins(&names);
        let mut names = names;
        names.sort_unstable_by(|one, other| compare(*one, *other));
        Ok(NameSet {
            names,
            lengths,
            special,
            twins,
        })
    }

    /// Returns whether the set has a word, ASCII letters compared without case.
    fn has(&self, word: &[u8]) -> bool
        ensures { result ≡ list_any (str_eq_ignore_ascii_case word.now) (set_names self.now) }
    {
        self.names
            .binary_search_by(|name| compare(*name, word))
            .is_ok()
    }

    /// Returns whether a text has a name of the set, as a word of this length, at a place.
    fn has_at(&self, text: &[u8], place: usize, len: usize) -> bool
        requires { place ≤ length text.now }
        ensures { result ≡ is_one_at (set_names self.now) text.now place len }
    {
        let rest = &text[place..];
        len <= rest.len() && !is_word_at(text, place + len) && self.has(&rest[..len])
    }

    /// Returns whether a text has a name of the set, as a word, at a place.
    fn is_at(&self, text: &[u8], place: usize) -> bool
        requires { place ≤ length text.now }
        ensures { result ≡ is_any_at (set_names self.now) text.now place }
    {
        !is_word_before(text, place)
            && self
                .lengths
                .iter()
                .any(|len| self.has_at(text, place, *len))
    }

    /// Returns whether a text has a name of the set as a word.
    fn occurs_in(&self, text: &[u8]) -> bool
        ensures { result ≡ list_any (λ name. occurs name text.now) (set_names self.now) }
    {
        (0..text.len()).any(|place| self.is_at(text, place))
    }

    /// Returns whether a client can spell a name of the set in other bytes.
    fn has_other_spelling(&self, twins: bool) -> bool
        ensures { result ≡ (list_any is_special (set_names self.now) || (twins && list_any has_twins (set_names self.now))) }
    {
        self.special || twins && self.twins
    }

    /// Returns whether a text has a name of the set. `twins` says whether the client's character set has other bytes for some
    /// characters of ASCII.
    pub(crate) fn is_in(&self, text: &[u8], twins: bool) -> bool
        ensures { result ≡ list_any (has_name twins text.now) (set_names self.now) }
    {
        self.has_other_spelling(twins) || self.occurs_in(text)
    }
}
