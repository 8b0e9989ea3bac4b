//! Words of a statement's text.

ghost use Rattle.std.specs.Prelude.{◌≡◌, ◌≤◌, ◌∷◌, ◌&&◌, length, slice_index};
ghost use Rattle.std.specs.Str.{str_eq_ignore_ascii_case};
ghost use Rattle.blog_choice.specs.Words.{is_word_byte, goes_on_with, stands_apart, occurs, is_blank, after_blanks, ends_word, first_word, after_first_word};

/// Whether a byte is an ASCII letter, a digit, `_` or `$`.
fn is_word_byte(byte: u8) -> bool
    ensures { result ≡ is_word_byte byte }
{
    byte.is_ascii_alphanumeric() || byte == b'_' || byte == b'$'
}

/// Whether a text has a byte of a word at a place.
pub(crate) fn is_word_at(text: &[u8], place: usize) -> bool
    ensures { result ≡ is_word_byte (slice_index text.now place) }
{
    place < text.len() && is_word_byte(text[place])
}

/// Whether a text has a byte of a word before a place.
pub(crate) fn is_word_before(text: &[u8], place: usize) -> bool
    ensures { result ≡ is_word_byte (slice_index (0 ∷ text.now) place) }
{
    place > 0 && is_word_at(text, place - 1)
}

/// Whether two words are the same, ASCII letters compared without case.
pub(crate) fn is_same_word(word: &[u8], other: &[u8]) -> bool
    ensures { result ≡ str_eq_ignore_ascii_case word.now other.now }
{
    word.eq_ignore_ascii_case(other)
}

/// Whether a text has a word at a place.
fn is_at(word: &[u8], text: &[u8], place: usize) -> bool
    requires { place ≤ length text.now }
    ensures { result ≡ (goes_on_with word.now text.now place && stands_apart word.now text.now place) }
{
    let rest = &text[place..];
    if rest.len() < word.len() {
        return false;
    }
    !is_word_before(text, place)
        && is_same_word(&rest[..word.len()], word)
        && !is_word_at(text, place + word.len())
}

/// Whether a text has a word, ASCII letters compared without case.
#[tactic(auto, unfolding(crate::specs::Words::occurs))]
pub(crate) fn occurs(word: &[u8], text: &[u8]) -> bool
    ensures { result ≡ occurs word.now text.now }
{
    (0..text.len()).any(|place| is_at(word, text, place))
}

/// Whether a byte is a tab, a line feed, a carriage return or a space.
fn is_blank(byte: u8) -> bool
    ensures { result ≡ is_blank byte }
{
    matches!(byte, b'\t' | b'\n' | b'\r' | b' ')
}

/// The text without the blanks at its front.
#[tactic(auto, unfolding(crate::specs::Words::after_blanks))]
fn after_blanks(text: &[u8]) -> &[u8]
    ensures { result.now ≡ after_blanks text.now }
{
    match text.iter().position(|byte| !is_blank(*byte)) {
        Some(start) => &text[start..],
        None => &[],
    }
}

/// Whether a byte ends the first word of a text.
fn ends_word(byte: u8) -> bool
    ensures { result ≡ ends_word byte }
{
    !(is_word_byte(byte) || byte >= 128)
}

/// The first word of a text, after blanks, and what follows it.
#[tactic(auto, unfolding(crate::specs::Words::first_word, crate::specs::Words::after_first_word))]
pub(crate) fn split_first_word(text: &[u8]) -> (&[u8], &[u8])
    ensures word { result.0.now ≡ first_word text.now }
    ensures after { result.1.now ≡ after_first_word text.now }
{
    let text = after_blanks(text);
    match text.iter().position(|byte| ends_word(*byte)) {
        Some(end) => (&text[..end], &text[end..]),
        None => (text, &[]),
    }
}
