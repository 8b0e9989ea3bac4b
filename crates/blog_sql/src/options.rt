//! What can be changed in a log that is printed as SQL.

ghost use Rattle.std.specs.Prelude.{◌≡◌, ◌≤◌, IfSome, length, option_map};
ghost use Rattle.blog_sql.specs.Changed.{between_names, is_name, read_renamed};
ghost use Rattle.blog_sql.specs.code.Views.{renamed_value};

/// A schema with another name.
#[derive(Clone, Copy, Debug)]
pub struct Renamed<'s> {
    /// The name in the log.
    pub from: &'s [u8],
    /// The name that is written: at most 255 bytes.
    pub to: &'s [u8],
}

/// How a log is printed as SQL.
#[derive(Clone, Copy, Debug)]
pub struct SqlOptions<'s> {
    /// Whether each transaction of the log is one of its own. Otherwise all of them are one.
    pub each_transaction: bool,
    /// The timestamp of all table maps and rows events, in seconds since 1970. `None` keeps theirs.
    pub time: Option<u32>,
    /// The schemas with another name. The first pair for a schema counts.
    pub schemas: &'s [Renamed<'s>],
}

/// Whether a table map has room for this name of a schema.
fn is_name(name: &[u8]) -> bool
    ensures { result ≡ is_name name.now }
{
    !name.is_empty() && name.len() <= 255
}

/// The two names, if a table map has room for both.
fn between_names<'s>(from: &'s [u8], to: &'s [u8]) -> Option<Renamed<'s>>
    ensures names { option_map renamed_value result ≡ between_names from.now to.now }
    ensures short { IfSome result (λ renamed. length renamed.to.now ≤ 255) }
{
    if is_name(from) && is_name(to) {
        Some(Renamed { from, to })
    } else {
        None
    }
}

impl<'s> Renamed<'s> {
    /// Returns the names that `FROM:TO` spells. FROM ends before the first colon. None without a colon, or where a name is empty or
    /// has more than 255 bytes.
    #[tactic(auto, unfolding(crate::specs::Changed::read_renamed))]
    pub fn read(text: &'s [u8]) -> Option<Self>
        ensures names { option_map renamed_value result ≡ read_renamed text.now }
        ensures short { IfSome result (λ renamed. length renamed.to.now ≤ 255) }
    {
        match text.iter().position(|byte| *byte == b':') {
            Some(colon) => between_names(&text[..colon], &text[colon + 1..]),
            None => None,
        }
    }
}
