//! What becomes of an event of a server's log.

ghost use Rattle.std.specs.Prelude.{◌≡◌, ◌≤◌, ◌<◌, ◌+◌, ◌^◌, ◌%◌, ◌==◌, ◌&&◌, ◌||◌, nat_le, length, take, drop, slice_index};
ghost use Rattle.blog_source.specs.declared.becoming.Becoming.TheVariants.{Begin, Gtid};
ghost use Rattle.blog_source.specs.Becoming.{becoming_of};
ghost use Rattle.blog_source.specs.Maria.{begin_body, is_note};

use blog_event::HEADER_LEN;

/// The type of a tagged GTID event (MySQL source code documentation, "GTID_TAGGED_LOG_EVENT").
const GTID_TAGGED_LOG_EVENT: u8 = 42;
/// The text of a statement, beside its rows (MariaDB Knowledge Base, "ANNOTATE_ROWS_EVENT").
const ANNOTATE_ROWS_EVENT: u8 = 160;
/// The first log that a recovery needs (MariaDB Knowledge Base, "BINLOG_CHECKPOINT_EVENT").
const BINLOG_CHECKPOINT_EVENT: u8 = 161;
/// The beginning of a unit, with its id (MariaDB Knowledge Base, "GTID_EVENT").
const MARIA_GTID_EVENT: u8 = 162;
/// The ids that earlier logs have (MariaDB Knowledge Base, "GTID_LIST_EVENT").
const GTID_LIST_EVENT: u8 = 163;
/// The log is encrypted from there on, or was (MariaDB Knowledge Base, "START_ENCRYPTION_EVENT").
pub(crate) const START_ENCRYPTION_EVENT: u8 = 164;

/// The least size of a Gtid event that a tagged one becomes.
const GTID_SIZE: u32 = 44;

/// The size of the event `BEGIN`, which is no less than that of MariaDB's Gtid events.
pub(crate) const BEGIN_SIZE: u32 = 38;

/// Where in the body of MariaDB's Gtid event its flags are.
const FLAGS_AT: usize = 12;

/// What becomes of an event in the log that is handed out.
#[derive(Clone, Copy, Debug)]
pub(crate) enum Becoming {
    /// It is handed out as it is, without its sum.
    Itself,
    /// A Gtid event, for a tagged one.
    Gtid,
    /// The event `BEGIN`, for a Gtid event of MariaDB.
    Begin,
    /// Nothing.
    Nothing,
}

/// Whether an event of this type, which has so many bytes without its sum, is put as a Gtid event.
fn is_tagged(kind: u8, size: u32) -> bool
    ensures { result ≡ ((kind == 42) && nat_le 44 size) }
{
    kind == GTID_TAGGED_LOG_EVENT && size >= GTID_SIZE
}

/// Whether an event of this type changes nothing, and is one of MariaDB alone.
fn is_note(kind: u8) -> bool
    ensures { result ≡ is_note kind }
{
    kind == ANNOTATE_ROWS_EVENT
        || kind == BINLOG_CHECKPOINT_EVENT
        || kind == GTID_LIST_EVENT
        || kind == START_ENCRYPTION_EVENT
}

/// Whether an event of this type, which has so many bytes without its sum, is a Gtid event of MariaDB.
fn is_maria_gtid(kind: u8, size: u32) -> bool
    ensures { result ≡ ((kind == 162) && nat_le 38 size) }
{
    kind == MARIA_GTID_EVENT && size >= BEGIN_SIZE
}

/// Whether MariaDB's Gtid event, whose body begins at a position, stands for a unit without an end event.
fn is_standalone(bytes: &[u8], at: usize) -> bool
    requires within { at + 13 ≤ length bytes.now }
    ensures { result ≡ (slice_index bytes.now (at + 12) % 2 == 1) }
{
    bytes[at + FLAGS_AT] % 2 == 1
}

/// What becomes of the event at a position, which is of this type, and whose body has so many bytes without its sum.
pub(crate) fn what_becomes(bytes: &[u8], at: u32, kind: u8, body_len: u32) -> Becoming
    requires short { length bytes.now < 2 ^ 32 }
    requires within { at + (19 + body_len) ≤ length bytes.now }
    ensures exact { result ≡ becoming_of kind (take body_len (drop (at + 19) bytes.now)) }
    ensures gtid { result ≡ Gtid → 25 ≤ body_len }
    ensures begin { result ≡ Begin → 19 ≤ body_len }
{
    let size = HEADER_LEN as u32 + body_len;
    if is_tagged(kind, size) {
        return Becoming::Gtid;
    }
    if is_note(kind) {
        return Becoming::Nothing;
    }
    if !is_maria_gtid(kind, size) {
        return Becoming::Itself;
    }
    if is_standalone(bytes, at as usize + HEADER_LEN) {
        Becoming::Nothing
    } else {
        Becoming::Begin
    }
}

/// The body of the event `BEGIN`: 14 zeros and the text.
pub(crate) fn begin_body() -> [u8; 19]
    ensures { result ≡ begin_body }
{
    *b"\0\0\0\0\0\0\0\0\0\0\0\0\0\0BEGIN"
}
