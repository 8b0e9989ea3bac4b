//! The numbers of event types, by MySQL's names (MySQL Internals manual, "Event Classes and Types").

ghost use Rattle.std.specs.Prelude.{◌≡◌, [], ◌∷◌};

/// No type.
pub const UNKNOWN_EVENT: u8 = 0;
/// The start of a file, before version 4.
pub const START_EVENT_V3: u8 = 1;
/// A query: a statement's text, or `BEGIN`, `COMMIT` and their like.
pub const QUERY_EVENT: u8 = 2;
/// The server's stop.
pub const STOP_EVENT: u8 = 3;
/// The name of the next file.
pub const ROTATE_EVENT: u8 = 4;
/// A number that the next statement uses.
pub const INTVAR_EVENT: u8 = 5;
/// A load of a file, in servers before 4.0.
pub const LOAD_EVENT: u8 = 6;
/// No server writes it.
pub const SLAVE_EVENT: u8 = 7;
/// The first block of a file to load.
pub const CREATE_FILE_EVENT: u8 = 8;
/// A further block of a file to load.
pub const APPEND_BLOCK_EVENT: u8 = 9;
/// The load of a file.
pub const EXEC_LOAD_EVENT: u8 = 10;
/// A file that is not loaded after all.
pub const DELETE_FILE_EVENT: u8 = 11;
/// A load of a file, in servers before 5.0.
pub const NEW_LOAD_EVENT: u8 = 12;
/// The seeds of the random numbers that the next statement uses.
pub const RAND_EVENT: u8 = 13;
/// A user variable that the next statement uses.
pub const USER_VAR_EVENT: u8 = 14;
/// The format of the file: its first event.
pub const FORMAT_DESCRIPTION_EVENT: u8 = 15;
/// The end of a transaction of a transactional engine.
pub const XID_EVENT: u8 = 16;
/// The first block of a file to load.
pub const BEGIN_LOAD_QUERY_EVENT: u8 = 17;
/// The load of a file, as a query.
pub const EXECUTE_LOAD_QUERY_EVENT: u8 = 18;
/// The layout of a table, before its rows events.
pub const TABLE_MAP_EVENT: u8 = 19;
/// Rows inserted, version 1.
pub const WRITE_ROWS_EVENT_V1: u8 = 23;
/// Rows changed, version 1.
pub const UPDATE_ROWS_EVENT_V1: u8 = 24;
/// Rows deleted, version 1.
pub const DELETE_ROWS_EVENT_V1: u8 = 25;
/// A sign of life of an idle server.
pub const HEARTBEAT_LOG_EVENT: u8 = 27;
/// An event that any reader may skip.
pub const IGNORABLE_LOG_EVENT: u8 = 28;
/// The text of a statement, beside its rows.
pub const ROWS_QUERY_LOG_EVENT: u8 = 29;
/// Rows inserted, version 2.
pub const WRITE_ROWS_EVENT: u8 = 30;
/// Rows changed, version 2.
pub const UPDATE_ROWS_EVENT: u8 = 31;
/// Rows deleted, version 2.
pub const DELETE_ROWS_EVENT: u8 = 32;
/// A transaction's global id.
pub const GTID_LOG_EVENT: u8 = 33;
/// The announcement of a transaction without a global id.
pub const ANONYMOUS_GTID_LOG_EVENT: u8 = 34;
/// The global ids of the earlier files.
pub const PREVIOUS_GTIDS_LOG_EVENT: u8 = 35;
/// What a group's certification of a transaction goes by.
pub const TRANSACTION_CONTEXT_EVENT: u8 = 36;
/// Rows changed, with parts of JSON values.
pub const PARTIAL_UPDATE_ROWS_EVENT: u8 = 39;

/// Each type has its number. The call does nothing.
pub fn types_have_their_numbers()
    ensures first { UNKNOWN_EVENT ∷ START_EVENT_V3 ∷ QUERY_EVENT ∷ STOP_EVENT ∷ ROTATE_EVENT ∷ INTVAR_EVENT ∷ LOAD_EVENT ∷ SLAVE_EVENT
        ∷ CREATE_FILE_EVENT ∷ APPEND_BLOCK_EVENT ∷ [] ≡ 0 ∷ 1 ∷ 2 ∷ 3 ∷ 4 ∷ 5 ∷ 6 ∷ 7 ∷ 8 ∷ 9 ∷ [] }
    ensures next { EXEC_LOAD_EVENT ∷ DELETE_FILE_EVENT ∷ NEW_LOAD_EVENT ∷ RAND_EVENT ∷ USER_VAR_EVENT ∷ FORMAT_DESCRIPTION_EVENT ∷ XID_EVENT
        ∷ BEGIN_LOAD_QUERY_EVENT ∷ EXECUTE_LOAD_QUERY_EVENT ∷ TABLE_MAP_EVENT ∷ [] ≡ 10 ∷ 11 ∷ 12 ∷ 13 ∷ 14 ∷ 15 ∷ 16 ∷ 17 ∷ 18 ∷ 19 ∷ [] }
    ensures rows { WRITE_ROWS_EVENT_V1 ∷ UPDATE_ROWS_EVENT_V1 ∷ DELETE_ROWS_EVENT_V1 ∷ [] ≡ 23 ∷ 24 ∷ 25 ∷ [] }
    ensures later { HEARTBEAT_LOG_EVENT ∷ IGNORABLE_LOG_EVENT ∷ ROWS_QUERY_LOG_EVENT ∷ WRITE_ROWS_EVENT ∷ UPDATE_ROWS_EVENT ∷ DELETE_ROWS_EVENT
        ∷ GTID_LOG_EVENT ∷ ANONYMOUS_GTID_LOG_EVENT ∷ PREVIOUS_GTIDS_LOG_EVENT ∷ TRANSACTION_CONTEXT_EVENT ∷ PARTIAL_UPDATE_ROWS_EVENT ∷ []
        ≡ 27 ∷ 28 ∷ 29 ∷ 30 ∷ 31 ∷ 32 ∷ 33 ∷ 34 ∷ 35 ∷ 36 ∷ 39 ∷ [] }
{}
