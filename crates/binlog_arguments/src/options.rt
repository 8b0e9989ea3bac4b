//! The names of commands and options, and what is taken where one isn't given.

/// The name of the command `plain`.
pub const PLAIN: &str = "plain";
/// The name of the command `list`.
pub const LIST: &str = "list";
/// The name of the command `show`.
pub const SHOW: &str = "show";
/// The name of the command `report`.
pub const REPORT: &str = "report";
/// The name of the command `split`.
pub const SPLIT: &str = "split";
/// The name of the command `sql`.
pub const SQL: &str = "sql";
/// The name of the command `undo`.
pub const UNDO: &str = "undo";
/// The name of the command `redo`.
pub const REDO: &str = "redo";
/// The name of `--anyway`.
pub const ANYWAY: &str = "anyway";
/// The name of `--leave`.
pub const LEAVE: &str = "leave";
/// The name of `--merge`.
pub const MERGE: &str = "merge";
/// The name of `--later`.
pub const LATER: &str = "later";
/// The name of `--binlog`.
pub const AS_LOG: &str = "binlog";
/// The name of `--dry-run`.
pub const DRY_RUN: &str = "dry-run";
/// The name of `--show`.
pub const SHOW_ROWS: &str = "show";
/// The name of `-d`.
pub const DATABASE: &str = "database";
/// The name of `-T`.
pub const TABLE: &str = "table";
/// The name of `--exclude-table`.
pub const EXCLUDED_TABLE: &str = "exclude-table";
/// The name of `--at`.
pub const AT: &str = "at";
/// The name of `--thread`.
pub const THREAD: &str = "thread";
/// The name of `--gtid`.
pub const GTID: &str = "gtid";
/// The name of `--show-gtid`.
pub const SHOW_GTID: &str = "show-gtid";
/// The name of `--sort`.
pub const SORT: &str = "sort";
/// Its value for a list by rows.
pub const BY_ROWS: &str = "rows";
/// The name of `--all-columns`.
pub const ALL_COLUMNS: &str = "all-columns";
/// The name of `--width`.
pub const WIDTH: &str = "width";
/// The name of `--skip-damaged`.
pub const SKIP_DAMAGED: &str = "skip-damaged";
/// The name of `-j`.
pub const START: &str = "start-position";
/// The name of `--stop-position`.
pub const STOP: &str = "stop-position";
/// The name of `--start-datetime`.
pub const START_TIME: &str = "start-datetime";
/// The name of `--stop-datetime`.
pub const STOP_TIME: &str = "stop-datetime";
/// The name of `--utc`.
pub const UTC: &str = "utc";
/// The name of `--time-zone`.
pub const TIME_ZONE: &str = "time-zone";
/// The name of `--size`.
pub const SIZE: &str = "size";
/// The name of `--each-transaction`.
pub const EACH_TRANSACTION: &str = "each-transaction";
/// The name of `--keep-times`.
pub const KEEP_TIMES: &str = "keep-times";
/// The name of `--rewrite-db`.
pub const REWRITTEN: &str = "rewrite-db";
/// The name of `--json`.
pub const JSON: &str = "json";
/// The name of `--csv`.
pub const CSV: &str = "csv";
/// The name of `--interval`.
pub const INTERVAL: &str = "interval";
/// The name of `--text`.
pub const TEXT: &str = "text";
/// The name of `-r`.
pub const RESULT_FILE: &str = "result-file";
/// The name of `--force`.
pub const FORCE: &str = "force";
/// The name of the argument without an option.
pub const LOG: &str = "LOG";

/// How many bytes a statement has at most, where `--size` isn't given.
pub const DEFAULT_SIZE: u32 = 8_000_000;

/// In how many columns of a terminal a text is shown, where `--width` isn't given.
pub const DEFAULT_WIDTH: u32 = 60;

/// The least number of bytes that `--size` can give.
pub const LEAST_SIZE: u32 = 1024;
