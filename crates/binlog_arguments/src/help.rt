//! The texts of the help.

/// What the program is for.
pub const ABOUT: &str = "\
Lists what can be undone of a binary log of MySQL or MariaDB, shows its rows, draws it as a page, and prints SQL
that undoes it. Prepares logs for flashback, cuts large statements, and prints logs as SQL.";

/// How it is called.
pub const USAGE: &str = "\
binlog list [-d NAME] [-T NAME] [-j POS] [--stop-position POS]
                   [--start-datetime TIME] [--stop-datetime TIME]
                   [--utc | --time-zone NAME] [--json] LOG..
       binlog show [-d NAME] [-T NAME] [-j POS] [--stop-position POS] [--at POS]
                   [--utc | --time-zone NAME] [--all-columns] [--json | --csv] LOG..
       binlog report [-d NAME] [-T NAME] [-j POS] [--stop-position POS]
                   [--utc | --time-zone NAME] [--text] [-r FILE [--force]] LOG..
       binlog undo [--later LOG].. [--leave | --merge | --anyway] [-j POS] [--stop-position POS]
                   [-d NAME] [-T NAME]
                   [--dry-run] [--show] [-r FILE [--force]] LOG..
       binlog redo [-j POS] [--stop-position POS] [-d NAME] [-T NAME]
                   [--dry-run] [-r FILE [--force]] LOG..
       binlog plain [-r FILE [--force]] LOG
       binlog split [--size BYTES] [-r FILE [--force]] LOG
       binlog sql [--each-transaction] [--keep-times] [--size BYTES]
                  [--rewrite-db FROM:TO].. [-r FILE [--force]] LOG";

/// Examples, and the exit status.
pub const AFTER_HELP: &str = "\
Examples:
  binlog list binlog.000042
      list the transactions of a log: where each starts and stops,
      and which rows it changes, or why it can't be undone
  binlog show --at 4021 binlog.000042
      show the rows that a transaction changes
  binlog report binlog.000042 -r report.html
      draw when which rows were changed, on a page for a browser
  binlog undo -j 4021 --stop-position 9144 binlog.000042 -r undo.sql
      write SQL that undoes the transactions from one position to another
  binlog plain binlog.000042 -r plain.000042
      check every checksum of a log, and write the same log without checksums,
      which flashback reads
  binlog split undo.binlog -r parts.binlog
      cut the large statements of a log, so that a server takes them
  binlog sql undo.binlog | mysql
      make the changes of a log on a server, all of them or none
  binlog plain --help
      what there is to know of a command

Exit status: 0 done, 1 the log is refused or something failed, 2 the arguments are wrong.";

/// What `plain` does.
pub const PLAIN_ABOUT: &str = "\
Checks every checksum of LOG and writes the same log without checksums.
Nothing is written before the whole log was checked. A log that has no checksums is written as it is.
Positions in the plain log are its own: look for them there, and not in LOG.";

/// How `plain` is called.
pub const PLAIN_USAGE: &str = "binlog plain [-r FILE [--force]] LOG";

/// What there is to know of `plain`, with examples.
pub const PLAIN_AFTER_HELP: &str = "\
The plain log is binary, and isn't written to a terminal: use -r FILE or > FILE.
FILE appears once the new log is whole, and only its owner may read it.

Examples:
  binlog plain binlog.000042 -r plain.000042
      write to a file that isn't there yet; -r is the same as --result-file
  binlog plain binlog.000042 > plain.000042
      the same by the shell, which overwrites a file that is there
  binlog plain binlog.000042 -r plain.000042 --force
      replace a file that is there
  binlog plain binlog.000042 -r plain.000042 && flashback --summary plain.000042
      then count rows by table

Exit status: 0 done, 1 the log is refused or something failed, 2 the arguments are wrong.";

/// What `list` does.
pub const LIST_ABOUT: &str = "\
Lists the units of each LOG: its transactions, and what stands between them and can't be undone.
A line says where a unit starts and stops, its local time, the thread of the connection that wrote it,
and how many rows of each table it changes, or why it can't be undone. The heading names the time zone.
The last line counts units, those that can't be undone, and the rows of the others.
With several LOGs the lines of each stand below its name, and the last line counts all. -j is a position
of the first LOG, and --stop-position one of the last.
Each checksum of LOG is checked, if it has checksums. Positions are those of LOG, as mysqlbinlog shows them.
binlog undo -j START --stop-position STOP undoes a unit, or more of them in a row. So does
flashback -B, which takes no log with checksums: list the plain log of binlog plain for it, whose positions
are its own.";

/// How `list` is called.
pub const LIST_USAGE: &str = "\
binlog list [-d NAME] [-T [NAME.]NAME].. [--exclude-table [NAME.]NAME].. [--thread N]..
                   [-j POS] [--stop-position POS] [--gtid GTID]..
                   [--start-datetime TIME] [--stop-datetime TIME] [--utc | --time-zone NAME]
                   [--sort rows] [--show-gtid] [--skip-damaged] [--json] LOG..";

/// What there is to know of `list`, with examples.
pub const LIST_AFTER_HELP: &str = "\
Positions are bytes from the start of the file, decimal, 0 to 4294967295.
Times, printed and given, are local: those of this machine's time zone, which is TZ or that of
/etc/localtime; or of the one that you give by --utc or --time-zone. If this machine's zone isn't
found, they are in UTC. When clocks are set back, they show an hour twice: a TIME in it is the
earlier one for --start-datetime, and the later one for --stop-datetime.
Names are compared byte by byte. With -d or -T units that can't be undone are listed too, since what
they change isn't known, but for statements that name no chosen table, such as ALTER TABLE of another.
With --sort rows the transactions of each log that change the most rows come first, with -d or -T the
most rows of the chosen tables; what can't be undone comes last. The lines of a log are held in memory.

Examples:
  binlog list binlog.000042
      list all units
  binlog list binlog.000041 binlog.000042
      those of several logs, in this order
  binlog list -d shop -T orders binlog.000042
      those that change one table, with the other tables that they change;
      -d is the same as --database, -T the same as --table
  binlog list -T shop.orders -T shop.items --exclude-table tmp binlog.000042
      those that change one of two tables
  binlog list --thread 13 binlog.000042
      those of one connection of a client
  binlog list -j 4021 binlog.000042
      those that start at 4021 or later; -j is the same as --start-position
  binlog list --stop-position 9144 binlog.000042
      those that start before 9144; what comes behind isn't looked at
  binlog list --start-datetime '2026-11-21 02:02:00' binlog.000042
      those of this time or later
  binlog list --stop-datetime '2026-11-21 02:03:00' binlog.000042
      those before this time
  binlog list --utc binlog.000042
      times in UTC
  binlog list --sort rows binlog.000042
      the largest first
  binlog list --show-gtid binlog.000042
      with their GTIDs
  binlog list --gtid 283c105d-e730-11f1-97ff-02fc00000001:5-9 binlog.000042
      those with these GTIDs: a UUID and a number, or from one number to another
  binlog list --skip-damaged binlog.000042
      go on after an event whose checksum is wrong
  binlog list --json binlog.000042
      an object of JSON for each, on a line of its own, and one for the totals

Exit status: 0 done, 1 the log is refused, ends too early, or something failed, 2 the arguments are wrong.";

/// What `show` does.
pub const SHOW_ABOUT: &str = "\
Shows the rows that the transactions of each LOG change, a line each: the position of the row's event, its
local time, INSERT, UPDATE or DELETE, the table, and the columns with their values. Of an update, it prints the
columns that change, with both values, and those by which you know the row: the primary key's, or the first.
Columns have names if the server wrote them to the log, with binlog_row_metadata=FULL, and else numbers: @1.
The transactions are those that binlog list lists with the same options. One that can't be undone has a line
that says why, since its rows aren't known.
With several LOGs the lines of each are below its name. -j is a position of the first LOG, and --stop-position
one of the last.
Each checksum of LOG is checked, if it has checksums. Positions are those of LOG, as mysqlbinlog shows them.";

/// How `show` is called.
pub const SHOW_USAGE: &str = "\
binlog show [--at POS].. [-j POS] [--stop-position POS] [-d NAME] [-T [NAME.]NAME]..
                   [--exclude-table [NAME.]NAME].. [--thread N].. [--gtid GTID]..
                   [--start-datetime TIME] [--stop-datetime TIME] [--utc | --time-zone NAME]
                   [--all-columns] [--width COLUMNS] [--json | --csv] [--skip-damaged] LOG..";

/// What there is to know of `show`, with examples.
pub const SHOW_AFTER_HELP: &str = "\
Texts, dates and times are between single quotes, and have no control characters: these are printed as \\n or
\\x1b. A text that is longer than the width ends in two points. Texts are shown by the character set of their
column, if LOG says it, as MySQL 8.0 and later do. One that is neither UTF-8 nor latin1 is printed in hexadecimal
digits, and so are bytes. TIMESTAMP is printed in the time zone that other times are printed in.
If LOG doesn't say whether a column is UNSIGNED, as that of MariaDB, a negative number is followed by the number
that it is without a sign: -1 (255). ENUM and SET are printed as numbers unless LOG has their texts.
A value that isn't what its type says is printed as ?0x and hexadecimal digits.
With --json each row is an object with log, position, time, op, schema, table, before and after: op is insert,
update or delete, and before and after have all columns of the row, or are null. Whole numbers up to 2^53 are
numbers, and so are FLOAT, DOUBLE and YEAR; a document of MySQL's JSON is one; other values are strings, whole.
With --csv the columns of a row are behind its position, time, op, schema and table. An update has two lines, of
op update-before and update-after. NULL is an empty field, and an empty text is \"\". A line with the names of
the columns is above the rows of each table.
Positions are bytes from the start of the file, decimal, 0 to 4294967295. Names are compared byte by byte.

Examples:
  binlog show --at 4021 binlog.000042
      the rows of the transaction that has an event at this position, as binlog list prints it
  binlog show -T shop.orders binlog.000042
      the rows of one table; -T is the same as --table
  binlog show -j 4021 --stop-position 9144 binlog.000042
      those of the transactions from one position to another
  binlog show --all-columns --at 4021 binlog.000042
      all columns of each row
  binlog show --width 200 --at 4021 binlog.000042
      texts of up to 200 columns
  binlog show --utc --thread 13 binlog.000042
      the rows that one connection of a client changed, with times in UTC
  binlog show --json --at 4021 binlog.000042
      the rows as JSON, for other programs
  binlog show --csv -T shop.orders binlog.000042
      the rows of one table as CSV, for a spreadsheet

Exit status: 0 done, 1 the log is refused, ends too early, or something failed, 2 the arguments are wrong.";

/// What `report` does.
pub const REPORT_ABOUT: &str = "\
Draws what the transactions of the LOGs change, as one page for a browser: how many rows were inserted, updated
and deleted when, and of which table; the transactions with the most rows, and those that took longest; and those
that can't be undone, and why. Each has the command that shows its rows, and the one that undoes it, to copy.
The page needs no network. With --text the same is written as text.
The transactions are those that binlog list lists with the same options. -j is a position of the first LOG, and
--stop-position one of the last.
Each checksum of LOG is checked, if it has checksums. Positions are those of LOG, as mysqlbinlog shows them.";

/// How `report` is called.
pub const REPORT_USAGE: &str = "\
binlog report [-d NAME] [-T [NAME.]NAME].. [--exclude-table [NAME.]NAME].. [-j POS]
                     [--stop-position POS] [--thread N].. [--gtid GTID].. [--start-datetime TIME]
                     [--stop-datetime TIME] [--utc | --time-zone NAME] [--interval SECONDS]
                     [--text] [--skip-damaged] [-r FILE [--force]] LOG..";

/// What there is to know of `report`, with examples.
pub const REPORT_AFTER_HELP: &str = "\
Rows are counted by intervals. Unless you give their length, it is chosen so that they are 120 to 240; one that
you give is doubled while they are more than 2,000.
If a LOG ends too early or is damaged, the report has what is in front of that, and the exit status is 1.

Examples:
  binlog report binlog.000042 -r report.html
      a page of a log; -r is the same as --result-file
  binlog report --utc -T shop.orders binlog.000041 binlog.000042 -r report.html
      a page of the rows of one table in two logs, with times in UTC
  binlog report --interval 60 binlog.000042 -r report.html --force
      count rows by minutes, and replace the page
  binlog report --text binlog.000042
      the same tables on a terminal

Exit status: 0 done, 1 the log is refused, ends too early, or something failed, 2 the arguments are wrong.";

/// What `split` does.
pub const SPLIT_ABOUT: &str = "\
Cuts each statement of LOG into statements of at most BYTES bytes: their rows events, and the table
maps that these use. A single rows event isn't cut: it and its map can have more. A server takes a
statement as one packet, which max_allowed_packet limits: mysqlbinlog prints it as base64, 4 bytes
for 3. The changes stay the same and in their order, and transactions stay whole.
LOG is a log that flashback accepts as a whole, such as one that it wrote. If it has checksums,
each is checked, and the new log has none.
Nothing is written unless the whole log can be cut.";

/// How `split` is called.
pub const SPLIT_USAGE: &str = "binlog split [--size BYTES] [-r FILE [--force]] LOG";

/// What there is to know of `split`, with examples.
pub const SPLIT_AFTER_HELP: &str = "\
The new log is binary, and isn't written to a terminal: use -r FILE or > FILE.
FILE appears once the new log is whole, and only its owner may read it.

Examples:
  binlog split undo.binlog -r parts.binlog
      write to a file that isn't there yet; -r is the same as --result-file
  binlog split --size 1000000 undo.binlog -r parts.binlog
      statements of at most 1,000,000 bytes
  binlog split undo.binlog > parts.binlog
      the same as the first by the shell, which overwrites a file that is there
  binlog split undo.binlog -r parts.binlog --force
      replace a file that is there

Exit status: 0 done, 1 the log is refused or something failed, 2 the arguments are wrong.";

/// What `sql` does.
pub const SQL_ABOUT: &str = "\
Prints LOG as SQL that makes its changes on a server, in one transaction: all of them, or after any
error none. Any mysql or mariadb client runs it. LOG is a log that flashback accepts as a whole, such
as one that it wrote. If it has checksums, each is checked. Nothing is printed unless all of LOG can be.
The last line that the client prints has to say COMMIT. ROLLBACK, or no such line, means that nothing
was changed; the client's exit status doesn't tell, if it was told to go on after errors.
Tables of an engine without transactions, such as MyISAM, keep what was changed before an error.";

/// How `sql` is called.
pub const SQL_USAGE: &str = "\
binlog sql [--each-transaction] [--keep-times] [--size BYTES]
                  [--rewrite-db FROM:TO].. [-r FILE [--force]] LOG";

/// What there is to know of `sql`, with examples.
pub const SQL_AFTER_HELP: &str = "\
The server gets the changes as base64, each statement as one packet, which max_allowed_packet limits.
Statements are cut for it as by binlog split, to at most BYTES bytes of rows events and table maps.
A packet has 77 bytes for 57 of these. A single rows event isn't cut: it and its map can have more.
Events get the time at which the SQL is made, since the server writes their times to its own log.
The SQL has the rows of LOG in it: FILE appears once it is whole, and only its owner may read it.

Examples:
  binlog sql undo.binlog | mysql
      make the changes of a log that undoes
  binlog sql undo.binlog -r undo.sql
      write to a file that isn't there yet; -r is the same as --result-file
  binlog sql undo.binlog -r undo.sql --force
      replace a file that is there
  binlog sql --rewrite-db shop:scratch undo.binlog | mysql
      try it first in a copy of the tables in another database; other databases stay as they are
  binlog sql --each-transaction undo.binlog | mysql
      commit each transaction by itself; after an error neither it nor a later one is committed
  binlog sql --keep-times undo.binlog | mysql
      leave the times of the events as they are
  binlog sql --size 1000000 undo.binlog | mysql
      statements of at most 1,000,000 bytes

Exit status: 0 done, 1 the log is refused or something failed, 2 the arguments are wrong.";

/// What `undo` does.
pub const UNDO_ABOUT: &str = "\
Prints SQL that undoes changes of LOG: it deletes what was inserted, inserts what was deleted, and updates
rows back, the last change first. Any mysql or mariadb client runs it, in one transaction: all of it, or
after any error nothing. What is undone are the changes of the transactions from one position to another,
which binlog list shows. --at, --thread, --gtid, --start-datetime and --stop-datetime choose some of these
transactions. The others stay, those between the chosen ones too.
LOG.. are logs of one server as they are, with checksums or without, in its order and without a gap.
With several, -j is a position of the first, and --stop-position one of the last. --at goes with one.
What can't be undone is refused, with its position, and then nothing is written.
What came later is looked at, to the end of the last LOG and in the later logs that are given, and so is each
transaction between the chosen ones. If it changed rows that would be undone, or may have changed these
tables in a way that can't be looked into, such as by ALTER TABLE, nothing is written, and lines say where.
With --leave rows that were changed since are left as they are, and the others are undone.
With --merge these rows are updated, too: a column that only the mistake changed gets its former value, and one
that was changed since keeps its value. Rows that the mistake inserted and others changed since stay.
With --anyway nothing is looked at: later changes of these rows are overwritten.
A report says what is undone: on standard output with -r and with --dry-run, else on standard error.
It counts rows as the undo changes them: 120 rows that were deleted are 120 inserts.";

/// How `undo` is called.
pub const UNDO_USAGE: &str = "\
binlog undo [--later LOG].. [--leave | --merge | --anyway] [-j POS] [--stop-position POS]
                   [--at POS].. [--thread N].. [--gtid GTID].. [--start-datetime TIME]
                   [--stop-datetime TIME] [-d NAME] [-T [NAME.]NAME]
                   [--each-transaction] [--keep-times] [--rewrite-db FROM:TO].. [--size BYTES]
                   [--utc | --time-zone NAME] [--binlog] [--dry-run] [--show]
                   [-r FILE [--force]] LOG..";

/// What there is to know of `undo`, with examples.
pub const UNDO_AFTER_HELP: &str = "\
Positions are bytes from the start of LOG, decimal, 0 to 4294967295: where an event begins. Give the start
and the stop of transactions that binlog list prints; --at takes the start of one, or where its BEGIN is.
Names are compared byte by byte.
Without -d and -T all tables are taken back, with them other tables stay as they are, and a statement that
names none of the chosen ones is passed over.
Values of --at, of --thread and of --gtid are alternatives, and a transaction has to meet all options that are
given.
GTID and TIME are as binlog list has them. Times, given and printed, are those of this machine's time zone,
unless --utc or --time-zone is given. Lines that say where rows were changed since have the times of the events.
The last line that the client prints has to say COMMIT. ROLLBACK, or no such line, means that nothing
was changed. Tables of an engine without transactions, such as MyISAM, keep what was changed before an error.
With --binlog a binary log is written, as by flashback -B and binlog split. It isn't written to a terminal.
With --show nothing is written: the report is printed, and then each row as it would be written, as binlog show
prints rows: a row that was deleted is an INSERT. Positions are those that the rows would have with --binlog.
What is written has rows of LOG in it: FILE appears once it is whole, and only its owner may read it.

Examples:
  binlog undo -j 4021 --stop-position 9144 binlog.000042 --dry-run
      see what would be undone, and whether it can be
  binlog undo -j 4021 --stop-position 9144 binlog.000042 --show
      see the rows, too
  binlog undo --merge -j 4021 --stop-position 9144 binlog.000042 --dry-run
      the same if rows were changed since: keep what was changed, and undo the rest
  binlog undo -j 4021 --stop-position 9144 binlog.000042 -r undo.sql
      write to a file that isn't there yet; -r is the same as --result-file, -j as --start-position
  binlog undo -j 4021 --stop-position 9144 binlog.000042 -r undo.sql --force
      replace a file that is there
  binlog undo -j 4021 --stop-position 9144 binlog.000042 | mysql
      undo it on a server
  binlog undo -j 4021 --stop-position 9144 binlog.000042 --later binlog.000043 --later binlog.000044 | mysql
      look at what the next two logs have, too
  binlog undo --at 4021 binlog.000042 --dry-run
      the transaction that starts at this position; --at can be given several times
  binlog undo --thread 13 binlog.000042 --dry-run
      all transactions of one connection of a client, and none of the others between them
  binlog undo --thread 13 binlog.000042 binlog.000043 --dry-run
      the same in two logs, of which the second goes on where the first ends
  binlog undo --gtid 283c105d-e730-11f1-97ff-02fc00000001:6 binlog.000042 | mysql
      the transaction with this GTID; 5-9 in place of 6: those from 5 to 9
  binlog undo --start-datetime '2026-11-21 02:02:00' --stop-datetime '2026-11-21 02:03:00' binlog.000042 --dry-run
      those of the first time or later that are before the second
  binlog undo --utc -j 4021 --stop-position 9144 binlog.000042 --dry-run
      times in UTC; --time-zone Europe/Berlin: in that zone
  binlog undo -j 4021 --stop-position 9144 -T shop.orders binlog.000042 | mysql
      only in one table; -T is the same as --table
  binlog undo -j 4021 --stop-position 9144 -d shop binlog.000042 | mysql
      only in the tables of one database; -d is the same as --database
  binlog undo --rewrite-db shop:scratch -j 4021 --stop-position 9144 binlog.000042 | mysql
      try it first in a copy of the tables in another database; other databases stay as they are
  binlog undo --each-transaction -j 4021 --stop-position 9144 binlog.000042 | mysql
      commit what undoes each transaction by itself
  binlog undo --keep-times -j 4021 --stop-position 9144 binlog.000042 | mysql
      leave the times of the events as they are
  binlog undo --size 1000000 -j 4021 --stop-position 9144 binlog.000042 | mysql
      statements of at most 1,000,000 bytes
  binlog undo --binlog -j 4021 --stop-position 9144 binlog.000042 -r undo.binlog
      a binary log in place of SQL

Exit status: 0 done, 1 the log is refused or something failed, 2 the arguments are wrong.";

/// What `redo` does.
pub const REDO_ABOUT: &str = "\
Prints SQL that makes changes of LOG once more, in their order: after an undo that was a mistake, or on a
table that was brought back from a backup. Any mysql or mariadb client runs it, in one transaction: all of
it, or after any error nothing. The changes are those of the transactions from one position to another,
which binlog list shows. --at, --thread, --gtid, --start-datetime and --stop-datetime choose some of these
transactions: only their changes are made. LOG.. are logs of one server as they are, with checksums or without,
in its order and without a gap. With several, -j is a position of the first, and --stop-position one of the
last. --at goes with one. What is after the stop position doesn't count.
What can't be made once more is refused, with its position, and then nothing is written.
A report says what is made: on standard output with -r and with --dry-run, else on standard error.";

/// How `redo` is called.
pub const REDO_USAGE: &str = "\
binlog redo [-j POS] [--stop-position POS] [--at POS]..
                   [--thread N].. [--gtid GTID].. [--start-datetime TIME] [--stop-datetime TIME]
                   [-d NAME] [-T [NAME.]NAME]
                   [--each-transaction] [--keep-times] [--rewrite-db FROM:TO].. [--size BYTES]
                   [--utc | --time-zone NAME] [--binlog] [--dry-run] [--show]
                   [-r FILE [--force]] LOG..";

/// What there is to know of `redo`, with examples.
pub const REDO_AFTER_HELP: &str = "\
Positions are bytes from the start of LOG, decimal, 0 to 4294967295: where an event begins. Give the start
and the stop of transactions that binlog list prints; --at takes the start of one, or where its BEGIN is.
Names are compared byte by byte.
Without -d and -T the changes of all tables are made, with them only those of the chosen ones, and a statement
that names none of these is passed over.
Values of --at, of --thread and of --gtid are alternatives, and a transaction has to meet all options that are
given.
GTID and TIME are as binlog list has them. Times are those of this machine's time zone, unless --utc or
--time-zone is given.
The last line that the client prints has to say COMMIT. ROLLBACK, or no such line, means that nothing
was changed. Tables of an engine without transactions, such as MyISAM, keep what was changed before an error.
With --binlog a binary log is written, as by flashback --forward and binlog split. It isn't written to a
terminal.
What is written has rows of LOG in it: FILE appears once it is whole, and only its owner may read it.

Examples:
  binlog redo -j 4021 --stop-position 9144 binlog.000042 --dry-run
      see what would be made once more, and whether it can be
  binlog redo -j 4021 --stop-position 9144 binlog.000042 -r redo.sql
      write to a file that isn't there yet; -r is the same as --result-file, -j as --start-position
  binlog redo -j 4021 --stop-position 9144 binlog.000042 -r redo.sql --force
      replace a file that is there
  binlog redo --at 4021 binlog.000042 --dry-run
      the transaction that starts at this position; --at can be given several times
  binlog redo --thread 13 binlog.000042 --dry-run
      only the transactions of one connection of a client
  binlog redo --gtid 283c105d-e730-11f1-97ff-02fc00000001:6 binlog.000042 --dry-run
      the transaction with this GTID; 5-9 in place of 6: those from 5 to 9
  binlog redo --utc --start-datetime '2026-11-21 02:02:00' --stop-datetime '2026-11-21 02:03:00' binlog.000042 --dry-run
      those of the first time or later that are before the second, both in UTC
  binlog redo -T shop.orders binlog.000042 | mysql
      all changes of one table; -T is the same as --table
  binlog redo -d shop binlog.000042 | mysql
      those of one database; -d is the same as --database
  binlog redo --rewrite-db shop:scratch -d shop binlog.000042 | mysql
      make them in a copy of the tables in another database; other databases stay as they are
  binlog redo --each-transaction -d shop binlog.000042 | mysql
      commit each transaction by itself; after an error neither it nor a later one is committed
  binlog redo --keep-times -d shop binlog.000042 | mysql
      leave the times of the events as they are
  binlog redo --size 1000000 -d shop binlog.000042 | mysql
      statements of at most 1,000,000 bytes
  binlog redo --binlog -d shop binlog.000042 -r redo.binlog
      a binary log in place of SQL

Exit status: 0 done, 1 the log is refused or something failed, 2 the arguments are wrong.";
