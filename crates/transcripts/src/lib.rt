//! Transcripts: runs of a program over files in a folder of their own, as a script.
//!
//! Each line of a script is one of these. `BYTES` is the name of a log, or `@NAME` for the bytes of a file, and then words that change
//! them in turn: `..N` takes the first N bytes, `^N` flips the last bit of byte N, `N=B` sets byte N to B.
//!
//! | Line | Meaning |
//! |---|---|
//! | `file NAME BYTES` | there is a file of these bytes |
//! | `log NAME PARTS` | there is a log of these events: `begin`, `commit`, `xid`, `query:TEXT`, `gtid:N`, `rotate:LOG`, `other:TYPE:LENGTH` with zeros, `event:TYPE:FLAGS:BODY`; `map:ID:TABLE`, of a table in `d` of one integer, and `map:ID:TABLE/N` of up to 3 of them; and `insert:ID:ROWS`, `delete:ID:ROWS`, `update:ID:ROWS` with rows between commas, of an update in turn before and after, and the values of a row between `/`, with `+old` of version 1, and with `+open` if another follows in the statement. In TEXT, LOG, BODY and TABLE `\xHH` is the byte of these two hexadecimal digits. `server:5.5` first: the log of such a server |
//! | `text NAME TEXT` | there is a file of this text, without a line feed; `\xHH` in it is the byte of these two hexadecimal digits |
//! | `link NAME OLD` | the file OLD has a second name |
//! | `folder NAME` | there is a folder |
//! | `remove NAME` | the file is removed |
//! | `$ WORDS` | a run with these arguments; one in apostrophes may have blanks, and an `@` before a name stands for the folder's path |
//! | `= STATUS` | the run ends with this status, and with 0 if there is no such line |
//! | `> TEXT` | it writes this line to standard output |
//! | `! TEXT` | it writes this line to standard error |
//! | `>+ BYTES` | it writes these bytes next to standard output |
//! | `!+ BYTES` | it writes these bytes next to standard error |
//! | `>~ TEXT` | it writes this text to standard output, among others |
//! | `!~ TEXT` | its next line on standard error begins so: its first one, and then those behind; and the last ends with a line feed |
//! | `>* NAME` | what it writes to standard output, whatever it is, is put into the file NAME |
//! | `same NAME BYTES` | the file has these bytes |
//! | `differ NAME BYTES` | it has others |
//! | `none NAME` | there is no file of this name |
//!
//! An empty line means nothing, nor does one that begins with `# `. In what is written the folder's path is shown as `@`, too. Where the
//! lines of a run look at one of its two outputs only by `>`, `!`, `>+` and `!+`, or not at all, it writes nothing else there.
#![tactic(auto)]

mod files;
mod parts;
mod runs;
mod stage;
mod words;
mod wrong;

pub use files::play_files;
pub use runs::Program;
pub use stage::{Named, play};
pub use wrong::Wrong;
