//! The time zone of a list, and the files of the system that zones are read from.

ghost use Rattle.std.specs.Prelude.{IfOk, IfSome};
ghost use Rattle.jiff.specs.Words.{plain_zone};
ghost use Rattle.binlog_arguments.specs.Zones.{HasName, IsZoneOf};

use jiff::Error;
use jiff::tz::{TimeZone, Tzif};
use jiff_tz::{SystemTimeZone, posix};
use std::alloc::AllocError;
use std::io::Read;
use std::rt::{Env, Files};
use std::{env, fs, io};

/// A time zone, with the data of its clock.
#[derive(Drop)]
pub enum Zone {
    /// UTC.
    Utc,
    /// A rule of POSIX, as `CET-1CEST,M3.5.0,M10.5.0/3`.
    Rule(posix::TimeZone),
    /// The table of a zone file.
    Table(Tzif),
}

impl Zone {
    /// Returns the zone for jiff.
    pub fn time_zone(&self) -> TimeZone<'_>
        ensures { IsZoneOf self.now (plain_zone result) }
    {
        match self {
            Zone::Utc => TimeZone::UTC,
            Zone::Rule(rule) => TimeZone::from_plain(jiff_tz::TimeZone::Posix(*rule)),
            Zone::Table(table) => TimeZone::tzif(table),
        }
    }
}

/// Where systems keep their zone files.
const FOLDERS: [&str; 3] = [
    "/usr/share/zoneinfo",
    "/usr/share/lib/zoneinfo",
    "/etc/zoneinfo",
];

/// The most bytes of a zone file. Those of the IANA time zone database have a few kilobytes.
const MOST_BYTES: u64 = 1 << 20;

/// Returns the time zone of the machine: that of `TZ`, or else of `/etc/localtime`; and UTC where that can't be found.
pub fn system_zone<R: Files + Env + AllocGlobal>(rt: &R) -> Result<Zone, AllocError> {
    match SystemTimeZone::read(rt) {
        Ok(SystemTimeZone::Utc) => Ok(Zone::Utc),
        Ok(SystemTimeZone::Posix(rule)) => Ok(Zone::Rule(rule)),
        Ok(SystemTimeZone::Tzif(table)) => Ok(Zone::Table(table)),
        Ok(SystemTimeZone::Name { name, link, file }) => {
            if let Some(zone) = named_zone(rt, name.as_str())? {
                return Ok(zone);
            }
            linked_zone(rt, link, file)
        }
        Err(Error::OutOfMemory) => Err(AllocError),
        Err(_) => Ok(Zone::Utc),
    }
}

/// Returns the zone of the name that a link has, or else of the file, or UTC.
fn linked_zone<R: Files + Env + AllocGlobal>(
    rt: &R,
    link: Option<String>,
    file: Option<Tzif>,
) -> Result<Zone, AllocError> {
    if let Some(name) = link {
        if let Some(zone) = named_zone(rt, name.as_str())? {
            return Ok(zone);
        }
    }
    match file {
        Some(table) => Ok(Zone::Table(table)),
        None => Ok(Zone::Utc),
    }
}

/// Returns the zone of a name of the IANA time zone database, such as `Europe/Berlin`: that of its file below the folder that
/// `TZDIR` names, or else below one of the usual ones. `UTC` needs no file.
pub fn named_zone<R: Files + Env + AllocGlobal>(
    rt: &R,
    name: &str,
) -> Result<Option<Zone>, AllocError>
    ensures { IfOk result (λ found. IfSome found (HasName name.now)) }
{
    if name == "UTC" {
        return Ok(Some(Zone::Utc));
    }
    match env::var(rt, "TZDIR") {
        Ok(folder) => {
            if let Some(zone) = zone_in(rt, folder.as_str(), name)? {
                return Ok(Some(zone));
            }
        }
        Err(env::VarError::OutOfMemory) => return Err(AllocError),
        Err(_) => {}
    }
    for folder in FOLDERS {
        if let Some(zone) = zone_in(rt, folder, name)? {
            return Ok(Some(zone));
        }
    }
    Ok(None)
}

/// Returns the zone of a name below a folder.
pub fn zone_in<R: Files + AllocGlobal>(
    rt: &R,
    folder: &str,
    name: &str,
) -> Result<Option<Zone>, AllocError>
    ensures { IfOk result (λ found. IfSome found (HasName name.now)) }
{
    if !is_zone_name(name) {
        return Ok(None);
    }
    let path = format!(in rt.alloc(); "{folder}/{name}")?;
    match read_table(rt, path.as_str(), name) {
        Ok(table) => Ok(Some(Zone::Table(table))),
        Err(Error::OutOfMemory) => Err(AllocError),
        Err(_) => Ok(None),
    }
}

/// Returns whether a text can be a zone's name, and leads to no file outside of the folder. `posix` has the zones again, and
/// `right` has them with leap seconds, which events don't count. `localtime` and `posixrules` are names of other zones, and
/// `Factory` is the zone of a machine whose zone isn't set.
fn is_zone_name(name: &str) -> bool {
    name != "localtime"
        && name != "posixrules"
        && name != "Factory"
        && !name.starts_with("posix/")
        && !name.starts_with("right/")
        && name.split('/').all(is_part)
}

/// Whether a text can be a part of a zone's name: a letter, and then letters, digits, `_`, `+` and `-`.
fn is_part(text: &str) -> bool {
    text.starts_with(|c: char| c.is_ascii_alphabetic())
        && text.bytes().all(|byte| {
            byte.is_ascii_alphanumeric() || byte == b'_' || byte == b'+' || byte == b'-'
        })
}

/// Reads the zone file of this path, and gives the zone this name.
fn read_table<R: Files + AllocGlobal>(rt: &R, path: &str, name: &str) -> Result<Tzif, Error>
    ensures { IfOk result (λ table. HasName name.now (Zone.Table table)) }
{
    // a pipe or a device might never end
    if !fs::metadata(rt, path)?.is_file() {
        return Err(Error::Io(io::ErrorKind::InvalidInput));
    }
    let mut bytes = Vec::new(rt.alloc());
    let mut file = fs::open(rt, path)?.take(MOST_BYTES);
    file.read_to_end(&mut bytes)?;
    Tzif::parse(rt.alloc(), Some(name), bytes.as_slice())
}
