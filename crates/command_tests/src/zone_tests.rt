//! Time zones, from files below a folder for temporary files.

use binlog_arguments::{Zone, zone_in};
use blog_list::{Side, TimeFault, seconds_of, time_text};
use command_runs::path_of;
use jiff::tz::TimeZone;
use std::fs;
use std::process::Abort;
use std::test::Fail;

/// A zone file with the rules of Berlin since 1996: a header, an empty block of version 1, the header of version 2, a local
/// time type and its abbreviation, and the rule.
const FILE: &[u8] =
    b"TZif2\0\0\0\0\0\0\0\0\0\0\0\0\0\0\0\0\0\0\0\0\0\0\0\0\0\0\0\0\0\0\0\0\0\0\x01\0\0\0\x01\
    \0\0\0\0\0\0\0TZif2\0\0\0\0\0\0\0\0\0\0\0\0\0\0\0\0\0\0\0\0\0\0\0\0\0\0\0\0\0\0\0\0\0\0\x01\0\0\0\x04\
    \0\0\x0e\x10\0\0CET\0\nCET-1CEST,M3.5.0,M10.5.0/3\n";

/// Checks the zone's name and what its clock shows.
fn check_zone(rt: &(impl Abort), zone: &Zone, name: &str) {
    let clock = zone.time_zone();
    assert!(rt; clock.iana_name() == Some(name));
    assert!(rt; time_text(clock, 1_792_886_400).as_str() == "2026-10-25 02:00:00");
    assert!(rt; time_text(clock, 1_792_890_000).as_str() == "2026-10-25 02:00:00");
    let skipped = seconds_of("2026-03-29 02:30:00", clock, Side::Start);
    assert!(rt; skipped == Err(TimeFault::Skipped));
}

#[test]
fn zones_are_read_from_their_files(rt: HostRuntime) -> Result<(), Fail> {
    let folder = path_of(&rt, "zones")?;
    let below = format!(in rt.alloc(); "{}/Here", folder.as_str())?;
    let file = format!(in rt.alloc(); "{}/Here/Our_Town", folder.as_str())?;
    fs::create_dir_all(&rt, below.as_str())?;
    fs::write(&rt, file.as_str(), FILE)?;
    let found = zone_in(&rt, folder.as_str(), "Here/Our_Town")?;
    check_zone(&rt, found.as_ref().ok_or("no zone")?, "Here/Our_Town");
    for name in ["localtime", "posixrules", "Factory"] {
        let alias = format!(in rt.alloc(); "{}/{name}", folder.as_str())?;
        fs::write(&rt, alias.as_str(), FILE)?;
        assert!(rt; zone_in(&rt, folder.as_str(), name)?.is_none(), "{name}");
    }
    for name in [
        "Here",
        "Here/Other",
        "here/our_town",
        "Here//Our_Town",
        "./Here/Our_Town",
        "Here/../Here/Our_Town",
        "/Here/Our_Town",
        "",
    ] {
        assert!(rt; zone_in(&rt, folder.as_str(), name)?.is_none(), "{name}");
    }
    fs::write(&rt, file.as_str(), b"no zone")?;
    assert!(rt; zone_in(&rt, folder.as_str(), "Here/Our_Town")?.is_none());
    fs::remove_dir_all(&rt, folder.as_str())?;
    Ok(())
}

#[test]
fn zones_have_clocks(rt: HostRuntime) -> Result<(), Fail> {
    assert!(rt; Zone::Utc.time_zone() == TimeZone::UTC);
    let rule = jiff_tz::posix::TimeZone::parse(b"CET-1CEST,M3.5.0,M10.5.0/3")?;
    let zone = Zone::Rule(rule);
    let shown = time_text(zone.time_zone(), 1_792_890_000);
    assert!(rt; shown.as_str() == "2026-10-25 02:00:00");
    Ok(())
}
