//! Logs that scripts name, and that no line of a script makes.

use sample_logs::builder::{BEGIN, Part, T, Table, XID, build, insert, map_of};
use std::alloc::AllocError;

/// The bodies of Gtid events: a byte of flags, the server's id, and the number.
const FIRST: [u8; 25] = [
    0, 0, 0, 0, 0, 0, 0, 0, 0, 0, 0, 0, 0, 0, 0, 0, 0, 1, 0, 0, 0, 0, 0, 0, 0,
];

const SECOND: [u8; 25] = [
    0, 0, 0, 0, 0, 0, 0, 0, 0, 0, 0, 0, 0, 0, 0, 0, 0, 2, 0, 0, 0, 0, 0, 0, 0,
];

fn gtid(body: &[u8; 25]) -> Part<'_> {
    Part::Other {
        kind: 33,
        flags: 0,
        body,
    }
}

/// Two transactions that have a GTID, over a table that has another column in the second.
pub fn two_tables(rt: &impl AllocGlobal) -> Result<Vec<u8>, AllocError> {
    let short = Table { types: &[2], ..T };
    build(
        rt,
        &[
            gtid(&FIRST),
            BEGIN,
            Part::Map(T),
            insert(1, &[5]),
            XID,
            gtid(&SECOND),
            BEGIN,
            Part::Map(short),
            insert(1, &[]).over(1, &[0xFF], &[0xFE, 5, 0]),
            XID,
        ],
    )
}

/// The rows of the rows events of a statement, which have 531 and 456 bytes.
const EARLIER: [u8; 100] = [5; 100];

const LATER: [u8; 85] = [6; 85];

/// A log of a statement of two rows events. Its map has 36 bytes and the table's name.
pub fn whole(rt: &impl AllocGlobal, name: &[u8]) -> Result<Vec<u8>, AllocError> {
    let map = map_of(1, name);
    build(
        rt,
        &[
            BEGIN,
            map,
            insert(1, &EARLIER).open(),
            insert(1, &LATER),
            XID,
        ],
    )
}

/// The same, with a statement for each rows event.
pub fn cut(rt: &impl AllocGlobal, name: &[u8]) -> Result<Vec<u8>, AllocError> {
    let map = map_of(1, name);
    build(
        rt,
        &[BEGIN, map, insert(1, &EARLIER), map, insert(1, &LATER), XID],
    )
}

/// A map of a table `t` of one LONG column, in a schema whose name is the byte FF.
pub const MAP_OF_BYTES: Part<'static> = Part::Other {
    kind: 19,
    flags: 0,
    body: &[1, 0, 0, 0, 0, 0, 1, 0, 1, 0xFF, 0, 1, b't', 0, 1, 3, 0, 1],
};

/// A Gtid event of the number 9 of a server, with the tag `shop` and a control character.
pub const TAGGED_GTID: Part<'static> = Part::Other {
    kind: 33,
    flags: 0,
    body: &[
        0, 0x28, 0x3c, 0x10, 0x5d, 0xe7, 0x30, 0x11, 0xf1, 0x97, 0xff, 0x02, 0xfc, 0, 0, 0, 1, 9,
        0, 0, 0, 0, 0, 0, 0, 42, b's', b'h', b'o', b'p', 1,
    ],
};
