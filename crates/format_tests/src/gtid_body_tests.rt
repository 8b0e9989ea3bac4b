//! The body of an event that a server 9.7.4 wrote, bodies that differ from it, and integers of each length.

use blog_gtid::{TaggedId, gtid_body, tagged_id};
use std::process::Abort;
use std::test::Fail;

/// The body of the GTID event of 9dc90577-e933-11f1-9db2-02fc00000001:tag1:1, without its checksum.
static WRITTEN: [u8; 57] = [
    0x02, 0x72, 0x00, // version 1, size 57, last field to know 0
    0x00, 0x00, // field 0: flags 0
    0x02, 0x75, 0x02, 0x25, 0x03, 0x0A, 0xEE, 0xA5, 0x03, 0x66, 0x22, 0xC5, 0x03, 0x75, 0x02, 0xC9,
    0x02, 0x04, 0xF1, 0x03, 0x00, 0x00, 0x00, 0x02, // field 1: the UUID
    0x04, 0x04, // field 2: number 1
    0x06, 0x08, 0x74, 0x61, 0x67, 0x31, // field 3: the tag
    0x08, 0x00, 0x0A, 0x04, 0x0C, 0x7F, 0x16, 0xBD, 0xBF, 0x5A, 0x23, 0x61, 0x06, 0x10, 0x29, 0x04,
    0x12, 0x83, 0x12, 0x0B, // fields 4 to 9
];

/// The server of that event.
static SERVER: [u8; 16] = [
    0x9D, 0xC9, 0x05, 0x77, 0xE9, 0x33, 0x11, 0xF1, 0x9D, 0xB2, 0x02, 0xFC, 0x00, 0x00, 0x00, 0x01,
];

/// A body without a tag, and with no field after the number.
static SHORTEST: [u8; 24] = [
    0x02, 0x30, 0x00, 0x00, 0x00, 0x02, 0x00, 0x00, 0x00, 0x00, 0x00, 0x00, 0x00, 0x00, 0x00, 0x00,
    0x00, 0x00, 0x00, 0x00, 0x00, 0x00, 0x04, 0x04,
];

/// A body whose fields have their greatest values, and whose tag has 32 bytes.
static GREATEST: [u8; 83] = [
    0x02, 0xA6, 0x00, // version 1, size 83, last field to know 0
    0x00, 0xFD, 0x03, // flags 255
    0x02, 0xFD, 0x03, 0xFD, 0x03, 0xFD, 0x03, 0xFD, 0x03, 0xFD, 0x03, 0xFD, 0x03, 0xFD, 0x03, 0xFD,
    0x03, 0xFD, 0x03, 0xFD, 0x03, 0xFD, 0x03, 0xFD, 0x03, 0xFD, 0x03, 0xFD, 0x03, 0xFD, 0x03, 0xFD,
    0x03, // each byte of the UUID 255
    0x04, 0xFF, 0xFE, 0xFF, 0xFF, 0xFF, 0xFF, 0xFF, 0xFF, 0xFF, // number 9,223,372,036,854,775,807
    0x06, 0x40, // a tag of 32 bytes
    0x7A, 0x7A, 0x7A, 0x7A, 0x7A, 0x7A, 0x7A, 0x7A, 0x7A, 0x7A, 0x7A, 0x7A, 0x7A, 0x7A, 0x7A, 0x7A,
    0x7A, 0x7A, 0x7A, 0x7A, 0x7A, 0x7A, 0x7A, 0x7A, 0x7A, 0x7A, 0x7A, 0x7A, 0x7A, 0x7A, 0x7A, 0x7A,
];

/// A body that can't be read.
fn check_unread(rt: &impl Abort, body: &[u8]) {
    assert!(rt; tagged_id(body) == None, "{} bytes", body.len());
    assert!(rt;
        gtid_body(body).as_slice() == [0; 25].as_slice(),
        "{} bytes",
        body.len()
    );
}

/// A body with another byte at a place.
fn changed<const N: usize>(rt: &impl Abort, body: [u8; N], place: usize, byte: u8) -> [u8; N] {
    let mut changed = body;
    *changed.get_mut(place).expect(rt, "a place in the body") = byte;
    changed
}

#[test]
fn reads_what_a_server_wrote(rt: HostRuntime) {
    let id = TaggedId {
        flags: 0,
        server: SERVER,
        number: 1,
        tag: b"tag1",
    };
    assert!(rt; tagged_id(&WRITTEN) == Some(id));
    let written = [
        0x00, 0x9D, 0xC9, 0x05, 0x77, 0xE9, 0x33, 0x11, 0xF1, 0x9D, 0xB2, 0x02, 0xFC, 0x00, 0x00,
        0x00, 0x01, 0x01, 0x00, 0x00, 0x00, 0x00, 0x00, 0x00, 0x00, 0x2A, 0x74, 0x61, 0x67, 0x31,
    ];
    assert!(rt; gtid_body(&WRITTEN).as_slice() == written.as_slice());
}

#[test]
fn reads_no_other_length(rt: HostRuntime) {
    for len in 0..WRITTEN.len() {
        check_unread(&rt, &WRITTEN[..len]);
    }
    let mut longer = [0; 58];
    longer[..57].copy_from_slice(&WRITTEN);
    check_unread(&rt, &longer);
}

#[test]
fn reads_the_least_and_the_greatest(rt: HostRuntime) {
    let least = TaggedId {
        flags: 0,
        server: [0; 16],
        number: 1,
        tag: b"",
    };
    assert!(rt; tagged_id(&SHORTEST) == Some(least));
    let greatest = TaggedId {
        flags: 255,
        server: [255; 16],
        number: 0x7FFF_FFFF_FFFF_FFFF,
        tag: b"zzzzzzzzzzzzzzzzzzzzzzzzzzzzzzzz",
    };
    assert!(rt; tagged_id(&GREATEST) == Some(greatest));
    let mut written = [0x7A; 58];
    written[..24].copy_from_slice(&[0xFF; 24]);
    written[24] = 0x7F;
    written[25] = 42;
    assert!(rt; gtid_body(&GREATEST).as_slice() == written.as_slice());
    for (place, byte) in [(5, 0x04), (8, 0x04), (38, 0x04), (41, 0xFF), (50, 0x42)] {
        check_unread(&rt, &changed(&rt, GREATEST, place, byte));
    }
}

#[test]
fn reads_no_longer_tag(rt: HostRuntime) {
    let mut longer = [0x7A; 84];
    longer[..83].copy_from_slice(&GREATEST);
    longer[1] = 0xA8;
    assert!(rt;
        gtid_body(&longer).as_slice() == gtid_body(&GREATEST).as_slice(),
        "a byte after the tag"
    );
    longer[50] = 0x42;
    check_unread(&rt, &longer);
}

/// Places in what a server wrote, and bytes there with which it can't be read.
static UNREAD: [(usize, u8); 14] = [
    // version 0 and 2; size 56 and 58
    (0, 0x00),
    (0, 0x04),
    (1, 0x70),
    (1, 0x74),
    // fields that are missing or out of order
    (3, 0x02),
    (5, 0x00),
    (5, 0x04),
    (29, 0x02),
    (29, 0x06),
    (31, 0x00),
    (31, 0x04),
    // numbers -1 and -2
    (30, 0x02),
    (30, 0x06),
    // a tag one byte longer than the rest
    (32, 0x32),
];

#[test]
fn reads_nothing_else(rt: HostRuntime) {
    for (place, byte) in UNREAD {
        check_unread(&rt, &changed(&rt, WRITTEN, place, byte));
    }
}

/// Places in what a server wrote, bytes there, and the flags, the number and the tag that are read with them.
static READ: [(usize, u8, u8, u64, &[u8]); 6] = [
    // another last field to know, other flags, other numbers
    (2, 0x10, 0, 1, b"tag1"),
    (4, 0x02, 1, 1, b"tag1"),
    (30, 0x00, 0, 0, b"tag1"),
    (30, 0xFC, 0, 63, b"tag1"),
    // a later field in place of the tag, and an empty tag
    (31, 0x08, 0, 1, b""),
    (32, 0x00, 0, 1, b""),
];

#[test]
fn reads_each_field(rt: HostRuntime) {
    for (place, byte, flags, number, tag) in READ {
        let id = TaggedId {
            flags,
            server: SERVER,
            number,
            tag,
        };
        let body = changed(&rt, WRITTEN, place, byte);
        assert!(rt; tagged_id(&body) == Some(id), "{byte} at {place}");
        let len = if tag.is_empty() { 25 } else { 30 };
        assert!(rt; gtid_body(&body).len() == len, "{byte} at {place}");
    }
}

/// Integers, the least and the greatest of each length first.
static INTEGERS: [(&[u8], u64); 32] = [
    (b"\x00", 0),
    (b"\xFC", 0x7E),
    (b"\xFE", 0x7F),
    (b"\x01\x02", 0x80),
    (b"\xF9\xFF", 0x3FFE),
    (b"\xFD\xFF", 0x3FFF),
    (b"\x03\x00\x02", 0x4000),
    (b"\xF3\xFF\xFF", 0x1F_FFFE),
    (b"\xFB\xFF\xFF", 0x1F_FFFF),
    (b"\x07\x00\x00\x02", 0x20_0000),
    (b"\xE7\xFF\xFF\xFF", 0xFFF_FFFE),
    (b"\xF7\xFF\xFF\xFF", 0xFFF_FFFF),
    (b"\x0F\x00\x00\x00\x02", 0x1000_0000),
    (b"\xCF\xFF\xFF\xFF\xFF", 0x7_FFFF_FFFE),
    (b"\xEF\xFF\xFF\xFF\xFF", 0x7_FFFF_FFFF),
    (b"\x1F\x00\x00\x00\x00\x02", 0x8_0000_0000),
    (b"\x9F\xFF\xFF\xFF\xFF\xFF", 0x3FF_FFFF_FFFE),
    (b"\xDF\xFF\xFF\xFF\xFF\xFF", 0x3FF_FFFF_FFFF),
    (b"\x3F\x00\x00\x00\x00\x00\x02", 0x400_0000_0000),
    (b"\x3F\xFF\xFF\xFF\xFF\xFF\xFF", 0x1_FFFF_FFFF_FFFE),
    (b"\xBF\xFF\xFF\xFF\xFF\xFF\xFF", 0x1_FFFF_FFFF_FFFF),
    (b"\x7F\x00\x00\x00\x00\x00\x00\x02", 0x2_0000_0000_0000),
    (b"\x7F\xFE\xFF\xFF\xFF\xFF\xFF\xFF", 0xFF_FFFF_FFFF_FFFE),
    (b"\x7F\xFF\xFF\xFF\xFF\xFF\xFF\xFF", 0xFF_FFFF_FFFF_FFFF),
    (
        b"\xFF\x00\x00\x00\x00\x00\x00\x00\x01",
        0x100_0000_0000_0000,
    ),
    (
        b"\xFF\xFE\xFF\xFF\xFF\xFF\xFF\xFF\xFF",
        0xFFFF_FFFF_FFFF_FFFE,
    ),
    (
        b"\xFF\xFF\xFF\xFF\xFF\xFF\xFF\xFF\xFF",
        0xFFFF_FFFF_FFFF_FFFF,
    ),
    // bytes of different values
    (b"\x79\x02", 0x9E),
    (b"\x7F\x16\xBD\xBF\x5A\x23\x61\x06", 0x06_6123_5ABF_BD16),
    (
        b"\xFF\x02\x03\x04\x05\x06\x07\x08\x09",
        0x0908_0706_0504_0302,
    ),
    // longer than they have to be
    (b"\x01\x00", 0),
    (b"\xFF\x02\x00\x00\x00\x00\x00\x00\x00", 2),
];

/// The tag that comes after an integer.
static NEXT_FIELD: [u8; 3] = [0x06, 0x02, 0x61];

/// A body whose number is spelled with these bytes. An even integer is its half, an odd one is below 0.
fn with_integer(rt: &HostRuntime, integer: &[u8]) -> Result<Vec<u8>, Fail> {
    let mut body = SHORTEST[..23].to_vec(rt.alloc())?;
    body.extend_from_slice(integer)?;
    body.extend_from_slice(&NEXT_FIELD)?;
    body[1] = u8::try_from(2 * body.len())?;
    Ok(body)
}

#[test]
fn reads_integers_of_each_length(rt: HostRuntime) -> Result<(), Fail> {
    for (bytes, value) in INTEGERS {
        let body = with_integer(&rt, bytes)?;
        let read = tagged_id(&body).map(|id| (id.number, id.tag));
        let wanted = (value % 2 == 0).then_some((value / 2, b"a".as_slice()));
        assert!(rt; read == wanted, "{value}");
        let (_, front) = bytes.split_last().ok_or("an integer of no bytes")?;
        let cut = with_integer(&rt, front)?;
        assert!(rt; tagged_id(&cut) == None, "{value} without its last byte");
    }
    Ok(())
}
