//! Global transaction ids that are asked for: how they are read, and which ids are among them.

use blog_request::GlobalIds;
use blog_units::GlobalId;
use std::process::Abort;
use std::test::Fail;

/// A server's id as text.
const SERVER: &str = "283c105d-e730-11f1-97ff-02fc00000001";

/// The same as bytes.
const BYTES: [u8; 16] = [
    0x28, 0x3c, 0x10, 0x5d, 0xe7, 0x30, 0x11, 0xf1, 0x97, 0xff, 0x02, 0xfc, 0, 0, 0, 1,
];

/// Checks what ids a text spells whose server is `SERVER`.
fn check_read(
    rt: &(impl AllocGlobal + Abort),
    rest: &str,
    tag: &[u8],
    first: u64,
    last: u64,
) -> Result<(), Fail> {
    let text = format!(in rt.alloc(); "{SERVER}{rest}")?;
    let ids = GlobalIds {
        server: BYTES,
        tag,
        first,
        last,
    };
    assert!(rt; GlobalIds::read(text.as_bytes()) == Some(ids), "{rest}");
    Ok(())
}

#[test]
fn ids_are_read_in_each_form(rt: HostRuntime) -> Result<(), Fail> {
    check_read(&rt, ":9", b"", 9, 9)?;
    check_read(&rt, ":9-9", b"", 9, 9)?;
    check_read(&rt, ":9-12", b"", 9, 12)?;
    check_read(
        &rt,
        ":1-18446744073709551615",
        b"",
        1,
        18_446_744_073_709_551_615,
    )?;
    check_read(&rt, ":007", b"", 7, 7)?;
    check_read(&rt, ":tag1:9", b"tag1", 9, 9)?;
    check_read(&rt, ":_:9-12", b"_", 9, 12)?;
    check_read(&rt, ":z_0:9", b"z_0", 9, 9)?;
    let longest = "abcdefghijklmnopqrstuvwxyz_12345";
    let rest = format!(in rt.alloc(); ":{longest}:3")?;
    check_read(&rt, rest.as_str(), longest.as_bytes(), 3, 3)
}

#[test]
fn a_server_is_read_in_either_case(rt: HostRuntime) -> Result<(), Fail> {
    for text in [
        "283C105D-E730-11F1-97FF-02FC00000001:9",
        "283c105D-E730-11f1-97fF-02Fc00000001:9",
    ] {
        let ids = GlobalIds::read(text.as_bytes()).expect(&rt, "ids");
        assert!(rt; ids.server == BYTES);
    }
    Ok(())
}

/// Checks that no text of this server and one of these endings spells ids.
fn check_refused(
    rt: &(impl AllocGlobal + Abort),
    server: &str,
    endings: &[&str],
) -> Result<(), Fail> {
    for rest in endings {
        let text = format!(in rt.alloc(); "{server}{rest}")?;
        assert!(rt; GlobalIds::read(text.as_bytes()) == None, "{text}");
    }
    Ok(())
}

#[test]
fn wrong_numbers_are_refused(rt: HostRuntime) -> Result<(), Fail> {
    let endings = [
        "",
        ":",
        ":0",
        ":0-4",
        ":-",
        ":-4",
        ":4-",
        ":5-4",
        ":4-5-6",
        ":4,5",
        ":+4",
        ":4-+5",
        ":4 ",
        ": 4",
        ":4a",
        ":0x4",
        ":18446744073709551616",
        ":1-18446744073709551616",
        ":99999999999999999999999999",
        ":4:5:6",
        ":\u{661}",
        "-4",
    ];
    check_refused(&rt, SERVER, &endings)
}

#[test]
fn wrong_tags_are_refused(rt: HostRuntime) -> Result<(), Fail> {
    let endings = [
        "::4",
        ":Tag:4",
        ":tAg:4",
        ":1tag:4",
        ":1:4",
        ":ta-g:4",
        ":ta g:4",
        ": tag:4",
        ":tag :4",
        ":t\u{E9}:4",
        ":tag:",
        ":tag",
        ":tag-4",
        ":abcdefghijklmnopqrstuvwxyz_123456:3",
    ];
    check_refused(&rt, SERVER, &endings)
}

#[test]
fn wrong_servers_are_refused(rt: HostRuntime) -> Result<(), Fail> {
    for server in [
        "",
        "283c105d",
        "283c105de73011f197ff02fc00000001",
        "283c105d-e730-11f1-97ff-02fc0000000",
        "283c105d-e730-11f1-97ff-02fc000000011",
        "283c105-de730-11f1-97ff-02fc00000001",
        "283c105d-e73-011f1-97ff-02fc00000001",
        "283c105d-e730-11f1-97f-f02fc00000001",
        "283c105d_e730_11f1_97ff_02fc00000001",
        "283c105g-e730-11f1-97ff-02fc00000001",
        "283c105d-e730-11f1-97ff-02fc0000000\u{661}",
        "{283c105d-e730-11f1-97ff-02fc0000000}",
        " 283c105d-e730-11f1-97ff-02fc00000001",
        "283c105d-e730-11f1-97ff-02fc00000001 ",
        "283c105d-e730-11f1-97ff--2fc00000001",
    ] {
        check_refused(&rt, server, &[":4", ":tag:4"])?;
    }
    Ok(())
}

/// Checks that the ids that a text spells have these numbers of a server and a tag, and none of the others.
fn check_numbers(
    rt: &impl Abort,
    text: &str,
    server: &[u8],
    tag: &[u8],
    among: &[u64],
    others: &[u64],
) {
    let ids = GlobalIds::read(text.as_bytes()).expect(rt, "ids");
    for number in among {
        let id = GlobalId {
            server,
            tag,
            number: *number,
        };
        assert!(rt; ids.has(&id), "{number}");
    }
    for number in others {
        let id = GlobalId {
            server,
            tag,
            number: *number,
        };
        assert!(rt; !ids.has(&id), "{number}");
    }
}

#[test]
fn ids_have_their_numbers_with_both_ends(rt: HostRuntime) -> Result<(), Fail> {
    let all = [0, 1, 8, 9, 10, 12, 13, 18_446_744_073_709_551_615];
    let text = "283c105d-e730-11f1-97ff-02fc00000001:9-12";
    let others = [0, 1, 8, 13, 18_446_744_073_709_551_615];
    check_numbers(&rt, text, &BYTES, b"", &[9, 10, 11, 12], &others);
    check_numbers(&rt, text, &BYTES, b"tag1", &[], &all);
    let mut other = BYTES;
    other[15] = 2;
    check_numbers(&rt, text, &other, b"", &[], &all);
    let text = "283c105d-e730-11f1-97ff-02fc00000001:tag1:9";
    check_numbers(&rt, text, &BYTES, b"tag1", &[9], &[0, 8, 10]);
    check_numbers(&rt, text, &BYTES, b"tag2", &[], &all);
    check_numbers(&rt, text, &BYTES, b"tag", &[], &all);
    check_numbers(&rt, text, &BYTES, b"", &[], &all);
    let text = "00000000-0000-0000-0000-000000000000:1-18446744073709551615";
    let numbers = [1, 18_446_744_073_709_551_615];
    check_numbers(&rt, text, &[0; 16], b"", &numbers, &[0]);
    Ok(())
}

/// Ids that no text spells: an id of zeros isn't known, and is among none.
#[test]
fn an_id_of_zeros_is_among_none(rt: HostRuntime) -> Result<(), Fail> {
    let ids = GlobalIds {
        server: [0; 16],
        tag: b"",
        first: 0,
        last: 5,
    };
    let mut id = GlobalId {
        server: &[0; 16],
        tag: b"",
        number: 0,
    };
    assert!(rt; !ids.has(&id));
    id.number = 1;
    assert!(rt; ids.has(&id));
    Ok(())
}
