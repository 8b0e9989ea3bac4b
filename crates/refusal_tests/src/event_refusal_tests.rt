//! Events for which a file can't grow.

use blog_event::{Fault, Header, open_event, put_event};
use linked_list_allocator::LocalHeap;
use refusing::Refusing;
use sample_logs::builder::{Part, build, front};
use std::process::Abort;
use std::test::Fail;

/// A heap with room for a file and its growth, in bytes.
const ROOM: usize = 4096;

/// Requests up to this number are refused in turn.
const MOST_REQUESTS: usize = 20;

/// An event of the type 5, whose size and log position are wrong.
const HEADER: Header = Header {
    timestamp: 0,
    kind: 5,
    server_id: 1,
    size: 99,
    log_pos: 99,
    flags: 0,
};

/// How an event comes to a file's end.
#[derive(Clone, Copy)]
enum Appending {
    Put,
    /// With a body of zeros.
    Opened,
}

/// Appends an event to a file while the request of this number is refused, and answers whether it came to that. A
/// file without the event has its bytes and its capacity.
fn is_refused<R: AllocGlobal + Abort>(
    rt: &R,
    alloc: &Refusing<&LocalHeap>,
    appending: Appending,
) -> Result<bool, Fail> {
    let mut file = front().to_vec(alloc)?;
    let capacity = file.capacity();
    let parts: [&[u8]; 2] = [b"ab", b"c"];
    let (fault, body) = match appending {
        Appending::Put => (put_event(&mut file, HEADER, &parts).err(), b"abc"),
        Appending::Opened => (open_event(&mut file, HEADER, 3).err(), &[0; 3]),
    };
    if alloc.has_refused() {
        assert!(rt; fault == Some(Fault::OutOfMemory));
        assert!(rt; file.as_slice() == front());
        assert!(rt; file.capacity() == capacity);
    } else {
        let event = Part::Other {
            kind: 5,
            flags: 0,
            body,
        };
        assert!(rt; fault == None);
        assert!(rt; file.as_slice() == build(rt, &[event])?.as_slice());
    }
    Ok(alloc.has_refused())
}

/// Refuses each request in turn, up to the event that comes to the file: how many requests it makes.
fn requests_of<R: AllocGlobal + Abort>(rt: &R, appending: Appending) -> Result<usize, Fail> {
    let heap = LocalHeap::new(rt.alloc(), ROOM)?;
    for number in 0..MOST_REQUESTS {
        // The first request is for the file itself.
        let alloc = Refusing::new(&heap, number + 2);
        let refused = is_refused(rt, &alloc, appending)?;
        assert!(rt; heap.used() == 0);
        if !refused {
            return Ok(number);
        }
    }
    Err("more requests than are tried".into())
}

#[test]
fn a_refused_event_leaves_the_file_as_it_was(rt: HostRuntime) -> Result<(), Fail> {
    assert!(rt; requests_of(&rt, Appending::Put)? > 0);
    assert!(rt; requests_of(&rt, Appending::Opened)? > 0);
    Ok(())
}
