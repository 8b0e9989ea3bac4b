//! Requests that are refused, and those that are served.

use crate::Refusing;
use linked_list_allocator::LocalHeap;
use std::test::Fail;

/// A heap with room for what the tests take.
const ROOM: usize = 4096;

#[test]
fn the_first_request_is_refused(rt: HostRuntime) -> Result<(), Fail> {
    let refusing = Refusing::new(rt.alloc(), 1);
    assert!(rt; !refusing.has_refused());
    assert!(rt; Box::new(&refusing, 7u8).is_err());
    assert!(rt; refusing.has_refused());
    assert_eq!(rt; *Box::new(&refusing, 8u8)?, 8);
    Ok(())
}

#[test]
fn the_third_request_is_refused_and_the_others_are_served(rt: HostRuntime) -> Result<(), Fail> {
    let refusing = Refusing::new(rt.alloc(), 3);
    for number in 1..=6u8 {
        let served = Box::new(&refusing, number);
        assert_eq!(rt; served.is_ok(), number != 3);
        assert_eq!(rt; refusing.has_refused(), number >= 3);
        if let Ok(block) = served {
            assert_eq!(rt; *block, number);
        }
    }
    Ok(())
}

#[test]
fn a_refused_growth_leaves_the_vector_as_it_was(rt: HostRuntime) -> Result<(), Fail> {
    let refusing = Refusing::new(rt.alloc(), 2);
    let mut bytes = Vec::with_capacity(&refusing, 3)?;
    for byte in 1..=3u8 {
        bytes.push(byte)?;
    }
    let capacity = bytes.capacity();
    assert!(rt; bytes.reserve(100).is_err());
    assert_eq!(rt; bytes.as_slice(), [1, 2, 3].as_slice());
    assert_eq!(rt; bytes.capacity(), capacity);
    bytes.reserve(100)?;
    assert_eq!(rt; bytes.as_slice(), [1, 2, 3].as_slice());
    assert!(rt; bytes.capacity() >= 103);
    Ok(())
}

#[test]
fn a_number_beyond_the_last_request_refuses_nothing(rt: HostRuntime) -> Result<(), Fail> {
    for number in [0, 4, usize::MAX] {
        let refusing = Refusing::new(rt.alloc(), number);
        for value in 0..3u8 {
            assert_eq!(rt; *Box::new(&refusing, value)?, value);
        }
        assert!(rt; !refusing.has_refused());
    }
    Ok(())
}

#[test]
fn all_that_was_taken_is_given_back(rt: HostRuntime) -> Result<(), Fail> {
    for number in 1..=8 {
        let heap = LocalHeap::new(rt.alloc(), ROOM)?;
        let refusing = Refusing::new(&heap, number);
        let mut words = Vec::new(&refusing);
        for word in 0..64u64 {
            if words.push(word).is_err() {
                assert!(rt; refusing.has_refused());
            }
        }
        words.shrink_to_fit();
        assert!(rt; heap.used() >= 63 * 8);
        drop(words);
        assert_eq!(rt; heap.used(), 0);
    }
    Ok(())
}
