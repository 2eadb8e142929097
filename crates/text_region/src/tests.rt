//! A region is made if there is enough memory, and lends what was put into it. No clause says that there is enough.
use crate::{Region, Span};
use std::mem::size_of;
use std::test::Fail;

// Requires of a type that any thread may own it, or refer to it.
fn crosses_threads<T: Send + Sync>() {}

// A region and its spans may be used by any thread, because what is built on them is shared among threads.
#[test]
fn threads_share_a_region() {
    crosses_threads::<Region>();
    crosses_threads::<Span>();
}

// Two texts with an empty one between them, in a region of 8 bytes: 3 bytes are left, and each text reads back.
#[test]
fn three_texts(rt: HostRuntime) -> Result<(), Fail> {
    let mut region = Region::new(rt.alloc(), 8)?;
    assert_eq!(rt; region.spare(), 8);
    let first = region.put("ab");
    let empty = region.put("");
    let last = region.put("cde");
    assert_eq!(rt; region.spare(), 3);
    assert!(rt; region.text(first) == "ab");
    assert!(rt; region.text(empty) == "");
    assert!(rt; region.text(last) == "cde");
    assert!(rt; first != last);
    assert_eq!(rt; size_of::<Span>(), 8);
    Ok(())
}

// A short text that has no room is copied. A longer one than all before it is taken over with its memory, and one that
// fits into the room that this leaves is copied again. The buffer is empty each time, and each text reads back.
#[test]
fn texts_of_a_buffer(rt: HostRuntime) -> Result<(), Fail> {
    let mut region = Region::new(rt.alloc(), 3)?;
    let mut buffer = String::from_str(rt.alloc(), "abc")?;
    let first = region.put_buffer(&mut buffer)?;
    buffer.reserve(16)?;
    buffer.push_str("defgh")?;
    let taken = region.put_buffer(&mut buffer)?;
    assert_eq!(rt; buffer.capacity(), 0);
    assert!(rt; region.spare() >= 2);
    buffer.push_str("i")?;
    let last = region.put_buffer(&mut buffer)?;
    assert!(rt; buffer.is_empty());
    assert!(rt; region.text(first) == "abc");
    assert!(rt; region.text(taken) == "defgh");
    assert!(rt; region.text(last) == "i");
    Ok(())
}
