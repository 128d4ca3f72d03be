//! Input that is read whole, within a limit and from readers that fail.

use std::alloc::Global;
use std::io::{self, Read};
use std::process::Abort;
use waff_io::{ReadFault, read_whole};

/// Bytes read whole within a limit have to be all of them, or where a fault stands here to be
/// refused so.
fn is_read(rt: &impl Abort, alloc: Global, bytes: &[u8], limit: u64, fault: Option<ReadFault>) {
    let mut reader = bytes;
    match read_whole(alloc, &mut reader, limit) {
        Ok(whole) => {
            assert_eq!(rt; whole.as_slice(), bytes);
            assert!(rt; fault.is_none(), "{limit}: {fault:?}");
        }
        Err(found) => {
            assert!(rt; fault == Some(found), "{limit}: {found:?}");
        }
    }
}

#[test]
fn takes_all_within_the_limit(rt: HostRuntime) {
    is_read(&rt, rt.alloc(), b"abcde", 5, None);
    let fault = Some(ReadFault::TooLong);
    is_read(&rt, rt.alloc(), b"abcde", 4, fault);
    is_read(&rt, rt.alloc(), b"", 0, None);
}

/// Gives some bytes, a few at once, and then an error.
#[derive(Drop)]
struct Breaks {
    left: usize,
    at_once: usize,
}

impl Read for Breaks {
    fn read(&mut self, buffer: &mut [u8]) -> io::Result<usize> {
        let count = buffer.len().min(self.left).min(self.at_once);
        if count == 0 {
            return Err(io::Error::from(io::ErrorKind::Interrupted));
        }
        self.left -= count;
        Ok(count)
    }
}

/// The reader has to fail so at this limit.
fn fails(rt: &impl Abort, alloc: Global, mut reader: Breaks, limit: u64, fault: ReadFault) {
    let refused = read_whole(alloc, &mut reader, limit).err();
    assert!(rt;
        refused == Some(fault),
        "{} bytes left: {refused:?}",
        reader.left
    );
}

#[test]
fn fails_after_any_number_of_bytes(rt: HostRuntime) {
    for left in 0..210 {
        let fault = if left <= 200 {
            ReadFault::Failed
        } else {
            ReadFault::TooLong
        };
        for at_once in [1, 7, 1000] {
            fails(&rt, rt.alloc(), Breaks { left, at_once }, 200, fault);
        }
    }
    let (left, at_once) = (3, 3);
    let breaks = Breaks { left, at_once };
    fails(&rt, rt.alloc(), breaks, 5, ReadFault::Failed);
}
