//! Writers that fail or take little: what was written by then. Each command's text is written by
//! this one call.

use std::alloc::Global;
use std::io::{self, Write};
use std::process::Abort;
use waff_inputs::{ToolError, deliver};
use waff_samples::PLAN_H1_X1;

/// Has room for some bytes, of which it takes a few at once, and then fails, or takes none.
#[derive(Drop)]
struct Narrow {
    room: usize,
    at_once: usize,
    fails: bool,
    taken: Vec<u8>,
}

impl Write for Narrow {
    fn write(&mut self, bytes: &[u8]) -> io::Result<usize> {
        let count = bytes.len().min(self.room).min(self.at_once);
        if count == 0 && self.fails {
            return Err(io::Error::from(io::ErrorKind::BrokenPipe));
        }
        self.taken.extend_from_slice(&bytes[..count])?;
        self.room -= count;
        Ok(count)
    }

    fn flush(&mut self) -> io::Result<()> {
        Ok(())
    }
}

/// A writer with this much room, that takes so many bytes at once, has to be left with as much of
/// the text as it has room for, and `Write` has to come only where that is not all.
fn takes(rt: &impl Abort, alloc: Global, room: usize, at_once: usize, fails: bool) {
    let taken = Vec::new(alloc);
    let mut writer = Narrow {
        room,
        at_once,
        fails,
        taken,
    };
    let text = String::from_str(alloc, PLAN_H1_X1).expect(rt, "a text");
    let refused = deliver(&mut writer, Ok(text)).err();
    let end = room.min(PLAN_H1_X1.len());
    assert_eq!(rt; writer.taken.as_slice(), &PLAN_H1_X1.as_bytes()[..end]);
    let wanted = if end < PLAN_H1_X1.len() {
        Some(ToolError::Write)
    } else {
        None
    };
    assert!(rt; refused == wanted, "{room}: {refused:?}");
}

#[test]
fn leaves_the_part_that_was_taken(rt: HostRuntime) {
    for room in 0..PLAN_H1_X1.len() + 1 {
        for at_once in [1, 50] {
            takes(&rt, rt.alloc(), room, at_once, true);
            takes(&rt, rt.alloc(), room, at_once, false);
        }
    }
}

#[test]
fn begins_with_the_first_ten_bytes(rt: HostRuntime) {
    let room = 10;
    let mut writer = Narrow {
        room,
        at_once: room,
        fails: true,
        taken: Vec::new(rt.alloc()),
    };
    let text = String::from_str(rt.alloc(), PLAN_H1_X1).expect(&rt, "a text");
    let refused = deliver(&mut writer, Ok(text)).err();
    assert!(rt; refused == Some(ToolError::Write), "{refused:?}");
    assert_eq!(rt; writer.taken.as_slice(), b"message,af".as_slice());
}
