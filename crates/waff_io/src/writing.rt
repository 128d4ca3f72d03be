//! Bytes written out.
ghost use Rattle.std.specs.Prelude.{OnOk, OnErr};
ghost use Rattle.std.specs.Io.KnownBytes.{Appends};
ghost use Rattle.waff_io.specs.Writing.{AppendsPart};

use std::io::Write;

/// The writer gave an error, an interruption too, or took no byte of those that were left.
#[derive(Clone, Copy, Debug, PartialEq)]
pub struct WriteFault;

/// Writes all bytes. An interrupted write is not tried again.
pub fn write_whole<W: Write>(writer: &mut W, text: &[u8]) -> Result<(), WriteFault>
    ensures written { OnOk result
        (Appends (W.contents writer.old) (W.contents writer.new) text.now) }
    ensures part { OnErr result
        (AppendsPart (W.contents writer.old) (W.contents writer.new) text.now) }
{
    let mut written = 0;
    while written < text.len() {
        match writer.write(&text[written..]) {
            Ok(0) | Err(_) => return Err(WriteFault),
            Ok(count) => written += count,
        }
    }
    Ok(())
}

#[cfg(test)]
mod tests {
    use super::*;
    use std::io;
    use std::test::Fail;

    /// Takes a few bytes at a time, and at last gives an error or takes none.
    #[derive(Drop)]
    struct Slow {
        room: usize,
        fails: bool,
        taken: Vec<u8>,
    }

    impl Write for Slow {
        fn write(&mut self, buf: &[u8]) -> io::Result<usize> {
            let count = buf.len().min(self.room).min(3);
            if count == 0 && self.fails {
                return Err(io::Error::from(io::ErrorKind::BrokenPipe));
            }
            self.taken.extend_from_slice(&buf[..count])?;
            self.room -= count;
            Ok(count)
        }

        fn flush(&mut self) -> io::Result<()> {
            Ok(())
        }
    }

    #[test]
    fn writes_what_the_writer_takes(rt: HostRuntime) -> Result<(), Fail> {
        for (room, fails, want, taken) in [
            (100, true, None, "message,affinity\n"),
            (17, true, None, "message,affinity\n"),
            (16, false, Some(WriteFault), "message,affinity"),
            (4, true, Some(WriteFault), "mess"),
            (0, false, Some(WriteFault), ""),
        ] {
            let mut writer = Slow {
                room,
                fails,
                taken: Vec::with_capacity(rt.alloc(), 32)?,
            };
            assert_eq!(rt; write_whole(&mut writer, b"message,affinity\n").err(), want);
            assert_eq!(rt; writer.taken.as_slice(), taken.as_bytes());
        }
        Ok(())
    }
}
