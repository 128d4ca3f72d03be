//! A whole input in memory.
ghost use Rattle.std.specs.Prelude.{◌≡◌, ◌⊎◌, Err, ◌+◌, ◌<◌, ◌≤◌, List, ℕ, IfOk, OnOk, OnErr};
ghost use Rattle.std.specs.Prelude.{IfSome, IsErrOf, length, take, drop, vec_len};
ghost use Rattle.std.specs.Io.KnownBytes.{Keeps, Consumes, IsAtEnd};
ghost use Rattle.waff_io.specs.declared.reading.ReadFault.TheVariants.{Memory};

use std::alloc::{AllocError, Global};
use std::io::Read;

/// Why an input was not read.
#[derive(Clone, Copy, Debug, PartialEq)]
pub enum ReadFault {
    /// The reader gave an error; an interruption counts as one.
    Failed,
    /// More bytes came than the limit, before an error or the end.
    TooLong,
    /// Out of memory.
    Memory,
}

impl From<AllocError> for ReadFault {
    ghost from_gives = { λ _ fault. fault ≡ Memory };

    fn from(_error: AllocError) -> ReadFault {
        ReadFault::Memory
    }
}

/// The most bytes that are asked for at once. What is asked for has been written with zeros just
/// before, so it is no more than a processor keeps at hand.
const CHUNK: usize = 64 * 1024;

/// All bytes up to the end, at most `limit`. A reader that gives no byte is at its end. On a fault
/// what was read is dropped.
pub fn read_whole<R: Read>(alloc: Global, reader: &mut R, limit: u64) -> Result<Vec<u8>, ReadFault>
    ensures whole { IfOk result (λ bytes.
        IfSome (R.remaining reader.old) (λ all. bytes.items ≡ all)) }
    ensures within { IfOk result (λ bytes. vec_len bytes ≤ limit) }
    ensures end { OnOk result (IsAtEnd (R.remaining reader.new)) }

    ensures too_long { IsErrOf result ReadFault.TooLong
        → IfSome (R.remaining reader.old) (λ all. limit < length all) }
    // Before an error at most `limit` bytes came.
    ensures failed { IsErrOf result ReadFault.Failed
        → (got : List ℕ) × (length got ≤ limit)
        × Consumes (R.remaining reader.old) (R.remaining reader.new) got }
{
    let mut bytes = Vec::new(alloc);
    let mut filled = 0;
    while filled as u64 <= limit {
        let count = read_more(reader, &mut bytes, filled, limit)?;
        if count == 0 {
            bytes.truncate(filled);
            return Ok(bytes);
        }
        filled += count;
    }
    Err(ReadFault::TooLong)
}

/// One read, behind the first `filled` bytes.
fn read_more<R: Read>(
    reader: &mut R,
    bytes: &mut Vec<u8>,
    filled: usize,
    limit: u64,
) -> Result<usize, ReadFault>
    requires filled { filled ≤ vec_len bytes.old }
    requires below { filled ≤ limit }
    ensures kept { take filled bytes.new.items ≡ take filled bytes.old.items }
    ensures within { IfOk result (λ count. filled + count ≤ vec_len bytes.new) }
    ensures read { IfOk result (λ count. Consumes (R.remaining reader.old) (R.remaining reader.new)
        (take count (drop filled bytes.new.items))) }
    ensures end { IfOk result (λ count. count ≡ 0 → IsAtEnd (R.remaining reader.new)) }
    ensures failed { IsErrOf result ReadFault.Failed
        → Keeps (R.remaining reader.old) (R.remaining reader.new) }
    ensures faults { OnErr result (result ≡ Err ReadFault.Failed ⊎ result ≡ Err ReadFault.Memory) }
{
    make_room(bytes, filled, limit)?;
    reader
        .read(&mut bytes.as_mut_slice()[filled..])
        .map_err(|_| ReadFault::Failed)
}

/// Room for a read behind the first `filled` bytes, but no more than shows that the limit is
/// passed.
fn make_room(bytes: &mut Vec<u8>, filled: usize, limit: u64) -> Result<(), AllocError>
    requires filled { filled ≤ vec_len bytes.old }
    requires within { filled ≤ limit }
    ensures kept { take filled bytes.new.items ≡ take filled bytes.old.items }
    ensures room { OnOk result (filled < vec_len bytes.new) }
{
    let roomy = filled.checked_add(CHUNK).ok_or(AllocError)?;
    let wanted = roomy.min(limit.saturating_add(1) as usize);
    if wanted > bytes.len() {
        bytes.resize(wanted, 0)?;
    }
    Ok(())
}

#[cfg(test)]
mod tests {
    use super::*;

    #[test]
    fn reads_to_the_end(rt: HostRuntime) -> Result<(), ReadFault> {
        let mut reader: &[u8] = b"waff";
        assert_eq!(rt;
            read_whole(rt.alloc(), &mut reader, 4)?.as_slice(),
            b"waff".as_slice()
        );
        let mut reader: &[u8] = b"";
        assert_eq!(rt;
            read_whole(rt.alloc(), &mut reader, 0)?.as_slice(),
            b"".as_slice()
        );
        Ok(())
    }

    #[test]
    fn refuses_more_than_the_limit(rt: HostRuntime) {
        let mut reader: &[u8] = b"waff";
        let fault = read_whole(rt.alloc(), &mut reader, 3).err();
        assert_eq!(rt; fault, Some(ReadFault::TooLong));
    }
}
