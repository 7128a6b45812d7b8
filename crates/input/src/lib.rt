// What the programs read by: a buffer filled from a reader, and whether there is more. Of a reader whose bytes are known the
// promises say which of them came; of standard input nothing can be known.
#![tactic(auto)]

ghost use Rattle.std.specs.Prelude.{◌≡◌, ◌<◌, ◌≤◌, length, take, nat_lt, IfOk, IfSome, MatchOption};
ghost use Rattle.std.specs.Io.{ReadsAtMost};
ghost use Rattle.std.specs.Io.KnownBytes.{Consumes, IsAtEnd};

use std::alloc::Global;
use std::io;
use std::io::Read;

// Fills the front of a buffer with what comes, and answers how many bytes came: as many as there is room for, or all. The loop is its
// own, since `read_exact` does not say how many came where they are fewer.
pub fn fill<R: Read>(reader: &mut R, buffer: &mut [u8]) -> io::Result<usize>
    ensures bound { ReadsAtMost result buffer.new }
    ensures bytes { IfOk result (λ n. Consumes (R.remaining reader.old) (R.remaining reader.new) (take n buffer.new)) }
    ensures end { IfOk result (λ n. n < length buffer.new → IsAtEnd (R.remaining reader.new)) }
{
    let mut filled = 0;
    while filled < buffer.len() {
        let n = reader.read(&mut buffer[filled..])?;
        if n == 0 {
            break;
        }
        filled += n;
    }
    Ok(filled)
}

// Whether a byte comes; it is then read.
pub fn has_more<R: Read>(reader: &mut R) -> io::Result<bool>
    ensures { IfOk result (λ more. IfSome (R.remaining reader.old) (λ xs. more ≡ nat_lt 0 (length xs))) }
{
    let mut more = [0u8; 1];
    let n = fill(reader, &mut more)?;
    Ok(0 < n)
}

// All that comes, unless that is more than so many bytes.
pub fn read_at_most<R: Read>(
    alloc: Global,
    reader: &mut R,
    most: usize,
) -> io::Result<Option<Vec<u8>>>
    ensures { IfOk result (λ read. IfSome (R.remaining reader.old) (λ xs. MatchOption read (most < length xs) (λ bytes. (length xs ≤ most) × (bytes.items ≡ xs)))) }
{
    let mut bytes = vec![in alloc; 0; most]?;
    let filled = fill(reader, &mut bytes)?;
    if has_more(reader)? {
        return Ok(None);
    }
    bytes.truncate(filled);
    Ok(Some(bytes))
}

#[cfg(test)]
mod tests {
    use super::*;
    use std::test::Fail;

    #[test]
    fn reads_all_or_nothing(rt: HostRuntime) -> Result<(), Fail> {
        let mut three = b"abc".as_slice();
        let all = read_at_most(rt.alloc(), &mut three, 3)?;
        assert_eq!(rt; all.as_deref(), Some(b"abc".as_slice()));
        let mut four = b"abcd".as_slice();
        assert!(rt; read_at_most(rt.alloc(), &mut four, 3)?.is_none());
        Ok(())
    }
}
