// A program's input block by block, at any reader; and a number written, at any writer, which no program calls: what the programs print is promised where
// each prints it, by specs/Lines of report, replay, hurt and limits, and of schedule by crate `script`.
//
// What comes from the system and goes to it is outside every promise; where a reader or a writer says which bytes it has, as one over
// memory does, the promises here say which of them move.
#![tactic(auto)]

ghost use Rattle.std.specs.Prelude.{◌<◌, length, take, decimal, IfOk, OnOk};
ghost use Rattle.std.specs.Io.KnownBytes.{Consumes, IsAtEnd, Appends};
ghost use Rattle.stream.specs.Blocks.{IsGivenTo};
ghost use Rattle.stream.specs.Counts.{IsPrefixLen};

use std::io::{self, Read, Write};

// How many bytes a program reads at once, and writes.
pub const BLOCK: usize = 65536;

// Gives what is left of a reader's input to `f`, block by block: each is as long as `block`, but for the last, which is shorter. Ends after
// that, or after more blocks than any run reads, since a proved loop has to end and nothing says that an input does. Fails where a read
// or `f` does.
pub fn for_each_block<R: Read, F: FnMut(&[u8]) -> io::Result<()>>(
    reader: &mut R,
    block: &mut [u8],
    mut f: F,
) -> io::Result<()>
    requires { F.IsAlwaysCallable f }
    ensures { IfOk result (λ _. IsGivenTo F.FnMut f (length block.old) (R.remaining reader.old) (R.remaining reader.new)) }
{
    for _ in 0..u64::MAX {
        let n = read_full(reader, block)?;
        f(&block[..n])?;
        if n < block.len() {
            return Ok(());
        }
    }
    Ok(())
}

// Reads until `buf` is full or the input ends, and returns how many bytes it put at the start of `buf`: fewer than `buf` has only where the
// input ended. Fails where a read does, and what was read before that is lost. Its loop is no `for`: it goes on by what each read gave.
pub fn read_full<R: Read>(reader: &mut R, buf: &mut [u8]) -> io::Result<usize>
    ensures in_bounds { IfOk result (λ n. IsPrefixLen n buf.new) }
    ensures bytes { IfOk result (λ n. Consumes (R.remaining reader.old) (R.remaining reader.new) (take n buf.new)) }
    ensures end { IfOk result (λ n. n < length buf.new → IsAtEnd (R.remaining reader.new)) }
{
    let mut done: usize = 0;
    while done < buf.len() {
        let n = reader.read(&mut buf[done..])?;
        if n == 0 {
            break;
        }
        done += n;
    }
    Ok(done)
}

// Writes a number in decimal, with no line end. (The programs print by `write!` themselves. This function stays, since two must-fail edits and two tests
// are about it: they hold `write!` to what it promises.)
pub fn write_decimal<W: Write>(writer: &mut W, v: u64) -> io::Result<()>
    ensures { OnOk result (Appends (W.contents writer.old) (W.contents writer.new) (decimal v)) }
{
    write!(writer, "{v}")
}

#[cfg(test)]
mod tests {
    use super::*;
    use std::io::ErrorKind;

    #[derive(Drop)]
    struct Broken;

    impl Read for Broken {
        fn read(&mut self, _buf: &mut [u8]) -> io::Result<usize> {
            Err(io::Error::from(ErrorKind::Other))
        }
    }

    #[test]
    fn fills_a_block_by_short_reads(rt: HostRuntime) -> io::Result<()> {
        let mut reader = (&b"abc"[..]).chain(&b"defgh"[..]);
        let mut buf = [0u8; 6];
        assert_eq!(rt; read_full(&mut reader, &mut buf)?, 6);
        assert_eq!(rt; &buf[..], b"abcdef".as_slice());
        assert_eq!(rt; read_full(&mut reader, &mut buf)?, 2);
        assert_eq!(rt; &buf[..2], b"gh".as_slice());
        assert_eq!(rt; read_full(&mut reader, &mut buf)?, 0);
        Ok(())
    }

    #[test]
    fn gives_the_blocks_in_order(rt: HostRuntime) -> io::Result<()> {
        let mut reader = (&b"abcd"[..]).chain(&b"efgh"[..]);
        let mut block = [0u8; 3];
        let mut text = Vec::new(rt.alloc());
        for_each_block(&mut reader, &mut block, |bytes| {
            text.write_all(bytes)?;
            text.write_all(b"|")
        })?;
        assert_eq!(rt; text.as_slice(), b"abc|def|gh|".as_slice());
        Ok(())
    }

    #[test]
    fn gives_an_empty_block_last(rt: HostRuntime) -> io::Result<()> {
        let mut reader = &b"abcdef"[..];
        let mut block = [0u8; 3];
        let mut text = Vec::new(rt.alloc());
        for_each_block(&mut reader, &mut block, |bytes| {
            text.write_all(bytes)?;
            text.write_all(b"|")
        })?;
        assert_eq!(rt; text.as_slice(), b"abc|def||".as_slice());
        Ok(())
    }

    #[test]
    fn stops_where_a_block_fails(rt: HostRuntime) {
        let mut reader = &b"abcdef"[..];
        let mut block = [0u8; 3];
        let mut calls = 0u8;
        let r = for_each_block(&mut reader, &mut block, |_| {
            calls = calls.saturating_add(1);
            Err(io::Error::from(ErrorKind::Other))
        });
        assert!(rt; r.is_err());
        assert_eq!(rt; calls, 1);
    }

    #[test]
    fn fails_where_a_read_does(rt: HostRuntime) {
        let mut reader = (&b"abc"[..]).chain(Broken);
        let mut buf = [0u8; 6];
        assert!(rt; read_full(&mut reader, &mut buf).is_err());
    }

    #[test]
    fn writes_numbers(rt: HostRuntime) -> io::Result<()> {
        let mut text = Vec::new(rt.alloc());
        write_decimal(&mut text, 0)?;
        write_decimal(&mut text, 1437)?;
        write_decimal(&mut text, u64::MAX)?;
        assert_eq!(rt; text.as_slice(), b"0143718446744073709551615".as_slice());
        Ok(())
    }

    #[test]
    fn fails_where_a_write_does(rt: HostRuntime) {
        let mut room = [0u8; 2];
        assert!(rt; write_decimal(&mut &mut room[..], 100).is_err());
    }
}
