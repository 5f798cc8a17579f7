ghost use Rattle.std.specs.Prelude.{◌≤◌};

use crate::{
    DevNo, MemSink, MemSource, ShortWrite, Sink, Source, StdSink, StdSource, read_up_to, write_all,
};
use std::alloc::{AllocError, Global};
use std::io;
use std::io::{ErrorKind, Read, Write};
use std::test::Fail;

const TEXT: &[u8] = b"c1 put a 1\n";

// Whether a read of the text answers this and adds these bytes, where one pull fails.
fn read_is(
    alloc: Global,
    most: usize,
    fails: u64,
    want: Result<usize, DevNo>,
    got: &[u8],
) -> Result<bool, AllocError> {
    let mut source = MemSource::new(TEXT.to_vec(alloc)?, [fails].to_vec(alloc)?);
    let mut out = Vec::new(alloc);
    Ok(read_up_to(&mut source, &mut out, most) == want && out.as_slice() == got)
}

#[test]
fn reads_to_the_end_to_a_limit_or_to_a_failure(rt: HostRuntime) -> Result<(), Fail> {
    let cases: [(usize, u64, Result<usize, DevNo>, &[u8]); 5] = [
        (100, 0, Ok(11), TEXT),
        (11, 0, Ok(11), TEXT),
        (4, 0, Ok(4), b"c1 p"),
        (100, 1, Err(DevNo::Failed), b""),
        (100, 2, Err(DevNo::Failed), TEXT),
    ];
    for (most, fails, want, got) in cases {
        let right = read_is(rt.alloc(), most, fails, want, got)?;
        assert!(rt; right);
    }
    Ok(())
}

// Whether pulls of at most two bytes, one after the other, answer so.
fn pulls_are(source: &mut MemSource, out: &mut Vec<u8>, answers: &[Result<usize, DevNo>]) -> bool {
    for answer in answers {
        if source.pull(out, 2) != *answer {
            return false;
        }
    }
    true
}

#[test]
fn one_pull_after_another(rt: HostRuntime) -> Result<(), Fail> {
    let answers = [Ok(2), Err(DevNo::Failed), Ok(2), Ok(1), Ok(0)];
    let mut out = Vec::new(rt.alloc());
    let mut source = MemSource::new(b"abcde".to_vec(rt.alloc())?, [2].to_vec(rt.alloc())?);
    let right = pulls_are(&mut source, &mut out, &answers) && out.as_slice() == b"abcde".as_slice();
    assert!(rt; right);
    Ok(())
}

// Whether a write of the text answers this and leaves these bytes.
fn write_is(
    alloc: Global,
    most: usize,
    fails: u64,
    want: Result<(), ShortWrite>,
    got: &[u8],
) -> Result<bool, AllocError>
    requires { 1 ≤ most }
{
    let mut sink = MemSink::new(alloc, most, [fails].to_vec(alloc)?);
    Ok(write_all(&mut sink, TEXT) == want && sink.bytes() == got)
}

fn short(cause: DevNo, count: usize) -> Result<(), ShortWrite> {
    Err(ShortWrite { cause, count })
}

#[test]
fn writes_all_or_tells_how_much(rt: HostRuntime) -> Result<(), Fail> {
    let cases: [(usize, u64, Result<(), ShortWrite>, &[u8]); 4] = [
        (100, 0, Ok(()), TEXT),
        (5, 0, Ok(()), TEXT),
        (5, 2, short(DevNo::Failed, 5), b"c1 pu"),
        (5, 1, short(DevNo::Failed, 0), b""),
    ];
    for (most, fails, want, got) in cases {
        let right = write_is(rt.alloc(), most.max(1), fails, want, got)?;
        assert!(rt; right);
    }
    Ok(())
}

#[test]
fn nothing_is_written_by_no_push(rt: HostRuntime) -> Result<(), Fail> {
    let mut sink = MemSink::new(rt.alloc(), 3, [1].to_vec(rt.alloc())?);
    let right = write_all(&mut sink, b"") == Ok(())
        && sink.push(b"ab") == Err(DevNo::Failed)
        && sink.push(b"abcd") == Ok(3);
    assert!(rt; right);
    Ok(())
}

// Gives its bytes one by one and then fails; takes three bytes and then fails.
#[derive(Drop)]
struct Broken {
    left: u8,
}

impl Read for Broken {
    fn read(&mut self, buf: &mut [u8]) -> io::Result<usize> {
        if self.left == 0 || buf.is_empty() {
            return Err(ErrorKind::BrokenPipe.into());
        }
        self.left -= 1;
        buf[0] = 7;
        Ok(1)
    }
}

impl Write for Broken {
    fn write(&mut self, buf: &[u8]) -> io::Result<usize> {
        if self.left == 0 {
            return Err(ErrorKind::BrokenPipe.into());
        }
        self.left -= 1;
        Ok(buf.len().min(3))
    }

    fn flush(&mut self) -> io::Result<()> {
        Ok(())
    }
}

#[test]
fn a_broken_pipe_is_a_failure(rt: HostRuntime) {
    let mut source = StdSource::new(Broken { left: 2 });
    let mut out = Vec::new(rt.alloc());
    let read = read_up_to(&mut source, &mut out, 100);
    assert!(rt; read == Err(DevNo::Failed) && out.as_slice() == [7, 7].as_slice());
    let mut sink = StdSink::new(Broken { left: 1 });
    let written = write_all(&mut sink, TEXT);
    assert!(rt; written == short(DevNo::Failed, 3));
}

#[test]
fn standard_output_is_a_sink(rt: HostRuntime) {
    let mut sink = StdSink::new(rt.stdout());
    let written = write_all(&mut sink, b"written\n");
    assert!(rt; written == Ok(()));
    let _ = StdSource::new(rt.stdin());
}

// Whether as many pulls of one byte give one each.
fn pull_ones(source: &mut MemSource, out: &mut Vec<u8>, count: usize) -> bool {
    for _pull in 0..count {
        if source.pull(out, 1) != Ok(1) {
            return false;
        }
    }
    true
}

// Whether as many bytes are read one by one, and written one by one.
fn byte_by_byte(alloc: Global, count: usize) -> Result<bool, AllocError> {
    let mut source = MemSource::new(vec![in alloc; 7; count]?, Vec::new(alloc));
    let mut out = Vec::new(alloc);
    let mut sink = MemSink::new(alloc, 1, Vec::new(alloc));
    let read = pull_ones(&mut source, &mut out, count);
    Ok(read && write_all(&mut sink, &out) == Ok(()) && sink.bytes().len() == count)
}

#[test]
fn ten_thousand_bytes_one_by_one(rt: HostRuntime) -> Result<(), Fail> {
    let right = byte_by_byte(rt.alloc(), 10_000)?;
    assert!(rt; right);
    Ok(())
}
