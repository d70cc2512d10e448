// What no clause says: the calls succeed with ample memory, and worked examples of each.
use super::*;
use std::io;
use std::io::{ErrorKind, Read, Write};
use std::test::Fail;

#[test]
fn source_fails_where_it_is_told(rt: HostRuntime) -> Result<(), Fail> {
    let mut source = MemSource::new(rt.alloc(), b"1234567", 3, &[2])?;
    let mut buf = [0; 4];
    for (answer, bytes) in [
        (Got::Bytes(3), b"123\0"),
        (Got::Failed, b"123\0"),
        (Got::Bytes(3), b"456\0"),
        (Got::Bytes(1), b"756\0"),
        (Got::End, b"756\0"),
    ] {
        assert_eq!(rt; source.read(&mut buf), answer);
        assert_eq!(rt; buf, *bytes);
    }
    Ok(())
}

#[test]
fn sink_fails_where_it_is_told(rt: HostRuntime) -> Result<(), Fail> {
    let mut sink = MemSink::new(rt.alloc(), 5, 2, &[2])?;
    for (piece, answer, held) in [
        (b"abcd".as_slice(), Put::Took(2), b"ab".as_slice()),
        (b"cd".as_slice(), Put::Failed, b"ab".as_slice()),
        (b"cd".as_slice(), Put::Took(2), b"abcd".as_slice()),
        (b"ef".as_slice(), Put::Took(1), b"abcde".as_slice()),
        (b"f".as_slice(), Put::Failed, b"abcde".as_slice()),
        (b"".as_slice(), Put::Took(0), b"abcde".as_slice()),
    ] {
        assert_eq!(rt; sink.write(piece), answer);
        assert_eq!(rt; sink.bytes(), held);
    }
    Ok(())
}

#[test]
fn reads_up_to_the_limit(rt: HostRuntime) -> Result<(), Fail> {
    for n in [0, 1, 4097, 1048576] {
        let bytes = vec![in rt.alloc(); 7u8; n]?;
        let mut source = MemSource::new(rt.alloc(), &bytes, 65536, &[])?;
        assert_eq!(rt; read_all(rt.alloc(), &mut source).map(|b| b.len()), Ok(n));
    }
    let bytes = vec![in rt.alloc(); 7u8; 1048577]?;
    let mut source = MemSource::new(rt.alloc(), &bytes, 65536, &[])?;
    assert_eq!(rt;
        read_all(rt.alloc(), &mut source).err(),
        Some(ReadAllFault::TooLong)
    );
    Ok(())
}

#[test]
fn reads_stop_at_a_fault(rt: HostRuntime) -> Result<(), Fail> {
    for (fails, answer, left) in [
        ([1], Err(ReadAllFault::Failed), 5),
        ([2], Err(ReadAllFault::Failed), 3),
        ([4], Err(ReadAllFault::Failed), 0),
        ([9], Ok(5), 0),
    ] {
        let mut source = MemSource::new(rt.alloc(), b"hello", 2, &fails)?;
        assert_eq!(rt; read_all(rt.alloc(), &mut source).map(|b| b.len()), answer);
        let rest = read_all(rt.alloc(), &mut source).map(|b| b.len());
        assert_eq!(rt; rest, Ok(left));
    }
    Ok(())
}

#[test]
fn writes_all_or_a_prefix(rt: HostRuntime) -> Result<(), Fail> {
    for (bytes, room, fails, answer, held) in [
        (b"hello".as_slice(), 5, [9], Ok(()), b"hello".as_slice()),
        (
            b"hello".as_slice(),
            5,
            [2],
            Err(WriteFailed),
            b"he".as_slice(),
        ),
        (
            b"hello".as_slice(),
            5,
            [3],
            Err(WriteFailed),
            b"hell".as_slice(),
        ),
        (
            b"hello".as_slice(),
            3,
            [9],
            Err(WriteFailed),
            b"hel".as_slice(),
        ),
        (
            b"hello".as_slice(),
            0,
            [9],
            Err(WriteFailed),
            b"".as_slice(),
        ),
        (b"".as_slice(), 0, [1], Ok(()), b"".as_slice()),
    ] {
        let mut sink = MemSink::new(rt.alloc(), room, 2, &fails)?;
        assert_eq!(rt; write_all_of(&mut sink, bytes), answer);
        assert_eq!(rt; sink.bytes(), held);
    }
    Ok(())
}

// A reader and a writer that only fail.
#[derive(Drop)]
struct Broken;

impl Read for Broken {
    fn read(&mut self, _buf: &mut [u8]) -> io::Result<usize> {
        Err(io::Error::from(ErrorKind::Other))
    }
}

impl Write for Broken {
    fn write(&mut self, _buf: &[u8]) -> io::Result<usize> {
        Err(io::Error::from(ErrorKind::Other))
    }

    fn flush(&mut self) -> io::Result<()> {
        Ok(())
    }
}

#[test]
fn adapters_pass_bytes_on(rt: HostRuntime) -> Result<(), Fail> {
    let mut source = StdSource::new(b"hello".as_slice());
    let bytes = read_all(rt.alloc(), &mut source).ok().ok_or("read")?;
    assert_eq!(rt; bytes.as_slice(), b"hello".as_slice());
    let mut held = Vec::new(rt.alloc());
    {
        let mut sink = StdSink::new(&mut held);
        assert_eq!(rt; write_all_of(&mut sink, b"hello"), Ok(()));
    }
    assert_eq!(rt; held.as_slice(), b"hello".as_slice());
    Ok(())
}

#[test]
fn adapters_answer_faults(rt: HostRuntime) -> Result<(), Fail> {
    let mut buf = [0; 4];
    assert_eq!(rt; StdSource::new(Broken).read(&mut buf), Got::Failed);
    assert_eq!(rt; StdSink::new(Broken).write(b"x"), Put::Failed);
    let mut full = StdSink::new(&mut buf[..2]);
    assert_eq!(rt; full.write(b"xyz"), Put::Took(2));
    assert_eq!(rt; full.write(b"z"), Put::Failed);
    assert_eq!(rt; full.write(b""), Put::Took(0));
    Ok(())
}
