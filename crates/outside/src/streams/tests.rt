use super::{StdSink, StdSource};
use crate::{Failed, Sink, Source};
use std::io::{self, BufWriter, Read, Write};
use std::test::Fail;

// A stream that passes on at most two bytes a call, and fails at every third call.
#[derive(Drop)]
struct Halting<T> {
    inner: T,
    calls: u8,
}

impl<T> Halting<T> {
    fn room(&mut self, len: usize) -> io::Result<usize> {
        self.calls = self.calls % 3 + 1;
        if self.calls == 3 {
            return Err(io::Error::from(io::ErrorKind::WouldBlock));
        }
        Ok(len.min(2))
    }
}

impl<T: Read> Read for Halting<T> {
    fn read(&mut self, buf: &mut [u8]) -> io::Result<usize> {
        let room = self.room(buf.len())?.min(buf.len());
        self.inner.read(&mut buf[..room])
    }
}

impl<T: Write> Write for Halting<T> {
    fn write(&mut self, piece: &[u8]) -> io::Result<usize> {
        let room = self.room(piece.len())?.min(piece.len());
        self.inner.write(&piece[..room])
    }

    fn flush(&mut self) -> io::Result<()> {
        Ok(())
    }
}

#[test]
fn a_reader_is_passed_on_and_its_faults_are_counted(rt: HostRuntime) -> Result<(), Fail> {
    let inner = Halting {
        inner: b"abcdefg".as_slice(),
        calls: 0,
    };
    let mut source = StdSource::new(inner);
    let mut buf = [0u8; 4];
    for want in [Ok(2), Ok(2), Err(Failed), Ok(2), Ok(1), Err(Failed), Ok(0)] {
        assert_eq!(rt; source.read(&mut buf), want);
    }
    assert_eq!(rt; source.faults, 2);
    source.faults = u64::MAX;
    assert_eq!(rt; source.read(&mut buf), Ok(0));
    assert_eq!(rt; source.read(&mut buf), Err(Failed));
    assert_eq!(rt; source.faults, u64::MAX);
    Ok(())
}

// Four bytes take two calls, and the next piece meets the fault. A slice is full after six bytes,
// and then takes nothing.
#[test]
fn a_short_writer_is_written_to_again(rt: HostRuntime) -> Result<(), Fail> {
    let mut held = [0u8; 6];
    let inner = Halting {
        inner: held.as_mut_slice(),
        calls: 0,
    };
    let mut sink = StdSink::new(inner);
    assert_eq!(rt; sink.write(b"abcd"), Ok(()));
    assert_eq!(rt; sink.write(b"ef"), Err(Failed));
    assert_eq!(rt; sink.faults, 1);
    assert_eq!(rt; sink.write(b"ef"), Ok(()));
    sink.faults = u64::MAX;
    assert_eq!(rt; sink.write(b"gh"), Err(Failed));
    assert_eq!(rt; sink.faults, u64::MAX);
    assert_eq!(rt; held.as_slice(), b"abcdef".as_slice());
    Ok(())
}

// A buffer takes a piece that its writer has no room for: the fault comes with the flush, and is counted once.
#[test]
fn a_flush_that_fails_is_counted(rt: HostRuntime) -> Result<(), Fail> {
    let mut held = [0u8; 2];
    let mut sink = StdSink::new(BufWriter::with_capacity(rt.alloc(), 8, held.as_mut_slice())?);
    assert_eq!(rt; sink.write(b"ab"), Ok(()));
    assert_eq!(rt; sink.flush(), Ok(()));
    assert_eq!(rt; sink.write(b"cde"), Ok(()));
    assert_eq!(rt; sink.faults, 0);
    assert_eq!(rt; sink.flush(), Err(Failed));
    assert_eq!(rt; sink.faults, 1);
    Ok(())
}
