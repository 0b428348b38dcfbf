use crate::{Failed, MemSink, MemSource, Sink, Source};
use std::alloc::AllocError;
use std::test::Fail;

// Seven bytes in pieces of three. The second and the fifth read fail, and take nothing.
#[test]
fn a_source_gives_pieces_and_fails_by_number(rt: HostRuntime) -> Result<(), Fail> {
    let alloc = rt.alloc();
    let bytes = b"abcdefg".to_vec(alloc)?;
    let fails = vec![in alloc; 2, 5]?;
    let mut source = MemSource::new(bytes, 3, fails);
    let mut read = Vec::new(alloc);
    for want in [Ok(3), Err(Failed), Ok(3), Ok(1), Err(Failed), Ok(0)] {
        let mut buf = [0u8; 8];
        let got = source.read(&mut buf);
        assert_eq!(rt; got, want);
        if let Ok(count) = got {
            read.extend_from_slice(&buf[..count])?;
        }
    }
    assert_eq!(rt; read.as_slice(), b"abcdefg".as_slice());
    Ok(())
}

// A buffer smaller than the piece is filled, and an empty one takes nothing.
#[test]
fn a_source_fills_a_small_buffer(rt: HostRuntime) -> Result<(), Fail> {
    let alloc = rt.alloc();
    let mut source = MemSource::new(b"abc".to_vec(alloc)?, 8, Vec::new(alloc));
    let mut buf = [0u8; 2];
    assert_eq!(rt; source.read(&mut buf[..0]), Ok(0));
    assert_eq!(rt; source.read(&mut buf), Ok(2));
    assert_eq!(rt; source.read(&mut buf), Ok(1));
    assert_eq!(rt; buf, [99, 98]);
    Ok(())
}

// Room for ten bytes. The second write fails after two bytes, by the first of two entries; the
// fourth is taken as far as it fits; the fifth would fit, and fails by its number.
#[test]
fn a_sink_takes_what_it_may(rt: HostRuntime) -> Result<(), Fail> {
    let alloc = rt.alloc();
    let fails = vec![in alloc; (2, 2), (2, 0), (5, 9)]?;
    let mut sink = MemSink::new(alloc, 10, fails).map_err(|_| AllocError)?;
    for want in [Ok(()), Err(Failed), Ok(()), Err(Failed)] {
        assert_eq!(rt; sink.write(b"abc"), want);
    }
    assert_eq!(rt; sink.write(b""), Err(Failed));
    assert_eq!(rt; sink.write(b""), Ok(()));
    assert_eq!(rt; sink.bytes(), b"abcababcab".as_slice());
    Ok(())
}
