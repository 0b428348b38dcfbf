use crate::{KeepingSink, tell};
use outside::{Failed, MemSink, Sink};
use program_model::Status;
use std::alloc::AllocError;
use std::test::Fail;

#[test]
fn a_refusal_is_told_with_its_place_and_meaning(rt: HostRuntime) -> Result<(), Fail> {
    for (refusal, told) in [
        (
            "refused 5 A1\n",
            "line 5: A1: no mnemonic, pseudo-instruction or directive has this name\n",
        ),
        ("refused 0 I1\n", "I1: no task is declared\n"),
        (
            "refused 0 E4\n",
            "E4: two segments of the executable overlap\n",
        ),
        (
            "refused 4194304 A10\n",
            "line 4194304: A10: more than 16,384 words of code\n",
        ),
        (
            "refused 10 J5\n",
            "line 10: J5: a look at a name that is no semaphore, queue, flag group or mutex, or at a priority above 63\n",
        ),
    ] {
        let mut sink = MemSink::new(rt.alloc(), 200, Vec::new(rt.alloc())).map_err(|_| AllocError)?;
        assert_eq!(rt;
            tell(Status::Refused, refusal.as_bytes(), &mut sink),
            Ok(())
        );
        assert_eq!(rt; sink.bytes(), told.as_bytes());
    }
    Ok(())
}

// The second write fails after two bytes: all its bytes are kept. The fourth write goes beyond what is kept.
#[test]
fn the_first_bytes_are_kept(rt: HostRuntime) -> Result<(), Fail> {
    let alloc = rt.alloc();
    let inner = MemSink::new(alloc, 64, vec![in alloc; (2, 2)]?).map_err(|_| AllocError)?;
    let mut sink = KeepingSink::new(inner);
    for (piece, want) in [
        ("refused ", Ok(())),
        ("12 A1\n", Err(Failed)),
        ("0123456789", Ok(())),
        ("abcdefghijkl", Ok(())),
        ("xyz", Ok(())),
    ] {
        assert_eq!(rt; sink.write(piece.as_bytes()), want);
    }
    let (inner, kept) = sink.into_parts();
    assert_eq!(rt;
        inner.bytes(),
        b"refused 120123456789abcdefghijklxyz".as_slice()
    );
    assert_eq!(rt;
        kept.as_slice(),
        b"refused 12 A1\n0123456789abcdefgh".as_slice()
    );
    Ok(())
}
