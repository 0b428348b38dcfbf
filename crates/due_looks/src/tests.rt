// Looks that come in the order of their moments.

use crate::Looks;
use inject_list::{InjectList, Look, Seen};
use kern_base::{ObjId, Prio};
use std::test::Fail;

#[test]
fn looks_come_by_moment_and_then_by_line(rt: HostRuntime) -> Result<(), Fail> {
    let list = InjectList {
        injections: Vec::new(rt.alloc()),
        looks: vec![in rt.alloc();
            Look {
                at: 5,
                what: Seen::Ready(Prio(1))
            },
            Look {
                at: 3,
                what: Seen::Obj(ObjId(2))
            },
            Look {
                at: 5,
                what: Seen::Ready(Prio(0))
            },
            Look {
                at: 0,
                what: Seen::Ready(Prio(9))
            },
            Look {
                at: 3,
                what: Seen::Obj(ObjId(2))
            },
            Look {
                at: 5,
                what: Seen::Obj(ObjId(7))
            },
        ]?,
    };
    let Ok(mut looks) = Looks::new(rt.alloc(), &list) else {
        return Err(Fail::from("no memory"));
    };
    let mut came = Vec::new(rt.alloc());
    for s in 0..8_u64 {
        for _ in 0..3 {
            if let Some(look) = looks.take(s) {
                came.push((s, look.what))?;
            }
        }
        if looks.is_due(s) {
            return Err(Fail::from("one more is due"));
        }
    }
    assert_eq!(rt;
        came.as_slice(),
        [
            (0, Seen::Ready(Prio(9))),
            (3, Seen::Obj(ObjId(2))),
            (3, Seen::Obj(ObjId(2))),
            (5, Seen::Ready(Prio(1))),
            (5, Seen::Ready(Prio(0))),
            (5, Seen::Obj(ObjId(7))),
        ]
        .as_slice()
    );
    Ok(())
}
