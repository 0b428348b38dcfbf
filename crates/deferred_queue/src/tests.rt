// Posts that wait, and a queue that is full.

use crate::{DeferredQueue, Full};
use kern_base::{Post, Prio, Service};
use std::test::Fail;

#[test]
fn posts_leave_in_the_order_in_which_they_came(rt: HostRuntime) -> Result<(), Fail> {
    let Ok(mut queue) = DeferredQueue::new(rt.alloc(), 2) else {
        return Err(Fail::from("no memory"));
    };
    let service = Service::SemPost;
    // Each row: the object that is posted to, the saved priority, and whether the post is queued.
    for (object, saved, fits) in [(4, 10, true), (5, 63, true), (6, 1, false)] {
        let args = [object, 0, 0, 0];
        let answer = queue.queue(Post { service, args }, Prio(saved));
        assert_eq!(rt; answer, if fits { Ok(()) } else { Err(Full) });
    }
    for (object, saved) in [(4, 10), (5, 63)] {
        let args = [object, 0, 0, 0];
        assert_eq!(rt; queue.front(), Some(Post { service, args }));
        assert_eq!(rt; queue.saved(), Some(Prio(saved)));
        queue.drop_front();
    }
    assert_eq!(rt; queue.front(), None);
    assert_eq!(rt; queue.saved(), None);
    Ok(())
}
