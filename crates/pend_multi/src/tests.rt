// Polls of counts, and a task that waits for two objects.

ghost use Rattle.std.specs.Prelude.{◌≡◌, length, map};
ghost use Rattle.kern_model.specs.State.{Count};

use crate::{
    Pollable, Taken, any_ready, leave_others, poll_all, table_error, taken_result, wait_on,
};
use arrayvec::ArrayVec;
use kern_base::{Kind, Kinds, ObjId, OsErr, Prio, Request, Service, TaskId};
use links::IndexLinks;
use pend_lists::PendLists;
use std::test::Fail;

// Semaphores alone.
#[derive(Drop)]
struct Counts {
    counts: [u32; 64],
}

impl Pollable for Counts {
    ghost seen = { λ a. record { contents = map (λ n. Count n) a.counts; free = 0 } };

    ghost valid = { λ a. length a.counts ≡ 64 };

    ghost same_rest = { λ a b. Unit {0} };

    fn poll(&mut self, obj: ObjId) -> Option<Taken> {
        let count = self.counts[obj.0 as usize];
        if count == 0 {
            return None;
        }
        self.counts[obj.0 as usize] = count - 1;
        Some(Taken { msg: 0, size: 0 })
    }

    fn is_ready(&self, obj: ObjId) -> bool {
        self.counts[obj.0 as usize] > 0
    }

    ghost rest_itself = { λ a. tt };

    ghost rest_later = { λ a b c first second. tt };
}

#[test]
fn polls_take_one_of_each_that_is_ready(rt: HostRuntime) {
    let mut counts = Counts { counts: [0; 64] };
    counts.counts[4] = 2;
    counts.counts[9] = 1;
    assert!(rt; any_ready(&counts, &[7, 4]));
    assert!(rt; !any_ready(&counts, &[7, 8]));
    let one = Some(Taken { msg: 0, size: 0 });
    let polled = poll_all(&mut counts, &[4, 7, 9]);
    assert_eq!(rt; polled, [one, None, one, None, None, None, None, None]);
    assert_eq!(rt;
        (counts.counts[4], counts.counts[7], counts.counts[9]),
        (1, 0, 0)
    );
    let polled = poll_all(&mut counts, &[9, 4]);
    assert_eq!(rt; polled, [None, one, None, None, None, None, None, None]);
}

#[test]
fn a_result_tells_the_entries_that_were_taken(rt: HostRuntime) {
    let request = request(3, [0, 1, 2, 0, 0, 0, 0, 0], true);
    let mut polled = [None; 8];
    polled[0] = Some(Taken { msg: 0, size: 0 });
    polled[2] = Some(Taken { msg: 77, size: 4 });
    let result = taken_result(&request, &polled);
    assert_eq!(rt;
        (result.answer.err, result.answer.value),
        (OsErr::NoError, 2)
    );
    assert_eq!(rt;
        (result.ready, result.table, result.n_ids),
        (5, 1_048_576, 3)
    );
    assert_eq!(rt;
        (result.msgs[0], result.msgs[1], result.msgs[2]),
        ((0, 0), (0, 0), (77, 4))
    );
}

fn request(n_ids: u8, ids: [u32; 8], table: bool) -> Request
    ensures { result.n_ids ≡ n_ids }
{
    Request {
        service: Service::PendMulti,
        args: [1_048_576, n_ids as u32, 0, 0],
        ids,
        n_ids,
        table,
    }
}

#[test]
fn tables_are_refused(rt: HostRuntime) {
    let mut objects = ArrayVec::new();
    objects.push(Kind::Sem);
    objects.push(Kind::Mutex);
    objects.push(Kind::Queue);
    let kinds = Kinds::new(objects, 1);
    for (n_ids, ids, table, error) in [
        (2, [2, 0, 0, 0, 0, 0, 0, 0], true, None),
        (0, [0; 8], false, Some(OsErr::Table)),
        (3, [2, 1, 2, 0, 0, 0, 0, 0], true, Some(OsErr::Table)),
        (2, [0, 1, 0, 0, 0, 0, 0, 0], true, Some(OsErr::ObjectType)),
        (2, [0, 3, 0, 0, 0, 0, 0, 0], true, Some(OsErr::ObjectType)),
    ] {
        assert_eq!(rt; table_error(&request(n_ids, ids, table), &kinds), error);
    }
}

#[test]
fn a_task_waits_for_two_objects_and_leaves_both(rt: HostRuntime) -> Result<(), Fail> {
    let mut lists = PendLists::new(IndexLinks::new(rt.alloc(), 576)?);
    let objects = [0, 9];
    wait_on(&mut lists, TaskId(3), &objects, &[Prio(10); 64]);
    assert_eq!(rt;
        (lists.first(ObjId(0)), lists.first(ObjId(9))),
        (Some(TaskId(3)), Some(TaskId(3)))
    );
    assert_eq!(rt; lists.first(ObjId(1)), None);
    leave_others(&mut lists, TaskId(3), &objects);
    assert_eq!(rt;
        (lists.first(ObjId(0)), lists.first(ObjId(9))),
        (None, None)
    );
    Ok(())
}
