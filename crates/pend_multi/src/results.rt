// The result of an `OSPendMulti` that took something.

ghost use Rattle.std.specs.Prelude.{◌≡◌, ◌≤◌, map, take};
ghost use Rattle.kern_model.specs.Several.{taken_result as result_of};
ghost use Rattle.pend_multi.specs.Takes.{message_of};

use crate::Taken;
use kern_base::{Answer, Finished, OsErr, Request, Service};

/// The result where these were taken from the objects of the table: how many, a bit for each entry, and
/// each entry's message and size.
pub fn taken_result(request: &Request, polled: &[Option<Taken>; 8]) -> Finished
    requires { request.now.n_ids ≤ 8 }
    ensures { result ≡ result_of request.now (map message_of (take request.now.n_ids polled.now)) }
{
    let mut count = 0;
    let mut ready = 0;
    let mut msgs = [(0, 0); 8];
    let entries = &polled[..request.n_ids as usize];
    for (index, entry) in entries.iter().enumerate() {
        if let Some(taken) = entry {
            count += 1;
            ready += 1u8 << index;
            msgs[index] = (taken.msg, taken.size);
        }
    }
    Finished {
        service: Service::PendMulti,
        answer: Answer {
            err: OsErr::NoError,
            value: count,
            extra: 0,
        },
        ready,
        msgs,
        table: request.args[0],
        n_ids: request.n_ids,
    }
}
