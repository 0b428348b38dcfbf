// What woken tasks read, and what the calls that woke them are answered.

use crate::{handed, reply};
use kern_base::{OsErr, Request, Service};

#[test]
fn woken_tasks_and_their_callers_read_answers(rt: HostRuntime) {
    for (service, err, value, extra, answer) in [
        (Service::SemPost, OsErr::NoError, 0, 0, 0),
        (Service::QPost, OsErr::NoError, 100, 8, 0),
        (Service::TaskSemPost, OsErr::NoError, 0, 0, 0),
        (Service::TaskQPost, OsErr::NoError, 100, 8, 0),
        (Service::MutexPost, OsErr::NoError, 1, 0, 0),
        (Service::SemPendAbort, OsErr::PendAbort, 0, 0, 3),
        (Service::FlagPendAbort, OsErr::PendAbort, 0, 0, 3),
        (Service::TaskQPendAbort, OsErr::PendAbort, 0, 0, 3),
        (Service::QDel, OsErr::ObjectDeleted, 0, 0, 3),
        (Service::MutexDel, OsErr::ObjectDeleted, 0, 0, 3),
    ] {
        let request = Request {
            service,
            args: [4, 100, 8, 0],
            ids: [0; 8],
            n_ids: 0,
            table: false,
        };
        let result = handed(&request);
        assert_eq!(rt; result.err, err);
        assert_eq!(rt; (result.value, result.extra), (value, extra));
        let replied = reply(service, 3);
        assert_eq!(rt; replied.err, OsErr::NoError);
        assert_eq!(rt; replied.value, answer);
    }
}
