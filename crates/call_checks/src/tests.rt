// Rows of the services' checks, written out from the reference of the services.

use crate::{Moment, call_refusal};
use arrayvec::ArrayVec;
use kern_base::{Kind, Kinds, OsErr, Request, Service};

// The objects 0 to 5 are one of each kind, and there are two tasks.
fn kinds() -> Kinds {
    let mut objects = ArrayVec::new();
    objects.push(Kind::Sem);
    objects.push(Kind::Queue);
    objects.push(Kind::Flags);
    objects.push(Kind::Mutex);
    objects.push(Kind::OneShot);
    objects.push(Kind::Periodic);
    Kinds::new(objects, 2)
}

fn call(service: Service, args: [u32; 4]) -> Request {
    Request {
        service,
        args,
        ids: [0; 8],
        n_ids: 0,
        table: false,
    }
}

fn pend_multi(ids: [u32; 8], n_ids: u8, table: bool) -> Request {
    Request {
        service: Service::PendMulti,
        args: [64, u32::from(n_ids), 0, 0],
        ids,
        n_ids,
        table,
    }
}

#[test]
fn options_come_first_then_what_is_named(rt: HostRuntime) {
    let kinds = kinds();
    for (service, args, refusal) in [
        (Service::SemPost, [0, 2, 0, 0], None),
        (Service::SemPost, [9, 1, 0, 0], Some(OsErr::OptionInvalid)),
        (Service::QPost, [1, 5, 4, 3], None),
        (Service::QPost, [1, 5, 4, 4], Some(OsErr::OptionInvalid)),
        (Service::FlagPend, [2, 1, 0, 15], None),
        (Service::FlagPend, [2, 1, 0, 16], Some(OsErr::OptionInvalid)),
        (Service::MutexPend, [2, 0, 0, 0], Some(OsErr::ObjectType)),
        (Service::MutexPost, [3, 0, 0, 0], None),
        (Service::QDel, [6, 1, 0, 0], Some(OsErr::ObjectType)),
        (Service::TmrStart, [4, 0, 0, 0], None),
        (Service::TmrStop, [5, 0, 0, 0], None),
        (Service::TmrStop, [5, 1, 0, 0], Some(OsErr::OptionInvalid)),
        (Service::TmrDel, [3, 0, 0, 0], Some(OsErr::ObjectType)),
        (Service::TaskSuspend, [1, 0, 0, 0], None),
        (Service::TaskSuspend, [2, 0, 0, 0], Some(OsErr::TaskInvalid)),
        (Service::TaskDel, [u32::MAX, 0, 0, 0], None),
        (
            Service::TaskSemPend,
            [7, 2, 0, 0],
            Some(OsErr::OptionInvalid),
        ),
        (Service::TimeDly, [7, 1, 0, 0], None),
        (Service::TimeGet, [9, 9, 9, 9], None),
    ] {
        let request = call(service, args);
        assert_eq!(rt;
            call_refusal(&request, Moment::Application, &kinds, true),
            refusal
        );
    }
}

#[test]
fn a_moment_refuses_before_the_option(rt: HostRuntime) {
    let kinds = kinds();
    for (service, args, moment, refusal) in [
        (
            Service::SemPend,
            [0, 0, 7, 0],
            Moment::Interrupt,
            Some(OsErr::PendIsr),
        ),
        (
            Service::TimeGet,
            [0, 0, 0, 0],
            Moment::Interrupt,
            Some(OsErr::CallIsr),
        ),
        (
            Service::TmrDel,
            [4, 0, 0, 0],
            Moment::Interrupt,
            Some(OsErr::TimerIsr),
        ),
        (
            Service::TaskChangePrio,
            [0, 9, 0, 0],
            Moment::Interrupt,
            Some(OsErr::TaskChangePrioIsr),
        ),
        (Service::TimeTick, [9, 9, 9, 9], Moment::Interrupt, None),
        (
            Service::TaskSemPost,
            [u32::MAX, 0, 0, 0],
            Moment::Interrupt,
            Some(OsErr::TaskInvalid),
        ),
        (
            Service::TaskSemPost,
            [u32::MAX, 0, 0, 0],
            Moment::Internal,
            Some(OsErr::TaskInvalid),
        ),
        (
            Service::TaskSemPost,
            [u32::MAX, 0, 0, 0],
            Moment::Application,
            None,
        ),
        (Service::TmrStart, [4, 0, 0, 0], Moment::Internal, None),
    ] {
        let request = call(service, args);
        assert_eq!(rt; call_refusal(&request, moment, &kinds, true), refusal);
    }
}

#[test]
fn a_service_that_is_not_served_is_unknown(rt: HostRuntime) {
    let kinds = kinds();
    for moment in [Moment::Application, Moment::Internal, Moment::Interrupt] {
        let request = call(Service::MutexPend, [9, 9, 9, 9]);
        assert_eq!(rt;
            call_refusal(&request, moment, &kinds, false),
            Some(OsErr::CallUnknown)
        );
    }
}

#[test]
fn the_table_of_several_objects(rt: HostRuntime) {
    let kinds = kinds();
    for (ids, n_ids, table, refusal) in [
        ([1, 0, 0, 0, 0, 0, 0, 0], 2, true, None),
        ([1, 0, 0, 0, 0, 0, 0, 0], 2, false, Some(OsErr::Table)),
        ([1, 0, 0, 0, 0, 0, 0, 0], 3, true, Some(OsErr::Table)),
        ([9, 2, 9, 0, 0, 0, 0, 0], 3, true, Some(OsErr::Table)),
        ([1, 2, 0, 0, 0, 0, 0, 0], 2, true, Some(OsErr::ObjectType)),
        ([1, 6, 0, 0, 0, 0, 0, 0], 2, true, Some(OsErr::ObjectType)),
    ] {
        let request = pend_multi(ids, n_ids, table);
        assert_eq!(rt;
            call_refusal(&request, Moment::Application, &kinds, true),
            refusal
        );
    }
}
