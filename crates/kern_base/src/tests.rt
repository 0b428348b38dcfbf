// Rows of the tables of services, errors and static checks, written out from the outside.

use crate::{Kind, Kinds, OsErr, Post, Service, static_refusal};
use arrayvec::ArrayVec;

#[test]
fn services_have_their_numbers_names_and_arguments(rt: HostRuntime) {
    for (number, name, args) in [
        (1, "OSSemPost", 2),
        (2, "OSQPost", 4),
        (6, "OSTimeTick", 0),
        (7, "OSSemPend", 3),
        (9, "OSFlagPend", 4),
        (13, "OSPendMulti", 4),
        (18, "OSMutexPendAbort", 2),
        (24, "OSMutexDel", 2),
        (31, "OSSchedRoundRobinYield", 0),
        (36, "OSTmrRemainGet", 1),
        (39, "OSTaskChangePrio", 2),
        (0, "", 0),
        (40, "", 0),
        (4_294_967_295, "", 0),
    ] {
        let service = Service::of(number);
        assert_eq!(rt; service.number(), number);
        assert_eq!(rt; service.text(), name);
        assert_eq!(rt; service.args(), args);
    }
}

#[test]
fn errors_have_their_numbers_and_names(rt: HostRuntime) {
    for (err, number, name) in [
        (OsErr::NoError, 0, "OS_ERR_NONE"),
        (OsErr::WouldBlock, 5, "OS_ERR_PEND_WOULD_BLOCK"),
        (OsErr::SemOverflow, 11, "OS_ERR_SEM_OVF"),
        (OsErr::InterruptQueueFull, 27, "OS_ERR_INT_Q_FULL"),
        (OsErr::CallUnknown, 42, "ERR_CALL_UNKNOWN"),
        (OsErr::PrioInvalid, 48, "OS_ERR_PRIO_INVALID"),
    ] {
        assert_eq!(rt; err.number(), number);
        assert_eq!(rt; err.text(), name);
    }
}

#[test]
fn static_checks_look_at_the_option_first(rt: HostRuntime) {
    let mut objects = ArrayVec::new();
    objects.push(Kind::Sem);
    objects.push(Kind::Queue);
    let kinds = Kinds::new(objects, 2);
    for (service, args, refusal) in [
        (Service::SemPost, [0, 2, 0, 0], None),
        (Service::SemPost, [7, 1, 0, 0], Some(OsErr::OptionInvalid)),
        (Service::SemPost, [1, 0, 0, 0], Some(OsErr::ObjectType)),
        (Service::QPost, [1, 9, 4, 3], None),
        (Service::QPost, [2, 9, 4, 3], Some(OsErr::ObjectType)),
        (Service::TaskQPost, [1, 9, 4, 1], None),
        (Service::TaskSemPost, [2, 0, 0, 0], Some(OsErr::TaskInvalid)),
        (Service::TimeTick, [9, 9, 9, 9], None),
    ] {
        assert_eq!(rt; static_refusal(&Post { service, args }, &kinds), refusal);
    }
}
