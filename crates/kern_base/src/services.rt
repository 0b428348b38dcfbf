// The services of the kernel: their numbers, names and numbers of arguments.

ghost use Rattle.std.specs.Prelude.{◌≡◌};
ghost use Rattle.kern_base.specs.Services.{service_of, argument_count, service_name, service_number};

/// A service of the kernel, by its number in register `a7`. The subjects are those of the API
/// reference in the µC/OS-III book.
#[derive(Clone, Copy, Debug, PartialEq, Eq)]
pub enum Service {
    /// `OSSemPost`
    SemPost,
    /// `OSQPost`
    QPost,
    /// `OSFlagPost`
    FlagPost,
    /// `OSTaskSemPost`
    TaskSemPost,
    /// `OSTaskQPost`
    TaskQPost,
    /// `OSTimeTick`
    TimeTick,
    /// `OSSemPend`
    SemPend,
    /// `OSQPend`
    QPend,
    /// `OSFlagPend`
    FlagPend,
    /// `OSMutexPend`
    MutexPend,
    /// `OSTaskSemPend`
    TaskSemPend,
    /// `OSTaskQPend`
    TaskQPend,
    /// `OSPendMulti`
    PendMulti,
    /// `OSMutexPost`
    MutexPost,
    /// `OSSemPendAbort`
    SemPendAbort,
    /// `OSQPendAbort`
    QPendAbort,
    /// `OSFlagPendAbort`
    FlagPendAbort,
    /// `OSMutexPendAbort`
    MutexPendAbort,
    /// `OSTaskSemPendAbort`
    TaskSemPendAbort,
    /// `OSTaskQPendAbort`
    TaskQPendAbort,
    /// `OSSemDel`
    SemDel,
    /// `OSQDel`
    QDel,
    /// `OSFlagDel`
    FlagDel,
    /// `OSMutexDel`
    MutexDel,
    /// `OSTimeDly`
    TimeDly,
    /// `OSTimeDlyResume`
    TimeDlyResume,
    /// `OSTimeGet`
    TimeGet,
    /// `OSTaskSuspend`
    TaskSuspend,
    /// `OSTaskResume`
    TaskResume,
    /// `OSTaskDel`
    TaskDel,
    /// `OSSchedRoundRobinYield`
    RoundRobinYield,
    /// `OSSchedLock`
    SchedLock,
    /// `OSSchedUnlock`
    SchedUnlock,
    /// `OSTmrStart`
    TmrStart,
    /// `OSTmrStop`
    TmrStop,
    /// `OSTmrRemainGet`
    TmrRemainGet,
    /// `OSTmrStateGet`
    TmrStateGet,
    /// `OSTmrDel`
    TmrDel,
    /// `OSTaskChangePrio`
    TaskChangePrio,
    /// A number that no service has.
    Unknown(u32),
}

impl Service {
    /// The service of this number.
    pub fn of(number: u32) -> Service
        ensures { result ≡ service_of number }
    {
        match number {
            1 => Service::SemPost,
            2 => Service::QPost,
            3 => Service::FlagPost,
            4 => Service::TaskSemPost,
            5 => Service::TaskQPost,
            6 => Service::TimeTick,
            7 => Service::SemPend,
            8 => Service::QPend,
            9 => Service::FlagPend,
            10 => Service::MutexPend,
            11 => Service::TaskSemPend,
            12 => Service::TaskQPend,
            13 => Service::PendMulti,
            14 => Service::MutexPost,
            15 => Service::SemPendAbort,
            16 => Service::QPendAbort,
            17 => Service::FlagPendAbort,
            18 => Service::MutexPendAbort,
            19 => Service::TaskSemPendAbort,
            20 => Service::TaskQPendAbort,
            21 => Service::SemDel,
            22 => Service::QDel,
            23 => Service::FlagDel,
            24 => Service::MutexDel,
            25 => Service::TimeDly,
            26 => Service::TimeDlyResume,
            27 => Service::TimeGet,
            28 => Service::TaskSuspend,
            29 => Service::TaskResume,
            30 => Service::TaskDel,
            31 => Service::RoundRobinYield,
            32 => Service::SchedLock,
            33 => Service::SchedUnlock,
            34 => Service::TmrStart,
            35 => Service::TmrStop,
            36 => Service::TmrRemainGet,
            37 => Service::TmrStateGet,
            38 => Service::TmrDel,
            39 => Service::TaskChangePrio,
            _ => Service::Unknown(number),
        }
    }

    /// The number of the service.
    pub fn number(self) -> u32
        ensures { result ≡ service_number self }
    {
        match self {
            Service::SemPost => 1,
            Service::QPost => 2,
            Service::FlagPost => 3,
            Service::TaskSemPost => 4,
            Service::TaskQPost => 5,
            Service::TimeTick => 6,
            Service::SemPend => 7,
            Service::QPend => 8,
            Service::FlagPend => 9,
            Service::MutexPend => 10,
            Service::TaskSemPend => 11,
            Service::TaskQPend => 12,
            Service::PendMulti => 13,
            Service::MutexPost => 14,
            Service::SemPendAbort => 15,
            Service::QPendAbort => 16,
            Service::FlagPendAbort => 17,
            Service::MutexPendAbort => 18,
            Service::TaskSemPendAbort => 19,
            Service::TaskQPendAbort => 20,
            Service::SemDel => 21,
            Service::QDel => 22,
            Service::FlagDel => 23,
            Service::MutexDel => 24,
            Service::TimeDly => 25,
            Service::TimeDlyResume => 26,
            Service::TimeGet => 27,
            Service::TaskSuspend => 28,
            Service::TaskResume => 29,
            Service::TaskDel => 30,
            Service::RoundRobinYield => 31,
            Service::SchedLock => 32,
            Service::SchedUnlock => 33,
            Service::TmrStart => 34,
            Service::TmrStop => 35,
            Service::TmrRemainGet => 36,
            Service::TmrStateGet => 37,
            Service::TmrDel => 38,
            Service::TaskChangePrio => 39,
            Service::Unknown(number) => number,
        }
    }

    /// How many arguments the service has, in `a0` up: 0 to 4.
    pub fn args(self) -> usize
        ensures { result ≡ argument_count self }
    {
        match self {
            Service::SemPost => 2,
            Service::QPost => 4,
            Service::FlagPost => 3,
            Service::TaskSemPost => 2,
            Service::TaskQPost => 4,
            Service::TimeTick => 0,
            Service::SemPend => 3,
            Service::QPend => 3,
            Service::FlagPend => 4,
            Service::MutexPend => 3,
            Service::TaskSemPend => 2,
            Service::TaskQPend => 2,
            Service::PendMulti => 4,
            Service::MutexPost => 2,
            Service::SemPendAbort => 2,
            Service::QPendAbort => 2,
            Service::FlagPendAbort => 2,
            Service::MutexPendAbort => 2,
            Service::TaskSemPendAbort => 2,
            Service::TaskQPendAbort => 2,
            Service::SemDel => 2,
            Service::QDel => 2,
            Service::FlagDel => 2,
            Service::MutexDel => 2,
            Service::TimeDly => 2,
            Service::TimeDlyResume => 1,
            Service::TimeGet => 0,
            Service::TaskSuspend => 1,
            Service::TaskResume => 1,
            Service::TaskDel => 1,
            Service::RoundRobinYield => 0,
            Service::SchedLock => 0,
            Service::SchedUnlock => 0,
            Service::TmrStart => 1,
            Service::TmrStop => 2,
            Service::TmrRemainGet => 1,
            Service::TmrStateGet => 1,
            Service::TmrDel => 1,
            Service::TaskChangePrio => 2,
            Service::Unknown(_) => 0,
        }
    }

    /// The name of the service; the empty text for a number that no service has.
    pub fn text(self) -> &'static str
        ensures { result.now ≡ service_name self }
    {
        match self {
            Service::SemPost => "OSSemPost",
            Service::QPost => "OSQPost",
            Service::FlagPost => "OSFlagPost",
            Service::TaskSemPost => "OSTaskSemPost",
            Service::TaskQPost => "OSTaskQPost",
            Service::TimeTick => "OSTimeTick",
            Service::SemPend => "OSSemPend",
            Service::QPend => "OSQPend",
            Service::FlagPend => "OSFlagPend",
            Service::MutexPend => "OSMutexPend",
            Service::TaskSemPend => "OSTaskSemPend",
            Service::TaskQPend => "OSTaskQPend",
            Service::PendMulti => "OSPendMulti",
            Service::MutexPost => "OSMutexPost",
            Service::SemPendAbort => "OSSemPendAbort",
            Service::QPendAbort => "OSQPendAbort",
            Service::FlagPendAbort => "OSFlagPendAbort",
            Service::MutexPendAbort => "OSMutexPendAbort",
            Service::TaskSemPendAbort => "OSTaskSemPendAbort",
            Service::TaskQPendAbort => "OSTaskQPendAbort",
            Service::SemDel => "OSSemDel",
            Service::QDel => "OSQDel",
            Service::FlagDel => "OSFlagDel",
            Service::MutexDel => "OSMutexDel",
            Service::TimeDly => "OSTimeDly",
            Service::TimeDlyResume => "OSTimeDlyResume",
            Service::TimeGet => "OSTimeGet",
            Service::TaskSuspend => "OSTaskSuspend",
            Service::TaskResume => "OSTaskResume",
            Service::TaskDel => "OSTaskDel",
            Service::RoundRobinYield => "OSSchedRoundRobinYield",
            Service::SchedLock => "OSSchedLock",
            Service::SchedUnlock => "OSSchedUnlock",
            Service::TmrStart => "OSTmrStart",
            Service::TmrStop => "OSTmrStop",
            Service::TmrRemainGet => "OSTmrRemainGet",
            Service::TmrStateGet => "OSTmrStateGet",
            Service::TmrDel => "OSTmrDel",
            Service::TaskChangePrio => "OSTaskChangePrio",
            Service::Unknown(_) => "",
        }
    }
}
