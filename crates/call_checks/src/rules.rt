// What the arguments of each service may be.

ghost use Rattle.std.specs.Prelude.{◌≡◌, ◌<◌, ℕ, List};
ghost use Rattle.kern_base.specs.Services.{kinds_wanted, names_task, names_option, interrupt_error, is_post};
ghost use Rattle.call_checks.specs.Rules.{kinds_named, task_named, allows, option_place};

use kern_base::{Kind, OsErr, Service};

/// What the first argument of a call names.
#[derive(Clone, Copy, Debug, PartialEq, Eq)]
pub enum Target {
    /// No object and no task.
    Nothing,
    /// An object of this kind.
    Object(Kind),
    /// A timer, of either kind.
    Timer,
    /// A task.
    Task,
}

/// Which options a call may have. A place is that of the option among the arguments.
#[derive(Clone, Copy, Debug, PartialEq, Eq)]
pub enum Options {
    /// It has none.
    Any,
    /// The option at this place is 0.
    Zero(usize),
    /// The option at this place is 0 or 2.
    ZeroOrTwo(usize),
    /// The option at this place is below this number.
    Below(usize, u32),
}

/// What the first argument of a call of this service names.
pub fn target_of(service: Service) -> Target
    ensures kinds { kinds_named result ≡ kinds_wanted service }
    ensures task { task_named result ≡ names_task service }
{
    match service {
        Service::SemPost | Service::SemPend | Service::SemPendAbort | Service::SemDel => {
            Target::Object(Kind::Sem)
        }
        Service::QPost | Service::QPend | Service::QPendAbort | Service::QDel => {
            Target::Object(Kind::Queue)
        }
        Service::FlagPost | Service::FlagPend | Service::FlagPendAbort | Service::FlagDel => {
            Target::Object(Kind::Flags)
        }
        Service::MutexPend | Service::MutexPost | Service::MutexPendAbort | Service::MutexDel => {
            Target::Object(Kind::Mutex)
        }
        Service::TmrStart
        | Service::TmrStop
        | Service::TmrRemainGet
        | Service::TmrStateGet
        | Service::TmrDel => Target::Timer,
        Service::TaskSemPost
        | Service::TaskQPost
        | Service::TaskSemPendAbort
        | Service::TaskQPendAbort
        | Service::TimeDlyResume
        | Service::TaskSuspend
        | Service::TaskResume
        | Service::TaskDel
        | Service::TaskChangePrio => Target::Task,
        _ => Target::Nothing,
    }
}

/// Which options a call of this service may have.
pub fn options_of(service: Service) -> Options
    ensures allowed { (args : List ℕ) → allows result args ≡ names_option service args }
    ensures place { option_place result < 4 }
{
    match service {
        Service::SemPost => Options::ZeroOrTwo(1),
        Service::TaskSemPost
        | Service::MutexPost
        | Service::TaskSemPendAbort
        | Service::TaskQPendAbort
        | Service::TmrStop => Options::Zero(1),
        Service::TaskSemPend
        | Service::TaskQPend
        | Service::SemPendAbort
        | Service::QPendAbort
        | Service::FlagPendAbort
        | Service::MutexPendAbort
        | Service::SemDel
        | Service::QDel
        | Service::FlagDel
        | Service::MutexDel
        | Service::TimeDly => Options::Below(1, 2),
        Service::FlagPost | Service::SemPend | Service::QPend | Service::MutexPend => {
            Options::Below(2, 2)
        }
        Service::TaskQPost | Service::PendMulti => Options::Below(3, 2),
        Service::QPost => Options::Below(3, 4),
        Service::FlagPend => Options::Below(3, 16),
        _ => Options::Any,
    }
}

impl Options {
    /// Whether the arguments have an option that may be.
    pub fn allow(self, args: &[u32; 4]) -> bool
        requires { option_place self < 4 }
        ensures { result ≡ allows self args.now }
    {
        match self {
            Options::Any => true,
            Options::Zero(place) => args[place] == 0,
            Options::ZeroOrTwo(place) => args[place] == 0 || args[place] == 2,
            Options::Below(place, limit) => args[place] < limit,
        }
    }
}

/// Whether this is one of the six services that interrupt code may use.
pub fn is_post(service: Service) -> bool
    ensures { result ≡ is_post service }
{
    matches!(
        service,
        Service::SemPost
            | Service::QPost
            | Service::FlagPost
            | Service::TaskSemPost
            | Service::TaskQPost
            | Service::TimeTick
    )
}

/// The error with which a call of this service from interrupt code is answered that is no post.
pub fn interrupt_error(service: Service) -> OsErr
    ensures { result ≡ interrupt_error service }
{
    match service {
        Service::SemPend
        | Service::QPend
        | Service::FlagPend
        | Service::MutexPend
        | Service::TaskSemPend
        | Service::TaskQPend
        | Service::PendMulti => OsErr::PendIsr,
        Service::MutexPost => OsErr::PostIsr,
        Service::SemPendAbort
        | Service::QPendAbort
        | Service::FlagPendAbort
        | Service::MutexPendAbort
        | Service::TaskSemPendAbort
        | Service::TaskQPendAbort => OsErr::PendAbortIsr,
        Service::SemDel | Service::QDel | Service::FlagDel | Service::MutexDel => OsErr::DeleteIsr,
        Service::TimeDly => OsErr::TimeDelayIsr,
        Service::TimeDlyResume => OsErr::TimeDelayResumeIsr,
        Service::TimeGet => OsErr::CallIsr,
        Service::TaskSuspend => OsErr::TaskSuspendIsr,
        Service::TaskResume => OsErr::TaskResumeIsr,
        Service::TaskDel => OsErr::TaskDeleteIsr,
        Service::RoundRobinYield => OsErr::YieldIsr,
        Service::SchedLock => OsErr::SchedLockIsr,
        Service::SchedUnlock => OsErr::SchedUnlockIsr,
        Service::TmrStart
        | Service::TmrStop
        | Service::TmrRemainGet
        | Service::TmrStateGet
        | Service::TmrDel => OsErr::TimerIsr,
        Service::TaskChangePrio => OsErr::TaskChangePrioIsr,
        _ => OsErr::CallUnknown,
    }
}
