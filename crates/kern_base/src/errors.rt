// The errors that calls answer: their numbers and names.

ghost use Rattle.std.specs.Prelude.{◌≡◌};
ghost use Rattle.kern_base.specs.Errors.{error_name, error_number};

/// The error of an answer. The names that begin with `OS_ERR_` are those of the µC/OS-III book, the
/// others are this project's own. The numbers are this project's own.
#[derive(Clone, Copy, Debug, PartialEq, Eq)]
pub enum OsErr {
    /// `OS_ERR_NONE`
    NoError,
    /// `OS_ERR_OPT_INVALID`
    OptionInvalid,
    /// `OS_ERR_OBJ_TYPE`
    ObjectType,
    /// `OS_ERR_TASK_INVALID`
    TaskInvalid,
    /// `OS_ERR_TASK_NOT_EXIST`
    TaskNotExist,
    /// `OS_ERR_PEND_WOULD_BLOCK`
    WouldBlock,
    /// `OS_ERR_SCHED_LOCKED`
    SchedLocked,
    /// `OS_ERR_TIMEOUT`
    Timeout,
    /// `OS_ERR_PEND_ABORT`
    PendAbort,
    /// `OS_ERR_OBJ_DEL`
    ObjectDeleted,
    /// `OS_ERR_PEND_ABORT_NONE`
    PendAbortNone,
    /// `OS_ERR_SEM_OVF`
    SemOverflow,
    /// `OS_ERR_Q_MAX`
    QueueMax,
    /// `OS_ERR_MSG_POOL_EMPTY`
    PoolEmpty,
    /// `OS_ERR_MUTEX_NOT_OWNER`
    MutexNotOwner,
    /// `OS_ERR_MUTEX_OWNER`
    MutexOwner,
    /// `OS_ERR_MUTEX_NESTING`
    MutexNesting,
    /// `OS_ERR_TASK_WAITING`
    TaskWaiting,
    /// `OS_ERR_TIME_ZERO_DLY`
    ZeroDelay,
    /// `OS_ERR_TASK_NOT_DLY`
    TaskNotDelayed,
    /// `OS_ERR_TASK_RESUME_SELF`
    TaskResumeSelf,
    /// `OS_ERR_TASK_NOT_SUSPENDED`
    TaskNotSuspended,
    /// `OS_ERR_ROUND_ROBIN_DISABLED`
    RoundRobinDisabled,
    /// `OS_ERR_ROUND_ROBIN_1`
    RoundRobinAlone,
    /// `OS_ERR_LOCK_NESTING_OVF`
    LockOverflow,
    /// `OS_ERR_SCHED_NOT_LOCKED`
    SchedNotLocked,
    /// `OS_ERR_TMR_STOPPED`
    TimerStopped,
    /// `OS_ERR_INT_Q_FULL`
    InterruptQueueFull,
    /// `OS_ERR_PEND_ISR`
    PendIsr,
    /// `OS_ERR_PEND_ABORT_ISR`
    PendAbortIsr,
    /// `OS_ERR_POST_ISR`
    PostIsr,
    /// `OS_ERR_DEL_ISR`
    DeleteIsr,
    /// `OS_ERR_TIME_DLY_ISR`
    TimeDelayIsr,
    /// `OS_ERR_TIME_DLY_RESUME_ISR`
    TimeDelayResumeIsr,
    /// `OS_ERR_TASK_SUSPEND_ISR`
    TaskSuspendIsr,
    /// `OS_ERR_TASK_RESUME_ISR`
    TaskResumeIsr,
    /// `OS_ERR_TASK_DEL_ISR`
    TaskDeleteIsr,
    /// `OS_ERR_YIELD_ISR`
    YieldIsr,
    /// `OS_ERR_SCHED_LOCK_ISR`
    SchedLockIsr,
    /// `OS_ERR_SCHED_UNLOCK_ISR`
    SchedUnlockIsr,
    /// `OS_ERR_TMR_ISR`
    TimerIsr,
    /// `ERR_CALL_ISR`
    CallIsr,
    /// `ERR_CALL_UNKNOWN`
    CallUnknown,
    /// `ERR_TABLE`
    Table,
    /// `ERR_DEPTH`
    Depth,
    /// `OS_ERR_PEND_ABORT_SELF`
    PendAbortSelf,
    /// `OS_ERR_TASK_SUSPENDED`
    TaskSuspended,
    /// `OS_ERR_TASK_CHANGE_PRIO_ISR`
    TaskChangePrioIsr,
    /// `OS_ERR_PRIO_INVALID`
    PrioInvalid,
}

impl OsErr {
    /// The number of the error, 0 to 48, as a call writes it to `a0`.
    pub fn number(self) -> u32
        ensures { result ≡ error_number self }
    {
        match self {
            OsErr::NoError => 0,
            OsErr::OptionInvalid => 1,
            OsErr::ObjectType => 2,
            OsErr::TaskInvalid => 3,
            OsErr::TaskNotExist => 4,
            OsErr::WouldBlock => 5,
            OsErr::SchedLocked => 6,
            OsErr::Timeout => 7,
            OsErr::PendAbort => 8,
            OsErr::ObjectDeleted => 9,
            OsErr::PendAbortNone => 10,
            OsErr::SemOverflow => 11,
            OsErr::QueueMax => 12,
            OsErr::PoolEmpty => 13,
            OsErr::MutexNotOwner => 14,
            OsErr::MutexOwner => 15,
            OsErr::MutexNesting => 16,
            OsErr::TaskWaiting => 17,
            OsErr::ZeroDelay => 18,
            OsErr::TaskNotDelayed => 19,
            OsErr::TaskResumeSelf => 20,
            OsErr::TaskNotSuspended => 21,
            OsErr::RoundRobinDisabled => 22,
            OsErr::RoundRobinAlone => 23,
            OsErr::LockOverflow => 24,
            OsErr::SchedNotLocked => 25,
            OsErr::TimerStopped => 26,
            OsErr::InterruptQueueFull => 27,
            OsErr::PendIsr => 28,
            OsErr::PendAbortIsr => 29,
            OsErr::PostIsr => 30,
            OsErr::DeleteIsr => 31,
            OsErr::TimeDelayIsr => 32,
            OsErr::TimeDelayResumeIsr => 33,
            OsErr::TaskSuspendIsr => 34,
            OsErr::TaskResumeIsr => 35,
            OsErr::TaskDeleteIsr => 36,
            OsErr::YieldIsr => 37,
            OsErr::SchedLockIsr => 38,
            OsErr::SchedUnlockIsr => 39,
            OsErr::TimerIsr => 40,
            OsErr::CallIsr => 41,
            OsErr::CallUnknown => 42,
            OsErr::Table => 43,
            OsErr::Depth => 44,
            OsErr::PendAbortSelf => 45,
            OsErr::TaskSuspended => 46,
            OsErr::TaskChangePrioIsr => 47,
            OsErr::PrioInvalid => 48,
        }
    }

    /// The name of the error.
    pub fn text(self) -> &'static str
        ensures { result.now ≡ error_name self }
    {
        match self {
            OsErr::NoError => "OS_ERR_NONE",
            OsErr::OptionInvalid => "OS_ERR_OPT_INVALID",
            OsErr::ObjectType => "OS_ERR_OBJ_TYPE",
            OsErr::TaskInvalid => "OS_ERR_TASK_INVALID",
            OsErr::TaskNotExist => "OS_ERR_TASK_NOT_EXIST",
            OsErr::WouldBlock => "OS_ERR_PEND_WOULD_BLOCK",
            OsErr::SchedLocked => "OS_ERR_SCHED_LOCKED",
            OsErr::Timeout => "OS_ERR_TIMEOUT",
            OsErr::PendAbort => "OS_ERR_PEND_ABORT",
            OsErr::ObjectDeleted => "OS_ERR_OBJ_DEL",
            OsErr::PendAbortNone => "OS_ERR_PEND_ABORT_NONE",
            OsErr::SemOverflow => "OS_ERR_SEM_OVF",
            OsErr::QueueMax => "OS_ERR_Q_MAX",
            OsErr::PoolEmpty => "OS_ERR_MSG_POOL_EMPTY",
            OsErr::MutexNotOwner => "OS_ERR_MUTEX_NOT_OWNER",
            OsErr::MutexOwner => "OS_ERR_MUTEX_OWNER",
            OsErr::MutexNesting => "OS_ERR_MUTEX_NESTING",
            OsErr::TaskWaiting => "OS_ERR_TASK_WAITING",
            OsErr::ZeroDelay => "OS_ERR_TIME_ZERO_DLY",
            OsErr::TaskNotDelayed => "OS_ERR_TASK_NOT_DLY",
            OsErr::TaskResumeSelf => "OS_ERR_TASK_RESUME_SELF",
            OsErr::TaskNotSuspended => "OS_ERR_TASK_NOT_SUSPENDED",
            OsErr::RoundRobinDisabled => "OS_ERR_ROUND_ROBIN_DISABLED",
            OsErr::RoundRobinAlone => "OS_ERR_ROUND_ROBIN_1",
            OsErr::LockOverflow => "OS_ERR_LOCK_NESTING_OVF",
            OsErr::SchedNotLocked => "OS_ERR_SCHED_NOT_LOCKED",
            OsErr::TimerStopped => "OS_ERR_TMR_STOPPED",
            OsErr::InterruptQueueFull => "OS_ERR_INT_Q_FULL",
            OsErr::PendIsr => "OS_ERR_PEND_ISR",
            OsErr::PendAbortIsr => "OS_ERR_PEND_ABORT_ISR",
            OsErr::PostIsr => "OS_ERR_POST_ISR",
            OsErr::DeleteIsr => "OS_ERR_DEL_ISR",
            OsErr::TimeDelayIsr => "OS_ERR_TIME_DLY_ISR",
            OsErr::TimeDelayResumeIsr => "OS_ERR_TIME_DLY_RESUME_ISR",
            OsErr::TaskSuspendIsr => "OS_ERR_TASK_SUSPEND_ISR",
            OsErr::TaskResumeIsr => "OS_ERR_TASK_RESUME_ISR",
            OsErr::TaskDeleteIsr => "OS_ERR_TASK_DEL_ISR",
            OsErr::YieldIsr => "OS_ERR_YIELD_ISR",
            OsErr::SchedLockIsr => "OS_ERR_SCHED_LOCK_ISR",
            OsErr::SchedUnlockIsr => "OS_ERR_SCHED_UNLOCK_ISR",
            OsErr::TimerIsr => "OS_ERR_TMR_ISR",
            OsErr::CallIsr => "ERR_CALL_ISR",
            OsErr::CallUnknown => "ERR_CALL_UNKNOWN",
            OsErr::Table => "ERR_TABLE",
            OsErr::Depth => "ERR_DEPTH",
            OsErr::PendAbortSelf => "OS_ERR_PEND_ABORT_SELF",
            OsErr::TaskSuspended => "OS_ERR_TASK_SUSPENDED",
            OsErr::TaskChangePrioIsr => "OS_ERR_TASK_CHANGE_PRIO_ISR",
            OsErr::PrioInvalid => "OS_ERR_PRIO_INVALID",
        }
    }
}
