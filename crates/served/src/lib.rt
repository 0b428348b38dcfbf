//! Which of the kernel's services this program serves.
#![tactic(auto)]

ghost use Rattle.std.specs.Prelude.{◌≡◌};
ghost use Rattle.served.specs.Served.{program_serves};

use kern_base::Service;

/// Whether this program serves a service: any other counts as an unknown number.
pub fn is_served(service: Service) -> bool
    ensures { result ≡ program_serves service }
{
    matches!(
        service,
        Service::SemPost
            | Service::QPost
            | Service::FlagPost
            | Service::TaskSemPost
            | Service::TaskQPost
            | Service::SemPend
            | Service::QPend
            | Service::FlagPend
            | Service::TaskSemPend
            | Service::TaskQPend
            | Service::SchedLock
            | Service::SchedUnlock
            | Service::TimeGet
            | Service::TimeDly
            | Service::TimeDlyResume
            | Service::SemPendAbort
            | Service::QPendAbort
            | Service::FlagPendAbort
            | Service::TaskSemPendAbort
            | Service::TaskQPendAbort
            | Service::SemDel
            | Service::QDel
            | Service::FlagDel
            | Service::TaskSuspend
            | Service::TaskResume
            | Service::TimeTick
            | Service::RoundRobinYield
            | Service::TmrStart
            | Service::TmrStop
            | Service::TmrRemainGet
            | Service::TmrStateGet
            | Service::TmrDel
    )
}
