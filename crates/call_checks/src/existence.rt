// Whether what a call names is still there.

ghost use Rattle.std.specs.Prelude.{◌≡◌, ℕ};
ghost use Rattle.kern_base.specs.declared.requests.Request.{Request};
ghost use Rattle.kern_model.specs.State.{Kernel, object_at, task_at};
ghost use Rattle.kern_model.specs.Checks.{argument, existence_error, named_task};

use crate::rules::{Target, target_of};
use kern_base::{OsErr, Service, TaskId};

// The number by which an application task names itself.
const CALLER: u32 = u32::MAX;

/// The number of the task that the first argument of a call names: 4,294,967,295 is the caller's.
pub fn named_task(number: u32, caller: TaskId) -> u32
    ensures { (r : Request) → argument r 0 ≡ number → result ≡ named_task r caller.0 }
{
    if number == CALLER {
        u32::from(caller.0)
    } else {
        number
    }
}

/// The error of a call whose object is deleted or whose task is not alive, where its service names one.
/// `deleted` is of the object of the first argument's number, `alive` of the task that it names.
pub fn existence_refusal(service: Service, deleted: bool, alive: bool) -> Option<OsErr>
    ensures { (r : Request) (x : ℕ) (k : Kernel) → r.service ≡ service →
        (object_at k (argument r 0)).deleted ≡ deleted → (task_at k (named_task r x)).alive ≡ alive →
        result ≡ existence_error r x k }
{
    match target_of(service) {
        Target::Object(_) | Target::Timer if deleted => Some(OsErr::ObjectType),
        Target::Task if !alive => Some(OsErr::TaskNotExist),
        _ => None,
    }
}
