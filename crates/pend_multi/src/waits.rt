// The lists of waiters in which a task stands that waits for several objects.

ghost use Rattle.std.specs.Prelude.{◌≡◌, ◌<◌};
ghost use Rattle.kern_base.specs.declared.numbers.Prio.{Prio as NumberedPrio};
ghost use Rattle.kern_model.specs.Effect.{stands_in, left_all};
ghost use Rattle.pend_multi.specs.Polls.{AreIds};
ghost use Rattle.pend_multi.specs.Waits.{tasks_in, prio_in, IsNowhere, StandsIn};

use kern_base::{ObjId, Prio, TaskId};
use links::Links;
use pend_lists::{PendLists, node_of};

/// A task that stands in no list joins the waiters of these objects, in each behind those whose priority
/// number is at most its own. Its i-th node stands in the list of the i-th object.
pub fn wait_on<L: Links>(lists: &mut PendLists<L>, task: TaskId, ids: &[u8], prios: &[Prio; 64])
    requires number { task.0 < 64 }
    requires ids { AreIds ids.now }
    requires whole { lists.old.forward ≡ lists.old.back }
    requires nowhere { IsNowhere task.0 lists.old.forward }
    ensures waiters { (blank : NumberedPrio) → tasks_in lists.new.forward
        ≡ stands_in (prio_in prios.now blank) task.0 (prio_in prios.now blank task.0) ids.now (tasks_in lists.old.forward) }
    ensures whole { lists.new.back ≡ lists.new.forward }
    ensures stands { StandsIn task.0 ids.now lists.new.forward }
{
    lists.consistent();
    let prio = prios[task.0 as usize];
    for (index, id) in ids.iter().enumerate() {
        lists.consistent();
        lists.join(node_of(task, index as u8), ObjId(*id), prio, prios);
    }
}

/// A task leaves the waiters of all objects for which it waits.
pub fn leave_others<L: Links>(lists: &mut PendLists<L>, task: TaskId, ids: &[u8])
    requires number { task.0 < 64 }
    requires ids { AreIds ids.now }
    requires whole { lists.old.forward ≡ lists.old.back }
    requires stands { StandsIn task.0 ids.now lists.old.forward }
    ensures waiters { tasks_in lists.new.forward ≡ left_all task.0 ids.now (tasks_in lists.old.forward) }
    ensures whole { lists.new.back ≡ lists.new.forward }
{
    for index in 0..ids.len() as u8 {
        lists.consistent();
        lists.leave(node_of(task, index));
    }
}
