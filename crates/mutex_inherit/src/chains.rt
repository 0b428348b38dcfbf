// Priority inheritance through chains of waits for mutexes.

ghost use Rattle.std.specs.Prelude.{◌≡◌, ◌<◌, ◌==◌, ℕ};
ghost use Rattle.kern_model.specs.State.{Kernel};
ghost use Rattle.mutex_inherit.specs.Chains.{prio_at, Tells, AreInherited, is_passed, raised, least_from};

use kern_base::{Prio, TaskId};

// The idle task's priority, the lowest.
const IDLE: Prio = Prio(63);

// No chain passes more tasks without coming back to one of them.
const LONGEST: u32 = 65;

/// The inherited priority of each task, by number: the least among its base priority and those of all
/// tasks that wait, directly or through a chain of mutexes, for a mutex that it owns. `waits_for` names
/// the living owner of the mutex for which each task waits. Each task of a chain is looked at once for
/// each task from which a chain begins; a cycle of waits ends after 65 tasks.
pub fn inherited(bases: &[Prio; 64], waits_for: &[Option<TaskId>; 64]) -> [Prio; 64]
    ensures { (k : Kernel) → Tells bases.now waits_for.now k → AreInherited result k }
{
    let mut prios = [IDLE; 64];
    for task in 0..64 {
        raise_chain(&mut prios, task, bases[task as usize], waits_for);
    }
    prios
}

// Raises a task, and all that are reached from it, to this priority at least.
fn raise_chain(prios: &mut [Prio; 64], first: u8, base: Prio, waits_for: &[Option<TaskId>; 64])
    ensures { (x : ℕ) → x < 64 →
        prio_at prios.new x ≡ raised (is_passed 65 waits_for.now x (Some first)) base.0 (prio_at prios.old x) }
{
    let mut next = Some(TaskId(first));
    for _step in 0..LONGEST {
        let Some(TaskId(task)) = next else {
            return;
        };
        if task >= 64 {
            return;
        }
        raise(prios, task, base);
        next = waits_for[task as usize];
    }
}

// Raises one task to this priority at least.
fn raise(prios: &mut [Prio; 64], task: u8, base: Prio)
    requires { task < 64 }
    ensures { (x : ℕ) → x < 64 → prio_at prios.new x ≡ raised (task == x) base.0 (prio_at prios.old x) }
{
    let prio = prios[task as usize];
    prios[task as usize] = Prio(prio.0.min(base.0));
}
