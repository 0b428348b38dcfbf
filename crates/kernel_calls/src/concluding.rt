// The last micro-step of a work, in the records.

ghost use Rattle.std.specs.Prelude.{◌≡◌};
ghost use Rattle.kernel_calls.specs.Ending.{MayEnd, course_of, outcome_by, records_by};

use crate::seen::Seen;
use crate::work::Work;
use decisions::success;
use kern_base::{Outcome, TaskId};
use kernel_records::{Records, is_tick};
use link_plans::Plan;

// The tick task.
const TICK: TaskId = TaskId(60);

// Makes what the work comes to: what was decided of a call, a tick, or the unit of an internal task. What it came to is written over
// an older outcome, whatever that was.
pub(crate) fn conclude(
    records: &mut Records,
    work: &Work,
    plan: &Plan,
    seen: &Seen,
    outcome: &mut Outcome,
)
    requires { MayEnd (course_of work.now) work.now plan.now seen.now records.old.state }
    ensures records { records.new ≡ record records.old { state = records_by (course_of work.now) work.now plan.now seen.now records.old.state } }
    ensures outcome { outcome.new ≡ outcome_by (course_of work.now) work.now plan.now seen.now records.old.state }
{
    let woken = plan.woken.as_slice();
    if work.is_unit() {
        *outcome = if work.caller() == TICK {
            records.end_tick_unit(woken)
        } else {
            records.end_timer_unit()
        };
        return;
    }
    if is_tick(work.service()) {
        records.tick(&seen.turn);
        *outcome = Outcome::Answered(success(0), None);
        return;
    }
    records.conclude(work.request(), &seen.around, &plan.decision, woken, outcome);
}
