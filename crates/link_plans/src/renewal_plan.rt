// Plans after whose links priorities are renewed.

ghost use Rattle.std.specs.Prelude.{◌≡◌, ◌<◌, ◌∷◌, [], All, MatchOption, true};
ghost use Rattle.link_plans.specs.RenewalPlans.{renewal_left};

use crate::moves::Moves;
use crate::plan::Plan;
use micro_steps::Link;
use tcb_pool::Tcbs;

/// A plan, and the moves of the tasks whose inherited priority is another after it. The end of the step comes behind the moves, so
/// the plan itself has none: `ended` is set in it.
#[derive(Drop)]
pub struct RenewalPlan {
    pub plan: Plan,
    pub moves: Moves,
    /// Whether the end of the step is made too.
    pub ended: bool,
}

impl RenewalPlan {
    /// The next link, the last of which is the end of the step. None exactly where none is left.
    pub fn next_link(&mut self, tasks: &Tcbs) -> Option<Link>
        requires caller { self.old.plan.caller.0 < 64 }
        requires objects { All (λ o. o < 64) self.old.plan.objects.items }
        requires woken { All (λ x. x < 64) self.old.plan.woken.items }
        requires movers { All (λ m. m.task.0 < 64) self.old.moves.moves.items }
        requires ended { self.old.plan.ended ≡ true }
        ensures next { MatchOption result (renewal_left tasks.now.tasks self.old ≡ []) (λ link. renewal_left tasks.now.tasks self.old ≡ link ∷ renewal_left tasks.now.tasks self.new) }
        ensures plan { (self.new.plan.decision ≡ self.old.plan.decision) × (self.new.plan.caller ≡ self.old.plan.caller) × (self.new.plan.compared ≡ self.old.plan.compared) × (self.new.plan.objects ≡ self.old.plan.objects) × (self.new.plan.woken ≡ self.old.plan.woken) × (self.new.plan.known ≡ self.old.plan.known) × (self.new.plan.bits ≡ self.old.plan.bits) × (self.new.plan.ended ≡ true) }
        ensures moves { (self.new.moves.moves ≡ self.old.moves.moves) × (self.new.moves.tail ≡ self.old.moves.tail) }
    {
        let own = self.plan.next_link(tasks);
        if own.is_some() {
            return own;
        }
        let moved = self.moves.next_link(tasks);
        if moved.is_some() || self.ended {
            return moved;
        }
        self.ended = true;
        Some(Link::Plain)
    }
}
