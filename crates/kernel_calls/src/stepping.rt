// Whole steps, one micro-step a call.

ghost use Rattle.std.specs.Prelude.{◌≡◌, ◌<◌, ◌+◌, true, false, None, Some};
ghost use Rattle.kern_base.specs.declared.outcomes.Outcome.TheVariants.{Answered};
ghost use Rattle.decisions.specs.Around.{IsAround, first_waiter};
ghost use Rattle.kernel_records.specs.Deciding.{waiters_of};
ghost use Rattle.kernel_records.specs.SchedulerCalls.{turn_waiters};
ghost use Rattle.served.specs.Served.{program_serves};
ghost use Rattle.kern_model.specs.Services.{cost, posted, post_request};
ghost use Rattle.kern_model.specs.State.{list_at, prio_of};
ghost use Rattle.kern_model.specs.Valid.{IsLinked};
ghost use Rattle.kernel_calls.specs.KernelRecord.{ended, with_state, IsOpen};
ghost use Rattle.kernel_records.specs.Ticks.{HasRoom, is_tick};
ghost use Rattle.kern_base.specs.declared.services.Service.TheVariants.{TimeTick};
ghost use Rattle.kernel_calls.specs.Works.{HasRoomFor, IsPlainAnswer, MayBegin, MayRunUnit, begun, effect_of, stepped, unit_begun, WorkRecord};

use crate::concluding::conclude;
use crate::kernels::Kernel;
use crate::planning::{first_waiter, plan_call, plan_move, planned_bits};
use crate::ticking::{plan_tick, plan_unit, turn_behind};
use crate::work::HANDLER;
use kern_base::{Answer, Around, Outcome, Post, Prio, Request, Service, TaskId};
use kernel_records::{is_scheduler_call, is_task_call, is_tick};
use links::Links;
use micro_steps::Link;
use round_robin::front_of;

/// What one micro-step came to.
#[derive(Clone, Copy)]
pub enum Progress {
    /// Micro-steps are left.
    More,
    /// It was the last one, and the whole step came to this.
    Done(Outcome),
}

// A post as a request.
fn request_of(post: Post) -> Request
    ensures { result ≡ post_request post.service post.args }
{
    let args = post.args;
    Request {
        service: post.service,
        args,
        ids: [0; 8],
        n_ids: 0,
        table: false,
    }
}

// The answer of a post.
fn answer_of(outcome: &Outcome) -> Answer
    requires { IsPlainAnswer outcome.now }
    ensures { outcome.now ≡ Answered result None }
{
    match outcome {
        Outcome::Answered(answer, _) => *answer,
        _ => unreachable!(),
    }
}

impl<L: Links> Kernel<L> {
    /// Begins a whole step: a call of a task. `interrupted` is the priority whose list round robin looks at, `compared` the one
    /// that readied tasks are compared with. What the call comes to is decided here, once.
    pub fn begin(&mut self, caller: TaskId, request: &Request, interrupted: Prio, compared: Prio)
        requires task { caller.0 < 64 }
        requires may { MayBegin caller.0 request.now self.old.state }
        requires room { HasRoomFor request.now self.old.state }
        requires free { self.old.hand ≡ None }
        ensures begun { self.new ≡ record self.old { hand = Some (begun caller.0 request.now interrupted.0 compared.0) } }
        ensures open_yet { 0 < cost (effect_of (begun caller.0 request.now interrupted.0 compared.0) self.old.state) self.old.state }
        ensures valid { IsLinked self.new.state }
    {
        if is_tick(request.service) {
            self.begin_tick(caller, request, interrupted, compared);
            return;
        }
        self.seen.around = self.around(caller, request);
        let decision = self.records.decide(request, &self.seen.around);
        let bits = planned_bits(&self.records, request, decision);
        let pend = self.steps.chains().pend();
        plan_call(
            &mut self.plan,
            pend,
            &self.seen.around,
            request,
            compared,
            decision,
        );
        self.plan.bits = bits;
        plan_move(
            &mut self.plan.known,
            &self.records,
            request,
            caller,
            compared,
            &decision,
        );
        self.work.begin(caller, request, interrupted, compared);
        self.steps.take(Link::Plain);
        self.busy = true;
    }

    // Begins OSTimeTick, which is never refused.
    fn begin_tick(&mut self, caller: TaskId, request: &Request, interrupted: Prio, compared: Prio)
        requires task { caller.0 < 64 }
        requires tick { is_tick request.now.service ≡ true }
        requires may { MayBegin caller.0 request.now self.old.state }
        requires room { HasRoom self.old.state }
        requires free { self.old.hand ≡ None }
        ensures begun { self.new ≡ record self.old { hand = Some (begun caller.0 request.now interrupted.0 compared.0) } }
        ensures open_yet { 0 < cost (effect_of (begun caller.0 request.now interrupted.0 compared.0) self.old.state) self.old.state }
        ensures valid { IsLinked self.new.state }
    {
        let ready = self.steps.chains().ready();
        self.seen.turn = plan_tick(&mut self.plan, &self.records, ready, interrupted, compared);
        self.work.begin(caller, request, interrupted, compared);
        self.steps.take(Link::Plain);
        self.busy = true;
    }

    /// Begins a take: the handler performs a post that was queued. `saved` is the priority that was saved with the post,
    /// `compared` the one that readied tasks are compared with.
    pub fn begin_take(&mut self, post: Post, saved: Prio, compared: Prio)
        requires free { self.old.hand ≡ None }
        requires room { post.service ≡ TimeTick → HasRoom self.old.state }
        ensures begun { self.new ≡ record self.old { hand = Some (begun 63 (post_request post.service post.args) saved.0 compared.0) } }
        ensures open_yet { 0 < cost (effect_of (begun 63 (post_request post.service post.args) saved.0 compared.0) self.old.state) self.old.state }
        ensures valid { IsLinked self.new.state }
    {
        self.begin(HANDLER, &request_of(post), saved, compared);
    }

    /// Begins a unit of work of the tick task or the timer task.
    pub fn begin_unit(&mut self, task: TaskId)
        requires may { MayRunUnit task.0 self.old.state }
        requires free { self.old.hand ≡ None }
        ensures begun { self.new ≡ record self.old { hand = Some (unit_begun task.0) } }
        ensures open_yet { 0 < cost (effect_of (unit_begun task.0) self.old.state) self.old.state }
        ensures valid { IsLinked self.new.state }
    {
        plan_unit(&mut self.plan, &self.records, task);
        self.work.begin_unit(task);
        self.steps.take(Link::Plain);
        self.busy = true;
    }

    // What stands around what a call is about when it is decided.
    fn around(&self, caller: TaskId, request: &Request) -> Around
        requires caller { caller.0 < 64 }
        requires free { self.now.hand ≡ None }
        ensures around { IsAround result (waiters_of request.now caller.0 self.now.state) self.now.state }
        ensures caller { result.caller ≡ caller }
    {
        Around {
            caller,
            locked: self.records.lock() > 0,
            first: self.first_waiter(caller, request),
            prio: self.records.tcb(caller).prio,
        }
    }

    // The first of those that wait for what a call is about.
    fn first_waiter(&self, caller: TaskId, request: &Request) -> Option<TaskId>
        requires caller { caller.0 < 64 }
        requires free { self.now.hand ≡ None }
        ensures { result ≡ first_waiter (waiters_of request.now caller.0 self.now.state) }
    {
        if matches!(request.service, Service::RoundRobinYield) {
            self.next_in_turn(caller)
        } else if is_scheduler_call(request.service) {
            self.records.delayed_task(request, caller)
        } else if is_task_call(request.service) {
            self.records.own_waiter(request, caller)
        } else {
            first_waiter(self.steps.chains().pend(), request.args[0])
        }
    }

    // The one whose turn comes once the caller has yielded: the first of its ready list but itself, where it is not alone there.
    fn next_in_turn(&self, caller: TaskId) -> Option<TaskId>
        requires caller { caller.0 < 64 }
        requires free { self.now.hand ≡ None }
        ensures { result ≡ first_waiter (turn_waiters caller.0 (list_at self.now.state.ready (prio_of self.now.state caller.0))) }
    {
        let prio = self.records.tcb(caller).prio;
        let front = front_of(self.steps.chains().ready(), prio);
        turn_behind(&front, caller)
    }

    /// One micro-step of the step in hand. The last one makes the whole change.
    pub fn advance(&mut self) -> Progress
        requires busy { (w : WorkRecord) × (self.old.hand ≡ Some w) }

        // Micro-steps are left: nothing but the lists has changed.
        ensures more { (w : WorkRecord) → self.old.hand ≡ Some w → w.done + 1 < cost (effect_of w self.old.state) self.old.state
            → (result ≡ Progress.More) × (self.new ≡ record self.old { hand = Some (stepped w) }) }

        // The last one.
        ensures done { (w : WorkRecord) → self.old.hand ≡ Some w → w.done + 1 ≡ cost (effect_of w self.old.state) self.old.state
            → (result ≡ Progress.Done (effect_of w self.old.state).outcome) × (self.new ≡ ended self.old w) }
        ensures open_yet { IsOpen self.old.hand self.old.state }
        ensures valid { IsLinked self.new.state }
    {
        let mut outcome = Outcome::Waits;
        if self.advance_into(&mut outcome) {
            Progress::Done(outcome)
        } else {
            Progress::More
        }
    }

    /// One micro-step of the step in hand. True where it was the last one, which makes the whole change; what the step came to is
    /// then written over an older outcome, whatever that was.
    pub fn advance_into(&mut self, outcome: &mut Outcome) -> bool
        requires busy { (w : WorkRecord) × (self.old.hand ≡ Some w) }

        // Micro-steps are left: nothing but the lists has changed.
        ensures more { (w : WorkRecord) → self.old.hand ≡ Some w → w.done + 1 < cost (effect_of w self.old.state) self.old.state
            → (result ≡ false) × (self.new ≡ record self.old { hand = Some (stepped w) }) }

        // The last one.
        ensures done { (w : WorkRecord) → self.old.hand ≡ Some w → w.done + 1 ≡ cost (effect_of w self.old.state) self.old.state
            → (result ≡ true) × (outcome.new ≡ (effect_of w self.old.state).outcome) × (self.new ≡ ended self.old w) }
        ensures open_yet { IsOpen self.old.hand self.old.state }
        ensures valid { IsLinked self.new.state }
    {
        self.work.count();
        if !self.steps.step() {
            return false;
        }
        match self.plan.next_link(self.records.tasks()) {
            Some(link) => {
                self.steps.take(link);
                false
            }
            None => {
                conclude(
                    &mut self.records,
                    &self.work,
                    &self.plan,
                    &self.seen,
                    outcome,
                );
                self.steps.close();
                self.busy = false;
                true
            }
        }
    }

    /// A post of interrupt code, at once and whole. `compared` is the priority whose list round robin looks at, and the one that
    /// readied tasks are compared with.
    pub fn post_now(&mut self, post: Post, compared: Prio) -> Answer
        requires free { self.old.hand ≡ None }
        requires room { post.service ≡ TimeTick → HasRoom self.old.state }
        ensures answer { (posted program_serves post.service post.args compared.0 compared.0 self.old.state).outcome ≡ Answered result None }
        ensures kernel { self.new ≡ with_state self.old (posted program_serves post.service post.args compared.0 compared.0 self.old.state).kernel }
        ensures valid { IsLinked self.new.state }
    {
        self.begin_take(post, compared, compared);
        let mut outcome = Outcome::Waits;
        while !self.advance_into(&mut outcome) {}
        answer_of(&outcome)
    }
}
