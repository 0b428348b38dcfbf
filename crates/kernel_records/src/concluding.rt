// What was decided of a call is made.

ghost use Rattle.std.specs.Prelude.{◌≡◌, ◌≢◌, ◌<◌, ◌≤◌, ◌++◌, ℕ, All, false, length, slice_index, slice_set, true};
ghost use Rattle.kern_base.specs.declared.services.Service.TheVariants.{SchedLock};
ghost use Rattle.kern_base.specs.declared.outcomes.Decision.TheVariants.{Block, Wake};
ghost use Rattle.kern_model.specs.State.{nesting_limit, object_at, task_at};
ghost use Rattle.kern_model.specs.Effect.{new_match, result_of, unmatched};
ghost use Rattle.kern_model.specs.Services.{content_for};
ghost use Rattle.kern_model.specs.Waiters.{messages_in, without_object};
ghost use Rattle.decisions.specs.Decided.{bits_in, ending_of, replied, wait_objects};
ghost use Rattle.message_store.specs.Store.{queue_at};
ghost use Rattle.kernel_records.specs.ObjectView.{content_seen};
ghost use Rattle.tick_timers.specs.Matches.{IsUnmatched};
ghost use Rattle.kernel_records.specs.Served.{IsSingle, is_served_wait};
ghost use Rattle.kernel_records.specs.SchedulerCalls.{is_scheduler_call, lock_after};
ghost use Rattle.kernel_records.specs.TimerCalls.{is_timer_call};
ghost use Rattle.kernel_records.specs.Deciding.{IsCallOn, IsServedDecision, acts, changed_by, content_after, decision_by, decision_of, free_after, object_change, own_change};
ghost use Rattle.kernel_records.specs.Concluding.{AreSingle, answer_of, awakened_all, awakens, concluded, given, looked_at, is_deletion, looked_at_all, objects_waited, outcome_after, outcome_of, records_after, waiting_in};

use crate::changes::{answer_task, wait_for};
use crate::objects::Content;
use crate::records::Records;
use crate::scheduler_calls::is_scheduler_call;
use crate::suspension::moves_task;
use crate::task_calls::{is_task_call, target};
use crate::timer_calls::is_timer_call;
use decisions::{ended_delay, handed, reply, success};
use event_flags::FlagGroup;
use kern_base::{Answer, Around, Decision, ObjId, OsErr, Outcome, Request, Service, TaskId, Who};
use message_store::MessageStore;
use tick_timers::Ticks;

impl Records {
    /// Makes what was decided of a call: a task is suspended or resumed, or another one has its turn; or what the call is about
    /// changes, tasks are woken in this order, or looked at by a post of event flags, or the caller waits. What the call came to
    /// is written over an older outcome, whatever that was.
    pub fn conclude(
        &mut self,
        request: &Request,
        seen: &Around,
        decision: &Decision,
        woken: &[u8],
        outcome: &mut Outcome,
    )
        requires caller { seen.now.caller.0 < 64 }
        requires decided { decision.now ≡ decision_of request.now seen.now self.old.state }
        requires served { IsServedDecision decision.now request.now.service }
        requires nesting { (x : ℕ) → (task_at self.old.state x).suspended ≤ nesting_limit }
        requires woken { All (λ x. x < 64) woken.now }
        requires few { length woken.now ≤ 64 }
        requires single { AreSingle self.old.state }
        requires fresh { decision.now ≡ Block → IsUnmatched seen.now.caller.0 self.old.state.matches }
        requires objects { All (λ o. o < 64) (objects_waited decision.now request.now) }
        ensures records { self.new ≡ record self.old { state = records_after decision.now request.now seen.now.caller.0 seen.now.first woken.now self.old.state } }
        ensures outcome { outcome.new ≡ outcome_after decision.now request.now seen.now.caller.0 woken.now self.old.state }
    {
        if moves_task(request.service, decision) {
            *outcome = self.move_task(request, seen, decision);
        } else {
            self.conclude_decided(request, seen, decision, woken, outcome);
        }
    }

    // The same of a call that moves no task in the ready lists.
    fn conclude_decided(
        &mut self,
        request: &Request,
        seen: &Around,
        decision: &Decision,
        woken: &[u8],
        outcome: &mut Outcome,
    )
        requires caller { seen.now.caller.0 < 64 }
        requires decided { decision.now ≡ decision_of request.now seen.now self.old.state }
        requires served { IsServedDecision decision.now request.now.service }
        requires woken { All (λ x. x < 64) woken.now }
        requires few { length woken.now ≤ 64 }
        requires single { AreSingle self.old.state }
        requires fresh { decision.now ≡ Block → IsUnmatched seen.now.caller.0 self.old.state.matches }
        requires objects { All (λ o. o < 64) (objects_waited decision.now request.now) }
        ensures records { self.new ≡ record self.old { state = concluded decision.now request.now seen.now.caller.0 woken.now self.old.state } }
        ensures outcome { outcome.new ≡ outcome_of decision.now request.now woken.now (own_change request.now seen.now.caller.0 decision.now self.old.state) }
    {
        match decision {
            Decision::Done(answer) => {
                if answer.err == OsErr::NoError || is_scheduler_call(request.service) {
                    self.apply(request, seen, decision);
                }
                *outcome = Outcome::Answered(*answer, None);
            }
            Decision::Block => {
                self.wait(seen.caller, request);
                *outcome = Outcome::Waits;
            }
            Decision::Wake(who) => {
                self.apply(request, seen, decision);
                let answer = self.wake_some(request, *who, woken);
                if is_deletion(request.service) {
                    self.delete_object(request);
                }
                *outcome = Outcome::Answered(answer, None);
            }
        }
    }

    // The change of what a call is about: the scheduler, or where the call is not refused a timer, the own semaphore or queue of
    // a task, or another object that it names.
    fn apply(&mut self, request: &Request, seen: &Around, decision: &Decision)
        requires caller { seen.now.caller.0 < 64 }
        requires decided { decision.now ≡ decision_of request.now seen.now self.old.state }
        requires acts { is_scheduler_call request.now.service ≡ false → acts decision.now ≡ true }
        ensures { self.new ≡ record self.old { state = own_change request.now seen.now.caller.0 decision.now self.old.state } }
    {
        if is_scheduler_call(request.service) {
            self.change_lock(request.service, decision);
        } else if is_timer_call(request.service) {
            self.apply_to_timer(request);
        } else {
            self.apply_to_objects(request, seen, decision);
        }
    }

    // The scheduler is locked once more, or once less.
    fn change_lock(&mut self, service: Service, decision: &Decision)
        requires { service ≡ SchedLock → acts decision.now ≡ true → self.old.state.lock ≢ nesting_limit }
        ensures { self.new ≡ record self.old { state = record self.old.state { lock = lock_after service decision.now self.old.state.lock } } }
    {
        let Decision::Done(answer) = decision else {
            return;
        };
        match service {
            Service::SchedLock if answer.err == OsErr::NoError => self.lock += 1,
            Service::SchedUnlock if answer.err == OsErr::NoError || answer.value != 0 => {
                self.lock = self.lock.saturating_sub(1);
            }
            _ => {}
        }
    }

    // The change of a task's own semaphore or queue, or of the object that a call names, where it is no timer.
    fn apply_to_objects(&mut self, request: &Request, seen: &Around, decision: &Decision)
        requires caller { seen.now.caller.0 < 64 }
        requires decided { decision.now ≡ decision_of request.now seen.now self.old.state }
        requires call { is_scheduler_call request.now.service ≡ false }
        requires held { is_timer_call request.now.service ≡ false }
        requires acts { acts decision.now ≡ true }
        ensures { self.new ≡ record self.old { state = changed_by request.now seen.now.caller.0 decision.now self.old.state } }
    {
        if is_task_call(request.service) {
            self.messages
                .apply_own(target(request, seen.caller), request, seen, decision);
        } else {
            self.apply_to_object(request, seen, decision);
        }
    }

    // The change of the object that a call names.
    fn apply_to_object(&mut self, request: &Request, seen: &Around, decision: &Decision)
        requires object { slice_index request.now.args 0 < length self.old.state.objects }
        requires call { IsCallOn (content_for request.now self.old.state) request.now }
        requires decided { decision.now ≡ decision_by (content_for request.now self.old.state) self.old.state.free request.now seen.now }
        ensures { self.new ≡ record self.old { state = object_change request.now decision.now self.old.state } }
    {
        let number = request.args[0] as usize;
        let object = &mut self.objects[number];
        apply_to(
            &mut object.content,
            &mut self.messages,
            ObjId(number as u8),
            request,
            seen,
            decision,
        );
    }

    // The object that a call names is deleted. Its messages are free already.
    fn delete_object(&mut self, request: &Request)
        requires object { slice_index request.now.args 0 < length self.old.state.objects }
        requires empty { messages_in (object_at self.old.state (slice_index request.now.args 0)).content ≡ 0 }
        ensures { self.new ≡ record self.old { state = without_object (slice_index request.now.args 0) self.old.state } }
    {
        let object = &mut self.objects[request.args[0] as usize];
        object.deleted = true;
    }

    // The caller waits from now on, and where its timeout is not 0 it gets a match.
    fn wait(&mut self, caller: TaskId, request: &Request)
        requires caller { caller.0 < 64 }
        requires service { is_served_wait request.now.service ≡ true }
        requires objects { All (λ o. o < 64) (wait_objects request.now.service request.now) }
        requires fresh { IsUnmatched caller.0 self.old.state.matches }
        ensures { self.new ≡ record self.old { state = waiting_in request.now caller.0 self.old.state } }
    {
        let timeout = wait_for(&mut self.tasks, caller, request, &self.ticks);
        add_match(&mut self.ticks, caller, timeout);
    }

    // Wakes these tasks, or looks at them for a post of event flags. Gives the answer of the call.
    fn wake_some(&mut self, request: &Request, who: Who, woken: &[u8]) -> Answer
        requires service { IsServedDecision (Wake who) request.now.service }
        requires woken { All (λ x. x < 64) woken.now }
        requires few { length woken.now ≤ 64 }
        requires single { AreSingle self.old.state }
        ensures records { self.new ≡ record self.old { state = awakens who request.now woken.now self.old.state } }
        ensures answer { result ≡ answer_of who request.now woken.now self.old.state }
    {
        match who {
            Who::Matching => {
                let bits = self.bits_of(request.args[0]);
                self.look_at_all(bits, woken);
                success(bits)
            }
            _ => {
                let answer = self.reply(request.service, woken);
                self.wake_all(request, woken);
                answer
            }
        }
    }

    // The answer of the call that wakes these.
    fn reply(&self, service: Service, woken: &[u8]) -> Answer
        requires woken { All (λ x. x < 64) woken.now }
        requires few { length woken.now ≤ 64 }
        ensures { result ≡ replied service woken.now self.now.state }
    {
        match (service, woken.first()) {
            (Service::TimeDlyResume, Some(task)) => ended_delay(
                self.tasks.get(TaskId(*task)).suspended,
            ),
            _ => reply(service, woken.len() as u32),
        }
    }

    // The bits of the event flag group of this number; 0 where there is none.
    fn bits_of(&self, number: u32) -> u32
        ensures { result ≡ bits_in (object_at self.now.state number).content }
    {
        match self.objects.get(number as usize) {
            Some(object) => object.content.bits(),
            None => 0,
        }
    }

    // Tasks wait no more, in this order, and the result of the call waits for each.
    fn wake_all(&mut self, request: &Request, woken: &[u8])
        requires woken { All (λ x. x < 64) woken.now }
        requires single { AreSingle self.old.state }
        ensures { self.new ≡ record self.old { state = awakened_all request.now woken.now self.old.state } }
    {
        let answer = handed(request);
        for task in woken {
            self.give(TaskId(*task), answer);
        }
    }

    // Each waiter for event flags is looked at, in this order: it waits no more where it has ready bits, and these wait for it.
    fn look_at_all(&mut self, bits: u32, woken: &[u8])
        requires woken { All (λ x. x < 64) woken.now }
        requires single { AreSingle self.old.state }
        ensures { self.new ≡ record self.old { state = looked_at_all bits woken.now self.old.state } }
    {
        for task in woken {
            self.look_at(bits, TaskId(*task));
        }
    }

    fn look_at(&mut self, bits: u32, task: TaskId)
        requires task { task.0 < 64 }
        requires single { IsSingle (task_at self.old.state task.0).waiting }
        ensures { self.new ≡ record self.old { state = looked_at bits task.0 self.old.state } }
    {
        let tcb = self.tasks.get(task);
        if let Some(ready) = FlagGroup::ready_bits(bits, tcb.mask, tcb.opt) {
            self.give(task, success(ready));
        }
    }

    // The task waits no more, and a result with this answer waits for it.
    pub(crate) fn give(&mut self, task: TaskId, answer: Answer)
        requires task { task.0 < 64 }
        requires single { IsSingle (task_at self.old.state task.0).waiting }
        ensures { self.new ≡ record self.old { state = given task.0 (result_of answer) self.old.state } }
    {
        answer_task(&mut self.tasks, task, answer);
        self.ticks.remove(task);
    }
}

// Whether a call of this service deletes an object.
fn is_deletion(service: Service) -> bool
    ensures { result ≡ is_deletion (ending_of service) }
{
    matches!(
        service,
        Service::SemDel | Service::QDel | Service::FlagDel | Service::MutexDel
    )
}

// The change of an object by a call on it. The messages of a queue stand in the store.
fn apply_to(
    content: &mut Content,
    messages: &mut MessageStore,
    object: ObjId,
    request: &Request,
    seen: &Around,
    decision: &Decision,
)
    requires number { object.0 < length messages.old.queues }
    requires call { IsCallOn (content_seen (queue_at messages.old object.0) content.old) request.now }
    requires decided { decision.now ≡ decision_by (content_seen (queue_at messages.old object.0) content.old) messages.old.free request.now seen.now }
    ensures content { content_seen (queue_at messages.new object.0) content.new ≡ content_after request.now decision.now (content_seen (queue_at messages.old object.0) content.old) }
    ensures messages { messages.new ≡ record messages.old { queues = slice_set messages.old.queues object.0 (queue_at messages.new object.0); free = free_after request.now decision.now (content_seen (queue_at messages.old object.0) content.old) messages.old.free } }
{
    match content {
        Content::Semaphore(sem) => sem.apply(request, seen, decision),
        Content::Messages => messages.apply(object, request, seen, decision),
        Content::Flags(group) => group.apply(request, seen, decision),
        _ => {}
    }
}

// Where the timeout is not 0, the task gets a match.
fn add_match(ticks: &mut Ticks, task: TaskId, timeout: u32)
    requires task { task.0 < 64 }
    requires fresh { IsUnmatched task.0 ticks.old.matches }
    ensures { ticks.new ≡ record ticks.old { matches = ticks.old.matches ++ new_match task.0 timeout ticks.old.ticks } }
{
    if timeout != 0 {
        ticks.add(task, ticks.now().wrapping_add(timeout));
    }
}
