// What is decided of a call.

ghost use Rattle.std.specs.Prelude.{◌≡◌, ◌<◌, ℕ, true, false, None, length};
ghost use Rattle.kern_base.specs.declared.services.Service.TheVariants.{FlagPost};
ghost use Rattle.kern_base.specs.declared.outcomes.Decision.TheVariants.{Wake};
ghost use Rattle.kern_base.specs.declared.outcomes.Who.TheVariants.{Matching};
ghost use Rattle.kern_model.specs.State.{object_at, task_at};
ghost use Rattle.kern_model.specs.Checks.{call_error};
ghost use Rattle.kern_model.specs.Services.{content_for};
ghost use Rattle.served.specs.Served.{program_serves};
ghost use Rattle.task_objects.specs.Rows.{is_task_call, target};
ghost use Rattle.kernel_records.specs.Concluding.{bits_left};
ghost use Rattle.kernel_records.specs.Served.{serves_object};
ghost use Rattle.kernel_records.specs.SchedulerCalls.{is_scheduler_call, is_tick};
ghost use Rattle.kernel_records.specs.Deciding.{IsCallOn, IsObjectRow, IsRow, IsServedDecision, decision_about, decision_by, decision_of, decision_on_objects};
ghost use Rattle.kernel_records.specs.ObjectView.{content_seen};
ghost use Rattle.message_store.specs.Store.{queue_at};

use crate::objects::Content;
use crate::records::Records;
use crate::scheduler_calls::is_scheduler_call;
use crate::task_calls::{is_task_call, target};
use crate::timer_calls::is_timer_call;
use call_checks::{argument_refusal, existence_refusal, named_task};
use decisions::refuse;
use kern_base::{Around, Decision, ObjId, OsErr, Request, TaskId};
use message_store::MessageStore;
use served::is_served;

// Application tasks have the numbers below this.
const APPLICATION_LIMIT: u8 = 60;

// There are so many tasks.
const TASKS: u32 = 64;

impl Records {
    /// What a call other than `OSTimeTick` comes to, with this around what it is about. Nothing changes yet.
    pub fn decide(&self, request: &Request, seen: &Around) -> Decision
        requires caller { seen.now.caller.0 < 64 }
        requires call { is_tick request.now.service ≡ false }
        ensures value { result ≡ decision_of request.now seen.now self.now.state }

        // It is what the service does, whatever the lists are.
        ensures row { IsRow request.now seen.now result self.now.state }
        ensures served { IsServedDecision result request.now.service }
    {
        if !is_served(request.service) {
            return refuse(OsErr::CallUnknown);
        }
        match self.refusal(request, seen.caller) {
            Some(err) => refuse(err),
            None => self.decide_checked(request, seen),
        }
    }

    /// The bits that a post of event flags leaves in the group that it names; 0 where it names none.
    pub fn bits_left(&self, request: &Request) -> u32
        requires { request.now.service ≡ FlagPost }
        ensures { (x : ℕ) → result ≡ bits_left request.now x (Wake Matching) self.now.state }
    {
        match self.objects.get(request.args[0] as usize) {
            Some(object) => object.content.bits_left(request),
            None => 0,
        }
    }

    // The first check that a call fails of a service that is served.
    fn refusal(&self, request: &Request, caller: TaskId) -> Option<OsErr>
        requires { program_serves request.now.service ≡ true }
        ensures { result ≡ call_error request.now caller.0 self.now.state }
    {
        let own = caller.0 < APPLICATION_LIMIT;
        let number = request.args[0];
        match argument_refusal(request.service, &request.args, &self.kinds, own) {
            Some(err) => Some(err),
            None => existence_refusal(
                request.service,
                self.is_deleted(number),
                self.is_alive(named_task(number, caller)),
            ),
        }
    }

    // Whether the object of this number was deleted, or there is none.
    fn is_deleted(&self, number: u32) -> bool
        ensures { result ≡ (object_at self.now.state number).deleted }
    {
        match self.objects.get(number as usize) {
            Some(object) => object.deleted,
            None => true,
        }
    }

    // Whether there is a task of this number, and it lives.
    fn is_alive(&self, number: u32) -> bool
        ensures { result ≡ (task_at self.now.state number).alive }
    {
        number < TASKS && self.tasks.get(TaskId(number as u8)).alive
    }

    // The decision of what a call is about, whose checks have passed.
    fn decide_checked(&self, request: &Request, seen: &Around) -> Decision
        requires caller { seen.now.caller.0 < 64 }
        requires served { program_serves request.now.service ≡ true }
        requires call { is_tick request.now.service ≡ false }
        requires passed { call_error request.now seen.now.caller.0 self.now.state ≡ None }
        ensures value { result ≡ decision_about request.now seen.now self.now.state }
        ensures row { IsRow request.now seen.now result self.now.state }
        ensures served { IsServedDecision result request.now.service }
    {
        if is_scheduler_call(request.service) {
            self.decide_on_scheduler(request, seen)
        } else if is_timer_call(request.service) {
            self.decide_on_timer(request)
        } else {
            self.decide_on_objects(request, seen)
        }
    }

    // The decision of a task's own semaphore or queue, or of an object.
    fn decide_on_objects(&self, request: &Request, seen: &Around) -> Decision
        requires caller { seen.now.caller.0 < 64 }
        requires served { serves_object request.now.service ≡ true }
        requires passed { call_error request.now seen.now.caller.0 self.now.state ≡ None }
        ensures value { result ≡ decision_on_objects request.now seen.now self.now.state }
        ensures row { IsRow request.now seen.now result self.now.state }
        ensures served { IsServedDecision result request.now.service }
    {
        if is_task_call(request.service) {
            self.messages
                .decide_own(target(request, seen.caller), request, seen)
        } else {
            self.decide_on_object(request, seen)
        }
    }

    // The decision of the object that a call names.
    fn decide_on_object(&self, request: &Request, seen: &Around) -> Decision
        requires served { serves_object request.now.service ≡ true }
        requires object { is_task_call request.now.service ≡ false }
        requires passed { call_error request.now seen.now.caller.0 self.now.state ≡ None }
        ensures value { result ≡ decision_by (content_for request.now self.now.state) self.now.state.free request.now seen.now }
        ensures row { IsRow request.now seen.now result self.now.state }
        ensures served { IsServedDecision result request.now.service }
    {
        let number = request.args[0];
        let object = &self.objects[number as usize];
        decide_by(
            &object.content,
            &self.messages,
            ObjId(number as u8),
            request,
            seen,
        )
    }
}

// The decision of an object on a call on it. The messages of a queue stand in the store.
fn decide_by(
    content: &Content,
    messages: &MessageStore,
    object: ObjId,
    request: &Request,
    seen: &Around,
) -> Decision
    requires number { object.0 < length messages.now.queues }
    requires call { IsCallOn (content_seen (queue_at messages.now object.0) content.now) request.now }
    ensures value { result ≡ decision_by (content_seen (queue_at messages.now object.0) content.now) messages.now.free request.now seen.now }
    ensures row { IsObjectRow request.now seen.now result (content_seen (queue_at messages.now object.0) content.now) messages.now.free }
{
    match content {
        Content::Semaphore(sem) => sem.decide(request, seen),
        Content::Messages => messages.decide(object, request, seen),
        Content::Flags(group) => group.decide(request, seen),
        _ => unreachable!(),
    }
}
