// Calls on timers, and the timers that fire.

ghost use Rattle.std.specs.Prelude.{◌≡◌, ◌<◌, length, slice_index, true};
ghost use Rattle.kern_model.specs.State.{object_at};
ghost use Rattle.kern_model.specs.Services.{content_for};
ghost use Rattle.kern_model.specs.Timers.{fired};
ghost use Rattle.message_store.specs.Store.{HeldQueue};
ghost use Rattle.kernel_records.specs.ObjectView.{content_seen, object_seen};
ghost use Rattle.kernel_records.specs.TimerCalls.{callback_after, changed_timer, counted_in, deleted_after, fired_object, is_timer_call, matches_changed, matches_firing, timer_change, timer_decision};

use crate::objects::{Content, Object};
use crate::records::Records;
use decisions::refuse;
use kern_base::{Decision, ObjId, OsErr, Request, Service};
use tick_timers::Timers;

/// Whether a call of this service is on a timer.
pub fn is_timer_call(service: Service) -> bool
    ensures { result ≡ is_timer_call service }
{
    matches!(
        service,
        Service::TmrStart
            | Service::TmrStop
            | Service::TmrRemainGet
            | Service::TmrStateGet
            | Service::TmrDel
    )
}

// The decision on a call on an object that holds this.
fn decide_by(content: &Content, timers: &Timers, obj: ObjId, service: Service) -> Decision
    requires number { obj.0 < 64 }
    requires call { is_timer_call service ≡ true }
    ensures { (q : HeldQueue) → result ≡ timer_decision service (content_seen q content.now) obj.0 timers.now }
{
    match content {
        Content::Timed(timer) => timers.decide(obj, timer, service),
        _ => refuse(OsErr::ObjectType),
    }
}

// Whether an object is deleted after a call on it, where it was so before.
fn deleted_after(service: Service, deleted: bool) -> bool
    ensures { result ≡ deleted_after service deleted }
{
    deleted || matches!(service, Service::TmrDel)
}

// The change of an object, and of its match, by a call on it that is not refused.
fn apply_to(object: &mut Object, timers: &mut Timers, obj: ObjId, service: Service)
    requires { obj.0 < 64 }
    ensures object { (q : HeldQueue) → object_seen q object.new ≡ changed_timer service (content_seen q object.old.content) (object_seen q object.old) }
    ensures matches { (q : HeldQueue) → timers.new ≡ record timers.old { matches = matches_changed service (content_seen q object.old.content) obj.0 timers.old } }
{
    let Content::Timed(timer) = &mut object.content else {
        return;
    };
    timers.apply(obj, timer, service);
    object.deleted = deleted_after(service, object.deleted);
}

// An object fires: a timer alone does. Tells whether a callback runs then.
fn fire_in(object: &mut Object, timers: &mut Timers, obj: ObjId, in_callback: bool) -> bool
    requires { obj.0 < 64 }
    ensures object { (q : HeldQueue) → object_seen q object.new ≡ fired_object (content_seen q object.old.content) (object_seen q object.old) }
    ensures matches { (q : HeldQueue) → timers.new ≡ record timers.old { matches = matches_firing (content_seen q object.old.content) obj.0 timers.old } }
    ensures callback { (q : HeldQueue) → result ≡ callback_after (content_seen q object.old.content) in_callback }
{
    let Content::Timed(timer) = &mut object.content else {
        return in_callback;
    };
    timers.fire(obj, timer);
    timer.callback.is_some()
}

impl Records {
    // The decision of the timer that a call names.
    pub(crate) fn decide_on_timer(&self, request: &Request) -> Decision
        requires call { is_timer_call request.now.service ≡ true }
        requires object { slice_index request.now.args 0 < length self.now.state.objects }
        ensures { result ≡ timer_decision request.now.service (content_for request.now self.now.state) (slice_index request.now.args 0) (counted_in self.now.state) }
    {
        let number = request.args[0];
        let object = &self.objects[number as usize];
        decide_by(
            &object.content,
            &self.timers,
            ObjId(number as u8),
            request.service,
        )
    }

    // The change of the timer that a call names, and of its match.
    pub(crate) fn apply_to_timer(&mut self, request: &Request)
        requires object { slice_index request.now.args 0 < length self.old.state.objects }
        ensures { self.new ≡ record self.old { state = timer_change request.now.service (slice_index request.now.args 0) (content_for request.now self.old.state) self.old.state } }
    {
        let number = request.args[0] as usize;
        let object = &mut self.objects[number];
        apply_to(
            object,
            &mut self.timers,
            ObjId(number as u8),
            request.service,
        );
    }

    // The timer of an object fires.
    pub(crate) fn fire_timer(&mut self, obj: ObjId)
        requires { obj.0 < 64 }
        ensures { self.new ≡ record self.old { state = fired obj.0 (object_at self.old.state obj.0).content self.old.state } }
    {
        let number = obj.0 as usize;
        if number >= self.objects.len() {
            return;
        }
        let object = &mut self.objects[number];
        self.in_callback = fire_in(object, &mut self.timers, obj, self.in_callback);
    }
}
