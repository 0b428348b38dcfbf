// Why a call is refused before the kernel looks at its state.

ghost use Rattle.std.specs.Prelude.{◌≡◌, [], ◌∷◌, List, ℕ, if◌then◌else◌, not, slice_get, slice_index};
ghost use Rattle.kern_base.specs.Checks.{static_error, target_error, task_error, object_error};
ghost use Rattle.kern_base.specs.declared.kinds.Kind.TheVariants.{Sem, Queue, OneShot, Periodic};
ghost use Rattle.kern_base.specs.declared.errors.OsErr.TheVariants.{ObjectType};
ghost use Rattle.kern_model.specs.State.{count_of, is_zero};
ghost use Rattle.kern_model.specs.Several.{repeats, kinds_error};
ghost use Rattle.call_checks.specs.Rules.{kinds_named, task_named};
ghost use Rattle.call_checks.specs.Refusals.{moment_error, table_error, refusal_of, AreChecked};

use crate::rules::{Target, interrupt_error, is_post, options_of, target_of};
use kern_base::{Kind, Kinds, OsErr, Request, Service};

// The number by which an application task names itself.
const CALLER: u32 = u32::MAX;

// A table has so many entries at most.
const MOST_ENTRIES: u8 = 8;

/// At what moment a call is made.
#[derive(Clone, Copy, Debug, PartialEq, Eq)]
pub enum Moment {
    /// An application task calls.
    Application,
    /// The timer task calls in a callback, or the handler of deferred posts makes a post.
    Internal,
    /// Interrupt code calls.
    Interrupt,
}

/// The error of the first check that a call fails, and None where it passes all that look at no more
/// than the call, the moment and what the application declares. `served` says whether the service is.
pub fn call_refusal(request: &Request, moment: Moment, kinds: &Kinds, served: bool) -> Option<OsErr>
    ensures value { result ≡ refusal_of served moment request.now kinds.now }

    // It is what the service does, in every kernel with these declarations.
    ensures row { AreChecked result served moment request.now kinds.now }
{
    if !served {
        return Some(OsErr::CallUnknown);
    }
    if let Some(err) = moment_refusal(moment, request.service) {
        return Some(err);
    }
    let own = moment == Moment::Application;
    if let Some(err) = argument_refusal(request.service, &request.args, kinds, own) {
        return Some(err);
    }
    match request.service {
        Service::PendMulti => table_refusal(request, kinds),
        _ => None,
    }
}

/// Why a call of this service is refused at this moment: interrupt code may use the six posts alone.
pub fn moment_refusal(moment: Moment, service: Service) -> Option<OsErr>
    ensures { result ≡ moment_error moment service }
{
    match moment {
        Moment::Interrupt if !is_post(service) => Some(interrupt_error(service)),
        _ => None,
    }
}

/// The error of the option, the object or the task of a call, the first that is at fault. `own` says
/// whether the number that names the caller may stand for a task.
pub fn argument_refusal(
    service: Service,
    args: &[u32; 4],
    kinds: &Kinds,
    own: bool,
) -> Option<OsErr>
    ensures { result ≡ static_error service args.now kinds.now own }
{
    if options_of(service).allow(args) {
        target_of(service).refusal(args[0], kinds, own)
    } else {
        Some(OsErr::OptionInvalid)
    }
}

impl Target {
    // The error of a number that does not name what it should.
    fn refusal(self, number: u32, kinds: &Kinds, own: bool) -> Option<OsErr>
        ensures { (args : List ℕ) → slice_index args 0 ≡ number → result ≡ target_error (kinds_named self) (task_named self) args kinds.now own }
    {
        match self {
            Target::Nothing => None,
            Target::Object(kind) => object_refusal(number, kind, kinds),
            Target::Timer => timer_refusal(number, kinds),
            Target::Task => task_refusal(number, kinds, own),
        }
    }
}

// The error of the number of an object that should be of this kind.
fn object_refusal(number: u32, wanted: Kind, kinds: &Kinds) -> Option<OsErr>
    ensures { result ≡ object_error (wanted ∷ []) (slice_get kinds.now.objects number) }
{
    match kinds.object(number) {
        Some(kind) if kind == wanted => None,
        _ => Some(OsErr::ObjectType),
    }
}

// The error of the number of an object that should be a timer.
fn timer_refusal(number: u32, kinds: &Kinds) -> Option<OsErr>
    ensures { result ≡ object_error (OneShot ∷ Periodic ∷ []) (slice_get kinds.now.objects number) }
{
    match kinds.object(number) {
        Some(Kind::OneShot | Kind::Periodic) => None,
        _ => Some(OsErr::ObjectType),
    }
}

// The error of the number of a task.
fn task_refusal(number: u32, kinds: &Kinds, own: bool) -> Option<OsErr>
    ensures { result ≡ task_error number kinds.now.tasks own }
{
    if number < u32::from(kinds.tasks()) || (own && number == CALLER) {
        None
    } else {
        Some(OsErr::TaskInvalid)
    }
}

/// The error of the table of `OSPendMulti`: it is at fault, has more than 8 entries or names an object
/// twice, or a number in it is not that of a semaphore or a queue.
pub fn table_refusal(request: &Request, kinds: &Kinds) -> Option<OsErr>
    ensures { result ≡ table_error request.now kinds.now }
{
    if !request.table || request.n_ids > MOST_ENTRIES {
        return Some(OsErr::Table);
    }
    let objects = &request.ids[..usize::from(request.n_ids)];
    if has_repeat(objects) {
        return Some(OsErr::Table);
    }
    if are_pollable(objects, kinds) {
        None
    } else {
        Some(OsErr::ObjectType)
    }
}

// Whether a number stands twice.
fn has_repeat(numbers: &[u32]) -> bool
    ensures { result ≡ repeats numbers.now }
{
    match numbers {
        [first, rest @ ..] => stands_in(*first, rest) || has_repeat(rest),
        [] => false,
    }
}

fn stands_in(number: u32, numbers: &[u32]) -> bool
    ensures { result ≡ not (is_zero (count_of number numbers.now)) }
{
    numbers.contains(&number)
}

// Whether each of these is the number of a semaphore or a queue.
fn are_pollable(objects: &[u32], kinds: &Kinds) -> bool
    ensures { (if result then None else Some ObjectType) ≡ kinds_error objects.now kinds.now }
{
    match objects {
        [first, rest @ ..] => is_pollable(*first, kinds) && are_pollable(rest, kinds),
        [] => true,
    }
}

fn is_pollable(object: u32, kinds: &Kinds) -> bool
    ensures { (if result then None else Some ObjectType) ≡ object_error (Sem ∷ Queue ∷ []) (slice_get kinds.now.objects object) }
{
    matches!(kinds.object(object), Some(Kind::Sem | Kind::Queue))
}
