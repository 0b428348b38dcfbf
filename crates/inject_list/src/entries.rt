// What an entry gives: an interrupt or a look, or the least cause of its refusal.

ghost use Rattle.std.specs.Prelude.{◌≡◌, ◌≤◌, true, List, ℕ, Some};
ghost use Rattle.std.specs.List.{position};
ghost use Rattle.app_image.specs.Image.{ImageRecord};
ghost use Rattle.inject_list.specs.Lists.{has_waiters, is_declared};
ghost use Rattle.inject_list.specs.Entries as entries;
ghost use Rattle.inject_list.specs.Reading.{is_seen_as, seen_in};
ghost use Rattle.inject_list.specs.Parts.{kept};
ghost use Rattle.inject_list.specs.Given.{moment_at, moment_of, IsGiven};

use crate::words::Words;
use crate::{InjectCause, Injection, Look, Moment, Seen};
use app_image::{Image, ObjDef, VectorDef};
use kern_base::{Kind, ObjId, Prio};

/// How many interrupts and looks there may be together.
const MOST_ENTRIES: usize = 16_384;

/// The last moment in task steps.
const LAST_MOMENT: u64 = 1_000_000;

/// A moment as it is read: so many steps of tasks, or raw steps.
#[derive(Clone, Copy)]
pub enum When {
    Task(u64),
    Step(u64),
}

/// What a line gives.
#[derive(Clone, Copy)]
pub enum Given {
    Interrupt(Injection),
    Look(Look),
}

// The moment that an interrupt may have, or None where it is too late.
fn moment_of(when: When) -> Option<Moment>
    ensures { result ≡ moment_of when }
{
    match when {
        When::Task(t) if t > LAST_MOMENT => None,
        When::Task(t) => Some(Moment::Task(t as u32)),
        When::Step(s) => Some(Moment::Step(s)),
    }
}

// Whether the vector of a number is declared.
fn is_declared(vectors: &[VectorDef], number: u64) -> bool
    ensures { result ≡ is_declared vectors.now number }
{
    for vector in vectors {
        if u64::from(vector.number) == number {
            return true;
        }
    }
    false
}

fn has_waiters(kind: Kind) -> bool
    ensures { result ≡ has_waiters kind }
{
    match kind {
        Kind::Sem | Kind::Queue | Kind::Flags | Kind::Mutex => true,
        Kind::OneShot | Kind::Periodic => false,
    }
}

// The number of the object with this name for which tasks wait.
fn object_named(objects: &[ObjDef], name: &[u8]) -> Option<usize>
    ensures { result ≡ position (is_seen_as name.now) objects.now }
{
    for (number, object) in objects.iter().enumerate() {
        if object.name.bytes() == name && has_waiters(object.kind) {
            return Some(number);
        }
    }
    None
}

/// The list of the object with this name, if it has one.
pub fn object_seen(image: &Image, name: &[u8]) -> Option<Seen>
    ensures { result ≡ seen_in image.now (entries.Named name.now) }
{
    let number = object_named(image.objects(), name)?;
    Some(Seen::Obj(ObjId(number as u8)))
}

/// The ready list of a priority, if there is one.
pub fn priority_seen(prio: u64) -> Option<Seen>
    ensures { (image : ImageRecord) → result ≡ seen_in image (entries.AtPriority prio) }
{
    if prio <= 63 {
        Some(Seen::Ready(Prio(prio as u8)))
    } else {
        None
    }
}

/// What an interrupt with these words gives behind so many entries.
pub fn interrupt(
    image: &Image,
    before: usize,
    when: When,
    vector: u64,
    words: Words,
) -> Result<Given, InjectCause>
    ensures { (all : List ℕ) → words ≡ kept all → IsGiven result image.now before (Some (entries.Interrupt (moment_at when) vector all)) }
{
    if !is_declared(image.vectors(), vector) {
        return Err(InjectCause::NoVector);
    }
    if words.count > 4 {
        return Err(InjectCause::TooManyWords);
    }
    if before >= MOST_ENTRIES {
        return Err(InjectCause::TooMany);
    }
    let Some(moment) = moment_of(when) else {
        return Err(InjectCause::LateMoment);
    };
    let first = words.first;
    Ok(Given::Interrupt(Injection {
        moment,
        vector: vector as u8,
        words: first,
        count: words.count as u8,
    }))
}

/// What a look at this list gives behind so many entries.
pub fn look(before: usize, at: u64, seen: Option<Seen>) -> Result<Given, InjectCause>
    ensures { (image : ImageRecord) (target : entries.Target) → seen ≡ seen_in image target → IsGiven result image before (Some (entries.Looks at target)) }
{
    if before >= MOST_ENTRIES {
        return Err(InjectCause::TooMany);
    }
    match seen {
        None => Err(InjectCause::NoList),
        Some(what) => Ok(Given::Look(Look { at, what })),
    }
}
