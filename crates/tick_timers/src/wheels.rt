// A wheel of matches.

ghost use Rattle.std.specs.Prelude.{◌≡◌, ◌<◌, ◌%◌, ℕ, [], ◌∷◌, ◌++◌, length, slice_get, slice_set, IfSome};
ghost use Rattle.kern_model.specs.Effect.{unmatched};
ghost use Rattle.kern_model.specs.Time.{due};
ghost use Rattle.kern_model.specs.Timers.{match_of};
ghost use Rattle.tick_timers.specs.Matches.{pairs, slots_in, slot_at, with_remainder, IsUnmatched};

use crate::giving::Giving;
use arrayvec::ArrayVec;
use std::array;
use std::marker::Model;

/// A match: the number of a task or of a timer, and the count at which it is due.
#[derive(Clone, Copy, Debug, Default, PartialEq, Eq)]
pub struct Match {
    pub number: u8,
    pub at: u32,
}

// At most one match for each number below 64: a list for each remainder of the count, the count of each
// number that has a match, and the order in which the matches were given. Contracts see the matches in
// that order, as pairs of a number and a count.
#[derive(Drop)]
pub(crate) struct Wheel {
    slots: [ArrayVec<Match, 64>; 64],
    counts: [Option<u32>; 64],
    given: Giving,
}

impl Model for Wheel {
    ghost use Rattle.std.specs.Prelude.{ℕ, List};

    ghost Value = { List (ℕ × ℕ) };

    ghost use Rattle.tick_timers.specs.WheelView.{wheel_of, IsWheel};

    ghost view = { wheel_of };

    ghost invariant = { IsWheel };
}

// Empty lists.
fn empty_slots() -> [ArrayVec<Match, 64>; 64]
    ensures lists { (r : ℕ) → slot_at (slots_in result) r ≡ [] }
    ensures count { length result ≡ 64 }
{
    array::from_fn(|_| ArrayVec::new())
}

// A match joins a list, as the last.
fn put(slots: &mut [ArrayVec<Match, 64>; 64], index: usize, entry: Match)
    requires inside { index < 64 }
    requires room { length (slot_at (slots_in slots.old) index) < 64 }
    ensures lists { slots_in slots.new ≡ slice_set (slots_in slots.old) index (slot_at (slots_in slots.old) index ++ (entry.number, entry.at) ∷ []) }
    ensures count { length slots.new ≡ 64 }
{
    slots[index].push(entry);
}

// The match of a number leaves a list.
fn take_out(slots: &mut [ArrayVec<Match, 64>; 64], index: usize, number: u8)
    requires { index < 64 }
    ensures lists { slots_in slots.new ≡ slice_set (slots_in slots.old) index (unmatched number (slot_at (slots_in slots.old) index)) }
    ensures count { length slots.new ≡ 64 }
{
    slots[index].retain(|entry| entry.number != number);
}

impl Wheel {
    pub(crate) fn new() -> Wheel
        ensures { result ≡ [] }
    {
        Wheel {
            slots: empty_slots(),
            counts: [None; 64],
            given: Giving::new(),
        }
    }

    // A number that has no match gets one, as the last.
    pub(crate) fn add(&mut self, number: u8, at: u32)
        requires number { number < 64 }
        requires fresh { IsUnmatched number self.old }
        ensures { self.new ≡ self.old ++ (number, at) ∷ [] }
    {
        put(&mut self.slots, (at % 64) as usize, Match { number, at });
        self.counts[number as usize] = Some(at);
        self.given.give(number);
    }

    // A number has no match any more.
    pub(crate) fn remove(&mut self, number: u8)
        requires { number < 64 }
        ensures { self.new ≡ unmatched number self.old }
    {
        let Some(at) = self.counts[number as usize] else {
            return;
        };
        take_out(&mut self.slots, (at % 64) as usize, number);
        self.counts[number as usize] = None;
        self.given.take_back(number);
    }

    // The count at which a number is due; 0 for one that has no match.
    pub(crate) fn count_at(&self, number: u8) -> u32
        requires { number < 64 }
        ensures { result ≡ match_of number self.now }
    {
        self.counts[number as usize].unwrap_or(0)
    }

    // The first of the numbers that are due at this count, in the order in which they got their match.
    pub(crate) fn first_due(&self, count: u32) -> Option<u8>
        ensures value { result ≡ slice_get (due count self.now) 0 }
        ensures low { IfSome result (λ number. number < 64) }
    {
        let _ = &self.given;
        let slot = self.slot((count % 64) as u8);
        for entry in slot {
            if entry.at == count {
                return Some(entry.number);
            }
        }
        None
    }

    // All numbers that are due at this tick, in the order in which they got their match.
    pub(crate) fn due(&self, tick: u32, numbers: &mut ArrayVec<u8, 64>)
        requires { numbers.old.items ≡ [] }
        ensures { numbers.new.items ≡ due tick self.now }
    {
        let _ = &self.given;
        let slot = self.slot((tick % 64) as u8);
        for entry in slot {
            if entry.at == tick {
                numbers.push(entry.number);
            }
        }
    }

    // The matches with this remainder, as they are kept.
    pub(crate) fn slot(&self, r: u8) -> &[Match]
        requires { r < 64 }
        ensures { pairs result.now ≡ with_remainder r self.now }
    {
        self.slots[r as usize].as_slice()
    }
}
