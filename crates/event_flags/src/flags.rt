// An event flag group, and the conditions of waits for its bits.

ghost use Rattle.std.specs.Prelude.{◌≡◌, slice_index};
ghost use Rattle.kern_model.specs.State.{Bits};
ghost use Rattle.kern_model.specs.FlagBits.{bits_after, consumed, ready_bits};
ghost use Rattle.decisions.specs.Decided.{IsDecided};
ghost use Rattle.event_flags.specs.Rows.{IsFlagCall, pend_decision, decision_of, bits_after_pend, bits_after_call};

use decisions::{abort, delete, success, wait_unless};
use kern_base::{Around, Decision, OsErr, Request, Service, Who};

// The bits of the option of `OSFlagPend`: it waits for any of the bits, for clear bits, it consumes them,
// and it does not block.
const ANY: u32 = 1;

const CLEAR: u32 = 2;

const CONSUME: u32 = 4;

const NON_BLOCKING: u32 = 8;

/// A group of 32 event flags.
#[derive(Clone, Copy, Debug, PartialEq, Eq)]
pub struct FlagGroup {
    pub bits: u32,
}

impl FlagGroup {
    /// What a call on this group comes to: `OSFlagPost`, `OSFlagPend`, `OSFlagPendAbort` or `OSFlagDel`,
    /// whose checks have passed. Nothing changes yet.
    pub fn decide(&self, request: &Request, seen: &Around) -> Decision
        requires { IsFlagCall request.now }
        ensures value { result ≡ decision_of self.now.bits request.now seen.now }

        // It is what the service does, in every kernel with this group and this around it.
        ensures row { IsDecided result (Bits self.now.bits)
            (Bits (bits_after_call request.now.service result request.now self.now.bits)) request.now seen.now }
    {
        match request.service {
            Service::FlagPost => Decision::Wake(Who::Matching),
            Service::FlagPend => self.decide_pend(request.args[1], request.args[3], seen.locked),
            Service::FlagPendAbort => abort(request, seen),
            Service::FlagDel => delete(request, seen),
            _ => unreachable!(),
        }
    }

    /// The group's own change by a call, where this was decided of it.
    pub fn apply(&mut self, request: &Request, seen: &Around, decision: &Decision)
        requires call { IsFlagCall request.now }
        requires decided { decision.now ≡ decision_of self.old.bits request.now seen.now }
        ensures { self.new.bits ≡ bits_after_call request.now.service decision.now request.now self.old.bits }
    {
        let _ = seen;
        match request.service {
            Service::FlagPost => self.bits = self.bits_after(request),
            Service::FlagPend => self.apply_pend(request.args[3], decision),
            _ => {}
        }
    }

    /// The bits that a post with these arguments leaves.
    pub fn bits_after(&self, request: &Request) -> u32
        ensures { result ≡ bits_after self.now.bits (slice_index request.now.args 1) (slice_index request.now.args 2) }
    {
        let bits = request.args[1];
        if request.args[2] == 1 {
            self.bits & !bits
        } else {
            self.bits | bits
        }
    }

    /// The bits that a wait is ready with, on a group with these bits. None exactly where the condition of
    /// its option does not hold: all bits of the mask set, any set, all clear, any clear.
    pub fn ready_bits(bits: u32, mask: u32, option: u32) -> Option<u32>
        ensures { result ≡ ready_bits bits mask option }
    {
        let seen = if option & CLEAR != 0 {
            !bits & mask
        } else {
            bits & mask
        };
        let holds = if option & ANY != 0 {
            seen != 0
        } else {
            seen == mask
        };
        if holds { Some(seen) } else { None }
    }

    /// Consumes the ready bits of a wait, where its option says so: they are set no more, or clear no more.
    pub fn consume(&mut self, ready: u32, option: u32)
        ensures { self.new.bits ≡ consumed self.old.bits ready option }
    {
        if option & CONSUME == 0 {
            return;
        }
        if option & CLEAR != 0 {
            self.bits |= ready;
        } else {
            self.bits &= !ready;
        }
    }

    fn decide_pend(&self, mask: u32, option: u32, locked: bool) -> Decision
        ensures { result ≡ pend_decision (ready_bits self.now.bits mask option) option locked }
    {
        match FlagGroup::ready_bits(self.bits, mask, option) {
            Some(ready) => Decision::Done(success(ready)),
            None => wait_unless(option & NON_BLOCKING != 0, locked),
        }
    }

    fn apply_pend(&mut self, option: u32, decision: &Decision)
        ensures { self.new.bits ≡ bits_after_pend decision.now option self.old.bits }
    {
        if let Decision::Done(answer) = decision {
            if answer.err == OsErr::NoError {
                self.consume(answer.value, option);
            }
        }
    }
}
