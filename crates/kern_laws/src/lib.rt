//! The laws of the kernel's definitions: each is the contract of a function that does nothing, for every
//! state and every call. The statements stand in `specs/`, their proofs in `kern_model` and here.
#![tactic(auto)]

ghost use Rattle.kern_laws.specs.Inheritance.{InheritedIsLeastBase, PresentIsLeastBase, RenewedIsLeastBase};
ghost use Rattle.kern_laws.specs.ObjectKinds.{EffectKeepsKinds, PostKeepsKinds, UnitKeepsKinds, FinishKeepsKinds, TrapKeepsKinds, CallbackEndKeepsKinds};
ghost use Rattle.kern_laws.specs.Laws.{HalfEndsAsEffect, HalfEndsAsUnit, StartIsValid, EffectKeepsValid, UnitKeepsValid, FinishKeepsValid, TrapKeepsValid, CallbackEndKeepsValid, PostsKeep, CostIsBounded, QuickCostIsBounded, UnitCostIsBounded, EffectKeepsMessages, UnitKeepsMessages, FinishKeepsMessages, TrapKeepsMessages};

/// After all its micro-steps, a call has made the links of its effect.
pub fn half_made_lists_end_as_the_effect()
    ensures { HalfEndsAsEffect }
{}

/// After all its micro-steps, a unit of an internal task has made the links of its effect.
pub fn half_made_lists_end_as_the_unit()
    ensures { HalfEndsAsUnit }
{}

/// The kernel at the start is valid.
pub fn the_start_is_valid()
    ensures { StartIsValid }
{}

/// A call keeps the kernel valid.
pub fn a_call_keeps_the_kernel_valid()
    ensures { EffectKeepsValid }
{}

/// A unit of an internal task keeps the kernel valid.
pub fn a_unit_keeps_the_kernel_valid()
    ensures { UnitKeepsValid }
{}

/// A task that reads the result of its wait keeps the kernel valid.
pub fn a_finish_keeps_the_kernel_valid()
    ensures { FinishKeepsValid }
{}

/// A task that traps keeps the kernel valid.
pub fn a_trap_keeps_the_kernel_valid()
    ensures { TrapKeepsValid }
{}

/// The end of a callback keeps the kernel valid.
pub fn the_end_of_a_callback_keeps_the_kernel_valid()
    ensures { CallbackEndKeepsValid }
{}

/// A post changes no present priority, no lock and no counter.
pub fn a_post_keeps_the_rest()
    ensures { PostsKeep }
{}

/// A call takes at most 32,000 micro-steps.
pub fn a_call_is_bounded()
    ensures { CostIsBounded }
{}

/// A call that renews no priorities takes at most 1,200 micro-steps, its first and last among them.
pub fn a_call_without_renewal_is_bounded()
    ensures { QuickCostIsBounded }
{}

/// A unit of an internal task takes at most 32,000 micro-steps.
pub fn a_unit_is_bounded()
    ensures { UnitCostIsBounded }
{}

/// A call loses and makes no message.
pub fn a_call_keeps_the_messages()
    ensures { EffectKeepsMessages }
{}

/// A unit of an internal task loses and makes no message.
pub fn a_unit_keeps_the_messages()
    ensures { UnitKeepsMessages }
{}

/// A task that reads the result of its wait loses and makes no message.
pub fn a_finish_keeps_the_messages()
    ensures { FinishKeepsMessages }
{}

/// A task that traps keeps its messages.
pub fn a_trap_keeps_the_messages()
    ensures { TrapKeepsMessages }
{}

/// A call keeps the kind of each object.
pub fn a_call_keeps_the_kinds()
    ensures { EffectKeepsKinds }
{}

/// So does a post without a caller.
pub fn a_post_keeps_the_kinds()
    ensures { PostKeepsKinds }
{}

/// So does a unit of an internal task.
pub fn a_unit_keeps_the_kinds()
    ensures { UnitKeepsKinds }
{}

/// So does a task that reads the result of its wait.
pub fn a_finish_keeps_the_kinds()
    ensures { FinishKeepsKinds }
{}

/// So does a task that traps.
pub fn a_trap_keeps_the_kinds()
    ensures { TrapKeepsKinds }
{}

/// So does the end of a callback.
pub fn the_end_of_a_callback_keeps_the_kinds()
    ensures { CallbackEndKeepsKinds }
{}

/// The inherited priority is the least base priority among the tasks from which a task is reached.
pub fn an_inherited_priority_is_the_least_base_priority()
    ensures { InheritedIsLeastBase }
{}

/// So is the present priority of each living application task and of the timer task.
pub fn a_present_priority_is_the_least_base_priority()
    ensures { PresentIsLeastBase }
{}

/// So is a renewed priority.
pub fn a_renewed_priority_is_the_least_base_priority()
    ensures { RenewedIsLeastBase }
{}
