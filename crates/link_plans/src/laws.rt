// The facts that a service owes of its plan, proved for all tasks, objects and lists. Each function does nothing: its contract
// is the fact.

ghost use Rattle.link_plans.specs.AfterCalls.{BlockKnowsObjects, BlockRenews, BlockTells, MatchingTell, PlainRenews, WakesKeepObjects, WakesRenew, WakesTell};
ghost use Rattle.link_plans.specs.Renewals.{BlockKeepsPriorities, LinksLead, RenewalMovesPriorities, RenewalMovesTasks, RenewalsFollow, RenewalsHold, WakesKeepPriorities};
ghost use Rattle.link_plans.specs.Matching.{MatchingAreBlocks, MatchingAreWakes, MatchingChange, MatchingEnd, MatchingFit, MatchingKeepNodes, MatchingKeepPriorities};
ghost use Rattle.link_plans.specs.Laws.{BlockFits, BlockIsBlocks, BlockKeepsNodes, LinksKeepPast, WaiterCanWake, WakesAreBlocks, WakesFit, WakesKeepNodes};

/// The links of tasks that are woken are the blocks of their wakes.
pub fn wakes_are_blocks()
    ensures { WakesAreBlocks }
{}

/// The links of a caller that waits for up to eight objects are the blocks of its wait.
pub fn a_block_is_its_blocks()
    ensures { BlockIsBlocks }
{}

/// The links of tasks that are woken fit, where each of them can be woken and none stands twice.
pub fn wakes_fit()
    ensures { WakesFit }
{}

/// An application task that waits can be woken.
pub fn a_waiter_can_wake()
    ensures { WaiterCanWake }
{}

/// The links of a ready caller that waits for up to eight objects fit.
pub fn a_block_fits()
    ensures { BlockFits }
{}

/// After the links of tasks that are woken, each node that waits still serves its task's object.
pub fn wakes_keep_nodes()
    ensures { WakesKeepNodes }
{}

/// After the links of a caller that waits, each node that waits serves its task's object.
pub fn a_block_keeps_nodes()
    ensures { BlockKeepsNodes }
{}

/// Where nobody waits past the kernel's objects, nobody does after links that fit.
pub fn links_keep_past()
    ensures { LinksKeepPast }
{}

/// The links of a renewal fit, are its blocks, and end with the lists of the kernel after it.
pub fn renewals_hold()
    ensures { RenewalsHold }
{}

/// The same after the links of a call, with the end of the step behind them.
pub fn renewals_follow()
    ensures { RenewalsFollow }
{}

/// Links that fit lead from the kernel's lists to those that their blocks lead to.
pub fn links_lead()
    ensures { LinksLead }
{}

/// The links of tasks that are woken, and of a caller that waits, leave the priorities of all tasks.
pub fn links_keep_priorities()
    ensures wakes { WakesKeepPriorities }
    ensures block { BlockKeepsPriorities }
{}

/// What a plan and the records tell of the tasks after a call whose caller waits.
pub fn a_block_tells()
    ensures tasks { BlockTells }
    ensures objects { BlockKnowsObjects }
{}

/// What a plan and the records tell of the tasks after a call that wakes the first waiter or all, or those whose condition on event
/// flags holds.
pub fn wakes_tell()
    ensures tasks { WakesTell }
    ensures matching { MatchingTell }
    ensures objects { WakesKeepObjects }
{}

/// The links of a call after which priorities are renewed: of a caller that waits, of tasks that are woken, or none; and those of
/// the renewal behind them. They fit, are the blocks of the call, and end with the lists of the kernel after it.
pub fn calls_renew()
    ensures block { BlockRenews }
    ensures wakes { WakesRenew }
    ensures plain { PlainRenews }
{}

/// The records and the priorities after a renewal are those before it with each move written.
pub fn moves_are_written()
    ensures tasks { RenewalMovesTasks }
    ensures priorities { RenewalMovesPriorities }
{}

/// A post of event flags wakes the waiters whose condition holds one after another, each with its ready bits. Beside the lists this
/// changes the records of tasks and the matches, by the records and the matches before.
pub fn matching_are_wakes()
    ensures wakes { MatchingAreWakes }
    ensures change { MatchingChange }
{}

/// The links of waiters that are looked at are the blocks of a post of event flags.
pub fn matching_are_blocks()
    ensures { MatchingAreBlocks }
{}

/// They fit, where each of the waiters can be woken and none stands twice, and end with the lists of nodes after the wakes of those
/// whose condition holds.
pub fn matching_fit()
    ensures fits { MatchingFit }
    ensures end { MatchingEnd }
{}

/// After them each node that waits still serves its task's object, and the priorities of all tasks are as before.
pub fn matching_keep()
    ensures nodes { MatchingKeepNodes }
    ensures priorities { MatchingKeepPriorities }
{}
