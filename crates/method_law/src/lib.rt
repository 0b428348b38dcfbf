//! The law of the two posting methods: its statement, the relation between a machine of a run by each method, and
//! the laws of posts, instructions, events and runs that it is made of. Each law is the contract of a function that
//! does nothing; docs/TWO_METHODS.md says how they fit together.
#![tactic(auto)]

ghost use Rattle.method_law.specs.Relation.{QueueingPerforms, TakingPerforms, PerformingKeeps};
ghost use Rattle.method_law.specs.Alike.{InstructionsRunAlike};
ghost use Rattle.method_law.specs.PostArguments.{PostsReadTheirArguments, ChecksReadTheirArguments};
ghost use Rattle.method_law.specs.Takes.{TakesAreAsAtOnce};
ghost use Rattle.method_law.specs.Going.{EventsGo};
ghost use Rattle.method_law.specs.Runs.{RunsAgree};
ghost use Rattle.method_law.specs.Law.{MethodsAgree};
ghost use Rattle.method_law.specs.Kinds.{PostsKeepKinds, PerformingKeepsKinds, ChecksAnswerAlike};

/// A post that is queued, seen from the kernel with all queued posts performed, is a post that acts at once.
pub fn queueing_is_posting_at_once()
    ensures { QueueingPerforms }
{}

/// A take, seen from the kernel with all queued posts performed, changes nothing.
pub fn taking_changes_nothing()
    ensures { TakingPerforms }
{}

/// Performing queued posts changes no priority, no lock and no counter.
pub fn performing_keeps_the_rest()
    ensures { PerformingKeeps }
{}

/// A post changes no kind of an object, and not how many tasks there are.
pub fn posts_keep_the_kinds()
    ensures { PostsKeepKinds }
{}

/// Nor does performing queued posts.
pub fn performing_keeps_the_kinds()
    ensures { PerformingKeepsKinds }
{}

/// The static checks of a call answer alike while posts wait and after they are performed.
pub fn checks_answer_alike()
    ensures { ChecksAnswerAlike }
{}

/// An instruction that reads no marked register does the same from registers that agree but for marked ones.
pub fn instructions_run_alike()
    ensures { InstructionsRunAlike }
{}

/// A post looks at the arguments of its service alone.
pub fn posts_read_their_arguments()
    ensures { PostsReadTheirArguments }
{}

/// So do the static checks of a post.
pub fn checks_read_their_arguments()
    ensures { ChecksReadTheirArguments }
{}

/// A take of a valid kernel that, under the literal insertion rule, readies no task of the saved priority is as the post at
/// once.
pub fn takes_are_as_at_once()
    ensures { TakesAreAsAtOnce }
{}

/// Each event of the deferred run that breaks no premise goes with one of the direct run, or alone, and both histories grow
/// by the same lines.
pub fn events_go_together()
    ensures { EventsGo }
{}

/// Where both runs come to their task steps, and the deferred one keeps its kernel valid and breaks no premise, the task
/// histories are equal.
pub fn runs_agree()
    ensures { RunsAgree }
{}

/// The law of the two methods: where the deferred run of a valid image breaks no premise, its task history is that of the
/// direct run.
pub fn methods_agree()
    ensures { MethodsAgree }
{}
