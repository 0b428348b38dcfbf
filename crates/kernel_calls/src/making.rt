// One whole link, all its micro-steps in one call.

ghost use Rattle.std.specs.Prelude.{◌≡◌, [], ◌∷◌, length};
ghost use Rattle.kern_model.specs.Micro.{after, whole};
ghost use Rattle.micro_steps.specs.Blocks.{block_of};
ghost use Rattle.micro_steps.specs.Whole.{FitsLink, HasNode, prios_after};

use links::Links;
use micro_steps::{Link, Steps};

// Makes a link where no step is in hand, and ends the step.
pub(crate) fn make<L: Links>(steps: &mut Steps<L>, link: Link)
    requires whole { steps.old.halves ≡ whole steps.old.halves.forward }
    requires node { HasNode link }
    requires fits { FitsLink 64 link steps.old.halves.forward }
    ensures halves { steps.new.halves ≡ whole (after (block_of (prios_after link steps.old.prios) link steps.old.halves.forward) steps.old.halves.forward) }
    ensures start { steps.new.start ≡ steps.new.halves.forward }
    ensures prios { steps.new.prios ≡ prios_after link steps.old.prios }
{
    steps.chains().consistent();
    steps.take(link);
    while !steps.step() {}
    steps.close();
}
