// The end of a run, as a law of the text that the program writes.

ghost use Rattle.program_model.specs.Ends.{EveryRunComesToItsEnd};

/// The printed run of every valid image with a valid list ends with the line of the task steps that were asked for, and its
/// raw steps keep their bound.
pub fn every_run_comes_to_its_end()
    ensures { EveryRunComesToItsEnd }
{
    machine_laws::every_run_ends();
    machine_laws::raw_steps_are_bounded();
}
