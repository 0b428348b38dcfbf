// What is told of an end that is no refusal.

ghost use Rattle.std.specs.Prelude.{◌≡◌};
ghost use Rattle.diagnostics.specs.Messages.{ending};

use program_model::Status;

const USAGE: &str = "\
usage: ucos3 run direct N < CASE     print the run of a case to N task steps, 0 to 1,000,000; interrupt code posts at once
       ucos3 run deferred N < CASE   the same, where what interrupt code posts waits for the handler
       ucos3 both N < CASE           print both task histories, and the premises under which they are equal
       ucos3 list < CASE             print what a case declares, its code and its initial RAM
       ucos3 dis < CASE              print the case as a listing that assembles back
       ucos3 image < CASE            write the binary image of a case
       ucos3 gen SEED SIZE           write a generated case with SIZE lines of interrupts, 1 to 16384
       ucos3 soak SEED SIZE          print a summary of both runs of that case
";

// What is told of an end, in whole lines; nothing where all was written, nor of a refused case, of which its
// message is told.
pub fn ending(status: Status) -> &'static str
    ensures { result.now ≡ ending status }
{
    match status {
        Status::Done | Status::Broken | Status::Refused => "",
        Status::Usage => USAGE,
        Status::ReadFault => "the standard input could not be read; nothing was written\n",
        Status::WriteFault => {
            "the standard output could not be written; what was written is a prefix of the text\n"
        }
        Status::NoMemory => "there was not enough memory; nothing was written\n",
        Status::TooLong => "the input has more than 4,194,304 bytes; nothing was written\n",
    }
}
