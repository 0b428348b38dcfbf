// The listing that assembles back, as a command.

ghost use Rattle.std.specs.Prelude.{◌≡◌, ◌≤◌, ◌⊎◌};
ghost use Rattle.std.specs.Io.KnownBytes.{Appends};
ghost use Rattle.outside.specs.Causes.{Rose};
ghost use Rattle.outside.specs.Written.{AppendsPrefix};
ghost use Rattle.rv32_listing.specs.Disassembly.{disassembly};
ghost use Rattle.listing_law.specs.Law.{AssemblesBack};

use crate::top::ending;
use app_image::Image;
use listing_law::listing_assembles_back;
use outside::Sink;
use program_model::Status;
use rv32_listing::write_listing;

/// Writes the listing of an image that assembles back.
pub fn disassemble<K: Sink>(image: &Image, sink: &mut K) -> Status
    ensures own { (result ≡ Status.WriteFault) ⊎ (result ≡ Status.Done) }
    ensures sink_count { K.faults sink.old ≤ K.faults sink.new }
    ensures write_fault { result ≡ Status.WriteFault → Rose (K.faults sink.old) (K.faults sink.new) }
    ensures write_fault_text { result ≡ Status.WriteFault → AppendsPrefix (K.held sink.old) (K.held sink.new) (disassembly image.now) }
    ensures whole_text { result ≡ Status.Done → Appends (K.held sink.old) (K.held sink.new) (disassembly image.now) }
    ensures back { AssemblesBack image.now }
{
    // The law, for an image that is valid: so its code is.
    listing_assembles_back();
    let _ = image.code();
    ending(write_listing(image, sink))
}
