// A law is the contract of a function that does nothing.

ghost use Rattle.listing_law.specs.Law.{EveryListingAssemblesBack};

/// The listing of every valid image is a case text that is accepted and gives the same image but for the numbers of lines,
/// without interrupts and looks, and it is short enough to be read.
pub fn listing_assembles_back()
    ensures { EveryListingAssemblesBack }
{}
