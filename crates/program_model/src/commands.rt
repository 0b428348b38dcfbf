// What the words may ask for.

use kern_base::Method;

/// What the words ask for.
#[derive(Clone, Copy, Debug, PartialEq, Eq)]
pub enum Command {
    /// What is to be done with the case that is read.
    OnCase(CaseCommand),
    /// The text of a generated case: its seed, and how many lines of interrupts it has, 1 to 16,384.
    Generate(u64, u32),
    /// A summary of both runs of the generated case of this seed and size.
    Soak(u64, u32),
}

/// What is to be done with a case.
#[derive(Clone, Copy, Debug, PartialEq, Eq)]
pub enum CaseCommand {
    /// The printed run of the case by a posting method to so many task steps, at most 1,000,000.
    Run(Method, u32),
    /// The task histories of the case by both posting methods to so many task steps, at most 1,000,000, and
    /// the premises under which they are equal.
    Both(u32),
    /// The listing of the case's image.
    Listing,
    /// The listing of the case's image that assembles back.
    Disassembly,
    /// The case's image in the binary format.
    Binary,
    /// A summary of both runs of the case, which was generated for this seed and size.
    Summary(u64, u32),
}
