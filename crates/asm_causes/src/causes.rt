// Why a line is refused.

/// Why a line is refused, in the order of the causes' numbers, from 1.
#[derive(Clone, Copy, Debug, PartialEq, Eq)]
pub enum AsmCause {
    /// A statement begins with no known mnemonic, pseudo-instruction or directive.
    UnknownStatement,
    /// What follows is not the form of that statement.
    WrongForm,
    /// A name that is no register stands where a register is wanted.
    NoRegister,
    /// A constant outside the range of its immediate or shift, or a `.space` that is negative or not a
    /// multiple of 4.
    ConstantRange,
    /// A name that was defined earlier, on the same line too, or that is a service's.
    DefinedTwice,
    /// A name that no line defines.
    Undefined,
    /// A label where a constant is wanted, or another name where a label is wanted.
    WrongKind,
    /// A label, instruction, `.word` or `.space` before the first section, or an instruction in RAM.
    WrongSection,
    /// A target in RAM, or farther away than the branch or jump reaches.
    TargetRange,
    /// The code has more than 16,384 words with this line.
    CodeFull,
    /// RAM has more than 262,144 bytes with this line.
    RamFull,
    /// A task or an object has a name of more than 16 bytes.
    LongName,
    /// A setting that is none.
    UnknownSetting,
    /// The 61st task, the 65th object or the 33rd vector.
    TooMany,
}
