// What each cause of a refusal means.

ghost use Rattle.std.specs.Prelude.{◌≡◌, ◌≤◌, length, map};
ghost use Rattle.diagnostics.specs.Meanings.{meaning, meaning_in, row_of};

static MEANINGS: [(&[u8], &[u8]); 43] = [
    (
        b"E1",
        b"no header of a 32-bit little-endian executable for RISC-V, or one whose tables have entries of another size",
    ),
    (
        b"E2",
        b"a table, a segment or a section of the executable ends past the input",
    ),
    (
        b"E3",
        b"a segment has more bytes in the file than in memory, or lies neither wholly in the code nor wholly in RAM",
    ),
    (b"E4", b"two segments of the executable overlap"),
    (
        b"E5",
        b"a symbol table of another form, or without strings, or with a name that has no end",
    ),
    (
        b"L1",
        b"a byte that begins no token, or a letter directly behind a number",
    ),
    (b"L2", b"a number outside -2,147,483,648 to 4,294,967,295"),
    (
        b"A1",
        b"no mnemonic, pseudo-instruction or directive has this name",
    ),
    (b"A2", b"the words are not the form of this line"),
    (b"A3", b"a name that is no register"),
    (
        b"A4",
        b"a constant outside the range of its field, or a .space that is negative or no multiple of 4",
    ),
    (
        b"A5",
        b"this name was defined before, or it is that of a service",
    ),
    (b"A6", b"no line defines this name"),
    (
        b"A7",
        b"a label where a constant is wanted, or another name where a label is wanted",
    ),
    (
        b"A8",
        b"a label, an instruction or data before the first section, or an instruction in .ram",
    ),
    (
        b"A9",
        b"a target in RAM, or out of the reach of this branch or jump",
    ),
    (b"A10", b"more than 16,384 words of code"),
    (b"A11", b"more than 262,144 bytes of RAM"),
    (
        b"A12",
        b"a task or an object has a name of more than 16 bytes",
    ),
    (b"A13", b"no setting has this name"),
    (b"A14", b"the 61st task, the 65th object or the 33rd vector"),
    (b"I1", b"no task is declared"),
    (b"I2", b"a task's priority is outside 1 to 62"),
    (
        b"I3",
        b"an entry or a callback is not the address of a code word",
    ),
    (
        b"I4",
        b"a stack pointer is no multiple of 4 from 0x100000 to 0x140000",
    ),
    (b"I5", b"a task's quantum is above 65,535 ticks"),
    (b"I6", b"a task's own queue is above 1,024 messages"),
    (b"I7", b"a queue's size is outside 1 to 1,024 messages"),
    (b"I8", b"a vector's number is above 31"),
    (b"I9", b"two vectors have one number"),
    (b"I10", b"a vector's level is outside 1 to 7"),
    (
        b"I11",
        b"a one-shot timer has no delay, or a periodic one no period",
    ),
    (b"I12", b"a setting is out of its range"),
    (b"I13", b"a setting stands twice"),
    (b"I14", b"there is no code"),
    (
        b"I15",
        b"a bad name or an unknown kind of object in the binary image",
    ),
    (
        b"I16",
        b"the binary image has an unknown version, a count above its limit, a field that must be 0, or too few bytes",
    ),
    (
        b"J1",
        b"the words are no form of a line of interrupts or looks",
    ),
    (b"J2", b"no vector of this number is declared"),
    (b"J3", b"more than four words"),
    (b"J4", b"the 16,385th line of interrupts and looks"),
    (
        b"J5",
        b"a look at a name that is no semaphore, queue, flag group or mutex, or at a priority above 63",
    ),
    (b"J6", b"a moment above 1,000,000 task steps"),
];

// The meaning of a name in a table; nothing where the table does not have it.
fn meaning_in<'a>(name: &[u8], table: &[(&[u8], &'a [u8])]) -> &'a [u8]
    ensures { result.now ≡ meaning_in (map row_of table.now) name.now }
{
    for (spelled, meaning) in table {
        if name == *spelled {
            return *meaning;
        }
    }
    &[]
}

// The meaning of the cause of this name, as `A5`; nothing where no cause has it.
#[tactic(auto, unfolding(crate::specs::Meanings::meanings), using(crate::proofs::MeaningLaws::meaning_is_short))]
pub fn meaning(name: &[u8]) -> &'static [u8]
    ensures value { result.now ≡ meaning name.now }
    ensures short { length result.now ≤ 120 }
{
    meaning_in(name, &MEANINGS)
}
