// Why a case is refused, and the line that says so.

ghost use Rattle.std.specs.Prelude.{◌≡◌, ◌++◌, ◌≤◌, ◌+◌, [], ◌∷◌, length, decimal};
ghost use Rattle.arrayvec.specs.ArrayVec.{array_vec_len};
ghost use Rattle.asm_causes.specs.Refusal.{cause_number};
ghost use Rattle.elf_reader.specs.CauseNumbers as executable;
ghost use Rattle.inject_list.specs.Reading as inject;
ghost use Rattle.program_model.specs.Refusals.{letter, number, refusal_line};

use arrayvec::ArrayVec;
use elf_reader::ElfCause;
use inject_list::InjectCause;
use itoa::Buffer;
use program_model::CaseCause;
use rv32_asm::AsmCause;

/// Why an input is not read as a case.
#[derive(Clone, Copy, Debug, PartialEq, Eq)]
pub enum CaseError {
    NoMemory,
    /// The line, from 1, or 0 where no line is at fault, and the cause.
    At(u32, CaseCause),
}

/// A line that refuses a case.
pub type RefusalLine = ArrayVec<u8, 32>;

// Appends these bytes.
fn push_bytes(line: &mut RefusalLine, bytes: &[u8])
    requires room { array_vec_len line.old + length bytes.now ≤ 32 }
    ensures items { line.new.items ≡ line.old.items ++ bytes.now }
    ensures len { array_vec_len line.new ≡ array_vec_len line.old + length bytes.now }
{
    line.try_extend_from_slice(bytes).unwrap();
}

// Appends a number.
fn push_number(line: &mut RefusalLine, n: u32)
    requires room { array_vec_len line.old + 10 ≤ 32 }
    ensures items { line.new.items ≡ line.old.items ++ decimal n }
    ensures len { array_vec_len line.new ≤ array_vec_len line.old + 10 }
{
    let mut buffer = Buffer::new();
    push_bytes(line, buffer.format(n).as_bytes());
}

/// The line that refuses a case at a line for a cause, as `refused 3 A5`.
#[tactic(auto, unfolding(program_model::specs::Refusals::refusal_line))]
pub fn refusal_line(line: u32, cause: CaseCause) -> RefusalLine
    ensures { result.items ≡ refusal_line line cause }
{
    let mut written = RefusalLine::new();
    push_bytes(&mut written, b"refused ");
    push_number(&mut written, line);
    written.push(b' ');
    written.push(letter(cause));
    push_number(&mut written, number(cause));
    written.push(b'\n');
    written
}

// The letter of the stage that refuses.
fn letter(cause: CaseCause) -> u8
    ensures { result ∷ [] ≡ letter cause }
{
    match cause {
        CaseCause::OfExecutable(_) => b'E',
        CaseCause::BadByte | CaseCause::NumberTooLarge => b'L',
        CaseCause::OfText(_) => b'A',
        CaseCause::OfImage(_) => b'I',
        CaseCause::OfInjection(_) => b'J',
    }
}

// The number of the cause in its stage.
fn number(cause: CaseCause) -> u32
    ensures { result ≡ number cause }
{
    match cause {
        CaseCause::OfExecutable(cause) => executable_number(cause),
        CaseCause::BadByte => 1,
        CaseCause::NumberTooLarge => 2,
        CaseCause::OfText(cause) => text_number(cause),
        CaseCause::OfImage(cause) => u32::from(cause.number()),
        CaseCause::OfInjection(cause) => injection_number(cause),
    }
}

// The number of a cause of an executable, 1 to 5.
fn executable_number(cause: ElfCause) -> u32
    ensures { result ≡ executable.cause_number cause }
{
    match cause {
        ElfCause::Header => 1,
        ElfCause::Range => 2,
        ElfCause::Place => 3,
        ElfCause::Overlap => 4,
        ElfCause::SymbolTable => 5,
    }
}

// The number of a cause of the assembler, 1 to 14.
fn text_number(cause: AsmCause) -> u32
    ensures { result ≡ cause_number cause }
{
    match cause {
        AsmCause::UnknownStatement => 1,
        AsmCause::WrongForm => 2,
        AsmCause::NoRegister => 3,
        AsmCause::ConstantRange => 4,
        AsmCause::DefinedTwice => 5,
        AsmCause::Undefined => 6,
        AsmCause::WrongKind => 7,
        AsmCause::WrongSection => 8,
        AsmCause::TargetRange => 9,
        AsmCause::CodeFull => 10,
        AsmCause::RamFull => 11,
        AsmCause::LongName => 12,
        AsmCause::UnknownSetting => 13,
        AsmCause::TooMany => 14,
    }
}

// The number of a cause of the injections, 1 to 6.
fn injection_number(cause: InjectCause) -> u32
    ensures { result ≡ inject.cause_number cause }
{
    match cause {
        InjectCause::WrongForm => 1,
        InjectCause::NoVector => 2,
        InjectCause::TooManyWords => 3,
        InjectCause::TooMany => 4,
        InjectCause::NoList => 5,
        InjectCause::LateMoment => 6,
    }
}
