// Why a case is refused.

use app_image::ImageCause;
use elf_reader::ElfCause;
use inject_list::InjectCause;
use rv32_asm::AsmCause;

/// Why a case is refused. The stages of reading stand in their order; the first that has a cause
/// decides.
#[derive(Clone, Copy, Debug, PartialEq, Eq)]
pub enum CaseCause {
    /// E1 to E5: the executable is refused.
    OfExecutable(ElfCause),
    /// L1: a byte that begins no token.
    BadByte,
    /// L2: a number out of range.
    NumberTooLarge,
    /// A1 to A14: the text is not assembled.
    OfText(AsmCause),
    /// I1 to I16: the image is not valid, or its bytes are no image.
    OfImage(ImageCause),
    /// J1 to J6: a line behind `.inject`, or behind a binary image, is no injection of the image.
    OfInjection(InjectCause),
}
