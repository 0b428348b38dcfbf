// The case that an input is.

ghost use Rattle.std.specs.Prelude.{◌≡◌, ◌≤◌, take, length, IfOk, IfErr};
ghost use Rattle.text_lex.specs.Tokens.{lexed, Tokens};
ghost use Rattle.app_image.specs.Layout.{magic};
ghost use Rattle.app_image.specs.Raw.{IsMade};
ghost use Rattle.app_image.specs.Refusal.{checked};
ghost use Rattle.app_image.specs.Image.{IsValidImage};
ghost use Rattle.inject_list.specs.Lists.{IsValidList};
ghost use Rattle.ucos_top.specs.Answers.{AreRestOf, IsFaultOf, Tells};
ghost use Rattle.elf_reader.specs.Within.{IsWithin};
ghost use Rattle.program_model.specs.Case.{behind_executable, case_of, checked_case, executable_case, image_case, listed_case, text_case};
ghost use Rattle.program_model.specs.Limits.{longest_input};

use crate::causes::CaseError;
use app_image::{Image, ImageError, RawImage, check, read_image};
use elf_reader::{ElfApp, ElfError, read_elf};
use inject_list::{InjectError, InjectList, read};
use program_model::CaseCause;
use rv32_asm::{AsmError, assemble, declare};
use std::alloc::Global;
use text_lex::{LexError, Token, tokens};

/// The case that an input is: the image of a text and the injections behind its line `.inject`, a
/// binary image and the injections behind it, or an executable and the text of declarations and
/// injections behind it.
#[tactic(auto, unfolding(program_model::specs::Case::case_of))]
pub fn read_case(alloc: Global, input: &[u8]) -> Result<(Image, InjectList), CaseError>
    requires { length input.now ≤ longest_input }
    ensures case { Tells result (case_of input.now) }
    ensures valid { IfOk result (λ c. IsValidImage c.0) }
    ensures list { IfOk result (λ c. IsValidList c.0 c.1) }
{
    if input.starts_with(b"UC3I") {
        read_binary(alloc, input)
    } else if input.starts_with(b"\x7fELF") {
        read_executable(alloc, input)
    } else {
        read_text(alloc, input)
    }
}

// The case that a text is.
#[tactic(auto, using(crate::proofs::UsedLaws::used_few), unfolding(program_model::specs::Case::text_case))]
fn read_text(alloc: Global, text: &[u8]) -> Result<(Image, InjectList), CaseError>
    requires { length text.now ≤ longest_input }
    ensures case { Tells result (text_case text.now) }
    ensures valid { IfOk result (λ c. IsValidImage c.0) }
    ensures list { IfOk result (λ c. IsValidList c.0 c.1) }
{
    let tokens = read_tokens(alloc, text)?;
    match assemble(alloc, text, &tokens) {
        Ok((raw, used)) => check_case(alloc, raw, text, &tokens[used..]),
        Err(AsmError::NoMemory) => Err(CaseError::NoMemory),
        Err(AsmError::At(line, cause)) => Err(CaseError::At(line, CaseCause::OfText(cause))),
    }
}

// The case that a binary image and the text behind it are.
#[tactic(auto, unfolding(program_model::specs::Case::image_case))]
fn read_binary(alloc: Global, input: &[u8]) -> Result<(Image, InjectList), CaseError>
    requires image { take 4 input.now ≡ magic }
    requires short { length input.now ≤ longest_input }
    ensures case { Tells result (image_case input.now) }
    ensures valid { IfOk result (λ c. IsValidImage c.0) }
    ensures list { IfOk result (λ c. IsValidList c.0 c.1) }
{
    match read_image(alloc, input) {
        Ok((raw, size)) => {
            let text = &input[size..];
            let tokens = read_tokens(alloc, text)?;
            check_case(alloc, raw, text, &tokens)
        }
        Err(ImageError::NoMemory) => Err(CaseError::NoMemory),
        Err(ImageError::At(line, cause)) => Err(CaseError::At(line, CaseCause::OfImage(cause))),
    }
}

// The case that an executable and the text behind it are.
#[tactic(auto, unfolding(program_model::specs::Case::executable_case))]
fn read_executable(alloc: Global, input: &[u8]) -> Result<(Image, InjectList), CaseError>
    requires { length input.now ≤ longest_input }
    ensures case { Tells result (executable_case input.now) }
    ensures valid { IfOk result (λ c. IsValidImage c.0) }
    ensures list { IfOk result (λ c. IsValidList c.0 c.1) }
{
    match read_elf(alloc, input) {
        Ok(app) => read_declarations(alloc, input, app),
        Err(ElfError::NoMemory) => Err(CaseError::NoMemory),
        Err(ElfError::Bad(cause)) => Err(CaseError::At(0, CaseCause::OfExecutable(cause))),
    }
}

// The case of an executable that is a front of the input, with the text behind it.
#[tactic(auto, using(crate::proofs::UsedLaws::declared_few))]
fn read_declarations(
    alloc: Global,
    input: &[u8],
    app: ElfApp,
) -> Result<(Image, InjectList), CaseError>
    requires short { length input.now ≤ longest_input }
    requires within { IsWithin input.now app }
    ensures case { Tells result (behind_executable input.now app) }
    ensures valid { IfOk result (λ c. IsValidImage c.0) }
    ensures list { IfOk result (λ c. IsValidList c.0 c.1) }
{
    let ElfApp {
        code,
        ram,
        symbols,
        used,
    } = app;
    let text = &input[used..];
    let tokens = read_tokens(alloc, text)?;
    match declare(alloc, text, &tokens, input, &symbols, code, ram) {
        Ok((raw, front)) => check_case(alloc, raw, text, &tokens[front..]),
        Err(AsmError::NoMemory) => Err(CaseError::NoMemory),
        Err(AsmError::At(line, cause)) => Err(CaseError::At(line, CaseCause::OfText(cause))),
    }
}

// The tokens of a text.
fn read_tokens(alloc: Global, text: &[u8]) -> Result<Vec<Token>, CaseError>
    requires { length text.now ≤ longest_input }
    ensures tokens { IfOk result (λ found. lexed text.now ≡ Tokens found.items) }
    ensures fault { IfErr result (λ error. IsFaultOf error (lexed text.now)) }
{
    match tokens(alloc, text) {
        Ok(found) => Ok(found),
        Err(LexError::NoMemory) => Err(CaseError::NoMemory),
        Err(LexError::BadByte(_, line)) => Err(CaseError::At(line, CaseCause::BadByte)),
        Err(LexError::NumberTooLarge(_, line)) => {
            Err(CaseError::At(line, CaseCause::NumberTooLarge))
        }
    }
}

// The case of a raw image, where these tokens of the text are for injections.
fn check_case(
    alloc: Global,
    raw: RawImage,
    text: &[u8],
    tokens: &[Token],
) -> Result<(Image, InjectList), CaseError>
    requires made { IsMade raw }
    requires rest { AreRestOf text.now tokens.now }
    ensures case { Tells result (checked_case text.now tokens.now (checked raw)) }
    ensures valid { IfOk result (λ c. IsValidImage c.0) }
    ensures list { IfOk result (λ c. IsValidList c.0 c.1) }
{
    match check(raw) {
        Ok(image) => inject(alloc, image, text, tokens),
        Err(ImageError::NoMemory) => Err(CaseError::NoMemory),
        Err(ImageError::At(line, cause)) => Err(CaseError::At(line, CaseCause::OfImage(cause))),
    }
}

// The case of an image, where these tokens of the text are for its injections.
fn inject(
    alloc: Global,
    image: Image,
    text: &[u8],
    tokens: &[Token],
) -> Result<(Image, InjectList), CaseError>
    requires valid { IsValidImage image }
    requires rest { AreRestOf text.now tokens.now }
    ensures case { Tells result (listed_case text.now tokens.now image) }
    ensures valid { IfOk result (λ c. IsValidImage c.0) }
    ensures list { IfOk result (λ c. IsValidList c.0 c.1) }
{
    match read(alloc, text, tokens, &image) {
        Ok(list) => Ok((image, list)),
        Err(InjectError::NoMemory) => Err(CaseError::NoMemory),
        Err(InjectError::At(line, cause)) => {
            Err(CaseError::At(line, CaseCause::OfInjection(cause)))
        }
    }
}
