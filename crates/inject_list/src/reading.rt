// The lines behind `.inject`.

ghost use Rattle.std.specs.Prelude.{◌≡◌, ◌≤◌, ◌+◌, [], ◌∷◌, drop, length, OnOk, IfOk, IfErr};
ghost use Rattle.std.specs.List.{prefix_len};
ghost use Rattle.inject_list.specs.Lists.{IsValidList};
ghost use Rattle.inject_list.specs.Reading.{Gives, read_from, injections_in, IsFault as IsFaultIn};
ghost use Rattle.inject_list.specs.Parts.{is_before_end};
ghost use Rattle.inject_list.specs.Given.{with_given};

use crate::entries::Given;
use crate::forms::given_by;
use crate::{InjectError, InjectList};
use app_image::Image;
use std::alloc::Global;
use text_lex::{Token, TokenKind};

// Where the line ends that has a token at a place: at its end token, or at the end of the tokens.
fn line_end(tokens: &[Token], at: usize) -> usize
    requires { at ≤ length tokens.now }
    ensures value { result ≡ at + prefix_len is_before_end (drop at tokens.now) }
    ensures within { result ≤ length tokens.now }
{
    let mut end = at;
    while end < tokens.len() {
        if let TokenKind::End = tokens[end].kind {
            return end;
        }
        end += 1;
    }
    end
}

// Adds what a line gives.
fn add(list: &mut InjectList, given: Given) -> Result<(), InjectError>
    ensures ok { OnOk result (list.new ≡ with_given given list.old) }
    ensures err { IfErr result (λ error. error ≡ InjectError.NoMemory) }
{
    match given {
        Given::Interrupt(interrupt) => list
            .injections
            .push(interrupt)
            .map_err(|_| InjectError::NoMemory),
        Given::Look(look) => list.looks.push(look).map_err(|_| InjectError::NoMemory),
    }
}

// Reads a line behind the lines that gave a list.
fn read_line(
    list: &mut InjectList,
    text: &[u8],
    image: &Image,
    line: &[Token],
) -> Result<(), InjectError>
    requires { IsValidList image.now list.old }
    ensures ok { OnOk result (read_from text.now image.now list.old (line.now ∷ []) ≡ Gives list.new) }
    ensures valid { OnOk result (IsValidList image.now list.new) }
    ensures fault { IfErr result (λ error. IsFaultIn error (read_from text.now image.now list.old (line.now ∷ []))) }
{
    let Some(first) = line.first() else {
        return Ok(());
    };
    let before = list.injections.len() + list.looks.len();
    match given_by(text, image, before, line) {
        Ok(given) => add(list, given),
        Err(cause) => Err(InjectError::At(first.line, cause)),
    }
}

/// The interrupts and the looks that the lines of some tokens of a text give for an image, or the first line
/// with a cause of refusal and on it the least cause. Takes memory for the two lists alone.
pub fn read(
    alloc: Global,
    text: &[u8],
    tokens: &[Token],
    image: &Image,
) -> Result<InjectList, InjectError>
    ensures list { IfOk result (λ l. injections_in text.now tokens.now image.now ≡ Gives l) }
    ensures valid { IfOk result (IsValidList image.now) }
    ensures fault { IfErr result (λ error. IsFaultIn error (injections_in text.now tokens.now image.now)) }
{
    let mut list = InjectList {
        injections: Vec::new(alloc),
        looks: Vec::new(alloc),
    };
    let mut at: usize = 0;
    while at < tokens.len() {
        let end = line_end(tokens, at);
        read_line(&mut list, text, image, &tokens[at..end])?;
        at = end + 1;
    }
    Ok(list)
}
