// The forms of a line, and what it gives.

ghost use Rattle.std.specs.Prelude.{List, ℕ};
ghost use Rattle.inject_list.specs.Pieces.{pieces};
ghost use Rattle.inject_list.specs.Entries as entries;
ghost use Rattle.inject_list.specs.Given.{moment_at, IsGiven};

use crate::InjectCause;
use crate::entries::{Given, When, interrupt, look, object_seen, priority_seen};
use crate::words::{natural, spelling, words_of};
use app_image::Image;
use text_lex::{Token, TokenKind};

// What a line with this moment gives whose tokens behind it are a vector and words.
fn interrupt_line(
    image: &Image,
    before: usize,
    when: When,
    behind: &[Token],
) -> Result<Given, InjectCause>
    ensures { (text : List ℕ) → IsGiven result image.now before (entries.interrupt_form (moment_at when) (pieces text behind.now)) }
{
    let [vector, words @ ..] = behind else {
        return Err(InjectCause::WrongForm);
    };
    let Some(vector) = natural(vector) else {
        return Err(InjectCause::WrongForm);
    };
    let Some(words) = words_of(words) else {
        return Err(InjectCause::WrongForm);
    };
    interrupt(image, before, when, vector, words)
}

// What a line with this moment gives whose one token behind it names a list.
fn look_line(
    text: &[u8],
    image: &Image,
    before: usize,
    at: u64,
    behind: &[Token],
) -> Result<Given, InjectCause>
    ensures { IsGiven result image.now before (entries.look_form at (pieces text.now behind.now)) }
{
    let [target] = behind else {
        return Err(InjectCause::WrongForm);
    };
    if let TokenKind::Name = target.kind {
        return look(before, at, object_seen(image, spelling(text, target)));
    }
    match natural(target) {
        Some(prio) => look(before, at, priority_seen(prio)),
        None => Err(InjectCause::WrongForm),
    }
}

// What a line gives that begins with this word, a moment and a comma.
fn line_with(
    text: &[u8],
    image: &Image,
    before: usize,
    word: &[u8],
    at: u64,
    behind: &[Token],
) -> Result<Given, InjectCause>
    ensures { IsGiven result image.now before (entries.form word.now at (pieces text.now behind.now)) }
{
    if word == b"task".as_slice() {
        return interrupt_line(image, before, When::Task(at), behind);
    }
    if word == b"step".as_slice() {
        return interrupt_line(image, before, When::Step(at), behind);
    }
    if word == b"look".as_slice() {
        return look_line(text, image, before, at, behind);
    }
    Err(InjectCause::WrongForm)
}

/// What a line gives behind so many entries, or the least cause that it is refused with.
pub fn given_by(
    text: &[u8],
    image: &Image,
    before: usize,
    line: &[Token],
) -> Result<Given, InjectCause>
    ensures { IsGiven result image.now before (entries.entry_of (pieces text.now line.now)) }
{
    let [word, at, comma, behind @ ..] = line else {
        return Err(InjectCause::WrongForm);
    };
    let (TokenKind::Name, TokenKind::Comma) = (word.kind, comma.kind) else {
        return Err(InjectCause::WrongForm);
    };
    let Some(at) = natural(at) else {
        return Err(InjectCause::WrongForm);
    };
    line_with(text, image, before, spelling(text, word), at, behind)
}
