// The parts of a line: names, numbers, and the words of an interrupt.

ghost use Rattle.std.specs.Prelude.{◌≡◌, ◌≤◌, ◌<◌, ◌^◌, ℕ, List, length};
ghost use Rattle.std.specs.Option.{option_map};
ghost use Rattle.text_lex.specs.Tokens.{bytes_of};
ghost use Rattle.inject_list.specs.Pieces.{piece_of, pieces};
ghost use Rattle.inject_list.specs.Entries.{word_of, words_of};
ghost use Rattle.inject_list.specs.Parts.{natural_in, kept, with_word, word_behind};

use text_lex::{Token, TokenKind};

/// The words of an interrupt: the first four, 0 where there are fewer, and how many there are.
#[derive(Clone, Copy)]
pub struct Words {
    pub first: [u32; 4],
    pub count: usize,
}

const NO_WORDS: Words = Words {
    first: [0; 4],
    count: 0,
};

/// The bytes of a token, as far as they are in the text.
pub fn spelling<'a>(text: &'a [u8], token: &Token) -> &'a [u8]
    ensures { result.now ≡ bytes_of text.now token.now }
{
    let start = text.len().min(token.start as usize);
    let behind = &text[start..];
    let len = behind.len().min(token.len as usize);
    &behind[..len]
}

/// The number that a token is, if it is one that is not negative.
pub fn natural(token: &Token) -> Option<u64>
    ensures { (text : List ℕ) → result ≡ natural_in (piece_of text token.now) }
{
    match token.kind {
        TokenKind::Number(value) if value >= 0 => Some(value.cast_unsigned()),
        _ => None,
    }
}

// A number modulo 2^32.
fn word_of(value: i64) -> u32
    ensures { result ≡ word_of value }
{
    (value.cast_unsigned() % 0x1_0000_0000) as u32
}

// The words with one more.
fn with_word(words: Words, word: u32) -> Words
    requires { words.count < 2 ^ 63 }
    ensures { result ≡ with_word words word }
{
    let mut first = words.first;
    if words.count < 4 {
        first[words.count] = word;
    }
    Words {
        first,
        count: words.count + 1,
    }
}

// The word that a number behind a comma is, or None where the two are something else.
fn word_behind(comma: &Token, number: &Token) -> Option<u32>
    ensures { (text : List ℕ) → result ≡ word_behind (piece_of text comma.now) (piece_of text number.now) }
{
    match (comma.kind, number.kind) {
        (TokenKind::Comma, TokenKind::Number(value)) => Some(word_of(value)),
        _ => None,
    }
}

/// The words that these tokens are, each behind a comma, or None where they are something else.
pub fn words_of(tokens: &[Token]) -> Option<Words>
    ensures { (text : List ℕ) → result ≡ option_map kept (words_of (pieces text tokens.now)) }
{
    let mut words = NO_WORDS;
    let mut rest = tokens;
    while let [comma, number, behind @ ..] = rest {
        words = with_word(words, word_behind(comma, number)?);
        rest = behind;
    }
    if rest.is_empty() { Some(words) } else { None }
}
