ghost use Rattle.std.specs.Prelude.{◌≡◌, ◌≤◌, ◌<◌, IfSome};
ghost use Rattle.program_model.specs.Words.{command_of, count_word, method_word, number_word, seed_word, size_word, texts};
ghost use Rattle.program_model.specs.Limits.{IsWithinLimit, most_lines, most_task_steps};

use crate::{COUNT_LIMIT, SIZE_LIMIT};
use kern_base::Method;
use program_model::{CaseCommand, Command};

/// The command that the words are, if they are one: `run direct N`, `run deferred N`, `both N`, `list`,
/// `dis`, `image`, `gen SEED SIZE` or `soak SEED SIZE`.
pub fn command_of(words: &[String]) -> Option<Command>
    ensures value { result ≡ command_of (texts words.now) }
    ensures within { IfSome result IsWithinLimit }
{
    match words {
        [first] if first.as_str() == "list" => Some(Command::OnCase(CaseCommand::Listing)),
        [first] if first.as_str() == "dis" => Some(Command::OnCase(CaseCommand::Disassembly)),
        [first] if first.as_str() == "image" => Some(Command::OnCase(CaseCommand::Binary)),
        [first, count] if first.as_str() == "both" => {
            let count = count_of(count.as_bytes())?;
            Some(Command::OnCase(CaseCommand::Both(count)))
        }
        [first, method, count] if first.as_str() == "run" => {
            let method = method_of(method.as_str())?;
            let count = count_of(count.as_bytes())?;
            Some(Command::OnCase(CaseCommand::Run(method, count)))
        }
        [first, seed, size] if first.as_str() == "gen" => {
            let seed = seed_of(seed.as_bytes())?;
            Some(Command::Generate(seed, size_of(size.as_bytes())?))
        }
        [first, seed, size] if first.as_str() == "soak" => {
            let seed = seed_of(seed.as_bytes())?;
            Some(Command::Soak(seed, size_of(size.as_bytes())?))
        }
        _ => None,
    }
}

// The posting method that a word names.
fn method_of(word: &str) -> Option<Method>
    ensures { result ≡ method_word word.now }
{
    match word {
        "direct" => Some(Method::Direct),
        "deferred" => Some(Method::Deferred),
        _ => None,
    }
}

// A number of task steps: one to seven decimal digits, of a value of at most `COUNT_LIMIT`.
fn count_of(word: &[u8]) -> Option<u32>
    ensures value { result ≡ count_word word.now }
    ensures within { IfSome result (λ count. count ≤ most_task_steps) }
{
    let count = number_of(word, 7, 0, u64::from(COUNT_LIMIT))?;
    Some(count as u32)
}

// A seed: one to twenty decimal digits.
fn seed_of(word: &[u8]) -> Option<u64>
    ensures { result ≡ seed_word word.now }
{
    number_of(word, 20, 0, u64::MAX)
}

// A size: one to five decimal digits, of a value of 1 to `SIZE_LIMIT`.
fn size_of(word: &[u8]) -> Option<u32>
    ensures value { result ≡ size_word word.now }
    ensures within { IfSome result (λ size. size ≤ most_lines) }
{
    let size = number_of(word, 5, 1, u64::from(SIZE_LIMIT))?;
    Some(size as u32)
}

// One to so many decimal digits, of a value from a least to a greatest one.
fn number_of(word: &[u8], most: usize, least: u64, greatest: u64) -> Option<u64>
    requires { most ≤ 20 }
    ensures value { result ≡ number_word most least greatest word.now }
    ensures within { IfSome result (λ number. number ≤ greatest) }
{
    if word.is_empty() || word.len() > most {
        return None;
    }
    let mut value: u128 = 0;
    for digit in word {
        if !digit.is_ascii_digit() {
            return None;
        }
        value = value * 10 + u128::from(*digit - b'0');
    }
    if value < u128::from(least) || value > u128::from(greatest) {
        return None;
    }
    Some(value as u64)
}
