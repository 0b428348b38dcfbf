// A line while it is made: words, each behind a blank.

ghost use Rattle.std.specs.Prelude.{◌≡◌, ◌++◌, ◌+◌, ◌≤◌, [], ◌∷◌, length, map, take, decimal};
ghost use Rattle.arrayvec.specs.ArrayVec.{array_vec_len};
ghost use Rattle.machine_model.specs.Text.{spaced};

use arrayvec::ArrayVec;
use itoa::Buffer;

/// The room for what one event prints: its own line and its switch line.
pub type Line = ArrayVec<u8, 512>;

/// Appends these bytes.
pub fn push_bytes(line: &mut Line, bytes: &[u8])
    requires room { array_vec_len line.old + length bytes.now ≤ 512 }
    ensures items { line.new.items ≡ line.old.items ++ bytes.now }
    ensures len { array_vec_len line.new ≡ array_vec_len line.old + length bytes.now }
{
    line.try_extend_from_slice(bytes).unwrap();
}

/// Appends a blank and a word.
pub fn push_word(line: &mut Line, word: &[u8])
    requires room { array_vec_len line.old + length word.now + 1 ≤ 512 }
    ensures items { line.new.items ≡ line.old.items ++ 32 ∷ word.now }
    ensures len { array_vec_len line.new ≡ array_vec_len line.old + length word.now + 1 }
{
    line.push(b' ');
    push_bytes(line, word);
}

/// Appends a number, which has at most 10 digits.
#[tactic(auto, using(std::proofs::lemmas::Fmt::decimal_digit))]
pub fn push_digits(line: &mut Line, number: u32)
    requires room { array_vec_len line.old + 10 ≤ 512 }
    ensures items { line.new.items ≡ line.old.items ++ decimal number }
    ensures len { array_vec_len line.new ≤ array_vec_len line.old + 10 }
{
    if number < 10 {
        line.push(b'0' + number as u8);
        return;
    }
    let mut buffer = Buffer::new();
    push_bytes(line, buffer.format(number).as_bytes());
}

/// Appends a blank and a number.
pub fn push_number(line: &mut Line, number: u32)
    requires room { array_vec_len line.old + 11 ≤ 512 }
    ensures items { line.new.items ≡ line.old.items ++ 32 ∷ decimal number }
    ensures len { array_vec_len line.new ≤ array_vec_len line.old + 11 }
{
    line.push(b' ');
    push_digits(line, number);
}

/// Appends a count of raw steps, which has at most 20 digits.
pub fn push_count(line: &mut Line, count: u64)
    requires room { array_vec_len line.old + 20 ≤ 512 }
    ensures items { line.new.items ≡ line.old.items ++ decimal count }
    ensures len { array_vec_len line.new ≤ array_vec_len line.old + 20 }
{
    let mut buffer = Buffer::new();
    push_bytes(line, buffer.format(count).as_bytes());
}

/// Appends these numbers.
pub fn push_numbers(line: &mut Line, numbers: &[u32])
    requires few { length numbers.now ≤ 4 }
    requires room { array_vec_len line.old ≤ 200 }
    ensures items { line.new.items ≡ line.old.items ++ spaced (map decimal numbers.now) }
    ensures len { array_vec_len line.new ≤ array_vec_len line.old + 44 }
{
    for number in numbers {
        push_number(line, *number);
    }
}

/// The first elements of an array, or all where it has fewer.
pub fn first<T>(elements: &[T], count: u8) -> &[T]
    ensures elements { result.now ≡ take count elements.now }
    ensures fewer { length result.now ≤ length elements.now }
{
    match elements.get(..usize::from(count)) {
        Some(front) => front,
        None => elements,
    }
}
