// What the lines of both runs are made of.

ghost use Rattle.std.specs.Prelude.{◌≡◌, ◌≤◌, ◌++◌, ◌+◌, length, decimal};
ghost use Rattle.arrayvec.specs.ArrayVec.{array_vec_len};

use arrayvec::ArrayVec;
use itoa::Buffer;

/// A line while it is made.
pub type Line = ArrayVec<u8, 160>;

/// Appends these bytes.
pub fn push_bytes(line: &mut Line, bytes: &[u8])
    requires room { array_vec_len line.old + length bytes.now ≤ 160 }
    ensures items { line.new.items ≡ line.old.items ++ bytes.now }
    ensures len { array_vec_len line.new ≡ array_vec_len line.old + length bytes.now }
{
    line.try_extend_from_slice(bytes).unwrap();
}

/// Appends a number, which has at most 20 digits.
pub fn push_count(line: &mut Line, count: u64)
    requires room { array_vec_len line.old + 20 ≤ 160 }
    ensures items { line.new.items ≡ line.old.items ++ decimal count }
    ensures len { array_vec_len line.new ≤ array_vec_len line.old + 20 }
{
    let mut buffer = Buffer::new();
    push_bytes(line, buffer.format(count).as_bytes());
}
