// The segments that are loaded, and how far they reach.

ghost use Rattle.std.specs.Prelude.{◌≡◌, ◌≤◌, fold, max};
ghost use Rattle.std.specs.List.{list_all};
ghost use Rattle.elf_reader.specs.Memory.{is_loaded, is_in_code, is_in_ram, is_placed, code_end, ram_end, words_for};

use crate::tables::Segment;
use std::cmp::max;

/// Where RAM begins.
pub const RAM: usize = 1_048_576;

/// Whether a segment is loaded.
pub fn is_loaded(segment: &Segment) -> bool
    ensures { result ≡ is_loaded segment.now }
{
    segment.kind == 1 && 0 < segment.memsz
}

fn is_in_code(segment: &Segment) -> bool
    ensures { result ≡ is_in_code segment.now }
{
    segment.vaddr as usize + segment.memsz as usize <= 65_536
}

fn is_in_ram(segment: &Segment) -> bool
    ensures { result ≡ is_in_ram segment.now }
{
    1_048_576 <= segment.vaddr && segment.vaddr as usize + segment.memsz as usize <= 1_310_720
}

fn is_placed(segment: &Segment) -> bool
    ensures { result ≡ is_placed segment.now }
{
    !is_loaded(segment)
        || (segment.filesz <= segment.memsz && (is_in_code(segment) || is_in_ram(segment)))
}

/// Whether each segment that is loaded has its place.
pub fn are_placed(segments: &[Segment]) -> bool
    ensures { result ≡ list_all is_placed segments.now }
{
    for segment in segments {
        if !is_placed(segment) {
            return false;
        }
    }
    true
}

fn code_end(segment: &Segment) -> usize
    ensures end { result ≡ code_end segment.now }
    ensures within { result ≤ 65536 }
{
    if is_loaded(segment) && is_in_code(segment) {
        segment.vaddr as usize + segment.memsz as usize
    } else {
        0
    }
}

fn ram_end(segment: &Segment) -> usize
    ensures end { result ≡ ram_end segment.now }
    ensures within { result ≤ 262144 }
{
    if is_loaded(segment) && is_in_ram(segment) {
        segment.vaddr as usize + segment.memsz as usize - RAM
    } else {
        0
    }
}

/// How many words of code the segments reach to.
pub fn code_count(segments: &[Segment]) -> usize
    ensures count { result ≡ words_for (fold (λ e s. max e (code_end s)) 0 segments.now) }
    ensures within { result ≤ 16384 }
{
    let mut end = 0;
    for segment in segments {
        end = max(end, code_end(segment));
    }
    (end + 3) / 4
}

/// How many words of RAM the segments reach to.
pub fn ram_count(segments: &[Segment]) -> usize
    ensures count { result ≡ words_for (fold (λ e s. max e (ram_end s)) 0 segments.now) }
    ensures within { result ≤ 65536 }
{
    let mut end = 0;
    for segment in segments {
        end = max(end, ram_end(segment));
    }
    (end + 3) / 4
}
