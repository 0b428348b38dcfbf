// The RAM.

ghost use Rattle.std.specs.Prelude.{true, drop, replicate, ◌++◌, ◌≡◌, ◌≤◌, ◌<◌, ◌+◌, ◌-◌, ◌*◌, ◌/◌, ◌%◌, ◌^◌, length, IfOk};
ghost use Rattle.rv32_isa.specs.Formats.{field};
ghost use Rattle.rv32_exec.specs.Memory.{ram_start, ram_end, ram_words, filled, allowed, word_at, loaded, replaced, with_word, stored, IsMemory, IsWidth};

use std::alloc::Global;
use std::marker::Model;

const RAM_START: u32 = 0x0010_0000;

const RAM_END: u32 = 0x0014_0000;

const RAM_WORDS: usize = 65536;

/// There was not enough memory for the RAM or the code.
#[derive(Debug, Clone, Copy, PartialEq, Eq)]
pub struct NoMemory;

/// The RAM: 262,144 bytes from the address 0x100000 on, in words, little-endian.
#[derive(Drop)]
pub struct Ram {
    words: Vec<u32>,
}

impl Model for Ram {
    ghost use Rattle.std.specs.Prelude.{ℕ, List};
    ghost use Rattle.rv32_exec.specs.Memory.{IsMemory};

    ghost Value = { List ℕ };

    ghost view = { λ r. r.words.items };

    ghost invariant = { λ r. IsMemory r.words.items };
}

impl Ram {
    /// The initial words, at most 65,536, and zeros after them.
    pub fn new(alloc: Global, initial: &[u32]) -> Result<Ram, NoMemory>
        requires { length initial.now ≤ ram_words }
        ensures { IfOk result (λ ram. ram ≡ filled initial.now) }
    {
        let words = zero_filled(alloc, initial, RAM_WORDS)?;
        Ok(Ram { words })
    }

    /// The word at an address, which is a multiple of 4 in RAM.
    pub fn word(&self, addr: u32) -> u32
        requires aligned { addr % 4 ≡ 0 }
        requires low { ram_start ≤ addr }
        requires high { addr < ram_end }
        ensures { result ≡ word_at self.now addr }
    {
        self.words[index_of(addr)]
    }

    /// Writes the word at an address, which is a multiple of 4 in RAM.
    pub fn set_word(&mut self, addr: u32, v: u32)
        requires aligned { addr % 4 ≡ 0 }
        requires low { ram_start ≤ addr }
        requires high { addr < ram_end }
        ensures { self.new ≡ with_word self.old addr v }
    {
        self.words[index_of(addr)] = v;
    }

    // What the RAM always is; nothing runs.
    pub(crate) fn words(&self)
        ensures { IsMemory self.now }
    {
        let _ = &self.words;
    }

    // The number in so many bytes from an address on.
    pub(crate) fn load(&self, addr: u32, width: u32) -> u32
        requires allowed { allowed addr width ≡ true }
        requires width { IsWidth width }
        ensures value { result ≡ loaded self.now addr width }
        ensures fits { result < 2 ^ (8 * width) }
    {
        let word = self.words[index_of(addr)];
        ((u64::from(word) >> (8 * (addr % 4))) % (1 << (8 * width))) as u32
    }

    // Writes a number into so many bytes from an address on.
    pub(crate) fn store(&mut self, addr: u32, width: u8, value: u32)
        requires allowed { allowed addr width ≡ true }
        requires width { IsWidth width }
        requires fits { value < 2 ^ (8 * width) }
        ensures { self.new ≡ stored self.old addr width value }
    {
        let place = index_of(addr);
        self.words[place] = replaced_in(self.words[place], addr % 4, u32::from(width), value);
    }
}

// Writes the initial words over the first ones.
fn overwrite(words: &mut [u32], initial: &[u32])
    requires { length initial.now ≤ length words.old }
    ensures { words.new ≡ initial.now ++ drop (length initial.now) words.old }
{
    words[..initial.len()].copy_from_slice(initial);
}

// So many words: the initial ones, and zeros after them.
fn zero_filled(alloc: Global, initial: &[u32], count: usize) -> Result<Vec<u32>, NoMemory>
    requires { length initial.now ≤ count }
    ensures items { IfOk result (λ words. words.items ≡ initial.now ++ replicate (count - length initial.now) 0) }
    ensures len { IfOk result (λ words. length words.items ≡ count) }
{
    let Ok(mut words) = vec![in alloc; 0; count] else {
        return Err(NoMemory);
    };
    overwrite(&mut words, initial);
    Ok(words)
}

// The place of the word that holds an address.
fn index_of(addr: u32) -> usize
    requires low { ram_start ≤ addr }
    requires high { addr < ram_end }
    ensures { result ≡ (addr - ram_start) / 4 }
{
    ((addr - RAM_START) / 4) as usize
}

// So many bytes may be read or written at the address.
pub fn allows(addr: u32, width: u32) -> bool
    requires { IsWidth width }
    ensures { result ≡ allowed addr width }
{
    addr.is_multiple_of(width) && RAM_START <= addr && addr <= RAM_END - width
}

// A word with so many bytes, from the byte `place` on, replaced by a number.
fn replaced_in(word: u32, place: u32, width: u32, value: u32) -> u32
    requires width { IsWidth width }
    requires inside { place + width ≤ 4 }
    requires fits { value < 2 ^ (8 * width) }
    ensures { result ≡ replaced word (8 * place) (8 * width) value }
{
    let (word, value) = (u64::from(word), u64::from(value));
    let old = (word >> (8 * place)) % (1 << (8 * width));
    (word - (old << (8 * place)) + (value << (8 * place))) as u32
}
