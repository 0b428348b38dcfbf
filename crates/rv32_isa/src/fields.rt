// The bits of a word.

ghost use Rattle.std.specs.Prelude.{◌≡◌, ◌<◌, ◌*◌, ◌/◌, ◌%◌, ◌^◌};
ghost use Rattle.rv32_isa.specs.Formats.{field};

// So many bits of a word, from bit `low` on.
pub fn bits(word: u32, low: u32, width: u32) -> u32
    requires inside { low < 32 }
    requires narrow { width < 32 }
    ensures { result ≡ field word low width }
{
    (word >> low) % (1 << width)
}
