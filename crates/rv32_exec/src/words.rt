// The operations on words.

ghost use Rattle.std.specs.Prelude.{◌≡◌, ◌<◌, ◌≤◌, ◌+◌, ◌-◌, ◌*◌, ◌/◌, ◌%◌, ◌^◌};
ghost use Rattle.rv32_exec.specs.Words.{extended as extended_of, long as long_of, less_signed as is_less_signed, shifted_left as left, shifted_right_signed as right_signed, high_product as high, quotient as quotient_of, remainder as remainder_of, quotient_signed as signed_quotient, remainder_signed as signed_remainder};

// a < b as signed numbers.
pub fn less_signed(a: u32, b: u32) -> bool
    ensures { result ≡ is_less_signed a b }
{
    a.cast_signed() < b.cast_signed()
}

// A number of so many bits with its sign copied up.
pub fn extended(bits: u32, number: u32) -> u32
    requires some { 0 < bits }
    requires narrow { bits < 32 }
    requires fits { number < 2 ^ bits }
    ensures { result ≡ extended_of bits number }
{
    if number < 1 << (bits - 1) {
        number
    } else {
        number.wrapping_sub(1 << bits)
    }
}

// A word with its sign copied up to 64 bits.
pub fn long(a: u32) -> u64
    ensures { result ≡ long_of a }
{
    i64::from(a.cast_signed()).cast_unsigned()
}

// The low bytes of a word.
pub fn low_bytes(word: u32, width: u8) -> u32
    requires { width ≤ 4 }
    ensures { result ≡ word % 2 ^ (8 * width) }
{
    (u64::from(word) % (1 << (8 * u32::from(width)))) as u32
}

pub fn shifted_left(a: u32, b: u32) -> u32
    ensures { result ≡ left a b }
{
    a << (b % 32)
}

pub fn shifted_right_signed(a: u32, b: u32) -> u32
    ensures { result ≡ right_signed a b }
{
    ((long(a) >> (b % 32)) % (1 << 32)) as u32
}

// The high word of a product modulo 2^64.
pub fn high_product(a: u64, b: u64) -> u32
    ensures { result ≡ high a b }
{
    (a.wrapping_mul(b) >> 32) as u32
}

pub fn quotient(a: u32, b: u32) -> u32
    ensures { result ≡ quotient_of a b }
{
    a.checked_div(b).unwrap_or(u32::MAX)
}

pub fn remainder(a: u32, b: u32) -> u32
    ensures { result ≡ remainder_of a b }
{
    a.checked_rem(b).unwrap_or(a)
}

pub fn quotient_signed(a: u32, b: u32) -> u32
    ensures { result ≡ signed_quotient a b }
{
    if b == 0 {
        return u32::MAX;
    }
    a.cast_signed()
        .wrapping_div(b.cast_signed())
        .cast_unsigned()
}

pub fn remainder_signed(a: u32, b: u32) -> u32
    ensures { result ≡ signed_remainder a b }
{
    if b == 0 {
        return a;
    }
    a.cast_signed()
        .wrapping_rem(b.cast_signed())
        .cast_unsigned()
}
