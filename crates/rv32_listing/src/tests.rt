// Lines of code words, and the listing of a small image.

use crate::{line_of_word, write_listing};
use app_image::{check, read_image};
use arrayvec::ArrayVec;
use outside::MemSink;
use std::test::Fail;

// An address, the word there, how many code words there are, and the line.
const LINES: [(u32, u32, u32, &[u8]); 20] = [
    (
        0,
        0x0000_0513,
        7,
        b"code_word_at_address_0: addi x10, x0, 0\n",
    ),
    (
        24,
        0xfe9f_f06f,
        7,
        b"code_word_at_address_24: jal x0, code_word_at_address_0\n",
    ),
    (
        8,
        0x8000_0537,
        3,
        b"code_word_at_address_8: lui x10, 524288\n",
    ),
    (
        0,
        0xffff_f517,
        1,
        b"code_word_at_address_0: auipc x10, 1048575\n",
    ),
    (
        4,
        0x4021_5293,
        2,
        b"code_word_at_address_4: srai x5, x2, 2\n",
    ),
    (0, 0x0ff0_000f, 1, b"code_word_at_address_0: fence\n"),
    (
        0,
        0x0330_000f,
        1,
        b"code_word_at_address_0: .word 0x0330000f\n",
    ),
    (0, 0x0010_0073, 1, b"code_word_at_address_0: ebreak\n"),
    (0, 0x0041_2083, 1, b"code_word_at_address_0: lw x1, 4(x2)\n"),
    (
        0,
        0xfe11_2e23,
        1,
        b"code_word_at_address_0: sw x1, -4(x2)\n",
    ),
    (
        0,
        0x8000_00e7,
        1,
        b"code_word_at_address_0: jalr x1, -2048(x0)\n",
    ),
    (
        0,
        0x02a5_d5b3,
        1,
        b"code_word_at_address_0: divu x11, x11, x10\n",
    ),
    (
        0,
        0x1234_5678,
        1,
        b"code_word_at_address_0: .word 0x12345678\n",
    ),
    (
        4,
        0xfe00_0ee3,
        2,
        b"code_word_at_address_4: beq x0, x0, code_word_at_address_0\n",
    ),
    // A branch to before the code, a jump to the middle of a word, and one behind the last word.
    (
        4,
        0xfe20_8ce3,
        2,
        b"code_word_at_address_4: .word 0xfe208ce3\n",
    ),
    (
        0,
        0x0020_006f,
        9,
        b"code_word_at_address_0: .word 0x0020006f\n",
    ),
    (
        4,
        0x0040_006f,
        2,
        b"code_word_at_address_4: .word 0x0040006f\n",
    ),
    (
        0,
        0x0000_006f,
        1,
        b"code_word_at_address_0: jal x0, code_word_at_address_0\n",
    ),
    (
        65532,
        0xffdf_f06f,
        16384,
        b"code_word_at_address_65532: jal x0, code_word_at_address_65528\n",
    ),
    (
        0xffff_fffc,
        0xfe1f_fae3,
        0x4000_0000,
        b"code_word_at_address_4294967292: bgeu x31, x1, code_word_at_address_4294967280\n",
    ),
];

#[test]
fn each_word_has_its_line(rt: HostRuntime) {
    for (address, word, words, wanted) in LINES {
        let mut line = ArrayVec::new();
        if u64::from(address) < 4 * u64::from(words) {
            line_of_word(address, word, words, &mut line);
        }
        assert_eq!(rt; line.as_slice(), wanted, "at {address}");
    }
}

// A binary image: the header and the settings, a task, a semaphore and a timer, a vector, three words of code, and two of RAM.
const IMAGE: &[u8] = b"UC3I\x02\0\0\0\x03\0\0\0\x02\0\0\0\x01\0\x02\0\x01\0\0\0\
\0\x01\0\0\x10\0\0\0\x40\0\0\0\x0a\0\0\0\x01\0\0\0\x0a\0\0\0\x01\0\0\0\x3e\0\0\0\0\0\x14\0\x01\0\0\0\
a\0\0\0\0\0\0\0\0\0\0\0\0\0\0\0\x04\0\0\0\0\0\x14\0\x0a\0\0\0\x03\0\0\0\x05\0\0\0\
count\0\0\0\0\0\0\0\0\0\0\0\x01\0\0\0\xff\xff\xff\xff\0\0\0\0\0\0\0\0\0\0\0\0\
tm\0\0\0\0\0\0\0\0\0\0\0\0\0\0\x06\0\0\0\x01\0\0\0\x02\0\0\0\xff\xff\xff\xff\x07\0\0\0\
\x02\0\0\0\x07\0\0\0\x08\0\0\0\x04\0\x10\0\
\x0f\0\0\x33\x13\x05\xf0\xff\x6f\xf0\xdf\xff\
\0\0\0\0\xef\xbe\xad\xde";

const LISTING: &[u8] = b".code
code_word_at_address_0: .word 0x3300000f
code_word_at_address_4: addi x10, x0, -1
code_word_at_address_8: jal x0, code_word_at_address_4
.ram
.word 0x00000000
.word 0xdeadbeef
.sem count, 4294967295
.timer tm, periodic, 1, 2, none, 7
.task a, 4, 10, 3, 5, 1310720
.vector 2, 7, 8, 1048580
.config isr_limit, 256
.config defer_size, 16
.config pool, 64
.config tmr_div, 10
.config round_robin, 1
.config quanta, 10
.config tick_prio, 1
.config tmr_prio, 62
.config tmr_sp, 1310720
.config insert, 1
";

#[test]
fn an_image_is_listed_with_all_that_it_has(rt: HostRuntime) -> Result<(), Fail> {
    let alloc = rt.alloc();
    let Ok((raw, _)) = read_image(alloc, IMAGE) else {
        return Err(Fail::from("no image"));
    };
    let Ok(image) = check(raw) else {
        return Err(Fail::from("refused"));
    };
    let Ok(mut sink) = MemSink::new(alloc, 4096, Vec::new(alloc)) else {
        return Err(Fail::from("no memory"));
    };
    assert!(rt; write_listing(&image, &mut sink).is_ok());
    assert_eq!(rt; sink.bytes(), LISTING);
    Ok(())
}
