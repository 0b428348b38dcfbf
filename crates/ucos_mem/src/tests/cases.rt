// What the program answers on texts and binary images of every kind.

use super::{FIRST, FIRST_TO_8, Given, PING, WAITERS, answer};
use std::alloc::Global;
use std::test::Fail;
use ucos_top::Status;

// What `list` prints of the first text.
const FIRST_DISASSEMBLED: &str = ".code
code_word_at_address_0: addi x10, x0, 0
code_word_at_address_4: addi x17, x0, 1
code_word_at_address_8: ecall
code_word_at_address_12: addi x10, x0, 0
code_word_at_address_16: addi x17, x0, 7
code_word_at_address_20: ecall
code_word_at_address_24: jal x0, code_word_at_address_0
.ram
.sem s, 0
.task a, 0, 10, 0, 0, 1310720
.config isr_limit, 256
.config defer_size, 16
.config pool, 64
.config tmr_div, 10
.config round_robin, 1
.config quanta, 10
.config tick_prio, 1
.config tmr_prio, 62
.config tmr_sp, 1310720
.config insert, 0
";

const FIRST_LISTED: &str = "task 0 a 0 10 0 0 1310720
obj 0 s sem 0
word 0 00000513
word 4 00100893
word 8 00000073
word 12 00000513
word 16 00700893
word 20 00000073
word 24 fe9ff06f
";

// The first text's image, in words: the header, the task, the semaphore, and the code.
const FIRST_IMAGE: [u32; 41] = [
    0x4933_4355,
    2,
    7,
    0,
    0x0001_0001,
    0,
    256,
    16,
    64,
    10,
    1,
    10,
    1,
    62,
    0x14_0000,
    0,
    0x61,
    0,
    0,
    0,
    0,
    0x14_0000,
    10,
    0,
    0,
    0x73,
    0,
    0,
    0,
    1,
    0,
    0,
    0,
    0,
    0x513,
    0x10_0893,
    0x73,
    0x513,
    0x70_0893,
    0x73,
    0xfe9f_f06f,
];

// Objects of every kind, RAM, vectors and a setting.
const KINDS: &str = ".config pool, 3
.sem s, 4294967295
.queue q, 1024
.flags f, 0x10
.mutex m
.timer one, oneshot, 5, 0, none, 7
.timer per, periodic, 0, 6, cb, s
.vector 3, 2, cb, 0x13F000
.vector 1, 7, go, 0x140000
.ram
.word 0, 0xdeadbeef, 0, s
.task first_of_sixteen, go, 62, 65535, 1024, 0x13f000
.task b, cb, 1, 0, 0, 0x100000
.code
go: j go
cb: ret
";

const KINDS_LISTED: &str = "task 0 first_of_sixteen 0 62 65535 1024 1306624
task 1 b 4 1 0 0 1048576
obj 0 s sem 4294967295
obj 1 q queue 1024
obj 2 f flags 16
obj 3 m mutex
obj 4 one oneshot 5 0 none 7
obj 5 per periodic 0 6 4 0
vector 3 2 4 1306624
vector 1 7 0 1310720
word 0 0000006f
word 4 00008067
ram 1048580 deadbeef
";

// A sensor application: a controller takes what an interrupt posts, a logger reads its sum, and both
// take a mutex. The lines of its listing are those of an independent model.
const SENSOR: &str = ".code
rx: os OSQPost
ret
tk: os OSTimeTick
ret
ctl: li a0, inq
li a1, 0
li a2, 0
os OSQPend
mv s0, a1
li a0, bus
li a1, 0
li a2, 0
os OSMutexPend
la t0, total
lw t1, 0(t0)
add t1, t1, s0
sw t1, 0(t0)
li a0, bus
li a1, 0
os OSMutexPost
j ctl
lg: li a0, 5
li a1, 0
os OSTimeDly
li a0, bus
li a1, 0
li a2, 0
os OSMutexPend
la t0, total
lw t1, 0(t0)
la t0, shown
sw t1, 0(t0)
li a0, bus
li a1, 0
os OSMutexPost
j lg
bg: addi s0, s0, 1
j bg
.ram
total: .word 0
shown: .word 0
.queue inq, 32
.mutex bus
.task control, ctl, 10, 0, 0, 0x13C000
.task logger, lg, 20, 0, 0, 0x13D000
.task spin, bg, 30, 4, 0, 0x13E000
.vector 1, 1, tk, 0x13F000
.vector 2, 2, rx, 0x13F800
";

const SENSOR_LISTED: &str = "task 0 control 24 10 0 0 1294336
task 1 logger 108 20 0 0 1298432
task 2 spin 188 30 4 0 1302528
obj 0 inq queue 32
obj 1 bus mutex
vector 1 1 12 1306624
vector 2 2 0 1308672
word 0 00200893
word 4 00000073
word 8 00008067
word 12 00600893
word 16 00000073
word 20 00008067
word 24 00000513
word 28 00000593
word 32 00000613
word 36 00800893
word 40 00000073
word 44 00058413
word 48 00100513
word 52 00000593
word 56 00000613
word 60 00a00893
word 64 00000073
word 68 001002b7
word 72 00028293
word 76 0002a303
word 80 00830333
word 84 0062a023
word 88 00100513
word 92 00000593
word 96 00e00893
word 100 00000073
word 104 fb1ff06f
word 108 00500513
word 112 00000593
word 116 01900893
word 120 00000073
word 124 00100513
word 128 00000593
word 132 00000613
word 136 00a00893
word 140 00000073
word 144 001002b7
word 148 00028293
word 152 0002a303
word 156 001002b7
word 160 00428293
word 164 0062a023
word 168 00100513
word 172 00000593
word 176 00e00893
word 180 00000073
word 184 fb5ff06f
word 188 00140413
word 192 ffdff06f
";

// Division and remainder by 0 and of the least number by -1, and the upper word of a product.
const DIVISIONS: &str = ".code
go: lui t0, 0x80000
li t1, -1
la t2, 0x100000
div a0, t0, t1
sw a0, 0(t2)
rem a1, t0, x0
sw a1, 4(t2)
divu a2, t0, x0
sw a2, 8(t2)
mulhu a3, t1, t1
sw a3, 0(t2)
x: j x
.task a, go, 10, 0, 0, 0x140000
";

const DIVISIONS_TO_13: &str = "0 0 start a
5 5 st a 1048576 4 2147483648
7 7 st a 1048580 4 2147483648
9 9 st a 1048584 4 4294967295
11 11 st a 1048576 4 4294967294
13 13 end
";

// Texts, and the line that refuses each.
const REFUSED: [(&str, &str); 22] = [
    ("", "refused 0 I1\n"),
    ("UC3", "refused 1 A1\n"),
    ("UC3I", "refused 0 I16\n"),
    (".inject\n", "refused 0 I1\n"),
    (".sem s, 0\nnop\n", "refused 2 A8\n"),
    (".code\ngo: lw a0, 3000(x0)\n", "refused 2 A4\n"),
    (".code\ngo: li a0, 4294967296\n", "refused 2 L2\n"),
    (".code\ngo: addi a0, q0, 1\n", "refused 2 A3\n"),
    (".code\ngo: nop\ngo: nop\n", "refused 3 A5\n"),
    (
        ".code\ngo: beq x0, x0, far\n.space 4096\nfar: nop\n",
        "refused 2 A9\n",
    ),
    (".code\ngo: nop @\n", "refused 2 L1\n"),
    (".code\ngo: addi a0, a1\n", "refused 2 A2\n"),
    (".code\ngo: .space 3\n", "refused 2 A4\n"),
    (".code\ngo: j nowhere\n", "refused 2 A6\n"),
    (".code\ngo: nop\n.space go\n", "refused 3 A7\n"),
    (".code\ngo: beq x0, x0, s\n.sem s, 0\n", "refused 2 A7\n"),
    (".ram\nx: .space 4\n.code\nj x\n", "refused 4 A9\n"),
    (".code\n.space 65540\n", "refused 2 A10\n"),
    (".ram\n.space 262148\n", "refused 2 A11\n"),
    (".sem abcdefghijklmnopq, 0\n", "refused 1 A12\n"),
    (".config color, 1\n", "refused 1 A13\n"),
    (
        ".code\ngo: j go\n.task a, go, 0, 0, 0, 2\n.inject\nx\n",
        "refused 3 I2\n",
    ),
];

// What the first text's image prints to eight task steps with a look at its semaphore.
const FIRST_SEEN_TO_8: &str = "0 0 start a
1 1 look s fwd back
2 2 call a OSSemPost 0 0
4 2 ret a OSSemPost OS_ERR_NONE 1
7 5 call a OSSemPend 0 1 0
9 5 ret a OSSemPend OS_ERR_NONE 0
12 8 end
";

// A word of the first text's image by its place, what it is changed to, a text behind the image, and
// what a run to eight task steps prints.
const IMAGES: [(usize, u32, &str, &str); 15] = [
    (1, 2, "", FIRST_TO_8),
    (1, 2, "\n \t# no injections\n", FIRST_TO_8),
    (1, 2, "\n# one\n\ntask 1, 3\n", "refused 4 J2\n"),
    (1, 2, "\nlook 1, s\n", FIRST_SEEN_TO_8),
    (1, 2, "UC3I", "refused 1 J1\n"),
    (1, 3, "@", "refused 0 I16\n"),
    (1, 0x1_0002, "", "refused 0 I16\n"),
    (4, 0x1_003d, "", "refused 0 I16\n"),
    (31, 1, "", "refused 0 I16\n"),
    (16, 0x31, "@", "refused 0 I15\n"),
    (16, 0x62_0061, "", "refused 0 I15\n"),
    (16, 0x73, "", "refused 0 I15\n"),
    (29, 7, "", "refused 0 I15\n"),
    (22, 63, "\n@", "refused 2 L1\n"),
    (22, 63, "task 1, 3", "refused 0 I2\n"),
];

// The bytes of words, the lowest byte of each first.
fn bytes_of(alloc: Global, words: &[u32]) -> Result<Vec<u8>, Fail> {
    let mut bytes = Vec::new(alloc);
    for word in words {
        bytes.extend_from_slice(&word.to_le_bytes())?;
    }
    Ok(bytes)
}

// What the words write of an input.
fn written(alloc: Global, words: &str, input: &[u8]) -> Result<Vec<u8>, Fail> {
    Ok(answer(alloc, &Given::new(words, input))?.1)
}

#[test]
fn every_text_is_listed_and_run(rt: HostRuntime) -> Result<(), Fail> {
    for (words, text, want) in [
        ("list", FIRST, FIRST_LISTED),
        ("dis", FIRST, FIRST_DISASSEMBLED),
        ("list", KINDS, KINDS_LISTED),
        ("list", SENSOR, SENSOR_LISTED),
        ("run direct 13", DIVISIONS, DIVISIONS_TO_13),
    ] {
        let held = written(rt.alloc(), words, text.as_bytes())?;
        assert_eq!(rt; held.as_slice(), want.as_bytes(), "{words} on {text}");
    }
    Ok(())
}

// Every command refuses a case in the same line.
#[test]
fn what_is_no_case_is_refused_at_its_line(rt: HostRuntime) -> Result<(), Fail> {
    let alloc = rt.alloc();
    for words in ["run direct 1", "list", "image"] {
        for (text, line) in REFUSED {
            let (status, held) = answer(alloc, &Given::new(words, text.as_bytes()))?;
            assert_eq!(rt; status, Status::Refused, "{words} on {text}");
            assert_eq!(rt; held.as_slice(), line.as_bytes(), "{words} on {text}");
        }
    }
    let (status, held) = answer(alloc, &Given::new("run direct 1", &[255]))?;
    assert_eq!(rt; status, Status::Refused);
    assert_eq!(rt; held.as_slice(), b"refused 1 L1\n".as_slice());
    Ok(())
}

// So many declarations of a kind, each on a line.
fn declarations(alloc: Global, kind: &str, count: u32) -> Result<Vec<u8>, Fail> {
    let mut text = Vec::new(alloc);
    for number in 1..=count {
        let line = match kind {
            "task" => format!(in alloc; ".task t{number}, 0, 1, 0, 0, 0\n")?,
            "sem" => format!(in alloc; ".sem s{number}, 0\n")?,
            _ => format!(in alloc; ".vector {number}, 1, 0, 0\n")?,
        };
        text.extend_from_slice(line.as_bytes())?;
    }
    Ok(text)
}

// The declarations that are one more than there may be.
#[test]
fn a_declaration_too_many_is_refused_at_its_line(rt: HostRuntime) -> Result<(), Fail> {
    let alloc = rt.alloc();
    for (kind, count, want) in [
        ("task", 61, "refused 61 A14\n"),
        ("sem", 65, "refused 65 A14\n"),
        ("vector", 33, "refused 33 A14\n"),
        ("vector", 32, "refused 0 I1\n"),
    ] {
        let text = declarations(alloc, kind, count)?;
        let held = written(rt.alloc(), "list", &text)?;
        assert_eq!(rt; held.as_slice(), want.as_bytes(), "{count} of {kind}");
    }
    Ok(())
}

#[test]
fn images_run_or_are_refused(rt: HostRuntime) -> Result<(), Fail> {
    let alloc = rt.alloc();
    for (at, word, behind, want) in IMAGES {
        let mut words = FIRST_IMAGE;
        if let Some(place) = words.get_mut(at) {
            *place = word;
        }
        let mut input = bytes_of(alloc, &words)?;
        input.extend_from_slice(behind.as_bytes())?;
        let (_, held) = answer(alloc, &Given::new("run direct 8", &input))?;
        assert_eq!(rt; held.as_slice(), want.as_bytes(), "{at} {word} {behind}");
    }
    Ok(())
}

// The image of the first text has 164 bytes; it lacks one where it is cut, and has nine settings in
// version 1.
#[test]
fn the_first_image_has_its_layout(rt: HostRuntime) -> Result<(), Fail> {
    let alloc = rt.alloc();
    let image = bytes_of(alloc, &FIRST_IMAGE)?;
    let held = written(rt.alloc(), "image", FIRST.as_bytes())?;
    assert_eq!(rt; held.as_slice(), image.as_slice());
    let cut = image.get(..163).unwrap_or(&[]);
    let (status, held) = answer(alloc, &Given::new("run direct 8", cut))?;
    assert_eq!(rt; status, Status::Refused);
    assert_eq!(rt; held.as_slice(), b"refused 0 I16\n".as_slice());
    let mut first_version = Vec::new(alloc);
    for (i, word) in FIRST_IMAGE.iter().enumerate() {
        if i != 15 {
            first_version.push(if i == 1 { 1 } else { *word })?;
        }
    }
    let held = written(
        rt.alloc(),
        "run direct 8",
        &bytes_of(alloc, &first_version)?,
    )?;
    assert_eq!(rt; held.as_slice(), FIRST_TO_8.as_bytes());
    Ok(())
}

// The listing of a text assembles to the image of the text, and is its own listing.
#[test]
fn a_listing_assembles_back(rt: HostRuntime) -> Result<(), Fail> {
    for text in [FIRST, PING, WAITERS, KINDS, DIVISIONS, SENSOR] {
        let listing = written(rt.alloc(), "dis", text.as_bytes())?;
        for words in ["image", "dis"] {
            let of_text = written(rt.alloc(), words, text.as_bytes())?;
            let of_listing = written(rt.alloc(), words, &listing)?;
            assert_eq!(rt; of_listing, of_text, "{words} on {text}");
        }
    }
    Ok(())
}

// The image of a text runs and is listed as the text, and its own image is the same.
#[test]
fn an_image_is_as_good_as_its_text(rt: HostRuntime) -> Result<(), Fail> {
    for text in [FIRST, PING, WAITERS, KINDS, DIVISIONS] {
        let (status, image) = answer(rt.alloc(), &Given::new("image", text.as_bytes()))?;
        assert_eq!(rt; status, Status::Done, "{text}");
        for words in ["run direct 30", "list", "dis", "image"] {
            let of_text = written(rt.alloc(), words, text.as_bytes())?;
            let of_image = written(rt.alloc(), words, &image)?;
            assert_eq!(rt; of_image, of_text, "{words} on {text}");
        }
    }
    Ok(())
}
