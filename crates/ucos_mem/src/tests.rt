mod both;
mod cases;
mod deferred;
mod ends;
mod executables;
mod generated;
mod interrupts;
mod looks;
mod objects;
mod suspension;
mod time;
mod timers;

use outside::{MemSink, MemSource};
use std::alloc::{AllocError, Global};
use std::test::Fail;
use ucos_top::{INPUT_LIMIT, Status, ucos_main};

// One task, one semaphore.
const FIRST: &str = ".code
go: li a0, s
os OSSemPost
li a0, s
os OSSemPend
j go
.sem s, 0
.task a, go, 10, 0, 0, 0x140000
";

// What its run to eight task steps prints.
const FIRST_TO_8: &str = "0 0 start a
2 2 call a OSSemPost 0 0
4 2 ret a OSSemPost OS_ERR_NONE 1
7 5 call a OSSemPend 0 1 0
9 5 ret a OSSemPend OS_ERR_NONE 0
12 8 end
";

// Two tasks that wake each other over two semaphores.
const PING: &str = ".sem x, 0
.sem y, 0
.task one, ping, 10, 0, 0, 0x140000
.task two, pong, 9, 0, 0, 0x13e000
.code
ping: li a0, y
li a1, 0
os OSSemPost
li a0, x
li a1, 0
os OSSemPend
j ping
pong: li a0, y
li a1, 0
os OSSemPend
li a0, x
li a1, 0
os OSSemPost
j pong
";

const PING_TO_30: &str = "0 0 start two
3 3 call two OSSemPend 1 0 0
9 3 wait two OSSemPend
9 3 sw two one
13 7 call one OSSemPost 1 0
20 7 ret one OSSemPost OS_ERR_NONE 0
20 7 sw one two
21 8 ret two OSSemPend OS_ERR_NONE 0
25 12 call two OSSemPost 0 0
27 12 ret two OSSemPost OS_ERR_NONE 1
32 17 call two OSSemPend 1 0 0
38 17 wait two OSSemPend
38 17 sw two one
42 21 call one OSSemPend 0 0 0
44 21 ret one OSSemPend OS_ERR_NONE 0
49 26 call one OSSemPost 1 0
56 26 ret one OSSemPost OS_ERR_NONE 0
56 26 sw one two
57 27 ret two OSSemPend OS_ERR_NONE 0
60 30 end
";

// Four waiters of three priorities; the fifth task posts to the first, and then to all.
const WAITERS: &str = ".code
w: li a0, s
li a1, 0
os OSSemPend
j w
p: li a0, s
li a1, 0
os OSSemPost
li a0, s
li a1, 2
os OSSemPost
j p
.sem s, 0
.task a, w, 5, 0, 0, 0x140000
.task b, w, 7, 0, 0, 0x13f000
.task c, w, 5, 0, 0, 0x13e000
.task d, w, 6, 0, 0, 0x13d000
.task e, p, 20, 0, 0, 0x13c000
";

const WAITERS_TO_48: &str = "0 0 start a
3 3 call a OSSemPend 0 0 0
9 3 wait a OSSemPend
9 3 sw a c
13 7 call c OSSemPend 0 0 0
20 7 wait c OSSemPend
20 7 sw c d
24 11 call d OSSemPend 0 0 0
32 11 wait d OSSemPend
32 11 sw d b
36 15 call b OSSemPend 0 0 0
45 15 wait b OSSemPend
45 15 sw b e
49 19 call e OSSemPost 0 0
56 19 ret e OSSemPost OS_ERR_NONE 0
56 19 sw e a
57 20 ret a OSSemPend OS_ERR_NONE 0
62 25 call a OSSemPend 0 0 0
69 25 wait a OSSemPend
69 25 sw a e
73 29 call e OSSemPost 0 2
95 29 ret e OSSemPost OS_ERR_NONE 0
95 29 sw e a
96 30 ret a OSSemPend OS_ERR_NONE 0
101 35 call a OSSemPend 0 0 0
107 35 wait a OSSemPend
107 35 sw a c
108 36 ret c OSSemPend OS_ERR_NONE 0
113 41 call c OSSemPend 0 0 0
120 41 wait c OSSemPend
120 41 sw c d
121 42 ret d OSSemPend OS_ERR_NONE 0
126 47 call d OSSemPend 0 0 0
134 47 wait d OSSemPend
134 47 sw d b
135 48 end
";

// A pend that does not block, and calls with bad options and a bad object.
const REFUSALS: &str = ".code
go: li a0, s
li a1, 0
li a2, 1
os OSSemPend
li a0, s
li a1, 0
os OSSemPost
li a0, s
li a1, 1
os OSSemPost
li a0, 1
li a1, 0
os OSSemPost
li a0, s
li a1, 0
li a2, 2
os OSSemPend
j go
.sem s, 0
.task a, go, 10, 0, 0, 0x140000
";

const REFUSALS_TO_22: &str = "0 0 start a
4 4 call a OSSemPend 0 0 1
6 4 ret a OSSemPend OS_ERR_PEND_WOULD_BLOCK 0
10 8 call a OSSemPost 0 0
12 8 ret a OSSemPost OS_ERR_NONE 1
16 12 call a OSSemPost 0 1
18 12 ret a OSSemPost OS_ERR_OPT_INVALID 0
22 16 call a OSSemPost 1 0
24 16 ret a OSSemPost OS_ERR_OBJ_TYPE 0
29 21 call a OSSemPend 0 0 2
31 21 ret a OSSemPend OS_ERR_OPT_INVALID 0
32 22 end
";

// A semaphore at its highest count.
const FULL: &str = ".code
go: li a0, s
li a1, 0
os OSSemPost
j go
.sem s, 4294967295
.task a, go, 10, 0, 0, 0x140000
";

const FULL_TO_9: &str = "0 0 start a
3 3 call a OSSemPost 0 0
5 3 ret a OSSemPost OS_ERR_SEM_OVF 0
10 8 call a OSSemPost 0 0
12 8 ret a OSSemPost OS_ERR_SEM_OVF 0
13 9 end
";

// The only task waits; no tick comes, so the timeout never ends the wait.
const IDLE: &str = ".code
go: li a1, 5
os OSSemPend
j go
.sem s, 1
.task a, go, 10, 0, 0, 0x140000
";

const IDLE_TO_9: &str = "0 0 start a
2 2 call a OSSemPend 0 5 0
4 2 ret a OSSemPend OS_ERR_NONE 0
8 6 call a OSSemPend 0 5 0
14 6 wait a OSSemPend
14 6 sw a idle
17 9 end
";

// A comment, declarations before the code, zeros and numbers in other forms.
const FORMS: &str = "# a comment
.task first, last, 62, 0x0, -0, 0x13f000
 
.sem s, 7
.code
last: li x5, -2048
li t6, 2047
li s11, 0x10
li fp, -1
j last
";

const FORMS_TO_6: &str = "0 0 start first
6 6 end
";

// A task that waits, and an interrupt handler that posts, up to the lines for injections, which begin at
// line 14.
const HANDLER: &str = ".code
go: li a0, 0
li a1, 0
os OSSemPend
j go
v: li a0, 0
li a1, 0
os OSSemPost
ret
.sem s, 0
.task a, go, 10, 0, 0, 0x140000
.vector 3, 2, v, 0x13F000
.inject
";

// A change of the first text that makes it no case: what is replaced, by what, and the line that
// refuses it.
const FAULTS: [(&str, &str, &str); 10] = [
    (".sem s, 0", ".sem s, 0\n.sem s, 1", "refused 8 A5\n"),
    (".sem s, 0", ".sem s, 0\n.sem OSSemDel, 0", "refused 8 A5\n"),
    (".task a", ".task abcdefghijklmnopq", "refused 8 A12\n"),
    (
        "li a0, s\nos OSSemPend",
        "li a8, s\nos OSSemPend",
        "refused 4 A3\n",
    ),
    (
        "li a0, s\nos OSSemPend",
        "li a0, go\nos OSSemPend",
        "refused 4 A7\n",
    ),
    ("os OSSemPend", "os OSSemDrop", "refused 5 A2\n"),
    ("j go", "j s", "refused 6 A7\n"),
    (".code\n", "", "refused 1 A8\n"),
    ("10, 0, 0", "63, 0, 0", "refused 8 I2\n"),
    ("0x140000", "0x140004", "refused 8 I4\n"),
];

// An input, how it is read, and where the sink fails: at a call, after so many bytes.
#[derive(Clone, Copy)]
struct Given<'a> {
    words: &'a str,
    input: &'a [u8],
    read_fails: u64,
    write_fails: (u64, usize),
}

impl<'a> Given<'a> {
    // No call fails.
    fn new(words: &'a str, input: &'a [u8]) -> Given<'a> {
        Given {
            words,
            input,
            read_fails: 0,
            write_fails: (0, 0),
        }
    }
}

// The status, and what was written.
fn answer(alloc: Global, given: &Given<'_>) -> Result<(Status, Vec<u8>), Fail> {
    let mut words = Vec::new(alloc);
    for word in given.words.split_ascii_whitespace() {
        words.push(String::from_str(alloc, word)?)?;
    }
    let fails = vec![in alloc; given.read_fails]?;
    let mut source = MemSource::new(given.input.to_vec(alloc)?, 16, fails);
    let fails = vec![in alloc; given.write_fails]?;
    let mut sink = MemSink::new(alloc, 65_536, fails).map_err(|_| AllocError)?;
    let status = ucos_main(alloc, &words, &mut source, &mut sink);
    Ok((status, sink.bytes().to_vec(alloc)?))
}

// The text of the first case with one part replaced.
fn changed(alloc: Global, old: &str, new: &str) -> Result<Vec<u8>, Fail> {
    let mut text = Vec::new(alloc);
    if let Some((front, back)) = FIRST.split_once(old) {
        text.extend_from_slice(front.as_bytes())?;
        text.extend_from_slice(new.as_bytes())?;
        text.extend_from_slice(back.as_bytes())?;
    }
    Ok(text)
}

// The text of the handler with these lines for injections.
fn handler_with(alloc: Global, behind: &str) -> Result<Vec<u8>, Fail> {
    let mut text = HANDLER.as_bytes().to_vec(alloc)?;
    text.extend_from_slice(behind.as_bytes())?;
    Ok(text)
}

// A text with so many tasks.
fn tasks(alloc: Global, count: u32) -> Result<Vec<u8>, Fail> {
    let mut text = String::from_str(alloc, ".code\ngo: j go\n")?;
    for i in 0..count {
        let line = format!(in alloc; ".task t{i}, go, 10, 0, 0, 0x140000\n")?;
        text.push_str(line.as_str())?;
    }
    Ok(text.into_bytes())
}

#[test]
fn runs_print_their_events(rt: HostRuntime) -> Result<(), Fail> {
    for (words, text, written) in [
        ("run direct 8", FIRST, FIRST_TO_8),
        ("run direct 0000008", FIRST, FIRST_TO_8),
        ("run direct 0", FIRST, "0 0 end\n"),
        ("run direct 30", PING, PING_TO_30),
        ("run direct 48", WAITERS, WAITERS_TO_48),
        ("run direct 22", REFUSALS, REFUSALS_TO_22),
        ("run direct 9", FULL, FULL_TO_9),
        ("run direct 9", IDLE, IDLE_TO_9),
        ("run direct 6", FORMS, FORMS_TO_6),
    ] {
        let (status, held) = answer(rt.alloc(), &Given::new(words, text.as_bytes()))?;
        assert_eq!(rt; status, Status::Done, "{words} on {text}");
        assert_eq!(rt; held.as_slice(), written.as_bytes(), "{words} on {text}");
    }
    Ok(())
}

#[test]
fn changes_of_the_first_text_are_refused(rt: HostRuntime) -> Result<(), Fail> {
    let alloc = rt.alloc();
    for (old, new, line) in FAULTS {
        let text = changed(alloc, old, new)?;
        let (status, held) = answer(alloc, &Given::new("run direct 1", &text))?;
        assert_eq!(rt; status, Status::Refused, "{new}");
        assert_eq!(rt; held.as_slice(), line.as_bytes(), "{new}");
    }
    Ok(())
}

// Sixty tasks and a name of sixteen bytes are the most.
#[test]
fn limits_are_kept(rt: HostRuntime) -> Result<(), Fail> {
    let alloc = rt.alloc();
    let (status, _) = answer(alloc, &Given::new("run direct 3", &tasks(alloc, 60)?))?;
    assert_eq!(rt; status, Status::Done);
    let (status, held) = answer(alloc, &Given::new("run direct 3", &tasks(alloc, 61)?))?;
    assert_eq!(rt; status, Status::Refused);
    assert_eq!(rt; held.as_slice(), b"refused 63 A14\n".as_slice());
    let text = changed(alloc, ".task a", ".task abcdefghijklmnop")?;
    let (status, held) = answer(alloc, &Given::new("run direct 1", &text))?;
    assert_eq!(rt; status, Status::Done);
    assert_eq!(rt;
        held.as_slice(),
        b"0 0 start abcdefghijklmnop\n1 1 end\n".as_slice()
    );
    Ok(())
}

#[test]
fn words_that_are_no_command_write_nothing(rt: HostRuntime) -> Result<(), Fail> {
    for words in [
        "",
        "run",
        "run fast 5",
        "run deferred",
        "run direct",
        "run direct 5 5",
        "run direct 1000001",
        "run direct 00000008",
        "run direct -5",
        "both",
        "both 5 5",
        "both direct 5",
        "both 1000001",
        "gen",
        "gen 1",
        "gen 1 0",
        "gen 1 16385",
        "gen 1 000001",
        "gen -1 5",
        "gen 18446744073709551616 5",
        "gen 000000000000000000001 5",
        "soak 1",
        "soak 1 0",
        "soak 1 16385",
        "--help",
        "list 5",
        "image image",
        "lists",
    ] {
        let (status, held) = answer(rt.alloc(), &Given::new(words, FIRST.as_bytes()))?;
        assert_eq!(rt; status, Status::Usage, "{words}");
        assert!(rt; held.is_empty(), "{words}");
    }
    Ok(())
}

#[test]
fn faults_have_their_status(rt: HostRuntime) -> Result<(), Fail> {
    let first = Given::new("run direct 8", FIRST.as_bytes());
    let no_case = Given::new("run direct 8", b"");
    let ping = Given::new("run direct 30", PING.as_bytes());
    let list = Given::new("list", FIRST.as_bytes());
    let switched =
        b"0 0 start two\n3 3 call two OSSemPend 1 0 0\n9 3 wait two OSSemPend\n9 3 sw two one\n13";
    let cut = b"0 0 start a\n2 2 call a OSSemPost 0 0\n4 2 ret a OSSemPost OS_ERR_NONE 1\n7 5";
    for (given, status, written) in [
        (
            Given {
                write_fails: (4, 3),
                ..first
            },
            Status::WriteFault,
            cut.as_slice(),
        ),
        // an event's own line and its switch line are one write, and so is each line of a listing
        (
            Given {
                write_fails: (4, 2),
                ..ping
            },
            Status::WriteFault,
            switched.as_slice(),
        ),
        (
            Given {
                write_fails: (2, 3),
                ..list
            },
            Status::WriteFault,
            b"task 0 a 0 10 0 0 1310720\nobj".as_slice(),
        ),
        (
            Given {
                read_fails: 2,
                ..first
            },
            Status::ReadFault,
            b"".as_slice(),
        ),
        (
            Given {
                write_fails: (1, 3),
                ..no_case
            },
            Status::Refused,
            b"ref".as_slice(),
        ),
        (
            Given {
                read_fails: 1,
                ..no_case
            },
            Status::ReadFault,
            b"".as_slice(),
        ),
    ] {
        let (got, held) = answer(rt.alloc(), &given)?;
        assert_eq!(rt; got, status);
        assert_eq!(rt; held.as_slice(), written);
    }
    Ok(())
}

// The longest input is read, and one byte more is too long.
#[test]
fn a_long_input_is_told(rt: HostRuntime) -> Result<(), Fail> {
    let alloc = rt.alloc();
    let mut text = vec![in alloc; b'\n'; INPUT_LIMIT]?;
    let (status, held) = answer(alloc, &Given::new("run direct 1", &text))?;
    assert_eq!(rt; status, Status::Refused);
    assert_eq!(rt; held.as_slice(), b"refused 0 I1\n".as_slice());
    text.push(b'\n')?;
    let (status, held) = answer(alloc, &Given::new("run direct 1", &text))?;
    assert_eq!(rt; status, Status::TooLong);
    assert!(rt; held.is_empty());
    Ok(())
}

// Each call that takes memory answers something else where there is enough.
#[test]
fn answers_with_ample_memory(rt: HostRuntime) -> Result<(), Fail> {
    let alloc = rt.alloc();
    let words = vec![in alloc;
        String::from_str(alloc, "run")?,
        String::from_str(alloc, "direct")?,
        String::from_str(alloc, "8")?,
    ]?;
    let answered = crate::run_in_memory(alloc, &words, FIRST.as_bytes().to_vec(alloc)?);
    let answered = answered.map_err(|_| AllocError)?;
    assert_eq!(rt; answered.status, Status::Done);
    assert_eq!(rt; answered.text.as_slice(), FIRST_TO_8.as_bytes());
    Ok(())
}
