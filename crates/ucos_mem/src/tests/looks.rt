// What the program tells of looks at lists.

use super::both::{LITERAL_TO_4, POSTS_TO_4};
use super::{Given, answer};
use std::test::Fail;
use ucos_top::Status;

// Two tasks wait for a semaphore, and the third wakes both: the lists of one direction are a link ahead of those of the
// other between two micro-steps. Lines of looks come in any order of moments, and one past the end of the run is not told.
const WAITS: &str = ".code
go: os OSSemPend
j go
post: li a0, s
li a1, 2
os OSSemPost
j post
.sem s, 0
.task a, go, 10, 0, 0, 0x140000
.task b, go, 10, 0, 0, 0x13e000
.task c, post, 10, 0, 0, 0x13d000
.inject
look 31, 10
look 31, s
look 28, s
look 28, 10
look 25, 10
look 23, s
look 23, 10
look 15, 10
look 15, s
look 16, s
look 13, 10
look 12, 10
look 12, s
look 0, s
look 0, 10
look 1000, s
";

const WAITS_TO_12: &str = "0 0 start a
0 0 look s fwd back
0 0 look 10 fwd 0 1 2 back 2 1 0
1 1 call a OSSemPend 0 0 0
7 1 wait a OSSemPend
7 1 sw a b
9 3 call b OSSemPend 0 0 0
12 3 look 10 fwd 2 back 2 1
12 3 look s fwd 0 back 0
13 3 look 10 fwd 2 back 2
15 3 look 10 fwd 2 back 2
15 3 look s fwd 0 1 back 0
16 3 look s fwd 0 1 back 1 0
16 3 wait b OSSemPend
16 3 sw b c
20 7 call c OSSemPost 0 2
23 7 look s fwd 1 back 1 0
23 7 look 10 fwd 2 back 2
25 7 look 10 fwd 2 0 back 2
28 7 look s fwd back 1
28 7 look 10 fwd 2 0 back 0 2
31 7 look 10 fwd 2 0 1 back 1 0 2
31 7 look s fwd back
32 7 ret c OSSemPost OS_ERR_NONE 0
37 12 end
";

// An interrupt is due in the middle of a wait. By the deferred method it enters there and its post waits in the queue for the
// end of the service, so a look finds nothing of it done, and the third task in the forward chain alone.
const MIDDLE: &str = ".code
go: os OSSemPend
j go
v: os OSSemPost
ret
.sem s, 0
.task a, go, 10, 0, 0, 0x140000
.task b, go, 20, 0, 0, 0x13E000
.task c, go, 30, 0, 0, 0x13D000
.vector 3, 2, v, 0x13F000
.inject
step 23, 3
look 28, s
";

const MIDDLE_DEFERRED_7: &str = "0 0 start a
1 1 call a OSSemPend 0 0 0
7 1 wait a OSSemPend
7 1 sw a b
9 3 call b OSSemPend 0 0 0
16 3 wait b OSSemPend
16 3 sw b c
18 5 call c OSSemPend 0 0 0
23 5 irq 3 2
24 5 post 3 OSSemPost 0 0 OS_ERR_NONE 0
25 5 exit 3 ret
28 5 look s fwd 0 1 2 back 1 0
29 5 wait c OSSemPend
37 6 take OSSemPost 0 0 OS_ERR_NONE 0
37 6 sw c a
38 6 ret a OSSemPend OS_ERR_NONE 0
39 7 end
";

// By the direct method the interrupt waits for the end of the service, and at the look its post has not been yet.
const MIDDLE_DIRECT_7: &str = "0 0 start a
1 1 call a OSSemPend 0 0 0
7 1 wait a OSSemPend
7 1 sw a b
9 3 call b OSSemPend 0 0 0
16 3 wait b OSSemPend
16 3 sw b c
18 5 call c OSSemPend 0 0 0
26 5 wait c OSSemPend
26 5 sw c idle
27 6 irq 3 2
28 6 look s fwd 0 1 2 back 2 1 0
28 6 post 3 OSSemPost 0 0 OS_ERR_NONE 0
29 6 exit 3 ret
29 6 sw idle a
30 6 ret a OSSemPend OS_ERR_NONE 0
31 7 end
";

// A post between looks: by the direct method it is done at once and whole, by the deferred one a link a micro-step, when it
// is taken.
const POSTED: &str = ".code
go: os OSSemPend
j go
x: j x
v: os OSSemPost
ret
.sem s, 0
.task a, go, 10, 0, 0, 0x140000
.task b, x, 10, 0, 0, 0x13E000
.task c, x, 10, 0, 0, 0x13D000
.vector 3, 2, v, 0x13F000
.inject
task 3, 3
look 18, 10
look 17, 10
look 14, s
look 12, s
look 12, 10
look 10, s
";

const POSTED_DIRECT_4: &str = "0 0 start a
1 1 call a OSSemPend 0 0 0
7 1 wait a OSSemPend
7 1 sw a b
9 3 irq 3 2
10 3 look s fwd 0 back 0
10 3 post 3 OSSemPost 0 0 OS_ERR_NONE 0
11 3 exit 3 ret
12 3 look s fwd back
12 3 look 10 fwd 1 2 0 back 0 2 1
13 4 end
";

const POSTED_DEFERRED_4: &str = "0 0 start a
1 1 call a OSSemPend 0 0 0
7 1 wait a OSSemPend
7 1 sw a b
9 3 irq 3 2
10 3 look s fwd 0 back 0
10 3 post 3 OSSemPost 0 0 OS_ERR_NONE 0
11 3 exit 3 ret
12 3 look s fwd 0 back 0
12 3 look 10 fwd 1 2 back 2 1
14 3 look s fwd 0 back 0
17 3 look 10 fwd 1 2 0 back 2 1
18 3 look 10 fwd 1 2 0 back 0 2 1
19 3 take OSSemPost 0 0 OS_ERR_NONE 0
21 4 end
";

// With the literal insertion rule the woken task goes to the head of its list.
const HEAD: &str = ".code
go: os OSSemPend
j go
x: j x
v: os OSSemPost
ret
.sem s, 0
.config insert, 1
.task a, go, 10, 0, 0, 0x140000
.task b, x, 10, 0, 0, 0x13E000
.task c, x, 10, 0, 0, 0x13D000
.vector 3, 2, v, 0x13F000
.inject
task 3, 3
look 20, 10
";

const HEAD_TO_4: &str = "0 0 start a
1 1 call a OSSemPend 0 0 0
7 1 wait a OSSemPend
7 1 sw a b
9 3 irq 3 2
10 3 post 3 OSSemPost 0 0 OS_ERR_NONE 0
11 3 exit 3 ret
19 3 take OSSemPost 0 0 OS_ERR_NONE 0
19 3 sw b a
20 3 look 10 fwd 0 1 2 back 2 1 0
20 3 ret a OSSemPend OS_ERR_NONE 0
21 4 end
";

#[test]
fn looks_tell_both_directions_of_a_list(rt: HostRuntime) -> Result<(), Fail> {
    for (words, text, status, written) in [
        ("run direct 12", WAITS, Status::Done, WAITS_TO_12),
        ("run deferred 12", WAITS, Status::Done, WAITS_TO_12),
        ("run deferred 7", MIDDLE, Status::Done, MIDDLE_DEFERRED_7),
        ("run direct 7", MIDDLE, Status::Done, MIDDLE_DIRECT_7),
        ("run direct 4", POSTED, Status::Done, POSTED_DIRECT_4),
        ("run deferred 4", POSTED, Status::Done, POSTED_DEFERRED_4),
        ("run deferred 4", HEAD, Status::Done, HEAD_TO_4),
        // histories have no looks
        ("both 4", POSTED, Status::Done, POSTS_TO_4),
        ("both 4", HEAD, Status::Broken, LITERAL_TO_4),
    ] {
        let (got, held) = answer(rt.alloc(), &Given::new(words, text.as_bytes()))?;
        assert_eq!(rt; got, status, "{words} on {text}");
        assert_eq!(rt; held.as_slice(), written.as_bytes(), "{words} on {text}");
    }
    Ok(())
}
