// Timers: their calls, their callbacks, and callbacks that trap.

use super::{Given, answer};
use std::test::Fail;
use ucos_top::Status;

// The callback of a periodic timer finds the number of its timer and its argument, and stores. That of a one-shot timer can not
// unlock the scheduler, locks it once more and traps: the timer task goes on under its own lock. The third tick comes in the
// middle of a callback.
const CALLBACKS: &str = ".config tmr_div, 1
.config tmr_prio, 5
.code
go: li a0, p
os OSTmrStart
li a0, o
os OSTmrStart
stop: j stop
cb: sw a0, 4(a1)
ret
bad: os OSTmrStateGet
os OSSchedUnlock
os OSSchedLock
sw a0, 1(a1)
v: os OSTimeTick
ret
.timer o, oneshot, 1, 0, bad, 3
.timer p, periodic, 0, 2, cb, 0x100010
.task a, go, 10, 0, 0, 0x140000
.vector 3, 2, v, 0x13F000
.inject
task 7, 3
task 20, 3
task 23, 3
";

const CALLBACKS_TO_45: &str = "0 0 start a
2 2 call a OSTmrStart 1
4 2 ret a OSTmrStart OS_ERR_NONE 0
7 5 call a OSTmrStart 0
9 5 ret a OSTmrStart OS_ERR_NONE 0
11 7 irq 3 2
12 7 post 3 OSTimeTick OS_ERR_NONE 0
13 7 exit 3 ret
13 7 sw a tick
18 7 tick 1
18 7 sw tick tmr
21 8 tmr 1
24 9 fire o
26 11 call tmr OSTmrStateGet 0
28 11 ret tmr OSTmrStateGet OS_ERR_NONE 3
30 13 call tmr OSSchedUnlock
32 13 ret tmr OSSchedUnlock OS_ERR_SCHED_NOT_LOCKED 0
34 15 call tmr OSSchedLock
36 15 ret tmr OSSchedLock OS_ERR_NONE 2
37 16 trap tmr store 60
42 17 sw tmr a
45 20 irq 3 2
46 20 post 3 OSTimeTick OS_ERR_NONE 0
47 20 exit 3 ret
47 20 sw a tick
52 20 tick 2
52 20 sw tick tmr
55 21 tmr 2
58 22 fire p
59 23 irq 3 2
60 23 post 3 OSTimeTick OS_ERR_NONE 0
61 23 exit 3 ret
62 23 st tmr 1048596 4 1
66 25 sw tmr tick
71 26 tick 3
71 26 sw tick tmr
74 27 tmr 3
79 28 sw tmr a
96 45 end
";

// The third tick waits in the queue until the callback and the lock are at their end.
const CALLBACKS_DEFERRED_45: &str = "0 0 start a
2 2 call a OSTmrStart 1
4 2 ret a OSTmrStart OS_ERR_NONE 0
7 5 call a OSTmrStart 0
9 5 ret a OSTmrStart OS_ERR_NONE 0
11 7 irq 3 2
12 7 post 3 OSTimeTick OS_ERR_NONE 0
13 7 exit 3 ret
22 7 take OSTimeTick OS_ERR_NONE 0
22 7 sw a tick
27 7 tick 1
27 7 sw tick tmr
30 8 tmr 1
33 9 fire o
35 11 call tmr OSTmrStateGet 0
37 11 ret tmr OSTmrStateGet OS_ERR_NONE 3
39 13 call tmr OSSchedUnlock
41 13 ret tmr OSSchedUnlock OS_ERR_SCHED_NOT_LOCKED 0
43 15 call tmr OSSchedLock
45 15 ret tmr OSSchedLock OS_ERR_NONE 2
46 16 trap tmr store 60
51 17 sw tmr a
54 20 irq 3 2
55 20 post 3 OSTimeTick OS_ERR_NONE 0
56 20 exit 3 ret
65 20 take OSTimeTick OS_ERR_NONE 0
65 20 sw a tick
70 20 tick 2
70 20 sw tick tmr
73 21 tmr 2
76 22 fire p
77 23 irq 3 2
78 23 post 3 OSTimeTick OS_ERR_NONE 0
79 23 exit 3 ret
80 23 st tmr 1048596 4 1
95 26 take OSTimeTick OS_ERR_NONE 0
95 26 sw tmr tick
100 26 tick 3
100 26 sw tick tmr
103 27 tmr 3
108 28 sw tmr a
125 45 end
";

// A periodic timer that begins after one tick and comes again every third, and a one-shot timer, both without a callback.
const COUNTS: &str = ".config tmr_div, 1
.config tmr_prio, 5
.code
go: li a0, p
os OSTmrStart
li a0, o
os OSTmrStart
again: li a0, p
os OSTmrRemainGet
li a0, o
os OSTmrRemainGet
li a0, o
os OSTmrStateGet
j again
v: os OSTimeTick
ret
.timer p, periodic, 1, 3, none, 0
.timer o, oneshot, 2, 0, none, 0
.task a, go, 10, 0, 0, 0x140000
.vector 3, 2, v, 0x13F000
.inject
task 13, 3
task 23, 3
task 33, 3
task 43, 3
";

const COUNTS_TO_56: &str = "0 0 start a
2 2 call a OSTmrStart 0
4 2 ret a OSTmrStart OS_ERR_NONE 0
7 5 call a OSTmrStart 1
9 5 ret a OSTmrStart OS_ERR_NONE 0
12 8 call a OSTmrRemainGet 0
14 8 ret a OSTmrRemainGet OS_ERR_NONE 1
17 11 call a OSTmrRemainGet 1
19 11 ret a OSTmrRemainGet OS_ERR_NONE 2
21 13 irq 3 2
22 13 post 3 OSTimeTick OS_ERR_NONE 0
23 13 exit 3 ret
23 13 sw a tick
28 13 tick 1
28 13 sw tick tmr
31 14 tmr 1
34 15 fire p
39 16 sw tmr a
41 18 call a OSTmrStateGet 1
43 18 ret a OSTmrStateGet OS_ERR_NONE 2
47 22 call a OSTmrRemainGet 0
49 22 ret a OSTmrRemainGet OS_ERR_NONE 3
50 23 irq 3 2
51 23 post 3 OSTimeTick OS_ERR_NONE 0
52 23 exit 3 ret
52 23 sw a tick
57 23 tick 2
57 23 sw tick tmr
60 24 tmr 2
63 25 fire o
68 26 sw tmr a
71 29 call a OSTmrRemainGet 1
73 29 ret a OSTmrRemainGet OS_ERR_NONE 0
76 32 call a OSTmrStateGet 1
78 32 ret a OSTmrStateGet OS_ERR_NONE 3
79 33 irq 3 2
80 33 post 3 OSTimeTick OS_ERR_NONE 0
81 33 exit 3 ret
81 33 sw a tick
86 33 tick 3
86 33 sw tick tmr
89 34 tmr 3
94 35 sw tmr a
98 39 call a OSTmrRemainGet 0
100 39 ret a OSTmrRemainGet OS_ERR_NONE 1
103 42 call a OSTmrRemainGet 1
105 42 ret a OSTmrRemainGet OS_ERR_NONE 0
106 43 irq 3 2
107 43 post 3 OSTimeTick OS_ERR_NONE 0
108 43 exit 3 ret
108 43 sw a tick
113 43 tick 4
113 43 sw tick tmr
116 44 tmr 4
119 45 fire p
124 46 sw tmr a
127 49 call a OSTmrStateGet 1
129 49 ret a OSTmrStateGet OS_ERR_NONE 3
133 53 call a OSTmrRemainGet 0
135 53 ret a OSTmrRemainGet OS_ERR_NONE 3
138 56 end
";

// A timer that does not run is asked, started, stopped and deleted; a deleted one and a semaphore are no timers.
const CALLS: &str = ".code
go: li a0, t
os OSTmrRemainGet
li a0, t
os OSTmrStateGet
li a0, t
li a1, 0
os OSTmrStop
li a0, t
os OSTmrStart
li a0, t
os OSTmrStateGet
li a0, t
li a1, 1
os OSTmrStop
li a0, t
li a1, 0
os OSTmrStop
li a0, t
li a1, 0
os OSTmrStop
li a0, t
os OSTmrDel
li a0, t
os OSTmrStart
li a0, s
os OSTmrStateGet
ebreak
.sem s, 0
.timer t, oneshot, 5, 0, none, 0
.task a, go, 10, 0, 0, 0x140000
";

const CALLS_TO_40: &str = "0 0 start a
2 2 call a OSTmrRemainGet 1
4 2 ret a OSTmrRemainGet OS_ERR_NONE 5
7 5 call a OSTmrStateGet 1
9 5 ret a OSTmrStateGet OS_ERR_NONE 1
13 9 call a OSTmrStop 1 0
15 9 ret a OSTmrStop OS_ERR_TMR_STOPPED 0
18 12 call a OSTmrStart 1
20 12 ret a OSTmrStart OS_ERR_NONE 0
23 15 call a OSTmrStateGet 1
25 15 ret a OSTmrStateGet OS_ERR_NONE 2
29 19 call a OSTmrStop 1 1
31 19 ret a OSTmrStop OS_ERR_OPT_INVALID 0
35 23 call a OSTmrStop 1 0
37 23 ret a OSTmrStop OS_ERR_NONE 0
41 27 call a OSTmrStop 1 0
43 27 ret a OSTmrStop OS_ERR_TMR_STOPPED 0
46 30 call a OSTmrDel 1
48 30 ret a OSTmrDel OS_ERR_NONE 0
51 33 call a OSTmrStart 1
53 33 ret a OSTmrStart OS_ERR_OBJ_TYPE 0
56 36 call a OSTmrStateGet 0
58 36 ret a OSTmrStateGet OS_ERR_OBJ_TYPE 0
59 37 trap a break 148
59 37 sw a idle
62 40 end
";

#[test]
fn timers_fire_and_are_asked(rt: HostRuntime) -> Result<(), Fail> {
    for (words, text, status, written) in [
        ("run direct 45", CALLBACKS, Status::Done, CALLBACKS_TO_45),
        (
            "run deferred 45",
            CALLBACKS,
            Status::Done,
            CALLBACKS_DEFERRED_45,
        ),
        ("run direct 56", COUNTS, Status::Done, COUNTS_TO_56),
        ("run direct 40", CALLS, Status::Done, CALLS_TO_40),
    ] {
        let (got, held) = answer(rt.alloc(), &Given::new(words, text.as_bytes()))?;
        assert_eq!(rt; got, status, "{words} on {text}");
        assert_eq!(rt; held.as_slice(), written.as_bytes(), "{words} on {text}");
    }
    Ok(())
}
