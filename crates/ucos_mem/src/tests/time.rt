// Ticks: delays, timeouts and round robin, and posts that come while the scheduler is locked.

use super::{Given, answer};
use std::test::Fail;
use ucos_top::Status;

// A delay of three ticks beside two tasks of one priority that take turns: the first has a quantum of two ticks, the
// second one of one.
const DELAY: &str = ".code
go: j go
late: li a0, 3
li a1, 0
os OSTimeDly
j late
v: os OSTimeTick
ret
.task a, go, 10, 2, 0, 0x140000
.task b, go, 10, 1, 0, 0x13e000
.task c, late, 5, 0, 0, 0x13d000
.vector 3, 2, v, 0x13F000
.inject
task 4, 3
task 7, 3
task 10, 3
";

const DELAY_TO_14: &str = "0 0 start c
3 3 call c OSTimeDly 3 0
7 3 wait c OSTimeDly
7 3 sw c a
8 4 irq 3 2
9 4 post 3 OSTimeTick OS_ERR_NONE 0
10 4 exit 3 ret
10 4 sw a tick
15 4 tick 1
15 4 sw tick a
18 7 irq 3 2
19 7 post 3 OSTimeTick OS_ERR_NONE 0
20 7 exit 3 ret
20 7 sw a tick
25 7 tick 2
25 7 sw tick b
28 10 irq 3 2
29 10 post 3 OSTimeTick OS_ERR_NONE 0
30 10 exit 3 ret
30 10 sw b tick
38 10 tick 3
38 10 sw tick c
39 11 ret c OSTimeDly OS_ERR_NONE 0
42 14 end
";

const DELAY_BOTH_14: &str = "method direct
0 start c
3 call c OSTimeDly 3 0
3 wait c OSTimeDly
3 sw c a
4 irq 3 2
4 sw a tick
4 tick 1
4 sw tick a
7 irq 3 2
7 sw a tick
7 tick 2
7 sw tick b
10 irq 3 2
10 sw b tick
10 tick 3
10 sw tick c
11 ret c OSTimeDly OS_ERR_NONE 0
14 end
method deferred
0 start c
3 call c OSTimeDly 3 0
3 wait c OSTimeDly
3 sw c a
4 irq 3 2
4 sw a tick
4 tick 1
4 sw tick a
7 irq 3 2
7 sw a tick
7 tick 2
7 sw tick b
10 irq 3 2
10 sw b tick
10 tick 3
10 sw tick c
11 ret c OSTimeDly OS_ERR_NONE 0
14 end
P1 held
P2 held
P3 held
P4 held
raw 42 70
";

// The tick task has the priority of the only other task: with its signal it stands behind it in their ready list, so that the
// task, whose quantum is at its end, is not alone and goes to the tail.
const OWN: &str = ".config tick_prio, 10
.code
go: j go
v: os OSTimeTick
ret
.task a, go, 10, 1, 0, 0x140000
.vector 3, 2, v, 0x13F000
.inject
task 1, 3
";

const OWN_TO_5: &str = "0 0 start a
1 1 irq 3 2
2 1 post 3 OSTimeTick OS_ERR_NONE 0
3 1 exit 3 ret
3 1 sw a tick
8 1 tick 1
8 1 sw tick a
12 5 end
";

const OWN_DEFERRED_5: &str = "0 0 start a
1 1 irq 3 2
2 1 post 3 OSTimeTick OS_ERR_NONE 0
3 1 exit 3 ret
14 1 take OSTimeTick OS_ERR_NONE 0
14 1 sw a tick
19 1 tick 1
19 1 sw tick a
23 5 end
";

// Two tasks yield to each other, until one of them has stopped and the other is alone. Under the lock nobody yields.
const TURNS: &str = ".code
go: os OSSchedRoundRobinYield
j go
low: os OSSchedLock
os OSSchedRoundRobinYield
os OSSchedUnlock
os OSSchedRoundRobinYield
ebreak
.task a, go, 10, 0, 0, 0x140000
.task b, low, 10, 0, 0, 0x13e000
";

const TURNS_TO_18: &str = "0 0 start a
1 1 call a OSSchedRoundRobinYield
8 1 ret a OSSchedRoundRobinYield OS_ERR_NONE 0
8 1 sw a b
10 3 call b OSSchedLock
12 3 ret b OSSchedLock OS_ERR_NONE 1
14 5 call b OSSchedRoundRobinYield
16 5 ret b OSSchedRoundRobinYield OS_ERR_SCHED_LOCKED 0
18 7 call b OSSchedUnlock
20 7 ret b OSSchedUnlock OS_ERR_NONE 0
22 9 call b OSSchedRoundRobinYield
29 9 ret b OSSchedRoundRobinYield OS_ERR_NONE 0
29 9 sw b a
32 12 call a OSSchedRoundRobinYield
39 12 ret a OSSchedRoundRobinYield OS_ERR_NONE 0
39 12 sw a b
40 13 trap b break 44
40 13 sw b a
43 16 call a OSSchedRoundRobinYield
45 16 ret a OSSchedRoundRobinYield OS_ERR_ROUND_ROBIN_1 0
47 18 end
";

// Without round robin nobody yields, and a tick ends no turn.
const OFF: &str = ".config round_robin, 0
.code
go: os OSSchedRoundRobinYield
x: j x
v: os OSTimeTick
ret
.task a, go, 10, 1, 0, 0x140000
.task b, x, 10, 1, 0, 0x13e000
.vector 3, 2, v, 0x13F000
.inject
task 3, 3
";

const OFF_TO_6: &str = "0 0 start a
1 1 call a OSSchedRoundRobinYield
3 1 ret a OSSchedRoundRobinYield OS_ERR_ROUND_ROBIN_DISABLED 0
5 3 irq 3 2
6 3 post 3 OSTimeTick OS_ERR_NONE 0
7 3 exit 3 ret
7 3 sw a tick
12 3 tick 1
12 3 sw tick a
15 6 end
";

// A wait of each kind ends by its timeout: for a semaphore and the own semaphore of a task after one tick, for a queue, event
// flags and the own queue of a task after two.
const WAITS: &str = ".code
one: li a0, s
li a1, 1
os OSSemPend
ebreak
two: li a0, q
li a1, 2
os OSQPend
ebreak
three: li a0, f
li a1, 1
li a2, 2
li a3, 1
os OSFlagPend
ebreak
four: li a0, 1
os OSTaskSemPend
ebreak
five: li a0, 2
os OSTaskQPend
ebreak
v: os OSTimeTick
ret
.sem s, 0
.queue q, 1
.flags f, 0
.task a, one, 10, 0, 0, 0x140000
.task b, two, 11, 0, 0, 0x13f000
.task c, three, 12, 0, 0, 0x13e000
.task d, four, 13, 0, 0, 0x13d000
.task e, five, 14, 0, 1, 0x13c000
.vector 3, 2, v, 0x13b000
.inject
task 20, 3
task 26, 3
";

const WAITS_TO_34: &str = "0 0 start a
3 3 call a OSSemPend 0 1 0
9 3 wait a OSSemPend
9 3 sw a b
13 7 call b OSQPend 1 2 0
19 7 wait b OSQPend
19 7 sw b c
25 13 call c OSFlagPend 2 1 2 1
31 13 wait c OSFlagPend
31 13 sw c d
34 16 call d OSTaskSemPend 1 0
38 16 wait d OSTaskSemPend
38 16 sw d e
41 19 call e OSTaskQPend 2 0
45 19 wait e OSTaskQPend
45 19 sw e idle
46 20 irq 3 2
47 20 post 3 OSTimeTick OS_ERR_NONE 0
48 20 exit 3 ret
48 20 sw idle tick
61 20 tick 1
61 20 sw tick a
62 21 ret a OSSemPend OS_ERR_TIMEOUT 0
63 22 trap a break 16
63 22 sw a d
64 23 ret d OSTaskSemPend OS_ERR_TIMEOUT 0
65 24 trap d break 80
65 24 sw d idle
67 26 irq 3 2
68 26 post 3 OSTimeTick OS_ERR_NONE 0
69 26 exit 3 ret
69 26 sw idle tick
87 26 tick 2
87 26 sw tick b
88 27 ret b OSQPend OS_ERR_TIMEOUT 0 0
89 28 trap b break 36
89 28 sw b c
90 29 ret c OSFlagPend OS_ERR_TIMEOUT 0
91 30 trap c break 64
91 30 sw c e
92 31 ret e OSTaskQPend OS_ERR_TIMEOUT 0 0
93 32 trap e break 96
93 32 sw e idle
95 34 end
";

// A task that traps under the lock opens it, and the tick that came meanwhile ends a delay.
const TRAP: &str = ".code
go: os OSSchedLock
nop
ebreak
low: j low
high: li a0, 1
li a1, 0
os OSTimeDly
j high
v: os OSTimeTick
ret
.task a, go, 10, 0, 0, 0x140000
.task b, low, 20, 0, 0, 0x13e000
.task c, high, 5, 0, 0, 0x13d000
.vector 3, 2, v, 0x13F000
.inject
task 7, 3
";

const TRAP_TO_12: &str = "0 0 start c
3 3 call c OSTimeDly 1 0
7 3 wait c OSTimeDly
7 3 sw c a
9 5 call a OSSchedLock
11 5 ret a OSSchedLock OS_ERR_NONE 1
13 7 irq 3 2
14 7 post 3 OSTimeTick OS_ERR_NONE 0
15 7 exit 3 ret
16 7 trap a break 12
16 7 sw a tick
24 8 tick 1
24 8 sw tick c
25 9 ret c OSTimeDly OS_ERR_NONE 0
28 12 end
";

// The post waits in the queue until the trap.
const TRAP_DEFERRED_12: &str = "0 0 start c
3 3 call c OSTimeDly 1 0
7 3 wait c OSTimeDly
7 3 sw c a
9 5 call a OSSchedLock
11 5 ret a OSSchedLock OS_ERR_NONE 1
13 7 irq 3 2
14 7 post 3 OSTimeTick OS_ERR_NONE 0
15 7 exit 3 ret
16 7 trap a break 12
22 8 take OSTimeTick OS_ERR_NONE 0
22 8 sw a tick
30 8 tick 1
30 8 sw tick c
31 9 ret c OSTimeDly OS_ERR_NONE 0
34 12 end
";

const TRAP_BOTH_12: &str = "method direct
0 start c
3 call c OSTimeDly 1 0
3 wait c OSTimeDly
3 sw c a
5 call a OSSchedLock
5 ret a OSSchedLock OS_ERR_NONE 1
7 irq 3 2
7 trap a break 12
7 sw a tick
8 tick 1
8 sw tick c
9 ret c OSTimeDly OS_ERR_NONE 0
12 end
method deferred
0 start c
3 call c OSTimeDly 1 0
3 wait c OSTimeDly
3 sw c a
5 call a OSSchedLock
5 ret a OSSchedLock OS_ERR_NONE 1
7 irq 3 2
7 trap a break 12
8 sw a tick
8 tick 1
8 sw tick c
9 ret c OSTimeDly OS_ERR_NONE 0
12 end
P1 held
P2 broken 13
P3 held
P4 held
raw 28 34
";

// Three posts of one handler that comes under the lock: to two waiting tasks, and a tick.
const LOCKED: &str = ".code
go: os OSSchedLock
nop
nop
os OSSchedUnlock
stop: j stop
one: os OSSemPend
ebreak
two: li a0, q
os OSQPend
ebreak
v: os OSSemPost
li a0, q
li a1, 7
li a2, 4
os OSQPost
os OSTimeTick
ret
.sem s, 0
.queue q, 1
.task a, go, 10, 0, 0, 0x140000
.task b, one, 6, 0, 0, 0x13e000
.task c, two, 7, 0, 0, 0x13d000
.vector 3, 2, v, 0x13F000
.inject
task 8, 3
";

// They are taken once the scheduler is no longer locked, first in, first out.
const LOCKED_DEFERRED_16: &str = "0 0 start b
1 1 call b OSSemPend 0 0 0
7 1 wait b OSSemPend
7 1 sw b c
10 4 call c OSQPend 1 0 0
16 4 wait c OSQPend
16 4 sw c a
18 6 call a OSSchedLock
20 6 ret a OSSchedLock OS_ERR_NONE 1
22 8 irq 3 2
23 8 post 3 OSSemPost 0 0 OS_ERR_NONE 0
28 8 post 3 OSQPost 1 7 4 0 OS_ERR_NONE 0
30 8 post 3 OSTimeTick OS_ERR_NONE 0
31 8 exit 3 ret
34 10 call a OSSchedUnlock
36 10 ret a OSSchedUnlock OS_ERR_NONE 0
44 11 take OSSemPost 0 0 OS_ERR_NONE 0
52 11 take OSQPost 1 7 4 0 OS_ERR_NONE 0
58 11 take OSTimeTick OS_ERR_NONE 0
58 11 sw a tick
63 11 tick 1
63 11 sw tick b
64 12 ret b OSSemPend OS_ERR_NONE 0
65 13 trap b break 36
65 13 sw b c
66 14 ret c OSQPend OS_ERR_NONE 7 4
67 15 trap c break 52
67 15 sw c a
68 16 end
";

const LOCKED_BOTH_16: &str = "method direct
0 start b
1 call b OSSemPend 0 0 0
1 wait b OSSemPend
1 sw b c
4 call c OSQPend 1 0 0
4 wait c OSQPend
4 sw c a
6 call a OSSchedLock
6 ret a OSSchedLock OS_ERR_NONE 1
8 irq 3 2
10 call a OSSchedUnlock
10 ret a OSSchedUnlock OS_ERR_NONE 0
10 sw a tick
11 tick 1
11 sw tick b
12 ret b OSSemPend OS_ERR_NONE 0
13 trap b break 36
13 sw b c
14 ret c OSQPend OS_ERR_NONE 7 4
15 trap c break 52
15 sw c a
16 end
method deferred
0 start b
1 call b OSSemPend 0 0 0
1 wait b OSSemPend
1 sw b c
4 call c OSQPend 1 0 0
4 wait c OSQPend
4 sw c a
6 call a OSSchedLock
6 ret a OSSchedLock OS_ERR_NONE 1
8 irq 3 2
10 call a OSSchedUnlock
10 ret a OSSchedUnlock OS_ERR_NONE 0
11 sw a tick
11 tick 1
11 sw tick b
12 ret b OSSemPend OS_ERR_NONE 0
13 trap b break 36
13 sw b c
14 ret c OSQPend OS_ERR_NONE 7 4
15 trap c break 52
15 sw c a
16 end
P1 held
P2 broken 22
P3 held
P4 held
raw 46 68
";

#[test]
fn tasks_wait_for_ticks_and_take_turns(rt: HostRuntime) -> Result<(), Fail> {
    for (words, text, status, written) in [
        ("run direct 14", DELAY, Status::Done, DELAY_TO_14),
        ("both 14", DELAY, Status::Done, DELAY_BOTH_14),
        ("run direct 5", OWN, Status::Done, OWN_TO_5),
        ("run deferred 5", OWN, Status::Done, OWN_DEFERRED_5),
        ("run direct 18", TURNS, Status::Done, TURNS_TO_18),
        ("run direct 6", OFF, Status::Done, OFF_TO_6),
        ("run direct 34", WAITS, Status::Done, WAITS_TO_34),
    ] {
        let (got, held) = answer(rt.alloc(), &Given::new(words, text.as_bytes()))?;
        assert_eq!(rt; got, status, "{words} on {text}");
        assert_eq!(rt; held.as_slice(), written.as_bytes(), "{words} on {text}");
    }
    Ok(())
}

#[test]
fn posts_wait_while_the_scheduler_is_locked(rt: HostRuntime) -> Result<(), Fail> {
    for (words, text, status, written) in [
        ("run direct 12", TRAP, Status::Done, TRAP_TO_12),
        ("run deferred 12", TRAP, Status::Done, TRAP_DEFERRED_12),
        ("both 12", TRAP, Status::Broken, TRAP_BOTH_12),
        ("run deferred 16", LOCKED, Status::Done, LOCKED_DEFERRED_16),
        ("both 16", LOCKED, Status::Broken, LOCKED_BOTH_16),
    ] {
        let (got, held) = answer(rt.alloc(), &Given::new(words, text.as_bytes()))?;
        assert_eq!(rt; got, status, "{words} on {text}");
        assert_eq!(rt; held.as_slice(), written.as_bytes(), "{words} on {text}");
    }
    Ok(())
}
