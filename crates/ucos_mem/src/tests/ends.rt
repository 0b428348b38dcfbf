// Waits that end otherwise than by a post, objects that are deleted, and the scheduler's lock.

use super::{Given, answer};
use std::test::Fail;
use ucos_top::Status;

// Aborts of the caller's own wait, of one that there is not, of the first waiter and of all; a queue
// whose message is free once it is deleted; objects that are deleted while tasks wait, or not then.
const ENDS: &str = ".code
sem: li a0, s
li a1, 7
li a2, 0
os OSSemPend
li t0, 8
beq a0, t0, sem
own: li a0, 0
li a1, 0
os OSTaskSemPend
j own
flag: li a0, f
li a1, 1
li a2, 0
li a3, 5
os OSFlagPend
li t0, 8
beq a0, t0, flag
j own
ends: li a0, 4294967295
li a1, 0
os OSTaskSemPendAbort
li a0, c
os OSTaskQPendAbort
li a0, c
os OSTaskSemPendAbort
li a0, s
li a1, 1
os OSSemPendAbort
li a0, f
li a1, 0
os OSFlagPendAbort
li a0, q
os OSQPendAbort
li a0, q
li a1, 9
li a2, 1
li a3, 0
os OSQPost
li a0, w
os OSQPost
li a0, q
li a1, 0
os OSQDel
li a0, w
os OSQPost
li a0, q
os OSQPost
li a0, s
li a1, 0
os OSSemDel
li a1, 1
li a0, f
os OSFlagDel
li a0, s
os OSSemDel
li a0, s
os OSSemDel
j ends
.sem s, 0
.queue q, 2
.queue w, 2
.flags f, 0
.config pool, 1
.task a, sem, 10, 0, 0, 0x140000
.task b, sem, 11, 0, 0, 0x13f800
.task c, own, 12, 0, 0, 0x13f000
.task d, flag, 13, 0, 0, 0x13e800
.task e, ends, 30, 0, 0, 0x13e000
";

const ENDS_TO_133: &str = "0 0 start a
4 4 call a OSSemPend 0 7 0
10 4 wait a OSSemPend
10 4 sw a b
15 9 call b OSSemPend 0 7 0
22 9 wait b OSSemPend
22 9 sw b c
26 13 call c OSTaskSemPend 0 0
30 13 wait c OSTaskSemPend
30 13 sw c d
36 19 call d OSFlagPend 3 1 0 5
42 19 wait d OSFlagPend
42 19 sw d e
47 24 call e OSTaskSemPendAbort 4294967295 0
49 24 ret e OSTaskSemPendAbort OS_ERR_PEND_ABORT_SELF 0
52 27 call e OSTaskQPendAbort 2 0
54 27 ret e OSTaskQPendAbort OS_ERR_PEND_ABORT_NONE 0
57 30 call e OSTaskSemPendAbort 2 0
62 30 ret e OSTaskSemPendAbort OS_ERR_NONE 1
62 30 sw e c
63 31 ret c OSTaskSemPend OS_ERR_PEND_ABORT 0
68 36 call c OSTaskSemPend 0 0
72 36 wait c OSTaskSemPend
72 36 sw c e
76 40 call e OSSemPendAbort 0 1
88 40 ret e OSSemPendAbort OS_ERR_NONE 2
88 40 sw e a
89 41 ret a OSSemPend OS_ERR_PEND_ABORT 0
96 48 call a OSSemPend 0 7 0
102 48 wait a OSSemPend
102 48 sw a b
103 49 ret b OSSemPend OS_ERR_PEND_ABORT 0
110 56 call b OSSemPend 0 7 0
117 56 wait b OSSemPend
117 56 sw b e
121 60 call e OSFlagPendAbort 3 0
128 60 ret e OSFlagPendAbort OS_ERR_NONE 1
128 60 sw e d
129 61 ret d OSFlagPend OS_ERR_PEND_ABORT 0
137 69 call d OSFlagPend 3 1 0 5
143 69 wait d OSFlagPend
143 69 sw d e
146 72 call e OSQPendAbort 1 1
148 72 ret e OSQPendAbort OS_ERR_PEND_ABORT_NONE 0
154 78 call e OSQPost 1 9 1 0
156 78 ret e OSQPost OS_ERR_NONE 0
159 81 call e OSQPost 2 0 1 0
161 81 ret e OSQPost OS_ERR_MSG_POOL_EMPTY 0
165 85 call e OSQDel 1 0
167 85 ret e OSQDel OS_ERR_NONE 0
170 88 call e OSQPost 2 0 1 0
172 88 ret e OSQPost OS_ERR_NONE 0
175 91 call e OSQPost 1 0 1 0
177 91 ret e OSQPost OS_ERR_OBJ_TYPE 0
181 95 call e OSSemDel 0 0
183 95 ret e OSSemDel OS_ERR_TASK_WAITING 0
187 99 call e OSFlagDel 3 1
194 99 ret e OSFlagDel OS_ERR_NONE 1
194 99 sw e d
195 100 ret d OSFlagPend OS_ERR_OBJ_DEL 0
202 107 call d OSTaskSemPend 0 0
206 107 wait d OSTaskSemPend
206 107 sw d e
209 110 call e OSSemDel 0 1
221 110 ret e OSSemDel OS_ERR_NONE 2
221 110 sw e a
222 111 ret a OSSemPend OS_ERR_OBJ_DEL 0
228 117 call a OSTaskSemPend 0 0
232 117 wait a OSTaskSemPend
232 117 sw a b
233 118 ret b OSSemPend OS_ERR_OBJ_DEL 0
239 124 call b OSTaskSemPend 0 0
243 124 wait b OSTaskSemPend
243 124 sw b e
246 127 call e OSSemDel 0 2
248 127 ret e OSSemDel OS_ERR_OPT_INVALID 0
254 133 end
";

// A scheduler that is locked twice: a task that a post readies waits for the last unlock, and nothing
// may wait under the lock. Delays that are none, that end early, and that there are not.
const LOCKED: &str = ".code
one: li a0, gate
li a1, 0
li a2, 0
os OSSemPend
os OSSchedUnlock
os OSTimeGet
li a0, 5
li a1, 0
os OSTimeDly
j one
two: os OSSchedLock
os OSSchedLock
li a0, gate
li a1, 0
os OSSemPost
li a0, none
li a1, 0
li a2, 0
os OSSemPend
li a0, 3
li a1, 1
os OSTimeDly
os OSSchedUnlock
os OSSchedUnlock
li a0, 0
li a1, 1
os OSTimeDly
li a0, a
os OSTimeDlyResume
li a0, b
os OSTimeDlyResume
j two
.sem gate, 0
.sem none, 0
.task a, one, 10, 0, 0, 0x140000
.task b, two, 20, 0, 0, 0x13e000
";

const LOCKED_TO_55: &str = "0 0 start a
4 4 call a OSSemPend 0 0 0
10 4 wait a OSSemPend
10 4 sw a b
12 6 call b OSSchedLock
14 6 ret b OSSchedLock OS_ERR_NONE 1
16 8 call b OSSchedLock
18 8 ret b OSSchedLock OS_ERR_NONE 2
22 12 call b OSSemPost 0 0
29 12 ret b OSSemPost OS_ERR_NONE 0
34 17 call b OSSemPend 1 0 0
36 17 ret b OSSemPend OS_ERR_SCHED_LOCKED 0
40 21 call b OSTimeDly 3 1
42 21 ret b OSTimeDly OS_ERR_SCHED_LOCKED 0
44 23 call b OSSchedUnlock
46 23 ret b OSSchedUnlock OS_ERR_SCHED_LOCKED 1
48 25 call b OSSchedUnlock
50 25 ret b OSSchedUnlock OS_ERR_NONE 0
50 25 sw b a
51 26 ret a OSSemPend OS_ERR_NONE 0
53 28 call a OSSchedUnlock
55 28 ret a OSSchedUnlock OS_ERR_SCHED_NOT_LOCKED 0
57 30 call a OSTimeGet
59 30 ret a OSTimeGet OS_ERR_NONE 0
63 34 call a OSTimeDly 5 0
67 34 wait a OSTimeDly
67 34 sw a b
71 38 call b OSTimeDly 0 1
73 38 ret b OSTimeDly OS_ERR_TIME_ZERO_DLY 0
76 41 call b OSTimeDlyResume 0
81 41 ret b OSTimeDlyResume OS_ERR_NONE 0
81 41 sw b a
82 42 ret a OSTimeDly OS_ERR_NONE 0
88 48 call a OSSemPend 0 0 0
94 48 wait a OSSemPend
94 48 sw a b
97 51 call b OSTimeDlyResume 1
99 51 ret b OSTimeDlyResume OS_ERR_TASK_NOT_DLY 0
102 54 call b OSSchedLock
104 54 ret b OSSchedLock OS_ERR_NONE 1
105 55 end
";

// Three posts of interrupt code under the lock: at once, or when it is gone. Interrupt code itself
// neither locks nor waits nor deletes.
const UNDER_THE_LOCK: &str = ".code
go: os OSSchedLock
li a0, s
li a1, 0
li a2, 1
os OSSemPend
li a0, s
os OSSemPend
os OSSchedUnlock
j go
post: li a0, s
li a1, 0
os OSSemPost
os OSSchedLock
os OSTimeDly
li a0, s
os OSSemDel
ret
.sem s, 0
.task a, go, 20, 0, 0, 0x140000
.vector 3, 2, post, 0x13f000
.inject
task 2, 3
task 2, 3
task 2, 3
";

const DIRECT_TO_14: &str = "0 0 start a
1 1 call a OSSchedLock
3 1 ret a OSSchedLock OS_ERR_NONE 1
4 2 irq 3 2
7 2 post 3 OSSemPost 0 0 OS_ERR_NONE 1
9 2 icall 3 OSSchedLock OS_ERR_SCHED_LOCK_ISR
11 2 icall 3 OSTimeDly OS_ERR_TIME_DLY_ISR
14 2 icall 3 OSSemDel OS_ERR_DEL_ISR
15 2 exit 3 ret
16 2 irq 3 2
19 2 post 3 OSSemPost 0 0 OS_ERR_NONE 2
21 2 icall 3 OSSchedLock OS_ERR_SCHED_LOCK_ISR
23 2 icall 3 OSTimeDly OS_ERR_TIME_DLY_ISR
26 2 icall 3 OSSemDel OS_ERR_DEL_ISR
27 2 exit 3 ret
28 2 irq 3 2
31 2 post 3 OSSemPost 0 0 OS_ERR_NONE 3
33 2 icall 3 OSSchedLock OS_ERR_SCHED_LOCK_ISR
35 2 icall 3 OSTimeDly OS_ERR_TIME_DLY_ISR
38 2 icall 3 OSSemDel OS_ERR_DEL_ISR
39 2 exit 3 ret
44 6 call a OSSemPend 0 0 1
46 6 ret a OSSemPend OS_ERR_NONE 2
49 9 call a OSSemPend 0 2 1
51 9 ret a OSSemPend OS_ERR_NONE 1
53 11 call a OSSchedUnlock
55 11 ret a OSSchedUnlock OS_ERR_NONE 0
58 14 end
";

const DEFERRED_TO_14: &str = "0 0 start a
1 1 call a OSSchedLock
3 1 ret a OSSchedLock OS_ERR_NONE 1
4 2 irq 3 2
7 2 post 3 OSSemPost 0 0 OS_ERR_NONE 0
9 2 icall 3 OSSchedLock OS_ERR_SCHED_LOCK_ISR
11 2 icall 3 OSTimeDly OS_ERR_TIME_DLY_ISR
14 2 icall 3 OSSemDel OS_ERR_DEL_ISR
15 2 exit 3 ret
16 2 irq 3 2
19 2 post 3 OSSemPost 0 0 OS_ERR_NONE 0
21 2 icall 3 OSSchedLock OS_ERR_SCHED_LOCK_ISR
23 2 icall 3 OSTimeDly OS_ERR_TIME_DLY_ISR
26 2 icall 3 OSSemDel OS_ERR_DEL_ISR
27 2 exit 3 ret
28 2 irq 3 2
31 2 post 3 OSSemPost 0 0 OS_ERR_NONE 0
33 2 icall 3 OSSchedLock OS_ERR_SCHED_LOCK_ISR
35 2 icall 3 OSTimeDly OS_ERR_TIME_DLY_ISR
38 2 icall 3 OSSemDel OS_ERR_DEL_ISR
39 2 exit 3 ret
44 6 call a OSSemPend 0 0 1
46 6 ret a OSSemPend OS_ERR_PEND_WOULD_BLOCK 0
49 9 call a OSSemPend 0 0 1
51 9 ret a OSSemPend OS_ERR_PEND_WOULD_BLOCK 0
53 11 call a OSSchedUnlock
55 11 ret a OSSchedUnlock OS_ERR_NONE 0
58 12 take OSSemPost 0 0 OS_ERR_NONE 1
61 12 take OSSemPost 0 0 OS_ERR_NONE 2
64 12 take OSSemPost 0 0 OS_ERR_NONE 3
67 14 end
";

const BOTH_TO_14: &str = "method direct
0 start a
1 call a OSSchedLock
1 ret a OSSchedLock OS_ERR_NONE 1
2 irq 3 2
2 irq 3 2
2 irq 3 2
6 call a OSSemPend 0 0 1
6 ret a OSSemPend OS_ERR_NONE 2
9 call a OSSemPend 0 2 1
9 ret a OSSemPend OS_ERR_NONE 1
11 call a OSSchedUnlock
11 ret a OSSchedUnlock OS_ERR_NONE 0
14 end
method deferred
0 start a
1 call a OSSchedLock
1 ret a OSSchedLock OS_ERR_NONE 1
2 irq 3 2
2 irq 3 2
2 irq 3 2
6 call a OSSemPend 0 0 1
6 ret a OSSemPend OS_ERR_PEND_WOULD_BLOCK 0
9 call a OSSemPend 0 0 1
9 ret a OSSemPend OS_ERR_PEND_WOULD_BLOCK 0
11 call a OSSchedUnlock
11 ret a OSSchedUnlock OS_ERR_NONE 0
14 end
P1 held
P2 broken 4
P3 held
P4 held
raw 58 67
";

#[test]
fn waits_end_otherwise_and_nothing_runs_under_the_lock(rt: HostRuntime) -> Result<(), Fail> {
    for (words, text, status, written) in [
        ("run direct 133", ENDS, Status::Done, ENDS_TO_133),
        ("run direct 55", LOCKED, Status::Done, LOCKED_TO_55),
        ("run direct 14", UNDER_THE_LOCK, Status::Done, DIRECT_TO_14),
        (
            "run deferred 14",
            UNDER_THE_LOCK,
            Status::Done,
            DEFERRED_TO_14,
        ),
        ("both 14", UNDER_THE_LOCK, Status::Broken, BOTH_TO_14),
    ] {
        let (found, held) = answer(rt.alloc(), &Given::new(words, text.as_bytes()))?;
        assert_eq!(rt; found, status, "{words} on {text}");
        assert_eq!(rt; held.as_slice(), written.as_bytes(), "{words} on {text}");
    }
    Ok(())
}
