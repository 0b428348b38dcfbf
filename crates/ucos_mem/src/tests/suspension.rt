// Tasks that are suspended, also more than once, by themselves and by others, and resumed.

use super::{Given, answer};
use std::test::Fail;
use ucos_top::Status;

// The task of priority 20 suspends the waiting one twice: its post wakes a task that is not ready yet, and
// the second resume readies it. That task then suspends itself, and reads the answer once it is resumed. A
// resume of a task that waits does not ready it; under the lock a task can not suspend itself; an
// interrupt handler can not resume.
const SUSPENDED: &str = ".code
high: li a0, s
li a1, 0
li a2, 0
os OSSemPend
li a0, 4294967295
os OSTaskSuspend
j high
low: li a0, a
os OSTaskSuspend
li a0, a
os OSTaskSuspend
li a0, s
li a1, 0
os OSSemPost
li a0, a
os OSTaskResume
li a0, a
os OSTaskResume
li a0, a
os OSTaskResume
li a0, a
os OSTaskResume
li a0, b
os OSTaskResume
li a0, a
os OSTaskSuspend
li a0, a
os OSTaskResume
os OSSchedLock
li a0, 4294967295
os OSTaskSuspend
li a0, c
os OSTaskSuspend
os OSSchedUnlock
li a0, 9
os OSTaskSuspend
li a0, 4294967295
os OSTaskSuspend
stop: j stop
idle: j idle
v: li a0, 1
os OSTaskResume
li a0, 0
li a1, 0
os OSSemPost
ret
.sem s, 0
.task a, high, 10, 0, 0, 0x140000
.task b, low, 20, 0, 0, 0x13e000
.task c, idle, 30, 0, 0, 0x13c000
.vector 3, 2, v, 0x13F000
.inject
task 63, 3
look 109, 30
";

// What both runs print up to the interrupt's exit.
const UP_TO_THE_EXIT: &str = "0 0 start a
4 4 call a OSSemPend 0 0 0
10 4 wait a OSSemPend
10 4 sw a b
13 7 call b OSTaskSuspend 0
15 7 ret b OSTaskSuspend OS_ERR_NONE 0
18 10 call b OSTaskSuspend 0
20 10 ret b OSTaskSuspend OS_ERR_NONE 0
24 14 call b OSSemPost 0 0
28 14 ret b OSSemPost OS_ERR_NONE 0
31 17 call b OSTaskResume 0
33 17 ret b OSTaskResume OS_ERR_NONE 0
36 20 call b OSTaskResume 0
41 20 ret b OSTaskResume OS_ERR_NONE 0
41 20 sw b a
42 21 ret a OSSemPend OS_ERR_NONE 0
46 25 call a OSTaskSuspend 4294967295
50 25 wait a OSTaskSuspend
50 25 sw a b
53 28 call b OSTaskResume 0
58 28 ret b OSTaskResume OS_ERR_NONE 0
58 28 sw b a
59 29 ret a OSTaskSuspend OS_ERR_NONE 0
65 35 call a OSSemPend 0 0 0
71 35 wait a OSSemPend
71 35 sw a b
74 38 call b OSTaskResume 0
76 38 ret b OSTaskResume OS_ERR_TASK_NOT_SUSPENDED 0
79 41 call b OSTaskResume 1
81 41 ret b OSTaskResume OS_ERR_TASK_RESUME_SELF 0
84 44 call b OSTaskSuspend 0
86 44 ret b OSTaskSuspend OS_ERR_NONE 0
89 47 call b OSTaskResume 0
91 47 ret b OSTaskResume OS_ERR_NONE 0
93 49 call b OSSchedLock
95 49 ret b OSSchedLock OS_ERR_NONE 1
99 53 call b OSTaskSuspend 4294967295
101 53 ret b OSTaskSuspend OS_ERR_SCHED_LOCKED 0
104 56 call b OSTaskSuspend 2
108 56 ret b OSTaskSuspend OS_ERR_NONE 0
109 57 look 30 fwd back
110 58 call b OSSchedUnlock
112 58 ret b OSSchedUnlock OS_ERR_NONE 0
115 61 call b OSTaskSuspend 9
117 61 ret b OSTaskSuspend OS_ERR_TASK_INVALID 0
119 63 irq 3 2
121 63 icall 3 OSTaskResume OS_ERR_TASK_RESUME_ISR
125 63 post 3 OSSemPost 0 0 OS_ERR_NONE 0
126 63 exit 3 ret
";

const DIRECT_END: &str = "126 63 sw b a
127 63 ret a OSSemPend OS_ERR_NONE 0
131 67 call a OSTaskSuspend 4294967295
135 67 wait a OSTaskSuspend
135 67 sw a b
138 70 end
";

// The post wakes the task where the handler takes it.
const DEFERRED_END: &str = "134 63 take OSSemPost 0 0 OS_ERR_NONE 0
134 63 sw b a
135 63 ret a OSSemPend OS_ERR_NONE 0
139 67 call a OSTaskSuspend 4294967295
143 67 wait a OSTaskSuspend
143 67 sw a b
146 70 end
";

#[test]
fn tasks_are_suspended_and_resumed(rt: HostRuntime) -> Result<(), Fail> {
    let alloc = rt.alloc();
    for (words, end) in [
        ("run direct 70", DIRECT_END),
        ("run deferred 70", DEFERRED_END),
    ] {
        let mut written = UP_TO_THE_EXIT.as_bytes().to_vec(alloc)?;
        written.extend_from_slice(end.as_bytes())?;
        let (status, held) = answer(alloc, &Given::new(words, SUSPENDED.as_bytes()))?;
        assert_eq!(rt; status, Status::Done, "{words}");
        assert_eq!(rt; held.as_slice(), written.as_slice(), "{words}");
    }
    Ok(())
}
