// Futexes: the header's two words, and the entries.
ghost use Rattle.futex.specs.Post.{Starts, Waits, Wakes, SetsVal, GetsVal, CountsWaiters, Audits, WaitDecided, WakeDecided};

use crate::answers::wide;
use thread::{Caller, Coded, told};
use wait_queue::MAX_WAITERS;

#[unsafe(no_mangle)]
pub extern "C" fn wq_futex_wait_decide(val: u32, expected: u32) -> i32
    ensures { WaitDecided val expected result }
{
    told(futex::wait_decide(val, expected))
}

#[unsafe(no_mangle)]
pub extern "C" fn wq_futex_wake_decide(num_waiters: u32, wake_all: bool, remaining: &mut u32) -> i32
    ensures { WakeDecided num_waiters wake_all remaining.old result remaining.new }
{
    match futex::wake_decide(num_waiters, wake_all) {
        Ok(decision) => {
            *remaining = decision.remaining;
            decision.code()
        }
        Err(refusal) => refusal.code(),
    }
}

#[unsafe(no_mangle)]
pub extern "C" fn wq_futex_init(head: &mut [u32; 2], val: u32) -> i32
    ensures { Starts val head.old result head.new }
{
    told(futex::init(head, val))
}

#[unsafe(no_mangle)]
pub extern "C" fn wq_futex_wait(
    head: &mut [u32; 2],
    entry: &mut [u64; MAX_WAITERS],
    expected: u32,
    id: u32,
    priority: u32,
    state: u32,
) -> i32
    ensures { Waits expected id priority state head.old entry.old result head.new entry.new }
{
    told(futex::wait(
        head,
        entry,
        expected,
        Caller {
            id,
            priority,
            state,
        },
    ))
}

#[unsafe(no_mangle)]
pub extern "C" fn wq_futex_wake(
    head: &mut [u32; 2],
    entry: &[u64; MAX_WAITERS],
    wake_all: bool,
    out: &mut [u64],
) -> i32
    ensures { Wakes wake_all head.old entry.now out.old result head.new out.new }
{
    told(futex::wake(head, entry, wake_all, out))
}

#[unsafe(no_mangle)]
pub extern "C" fn wq_futex_val_set(head: &mut [u32; 2], entry: &[u64; MAX_WAITERS], val: u32) -> i32
    ensures { SetsVal val head.old entry.now result head.new }
{
    told(futex::val_set(head, entry, val))
}

#[unsafe(no_mangle)]
pub extern "C" fn wq_futex_val_get(head: &[u32; 2], entry: &[u64; MAX_WAITERS]) -> i64
    ensures { GetsVal head.now entry.now result }
{
    wide(futex::val_get(head, entry))
}

#[unsafe(no_mangle)]
pub extern "C" fn wq_futex_num_waiters(head: &[u32; 2], entry: &[u64; MAX_WAITERS]) -> i64
    ensures { CountsWaiters head.now entry.now result }
{
    wide(futex::num_waiters(head, entry))
}

#[unsafe(no_mangle)]
pub extern "C" fn wq_futex_audit(head: &[u32; 2], entry: &[u64; MAX_WAITERS]) -> bool
    ensures { Audits head.now entry.now result }
{
    futex::audit(head, entry)
}
