// Condition variables: the header's word, and the entries.
ghost use Rattle.condvar.specs.Post.{Starts, Signals, Broadcasts, Waits, CountsWaiters, SaysHasWaiters, Audits, SignalDecided, BroadcastDecided, WaitDecided};

use crate::answers::{told_who, wide};
use crate::mutexes::told_heir;
use thread::{Caller, Coded, told};
use wait_queue::MAX_WAITERS;

#[unsafe(no_mangle)]
pub extern "C" fn wq_condvar_signal_decide(has_waiter: bool) -> i32
    ensures { SignalDecided has_waiter result }
{
    condvar::signal_decide(has_waiter).code()
}

#[unsafe(no_mangle)]
pub extern "C" fn wq_condvar_broadcast_decide(num_waiters: u32) -> i32
    ensures { BroadcastDecided num_waiters result }
{
    told(condvar::broadcast_decide(num_waiters))
}

#[unsafe(no_mangle)]
pub extern "C" fn wq_condvar_wait_decide(is_no_wait: bool) -> i32
    ensures { WaitDecided is_no_wait result }
{
    told(condvar::wait_decide(is_no_wait))
}

#[unsafe(no_mangle)]
pub extern "C" fn wq_condvar_init(head: &mut [u32; 1]) -> i32
    ensures { Starts head.old result head.new }
{
    told(condvar::init(head))
}

#[unsafe(no_mangle)]
pub extern "C" fn wq_condvar_signal(
    head: &mut [u32; 1],
    entry: &[u64; MAX_WAITERS],
    who: &mut u64,
) -> i32
    ensures { Signals head.old entry.now who.old result head.new who.new }
{
    told_who(condvar::signal(head, entry), who)
}

#[unsafe(no_mangle)]
pub extern "C" fn wq_condvar_broadcast(
    head: &mut [u32; 1],
    entry: &[u64; MAX_WAITERS],
    out: &mut [u64],
) -> i32
    ensures { Broadcasts head.old entry.now out.old result head.new out.new }
{
    told(condvar::broadcast(head, entry, out))
}

#[unsafe(no_mangle)]
pub extern "C" fn wq_condvar_wait_blocking(
    head: &mut [u32; 1],
    entry: &mut [u64; MAX_WAITERS],
    mutex_head: &mut [u32; 4],
    mutex_entry: &[u64; MAX_WAITERS],
    id: u32,
    priority: u32,
    state: u32,
    who: &mut u64,
) -> i32
    ensures { Waits id priority state head.old entry.old mutex_head.old mutex_entry.now who.old result head.new entry.new mutex_head.new who.new }
{
    let caller = Caller {
        id,
        priority,
        state,
    };
    told_heir(
        condvar::wait_blocking(head, entry, mutex_head, mutex_entry, caller),
        who,
    )
}

#[unsafe(no_mangle)]
pub extern "C" fn wq_condvar_num_waiters(head: &[u32; 1], entry: &[u64; MAX_WAITERS]) -> i64
    ensures { CountsWaiters head.now entry.now result }
{
    wide(condvar::num_waiters(head, entry))
}

#[unsafe(no_mangle)]
pub extern "C" fn wq_condvar_has_waiters(head: &[u32; 1], entry: &[u64; MAX_WAITERS]) -> i32
    ensures { SaysHasWaiters head.now entry.now result }
{
    told(condvar::has_waiters(head, entry))
}

#[unsafe(no_mangle)]
pub extern "C" fn wq_condvar_audit(head: &[u32; 1], entry: &[u64; MAX_WAITERS]) -> bool
    ensures { Audits head.now entry.now result }
{
    condvar::audit(head, entry)
}
