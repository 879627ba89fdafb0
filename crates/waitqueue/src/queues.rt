// Wait queues: the length, and the entries.
ghost use Rattle.wait_queue.specs.Post.{Starts, GetsLen, SaysEmpty, Pends, UnpendsFirst, UnpendsAll, Removes, Audits};

use crate::answers::told_who;
use thread::{Caller, told};
use wait_queue::MAX_WAITERS;

#[unsafe(no_mangle)]
pub extern "C" fn wq_wait_queue_new(len: &mut u32)
    ensures { Starts len.new }
{
    wait_queue::new(len);
}

#[unsafe(no_mangle)]
pub extern "C" fn wq_wait_queue_len(len: u32, entry: &[u64; MAX_WAITERS]) -> i32
    ensures { GetsLen len entry.now result }
{
    told(wait_queue::len(len, entry))
}

#[unsafe(no_mangle)]
pub extern "C" fn wq_wait_queue_is_empty(len: u32, entry: &[u64; MAX_WAITERS]) -> i32
    ensures { SaysEmpty len entry.now result }
{
    told(wait_queue::is_empty(len, entry))
}

#[unsafe(no_mangle)]
pub extern "C" fn wq_wait_queue_pend(
    len: &mut u32,
    entry: &mut [u64; MAX_WAITERS],
    id: u32,
    priority: u32,
    state: u32,
) -> i32
    ensures { Pends id priority state len.old entry.old result len.new entry.new }
{
    told(wait_queue::pend(
        len,
        entry,
        Caller {
            id,
            priority,
            state,
        },
    ))
}

#[unsafe(no_mangle)]
pub extern "C" fn wq_wait_queue_unpend_first(
    len: &mut u32,
    entry: &[u64; MAX_WAITERS],
    return_value: i32,
    who: &mut u64,
) -> i32
    ensures { UnpendsFirst return_value len.old entry.now who.old result len.new who.new }
{
    told_who(wait_queue::unpend_first(len, entry, return_value), who)
}

#[unsafe(no_mangle)]
pub extern "C" fn wq_wait_queue_unpend_all(
    len: &mut u32,
    entry: &[u64; MAX_WAITERS],
    return_value: i32,
    out: &mut [u64],
) -> i32
    ensures { UnpendsAll return_value len.old entry.now out.old result len.new out.new }
{
    told(wait_queue::unpend_all(len, entry, return_value, out))
}

#[unsafe(no_mangle)]
pub extern "C" fn wq_wait_queue_remove(
    len: &mut u32,
    entry: &mut [u64; MAX_WAITERS],
    id: u32,
) -> i32
    ensures { Removes id len.old entry.old result len.new entry.new }
{
    told(wait_queue::remove(len, entry, id))
}

#[unsafe(no_mangle)]
pub extern "C" fn wq_wait_queue_audit(len: u32, entry: &[u64; MAX_WAITERS]) -> bool
    ensures { Audits len entry.now result }
{
    wait_queue::audit(len, entry)
}
