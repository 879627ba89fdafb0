// Mutexes: the header's four words, and the entries.
ghost use Rattle.std.specs.Prelude.{◌≡◌};
ghost use Rattle.thread.specs.Answer.{told, kept};
ghost use Rattle.mutex.specs.Answer.{unlocking, heir};
ghost use Rattle.mutex.specs.Post.{Starts, TriesLock, Locks, Unlocks, SaysLocked, GetsLockCount, CountsWaiters, GetsOwner, Audits, LockDecided, UnlockDecided};

use crate::answers::wide;
use mutex::UnlockResult;
use thread::{Caller, Errno, told};
use wait_queue::MAX_WAITERS;

// The word of the thread that owns the mutex now, if it was handed over, goes to who.
pub(crate) fn told_heir(answer: Result<UnlockResult, Errno>, who: &mut u64) -> i32
    ensures code { result ≡ told unlocking answer }
    ensures who { who.new ≡ kept heir answer who.old }
{
    if let Ok(UnlockResult::Transferred(next)) = answer {
        *who = next;
    }
    told(answer)
}

#[unsafe(no_mangle)]
pub extern "C" fn wq_mutex_lock_decide(
    lock_count: u32,
    owner_is_null: bool,
    owner_is_current: bool,
    is_no_wait: bool,
) -> i32
    ensures { LockDecided lock_count owner_is_null owner_is_current is_no_wait result }
{
    told(mutex::lock_decide(lock_count, owner_is_null, owner_is_current, is_no_wait))
}

#[unsafe(no_mangle)]
pub extern "C" fn wq_mutex_unlock_decide(
    lock_count: u32,
    owner_is_null: bool,
    owner_is_current: bool,
) -> i32
    ensures { UnlockDecided lock_count owner_is_null owner_is_current result }
{
    told(mutex::unlock_decide(lock_count, owner_is_null, owner_is_current))
}

#[unsafe(no_mangle)]
pub extern "C" fn wq_mutex_init(head: &mut [u32; 4]) -> i32
    ensures { Starts head.old result head.new }
{
    told(mutex::init(head))
}

#[unsafe(no_mangle)]
pub extern "C" fn wq_mutex_try_lock(head: &mut [u32; 4], entry: &[u64; MAX_WAITERS], id: u32) -> i32
    ensures { TriesLock id head.old entry.now result head.new }
{
    told(mutex::try_lock(head, entry, id))
}

#[unsafe(no_mangle)]
pub extern "C" fn wq_mutex_lock_blocking(
    head: &mut [u32; 4],
    entry: &mut [u64; MAX_WAITERS],
    id: u32,
    priority: u32,
    state: u32,
) -> i32
    ensures { Locks id priority state head.old entry.old result head.new entry.new }
{
    told(mutex::lock_blocking(
        head,
        entry,
        Caller {
            id,
            priority,
            state,
        },
    ))
}

#[unsafe(no_mangle)]
pub extern "C" fn wq_mutex_unlock(
    head: &mut [u32; 4],
    entry: &[u64; MAX_WAITERS],
    id: u32,
    who: &mut u64,
) -> i32
    ensures { Unlocks id head.old entry.now who.old result head.new who.new }
{
    told_heir(mutex::unlock(head, entry, id), who)
}

#[unsafe(no_mangle)]
pub extern "C" fn wq_mutex_is_locked(head: &[u32; 4], entry: &[u64; MAX_WAITERS]) -> i32
    ensures { SaysLocked head.now entry.now result }
{
    told(mutex::is_locked(head, entry))
}

#[unsafe(no_mangle)]
pub extern "C" fn wq_mutex_lock_count_get(head: &[u32; 4], entry: &[u64; MAX_WAITERS]) -> i64
    ensures { GetsLockCount head.now entry.now result }
{
    wide(mutex::lock_count_get(head, entry))
}

#[unsafe(no_mangle)]
pub extern "C" fn wq_mutex_num_waiters(head: &[u32; 4], entry: &[u64; MAX_WAITERS]) -> i64
    ensures { CountsWaiters head.now entry.now result }
{
    wide(mutex::num_waiters(head, entry))
}

#[unsafe(no_mangle)]
pub extern "C" fn wq_mutex_owner_get(head: &[u32; 4], entry: &[u64; MAX_WAITERS]) -> i64
    ensures { GetsOwner head.now entry.now result }
{
    wide(mutex::owner_get(head, entry))
}

#[unsafe(no_mangle)]
pub extern "C" fn wq_mutex_audit(head: &[u32; 4], entry: &[u64; MAX_WAITERS]) -> bool
    ensures { Audits head.now entry.now result }
{
    mutex::audit(head, entry)
}
