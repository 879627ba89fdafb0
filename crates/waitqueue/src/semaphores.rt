// Counting semaphores: the header's three words, and the entries.
ghost use Rattle.std.specs.Prelude.{◌≡◌};
ghost use Rattle.thread.specs.Answer.{told, kept};
ghost use Rattle.sem.specs.Sem.{gave, handed};
ghost use Rattle.sem.specs.Post.{Starts, Gives, TriesTake, Takes, Resets, GetsCount, GetsLimit, CountsWaiters, Audits, GiveDecided, TakeDecided};

use crate::answers::wide;
use sem::GiveResult;
use thread::{Caller, Errno, told};
use wait_queue::MAX_WAITERS;

#[unsafe(no_mangle)]
pub extern "C" fn wq_sem_give_decide(count: u32, limit: u32, has_waiter: bool) -> i32
    ensures { GiveDecided count limit has_waiter result }
{
    told(sem::give_decide(count, limit, has_waiter))
}

#[unsafe(no_mangle)]
pub extern "C" fn wq_sem_take_decide(count: u32, is_no_wait: bool) -> i32
    ensures { TakeDecided count is_no_wait result }
{
    told(sem::take_decide(count, is_no_wait))
}

#[unsafe(no_mangle)]
pub extern "C" fn wq_sem_init(head: &mut [u32; 3], count: u32, limit: u32) -> i32
    ensures { Starts count limit head.old result head.new }
{
    told(sem::init(head, count, limit))
}

#[unsafe(no_mangle)]
pub extern "C" fn wq_sem_give(head: &mut [u32; 3], entry: &[u64; MAX_WAITERS], who: &mut u64) -> i32
    ensures { Gives head.old entry.now who.old result head.new who.new }
{
    told_gave(sem::give(head, entry), who)
}

// The word of the thread that is woken, if one is, goes to who.
fn told_gave(answer: Result<GiveResult, Errno>, who: &mut u64) -> i32
    ensures code { result ≡ told gave answer }
    ensures who { who.new ≡ kept handed answer who.old }
{
    if let Ok(GiveResult::WokeThread(woken)) = answer {
        *who = woken;
    }
    told(answer)
}

#[unsafe(no_mangle)]
pub extern "C" fn wq_sem_try_take(head: &mut [u32; 3], entry: &[u64; MAX_WAITERS]) -> i32
    ensures { TriesTake head.old entry.now result head.new }
{
    told(sem::try_take(head, entry))
}

#[unsafe(no_mangle)]
pub extern "C" fn wq_sem_take_blocking(
    head: &mut [u32; 3],
    entry: &mut [u64; MAX_WAITERS],
    id: u32,
    priority: u32,
    state: u32,
) -> i32
    ensures { Takes id priority state head.old entry.old result head.new entry.new }
{
    told(sem::take_blocking(
        head,
        entry,
        Caller {
            id,
            priority,
            state,
        },
    ))
}

#[unsafe(no_mangle)]
pub extern "C" fn wq_sem_reset(
    head: &mut [u32; 3],
    entry: &[u64; MAX_WAITERS],
    out: &mut [u64],
) -> i32
    ensures { Resets head.old entry.now out.old result head.new out.new }
{
    told(sem::reset(head, entry, out))
}

#[unsafe(no_mangle)]
pub extern "C" fn wq_sem_count_get(head: &[u32; 3], entry: &[u64; MAX_WAITERS]) -> i64
    ensures { GetsCount head.now entry.now result }
{
    wide(sem::count_get(head, entry))
}

#[unsafe(no_mangle)]
pub extern "C" fn wq_sem_limit_get(head: &[u32; 3], entry: &[u64; MAX_WAITERS]) -> i64
    ensures { GetsLimit head.now entry.now result }
{
    wide(sem::limit_get(head, entry))
}

#[unsafe(no_mangle)]
pub extern "C" fn wq_sem_num_waiters(head: &[u32; 3], entry: &[u64; MAX_WAITERS]) -> i64
    ensures { CountsWaiters head.now entry.now result }
{
    wide(sem::num_waiters(head, entry))
}

#[unsafe(no_mangle)]
pub extern "C" fn wq_sem_audit(head: &[u32; 3], entry: &[u64; MAX_WAITERS]) -> bool
    ensures { Audits head.now entry.now result }
{
    sem::audit(head, entry)
}
