// The counting semaphore with its wait queue, in place: Gale's sem.rs. h: count, limit, how many wait; e: the queue of those.
// They are two slices and not one struct, since a call that only reads the entries says so by its type. The words are bound by
// reference (`&*h`), since each is read where it is tested: copies cost a try_take 4 instructions of 18.
#![tactic(auto)]

ghost use Rattle.std.specs.Prelude.{◌≡◌, ℕ, pos};
ghost use Rattle.thread.specs.Answer.{told, kept, done};
ghost use Rattle.wait_queue.specs.Turn.{outcome};
ghost use Rattle.kind.specs.Object.{sane};
ghost use Rattle.sem.specs.Sem.{formed as formedSem, decision, gave, handed, sem_kind};
ghost use Rattle.sem.specs.Post.{layout, Starts, Gives, TriesTake, Takes, Resets, GetsCount, GetsLimit, CountsWaiters, Audits, GiveDecided, TakeDecided};

use thread::Errno::{self, EAGAIN, EBUSY, EINVAL};
use thread::{Caller, Coded, OK};
use wait_queue::Outcome;

// What a give is to do.
#[derive(Clone, Copy, Debug, PartialEq, Eq)]
pub enum GiveDecision {
    WakeThread = 0,
    Increment = 1,
    Saturated = 2,
}

impl Coded for GiveDecision {
    ghost number = { decision };

    fn code(self) -> i32 {
        self as i32
    }
}

// What a give did. The word of a woken thread has its id, and the result 0.
#[derive(Clone, Copy, Debug, PartialEq, Eq)]
pub enum GiveResult {
    WokeThread(u64),
    Incremented,
    Saturated,
}

impl Coded for GiveResult {
    ghost number = { gave };

    fn code(self) -> i32 {
        match self {
            GiveResult::WokeThread(_) => GiveDecision::WakeThread.code(),
            GiveResult::Incremented => GiveDecision::Increment.code(),
            GiveResult::Saturated => GiveDecision::Saturated.code(),
        }
    }
}

// Whether the numbers are as they should be where somebody waits, or nobody.
fn numbers(count: u32, limit: u32, waits: bool) -> bool
    ensures { result ≡ formedSem (record { count = count; limit = limit }) waits }
{
    match (limit, waits) {
        (0, _) => false,
        (_, true) => count == 0,
        (_, false) => count <= limit,
    }
}

// Whether the memory and the numbers are as they should be.
fn formed(h: &[u32], e: &[u64]) -> bool
    ensures { result ≡ sane sem_kind layout h.now e.now }
{
    let [count, limit, waiting, ..] = h else {
        return false;
    };
    wait_queue::fits(*waiting, e) && numbers(*count, *limit, 0 < *waiting)
}

pub fn give_decide(count: u32, limit: u32, has_waiter: bool) -> Result<GiveDecision, Errno>
    ensures { GiveDecided count limit has_waiter (told decision result) }
{
    if !numbers(count, limit, has_waiter) {
        return Err(EINVAL);
    }
    Ok(if has_waiter {
        GiveDecision::WakeThread
    } else if count < limit {
        GiveDecision::Increment
    } else {
        GiveDecision::Saturated
    })
}

// Blocked: the caller is to wait.
pub fn take_decide(count: u32, is_no_wait: bool) -> Result<Outcome, Errno>
    ensures { TakeDecided count is_no_wait (told outcome result) }
{
    match (count, is_no_wait) {
        (0, true) => Err(EBUSY),
        (0, false) => Ok(Outcome::Blocked),
        _ => Ok(Outcome::Acquired),
    }
}

// EINVAL: a limit of 0, or a count above it.
pub fn init(h: &mut [u32], count: u32, limit: u32) -> Result<(), Errno>
    ensures { Starts count limit h.old (told done result) h.new }
{
    if h.len() < 3 || !numbers(count, limit, false) {
        return Err(EINVAL);
    }
    h[0] = count;
    h[1] = limit;
    h[2] = 0;
    Ok(())
}

pub fn give(h: &mut [u32], e: &[u64]) -> Result<GiveResult, Errno>
    ensures { (x : ℕ) → Gives h.old e.now x (told gave result) h.new (kept handed result x) }
{
    let [count, limit, waiting, ..] = &*h else {
        return Err(EINVAL);
    };
    if !wait_queue::fits(0, e) {
        return Err(EINVAL);
    }
    if 0 < *waiting {
        if !formed(h, e) {
            return Err(EINVAL);
        }
        let Some(who) = wait_queue::unpend_first(&mut h[2], e, OK)? else {
            unreachable!();
        };
        return Ok(GiveResult::WokeThread(who));
    }
    if *count < *limit {
        h[0] = *count + 1;
        return Ok(GiveResult::Incremented);
    }
    if !formed(h, e) {
        return Err(EINVAL);
    }
    Ok(GiveResult::Saturated)
}

// EBUSY: there is none.
pub fn try_take(h: &mut [u32], e: &[u64]) -> Result<(), Errno>
    ensures { TriesTake h.old e.now (told done result) h.new }
{
    let [count, limit, waiting, ..] = &*h else {
        return Err(EINVAL);
    };
    if !wait_queue::fits(0, e) {
        return Err(EINVAL);
    }
    if *count == 0 {
        return Err(if formed(h, e) { EBUSY } else { EINVAL });
    }
    if *limit < *count || *waiting != 0 {
        return Err(EINVAL);
    }
    h[0] -= 1;
    Ok(())
}

// Blocked: the caller waits, behind all of equal or higher priority.
pub fn take_blocking(h: &mut [u32], e: &mut [u64], caller: Caller) -> Result<Outcome, Errno>
    ensures { Takes caller.id caller.priority caller.state h.old e.old (told outcome result) h.new e.new }
{
    let [count, limit, waiting, ..] = &*h else {
        return Err(EINVAL);
    };
    if !wait_queue::fits(0, e) {
        return Err(EINVAL);
    }
    if 0 < *count {
        if *limit < *count || 0 < *waiting {
            return Err(EINVAL);
        }
        caller.may_wait()?;
        h[0] = *count - 1;
        return Ok(Outcome::Acquired);
    }
    if *limit == 0 {
        return Err(EINVAL);
    }
    wait_queue::pend(&mut h[2], e, caller)
}

// How many were woken, each with EAGAIN; the count is 0.
pub fn reset(h: &mut [u32], e: &[u64], out: &mut [u64]) -> Result<u16, Errno>
    ensures { Resets h.old e.now out.old (told pos result) h.new out.new }
{
    if !formed(h, e) || out.len() < h[2] as usize {
        return Err(EINVAL);
    }
    h[0] = 0;
    wait_queue::unpend_all(&mut h[2], e, EAGAIN.code(), out)
}

// The three getters stay apart: one function over the word's index would need a clause over that index, no shorter than this.
pub fn count_get(h: &[u32], e: &[u64]) -> Result<u32, Errno>
    ensures { GetsCount h.now e.now (told pos result) }
{
    match h {
        [count, ..] if formed(h, e) => Ok(*count),
        _ => Err(EINVAL),
    }
}

pub fn limit_get(h: &[u32], e: &[u64]) -> Result<u32, Errno>
    ensures { GetsLimit h.now e.now (told pos result) }
{
    match h {
        [_, limit, ..] if formed(h, e) => Ok(*limit),
        _ => Err(EINVAL),
    }
}

pub fn num_waiters(h: &[u32], e: &[u64]) -> Result<u32, Errno>
    ensures { CountsWaiters h.now e.now (told pos result) }
{
    match h {
        [_, _, waiting, ..] if formed(h, e) => Ok(*waiting),
        _ => Err(EINVAL),
    }
}

// Whether the whole semaphore is well formed.
pub fn audit(h: &[u32], e: &[u64]) -> bool
    ensures { Audits h.now e.now result }
{
    formed(h, e) && wait_queue::audit(h[2], e)
}
