// The mutex with its wait queue, in place: Gale's mutex.rs. h: whether it is owned, the owner, its locks, how many wait; e: the queue of those.
// They stay two slices: all but lock_blocking take e shared, and so promise by its type that it stays; one struct would lend both alike.
#![tactic(auto)]

ghost use Rattle.std.specs.Prelude.{◌≡◌, ℕ, pos, ◌≤◌, length, set};
ghost use Rattle.thread.specs.Answer.{told, kept, done, truth};
ghost use Rattle.wait_queue.specs.Turn.{outcome};
ghost use Rattle.mutex.specs.Answer.{to_lock, to_unlock, to_release, unlocking, heir};
ghost use Rattle.mutex.specs.Parts.{Owned, Nests};
ghost use Rattle.mutex.specs.Post.{Starts, TriesLock, Locks, Passes, Unlocks, ReleaseDecided, SaysLocked, GetsLockCount, CountsWaiters, GetsOwner, Audits, LockDecided, UnlockDecided};

use thread::Errno::{self, EBUSY, EDEADLK, EINVAL, ENOENT, EOVERFLOW, EPERM};
use thread::{Caller, Coded, OK};
use wait_queue::Outcome;

// What a lock is to do. Gale's Busy is EBUSY and its Overflow EOVERFLOW.
#[derive(Clone, Copy, Debug, PartialEq, Eq)]
pub enum LockDecision {
    Acquire = 0,
    Pend = 1,
    Reentrant = 2,
}

impl Coded for LockDecision {
    ghost number = { to_lock };

    fn code(self) -> i32 {
        self as i32
    }
}

// What an unlock is to do. FullyUnlocked: the first that waits is to be the owner, if there is one. Gale's NotLocked is EINVAL and its NotOwner EPERM.
#[derive(Clone, Copy, Debug, PartialEq, Eq)]
pub enum UnlockDecisionKind {
    Released = 0,
    FullyUnlocked = 1,
}

impl Coded for UnlockDecisionKind {
    ghost number = { to_unlock };

    fn code(self) -> i32 {
        self as i32
    }
}

// What a wait at a condition variable would do to the mutex.
#[derive(Clone, Copy, Debug, PartialEq, Eq)]
pub enum ReleaseDecision {
    Unlocked = 1,
    Transferred = 2,
}

impl Coded for ReleaseDecision {
    ghost number = { to_release };

    fn code(self) -> i32 {
        self as i32
    }
}

// What an unlock did. Transferred: the thread of the word owns it now, and is to be made ready with 0.
#[derive(Clone, Copy, Debug, PartialEq, Eq)]
pub enum UnlockResult {
    Released,
    Unlocked,
    Transferred(u64),
}

impl Coded for UnlockResult {
    ghost number = { unlocking };

    fn code(self) -> i32 {
        match self {
            UnlockResult::Released => 0,
            UnlockResult::Unlocked => 1,
            UnlockResult::Transferred(_) => 2,
        }
    }
}

// Who owns a mutex whose memory and numbers are as they should be.
fn owner(h: &[u32], e: &[u64]) -> Result<Option<u32>, Errno>
    ensures { Owned h.now e.now result }
{
    let &[flag, owner, count, waiting, ..] = h else {
        return Err(EINVAL);
    };
    if !wait_queue::fits(waiting, e) {
        return Err(EINVAL);
    }
    match (flag, count, waiting) {
        (0, 0, 0) => Ok(None),
        (0, _, _) | (_, 0, _) => Err(EINVAL),
        _ => Ok(Some(owner)),
    }
}

// A free one is taken.
fn take(h: &mut [u32], id: u32)
    requires { 4 ≤ length h.old }
    ensures { h.new ≡ set (set (set h.old 0 1) 1 id) 2 1 }
{
    h[0] = 1;
    h[1] = id;
    h[2] = 1;
}

pub fn lock_decide(
    lock_count: u32,
    owner_is_null: bool,
    owner_is_current: bool,
    is_no_wait: bool,
) -> Result<LockDecision, Errno>
    ensures { LockDecided lock_count owner_is_null owner_is_current is_no_wait (told to_lock result) }
{
    if owner_is_null {
        if lock_count != 0 {
            return Err(EINVAL);
        }
        return Ok(LockDecision::Acquire);
    }
    if lock_count == 0 {
        return Err(EINVAL);
    }
    match (owner_is_current, is_no_wait) {
        (true, _) if lock_count == u32::MAX => Err(EOVERFLOW),
        (true, _) => Ok(LockDecision::Reentrant),
        (false, true) => Err(EBUSY),
        (false, false) => Ok(LockDecision::Pend),
    }
}

pub fn unlock_decide(
    lock_count: u32,
    owner_is_null: bool,
    owner_is_current: bool,
) -> Result<UnlockDecisionKind, Errno>
    ensures { UnlockDecided lock_count owner_is_null owner_is_current (told to_unlock result) }
{
    if lock_count == 0 {
        return Err(EINVAL);
    }
    if !owner_is_current {
        return Err(if owner_is_null { EINVAL } else { EPERM });
    }
    if owner_is_null {
        return Err(EINVAL);
    }
    if lock_count == 1 {
        return Ok(UnlockDecisionKind::FullyUnlocked);
    }
    Ok(UnlockDecisionKind::Released)
}

pub fn init(h: &mut [u32]) -> Result<(), Errno>
    ensures { Starts h.old (told done result) h.new }
{
    if h.len() < 4 {
        return Err(EINVAL);
    }
    h[0] = 0;
    h[2] = 0;
    h[3] = 0;
    Ok(())
}

// One lock more of its owner.
fn nest(h: &mut [u32]) -> Result<(), Errno>
    requires { 4 ≤ length h.old }
    ensures { Nests h.old result h.new }
{
    h[2] = h[2].checked_add(1).ok_or(EOVERFLOW)?;
    Ok(())
}

// The thread owns it, with one lock more; EBUSY: another does.
pub fn try_lock(h: &mut [u32], e: &[u64], id: u32) -> Result<(), Errno>
    ensures { TriesLock id h.old e.now (told done result) h.new }
{
    match owner(h, e)? {
        None => take(h, id),
        Some(other) if other != id => return Err(EBUSY),
        Some(_) => nest(h)?,
    }
    Ok(())
}

// The thread owns it, with one lock more, or waits, behind all of equal or higher priority. For another's mutex the queue tests itself and
// the caller.
pub fn lock_blocking(h: &mut [u32], e: &mut [u64], caller: Caller) -> Result<Outcome, Errno>
    ensures { Locks caller.id caller.priority caller.state h.old e.old (told outcome result) h.new e.new }
{
    if !kind::housed(h, 4, e) {
        return Err(EINVAL);
    }
    if h[2] == 0 {
        owner(h, e)?;
        caller.may_wait()?;
        take(h, caller.id);
        return Ok(Outcome::Acquired);
    }
    if h[0] == 0 {
        return Err(EINVAL);
    }
    if h[1] != caller.id {
        return wait_queue::pend(&mut h[3], e, caller);
    }
    if !wait_queue::fits(h[3], e) {
        return Err(EINVAL);
    }
    caller.may_wait()?;
    nest(h)?;
    Ok(Outcome::Acquired)
}

// The last unlock, whoever calls and whatever the numbers are.
pub fn pass(h: &mut [u32], e: &[u64]) -> Result<UnlockResult, Errno>
    ensures { (x : ℕ) → Passes h.old e.now x (told unlocking result) h.new (kept heir result x) }
{
    if h.len() < 4 {
        return Err(EINVAL);
    }
    let Some(next) = wait_queue::unpend_first(&mut h[3], e, OK)? else {
        h[0] = 0;
        h[2] = 0;
        return Ok(UnlockResult::Unlocked);
    };
    take(h, (next % 4294967296) as u32);
    Ok(UnlockResult::Transferred(next))
}

// One lock less; EPERM: another owns it. Each word is read where it is needed: who reads all four first takes a quarter more time.
pub fn unlock(h: &mut [u32], e: &[u64], id: u32) -> Result<UnlockResult, Errno>
    ensures { (x : ℕ) → Unlocks id h.old e.now x (told unlocking result) h.new (kept heir result x) }
{
    if !kind::housed(h, 4, e) {
        return Err(EINVAL);
    }
    if h[2] == 0 {
        return Err(EINVAL);
    }
    if h[0] == 0 {
        return Err(EINVAL);
    }
    if !wait_queue::fits(h[3], e) {
        return Err(EINVAL);
    }
    if h[1] != id {
        return Err(EPERM);
    }
    if h[2] == 1 {
        return pass(h, e);
    }
    h[2] -= 1;
    Ok(UnlockResult::Released)
}

// EPERM: another owns it; EDEADLK: the thread holds it more than once.
pub fn release_decide(h: &[u32], e: &[u64], caller: Caller) -> Result<ReleaseDecision, Errno>
    ensures { ReleaseDecided caller.id caller.priority caller.state h.now e.now (told to_release result) }
{
    let owner = owner(h, e)?;
    caller.may_wait()?;
    if owner.ok_or(EINVAL)? != caller.id {
        return Err(EPERM);
    }
    match (h[2], h[3]) {
        (1, 0) => Ok(ReleaseDecision::Unlocked),
        (1, _) => Ok(ReleaseDecision::Transferred),
        _ => Err(EDEADLK),
    }
}

pub fn is_locked(h: &[u32], e: &[u64]) -> Result<bool, Errno>
    ensures { SaysLocked h.now e.now (told truth result) }
{
    Ok(owner(h, e)?.is_some())
}

pub fn lock_count_get(h: &[u32], e: &[u64]) -> Result<u32, Errno>
    ensures { GetsLockCount h.now e.now (told pos result) }
{
    owner(h, e)?;
    Ok(h[2])
}

pub fn num_waiters(h: &[u32], e: &[u64]) -> Result<u32, Errno>
    ensures { CountsWaiters h.now e.now (told pos result) }
{
    owner(h, e)?;
    Ok(h[3])
}

// ENOENT: nobody owns it.
pub fn owner_get(h: &[u32], e: &[u64]) -> Result<u32, Errno>
    ensures { GetsOwner h.now e.now (told pos result) }
{
    owner(h, e)?.ok_or(ENOENT)
}

// Whether the whole mutex is well formed.
pub fn audit(h: &[u32], e: &[u64]) -> bool
    ensures { Audits h.now e.now result }
{
    match owner(h, e) {
        Err(_) => false,
        Ok(None) => wait_queue::audit(h[3], e),
        Ok(Some(_)) => wait_queue::audit(h[3], e) && !wait_queue::holds(h[3], e, h[1]),
    }
}
