// The futex with its wait queue, in place: Gale's futex.rs. h: the value, how many wait; e: the queue of those. They stay two slices:
// a wake takes the entries shared, which says by its type that it leaves them, so a struct of both would need three kinds of borrow.
#![tactic(auto)]

ghost use Rattle.std.specs.Prelude.{◌≡◌, ℕ, pos};
ghost use Rattle.thread.specs.Answer.{told, kept, done};
ghost use Rattle.wait_queue.specs.Turn.{outcome};
ghost use Rattle.kind.specs.Object.{sane};
ghost use Rattle.futex.specs.Futex.{futex_kind};
ghost use Rattle.futex.specs.Decision.{woken, remaining};
ghost use Rattle.futex.specs.Post.{layout, Starts, Waits, Wakes, SetsVal, GetsVal, CountsWaiters, Audits, WaitDecided, WakeDecided};

use thread::Errno::{self, EAGAIN, EINVAL};
use thread::{Caller, Coded, OK};
use wait_queue::Outcome;

// How many are to be woken, and how many stay.
#[derive(Clone, Copy, Debug, PartialEq, Eq)]
pub struct WakeDecision {
    pub woken: u16,
    pub remaining: u32,
}

impl Coded for WakeDecision {
    ghost number = { woken };

    fn code(self) -> i32 {
        self.woken.code()
    }
}

// Whether the memory is as it should be; every value is.
fn formed(h: &[u32], e: &[u64]) -> bool
    ensures { result ≡ sane futex_kind layout h.now e.now }
{
    let &[_, len, ..] = h else {
        return false;
    };
    wait_queue::fits(len, e)
}

// Blocked: the caller is to wait; EAGAIN.
pub fn wait_decide(val: u32, expected: u32) -> Result<Outcome, Errno>
    ensures { WaitDecided val expected (told outcome result) }
{
    if val != expected {
        return Err(EAGAIN);
    }
    Ok(Outcome::Blocked)
}

// EINVAL: more than can wait.
pub fn wake_decide(num_waiters: u32, wake_all: bool) -> Result<WakeDecision, Errno>
    ensures { (m : ℕ) → WakeDecided num_waiters wake_all m (told woken result) (kept remaining result m) }
{
    if wait_queue::over(num_waiters) {
        return Err(EINVAL);
    }
    let woken = if wake_all {
        num_waiters
    } else {
        num_waiters.min(1)
    };
    Ok(WakeDecision {
        woken: woken as u16,
        remaining: num_waiters - woken,
    })
}

pub fn init(h: &mut [u32], val: u32) -> Result<(), Errno>
    ensures { Starts val h.old (told done result) h.new }
{
    if h.len() < 2 {
        return Err(EINVAL);
    }
    h[0] = val;
    h[1] = 0;
    Ok(())
}

// Blocked: the value is the expected one, and the thread waits, behind all of equal or higher priority; EAGAIN: it is another.
pub fn wait(h: &mut [u32], e: &mut [u64], expected: u32, caller: Caller) -> Result<Outcome, Errno>
    ensures { Waits expected caller.id caller.priority caller.state h.old e.old (told outcome result) h.new e.new }
{
    if !formed(h, e) {
        return Err(EINVAL);
    }
    if h[0] == expected {
        return wait_queue::pend(&mut h[1], e, caller);
    }
    caller.may_wait()?;
    Err(EAGAIN)
}

// How many were woken: the first or all, each with 0.
pub fn wake(h: &mut [u32], e: &[u64], wake_all: bool, out: &mut [u64]) -> Result<u16, Errno>
    ensures { Wakes wake_all h.old e.now out.old (told pos result) h.new out.new }
{
    if !formed(h, e) {
        return Err(EINVAL);
    }
    if wake_all {
        return wait_queue::unpend_all(&mut h[1], e, OK, out);
    }
    let [first, ..] = out else {
        if h[1] == 0 {
            return Ok(0);
        }
        return Err(EINVAL);
    };
    match wait_queue::unpend_first(&mut h[1], e, OK)? {
        Some(who) => {
            *first = who;
            Ok(1)
        }
        None => Ok(0),
    }
}

// Nobody is woken.
pub fn val_set(h: &mut [u32], e: &[u64], val: u32) -> Result<(), Errno>
    ensures { SetsVal val h.old e.now (told done result) h.new }
{
    if !formed(h, e) {
        return Err(EINVAL);
    }
    h[0] = val;
    Ok(())
}

// One function of the word's index, for this and num_waiters, would be no plainer: a pattern says which word is meant, and an index does not.
pub fn val_get(h: &[u32], e: &[u64]) -> Result<u32, Errno>
    ensures { GetsVal h.now e.now (told pos result) }
{
    match *h {
        [val, len, ..] if wait_queue::fits(len, e) => Ok(val),
        _ => Err(EINVAL),
    }
}

pub fn num_waiters(h: &[u32], e: &[u64]) -> Result<u32, Errno>
    ensures { CountsWaiters h.now e.now (told pos result) }
{
    match *h {
        [_, len, ..] if wait_queue::fits(len, e) => Ok(len),
        _ => Err(EINVAL),
    }
}

// Whether the whole futex is well formed.
pub fn audit(h: &[u32], e: &[u64]) -> bool
    ensures { Audits h.now e.now result }
{
    let &[_, len, ..] = h else {
        return false;
    };
    wait_queue::audit(len, e)
}
