// The condition variable, a wait queue, in place: Gale's condvar.rs. h: how many wait; e: the queue of those. They stay two slices:
// signal and broadcast take e shared, and so promise by its type that it stays; one struct would lend both alike.
#![tactic(auto)]

ghost use Rattle.std.specs.Prelude.{◌≡◌, ℕ, pos};
ghost use Rattle.thread.specs.Answer.{told, kept, done, truth, whether, given};
ghost use Rattle.wait_queue.specs.Turn.{outcome};
ghost use Rattle.kind.specs.Object.{sane};
ghost use Rattle.mutex.specs.Answer.{unlocking, heir};
ghost use Rattle.condvar.specs.Condvar.{condvar_kind};
ghost use Rattle.condvar.specs.Answer.{to_signal};
ghost use Rattle.condvar.specs.Post.{layout, Starts, Signals, Broadcasts, Waits, CountsWaiters, SaysHasWaiters, Audits, SignalDecided, BroadcastDecided, WaitDecided};

use mutex::UnlockResult;
use thread::Errno::{self, EAGAIN, EINVAL};
use thread::{Caller, Coded, OK};
use wait_queue::Outcome;

// What a signal is to do.
#[derive(Clone, Copy, Debug, PartialEq, Eq)]
pub enum SignalAction {
    Noop = 0,
    WakeOne = 1,
}

impl Coded for SignalAction {
    ghost number = { to_signal };

    fn code(self) -> i32 {
        self as i32
    }
}

// Whether the memory is as it should be.
fn formed(h: &[u32], e: &[u64]) -> bool
    ensures { result ≡ sane condvar_kind layout h.now e.now }
{
    let &[waiting, ..] = h else {
        return false;
    };
    wait_queue::fits(waiting, e)
}

pub fn signal_decide(has_waiter: bool) -> SignalAction
    ensures { SignalDecided has_waiter (to_signal result) }
{
    if has_waiter {
        SignalAction::WakeOne
    } else {
        SignalAction::Noop
    }
}

// How many are to be woken; EINVAL: more than can wait.
pub fn broadcast_decide(num_waiters: u32) -> Result<u16, Errno>
    ensures { BroadcastDecided num_waiters (told pos result) }
{
    if wait_queue::over(num_waiters) {
        return Err(EINVAL);
    }
    Ok(num_waiters as u16)
}

// Blocked: the caller is to wait.
pub fn wait_decide(is_no_wait: bool) -> Result<Outcome, Errno>
    ensures { WaitDecided is_no_wait (told outcome result) }
{
    if is_no_wait {
        Err(EAGAIN)
    } else {
        Ok(Outcome::Blocked)
    }
}

pub fn init(h: &mut [u32]) -> Result<(), Errno>
    ensures { Starts h.old (told done result) h.new }
{
    if h.is_empty() {
        return Err(EINVAL);
    }
    h[0] = 0;
    Ok(())
}

// Who is to be made ready, with 0; none, if nobody waits.
pub fn signal(h: &mut [u32], e: &[u64]) -> Result<Option<u64>, Errno>
    ensures { (x : ℕ) → Signals h.old e.now x (told whether result) h.new (kept given result x) }
{
    if !formed(h, e) {
        return Err(EINVAL);
    }
    wait_queue::unpend_first(&mut h[0], e, OK)
}

// How many were woken: all, each with 0.
pub fn broadcast(h: &mut [u32], e: &[u64], out: &mut [u64]) -> Result<u16, Errno>
    ensures { Broadcasts h.old e.now out.old (told pos result) h.new out.new }
{
    if !formed(h, e) {
        return Err(EINVAL);
    }
    wait_queue::unpend_all(&mut h[0], e, OK, out)
}

// The caller gives its mutex back and waits, both or neither; what the unlock did.
pub fn wait_blocking(
    h: &mut [u32],
    e: &mut [u64],
    mutex_h: &mut [u32],
    mutex_e: &[u64],
    caller: Caller,
) -> Result<UnlockResult, Errno>
    ensures { (x : ℕ) → Waits caller.id caller.priority caller.state h.old e.old mutex_h.old mutex_e.now x (told unlocking result) h.new e.new mutex_h.new (kept heir result x) }
{
    mutex::release_decide(mutex_h, mutex_e, caller)?;
    if h.len() < 1 {
        return Err(EINVAL);
    }
    wait_queue::enter(&mut h[0], e, caller)?;
    mutex::pass(mutex_h, mutex_e)
}

pub fn num_waiters(h: &[u32], e: &[u64]) -> Result<u32, Errno>
    ensures { CountsWaiters h.now e.now (told pos result) }
{
    if !formed(h, e) {
        return Err(EINVAL);
    }
    Ok(h[0])
}

pub fn has_waiters(h: &[u32], e: &[u64]) -> Result<bool, Errno>
    ensures { SaysHasWaiters h.now e.now (told truth result) }
{
    Ok(num_waiters(h, e)? != 0)
}

// Whether the whole condition variable is well formed.
pub fn audit(h: &[u32], e: &[u64]) -> bool
    ensures { Audits h.now e.now result }
{
    formed(h, e) && wait_queue::audit(h[0], e)
}
