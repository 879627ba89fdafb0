// The timer, in place: Gale's timer.rs. h: how often it expired since it was read, its period, whether it runs (0: no).
#![tactic(auto)]

ghost use Rattle.std.specs.Prelude.{◌≡◌, [], ℕ, pos};
ghost use Rattle.store.specs.Store.{Did};
ghost use Rattle.thread.specs.Answer.{told, kept, done, truth};
ghost use Rattle.timer.specs.Timer.{set_running, decided, its_status};
ghost use Rattle.timer.specs.Post.{ExpireDecided, Starts, StartsRunning, Stops, Expires, GetsStatus, PeeksStatus, GetsPeriod, SaysRunning, place};

use std::mem;
use thread::Coded;
use thread::Errno::{self, EINVAL, EOVERFLOW};

// How often a timer expired then, and whether it will again.
#[derive(Clone, Copy, Debug, PartialEq, Eq)]
pub struct ExpireDecideResult {
    pub new_status: u32,
    pub is_periodic: bool,
}

impl Coded for ExpireDecideResult {
    ghost number = { decided };

    fn code(self) -> i32 {
        i32::from(self.is_periodic)
    }
}

// EOVERFLOW: it expired u32::MAX times.
pub fn expire_decide(status: u32, period: u32) -> Result<ExpireDecideResult, Errno>
    ensures { (n : ℕ) → ExpireDecided status period n (told decided result) (kept its_status result n) }
{
    Ok(ExpireDecideResult {
        new_status: status.checked_add(1).ok_or(EOVERFLOW)?,
        is_periodic: period > 0,
    })
}

// It does not run, and never expired.
pub fn init(h: &mut [u32], period: u32) -> Result<(), Errno>
    ensures { Starts period h.old (told done result) h.new }
{
    let &mut [_, _, _, ..] = h else {
        return Err(EINVAL);
    };
    h[0] = 0;
    h[1] = period;
    h[2] = 0;
    Ok(())
}

pub fn start(h: &mut [u32]) -> Result<(), Errno>
    ensures { StartsRunning h.old (told done result) h.new }
{
    set_running(h, true)
}

pub fn stop(h: &mut [u32]) -> Result<(), Errno>
    ensures { Stops h.old (told done result) h.new }
{
    set_running(h, false)
}

fn set_running(h: &mut [u32], runs: bool) -> Result<(), Errno>
    ensures { Did place (set_running runs) h.old [] (told done result) h.new [] }
{
    let &mut [_, _, _, ..] = h else {
        return Err(EINVAL);
    };
    h[0] = 0;
    h[2] = u32::from(runs);
    Ok(())
}

// How often it expired, this time too; EOVERFLOW: u32::MAX times already.
pub fn expire(h: &mut [u32]) -> Result<u32, Errno>
    ensures { Expires h.old (told pos result) h.new }
{
    let [status, _, _, ..] = h else {
        return Err(EINVAL);
    };
    *status = status.checked_add(1).ok_or(EOVERFLOW)?;
    Ok(*status)
}

// How often it expired; the count is 0 then.
pub fn status_get(h: &mut [u32]) -> Result<u32, Errno>
    ensures { GetsStatus h.old (told pos result) h.new }
{
    let [status, _, _, ..] = h else {
        return Err(EINVAL);
    };
    Ok(mem::take(status))
}

pub fn status_peek(h: &[u32]) -> Result<u32, Errno>
    ensures { PeeksStatus h.now (told pos result) }
{
    let &[status, _, _, ..] = h else {
        return Err(EINVAL);
    };
    Ok(status)
}

pub fn period_get(h: &[u32]) -> Result<u32, Errno>
    ensures { GetsPeriod h.now (told pos result) }
{
    let &[_, period, _, ..] = h else {
        return Err(EINVAL);
    };
    Ok(period)
}

pub fn is_running(h: &[u32]) -> Result<bool, Errno>
    ensures { SaysRunning h.now (told truth result) }
{
    let &[_, _, running, ..] = h else {
        return Err(EINVAL);
    };
    Ok(running > 0)
}
