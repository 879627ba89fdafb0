// The timeout, in place: Gale's timeout.rs. h: its deadline, whether it is active (0: no), its clock.
#![tactic(auto)]

ghost use Rattle.std.specs.Prelude.{◌≡◌, ℕ};
ghost use Rattle.thread.specs.Answer.{told, kept, done, itself, truth};
ghost use Rattle.timeout.specs.Timeout.{right, until, add, abort, announce, remaining, expires, decided, its_tick};
ghost use Rattle.timeout.specs.Post.{AddDecided, AbortDecided, AnnounceDecided, Starts, Adds, AddsAbsolute, AddsForever, AddsNoWait, Aborts, Announces, GetsRemaining, GetsExpiry, SaysActive, SaysForever, SaysNoWait, GetsNow, CalcsTimepoint, GetsTimepointTimeout, Reads, Idle, Arms, Later};

use thread::Coded;
use thread::Errno::{self, EBUSY, EINVAL};

// The deadline that is never reached, and the one that is reached at once.
pub const K_FOREVER_TICKS: u64 = u64::MAX;

pub const K_NO_WAIT_TICKS: u64 = 0;

// The clock after an announcement, and whether it fires.
#[derive(Clone, Copy, Debug, PartialEq, Eq)]
pub struct AnnounceDecideResult {
    pub new_tick: u64,
    pub fired: bool,
}

impl Coded for AnnounceDecideResult {
    ghost number = { decided };

    fn code(self) -> i32 {
        i32::from(self.fired)
    }
}

// What a header says.
#[derive(Clone, Copy, Debug, PartialEq, Eq)]
struct Timeout {
    deadline: u64,
    active: bool,
    clock: u64,
}

// Whether the numbers are a timeout's.
fn right(active: bool, deadline: u64, clock: u64) -> bool
    ensures { result ≡ right «active» deadline clock }
{
    clock != K_FOREVER_TICKS && (!active || deadline == K_NO_WAIT_TICKS || clock <= deadline)
}

fn read(h: &[u64]) -> Result<Timeout, Errno>
    ensures { Reads h.now result }
{
    let &[deadline, active, clock, ..] = h else {
        return Err(EINVAL);
    };
    let active = active > 0;
    if !right(active, deadline, clock) {
        return Err(EINVAL);
    }
    Ok(Timeout {
        deadline,
        active,
        clock,
    })
}

// The clock of one that is not active.
fn idle(h: &[u64]) -> Result<u64, Errno>
    ensures { Idle h.now result }
{
    let t = read(h)?;
    if t.active {
        return Err(EBUSY);
    }
    Ok(t.clock)
}

// The ticks from the clock to the tick; none, if that is behind.
fn until(tick: u64, clock: u64) -> u64
    ensures { result ≡ until tick clock }
{
    if tick == K_FOREVER_TICKS {
        return K_FOREVER_TICKS;
    }
    tick.saturating_sub(clock)
}

// So many ticks after the clock; EINVAL: that would reach never.
fn later(clock: u64, ticks: u64) -> Result<u64, Errno>
    ensures { Later clock ticks result }
{
    // Not checked_add, which costs add_decide 13 instructions on x86-64, where this costs 9.
    if K_FOREVER_TICKS - clock <= ticks {
        return Err(EINVAL);
    }
    Ok(clock + ticks)
}

// The deadline.
pub fn add_decide(current_tick: u64, duration: u64) -> Result<u64, Errno>
    ensures { (x : ℕ) → AddDecided current_tick duration x (told done result) (kept itself result x) }
{
    later(current_tick, duration)
}

// Whether there is something to abort.
pub fn abort_decide(is_active: bool) -> bool
    ensures { AbortDecided is_active result }
{
    is_active
}

pub fn announce_decide(
    current_tick: u64,
    ticks: u64,
    deadline: u64,
    active: bool,
) -> Result<AnnounceDecideResult, Errno>
    ensures { (n : ℕ) → AnnounceDecided current_tick ticks deadline «active» n (told decided result) (kept its_tick result n) }
{
    if !right(active, deadline, current_tick) {
        return Err(EINVAL);
    }
    let new_tick = later(current_tick, ticks)?;
    Ok(AnnounceDecideResult {
        new_tick,
        fired: active && deadline <= new_tick,
    })
}

// It is not active, and its clock is at current_tick.
pub fn init(h: &mut [u64], current_tick: u64) -> Result<(), Errno>
    ensures { Starts current_tick h.old (told done result) h.new }
{
    let &mut [_, _, _, ..] = h else {
        return Err(EINVAL);
    };
    if current_tick == K_FOREVER_TICKS {
        return Err(EINVAL);
    }
    h[0] = 0;
    h[1] = 0;
    h[2] = current_tick;
    Ok(())
}

// It is active, with the deadline that is told, so many ticks after the clock; EBUSY: it is so already.
pub fn add(h: &mut [u64], duration: u64) -> Result<u64, Errno>
    ensures { (x : ℕ) → Adds «duration» h.old x (told done result) h.new (kept itself result x) }
{
    let &mut [old_deadline, active, clock, ..] = h else {
        return Err(EINVAL);
    };
    if active > 0 {
        return Err(if right(true, old_deadline, clock) {
            EBUSY
        } else {
            EINVAL
        });
    }
    let deadline = later(clock, duration)?;
    h[0] = deadline;
    h[1] = 1;
    Ok(deadline)
}

// It is active, with this deadline; EBUSY: it is active already; EINVAL: behind the clock, or never.
pub fn add_absolute(h: &mut [u64], deadline: u64) -> Result<(), Errno>
    ensures { AddsAbsolute «deadline» h.old (told done result) h.new }
{
    let clock = idle(h)?;
    if deadline < clock || deadline == K_FOREVER_TICKS {
        return Err(EINVAL);
    }
    arm(h, deadline)
}

// It is active, and never fires.
pub fn add_forever(h: &mut [u64]) -> Result<(), Errno>
    ensures { AddsForever h.old (told done result) h.new }
{
    arm(h, K_FOREVER_TICKS)
}

// It is active, and the next announcement fires it.
pub fn add_no_wait(h: &mut [u64]) -> Result<(), Errno>
    ensures { AddsNoWait h.old (told done result) h.new }
{
    arm(h, K_NO_WAIT_TICKS)
}

fn arm(h: &mut [u64], deadline: u64) -> Result<(), Errno>
    ensures { Arms deadline h.old result h.new }
{
    idle(h)?;
    h[0] = deadline;
    h[1] = 1;
    Ok(())
}

// It was active, and is not; EINVAL: it was not.
pub fn abort(h: &mut [u64]) -> Result<(), Errno>
    ensures { Aborts h.old (told done result) h.new }
{
    let &mut [deadline, active, clock, ..] = h else {
        return Err(EINVAL);
    };
    if active == 0 || deadline <= clock && !right(true, deadline, clock) {
        return Err(EINVAL);
    }
    h[1] = 0;
    Ok(())
}

// The clock moves on, and whether it was active and due: it is not active then; EINVAL: the clock would reach never.
pub fn announce(h: &mut [u64], ticks: u64) -> Result<bool, Errno>
    ensures { Announces «ticks» h.old (told truth result) h.new }
{
    let &mut [deadline, active, clock, ..] = h else {
        return Err(EINVAL);
    };
    let n = later(clock, ticks)?;
    if active == 0 || n < deadline {
        h[2] = n;
        return Ok(false);
    }
    if deadline < clock && !right(true, deadline, clock) {
        return Err(EINVAL);
    }
    h[2] = n;
    h[1] = 0;
    Ok(true)
}

pub fn remaining(h: &[u64]) -> Result<u64, Errno>
    ensures { (x : ℕ) → GetsRemaining h.now x (told done result) (kept itself result x) }
{
    let t = read(h)?;
    Ok(if t.active {
        until(t.deadline, t.clock)
    } else {
        0
    })
}

pub fn expires(h: &[u64]) -> Result<u64, Errno>
    ensures { (x : ℕ) → GetsExpiry h.now x (told done result) (kept itself result x) }
{
    let t = read(h)?;
    Ok(if t.active { t.deadline } else { t.clock })
}

pub fn is_active(h: &[u64]) -> Result<bool, Errno>
    ensures { SaysActive h.now (told truth result) }
{
    Ok(read(h)?.active)
}

pub fn is_forever(h: &[u64]) -> Result<bool, Errno>
    ensures { SaysForever h.now (told truth result) }
{
    Ok(read(h)?.deadline == K_FOREVER_TICKS)
}

pub fn is_no_wait(h: &[u64]) -> Result<bool, Errno>
    ensures { SaysNoWait h.now (told truth result) }
{
    Ok(read(h)?.deadline == K_NO_WAIT_TICKS)
}

pub fn now(h: &[u64]) -> Result<u64, Errno>
    ensures { (x : ℕ) → GetsNow h.now x (told done result) (kept itself result x) }
{
    Ok(read(h)?.clock)
}

// The timepoint so many ticks after the clock; EINVAL: that would reach never.
pub fn timepoint_calc(h: &[u64], duration: u64) -> Result<u64, Errno>
    ensures { (x : ℕ) → CalcsTimepoint «duration» h.now x (told done result) (kept itself result x) }
{
    later(read(h)?.clock, duration)
}

// The ticks from the clock to the timepoint.
pub fn timepoint_timeout(h: &[u64], timepoint: u64) -> Result<u64, Errno>
    ensures { (x : ℕ) → GetsTimepointTimeout «timepoint» h.now x (told done result) (kept itself result x) }
{
    Ok(until(timepoint, read(h)?.clock))
}
