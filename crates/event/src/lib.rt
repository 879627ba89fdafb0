// Event flags, in place: Gale's event.rs. h: the word of flags, one in each bit.
#![tactic(auto)]

ghost use Rattle.std.specs.Prelude.{◌≡◌, [], ℕ, pos};
ghost use Rattle.store.specs.Store.{looks};
ghost use Rattle.thread.specs.Answer.{told, kept, done, truth};
ghost use Rattle.event.specs.Event.{met, type_number, ReadsType, decided, its_flags};
ghost use Rattle.event.specs.Post.{Starts, Posts, Sets, SetsMasked, Clears, ChecksAny, ChecksAll, GetsEvents, WaitDecided, PostDecided, Changed, place};

use std::mem;
use thread::Coded;
use thread::Errno::{self, EBUSY, EINVAL};

// For what a thread waits: for any desired flag, or for all of them.
#[derive(Clone, Copy, Debug, PartialEq, Eq)]
pub enum WaitType {
    Any = 0,
    All = 1,
}

impl TryFrom<u32> for WaitType {
    type Error = Errno;

    ghost try_from_gives = { ReadsType };

    fn try_from(wait_type: u32) -> Result<Self, Errno> {
        match wait_type {
            0 => Ok(WaitType::Any),
            1 => Ok(WaitType::All),
            _ => Err(EINVAL),
        }
    }
}

// What a wait is to do.
#[derive(Clone, Copy, Debug, PartialEq, Eq)]
pub enum WaitDecision {
    Matched = 0,
    Pend = 1,
}

// That, and the desired flags that are there; none, if it is to wait.
#[derive(Clone, Copy, Debug, PartialEq, Eq)]
pub struct WaitDecideResult {
    pub decision: WaitDecision,
    pub matched_events: u32,
}

impl Coded for WaitDecideResult {
    ghost number = { decided };

    fn code(self) -> i32 {
        self.decision as i32
    }
}

// No flag is there.
pub fn init(h: &mut [u32]) -> Result<(), Errno>
    ensures { Starts h.old (told done result) h.new }
{
    let [events, ..] = h else {
        return Err(EINVAL);
    };
    *events = 0;
    Ok(())
}

// The flags before a change, and after it.
fn changed<F: FnOnce(u32) -> u32>(h: &mut [u32], change: F) -> Result<(u32, u32), Errno>
    requires { F.IsAlwaysCallable change }
    ensures { Changed (F.post change) h.old result h.new }
{
    let [events, ..] = h else {
        return Err(EINVAL);
    };
    let before = *events;
    *events = change(before);
    Ok((before, *events))
}

// The flags after it.
pub fn post(h: &mut [u32], new_events: u32) -> Result<u32, Errno>
    ensures { Posts new_events h.old (told pos result) h.new }
{
    Ok(changed(h, |events| events | new_events)?.1)
}

// The flags before it.
pub fn set(h: &mut [u32], new_events: u32) -> Result<u32, Errno>
    ensures { Sets new_events h.old (told pos result) h.new }
{
    Ok(changed(h, |_| new_events)?.0)
}

// The flags before it.
pub fn set_masked(h: &mut [u32], new_events: u32, mask: u32) -> Result<u32, Errno>
    ensures { SetsMasked new_events mask h.old (told pos result) h.new }
{
    Ok(changed(h, |events| post_decide(events, new_events, mask))?.0)
}

// The flags after it.
pub fn clear(h: &mut [u32], clear_events: u32) -> Result<u32, Errno>
    ensures { Clears clear_events h.old (told pos result) h.new }
{
    Ok(changed(h, |events| events & !clear_events)?.1)
}

// Whether the flags e end a wait of this type for d.
fn is_met(e: u32, d: u32, wait_type: WaitType) -> bool
    ensures { result ≡ met (type_number wait_type) d e }
{
    match wait_type {
        WaitType::Any => e & d != 0,
        WaitType::All => e & d == d,
    }
}

fn wait_check(h: &[u32], desired: u32, wait_type: WaitType) -> Result<bool, Errno>
    ensures { told truth result ≡ looks place (λ e. truth (met (type_number wait_type) desired e)) h.now [] }
{
    Ok(is_met(events_get(h)?, desired, wait_type))
}

pub fn wait_check_any(h: &[u32], desired: u32) -> Result<bool, Errno>
    ensures { ChecksAny desired h.now (told truth result) }
{
    wait_check(h, desired, WaitType::Any)
}

pub fn wait_check_all(h: &[u32], desired: u32) -> Result<bool, Errno>
    ensures { ChecksAll desired h.now (told truth result) }
{
    wait_check(h, desired, WaitType::All)
}

pub fn events_get(h: &[u32]) -> Result<u32, Errno>
    ensures { GetsEvents h.now (told pos result) }
{
    let &[events, ..] = h else {
        return Err(EINVAL);
    };
    Ok(events)
}

// EBUSY: the caller may not wait. EINVAL: a wait type above 1.
pub fn wait_decide(
    current_events: u32,
    desired: u32,
    wait_type: u32,
    is_no_wait: bool,
) -> Result<WaitDecideResult, Errno>
    ensures { (n : ℕ) → WaitDecided current_events desired wait_type is_no_wait n (told decided result) (kept its_flags result n) }
{
    if is_met(current_events, desired, WaitType::try_from(wait_type)?) {
        return Ok(WaitDecideResult {
            decision: WaitDecision::Matched,
            matched_events: current_events & desired,
        });
    }
    if is_no_wait {
        return Err(EBUSY);
    }
    Ok(WaitDecideResult {
        decision: WaitDecision::Pend,
        matched_events: 0,
    })
}

// The flags of the mask are as in new_events, the others as they are.
pub fn post_decide(current_events: u32, new_events: u32, mask: u32) -> u32
    ensures { PostDecided current_events new_events mask result }
{
    (current_events & !mask) | (new_events & mask)
}
