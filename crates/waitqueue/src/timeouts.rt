// Timeouts: the header's three words.
ghost use Rattle.std.specs.Prelude.{◌≡◌};
ghost use Rattle.thread.specs.Answer.{told, kept};
ghost use Rattle.timeout.specs.Timeout.{decided, its_tick};
ghost use Rattle.timeout.specs.Post.{AddDecided, AbortDecided, AnnounceDecided, Starts, Adds, AddsAbsolute, AddsForever, AddsNoWait, Aborts, Announces, GetsRemaining, GetsExpiry, SaysActive, SaysForever, SaysNoWait, GetsNow, CalcsTimepoint, GetsTimepointTimeout};

use crate::answers::told_in;
use thread::{Coded, Errno, told};
use timeout::AnnounceDecideResult;

#[unsafe(no_mangle)]
pub extern "C" fn wq_timeout_add_decide(current_tick: u64, duration: u64, deadline: &mut u64) -> i32
    ensures { AddDecided current_tick duration «deadline».old result «deadline».new }
{
    told_in(timeout::add_decide(current_tick, duration), deadline)
}

#[unsafe(no_mangle)]
pub extern "C" fn wq_timeout_abort_decide(is_active: bool) -> bool
    ensures { AbortDecided is_active result }
{
    timeout::abort_decide(is_active)
}

#[unsafe(no_mangle)]
pub extern "C" fn wq_timeout_announce_decide(
    current_tick: u64,
    ticks: u64,
    deadline: u64,
    active: bool,
    new_tick: &mut u64,
) -> i32
    ensures { AnnounceDecided current_tick ticks deadline «active» new_tick.old result new_tick.new }
{
    stored(
        timeout::announce_decide(current_tick, ticks, deadline, active),
        new_tick,
    )
}

fn stored(answer: Result<AnnounceDecideResult, Errno>, new_tick: &mut u64) -> i32
    ensures code { result ≡ told decided answer }
    ensures word { new_tick.new ≡ kept its_tick answer new_tick.old }
{
    match answer {
        Ok(announcement) => {
            *new_tick = announcement.new_tick;
            announcement.code()
        }
        Err(refusal) => refusal.code(),
    }
}

#[unsafe(no_mangle)]
pub extern "C" fn wq_timeout_init(head: &mut [u64; 3], current_tick: u64) -> i32
    ensures { Starts current_tick head.old result head.new }
{
    told(timeout::init(head, current_tick))
}

#[unsafe(no_mangle)]
pub extern "C" fn wq_timeout_add(head: &mut [u64; 3], duration: u64, deadline: &mut u64) -> i32
    ensures { Adds «duration» head.old «deadline».old result head.new «deadline».new }
{
    told_in(timeout::add(head, duration), deadline)
}

#[unsafe(no_mangle)]
pub extern "C" fn wq_timeout_add_absolute(head: &mut [u64; 3], deadline: u64) -> i32
    ensures { AddsAbsolute «deadline» head.old result head.new }
{
    told(timeout::add_absolute(head, deadline))
}

#[unsafe(no_mangle)]
pub extern "C" fn wq_timeout_add_forever(head: &mut [u64; 3]) -> i32
    ensures { AddsForever head.old result head.new }
{
    told(timeout::add_forever(head))
}

#[unsafe(no_mangle)]
pub extern "C" fn wq_timeout_add_no_wait(head: &mut [u64; 3]) -> i32
    ensures { AddsNoWait head.old result head.new }
{
    told(timeout::add_no_wait(head))
}

#[unsafe(no_mangle)]
pub extern "C" fn wq_timeout_abort(head: &mut [u64; 3]) -> i32
    ensures { Aborts head.old result head.new }
{
    told(timeout::abort(head))
}

#[unsafe(no_mangle)]
pub extern "C" fn wq_timeout_announce(head: &mut [u64; 3], ticks: u64) -> i32
    ensures { Announces «ticks» head.old result head.new }
{
    told(timeout::announce(head, ticks))
}

#[unsafe(no_mangle)]
pub extern "C" fn wq_timeout_remaining(head: &[u64; 3], ticks: &mut u64) -> i32
    ensures { GetsRemaining head.now «ticks».old result «ticks».new }
{
    told_in(timeout::remaining(head), ticks)
}

#[unsafe(no_mangle)]
pub extern "C" fn wq_timeout_expires(head: &[u64; 3], tick: &mut u64) -> i32
    ensures { GetsExpiry head.now «tick».old result «tick».new }
{
    told_in(timeout::expires(head), tick)
}

#[unsafe(no_mangle)]
pub extern "C" fn wq_timeout_is_active(head: &[u64; 3]) -> i32
    ensures { SaysActive head.now result }
{
    told(timeout::is_active(head))
}

#[unsafe(no_mangle)]
pub extern "C" fn wq_timeout_is_forever(head: &[u64; 3]) -> i32
    ensures { SaysForever head.now result }
{
    told(timeout::is_forever(head))
}

#[unsafe(no_mangle)]
pub extern "C" fn wq_timeout_is_no_wait(head: &[u64; 3]) -> i32
    ensures { SaysNoWait head.now result }
{
    told(timeout::is_no_wait(head))
}

#[unsafe(no_mangle)]
pub extern "C" fn wq_timeout_now(head: &[u64; 3], tick: &mut u64) -> i32
    ensures { GetsNow head.now «tick».old result «tick».new }
{
    told_in(timeout::now(head), tick)
}

#[unsafe(no_mangle)]
pub extern "C" fn wq_timeout_timepoint_calc(
    head: &[u64; 3],
    duration: u64,
    timepoint: &mut u64,
) -> i32
    ensures { CalcsTimepoint «duration» head.now «timepoint».old result «timepoint».new }
{
    told_in(timeout::timepoint_calc(head, duration), timepoint)
}

#[unsafe(no_mangle)]
pub extern "C" fn wq_timeout_timepoint_timeout(
    head: &[u64; 3],
    timepoint: u64,
    ticks: &mut u64,
) -> i32
    ensures { GetsTimepointTimeout «timepoint» head.now «ticks».old result «ticks».new }
{
    told_in(timeout::timepoint_timeout(head, timepoint), ticks)
}
