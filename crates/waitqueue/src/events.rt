// Event flags: the header's one word.
ghost use Rattle.std.specs.Prelude.{◌≡◌};
ghost use Rattle.thread.specs.Answer.{told, kept};
ghost use Rattle.event.specs.Event.{decided, its_flags};
ghost use Rattle.event.specs.Post.{Starts, Posts, Sets, SetsMasked, Clears, ChecksAny, ChecksAll, GetsEvents, WaitDecided, PostDecided};

use crate::answers::wide;
use event::WaitDecideResult;
use thread::{Coded, Errno, told};

#[unsafe(no_mangle)]
pub extern "C" fn wq_event_init(head: &mut [u32; 1]) -> i32
    ensures { Starts head.old result head.new }
{
    told(event::init(head))
}

#[unsafe(no_mangle)]
pub extern "C" fn wq_event_post(head: &mut [u32; 1], new_events: u32) -> i64
    ensures { Posts new_events head.old result head.new }
{
    wide(event::post(head, new_events))
}

#[unsafe(no_mangle)]
pub extern "C" fn wq_event_set(head: &mut [u32; 1], new_events: u32) -> i64
    ensures { Sets new_events head.old result head.new }
{
    wide(event::set(head, new_events))
}

#[unsafe(no_mangle)]
pub extern "C" fn wq_event_set_masked(head: &mut [u32; 1], new_events: u32, mask: u32) -> i64
    ensures { SetsMasked new_events mask head.old result head.new }
{
    wide(event::set_masked(head, new_events, mask))
}

#[unsafe(no_mangle)]
pub extern "C" fn wq_event_clear(head: &mut [u32; 1], clear_events: u32) -> i64
    ensures { Clears clear_events head.old result head.new }
{
    wide(event::clear(head, clear_events))
}

#[unsafe(no_mangle)]
pub extern "C" fn wq_event_wait_check_any(head: &[u32; 1], desired: u32) -> i32
    ensures { ChecksAny desired head.now result }
{
    told(event::wait_check_any(head, desired))
}

#[unsafe(no_mangle)]
pub extern "C" fn wq_event_wait_check_all(head: &[u32; 1], desired: u32) -> i32
    ensures { ChecksAll desired head.now result }
{
    told(event::wait_check_all(head, desired))
}

#[unsafe(no_mangle)]
pub extern "C" fn wq_event_events_get(head: &[u32; 1]) -> i64
    ensures { GetsEvents head.now result }
{
    wide(event::events_get(head))
}

#[unsafe(no_mangle)]
pub extern "C" fn wq_event_wait_decide(
    current_events: u32,
    desired: u32,
    wait_type: u32,
    is_no_wait: bool,
    matched: &mut u32,
) -> i32
    ensures { WaitDecided current_events desired wait_type is_no_wait matched.old result matched.new }
{
    stored(
        event::wait_decide(current_events, desired, wait_type, is_no_wait),
        matched,
    )
}

fn stored(answer: Result<WaitDecideResult, Errno>, matched: &mut u32) -> i32
    ensures code { result ≡ told decided answer }
    ensures word { matched.new ≡ kept its_flags answer matched.old }
{
    match answer {
        Ok(wait) => {
            *matched = wait.matched_events;
            wait.code()
        }
        Err(refusal) => refusal.code(),
    }
}

#[unsafe(no_mangle)]
pub extern "C" fn wq_event_post_decide(current_events: u32, new_events: u32, mask: u32) -> u32
    ensures { PostDecided current_events new_events mask result }
{
    event::post_decide(current_events, new_events, mask)
}
