// Priorities and threads. A thread crosses as its numbers; its id, and where it is not passed its result, no call reads.
ghost use Rattle.std.specs.Prelude.{◌≡◌, pos};
ghost use Rattle.thread.specs.Answer.{told, truth};
ghost use Rattle.thread.specs.Post.{GetsPriority, SaysHigherThan, SaysHigherOrEqual, SaysBlocked};
ghost use Rattle.waitqueue.specs.Threads.{MakesPriority, Dispatches, Blocks, Wakes, Stored, thr};

use thread::{Coded, Errno, OK, Priority, Thread, told};

#[unsafe(no_mangle)]
pub extern "C" fn wq_priority_new(value: u32) -> i32
    ensures { MakesPriority value result }
{
    match Priority::new(value) {
        Ok(p) => p.value as i32,
        Err(refusal) => refusal.code(),
    }
}

#[unsafe(no_mangle)]
pub extern "C" fn wq_priority_get(priority: u32) -> i32
    ensures { GetsPriority priority result }
{
    match (Priority { value: priority }).get() {
        Ok(value) => value as i32,
        Err(refusal) => refusal.code(),
    }
}

#[unsafe(no_mangle)]
pub extern "C" fn wq_priority_is_higher_than(a: u32, b: u32) -> i32
    ensures { SaysHigherThan a b result }
{
    told(Priority { value: a }.is_higher_than(Priority { value: b }))
}

#[unsafe(no_mangle)]
pub extern "C" fn wq_priority_is_higher_or_equal(a: u32, b: u32) -> i32
    ensures { SaysHigherOrEqual a b result }
{
    told(Priority { value: a }.is_higher_or_equal(Priority { value: b }))
}

#[unsafe(no_mangle)]
pub extern "C" fn wq_thread_dispatch(priority: u32, state: &mut u32) -> i32
    ensures { Dispatches priority state.old result state.new }
{
    stored(any(priority, *state).dispatch(), state, &mut 0)
}

#[unsafe(no_mangle)]
pub extern "C" fn wq_thread_block(priority: u32, state: &mut u32) -> i32
    ensures { Blocks priority state.old result state.new }
{
    stored(any(priority, *state).block(), state, &mut 0)
}

#[unsafe(no_mangle)]
pub extern "C" fn wq_thread_wake(
    priority: u32,
    state: &mut u32,
    return_value: &mut i32,
    res: i32,
) -> i32
    ensures { Wakes priority res state.old return_value.old result state.new return_value.new }
{
    stored(any(priority, *state).wake(res), state, return_value)
}

// A thread of any id and result.
fn any(priority: u32, state: u32) -> Thread
    ensures { result ≡ thr 0 priority state (pos 0) }
{
    Thread {
        id: 0,
        priority,
        state,
        return_value: 0,
    }
}

fn stored(answer: Result<Thread, Errno>, state: &mut u32, return_value: &mut i32) -> i32
    ensures { Stored answer state.old return_value.old result state.new return_value.new }
{
    match answer {
        Ok(t) => {
            let result = t.return_value;
            *state = t.state;
            *return_value = result;
            OK
        }
        Err(refusal) => refusal.code(),
    }
}

#[unsafe(no_mangle)]
pub extern "C" fn wq_thread_is_blocked(state: u32) -> bool
    ensures { SaysBlocked state result }
{
    any(0, state).is_blocked()
}
