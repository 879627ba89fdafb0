// Stacks: the header's two words, and the words that it can hold.
ghost use Rattle.std.specs.Prelude.{◌≡◌};
ghost use Rattle.thread.specs.Answer.{told, kept};
ghost use Rattle.stack.specs.Answer.{push_number, push_count, pop_number, pop_count};
ghost use Rattle.stack.specs.Post.{PushDecided, PopDecided, Starts, Pushes, Pops, CountsFree, CountsUsed, GetsCapacity, SaysFull, SaysEmpty};

use crate::answers::{told_in, wide};
use stack::{PopDecision, PushDecision};
use thread::{Coded, Errno, OK, told};

// Told beside OK: the word is for the first that waits; the caller is to wait.
const WAKE_WAITER: i32 = 1;

const WAITS: i32 = 1;

#[unsafe(no_mangle)]
pub extern "C" fn wq_stack_init(head: &mut [u32; 2], word: &[u64], capacity: u32) -> i32
    ensures { Starts capacity head.old word.now result head.new }
{
    told(stack::init(head, word, capacity))
}

#[unsafe(no_mangle)]
pub extern "C" fn wq_stack_push(head: &mut [u32; 2], word: &mut [u64], data: u64) -> i32
    ensures { Pushes «data» head.old word.old result head.new word.new }
{
    told(stack::push(head, word, data))
}

#[unsafe(no_mangle)]
pub extern "C" fn wq_stack_pop(head: &mut [u32; 2], word: &[u64], data: &mut u64) -> i32
    ensures { Pops head.old word.now «data».old result head.new «data».new }
{
    told_in(stack::pop(head, word), data)
}

#[unsafe(no_mangle)]
pub extern "C" fn wq_stack_num_free(head: &[u32; 2], word: &[u64]) -> i64
    ensures { CountsFree head.now word.now result }
{
    wide(stack::num_free(head, word))
}

#[unsafe(no_mangle)]
pub extern "C" fn wq_stack_num_used(head: &[u32; 2], word: &[u64]) -> i64
    ensures { CountsUsed head.now word.now result }
{
    wide(stack::num_used(head, word))
}

#[unsafe(no_mangle)]
pub extern "C" fn wq_stack_capacity(head: &[u32; 2], word: &[u64]) -> i64
    ensures { GetsCapacity head.now word.now result }
{
    wide(stack::capacity(head, word))
}

#[unsafe(no_mangle)]
pub extern "C" fn wq_stack_is_full(head: &[u32; 2], word: &[u64]) -> i32
    ensures { SaysFull head.now word.now result }
{
    told(stack::is_full(head, word))
}

#[unsafe(no_mangle)]
pub extern "C" fn wq_stack_is_empty(head: &[u32; 2], word: &[u64]) -> i32
    ensures { SaysEmpty head.now word.now result }
{
    told(stack::is_empty(head, word))
}

#[unsafe(no_mangle)]
pub extern "C" fn wq_stack_push_decide(
    count: u32,
    capacity: u32,
    has_waiter: bool,
    new_count: &mut u32,
) -> i32
    ensures { PushDecided count capacity has_waiter new_count.old result new_count.new }
{
    pushed(
        stack::push_decide(count, capacity, has_waiter),
        count,
        new_count,
    )
}

#[unsafe(no_mangle)]
pub extern "C" fn wq_stack_pop_decide(count: u32, is_no_wait: bool, new_count: &mut u32) -> i32
    ensures { PopDecided count is_no_wait new_count.old result new_count.new }
{
    popped(stack::pop_decide(count, is_no_wait), count, new_count)
}

fn pushed(answer: Result<PushDecision, Errno>, count: u32, word: &mut u32) -> i32
    ensures code { result ≡ told push_number answer }
    ensures word { word.new ≡ kept (push_count count) answer word.old }
{
    match answer {
        Ok(PushDecision::Store { new_count }) => {
            *word = new_count;
            OK
        }
        Ok(PushDecision::WakeWaiter) => {
            *word = count;
            WAKE_WAITER
        }
        Err(refusal) => refusal.code(),
    }
}

fn popped(answer: Result<PopDecision, Errno>, count: u32, word: &mut u32) -> i32
    ensures code { result ≡ told pop_number answer }
    ensures word { word.new ≡ kept (pop_count count) answer word.old }
{
    match answer {
        Ok(PopDecision::Pop { new_count }) => {
            *word = new_count;
            OK
        }
        Ok(PopDecision::Pend) => {
            *word = count;
            WAITS
        }
        Err(refusal) => refusal.code(),
    }
}
