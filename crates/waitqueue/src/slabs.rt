// Memory slabs: the header's four words, and the links.
ghost use Rattle.std.specs.Prelude.{◌≡◌};
ghost use Rattle.thread.specs.Answer.{told, kept};
ghost use Rattle.mem_slab.specs.Answer.{alloc_number, alloc_used, free_number, free_used};
ghost use Rattle.mem_slab.specs.Post.{CountsUsed, CountsFree, CountsBlocks, GetsBlockSize, SaysFull, SaysEmpty, Allocs, Frees, Starts, AllocDecided, FreeDecided};

use crate::answers::wide;
use mem_slab::{AllocDecision, FreeDecision};
use thread::{Coded, Errno, OK, told};

// Told beside OK: the caller is to wait; the block is for one that waits.
const WAITS: i32 = 1;

const WAKE_THREAD: i32 = 1;

#[unsafe(no_mangle)]
pub extern "C" fn wq_mem_slab_init(
    head: &mut [u32; 4],
    link: &mut [u32],
    block_size: u32,
    num_blocks: u32,
) -> i32
    ensures { Starts block_size num_blocks head.old link.old result head.new link.new }
{
    told(mem_slab::init(head, link, block_size, num_blocks))
}

#[unsafe(no_mangle)]
pub extern "C" fn wq_mem_slab_alloc(head: &mut [u32; 4], link: &mut [u32]) -> i64
    ensures { Allocs head.old link.old result head.new link.new }
{
    wide(mem_slab::alloc(head, link))
}

#[unsafe(no_mangle)]
pub extern "C" fn wq_mem_slab_free(head: &mut [u32; 4], link: &mut [u32], block: u32) -> i32
    ensures { Frees block head.old link.old result head.new link.new }
{
    told(mem_slab::free(head, link, block))
}

#[unsafe(no_mangle)]
pub extern "C" fn wq_mem_slab_num_used_get(head: &[u32; 4], link: &[u32]) -> i64
    ensures { CountsUsed head.now link.now result }
{
    wide(mem_slab::num_used_get(head, link))
}

#[unsafe(no_mangle)]
pub extern "C" fn wq_mem_slab_num_free_get(head: &[u32; 4], link: &[u32]) -> i64
    ensures { CountsFree head.now link.now result }
{
    wide(mem_slab::num_free_get(head, link))
}

#[unsafe(no_mangle)]
pub extern "C" fn wq_mem_slab_num_blocks_get(head: &[u32; 4], link: &[u32]) -> i64
    ensures { CountsBlocks head.now link.now result }
{
    wide(mem_slab::num_blocks_get(head, link))
}

#[unsafe(no_mangle)]
pub extern "C" fn wq_mem_slab_block_size_get(head: &[u32; 4], link: &[u32]) -> i64
    ensures { GetsBlockSize head.now link.now result }
{
    wide(mem_slab::block_size_get(head, link))
}

#[unsafe(no_mangle)]
pub extern "C" fn wq_mem_slab_is_full(head: &[u32; 4], link: &[u32]) -> i32
    ensures { SaysFull head.now link.now result }
{
    told(mem_slab::is_full(head, link))
}

#[unsafe(no_mangle)]
pub extern "C" fn wq_mem_slab_is_empty(head: &[u32; 4], link: &[u32]) -> i32
    ensures { SaysEmpty head.now link.now result }
{
    told(mem_slab::is_empty(head, link))
}

#[unsafe(no_mangle)]
pub extern "C" fn wq_mem_slab_alloc_decide(
    num_used: u32,
    num_blocks: u32,
    is_no_wait: bool,
    new_used: &mut u32,
) -> i32
    ensures { AllocDecided num_used num_blocks is_no_wait new_used.old result new_used.new }
{
    allotted(
        mem_slab::alloc_decide(num_used, num_blocks, is_no_wait),
        num_used,
        new_used,
    )
}

#[unsafe(no_mangle)]
pub extern "C" fn wq_mem_slab_free_decide(
    num_used: u32,
    has_waiter: bool,
    new_used: &mut u32,
) -> i32
    ensures { FreeDecided num_used has_waiter new_used.old result new_used.new }
{
    freed(
        mem_slab::free_decide(num_used, has_waiter),
        num_used,
        new_used,
    )
}

fn allotted(answer: Result<AllocDecision, Errno>, num_used: u32, word: &mut u32) -> i32
    ensures code { result ≡ told alloc_number answer }
    ensures word { word.new ≡ kept (alloc_used num_used) answer word.old }
{
    match answer {
        Ok(AllocDecision::Alloc { new_num_used }) => {
            *word = new_num_used;
            OK
        }
        Ok(AllocDecision::Pend) => {
            *word = num_used;
            WAITS
        }
        Err(refusal) => refusal.code(),
    }
}

fn freed(answer: Result<FreeDecision, Errno>, num_used: u32, word: &mut u32) -> i32
    ensures code { result ≡ told free_number answer }
    ensures word { word.new ≡ kept (free_used num_used) answer word.old }
{
    match answer {
        Ok(FreeDecision::Free { new_num_used }) => {
            *word = new_num_used;
            OK
        }
        Ok(FreeDecision::WakeThread) => {
            *word = num_used;
            WAKE_THREAD
        }
        Err(refusal) => refusal.code(),
    }
}
