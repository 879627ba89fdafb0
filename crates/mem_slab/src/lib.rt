// The memory slab, in place: Gale's mem_slab.rs, with the list of free blocks. h: how many blocks, a block's size, how many are out, the
// block that is given next; l: a link for each block.
#![tactic(auto)]

ghost use Rattle.std.specs.Prelude.{◌≡◌, ℕ, ◌≤◌, ◌<◌, pos, length, IfOk};
ghost use Rattle.thread.specs.Answer.{told, kept, done, truth};
ghost use Rattle.store.specs.Store.{Filled};
ghost use Rattle.mem_slab.specs.Slab.{new_links};
ghost use Rattle.mem_slab.specs.Answer.{numbers, alloc_number, alloc_used, free_number, free_used};
ghost use Rattle.mem_slab.specs.Fit.{Fit};
ghost use Rattle.mem_slab.specs.Post.{CountsUsed, CountsFree, CountsBlocks, GetsBlockSize, SaysFull, SaysEmpty, Allocs, Frees, Starts, AllocDecided, FreeDecided};

use std::mem;
use thread::Errno::{self, EINVAL, ENOMEM};

// What an allocation is to do.
#[derive(Clone, Copy, Debug, PartialEq, Eq)]
pub enum AllocDecision {
    Alloc { new_num_used: u32 },
    Pend,
}

// What a free is to do.
#[derive(Clone, Copy, Debug, PartialEq, Eq)]
pub enum FreeDecision {
    Free { new_num_used: u32 },
    WakeThread,
}

// The header's words.
#[derive(Clone, Copy)]
struct Numbers {
    blocks: u32,
    size: u32,
    used: u32,
    next: u32,
}

// The numbers of a slab whose memory is as it should be.
fn formed(h: &[u32], l: &[u32]) -> Result<Numbers, Errno>
    ensures numbers { result ≡ numbers h.now l.now }
    ensures fit { IfOk result (λ _. Fit h.now l.now) }
{
    let &[blocks, size, used, next, ..] = h else {
        return Err(EINVAL);
    };
    if size == 0 || blocks < used || blocks <= next || l.len() < blocks as usize {
        return Err(EINVAL);
    }
    // Where all are out no link is read.
    if used != blocks {
        let link = l[next as usize];
        if link == 0 || blocks < link {
            return Err(EINVAL);
        }
    }
    Ok(Numbers {
        blocks,
        size,
        used,
        next,
    })
}

// ENOMEM: none is free, and the caller does not wait.
pub fn alloc_decide(
    num_used: u32,
    num_blocks: u32,
    is_no_wait: bool,
) -> Result<AllocDecision, Errno>
    ensures { (n : ℕ) → AllocDecided num_used num_blocks is_no_wait n (told alloc_number result) (kept (alloc_used num_used) result n) }
{
    match num_blocks {
        0 => Err(EINVAL),
        _ if num_used < num_blocks => Ok(AllocDecision::Alloc {
            new_num_used: num_used + 1,
        }),
        _ if num_blocks < num_used => Err(EINVAL),
        _ if is_no_wait => Err(ENOMEM),
        _ => Ok(AllocDecision::Pend),
    }
}

// EINVAL: none is out.
pub fn free_decide(num_used: u32, has_waiter: bool) -> Result<FreeDecision, Errno>
    ensures { (n : ℕ) → FreeDecided num_used has_waiter n (told free_number result) (kept (free_used num_used) result n) }
{
    match num_used.checked_sub(1) {
        None => Err(EINVAL),
        Some(_) if has_waiter => Ok(FreeDecision::WakeThread),
        Some(new_num_used) => Ok(FreeDecision::Free { new_num_used }),
    }
}

pub fn init(h: &mut [u32], l: &mut [u32], block_size: u32, num_blocks: u32) -> Result<(), Errno>
    ensures { Starts block_size num_blocks h.old l.old (told done result) h.new l.new }
{
    if h.len() < 4 || block_size == 0 || num_blocks == 0 || l.len() < num_blocks as usize {
        return Err(EINVAL);
    }
    h[0] = num_blocks;
    h[1] = block_size;
    h[2] = 0;
    h[3] = 0;
    chain(l, num_blocks);
    Ok(())
}

// Each block names the one after it, and the last names the first.
fn chain(l: &mut [u32], num_blocks: u32)
    requires { (0 < num_blocks) × (num_blocks ≤ length l.old) }
    ensures { Filled (new_links num_blocks) l.old l.new }
{
    let last = num_blocks - 1;
    for i in 0..last {
        l[i as usize] = i + 2;
    }
    l[last as usize] = 1;
}

// The block, which is out then; ENOMEM: all are out.
pub fn alloc(h: &mut [u32], l: &mut [u32]) -> Result<u32, Errno>
    ensures { Allocs h.old l.old (told pos result) h.new l.new }
{
    let Numbers {
        blocks,
        used,
        next,
        ..
    } = formed(h, l)?;
    if used == blocks {
        return Err(ENOMEM);
    }
    h[2] = used + 1;
    h[3] = mem::replace(&mut l[next as usize], 0) - 1;
    Ok(next)
}

// The block was out and is not; it is given next.
pub fn free(h: &mut [u32], l: &mut [u32], block: u32) -> Result<(), Errno>
    ensures { Frees block h.old l.old (told done result) h.new l.new }
{
    let Numbers {
        blocks,
        used,
        next,
        ..
    } = formed(h, l)?;
    if blocks <= block || l[block as usize] != 0 || used == 0 {
        return Err(EINVAL);
    }
    l[block as usize] = next + 1;
    h[2] = used - 1;
    h[3] = block;
    Ok(())
}

pub fn num_used_get(h: &[u32], l: &[u32]) -> Result<u32, Errno>
    ensures { CountsUsed h.now l.now (told pos result) }
{
    Ok(formed(h, l)?.used)
}

pub fn num_free_get(h: &[u32], l: &[u32]) -> Result<u32, Errno>
    ensures { CountsFree h.now l.now (told pos result) }
{
    let slab = formed(h, l)?;
    Ok(slab.blocks - slab.used)
}

pub fn num_blocks_get(h: &[u32], l: &[u32]) -> Result<u32, Errno>
    ensures { CountsBlocks h.now l.now (told pos result) }
{
    Ok(formed(h, l)?.blocks)
}

pub fn block_size_get(h: &[u32], l: &[u32]) -> Result<u32, Errno>
    ensures { GetsBlockSize h.now l.now (told pos result) }
{
    Ok(formed(h, l)?.size)
}

// All blocks are out.
pub fn is_full(h: &[u32], l: &[u32]) -> Result<bool, Errno>
    ensures { SaysFull h.now l.now (told truth result) }
{
    let slab = formed(h, l)?;
    Ok(slab.used == slab.blocks)
}

// None is out.
pub fn is_empty(h: &[u32], l: &[u32]) -> Result<bool, Errno>
    ensures { SaysEmpty h.now l.now (told truth result) }
{
    Ok(formed(h, l)?.used == 0)
}
