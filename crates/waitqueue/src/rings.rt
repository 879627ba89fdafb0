// Ring buffers: the header's three words, and the buffer.
ghost use Rattle.ring_buf.specs.Post.{Starts, Puts, Gets, PutsN, GetsN, PeeksAt, Resets, GetsSize, GetsSpace, GetsCapacity, SaysEmpty, SaysFull, GetsHead, GetsTail, ClaimDecided, FinishDecided, SpaceGetDecided, SizeGetDecided};

use crate::answers::{told_in, wide};
use thread::told;

#[unsafe(no_mangle)]
pub extern "C" fn wq_ring_buf_init(head: &mut [u32; 3], buf: &[u8], capacity: u32) -> i32
    ensures { Starts capacity head.old buf.now result head.new }
{
    told(ring_buf::init(head, buf, capacity))
}

#[unsafe(no_mangle)]
pub extern "C" fn wq_ring_buf_put(head: &mut [u32; 3], buf: &mut [u8], value: u8) -> i32
    ensures { Puts value head.old buf.old result head.new buf.new }
{
    told(ring_buf::put(head, buf, value))
}

#[unsafe(no_mangle)]
pub extern "C" fn wq_ring_buf_get(head: &mut [u32; 3], buf: &[u8], value: &mut u8) -> i32
    ensures { Gets head.old buf.now value.old result head.new value.new }
{
    told_in(ring_buf::get(head, buf), value)
}

#[unsafe(no_mangle)]
pub extern "C" fn wq_ring_buf_put_n(head: &mut [u32; 3], buf: &mut [u8], src: &[u8]) -> i64
    ensures { PutsN src.now head.old buf.old result head.new buf.new }
{
    wide(ring_buf::put_n(head, buf, src))
}

#[unsafe(no_mangle)]
pub extern "C" fn wq_ring_buf_get_n(head: &mut [u32; 3], buf: &[u8], out: &mut [u8]) -> i64
    ensures { GetsN head.old buf.now out.old result head.new out.new }
{
    wide(ring_buf::get_n(head, buf, out))
}

#[unsafe(no_mangle)]
pub extern "C" fn wq_ring_buf_peek_at(head: &[u32; 3], buf: &[u8], idx: u32, value: &mut u8) -> i32
    ensures { PeeksAt idx head.now buf.now value.old result value.new }
{
    told_in(ring_buf::peek_at(head, buf, idx), value)
}

#[unsafe(no_mangle)]
pub extern "C" fn wq_ring_buf_reset(head: &mut [u32; 3], buf: &[u8]) -> i32
    ensures { Resets head.old buf.now result head.new }
{
    told(ring_buf::reset(head, buf))
}

#[unsafe(no_mangle)]
pub extern "C" fn wq_ring_buf_size_get(head: &[u32; 3], buf: &[u8]) -> i64
    ensures { GetsSize head.now buf.now result }
{
    wide(ring_buf::size_get(head, buf))
}

#[unsafe(no_mangle)]
pub extern "C" fn wq_ring_buf_space_get(head: &[u32; 3], buf: &[u8]) -> i64
    ensures { GetsSpace head.now buf.now result }
{
    wide(ring_buf::space_get(head, buf))
}

#[unsafe(no_mangle)]
pub extern "C" fn wq_ring_buf_capacity_get(head: &[u32; 3], buf: &[u8]) -> i64
    ensures { GetsCapacity head.now buf.now result }
{
    wide(ring_buf::capacity_get(head, buf))
}

#[unsafe(no_mangle)]
pub extern "C" fn wq_ring_buf_is_empty(head: &[u32; 3], buf: &[u8]) -> i32
    ensures { SaysEmpty head.now buf.now result }
{
    told(ring_buf::is_empty(head, buf))
}

#[unsafe(no_mangle)]
pub extern "C" fn wq_ring_buf_is_full(head: &[u32; 3], buf: &[u8]) -> i32
    ensures { SaysFull head.now buf.now result }
{
    told(ring_buf::is_full(head, buf))
}

#[unsafe(no_mangle)]
pub extern "C" fn wq_ring_buf_head_get(head: &[u32; 3], buf: &[u8]) -> i64
    ensures { GetsHead head.now buf.now result }
{
    wide(ring_buf::head_get(head, buf))
}

#[unsafe(no_mangle)]
pub extern "C" fn wq_ring_buf_tail_get(head: &[u32; 3], buf: &[u8]) -> i64
    ensures { GetsTail head.now buf.now result }
{
    wide(ring_buf::tail_get(head, buf))
}

#[unsafe(no_mangle)]
pub extern "C" fn wq_ring_buf_claim_decide(
    head: u32,
    base: u32,
    buf_size: u32,
    requested: u32,
    offset: &mut u32,
) -> u32
    ensures { ClaimDecided head base buf_size requested result offset.new }
{
    let decision = ring_buf::claim_decide(head, base, buf_size, requested);
    *offset = decision.buffer_offset;
    decision.claim_size
}

#[unsafe(no_mangle)]
pub extern "C" fn wq_ring_buf_finish_decide(head: u32, tail: u32, size: u32) -> bool
    ensures { FinishDecided head tail size result }
{
    ring_buf::finish_decide(head, tail, size)
}

#[unsafe(no_mangle)]
pub extern "C" fn wq_ring_buf_space_get_decide(put_head: u32, get_tail: u32, buf_size: u32) -> u32
    ensures { SpaceGetDecided put_head get_tail buf_size result }
{
    ring_buf::space_get_decide(put_head, get_tail, buf_size)
}

#[unsafe(no_mangle)]
pub extern "C" fn wq_ring_buf_size_get_decide(put_tail: u32, get_head: u32) -> u32
    ensures { SizeGetDecided put_tail get_head result }
{
    ring_buf::size_get_decide(put_tail, get_head)
}
