// The ring buffer with its bytes, in place: Gale's ring_buf.rs. h: capacity, the place of the first byte, how many bytes are held; b: the
// buffer, whose first bytes are the ring.
#![tactic(auto)]

ghost use Rattle.std.specs.Prelude.{◌≡◌, ℕ, pos, ◌+◌, ◌%◌, ◌<◌, ◌≤◌, min, length, take, drop};
ghost use Rattle.std.proofs.Math.Seq.{paste};
ghost use Rattle.ring_buf.specs.Ring.{wrap, turn};
ghost use Rattle.thread.specs.Answer.{told, done, truth, kept, itself};
ghost use Rattle.ring_buf.specs.Post.{Reads, Places, Copies, SaysFormed, Starts, Puts, Gets, PutsN, GetsN, PeeksAt, Resets, GetsSize, GetsSpace, GetsCapacity, SaysEmpty, SaysFull, GetsHead, GetsTail, ClaimDecided, FinishDecided, SpaceGetDecided, SizeGetDecided};

mod header;

use header::RingBuf;
use thread::Errno::{self, EAGAIN, EINVAL};

// A place below twice n, round the end of n.
pub fn place(x: usize, n: usize) -> usize
    ensures { Places x n result }
{
    if x < n { x } else { x - n }
}

// The bytes of src from i on, as many as t has room for, go to the same places of dst. All are read into t before one is
// written, so that a compiler makes wide loads and stores of it and need not know that dst and src lie apart.
fn block(dst: &mut [u8], src: &[u8], i: usize, t: &mut [u8])
    requires { (i + length t.old ≤ length src.now) × (i + length t.old ≤ length dst.old) }
    ensures { dst.new ≡ paste dst.old i (drop i src.now) (length t.old) }
{
    let e = i + t.len();
    t.copy_from_slice(&src[i..e]);
    dst[i..e].copy_from_slice(t);
}

// The first of src, as many as dst has room for, go to the start of dst, in blocks as long as t. There are n of them; the last
// block ends at n, over what the one before it wrote. With a const parameter and step_by, LLVM unrolls the loop: then put_n and
// get_n of 64 bytes take 176 instructions, and now 139.
fn blocks(dst: &mut [u8], src: &[u8], n: usize, t: &mut [u8])
    requires { (0 < length t.old) × ((length t.old ≤ n) × (n ≡ min (length src.now) (length dst.old))) }
    ensures { Copies dst.old src.now dst.new }
{
    let k = t.len();
    let mut i = 0;
    while i + k < n {
        block(dst, src, i, t);
        i += k;
    }
    block(dst, src, n - k, t);
}

// The first of src, as many as dst has room for, go to the start of dst.
pub fn copy(dst: &mut [u8], src: &[u8])
    ensures { Copies dst.old src.now dst.new }
{
    let n = src.len().min(dst.len());
    if 32 <= n {
        blocks(dst, src, n, &mut [0; 32]);
    } else if 16 <= n {
        blocks(dst, src, n, &mut [0; 16]);
    } else if 8 <= n {
        blocks(dst, src, n, &mut [0; 8]);
    } else if 4 <= n {
        blocks(dst, src, n, &mut [0; 4]);
    } else if 2 <= n {
        blocks(dst, src, n, &mut [0; 2]);
    } else if n == 1 {
        dst[0] = src[0];
    }
}

// Writes src into b, round its end, from the place t + u on. It is not inlined, so that put_n is, whose Result then crosses in no
// memory: else those take 171.
#[inline(never)]
fn fill(b: &mut [u8], t: usize, u: usize, src: &[u8])
    requires { (t < length b.old) × (u + length src.now ≤ length b.old) }
    ensures { turn t b.new ≡ paste (turn t b.old) u src.now (length src.now) }
{
    let a = place(t + u, b.len());
    let n = src.len();
    let m = b.len() - a;
    if n <= m {
        copy(&mut b[a..a + n], src);
    } else {
        copy(&mut b[a..], &src[..m]);
        copy(&mut b[..n - m], &src[m..]);
    }
}

// Reads out full from b, round its end, from the place t on.
#[inline(never)]
fn drain(b: &[u8], t: usize, out: &mut [u8])
    requires { (t < length b.now) × (length out.old ≤ length b.now) }
    ensures { out.new ≡ take (length out.old) (turn t b.now) }
{
    let n = out.len();
    let m = b.len() - t;
    if n <= m {
        copy(out, &b[t..t + n]);
    } else {
        copy(&mut out[..m], &b[t..]);
        copy(&mut out[m..], &b[..n - m]);
    }
}

// The header's words, if it and the buffer are as they should be.
fn read(h: &[u32], b: &[u8]) -> Result<RingBuf, Errno>
    ensures { Reads h.now b.now result }
{
    match *h {
        [capacity, head, size, ..]
            if head < capacity && size <= capacity && capacity as usize <= b.len() => {
            Ok(RingBuf {
                capacity,
                head,
                size,
            })
        }
        _ => Err(EINVAL),
    }
}

// Whether the header and the buffer are as they should be.
pub fn formed(h: &[u32], b: &[u8]) -> bool
    ensures { SaysFormed h.now b.now result }
{
    read(h, b).is_ok()
}

// EINVAL: a capacity of 0, or above the buffer's length.
pub fn init(h: &mut [u32], b: &[u8], capacity: u32) -> Result<(), Errno>
    ensures { Starts capacity h.old b.now (told done result) h.new }
{
    if h.len() < 3 || capacity == 0 || b.len() < capacity as usize {
        return Err(EINVAL);
    }
    h[0] = capacity;
    h[1] = 0;
    h[2] = 0;
    Ok(())
}

// The byte goes behind those that are held; EAGAIN: it is full.
pub fn put(h: &mut [u32], b: &mut [u8], value: u8) -> Result<(), Errno>
    ensures { Puts value h.old b.old (told done result) h.new b.new }
{
    let r = read(h, b)?;
    if r.size == r.capacity {
        return Err(EAGAIN);
    }
    b[r.at(r.size) as usize] = value;
    h[2] = r.size + 1;
    Ok(())
}

// The first byte leaves; EAGAIN: it is empty.
pub fn get(h: &mut [u32], b: &[u8]) -> Result<u8, Errno>
    ensures { (x : ℕ) → Gets h.old b.now x (told done result) h.new (kept itself result x) }
{
    let r = read(h, b)?;
    if r.size == 0 {
        return Err(EAGAIN);
    }
    h[1] = r.at(1);
    h[2] = r.size - 1;
    Ok(b[r.head as usize])
}

// How many went in, the first of src.
pub fn put_n(h: &mut [u32], b: &mut [u8], src: &[u8]) -> Result<u32, Errno>
    ensures { PutsN src.now h.old b.old (told pos result) h.new b.new }
{
    let r = read(h, b)?;
    let k = src.len().min((r.capacity - r.size) as usize);
    h[2] = r.size + k as u32;
    fill(
        &mut b[..r.capacity as usize],
        r.head as usize,
        r.size as usize,
        &src[..k],
    );
    Ok(k as u32)
}

// How many came out, to the first of out.
pub fn get_n(h: &mut [u32], b: &[u8], out: &mut [u8]) -> Result<u32, Errno>
    ensures { GetsN h.old b.now out.old (told pos result) h.new out.new }
{
    let r = read(h, b)?;
    let k = out.len().min(r.size as usize);
    h[1] = r.at(k as u32);
    h[2] = r.size - k as u32;
    drain(&b[..r.capacity as usize], r.head as usize, &mut out[..k]);
    Ok(k as u32)
}

// The byte behind idx others; EINVAL: fewer are held.
pub fn peek_at(h: &[u32], b: &[u8], idx: u32) -> Result<u8, Errno>
    ensures { (x : ℕ) → PeeksAt idx h.now b.now x (told done result) (kept itself result x) }
{
    let r = read(h, b)?;
    if r.size <= idx {
        return Err(EINVAL);
    }
    Ok(b[r.at(idx) as usize])
}

// It is empty then, and the next byte goes to the buffer's start.
pub fn reset(h: &mut [u32], b: &[u8]) -> Result<(), Errno>
    ensures { Resets h.old b.now (told done result) h.new }
{
    read(h, b)?;
    h[1] = 0;
    h[2] = 0;
    Ok(())
}

pub fn size_get(h: &[u32], b: &[u8]) -> Result<u32, Errno>
    ensures { GetsSize h.now b.now (told pos result) }
{
    Ok(read(h, b)?.size)
}

pub fn space_get(h: &[u32], b: &[u8]) -> Result<u32, Errno>
    ensures { GetsSpace h.now b.now (told pos result) }
{
    let r = read(h, b)?;
    Ok(r.capacity - r.size)
}

pub fn capacity_get(h: &[u32], b: &[u8]) -> Result<u32, Errno>
    ensures { GetsCapacity h.now b.now (told pos result) }
{
    Ok(read(h, b)?.capacity)
}

pub fn is_empty(h: &[u32], b: &[u8]) -> Result<bool, Errno>
    ensures { SaysEmpty h.now b.now (told truth result) }
{
    Ok(read(h, b)?.size == 0)
}

pub fn is_full(h: &[u32], b: &[u8]) -> Result<bool, Errno>
    ensures { SaysFull h.now b.now (told truth result) }
{
    let r = read(h, b)?;
    Ok(r.size == r.capacity)
}

// The place of the first byte.
pub fn head_get(h: &[u32], b: &[u8]) -> Result<u32, Errno>
    ensures { GetsHead h.now b.now (told pos result) }
{
    Ok(read(h, b)?.head)
}

// The place to which the next byte goes.
pub fn tail_get(h: &[u32], b: &[u8]) -> Result<u32, Errno>
    ensures { GetsTail h.now b.now (told pos result) }
{
    let r = read(h, b)?;
    Ok(r.at(r.size))
}

// d modulo n; most often d is below n already.
fn remainder(d: u32, n: u32) -> u32
    requires { 0 < n }
    ensures { result ≡ d % n }
{
    if d < n { d } else { d % n }
}

// How many bytes can be claimed in one piece, and where it starts.
#[derive(Clone, Copy, Debug, PartialEq, Eq)]
pub struct ClaimDecision {
    pub claim_size: u32,
    pub buffer_offset: u32,
}

pub fn claim_decide(head: u32, base: u32, buf_size: u32, requested: u32) -> ClaimDecision
    ensures { ClaimDecided head base buf_size requested result.claim_size result.buffer_offset }
{
    if buf_size == 0 {
        return ClaimDecision {
            claim_size: 0,
            buffer_offset: 0,
        };
    }
    let buffer_offset = remainder(head.wrapping_sub(base), buf_size);
    ClaimDecision {
        claim_size: requested.min(buf_size - buffer_offset),
        buffer_offset,
    }
}

// Whether so many bytes were claimed and not yet finished.
pub fn finish_decide(head: u32, tail: u32, size: u32) -> bool
    ensures { FinishDecided head tail size result }
{
    size <= head.wrapping_sub(tail)
}

// How many bytes are free.
pub fn space_get_decide(put_head: u32, get_tail: u32, buf_size: u32) -> u32
    ensures { SpaceGetDecided put_head get_tail buf_size result }
{
    buf_size.saturating_sub(put_head.wrapping_sub(get_tail))
}

// How many bytes are held.
pub fn size_get_decide(put_tail: u32, get_head: u32) -> u32
    ensures { SizeGetDecided put_tail get_head result }
{
    put_tail.wrapping_sub(get_head)
}
