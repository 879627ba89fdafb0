// The message queue with its messages, in place: Gale's msgq.rs. h: how many messages it can hold, the slot of the first, how many it holds, a
// message's size; b: the buffer, whose first bytes are the slots.
#![tactic(auto)]

ghost use Rattle.std.specs.Prelude.{◌≡◌, ℕ, pos, true, ◌+◌, ◌*◌, ◌<◌, ◌≤◌, length, take, drop};
ghost use Rattle.std.proofs.Math.Seq.{paste};
ghost use Rattle.thread.specs.Answer.{told, kept, done, itself, truth};
ghost use Rattle.msgq.specs.Decision.{put_code, get_code};
ghost use Rattle.msgq.specs.Numbers.{Formed, Sized};
ghost use Rattle.msgq.specs.Post.{PutDecided, GetDecided, PutFrontDecided, PeekAtDecided, Starts, Puts, PutsFront, Gets, PeeksAt, Purges, CountsFree, CountsUsed, GetsMsgSize, GetsMaxMsgs, SaysFull, SaysEmpty, GetsReadIdx, GetsWriteIdx, room};

use slots::Slots;
use thread::Coded;
use thread::Errno::{self, EINVAL, ENOMSG};

mod slots;

// What a put is to do.
#[derive(Clone, Copy, Debug, PartialEq, Eq)]
pub enum PutDecision {
    Store = 0,
    WakeReader = 1,
    Pend = 2,
}

impl Coded for PutDecision {
    ghost number = { put_code };

    fn code(self) -> i32 {
        self as i32
    }
}

// What a get is to do.
#[derive(Clone, Copy, Debug, PartialEq, Eq)]
pub enum GetDecision {
    Read = 0,
    WakeWriter = 1,
    Pend = 2,
}

impl Coded for GetDecision {
    ghost number = { get_code };

    fn code(self) -> i32 {
        self as i32
    }
}

// A decision, the index that moves, and how many messages there are then.
#[derive(Clone, Copy, Debug, PartialEq, Eq)]
pub struct DecideResult<D> {
    pub decision: D,
    pub new_idx: u32,
    pub new_used: u32,
}

pub type PutDecideResult = DecideResult<PutDecision>;

pub type GetDecideResult = DecideResult<GetDecision>;

pub type PutFrontDecideResult = DecideResult<()>;

// Writes msg to its slot. One function for store and load would hand out the place by &mut, with a clause on later writes: no plainer.
fn store(b: &mut [u8], slot: u32, msg: &[u8])
    requires { slot * length msg.now + length msg.now ≤ length b.old }
    ensures { b.new ≡ paste b.old (slot * length msg.now) msg.now (length msg.now) }
{
    let at = slot as usize * msg.len();
    ring_buf::copy(&mut b[at..at + msg.len()], msg);
}

// Reads out full from its slot.
fn load(b: &[u8], slot: u32, out: &mut [u8])
    requires { slot * length out.old + length out.old ≤ length b.now }
    ensures { out.new ≡ take (length out.old) (drop (slot * length out.old) b.now) }
{
    let at = slot as usize * out.len();
    ring_buf::copy(out, &b[at..at + out.len()]);
}

// Whether n messages of size bytes fit.
fn fits(b: &[u8], size: u32, n: u32) -> bool
    ensures { result ≡ room size n b.now }
{
    // By checked_mul is_empty has 28 instructions, so 22.
    let all = n as usize * size as usize;
    size != 0 && all <= u32::MAX as usize && all <= b.len()
}

// The slots, if the header and the buffer are as they should be.
fn formed(h: &[u32], b: &[u8]) -> Result<Slots, Errno>
    ensures { Formed h.now b.now result }
{
    let &[max, read, used, size, ..] = h else {
        return Err(EINVAL);
    };
    let slots = Slots::new(read, used, max)?;
    if !fits(b, size, max) {
        return Err(EINVAL);
    }
    Ok(slots)
}

// And if a message has n bytes.
fn sized(h: &[u32], b: &[u8], n: usize) -> Result<Slots, Errno>
    ensures { Sized n h.now b.now result }
{
    let slots = formed(h, b)?;
    if n != h[3] as usize {
        return Err(EINVAL);
    }
    Ok(slots)
}

// ENOMSG: it is full; EINVAL, also if a reader waits while there are messages.
pub fn put_decide(
    write_idx: u32,
    used_msgs: u32,
    max_msgs: u32,
    has_waiter: bool,
    is_no_wait: bool,
) -> Result<PutDecideResult, Errno>
    ensures { (i u : ℕ) → PutDecided write_idx used_msgs max_msgs has_waiter is_no_wait i u (told (λ d. put_code d.decision) result) (kept (λ d _. d.new_idx) result i) (kept (λ d _. d.new_used) result u) }
{
    // By Slots::new and Slots::behind this and get_decide take 86 instructions where somebody waits, so 60, and C 65.
    if max_msgs <= write_idx {
        return Err(EINVAL);
    }
    if has_waiter {
        if used_msgs != 0 {
            return Err(EINVAL);
        }
        return Ok(DecideResult {
            decision: PutDecision::WakeReader,
            new_idx: write_idx,
            new_used: used_msgs,
        });
    }
    if used_msgs < max_msgs {
        return Ok(DecideResult {
            decision: PutDecision::Store,
            new_idx: slots::next(write_idx, max_msgs),
            new_used: used_msgs + 1,
        });
    }
    if max_msgs < used_msgs {
        return Err(EINVAL);
    }
    if is_no_wait {
        return Err(ENOMSG);
    }
    Ok(DecideResult {
        decision: PutDecision::Pend,
        new_idx: write_idx,
        new_used: used_msgs,
    })
}

// ENOMSG: it is empty; EINVAL, also if a writer waits while there is room.
pub fn get_decide(
    read_idx: u32,
    used_msgs: u32,
    max_msgs: u32,
    has_waiter: bool,
    is_no_wait: bool,
) -> Result<GetDecideResult, Errno>
    ensures { (i u : ℕ) → GetDecided read_idx used_msgs max_msgs has_waiter is_no_wait i u (told (λ d. get_code d.decision) result) (kept (λ d _. d.new_idx) result i) (kept (λ d _. d.new_used) result u) }
{
    // Slots::new: as for put_decide.
    if max_msgs <= read_idx {
        return Err(EINVAL);
    }
    if used_msgs < max_msgs {
        if has_waiter {
            return Err(EINVAL);
        }
        if used_msgs == 0 {
            if is_no_wait {
                return Err(ENOMSG);
            }
            return Ok(DecideResult {
                decision: GetDecision::Pend,
                new_idx: read_idx,
                new_used: used_msgs,
            });
        }
    }
    if max_msgs < used_msgs {
        return Err(EINVAL);
    }
    Ok(DecideResult {
        decision: if has_waiter {
            GetDecision::WakeWriter
        } else {
            GetDecision::Read
        },
        new_idx: slots::next(read_idx, max_msgs),
        new_used: used_msgs - 1,
    })
}

// ENOMSG: it is full.
pub fn put_front_decide(
    read_idx: u32,
    used_msgs: u32,
    max_msgs: u32,
) -> Result<PutFrontDecideResult, Errno>
    ensures { (i u : ℕ) → PutFrontDecided read_idx used_msgs max_msgs i u (told done result) (kept (λ d _. d.new_idx) result i) (kept (λ d _. d.new_used) result u) }
{
    let slots = Slots::new(read_idx, used_msgs, max_msgs)?;
    if used_msgs == max_msgs {
        return Err(ENOMSG);
    }
    Ok(DecideResult {
        decision: (),
        new_idx: slots.behind(max_msgs - 1),
        new_used: used_msgs + 1,
    })
}

// The slot in which the message stands; ENOMSG: there are no more than idx.
pub fn peek_at_decide(read_idx: u32, used_msgs: u32, max_msgs: u32, idx: u32) -> Result<u32, Errno>
    ensures { (s : ℕ) → PeekAtDecided read_idx used_msgs max_msgs idx s (told done result) (kept itself result s) }
{
    let slots = Slots::new(read_idx, used_msgs, max_msgs)?;
    if used_msgs <= idx {
        return Err(ENOMSG);
    }
    Ok(slots.behind(idx))
}

// EINVAL: a size or a number of 0, a product above 2^32 - 1 or above the buffer's length.
pub fn init(h: &mut [u32], b: &[u8], msg_size: u32, max_msgs: u32) -> Result<(), Errno>
    ensures { Starts msg_size max_msgs h.old b.now (told done result) h.new }
{
    if h.len() < 4 || max_msgs == 0 || !fits(b, msg_size, max_msgs) {
        return Err(EINVAL);
    }
    h[0] = max_msgs;
    h[1] = 0;
    h[2] = 0;
    h[3] = msg_size;
    Ok(())
}

// The message goes behind those that are held; EINVAL, also for a message of another size; ENOMSG: it is full.
pub fn put(h: &mut [u32], b: &mut [u8], msg: &[u8]) -> Result<(), Errno>
    ensures { Puts msg.now h.old b.old (told done result) h.new b.new }
{
    let slots = sized(h, b, msg.len())?;
    if slots.used == slots.max {
        return Err(ENOMSG);
    }
    store(b, slots.behind(slots.used), msg);
    h[2] = slots.used + 1;
    Ok(())
}

// The message goes before those that are held; EINVAL, also for a message of another size; ENOMSG: it is full.
pub fn put_front(h: &mut [u32], b: &mut [u8], msg: &[u8]) -> Result<(), Errno>
    ensures { PutsFront msg.now h.old b.old (told done result) h.new b.new }
{
    let slots = sized(h, b, msg.len())?;
    if slots.used == slots.max {
        return Err(ENOMSG);
    }
    let t = slots.behind(slots.max - 1);
    store(b, t, msg);
    h[1] = t;
    h[2] = slots.used + 1;
    Ok(())
}

// out is the first message, which is gone; EINVAL, also for an out of another size; ENOMSG: it is empty.
pub fn get(h: &mut [u32], b: &[u8], out: &mut [u8]) -> Result<(), Errno>
    ensures { Gets h.old b.now out.old (told done result) h.new out.new }
{
    let slots = sized(h, b, out.len())?;
    if slots.used == 0 {
        return Err(ENOMSG);
    }
    load(b, slots.idx, out);
    h[1] = slots::next(slots.idx, slots.max);
    h[2] = slots.used - 1;
    Ok(())
}

// out is the message at idx, 0 being the first; EINVAL, also for an out of another size; ENOMSG: there are no more than idx.
pub fn peek_at(h: &[u32], b: &[u8], idx: u32, out: &mut [u8]) -> Result<(), Errno>
    ensures { PeeksAt idx h.now b.now out.old (told done result) out.new }
{
    let slots = sized(h, b, out.len())?;
    if slots.used <= idx {
        return Err(ENOMSG);
    }
    load(b, slots.behind(idx), out);
    Ok(())
}

// How many messages there were; it is empty.
pub fn purge(h: &mut [u32], b: &[u8]) -> Result<u32, Errno>
    ensures { Purges h.old b.now (told pos result) h.new }
{
    let slots = formed(h, b)?;
    h[1] = slots.behind(slots.used);
    h[2] = 0;
    Ok(slots.used)
}

pub fn num_free_get(h: &[u32], b: &[u8]) -> Result<u32, Errno>
    ensures { CountsFree h.now b.now (told pos result) }
{
    let slots = formed(h, b)?;
    Ok(slots.max - slots.used)
}

pub fn num_used_get(h: &[u32], b: &[u8]) -> Result<u32, Errno>
    ensures { CountsUsed h.now b.now (told pos result) }
{
    Ok(formed(h, b)?.used)
}

pub fn msg_size_get(h: &[u32], b: &[u8]) -> Result<u32, Errno>
    ensures { GetsMsgSize h.now b.now (told pos result) }
{
    formed(h, b)?;
    Ok(h[3])
}

pub fn max_msgs_get(h: &[u32], b: &[u8]) -> Result<u32, Errno>
    ensures { GetsMaxMsgs h.now b.now (told pos result) }
{
    Ok(formed(h, b)?.max)
}

// Whether there is no room.
pub fn is_full(h: &[u32], b: &[u8]) -> Result<bool, Errno>
    ensures { SaysFull h.now b.now (told truth result) }
{
    let slots = formed(h, b)?;
    Ok(slots.used == slots.max)
}

// Whether there is no message.
pub fn is_empty(h: &[u32], b: &[u8]) -> Result<bool, Errno>
    ensures { SaysEmpty h.now b.now (told truth result) }
{
    let slots = formed(h, b)?;
    Ok(slots.used == 0)
}

// The slot of the first message.
pub fn read_idx_get(h: &[u32], b: &[u8]) -> Result<u32, Errno>
    ensures { GetsReadIdx h.now b.now (told pos result) }
{
    Ok(formed(h, b)?.idx)
}

// The slot to which the next message goes.
pub fn write_idx_get(h: &[u32], b: &[u8]) -> Result<u32, Errno>
    ensures { GetsWriteIdx h.now b.now (told pos result) }
{
    let slots = formed(h, b)?;
    Ok(slots.behind(slots.used))
}
