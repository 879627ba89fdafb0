// Message queues: the header's four words, and the buffer.
ghost use Rattle.msgq.specs.Post.{PutDecided, GetDecided, PutFrontDecided, PeekAtDecided, Starts, Puts, PutsFront, Gets, PeeksAt, Purges, CountsFree, CountsUsed, GetsMsgSize, GetsMaxMsgs, SaysFull, SaysEmpty, GetsReadIdx, GetsWriteIdx};
ghost use Rattle.thread.specs.Answer.{told, kept};
ghost use Rattle.std.specs.Prelude.{◌≡◌};

use crate::answers::{told_in, wide};
use msgq::DecideResult;
use thread::{Coded, Errno, told};

#[unsafe(no_mangle)]
pub extern "C" fn wq_msgq_init(head: &mut [u32; 4], buf: &[u8], msg_size: u32, max_msgs: u32) -> i32
    ensures { Starts msg_size max_msgs head.old buf.now result head.new }
{
    told(msgq::init(head, buf, msg_size, max_msgs))
}

#[unsafe(no_mangle)]
pub extern "C" fn wq_msgq_put(head: &mut [u32; 4], buf: &mut [u8], msg: &[u8]) -> i32
    ensures { Puts msg.now head.old buf.old result head.new buf.new }
{
    told(msgq::put(head, buf, msg))
}

#[unsafe(no_mangle)]
pub extern "C" fn wq_msgq_put_front(head: &mut [u32; 4], buf: &mut [u8], msg: &[u8]) -> i32
    ensures { PutsFront msg.now head.old buf.old result head.new buf.new }
{
    told(msgq::put_front(head, buf, msg))
}

#[unsafe(no_mangle)]
pub extern "C" fn wq_msgq_get(head: &mut [u32; 4], buf: &[u8], out: &mut [u8]) -> i32
    ensures { Gets head.old buf.now out.old result head.new out.new }
{
    told(msgq::get(head, buf, out))
}

#[unsafe(no_mangle)]
pub extern "C" fn wq_msgq_peek_at(head: &[u32; 4], buf: &[u8], idx: u32, out: &mut [u8]) -> i32
    ensures { PeeksAt idx head.now buf.now out.old result out.new }
{
    told(msgq::peek_at(head, buf, idx, out))
}

#[unsafe(no_mangle)]
pub extern "C" fn wq_msgq_purge(head: &mut [u32; 4], buf: &[u8]) -> i64
    ensures { Purges head.old buf.now result head.new }
{
    wide(msgq::purge(head, buf))
}

#[unsafe(no_mangle)]
pub extern "C" fn wq_msgq_num_free_get(head: &[u32; 4], buf: &[u8]) -> i64
    ensures { CountsFree head.now buf.now result }
{
    wide(msgq::num_free_get(head, buf))
}

#[unsafe(no_mangle)]
pub extern "C" fn wq_msgq_num_used_get(head: &[u32; 4], buf: &[u8]) -> i64
    ensures { CountsUsed head.now buf.now result }
{
    wide(msgq::num_used_get(head, buf))
}

#[unsafe(no_mangle)]
pub extern "C" fn wq_msgq_msg_size_get(head: &[u32; 4], buf: &[u8]) -> i64
    ensures { GetsMsgSize head.now buf.now result }
{
    wide(msgq::msg_size_get(head, buf))
}

#[unsafe(no_mangle)]
pub extern "C" fn wq_msgq_max_msgs_get(head: &[u32; 4], buf: &[u8]) -> i64
    ensures { GetsMaxMsgs head.now buf.now result }
{
    wide(msgq::max_msgs_get(head, buf))
}

#[unsafe(no_mangle)]
pub extern "C" fn wq_msgq_read_idx_get(head: &[u32; 4], buf: &[u8]) -> i64
    ensures { GetsReadIdx head.now buf.now result }
{
    wide(msgq::read_idx_get(head, buf))
}

#[unsafe(no_mangle)]
pub extern "C" fn wq_msgq_write_idx_get(head: &[u32; 4], buf: &[u8]) -> i64
    ensures { GetsWriteIdx head.now buf.now result }
{
    wide(msgq::write_idx_get(head, buf))
}

#[unsafe(no_mangle)]
pub extern "C" fn wq_msgq_is_full(head: &[u32; 4], buf: &[u8]) -> i32
    ensures { SaysFull head.now buf.now result }
{
    told(msgq::is_full(head, buf))
}

#[unsafe(no_mangle)]
pub extern "C" fn wq_msgq_is_empty(head: &[u32; 4], buf: &[u8]) -> i32
    ensures { SaysEmpty head.now buf.now result }
{
    told(msgq::is_empty(head, buf))
}

#[unsafe(no_mangle)]
pub extern "C" fn wq_msgq_put_decide(
    write_idx: u32,
    used_msgs: u32,
    max_msgs: u32,
    has_waiter: bool,
    is_no_wait: bool,
    new_write_idx: &mut u32,
    new_used: &mut u32,
) -> i32
    ensures { PutDecided write_idx used_msgs max_msgs has_waiter is_no_wait new_write_idx.old new_used.old result new_write_idx.new new_used.new }
{
    let answer = msgq::put_decide(write_idx, used_msgs, max_msgs, has_waiter, is_no_wait);
    decided(answer, new_write_idx, new_used)
}

#[unsafe(no_mangle)]
pub extern "C" fn wq_msgq_get_decide(
    read_idx: u32,
    used_msgs: u32,
    max_msgs: u32,
    has_waiter: bool,
    is_no_wait: bool,
    new_read_idx: &mut u32,
    new_used: &mut u32,
) -> i32
    ensures { GetDecided read_idx used_msgs max_msgs has_waiter is_no_wait new_read_idx.old new_used.old result new_read_idx.new new_used.new }
{
    let answer = msgq::get_decide(read_idx, used_msgs, max_msgs, has_waiter, is_no_wait);
    decided(answer, new_read_idx, new_used)
}

#[unsafe(no_mangle)]
pub extern "C" fn wq_msgq_put_front_decide(
    read_idx: u32,
    used_msgs: u32,
    max_msgs: u32,
    new_read_idx: &mut u32,
    new_used: &mut u32,
) -> i32
    ensures { PutFrontDecided read_idx used_msgs max_msgs new_read_idx.old new_used.old result new_read_idx.new new_used.new }
{
    let answer = msgq::put_front_decide(read_idx, used_msgs, max_msgs);
    decided(answer, new_read_idx, new_used)
}

#[unsafe(no_mangle)]
pub extern "C" fn wq_msgq_peek_at_decide(
    read_idx: u32,
    used_msgs: u32,
    max_msgs: u32,
    idx: u32,
    slot_idx: &mut u32,
) -> i32
    ensures { PeekAtDecided read_idx used_msgs max_msgs idx slot_idx.old result slot_idx.new }
{
    told_in(
        msgq::peek_at_decide(read_idx, used_msgs, max_msgs, idx),
        slot_idx,
    )
}

// The numbers go to the words, which a refusal leaves.
fn decided<D: Coded>(
    answer: Result<DecideResult<D>, Errno>,
    new_idx: &mut u32,
    new_used: &mut u32,
) -> i32
    ensures code { result ≡ told (λ d. D.number d.decision) answer }
    ensures idx { new_idx.new ≡ kept (λ d _. d.new_idx) answer new_idx.old }
    ensures used { new_used.new ≡ kept (λ d _. d.new_used) answer new_used.old }
{
    match answer {
        Ok(result) => {
            *new_idx = result.new_idx;
            *new_used = result.new_used;
            result.decision.code()
        }
        Err(refusal) => refusal.code(),
    }
}
