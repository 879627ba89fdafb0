// Pipes: the header's four words, and the bytes.
ghost use Rattle.std.specs.Prelude.{◌≡◌};
ghost use Rattle.thread.specs.Answer.{told, kept};
ghost use Rattle.pipe.specs.Told.{actual_told, used_told};
ghost use Rattle.pipe.specs.Post.{Starts, Writes, WritesAll, Reads, ReadsAll, Resets, Closes, ClearsReset, GetsSpace, GetsData, GetsSize, SaysEmpty, SaysFull, SaysOpen, SaysResetting, WriteDecided, WriteAllDecided, ReadDecided, ReadAllDecided};

use crate::answers::wide;
use pipe::DecideResult;
use thread::{Coded, Errno, told};

#[unsafe(no_mangle)]
pub extern "C" fn wq_pipe_init(head: &mut [u32; 4], buf: &[u8], size: u32) -> i32
    ensures { Starts size head.old buf.now result head.new }
{
    told(pipe::init(head, buf, size))
}

#[unsafe(no_mangle)]
pub extern "C" fn wq_pipe_write(head: &mut [u32; 4], buf: &mut [u8], src: &[u8]) -> i64
    ensures { Writes src.now head.old buf.old result head.new buf.new }
{
    wide(pipe::write(head, buf, src))
}

#[unsafe(no_mangle)]
pub extern "C" fn wq_pipe_write_all(head: &mut [u32; 4], buf: &mut [u8], src: &[u8]) -> i64
    ensures { WritesAll src.now head.old buf.old result head.new buf.new }
{
    wide(pipe::write_all(head, buf, src))
}

#[unsafe(no_mangle)]
pub extern "C" fn wq_pipe_read(head: &mut [u32; 4], buf: &[u8], out: &mut [u8]) -> i64
    ensures { Reads head.old buf.now out.old result head.new out.new }
{
    wide(pipe::read(head, buf, out))
}

#[unsafe(no_mangle)]
pub extern "C" fn wq_pipe_read_all(head: &mut [u32; 4], buf: &[u8], out: &mut [u8]) -> i64
    ensures { ReadsAll head.old buf.now out.old result head.new out.new }
{
    wide(pipe::read_all(head, buf, out))
}

#[unsafe(no_mangle)]
pub extern "C" fn wq_pipe_reset(head: &mut [u32; 4], buf: &[u8]) -> i32
    ensures { Resets head.old buf.now result head.new }
{
    told(pipe::reset(head, buf))
}

#[unsafe(no_mangle)]
pub extern "C" fn wq_pipe_close(head: &mut [u32; 4], buf: &[u8]) -> i32
    ensures { Closes head.old buf.now result head.new }
{
    told(pipe::close(head, buf))
}

#[unsafe(no_mangle)]
pub extern "C" fn wq_pipe_clear_reset(head: &mut [u32; 4], buf: &[u8]) -> i32
    ensures { ClearsReset head.old buf.now result head.new }
{
    told(pipe::clear_reset(head, buf))
}

#[unsafe(no_mangle)]
pub extern "C" fn wq_pipe_space_get(head: &[u32; 4], buf: &[u8]) -> i64
    ensures { GetsSpace head.now buf.now result }
{
    wide(pipe::space_get(head, buf))
}

#[unsafe(no_mangle)]
pub extern "C" fn wq_pipe_data_get(head: &[u32; 4], buf: &[u8]) -> i64
    ensures { GetsData head.now buf.now result }
{
    wide(pipe::data_get(head, buf))
}

#[unsafe(no_mangle)]
pub extern "C" fn wq_pipe_size(head: &[u32; 4], buf: &[u8]) -> i64
    ensures { GetsSize head.now buf.now result }
{
    wide(pipe::size(head, buf))
}

#[unsafe(no_mangle)]
pub extern "C" fn wq_pipe_is_empty(head: &[u32; 4], buf: &[u8]) -> i32
    ensures { SaysEmpty head.now buf.now result }
{
    told(pipe::is_empty(head, buf))
}

#[unsafe(no_mangle)]
pub extern "C" fn wq_pipe_is_full(head: &[u32; 4], buf: &[u8]) -> i32
    ensures { SaysFull head.now buf.now result }
{
    told(pipe::is_full(head, buf))
}

#[unsafe(no_mangle)]
pub extern "C" fn wq_pipe_is_open(head: &[u32; 4], buf: &[u8]) -> i32
    ensures { SaysOpen head.now buf.now result }
{
    told(pipe::is_open(head, buf))
}

#[unsafe(no_mangle)]
pub extern "C" fn wq_pipe_is_resetting(head: &[u32; 4], buf: &[u8]) -> i32
    ensures { SaysResetting head.now buf.now result }
{
    told(pipe::is_resetting(head, buf))
}

// The words keep what they held where the call is refused.
fn decided<D: Coded>(
    answer: Result<DecideResult<D>, Errno>,
    actual_bytes: &mut u32,
    new_used: &mut u32,
) -> i32
    ensures code { result ≡ told (λ d. D.number d.decision) answer }
    ensures actual { actual_bytes.new ≡ kept actual_told answer actual_bytes.old }
    ensures used { new_used.new ≡ kept used_told answer new_used.old }
{
    match answer {
        Ok(result) => {
            *actual_bytes = result.actual_bytes;
            *new_used = result.new_used;
            result.decision.code()
        }
        Err(refusal) => refusal.code(),
    }
}

#[unsafe(no_mangle)]
pub extern "C" fn wq_pipe_write_decide(
    used: u32,
    size: u32,
    flags: u32,
    request_len: u32,
    has_reader: bool,
    actual_bytes: &mut u32,
    new_used: &mut u32,
) -> i32
    ensures { WriteDecided used «size» flags request_len has_reader actual_bytes.old new_used.old result actual_bytes.new new_used.new }
{
    decided(
        pipe::write_decide(used, size, flags, request_len, has_reader),
        actual_bytes,
        new_used,
    )
}

#[unsafe(no_mangle)]
pub extern "C" fn wq_pipe_write_all_decide(
    used: u32,
    size: u32,
    flags: u32,
    request_len: u32,
    has_reader: bool,
    actual_bytes: &mut u32,
    new_used: &mut u32,
) -> i32
    ensures { WriteAllDecided used «size» flags request_len has_reader actual_bytes.old new_used.old result actual_bytes.new new_used.new }
{
    decided(
        pipe::write_all_decide(used, size, flags, request_len, has_reader),
        actual_bytes,
        new_used,
    )
}

#[unsafe(no_mangle)]
pub extern "C" fn wq_pipe_read_decide(
    used: u32,
    size: u32,
    flags: u32,
    request_len: u32,
    has_writer: bool,
    actual_bytes: &mut u32,
    new_used: &mut u32,
) -> i32
    ensures { ReadDecided used «size» flags request_len has_writer actual_bytes.old new_used.old result actual_bytes.new new_used.new }
{
    decided(
        pipe::read_decide(used, size, flags, request_len, has_writer),
        actual_bytes,
        new_used,
    )
}

#[unsafe(no_mangle)]
pub extern "C" fn wq_pipe_read_all_decide(
    used: u32,
    size: u32,
    flags: u32,
    request_len: u32,
    has_writer: bool,
    actual_bytes: &mut u32,
    new_used: &mut u32,
) -> i32
    ensures { ReadAllDecided used «size» flags request_len has_writer actual_bytes.old new_used.old result actual_bytes.new new_used.new }
{
    decided(
        pipe::read_all_decide(used, size, flags, request_len, has_writer),
        actual_bytes,
        new_used,
    )
}
