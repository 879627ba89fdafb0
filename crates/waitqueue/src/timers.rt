// Timers: the header's three words.
ghost use Rattle.std.specs.Prelude.{◌≡◌};
ghost use Rattle.thread.specs.Answer.{told, kept};
ghost use Rattle.timer.specs.Timer.{decided, its_status};
ghost use Rattle.timer.specs.Post.{ExpireDecided, Starts, StartsRunning, Stops, Expires, GetsStatus, PeeksStatus, GetsPeriod, SaysRunning};

use crate::answers::wide;
use thread::{Coded, Errno, told};
use timer::ExpireDecideResult;

#[unsafe(no_mangle)]
pub extern "C" fn wq_timer_init(head: &mut [u32; 3], period: u32) -> i32
    ensures { Starts period head.old result head.new }
{
    told(timer::init(head, period))
}

#[unsafe(no_mangle)]
pub extern "C" fn wq_timer_start(head: &mut [u32; 3]) -> i32
    ensures { StartsRunning head.old result head.new }
{
    told(timer::start(head))
}

#[unsafe(no_mangle)]
pub extern "C" fn wq_timer_stop(head: &mut [u32; 3]) -> i32
    ensures { Stops head.old result head.new }
{
    told(timer::stop(head))
}

#[unsafe(no_mangle)]
pub extern "C" fn wq_timer_expire(head: &mut [u32; 3]) -> i64
    ensures { Expires head.old result head.new }
{
    wide(timer::expire(head))
}

#[unsafe(no_mangle)]
pub extern "C" fn wq_timer_status_get(head: &mut [u32; 3]) -> i64
    ensures { GetsStatus head.old result head.new }
{
    wide(timer::status_get(head))
}

#[unsafe(no_mangle)]
pub extern "C" fn wq_timer_status_peek(head: &[u32; 3]) -> i64
    ensures { PeeksStatus head.now result }
{
    wide(timer::status_peek(head))
}

#[unsafe(no_mangle)]
pub extern "C" fn wq_timer_period_get(head: &[u32; 3]) -> i64
    ensures { GetsPeriod head.now result }
{
    wide(timer::period_get(head))
}

#[unsafe(no_mangle)]
pub extern "C" fn wq_timer_is_running(head: &[u32; 3]) -> i32
    ensures { SaysRunning head.now result }
{
    told(timer::is_running(head))
}

#[unsafe(no_mangle)]
pub extern "C" fn wq_timer_expire_decide(status: u32, period: u32, new_status: &mut u32) -> i32
    ensures { ExpireDecided status period new_status.old result new_status.new }
{
    stored(timer::expire_decide(status, period), new_status)
}

fn stored(answer: Result<ExpireDecideResult, Errno>, new_status: &mut u32) -> i32
    ensures code { result ≡ told decided answer }
    ensures word { new_status.new ≡ kept its_status answer new_status.old }
{
    match answer {
        Ok(expiry) => {
            *new_status = expiry.new_status;
            expiry.code()
        }
        Err(refusal) => refusal.code(),
    }
}
