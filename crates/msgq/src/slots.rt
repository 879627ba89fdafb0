// Slots used round and round.
ghost use Rattle.std.specs.Prelude.{◌≡◌, ◌+◌, ◌<◌, ◌≤◌};
ghost use Rattle.ring_buf.specs.Ring.{wrap};

use thread::Errno::{self, EINVAL};

// The slot behind t. By Slots::behind a put_decide and a get_decide take 63 instructions, so 60.
pub(crate) fn next(t: u32, n: u32) -> u32
    requires { t < n }
    ensures { result ≡ wrap (t + 1) n }
{
    if t + 1 == n { 0 } else { t + 1 }
}

// max slots, of which so many are used; idx: the first of them, or the next one to write.
#[derive(Clone, Copy)]
pub struct Slots {
    pub max: u32,
    pub idx: u32,
    pub used: u32,
    pub ghost within: { idx < max },
    pub ghost room: { used ≤ max },
}

impl Slots {
    ghost use Rattle.msgq.specs.Numbers.{Counts};

    pub(crate) fn new(idx: u32, used: u32, max: u32) -> Result<Slots, Errno>
        ensures { Counts idx used max result }
    {
        if max <= idx || max < used {
            return Err(EINVAL);
        }
        Ok(Slots { max, idx, used })
    }

    // The slot k behind idx, round the end.
    pub(crate) fn behind(self, k: u32) -> u32
        requires { k ≤ self.max }
        ensures { result ≡ wrap (self.idx + k) self.max }
    {
        let m = self.max - self.idx;
        if k < m { self.idx + k } else { k - m }
    }
}
