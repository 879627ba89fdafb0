// The words of a header that is as it should be.
ghost use Rattle.std.specs.Prelude.{◌≡◌, ◌+◌, ◌<◌, ◌≤◌};
ghost use Rattle.ring_buf.specs.Ring.{wrap};

use crate::place;

#[derive(Clone, Copy, Debug, PartialEq, Eq)]
pub struct RingBuf {
    pub capacity: u32,
    pub head: u32,
    pub size: u32,
    ghost start: { head < capacity },
    ghost within: { size ≤ capacity },
}

impl RingBuf {
    // The place of the byte behind i others.
    pub(crate) fn at(self, i: u32) -> u32
        requires { i ≤ self.capacity }
        ensures place { result ≡ wrap (self.head + i) self.capacity }
        ensures within { result < self.capacity }
    {
        place(self.head as usize + i as usize, self.capacity as usize) as u32
    }
}
