// What every kernel object has in common, most of it in specs/ and proofs/: a verdict on a call, what it does to the queue, and the laws
// for any sequence of calls. An object is a kind with its own numbers and calls.
#![tactic(auto)]

ghost use Rattle.kind.specs.Post.{SaysHoused};

// Whether a header of so many words and the entries have their room.
pub fn housed(h: &[u32], words: usize, e: &[u64]) -> bool
    ensures { SaysHoused words h.now e.now result }
{
    words <= h.len() && wait_queue::fits(0, e)
}
