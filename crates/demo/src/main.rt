// The worked run of a semaphore of count 0 and limit 2: three threads take and wait, and six gives. Then two refusals and a reset.
// Each answer that is expected here is proved. Each call prints its line.
#![tactic(auto)]

ghost use Rattle.std.specs.Prelude.{◌≤◌, length, ℕ, pos};
ghost use Rattle.thread.specs.Answer.{told, kept, done};
ghost use Rattle.thread.specs.Thread.{running};
ghost use Rattle.wait_queue.specs.Turn.{outcome};
ghost use Rattle.sem.specs.Sem.{gave, handed};
ghost use Rattle.sem.specs.Post.{Starts, Gives, Takes, Resets};
ghost use Rattle.sem.specs.History.{fresh};
ghost use Rattle.sem.specs.Worked.{worked};
ghost use Rattle.demo.specs.Run.{Is, two};

use sem::GiveResult;
use std::{fmt, io};
use thread::Errno::{self, EBUSY, EINVAL};
use thread::{Caller, RUNNING};
use wait_queue::{MAX_WAITERS, Outcome};

// What is printed on, and the first failure of that, after which nothing more is printed. It is kept here and not handed on
// by `?`, since what each call promises holds even where printing fails.
#[derive(Drop)]
struct Page {
    rt: HostRuntime,
    written: io::Result<()>,
}

impl Page {
    fn text<T: fmt::Display + Drop>(&mut self, text: T) {
        if self.written.is_ok() {
            self.written = print!(self.rt; "{text}");
        }
    }

    fn refused(&mut self, refusal: Errno) {
        self.text(format_args!("refused with {refusal}"));
    }

    fn semaphore(&mut self, h: &[u32; 3], e: &[u64; MAX_WAITERS]) {
        self.text(format_args!("{}\n", Semaphore { h, e }));
    }
}

// The word of one that is woken: its thread, and the result of the call in which it waited.
#[derive(Clone, Copy)]
struct Woken(u64);

impl fmt::Display for Woken {
    fn fmt<W: fmt::Write>(&self, f: &mut fmt::Formatter<W>) -> fmt::Result {
        let result = (self.0 / 4294967296) as u32;
        write!(f, " {} with {}", self.0 % 4294967296, result.cast_signed())
    }
}

#[derive(Clone, Copy)]
struct Semaphore<'a> {
    h: &'a [u32; 3],
    e: &'a [u64; MAX_WAITERS],
}

impl fmt::Display for Semaphore<'_> {
    fn fmt<W: fmt::Write>(&self, f: &mut fmt::Formatter<W>) -> fmt::Result {
        let Semaphore { h, e } = *self;
        let &[count, _, waiting] = h;
        write!(f, "; count {count}")?;
        if waiting == 0 {
            return write!(f, "; nobody waits");
        }
        write!(f, "; queue")?;
        let n = MAX_WAITERS.min(waiting as usize);
        // The first to be woken stands last.
        for entry in e[..n].iter().rev() {
            write!(f, " {}", entry % 4294967296)?;
        }
        Ok(())
    }
}

fn main(rt: HostRuntime) -> io::Result<()> {
    let mut page = Page {
        rt,
        written: Ok(()),
    };
    let mut h = [0u32; 3];
    let mut e = [0u64; MAX_WAITERS];
    let mut out = [0u64; MAX_WAITERS];
    let made = init(&mut page, &mut h, &e, 0, 2);
    prove!(made == Ok(()));
    three_wait(&mut page, &mut h, &mut e);
    three_are_woken(&mut page, &mut h, &e);
    three_are_counted(&mut page, &mut h, &e);
    two_wait(&mut page, &mut h, &mut e);
    two_are_refused(&mut page, &mut h, &mut e);
    two_are_reset(&mut page, &mut h, &e, &mut out);
    page.written
}

fn three_wait(page: &mut Page, h: &mut [u32; 3], e: &mut [u64; MAX_WAITERS])
    requires { Is (fresh 0 2) h.old e.old }
    ensures { Is (worked 0) h.new e.new }
{
    let seventh = take(page, h, e, 7, 5);
    prove!(seventh == Ok(Outcome::Blocked));
    let third = take(page, h, e, 3, 2);
    prove!(third == Ok(Outcome::Blocked));
    let ninth = take(page, h, e, 9, 5);
    prove!(ninth == Ok(Outcome::Blocked));
}

fn three_are_woken(page: &mut Page, h: &mut [u32; 3], e: &[u64; MAX_WAITERS])
    requires { Is (worked 0) h.old e.now }
    ensures { Is (worked 3) h.new e.now }
{
    let first = give(page, h, e);
    prove!(first == Ok(GiveResult::WokeThread(3)));
    let second = give(page, h, e);
    prove!(second == Ok(GiveResult::WokeThread(7)));
    let third = give(page, h, e);
    prove!(third == Ok(GiveResult::WokeThread(9)));
}

fn three_are_counted(page: &mut Page, h: &mut [u32; 3], e: &[u64; MAX_WAITERS])
    requires { Is (worked 3) h.old e.now }
    ensures { Is (worked 6) h.new e.now }
{
    let first = give(page, h, e);
    prove!(first == Ok(GiveResult::Incremented));
    let second = give(page, h, e);
    prove!(second == Ok(GiveResult::Incremented));
    let third = give(page, h, e);
    prove!(third == Ok(GiveResult::Saturated));
}

// What is there is taken first.
fn two_wait(page: &mut Page, h: &mut [u32; 3], e: &mut [u64; MAX_WAITERS])
    requires { Is (worked 6) h.old e.old }
    ensures { Is two h.new e.new }
{
    let first = take(page, h, e, 4, 1);
    prove!(first == Ok(Outcome::Acquired));
    let second = take(page, h, e, 4, 1);
    prove!(second == Ok(Outcome::Acquired));
    let eighth = take(page, h, e, 8, 6);
    prove!(eighth == Ok(Outcome::Blocked));
    let sixth = take(page, h, e, 6, 1);
    prove!(sixth == Ok(Outcome::Blocked));
}

// A thread that waits already, and a priority that there is not.
fn two_are_refused(page: &mut Page, h: &mut [u32; 3], e: &mut [u64; MAX_WAITERS])
    requires { Is two h.old e.old }
    ensures { Is two h.new e.new }
{
    let twice = take(page, h, e, 8, 6);
    prove!(twice == Err(EBUSY));
    let beyond = take(page, h, e, 5, 32);
    prove!(beyond == Err(EINVAL));
}

fn two_are_reset(
    page: &mut Page,
    h: &mut [u32; 3],
    e: &[u64; MAX_WAITERS],
    out: &mut [u64; MAX_WAITERS],
)
    requires { Is two h.old e.now × (2 ≤ length out.old) }
    ensures { Is (fresh 0 2) h.new e.now }
{
    let number = reset(page, h, e, out);
    prove!(number == Ok(2));
    prove!(out[0] % 4294967296 == 6);
    prove!(out[1] % 4294967296 == 8);
}

fn init(
    page: &mut Page,
    h: &mut [u32; 3],
    e: &[u64; MAX_WAITERS],
    count: u32,
    limit: u32,
) -> Result<(), Errno>
    ensures { Starts count limit h.old (told done result) h.new }
{
    page.text(format_args!("init {count} of {limit}: "));
    let made = sem::init(h, count, limit);
    match made {
        Ok(()) => page.text("made"),
        Err(refusal) => page.refused(refusal),
    }
    page.semaphore(h, e);
    made
}

fn take(
    page: &mut Page,
    h: &mut [u32; 3],
    e: &mut [u64; MAX_WAITERS],
    id: u32,
    priority: u32,
) -> Result<Outcome, Errno>
    ensures { Takes id priority running h.old e.old (told outcome result) h.new e.new }
{
    page.text(format_args!("take thread {id} priority {priority}: "));
    let caller = Caller {
        id,
        priority,
        state: RUNNING,
    };
    let taken = sem::take_blocking(h, e, caller);
    match taken {
        Ok(Outcome::Acquired) => page.text("takes"),
        Ok(Outcome::Blocked) => page.text("waits"),
        Err(refusal) => page.refused(refusal),
    }
    page.semaphore(h, e);
    taken
}

fn give(page: &mut Page, h: &mut [u32; 3], e: &[u64; MAX_WAITERS]) -> Result<GiveResult, Errno>
    ensures { (x : ℕ) → Gives h.old e.now x (told gave result) h.new (kept handed result x) }
{
    page.text("give: ");
    let given = sem::give(h, e);
    match given {
        Ok(GiveResult::WokeThread(who)) => page.text(format_args!("wakes{}", Woken(who))),
        Ok(GiveResult::Incremented) => page.text("counts"),
        Ok(GiveResult::Saturated) => page.text("is at the limit"),
        Err(refusal) => page.refused(refusal),
    }
    page.semaphore(h, e);
    given
}

fn reset(
    page: &mut Page,
    h: &mut [u32; 3],
    e: &[u64; MAX_WAITERS],
    out: &mut [u64; MAX_WAITERS],
) -> Result<u16, Errno>
    ensures { Resets h.old e.now out.old (told pos result) h.new out.new }
{
    page.text("reset: ");
    let woken = sem::reset(h, e, out);
    match woken {
        Ok(n) => {
            page.text("wakes");
            let n = MAX_WAITERS.min(n as usize);
            for (i, &who) in out[..n].iter().enumerate() {
                if 0 < i {
                    page.text(",");
                }
                page.text(Woken(who));
            }
        }
        Err(refusal) => page.refused(refusal),
    }
    page.semaphore(h, e);
    woken
}
