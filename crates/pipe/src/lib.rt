// The pipe with its bytes, in place: Gale's pipe.rs. h: size, the place of the first byte, how many bytes are held, flags; b: the buffer, whose
// first bytes are the ring.
#![tactic(auto)]

ghost use Rattle.std.specs.Prelude.{◌≡◌, ◌≤◌, ℕ, pos, length};
ghost use Rattle.thread.specs.Answer.{told, kept, done, truth};
ghost use Rattle.store.specs.Store.{Did, Fills};
ghost use Rattle.ring_buf.specs.Post.{PutsN, GetsN};
ghost use Rattle.pipe.specs.Post.{Starts, Writes, WritesAll, Reads, ReadsAll, Resets, Closes, ClearsReset, GetsSpace, GetsData, GetsSize, SaysEmpty, SaysFull, SaysOpen, SaysResetting, WriteDecided, WriteAllDecided, ReadDecided, ReadAllDecided, Decided, is_open, is_resetting, layout};
ghost use Rattle.pipe.specs.Told.{Flagged, Checked, Looked, flags_of, how_many, verdict, short, moves_by, writes_by, reads_by, write_by, read_by, write_decision_by, read_decision_by, write_told, read_told, actual_told, used_told, write_number, read_number};

use Condition::{Closed, Open, OpenAndResetting, Resetting};
use thread::Coded;
use thread::Errno::{self, EAGAIN, ECANCELED, EINVAL, ENOMSG, EPIPE};

// By its flags: Gale's FLAG_OPEN and FLAG_RESET are bits.
#[derive(Clone, Copy, Debug, PartialEq, Eq)]
pub enum Condition {
    Closed = 0,
    Open = 1,
    Resetting = 2,
    OpenAndResetting = 3,
}

impl TryFrom<u32> for Condition {
    type Error = Errno;

    ghost try_from_gives = { Flagged };

    fn try_from(flags: u32) -> Result<Condition, Errno> {
        Ok(match flags {
            0 => Closed,
            1 => Open,
            2 => Resetting,
            3 => OpenAndResetting,
            _ => return Err(EINVAL),
        })
    }
}

impl Condition {
    fn is_open(self) -> bool
        ensures { result ≡ is_open (flags_of self) }
    {
        matches!(self, Open | OpenAndResetting)
    }

    fn is_resetting(self) -> bool
        ensures { result ≡ is_resetting (flags_of self) }
    {
        matches!(self, Resetting | OpenAndResetting)
    }
}

// A pipe's header, without the place of the first byte.
#[derive(Clone, Copy)]
struct Numbers {
    size: u32,
    used: u32,
    condition: Condition,
}

impl Numbers {
    fn new(used: u32, size: u32, flags: u32) -> Result<Numbers, Errno>
        ensures { Checked used «size» flags result }
    {
        if size == 0 || size < used {
            return Err(EINVAL);
        }
        Ok(Numbers {
            size,
            used,
            condition: Condition::try_from(flags)?,
        })
    }

    fn at(h: &[u32], b: &[u8]) -> Result<Numbers, Errno>
        ensures { Looked h.now b.now result }
    {
        let &[size, _, used, flags, ..] = h else {
            return Err(EINVAL);
        };
        if !ring_buf::formed(h, b) {
            return Err(EINVAL);
        }
        Numbers::new(used, size, flags)
    }

    // How many of n bytes go in, all or none if ALL; None: none now.
    fn writes<const ALL: bool>(self, n: usize) -> Result<Option<u32>, Errno>
        requires { self.used ≤ self.size }
        ensures { verdict result ≡ writes_by ALL self n }
    {
        match self.condition {
            _ if self.condition.is_resetting() => Err(ECANCELED),
            Closed => Err(EPIPE),
            Open if n == 0 => Err(ENOMSG),
            _ => self.moves::<ALL>(n, self.size - self.used),
        }
    }

    // How many of n bytes come out.
    fn reads<const ALL: bool>(self, n: usize) -> Result<Option<u32>, Errno>
        ensures { verdict result ≡ reads_by ALL self n }
    {
        match self.condition {
            _ if self.condition.is_resetting() => Err(ECANCELED),
            _ if n == 0 => Err(ENOMSG),
            Closed if short::<ALL>(n, self.used) => Err(EPIPE),
            _ => self.moves::<ALL>(n, self.used),
        }
    }

    // How many of n bytes move, where most can.
    fn moves<const ALL: bool>(self, n: usize, most: u32) -> Result<Option<u32>, Errno>
        ensures { verdict result ≡ moves_by ALL self.size most n }
    {
        if !short::<ALL>(n, most) {
            Ok(Some(n.min(most as usize) as u32))
        } else if ALL && (self.size as usize) < n {
            Err(EINVAL)
        } else {
            Ok(None)
        }
    }
}

// Whether too few of n bytes can move: none, or not all if ALL is asked.
fn short<const ALL: bool>(n: usize, most: u32) -> bool
    ensures { result ≡ short ALL n most }
{
    most == 0 || ALL && (most as usize) < n
}

// Open and empty; EINVAL: a size of 0, or above the buffer's length.
pub fn init(h: &mut [u32], b: &[u8], size: u32) -> Result<(), Errno>
    ensures { Starts size h.old b.now (told done result) h.new }
{
    if h.len() < 4 || size == 0 || b.len() < size as usize {
        return Err(EINVAL);
    }
    h[0] = size;
    h[1] = 0;
    h[2] = 0;
    h[3] = Open as u32;
    Ok(())
}

// How many went into the ring; none, if its header or the buffer is not as it should be. It is not inlined, so that who refuses saves no
// register for it, and it answers in registers: a Result with a number would cross in memory.
#[inline(never)]
fn store(h: &mut [u32], b: &mut [u8], src: &[u8]) -> Option<u32>
    ensures { PutsN src.now h.old b.old (how_many result) h.new b.new }
{
    ring_buf::put_n(h, b, src).ok()
}

// How many came out of it, alike.
#[inline(never)]
fn load(h: &mut [u32], b: &[u8], out: &mut [u8]) -> Option<u32>
    ensures { GetsN h.old b.now out.old (how_many result) h.new out.new }
{
    ring_buf::get_n(h, b, out).ok()
}

// Bytes go in: as many as there is room for, or ALL or none. The ring tests its own words: to test them here, too, takes a quarter more time.
fn put<const ALL: bool>(h: &mut [u32], b: &mut [u8], src: &[u8]) -> Result<u32, Errno>
    ensures { Did layout (write_by ALL src.now) h.old b.old (told pos result) h.new b.new }
{
    let [size, _, used, flags, ..] = *h else {
        return Err(EINVAL);
    };
    if flags == Open as u32
        && used <= size
        && !src.is_empty()
        && !short::<ALL>(src.len(), size - used)
    {
        let Some(n) = store(h, b, src) else {
            return Err(EINVAL);
        };
        return Ok(n);
    }
    Numbers::at(h, b)?.writes::<ALL>(src.len())?;
    Err(EAGAIN)
}

// How many bytes went in, the first of src. ECANCELED: resetting; EPIPE: closed; ENOMSG: src is empty; EAGAIN: full.
pub fn write(h: &mut [u32], b: &mut [u8], src: &[u8]) -> Result<u32, Errno>
    ensures { Writes src.now h.old b.old (told pos result) h.new b.new }
{
    put::<false>(h, b, src)
}

// All bytes of src went in: how many. Refusals as write; EAGAIN: there is no room for all now; EINVAL, too: they are more than the pipe can hold.
pub fn write_all(h: &mut [u32], b: &mut [u8], src: &[u8]) -> Result<u32, Errno>
    ensures { WritesAll src.now h.old b.old (told pos result) h.new b.new }
{
    put::<true>(h, b, src)
}

// Bytes come out, alike.
fn get<const ALL: bool>(h: &mut [u32], b: &[u8], out: &mut [u8]) -> Result<u32, Errno>
    ensures { Fills layout (read_by ALL (length out.old)) h.old b.now out.old (told pos result) h.new out.new }
{
    let [_, _, used, flags, ..] = *h else {
        return Err(EINVAL);
    };
    if flags < Resetting as u32 && !out.is_empty() && !short::<ALL>(out.len(), used) {
        let Some(n) = load(h, b, out) else {
            return Err(EINVAL);
        };
        return Ok(n);
    }
    Numbers::at(h, b)?.reads::<ALL>(out.len())?;
    Err(EAGAIN)
}

// How many bytes came out, to the first of out. ECANCELED: resetting; ENOMSG: out is empty; if nothing is held EPIPE: closed, EAGAIN: open.
pub fn read(h: &mut [u32], b: &[u8], out: &mut [u8]) -> Result<u32, Errno>
    ensures { Reads h.old b.now out.old (told pos result) h.new out.new }
{
    get::<false>(h, b, out)
}

// The whole of out was filled: how many bytes. Refusals as read; if fewer are held EPIPE: closed, EINVAL: out is longer than the pipe, EAGAIN.
pub fn read_all(h: &mut [u32], b: &[u8], out: &mut [u8]) -> Result<u32, Errno>
    ensures { ReadsAll h.old b.now out.old (told pos result) h.new out.new }
{
    get::<true>(h, b, out)
}

// Nothing is held, and it is resetting.
pub fn reset(h: &mut [u32], b: &[u8]) -> Result<(), Errno>
    ensures { Resets h.old b.now (told done result) h.new }
{
    let open = Numbers::at(h, b)?.condition.is_open();
    h[1] = 0;
    h[2] = 0;
    h[3] = if open { OpenAndResetting } else { Resetting } as u32;
    Ok(())
}

// Neither open nor resetting; what is held stays.
pub fn close(h: &mut [u32], b: &[u8]) -> Result<(), Errno>
    ensures { Closes h.old b.now (told done result) h.new }
{
    Numbers::at(h, b)?;
    h[3] = Closed as u32;
    Ok(())
}

// Not resetting.
pub fn clear_reset(h: &mut [u32], b: &[u8]) -> Result<(), Errno>
    ensures { ClearsReset h.old b.now (told done result) h.new }
{
    let open = Numbers::at(h, b)?.condition.is_open();
    h[3] = if open { Open } else { Closed } as u32;
    Ok(())
}

pub fn space_get(h: &[u32], b: &[u8]) -> Result<u32, Errno>
    ensures { GetsSpace h.now b.now (told pos result) }
{
    let pipe = Numbers::at(h, b)?;
    Ok(pipe.size - pipe.used)
}

// How many bytes are held.
pub fn data_get(h: &[u32], b: &[u8]) -> Result<u32, Errno>
    ensures { GetsData h.now b.now (told pos result) }
{
    Ok(Numbers::at(h, b)?.used)
}

pub fn size(h: &[u32], b: &[u8]) -> Result<u32, Errno>
    ensures { GetsSize h.now b.now (told pos result) }
{
    Ok(Numbers::at(h, b)?.size)
}

pub fn is_empty(h: &[u32], b: &[u8]) -> Result<bool, Errno>
    ensures { SaysEmpty h.now b.now (told truth result) }
{
    Ok(Numbers::at(h, b)?.used == 0)
}

// Nothing is free.
pub fn is_full(h: &[u32], b: &[u8]) -> Result<bool, Errno>
    ensures { SaysFull h.now b.now (told truth result) }
{
    let pipe = Numbers::at(h, b)?;
    Ok(pipe.used == pipe.size)
}

pub fn is_open(h: &[u32], b: &[u8]) -> Result<bool, Errno>
    ensures { SaysOpen h.now b.now (told truth result) }
{
    Ok(Numbers::at(h, b)?.condition.is_open())
}

pub fn is_resetting(h: &[u32], b: &[u8]) -> Result<bool, Errno>
    ensures { SaysResetting h.now b.now (told truth result) }
{
    Ok(Numbers::at(h, b)?.condition.is_resetting())
}

// What a write is to do. WakeReader: a reader that waits is to be woken; WritePend: the caller is to wait.
#[derive(Clone, Copy, Debug, PartialEq, Eq)]
pub enum WriteDecision {
    WriteOk = 0,
    WakeReader = 1,
    WritePend = 2,
}

impl Coded for WriteDecision {
    ghost number = { write_number };

    fn code(self) -> i32 {
        self as i32
    }
}

// What a read is to do. WakeWriter: those that wait are to write, the first first, as far as there is room; ReadPend: the caller is to wait.
#[derive(Clone, Copy, Debug, PartialEq, Eq)]
pub enum ReadDecision {
    ReadOk = 0,
    WakeWriter = 1,
    ReadPend = 2,
}

impl Coded for ReadDecision {
    ghost number = { read_number };

    fn code(self) -> i32 {
        self as i32
    }
}

// How many bytes move, and how many are held then.
#[derive(Clone, Copy, Debug, PartialEq, Eq)]
pub struct DecideResult<D> {
    pub decision: D,
    pub actual_bytes: u32,
    pub new_used: u32,
}

pub type WriteDecideResult = DecideResult<WriteDecision>;

pub type ReadDecideResult = DecideResult<ReadDecision>;

fn write_decision<const ALL: bool>(
    used: u32,
    size: u32,
    flags: u32,
    request_len: u32,
    has_reader: bool,
) -> Result<WriteDecideResult, Errno>
    ensures { (a u : ℕ) → Decided (write_decision_by ALL used «size» flags request_len has_reader) a u (told write_told result) (kept actual_told result a) (kept used_told result u) }
{
    let pipe = Numbers::new(used, size, flags)?;
    Ok(match pipe.writes::<ALL>(request_len as usize)? {
        None => DecideResult {
            decision: WriteDecision::WritePend,
            actual_bytes: 0,
            new_used: used,
        },
        Some(n) if has_reader => DecideResult {
            decision: WriteDecision::WakeReader,
            actual_bytes: n,
            new_used: if used == 0 { 0 } else { used + n },
        },
        Some(n) => DecideResult {
            decision: WriteDecision::WriteOk,
            actual_bytes: n,
            new_used: used + n,
        },
    })
}

// Refusals as write, whoever waits. WakeReader: if nothing is held the bytes go straight to it, and nothing is held then (request_len is to be at
// most what it asks for); else they go behind what is held, and it is to read.
pub fn write_decide(
    used: u32,
    size: u32,
    flags: u32,
    request_len: u32,
    has_reader: bool,
) -> Result<WriteDecideResult, Errno>
    ensures { (a u : ℕ) → WriteDecided used «size» flags request_len has_reader a u (told write_told result) (kept actual_told result a) (kept used_told result u) }
{
    write_decision::<false>(used, size, flags, request_len, has_reader)
}

// All bytes or none: as write_decide, but WritePend also where only a part of them has room, and EINVAL where they are more than the pipe can hold.
pub fn write_all_decide(
    used: u32,
    size: u32,
    flags: u32,
    request_len: u32,
    has_reader: bool,
) -> Result<WriteDecideResult, Errno>
    ensures { (a u : ℕ) → WriteAllDecided used «size» flags request_len has_reader a u (told write_told result) (kept actual_told result a) (kept used_told result u) }
{
    write_decision::<true>(used, size, flags, request_len, has_reader)
}

fn read_decision<const ALL: bool>(
    used: u32,
    size: u32,
    flags: u32,
    request_len: u32,
    has_writer: bool,
) -> Result<ReadDecideResult, Errno>
    ensures { (a u : ℕ) → Decided (read_decision_by ALL used «size» flags request_len has_writer) a u (told read_told result) (kept actual_told result a) (kept used_told result u) }
{
    let pipe = Numbers::new(used, size, flags)?;
    Ok(match pipe.reads::<ALL>(request_len as usize)? {
        None => DecideResult {
            decision: ReadDecision::ReadPend,
            actual_bytes: 0,
            new_used: used,
        },
        Some(n) => DecideResult {
            decision: if has_writer {
                ReadDecision::WakeWriter
            } else {
                ReadDecision::ReadOk
            },
            actual_bytes: n,
            new_used: used - n,
        },
    })
}

// Refusals as read, whoever waits.
pub fn read_decide(
    used: u32,
    size: u32,
    flags: u32,
    request_len: u32,
    has_writer: bool,
) -> Result<ReadDecideResult, Errno>
    ensures { (a u : ℕ) → ReadDecided used «size» flags request_len has_writer a u (told read_told result) (kept actual_told result a) (kept used_told result u) }
{
    read_decision::<false>(used, size, flags, request_len, has_writer)
}

// All bytes or none: as read_decide, but if fewer are held EPIPE: closed, EINVAL: they are more than the pipe can hold, ReadPend.
pub fn read_all_decide(
    used: u32,
    size: u32,
    flags: u32,
    request_len: u32,
    has_writer: bool,
) -> Result<ReadDecideResult, Errno>
    ensures { (a u : ℕ) → ReadAllDecided used «size» flags request_len has_writer a u (told read_told result) (kept actual_told result a) (kept used_told result u) }
{
    read_decision::<true>(used, size, flags, request_len, has_writer)
}
