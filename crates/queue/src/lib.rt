// The bounded notice queue of document 01, in memory that the caller lends: a ring of records of 1,029 bytes (R-9), at most 16.
// A record is the mark UX, the table number, the payload's length in two bytes, high byte first, and 1,024 bytes for the payload, of which those not used stay
// as they were.
// The queue is a struct by value beside the memory; a refusal changes neither.
#![tactic(auto)]

ghost use Rattle.std.specs.Prelude.{◌≡◌, refl, ℕ, List, ◌+◌, ◌≤◌, ◌<◌, length, drop};
ghost use Rattle.queue.specs.Queue.{Geometry, Sound, ours, older, capacity_of, start_in, in_bounds, ring_place, new_queue, lost_one, after, recorded, put_into, outcome, length_at, notice_in, taken, taking};
ghost use Rattle.queue.specs.Laws.{ours_sound, older_sound, ours_small, older_small};

// How many records there are at most.
const MOST: usize = 16;

// What lies in the memory from `base` on; past its end nothing.
fn behind(mem: &[u8], base: usize) -> &[u8]
    ensures { result.now ≡ drop base mem.now }
{
    &mem[base.min(mem.len())..]
}

// How records lie in a memory, as `form` says it.
pub trait Form {
    // How long a record is, its mark, how long its head, and how long its longest payload.
    const RECORD: usize;

    const MARK: [u8; 2];

    const HEAD: usize;

    const LONGEST: usize;

    ghost form: { Geometry };

    ghost RECORD: { ℕ };

    ghost MARK: { List ℕ };

    ghost HEAD: { ℕ };

    ghost LONGEST: { ℕ };

    // The payload's length in the head at `base`; a byte that isn't there is 0.
    fn length_at(mem: &[u8], base: usize) -> usize
        ensures { result ≡ length_at form mem.now base };

    ghost record_is: { RECORD ≡ form.size };

    ghost mark_is: { MARK ≡ form.mark };

    ghost head_is: { HEAD ≡ form.head };

    ghost longest_is: { LONGEST ≡ form.longest };

    ghost most_is: { form.most ≡ 16 };

    ghost sound: { Sound form };

    ghost small: { form.size ≤ 4096 };
}

// This crate's own (R-9): two bytes are the payload's length, the high one first.
pub struct Ours;

// That of before R-9, of which queues are still there to be converted: one byte is the payload's length.
pub struct Older;

// How long a record is.
pub const RECORD: usize = 1029;

impl Form for Ours {
    const RECORD: usize = RECORD;

    const MARK: [u8; 2] = [b'U', b'X'];

    const HEAD: usize = 5;

    const LONGEST: usize = 1024;

    ghost form = { ours };

    ghost RECORD = { 1029 };

    ghost MARK = { ours.mark };

    ghost HEAD = { 5 };

    ghost LONGEST = { 1024 };

    fn length_at(mem: &[u8], base: usize) -> usize {
        let head = behind(mem, base);
        u16::from_be_bytes([text::byte_at(head, 3), text::byte_at(head, 4)]) as usize
    }

    ghost record_is = { refl };

    ghost mark_is = { refl };

    ghost head_is = { refl };

    ghost longest_is = { refl };

    ghost most_is = { refl };

    ghost sound = { ours_sound };

    ghost small = { ours_small };
}

impl Form for Older {
    const RECORD: usize = 132;

    const MARK: [u8; 2] = [b'U', b'R'];

    const HEAD: usize = 4;

    const LONGEST: usize = 128;

    ghost form = { older };

    ghost RECORD = { 132 };

    ghost MARK = { older.mark };

    ghost HEAD = { 4 };

    ghost LONGEST = { 128 };

    fn length_at(mem: &[u8], base: usize) -> usize {
        text::byte_at(behind(mem, base), 3) as usize
    }

    ghost record_is = { refl };

    ghost mark_is = { refl };

    ghost head_is = { refl };

    ghost longest_is = { refl };

    ghost most_is = { refl };

    ghost sound = { older_sound };

    ghost small = { older_small };
}

// The ring: where it starts, how many records it holds, and how many notices were lost.
#[derive(Clone, Copy)]
pub struct Queue {
    pub start: usize,
    pub count: usize,
    pub lost: u32,
}

// A notice in a record: its table number, and where its payload lies in the memory.
// Place and length stay two numbers, as the C interface hands them out: a Span would be no plainer, being taken apart at once.
#[derive(Clone, Copy)]
pub struct Notice {
    pub number: u8,
    pub place: usize,
    pub len: usize,
}

// Why a put is refused: 3 (bounds) or 5 (full).
#[derive(Clone, Copy)]
pub enum PutError {
    BadBounds,
    Full,
}

// Why a take is refused (3): the bounds, or the record.
#[derive(Clone, Copy)]
pub enum TakeError {
    Bad,
}

// How many records of a form a memory of `len` bytes holds.
pub fn capacity_in<F: Form>(len: usize) -> usize
    ensures { result ≡ capacity_of F.form len }
{
    (len / F::RECORD).min(MOST)
}

// How many records of ours.
pub fn capacity(len: usize) -> usize
    ensures { result ≡ capacity_of ours len }
{
    capacity_in::<Ours>(len)
}

// A start is below the capacity, or 0 where that is 0.
#[tactic(auto, unfolding(crate::specs::Queue::start_in))]
fn start_in(cap: usize, start: usize) -> bool
    ensures { result ≡ start_in cap start }
{
    start < cap.max(1)
}

// The place i records on from start, round the ring.
#[tactic(auto, unfolding(crate::specs::Queue::ring_place))]
fn ring(start: usize, i: usize, cap: usize) -> usize
    requires { (start < cap) × ((i ≤ cap) × (cap ≤ 16)) }
    ensures { result ≡ ring_place start i cap }
{
    let n = start + i;
    if n < cap { n } else { n - cap }
}

// Writes a notice as the record at `base`: its head, and the payload behind it; the other bytes stay. A part that doesn't fit changes nothing.
#[tactic(auto, unfolding(crate::specs::Queue::recorded), using(moves::specs::Laws::put_none))]
pub fn write_record(mem: &mut [u8], base: usize, number: u8, p: &[u8])
    ensures { mem.new ≡ recorded ours number p.now base mem.old }
{
    if mem.len() < base {
        return;
    }
    let [high, low] = ((p.len() % 65536) as u16).to_be_bytes();
    let head = [b'U', b'X', number, high, low];
    moves::put(mem, base, &head);
    moves::put(mem, base + Ours::HEAD, p);
}

// The notice in the record at `base`; none where its mark or its length is wrong.
#[tactic(auto, unfolding(crate::specs::Queue::record_good))]
pub fn notice_at<F: Form>(mem: &[u8], base: usize) -> Option<Notice>
    ensures { result ≡ notice_in F.form mem.now base }
{
    if !text::matches_at(mem, base, &F::MARK) {
        return None;
    }
    let len = F::length_at(mem, base);
    if len == 0 || F::LONGEST < len {
        return None;
    }
    Some(Notice {
        number: text::byte_at(behind(mem, base), 2),
        place: base + F::HEAD,
        len,
    })
}

impl Queue {
    // An empty queue with nothing lost.
    pub fn new() -> Queue
        ensures { result ≡ new_queue }
    {
        Queue {
            start: 0,
            count: 0,
            lost: 0,
        }
    }

    // Are start and count within their bounds for a memory of that capacity?
    #[tactic(auto, unfolding(crate::specs::Queue::in_bounds))]
    pub fn is_bounded(self, cap: usize) -> bool
        ensures { result ≡ in_bounds cap self }
    {
        start_in(cap, self.start) && self.count <= cap
    }

    // The queue with one more notice lost.
    fn lose(self) -> Queue
        ensures { result ≡ lost_one self }
    {
        Queue {
            lost: moves::one_more(self.lost),
            ..self
        }
    }

    // Puts a notice as the record next after those held, as the ingress delivers it. Refusal 3 where start or count is outside its bounds;
    // a payload of 0 or over 1,024 bytes is a lost notice, counted, even when the queue is full; refusal 5 where it is full.
    #[tactic(auto, unfolding(crate::specs::Queue::put_into, crate::specs::Queue::written))]
    pub fn put(self, mem: &mut [u8], number: u8, p: &[u8]) -> Result<Queue, PutError>
        ensures { after (outcome result) mem.new ≡ put_into ours self number p.now mem.old }
    {
        let cap = capacity(mem.len());
        if !self.is_bounded(cap) {
            return Err(PutError::BadBounds);
        }
        if p.is_empty() || Ours::LONGEST < p.len() {
            return Ok(self.lose());
        }
        if cap <= self.count {
            return Err(PutError::Full);
        }
        let base = RECORD * ring(self.start, self.count, cap);
        write_record(mem, base, number, p);
        Ok(Queue {
            count: self.count + 1,
            ..self
        })
    }

    // Takes the oldest notice: its number, and its payload's place and length in the memory, of which no byte changes.
    // An empty queue answers nothing. Refusal 3 where start or count is outside its bounds, or the record has a wrong mark or length.
    #[tactic(auto, unfolding(crate::specs::Queue::taken, crate::specs::Queue::shorter))]
    pub fn take(self, mem: &[u8]) -> Result<(Queue, Option<Notice>), TakeError>
        ensures { taking result ≡ taken ours self mem.now }
    {
        let cap = capacity(mem.len());
        if !self.is_bounded(cap) {
            return Err(TakeError::Bad);
        }
        if self.count == 0 {
            return Ok((self, None));
        }
        let Some(notice) = notice_at::<Ours>(mem, RECORD * self.start) else {
            return Err(TakeError::Bad);
        };
        let next = Queue {
            start: ring(self.start, 1, cap),
            count: self.count - 1,
            ..self
        };
        Ok((next, Some(notice)))
    }
}
