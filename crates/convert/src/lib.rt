// The conversion of R-9, for gateways that restart with records of the old form: a queue in that form is read, and written in the new form into other memory.
// A record of the old form has 132 bytes: the mark UR, the table number, the payload's length and 128 bytes for the payload. Neither the old queue nor its memory
// changes; refused, the new memory doesn't either. No offset is multiplied on the way round the ring: it is carried along.
#![tactic(auto)]

ghost use Rattle.std.specs.Prelude.{◌≡◌, true, ◌+◌, ◌≤◌, length, get_or, ltb, if◌then◌else◌};
ghost use Rattle.text.specs.Text.{part_of};
ghost use Rattle.queue.specs.Queue.{ours, older, capacity_of, in_bounds, recorded, length_at, record_good, after, held_from};
ghost use Rattle.convert.specs.Convert.{held_good, laid, converted, outcome};

use queue::{Form, Older, Queue, RECORD};

// Why a conversion is refused: 3 (bounds, or a held record) or 13 (the new memory holds fewer records than are held).
#[derive(Clone, Copy)]
pub enum ConvertError {
    Bad,
    TooFew,
}

// Where the next old record lies, round the ring that ends at `end`.
fn next_base(base: usize, end: usize) -> usize
    requires { (base + 132 ≤ end) × (end ≤ 2112) }
    ensures { result ≡ (if ltb (base + 132) end then base + 132 else 0) }
{
    let next = base + Older::RECORD;
    if next < end { next } else { 0 }
}

// Has each of the records that an old queue holds a good mark and length?
fn are_good(queue: Queue, cap: usize, mem: &[u8]) -> bool
    requires fitted { cap ≡ capacity_of older (length mem.now) }
    requires bounded { in_bounds cap queue ≡ true }
    ensures { result ≡ held_good older mem.now cap queue.start 0 queue.count }
{
    let end = Older::RECORD * cap;
    let mut base = Older::RECORD * queue.start;
    for _ in 0..queue.count {
        if queue::notice_at::<Older>(mem, base).is_none() {
            return false;
        }
        base = next_base(base, end);
    }
    true
}

// Writes the old record at `base` as a new one at `to`. It asks nothing again: each was seen to be good.
fn copy(old_mem: &[u8], base: usize, mem: &mut [u8], to: usize)
    requires { base + 132 ≤ length old_mem.now }
    ensures { mem.new ≡ recorded ours (get_or old_mem.now (base + 2) 0) (part_of old_mem.now (base + 4) (length_at older old_mem.now base)) to mem.old }
{
    let len = Older::length_at(old_mem, base);
    let p = text::part(old_mem, base + Older::HEAD, len);
    queue::write_record(mem, to, old_mem[base + 2], p);
}

// Writes each of the records that an old queue holds, oldest first, from the new memory's front on.
fn copy_all(old: Queue, cap: usize, old_mem: &[u8], mem: &mut [u8])
    requires fitted { cap ≡ capacity_of older (length old_mem.now) }
    requires bounded { in_bounds cap old ≡ true }
    requires good { held_good older old_mem.now cap old.start 0 old.count ≡ true }
    ensures { mem.new ≡ laid ours 0 (held_from older old_mem.now cap old.start 0 old.count) mem.old }
{
    let end = Older::RECORD * cap;
    let mut from = Older::RECORD * old.start;
    let mut to = 0;
    for _ in 0..old.count {
        copy(old_mem, from, mem, to);
        from = next_base(from, end);
        to += RECORD;
    }
}

// Converts: the new queue has start 0, the same count and lost count, and the same notices in the same order, as records from the new memory's front on; its other
// bytes stay. Refusal 3 where the old start or count is outside its bounds or a held record has a wrong mark or length; then 13 where the new memory holds
// fewer records than are held.
#[tactic(auto, unfolding(crate::specs::Convert::converted, queue::specs::Queue::waiting))]
pub fn convert(old: Queue, old_mem: &[u8], mem: &mut [u8]) -> Result<Queue, ConvertError>
    ensures { after (outcome result) mem.new ≡ converted older ours old old_mem.now mem.old }
{
    let cap = queue::capacity_in::<Older>(old_mem.len());
    if !old.is_bounded(cap) || !are_good(old, cap, old_mem) {
        return Err(ConvertError::Bad);
    }
    if queue::capacity(mem.len()) < old.count {
        return Err(ConvertError::TooFew);
    }
    copy_all(old, cap, old_mem, mem);
    Ok(Queue { start: 0, ..old })
}
