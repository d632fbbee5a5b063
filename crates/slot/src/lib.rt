// The response slot of atat's response_slot.rs by document 01: one answer, held until the client resets it, and the serial number of the command that it
// is to answer (R-11).
// The slot is a struct by value beside lent memory; each call takes the slot and hands the next slot back, or refuses with 3
// where the stored length is past the memory, a reset with 15 where the serial number is the one in force; refused, neither slot nor memory has changed.
#![tactic(auto)]

ghost use Rattle.std.specs.Prelude.{◌≡◌};
ghost use Rattle.text.specs.Text.{part_of, part_at, further};
ghost use Rattle.slot.specs.Slot.{is_response, carries, new_slot, lost_one, filled, overflowing, after, signalled, outcome, was_reset, resetting, was_read, reading, readable};

use answers::{Answer, Kind};

// What is stored: an answer's kind, or that its payload was longer than the memory (CapacityError; not for digits, R-2).
// An Option would be no plainer: CapacityError is an answer too, and not the lack of one.
#[derive(Clone, Copy)]
pub enum Held {
    Heard(Kind),
    Capacity,
}

// `signalled` stands beside what is held, and no Option holds both: a reset frees and changes nothing else, and the C interface shows what a free slot holds.
// `serial` is the number in force (R-11), and so the one that a stored answer bears: only a reset changes it, and a reset frees.
#[derive(Clone, Copy)]
pub struct Slot {
    pub signalled: bool,
    pub held: Held,
    pub number: u32,
    pub len: usize,
    pub lost: u32,
    pub serial: u32,
}

// Why a signal or a look is refused (3): the stored length is past the memory.
#[derive(Clone, Copy)]
pub enum SlotError {
    BadLength,
}

// Why a reset is refused: 3, or 15 where the serial number is the one in force (R-11).
#[derive(Clone, Copy)]
pub enum ResetError {
    BadLength,
    Repeated,
}

// A look at the slot: it is signalled, or it is free and answers nothing. Looking changes nothing. An Option would be no plainer: the slot is handed back in both cases.
#[derive(Clone, Copy)]
pub enum Looked {
    Signalled(Slot),
    Nothing(Slot),
}

// Is it an answer for the slot? None and notices aren't.
fn is_response(kind: Kind) -> bool
    ensures { result ≡ is_response kind }
{
    !matches!(kind, Kind::None | Kind::Notice)
}

// Does the kind carry bytes? An Ok and a custom error their payload, a numeric error its digits (R-2).
fn carries(kind: Kind) -> bool
    ensures { result ≡ carries kind }
{
    matches!(
        kind,
        Kind::Ok | Kind::Cme | Kind::Cms | Kind::Unknown | Kind::Custom
    )
}

impl Slot {
    // A new slot is free and holds an empty Ok, with nothing lost; its serial number is 0 (R-11).
    pub fn new() -> Slot
        ensures { result ≡ new_slot }
    {
        Slot {
            signalled: false,
            held: Held::Heard(Kind::Ok),
            number: 0,
            len: 0,
            lost: 0,
            serial: 0,
        }
    }

    // The slot with an answer stored that takes `len` bytes of the memory.
    fn fill(self, kind: Kind, n: u32, len: usize) -> Slot
        ensures { result ≡ filled self kind n len }
    {
        Slot {
            signalled: true,
            held: Held::Heard(kind),
            number: answers::number_of(kind, n),
            len,
            ..self
        }
    }

    // The slot with an answer whose bytes are longer than the memory: of a numeric error they are left out (R-2), any other reads CapacityError.
    fn overflow(self, kind: Kind, n: u32) -> Slot
        ensures { result ≡ overflowing self kind n }
    {
        if answers::is_numeric(kind) {
            return self.fill(kind, n, 0);
        }
        Slot {
            signalled: true,
            held: Held::Capacity,
            number: 0,
            len: 0,
            ..self
        }
    }

    // The slot with one more answer lost, and nothing else changed.
    fn lose(self) -> Slot
        ensures { result ≡ lost_one self }
    {
        Slot {
            lost: moves::one_more(self.lost),
            ..self
        }
    }

    // Signals an answer with its bytes: an Ok's or a custom error's payload, a numeric error's digits (R-2); other kinds use none. A free slot stores it;
    // on a signalled one it is lost and counted; None or a notice changes nothing on either.
    #[tactic(auto, unfolding(crate::specs::Slot::signalled))]
    pub fn signal(self, a: Answer, p: &[u8], mem: &mut [u8]) -> Result<Slot, SlotError>
        ensures { after (outcome result) mem.new ≡ signalled self a p.now mem.old }
    {
        if mem.len() < self.len {
            return Err(SlotError::BadLength);
        }
        if !is_response(a.kind) {
            return Ok(self);
        }
        if self.signalled {
            return Ok(self.lose());
        }
        if !carries(a.kind) {
            return Ok(self.fill(a.kind, a.number, 0));
        }
        if mem.len() < p.len() {
            return Ok(self.overflow(a.kind, a.number));
        }
        moves::put(mem, 0, p);
        Ok(self.fill(a.kind, a.number, p.len()))
    }

    // Frees the slot for the command of the next serial number (R-11), and changes nothing else. The number in force is refused; any other is good, a lower one too.
    #[tactic(auto, unfolding(crate::specs::Slot::was_reset))]
    pub fn reset(self, serial: u32, mem: &[u8]) -> Result<Slot, ResetError>
        ensures { resetting result ≡ was_reset self serial mem.now }
    {
        if mem.len() < self.len {
            return Err(ResetError::BadLength);
        }
        if serial == self.serial {
            return Err(ResetError::Repeated);
        }
        Ok(Slot {
            signalled: false,
            serial,
            ..self
        })
    }

    // Looks at the slot, which tells its answer and the serial number that this bears (R-11). Looking doesn't free it; a free one answers nothing.
    #[tactic(auto, unfolding(crate::specs::Slot::was_read))]
    pub fn lookup(self, mem: &[u8]) -> Result<Looked, SlotError>
        ensures { reading result ≡ was_read self mem.now }
    {
        if mem.len() < self.len {
            return Err(SlotError::BadLength);
        }
        if self.signalled {
            return Ok(Looked::Signalled(self));
        }
        Ok(Looked::Nothing(self))
    }

    // How many bytes of the memory's front can be read: what a signalled slot stores; a free one answers nothing.
    fn readable(self) -> usize
        ensures { result ≡ readable self }
    {
        if self.signalled { self.len } else { 0 }
    }

    // The payload, or digits, of the answer that can be read, as a part of the caller's memory. A free slot gives the empty front part, and so does
    // a stored length past the memory. It hands no slot back: the caller's stands.
    pub fn payload(self, mem: &[u8]) -> &[u8]
        ensures is { result.now ≡ part_of mem.now 0 (readable self) }
        ensures lies { result.ref_ptr ≡ further mem.entry.ref_ptr (part_at mem.now 0 (readable self)) }
    {
        text::part(mem, 0, self.readable())
    }
}
