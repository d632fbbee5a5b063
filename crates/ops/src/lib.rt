// A script of ops, done through the public calls, and the answers said. It is part of a harness and promises only that it doesn't trip.
#![tactic(auto)]

use answers::Kind;
use fields::Memory;
use findings::NUMBERS;
use ingress::{AdvanceError, WriteError};
use notation::op::Op;
use queue::{Notice, TakeError};
use say::Out;
use selector::Selector;
use slot::{Held, Looked, ResetError, Slot, SlotError};
use std::io;
use turn::{Memories, State};

// What an op answered; a refusal by its number, which is what the notation says of it. Full is refusal 5 of a write, with the bytes taken.
#[derive(Clone, Copy)]
enum Answered {
    Took(usize),
    Advanced,
    Done,
    Nothing,
    Notice(Notice),
    Held(Slot),
    Refused(u64),
    BadTable(usize),
    Full(usize),
}

// A script on its way: the state so far, whether an op with findings was among those done, the findings, and what each call is made with.
#[derive(Drop)]
pub struct Run<'a> {
    pub now: State,
    pub fed: bool,
    pub numbers: [u64; NUMBERS],
    pub selector: Selector,
    pub table: &'a [u8],
    pub memories: Memories<'a>,
}

impl<'a> Run<'a> {
    // At its start, with the findings in what the buffer holds.
    pub fn new(
        start: State,
        selector: Selector,
        table: &'a [u8],
        memories: Memories<'a>,
    ) -> Run<'a> {
        let mut run = Run {
            now: start,
            fed: false,
            numbers: [0; NUMBERS],
            selector,
            table,
            memories,
        };
        run.find();
        run
    }

    // Finds afresh in what the buffer holds, as far as it reaches.
    fn find(&mut self) {
        let found = findings::start(self.memories.held(self.now.end));
        findings::lay(&mut self.numbers, found);
    }

    // Findings without a word to the buffer.
    fn forget(&mut self) -> Answered {
        findings::lay(&mut self.numbers, findings::none());
        Answered::Done
    }

    // What a write answered. A refused one leaves the state as it was, but for refusal 5.
    fn wrote(&mut self, wrote: Result<(State, usize), WriteError>) -> Answered {
        match wrote {
            Ok((next, n)) => {
                self.now = next;
                Answered::Took(n)
            }
            Err(WriteError::TooLong) => Answered::Refused(1),
            Err(WriteError::BadTable(k)) => Answered::BadTable(k),
            Err(WriteError::BadState) => Answered::Refused(3),
            Err(WriteError::Full(next, n)) => {
                self.now = next;
                Answered::Full(n)
            }
        }
    }

    // What an advance answered, likewise.
    fn advanced(&mut self, went: Result<State, AdvanceError>) -> Answered {
        match went {
            Ok(next) => {
                self.now = next;
                Answered::Advanced
            }
            Err(AdvanceError::TooLong) => Answered::Refused(1),
            Err(AdvanceError::BadTable(k)) => Answered::BadTable(k),
            Err(AdvanceError::BadState) => Answered::Refused(3),
            Err(AdvanceError::NoRoom) => Answered::Refused(4),
            Err(AdvanceError::Full(next)) => {
                self.now = next;
                Answered::Refused(5)
            }
        }
    }

    // Each op through its public call.
    fn write(&mut self, p: &[u8]) -> Answered {
        let wrote = ingress::write(self.now, p, self.selector, self.table, &mut self.memories);
        let answered = self.wrote(wrote);
        self.find();
        answered
    }

    fn advance(&mut self, n: usize, p: &[u8]) -> Answered {
        let end = self.now.end;
        moves::put(self.memories.buf, end, p);
        let went = ingress::advance(self.now, n, self.selector, self.table, &mut self.memories);
        let answered = self.advanced(went);
        self.find();
        answered
    }

    // The same with findings, which these calls keep.
    fn write_with(&mut self, p: &[u8]) -> Answered {
        let wrote = feed::write(
            self.now,
            p,
            self.selector,
            self.table,
            &mut self.numbers,
            &mut self.memories,
        );
        self.wrote(wrote)
    }

    fn advance_with(&mut self, p: &[u8]) -> Answered {
        let end = self.now.end;
        moves::put(self.memories.buf, end, p);
        let went = feed::advance(
            self.now,
            p.len(),
            self.selector,
            self.table,
            &mut self.numbers,
            &mut self.memories,
        );
        self.advanced(went)
    }

    fn clear(&mut self) -> Answered {
        self.now.end = ingress::clear(self.now.end);
        self.forget()
    }

    fn reset(&mut self, serial: u32) -> Answered {
        match self.now.slot.reset(serial, self.memories.slot) {
            Ok(slot) => {
                self.now.slot = slot;
                Answered::Done
            }
            Err(ResetError::BadLength) => Answered::Refused(3),
            Err(ResetError::Repeated) => Answered::Refused(15),
        }
    }

    fn signal(&mut self, kind: Kind, n: u32, p: &[u8]) -> Answered {
        let a = answers::with_number(kind, n, 0);
        match self.now.slot.signal(a, p, self.memories.slot) {
            Ok(slot) => {
                self.now.slot = slot;
                Answered::Done
            }
            Err(SlotError::BadLength) => Answered::Refused(3),
        }
    }

    fn take(&mut self) -> Answered {
        match self.now.queue.take(self.memories.queue) {
            Ok((queue, notice)) => {
                self.now.queue = queue;
                match notice {
                    Some(x) => Answered::Notice(x),
                    None => Answered::Nothing,
                }
            }
            Err(TakeError::Bad) => Answered::Refused(3),
        }
    }

    fn look(&mut self) -> Answered {
        match self.now.slot.lookup(self.memories.slot) {
            Ok(Looked::Signalled(slot)) => {
                self.now.slot = slot;
                Answered::Held(slot)
            }
            Ok(Looked::Nothing(slot)) => {
                self.now.slot = slot;
                Answered::Nothing
            }
            Err(SlotError::BadLength) => Answered::Refused(3),
        }
    }

    // Does an op. The serial number after the largest is 0.
    fn perform(&mut self, op: Op<'_>) -> Answered {
        match op {
            Op::Write(p) => self.write(p),
            Op::Advance(n, p) => self.advance(n, p),
            Op::WriteWith(p) => self.write_with(p),
            Op::AdvanceWith(p) => self.advance_with(p),
            Op::Forget => self.forget(),
            Op::Clear => self.clear(),
            Op::Reset(n) => self.reset(n),
            Op::ResetNext => self.reset(self.now.slot.serial.wrapping_add(1)),
            Op::Take => self.take(),
            Op::Look => self.look(),
            Op::Signal(kind, n, p) => self.signal(kind, n, p),
        }
    }

    // Says what an op answered.
    fn say<R: Print>(&self, out: &mut Out<'_, R>, answered: Answered) -> io::Result<()> {
        match answered {
            Answered::Took(n) => out.took(n),
            Answered::Advanced => out.words(b"advanced"),
            Answered::Done => out.words(b"done"),
            Answered::Nothing => out.words(b"nothing"),
            Answered::Notice(x) => say_notice(out, x, self.memories.queue),
            Answered::Held(x) => say_held(out, x, self.memories.slot),
            Answered::Refused(n) => out.refusal(n),
            Answered::BadTable(k) => out.refusal_of_record(k),
            Answered::Full(n) => {
                out.words(b"refused 5 ")?;
                out.took(n)
            }
        }
    }

    // Reads an op, does it, and says its answer. One that doesn't read isn't met here, since its script isn't done.
    pub fn do_op<R: Print>(
        &mut self,
        out: &mut Out<'_, R>,
        s: &[u8],
        piece: &mut Memory,
    ) -> io::Result<()> {
        if let Some(op) = notation::op::read_op(s, piece) {
            let answered = self.perform(op);
            self.fed |= notation::op::has_findings(op);
            self.say(out, answered)?;
        }
        out.words(b";")
    }
}

// A notice's number and its payload in hex.
fn say_notice<R: Print>(out: &mut Out<'_, R>, x: Notice, queue_mem: &[u8]) -> io::Result<()> {
    out.behind(b"notice ", x.number as u64)?;
    out.words(b" ")?;
    out.hex(text::part(queue_mem, x.place, x.len))
}

// What a slot holds, and its number.
pub fn say_content<R: Print>(out: &mut Out<'_, R>, x: Slot) -> io::Result<()> {
    match x.held {
        Held::Heard(k) => out.kind_number(k, x.number),
        Held::Capacity => out.words(b"capacity -"),
    }
}

// What a signalled slot holds, with its payload or digits in hex and the serial number that it bears.
fn say_held<R: Print>(out: &mut Out<'_, R>, x: Slot, slot_mem: &[u8]) -> io::Result<()> {
    out.words(b"held ")?;
    say_content(out, x)?;
    out.words(b" ")?;
    out.hex(x.payload(slot_mem))?;
    out.serial(x.serial)
}
