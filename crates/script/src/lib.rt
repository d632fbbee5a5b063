// A line of the notation, answered. A case that is a script: a line's fields made into memories, the calls made over them, and what they answered; cases of one call
// are in `cases` and `sayings`, the notation in crates/notation/src/lib.rt.
// It is part of a harness and promises only that it doesn't trip; what it answers is held to a file of another origin (tests/model.py).
#![tactic(auto)]

use answers::Kind;
use fields::{LENGTH, Memory};
use notation::form::{Form, Start};
use ops::Run;
use queue::Queue;
use say::Out;
use selector::Selector;
use slot::{Held, Slot};
use std::io;
use turn::{Memories, State};

// The memories that a line's fields are read into.
#[derive(Drop)]
pub struct Room<'a> {
    pub piece: &'a mut Memory,
    pub table: &'a mut Memory,
    pub buf: &'a mut Memory,
    pub slot: &'a mut Memory,
    pub queue: &'a mut Memory,
}

// Says a slot and its memory.
fn say_slot<R: Print>(out: &mut Out<'_, R>, x: Slot, mem: &[u8]) -> io::Result<()> {
    if x.signalled {
        out.words(b" slot signalled ")?;
    } else {
        out.words(b" slot free ")?;
    }
    ops::say_content(out, x)?;
    out.and_number(x.len as u64)?;
    out.and_number(x.lost as u64)?;
    out.serial(x.serial)?;
    out.memory(mem)
}

// Says the last state, and ends the line; where an op was with findings also how many bytes these are about.
fn say_last<R: Print>(out: &mut Out<'_, R>, run: &Run<'_>) -> io::Result<()> {
    out.behind(b" end ", run.now.end as u64)?;
    out.words(b" buffer ")?;
    out.hex(run.memories.buf)?;
    say_slot(out, run.now.slot, run.memories.slot)?;
    out.words(b" queue")?;
    cases::say_queue(out, run.now.queue, run.memories.queue)?;
    if run.fed {
        out.behind(b" findings ", run.numbers[0])?;
    }
    out.words(b"\n")
}

// Does each op of a script, and says the last state. The script `-` has none.
fn run_script<R: Print>(
    out: &mut Out<'_, R>,
    ops: &[u8],
    piece: &mut Memory,
    run: &mut Run<'_>,
) -> io::Result<()> {
    if !fields::is_none(ops) {
        for op in ops.split(|b| *b == b';') {
            run.do_op(out, op, piece)?;
        }
    }
    say_last(out, run)
}

// The case TABLE BUFFER SLOT-MEMORY QUEUE-MEMORY OPS: nothing is done before all of it reads.
fn script_case<R: Print>(
    out: &mut Out<'_, R>,
    line: &[u8],
    start: State,
    selector: Selector,
    room: &mut Room<'_>,
) -> io::Result<()> {
    let Some(table) = data::field(line, 0, room.table) else {
        return out.bad_line();
    };
    let Some(buf) = data::field(line, 1, room.buf) else {
        return out.bad_line();
    };
    let Some(slot) = data::field(line, 2, room.slot) else {
        return out.bad_line();
    };
    let Some(queue) = data::field(line, 3, room.queue) else {
        return out.bad_line();
    };
    let ops = fields::part_of(line, 4, b' ');
    if !notation::op::are_good(ops, room.piece) {
        return out.bad_line();
    }
    let mut run = Run::new(start, selector, table, Memories { buf, slot, queue });
    run_script(out, ops, room.piece, &mut run)
}

// The state of a new slot and an empty queue.
fn fresh() -> State {
    State {
        end: 0,
        slot: Slot::new(),
        queue: Queue::new(),
    }
}

// The state as it is written.
fn state_of(x: Start) -> State {
    State {
        end: x.end,
        slot: Slot {
            signalled: x.signalled,
            held: Held::Heard(Kind::Ok),
            number: 0,
            len: x.len,
            lost: x.slot_lost,
            serial: x.serial,
        },
        queue: Queue {
            start: x.start,
            count: x.count,
            lost: x.queue_lost,
        },
    }
}

// What stands behind the first field.
fn behind_first(line: &[u8]) -> &[u8] {
    match fields::split_once(line, b' ') {
        Some((_, rest)) => rest,
        None => b"",
    }
}

// Answers a line whose first field is a digester's word or none.
fn chosen_case<R: Print>(out: &mut Out<'_, R>, line: &[u8], room: &mut Room<'_>) -> io::Result<()> {
    let (selector, line) = notation::form::first_word(line);
    match notation::form::form_of(line) {
        Some(Form::Digest) => cases::digest_case(out, line, selector, room.table, room.buf),
        Some(Form::Fresh) => script_case(out, line, fresh(), selector, room),
        Some(Form::From(x)) => script_case(out, behind_first(line), state_of(x), selector, room),
        None => out.bad_line(),
    }
}

// Answers a line. A case of one call that has no digester is told by its word. A line that fills its memory is too long.
pub fn answer<R: Print>(out: &mut Out<'_, R>, line: &[u8], room: &mut Room<'_>) -> io::Result<()> {
    if line.len() == LENGTH {
        return out.bad_line();
    }
    if line.starts_with(b"convert ") {
        return cases::convert_case(out, line, room.buf, room.queue);
    }
    if line.starts_with(b"list ") {
        return cases::list_case(out, line, room.buf);
    }
    if line.starts_with(b"say ") {
        return sayings::say_case(out, line, room.table, room.buf, room.queue);
    }
    chosen_case(out, line, room)
}
