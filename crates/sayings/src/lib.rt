// The case `say` of the notation (R-12), which is one call: its fields are read, the answer is written, and what came of it said; the notation is in
// crates/notation/src/lib.rt. It is part of a harness and promises only that it doesn't trip; what it answers is held to a file of another origin (tests/model.py).
#![tactic(auto)]

use answers::Kind;
use fields::Memory;
use say::Out;
use std::io;
use writer::SayError;

// The line say TABLE KIND NUMBER PAYLOAD OUTPUT: its kind and its number, `-` for none.
fn asked_of(line: &[u8]) -> Option<(Kind, Option<u32>)> {
    if fields::parts(line, b' ') != 6 {
        return None;
    }
    let kind = words::kind_named(fields::part_of(line, 2, b' '))?;
    let s = fields::part_of(line, 3, b' ');
    if fields::is_none(s) {
        return Some((kind, None));
    }
    Some((kind, Some(fields::number(s, u32::MAX)?)))
}

// The case say TABLE KIND NUMBER PAYLOAD OUTPUT: nothing is done before all of it reads. Says how many bytes the answer has with all of the output memory, or the
// refusal.
pub fn say_case<R: Print>(
    out: &mut Out<'_, R>,
    line: &[u8],
    table: &mut Memory,
    payload: &mut Memory,
    mem: &mut Memory,
) -> io::Result<()> {
    let Some((kind, number)) = asked_of(line) else {
        return out.bad_line();
    };
    let Some(table) = data::field(line, 1, table) else {
        return out.bad_line();
    };
    let Some(payload) = data::field(line, 4, payload) else {
        return out.bad_line();
    };
    let Some(mem) = data::field(line, 5, mem) else {
        return out.bad_line();
    };
    match writer::say(table, kind, number, payload, mem) {
        Ok(n) => {
            out.behind(b"said ", n as u64)?;
            out.memory(mem)?;
            out.words(b"\n")
        }
        Err(SayError::BadTable(k)) => {
            out.refusal_of_record(k)?;
            out.words(b"\n")
        }
        Err(SayError::Unread) => out.words(b"refused 16\n"),
        Err(SayError::Short) => out.words(b"refused 17\n"),
    }
}
