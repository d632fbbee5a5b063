// Cases of the notation that are one call: a digest, the conversion of a queue (R-9), and the reading of a list (R-4); the notation is in crates/notation/src/lib.rt.
// It is part of a harness and promises only that it doesn't trip; what it answers is held to a file of another origin (tests/model.py).
#![tactic(auto)]

use answers::{Answer, DigestError};
use convert::ConvertError;
use fields::Memory;
use pieces::{Element, Kind, NUMBERS};
use queue::Queue;
use say::Out;
use selector::Selector;
use std::io;
use text::Span;

// Where a part of the input stands, behind a text.
fn say_span<R: Print>(out: &mut Out<'_, R>, name: &[u8], part: Span) -> io::Result<()> {
    out.words(name)?;
    out.and_number(part.start as u64)?;
    out.and_number(part.len as u64)
}

// Where another part of the input stands, by its name, if it has any bytes.
fn say_part<R: Print>(out: &mut Out<'_, R>, name: &[u8], part: Span) -> io::Result<()> {
    if part.len == 0 {
        return Ok(());
    }
    say_span(out, name, part)
}

// Says a digester's answer, and ends the line.
fn say_answer<R: Print>(out: &mut Out<'_, R>, a: Answer) -> io::Result<()> {
    out.kind_number(a.kind, a.number)?;
    say_span(out, b"", a.payload)?;
    out.and_number(a.consumed as u64)?;
    say_part(out, b" digits", a.digits)?;
    say_part(out, b" text", a.text)?;
    out.words(b"\n")
}

// The case TABLE INPUT: digests, and says the answer or the refusal.
pub fn digest_case<R: Print>(
    out: &mut Out<'_, R>,
    line: &[u8],
    selector: Selector,
    table: &mut Memory,
    buf: &mut Memory,
) -> io::Result<()> {
    let Some(table) = data::field(line, 0, table) else {
        return out.bad_line();
    };
    let Some(input) = data::field(line, 1, buf) else {
        return out.bad_line();
    };
    match selector::digest(selector, table, input) {
        Ok(a) => say_answer(out, a),
        Err(DigestError::TooLong) => out.words(b"refused 1\n"),
        Err(DigestError::BadTable(k)) => {
            out.refusal_of_record(k)?;
            out.words(b"\n")
        }
    }
}

// Says a queue's numbers and its memory.
pub fn say_queue<R: Print>(out: &mut Out<'_, R>, q: Queue, mem: &[u8]) -> io::Result<()> {
    out.and_number(q.start as u64)?;
    out.and_number(q.count as u64)?;
    out.and_number(q.lost as u64)?;
    out.memory(mem)
}

// The case convert START,COUNT,LOST OLD-MEMORY NEW-MEMORY: converts, and says the new queue or the refusal.
pub fn convert_case<R: Print>(
    out: &mut Out<'_, R>,
    line: &[u8],
    old_mem: &mut Memory,
    mem: &mut Memory,
) -> io::Result<()> {
    let Some((start, count, lost)) = notation::form::conversion_of(line) else {
        return out.bad_line();
    };
    let Some(old_mem) = data::field(line, 2, old_mem) else {
        return out.bad_line();
    };
    let Some(mem) = data::field(line, 3, mem) else {
        return out.bad_line();
    };
    match convert::convert(Queue { start, count, lost }, old_mem, mem) {
        Ok(q) => {
            out.words(b"converted")?;
            say_queue(out, q, mem)?;
            out.words(b"\n")
        }
        Err(ConvertError::Bad) => out.words(b"refused 3\n"),
        Err(ConvertError::TooFew) => out.words(b"refused 13\n"),
    }
}

// PLACE,END,KIND,DEPTH, a number's value and a range's two.
fn say_element<R: Print>(out: &mut Out<'_, R>, e: Element) -> io::Result<()> {
    out.number(e.place as u64)?;
    out.behind(b",", e.end as u64)?;
    let depth = e.depth as u64;
    match e.kind {
        Kind::Empty => out.behind(b",empty,", depth),
        Kind::Number => {
            out.behind(b",number,", depth)?;
            out.behind(b",", e.low)
        }
        Kind::Range => {
            out.behind(b",range,", depth)?;
            out.behind(b",", e.low)?;
            out.behind(b",", e.high)
        }
        Kind::String => out.behind(b",string,", depth),
        Kind::List => out.behind(b",list,", depth),
    }
}

// The first n elements, with a `;` between them.
fn say_elements<R: Print>(
    out: &mut Out<'_, R>,
    elements: &[u64; NUMBERS],
    n: usize,
) -> io::Result<()> {
    for i in 0..n {
        if i != 0 {
            out.words(b";")?;
        }
        say_element(out, pieces::element_at(elements, i))?;
    }
    Ok(())
}

// The case list INPUT: reads a list, and says its elements or the refusal with its place.
pub fn list_case<R: Print>(out: &mut Out<'_, R>, line: &[u8], buf: &mut Memory) -> io::Result<()> {
    if !notation::form::is_list(line) {
        return out.bad_line();
    }
    let Some(input) = data::field(line, 1, buf) else {
        return out.bad_line();
    };
    let mut elements = [0; NUMBERS];
    match lists::read(input, &mut elements) {
        Ok(n) => say_elements(out, &elements, n)?,
        Err(e) => {
            out.refusal(e.number() as u64)?;
            out.and_number(e.place() as u64)?;
        }
    }
    out.words(b"\n")
}
