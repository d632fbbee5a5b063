// What atread prints of an input, by document 01: a line for each item that the digester finds under the empty table.
// The text is put into lent memory, and every byte of it is promised.
#![tactic(auto)]

ghost use Rattle.std.specs.Prelude.{◌≡◌, ◌≤◌, ◌+◌, ◌*◌, length};
ghost use Rattle.answers.specs.Answer.{numbered, carried};
ghost use Rattle.ink.specs.Ink.{inked, ink};
ghost use Rattle.report.specs.Report.{spaced, payload_text, number_text, value_of, line_of, drawn, draw, reported, report};

use answers::{Answer, Kind};
use ink::Page;

// A text, a space before it.
fn spaced(page: &mut Page<'_>, text: &[u8])
    requires { page.old.at + (1 + length text.now) ≤ length page.old.out.now }
    ensures is { inked page.new.out.now page.new.at ≡ ink page.old.out.now page.old.at (spaced text.now) }
    ensures place { page.new.out.ghost_name ≡ page.old.out.ghost_name }
{
    page.words(b" ");
    page.words(text);
}

// A number in decimal, a space before it.
fn number(page: &mut Page<'_>, n: u64)
    requires { page.old.at + 21 ≤ length page.old.out.now }
    ensures is { inked page.new.out.now page.new.at ≡ ink page.old.out.now page.old.at (number_text n) }
    ensures place { page.new.out.ghost_name ≡ page.old.out.ghost_name }
{
    page.words(b" ");
    page.decimal(n);
}

// A payload that isn't empty in hexadecimal, a space before it.
fn payload(page: &mut Page<'_>, p: &[u8])
    requires { page.old.at + (1 + 2 * length p.now) ≤ length page.old.out.now }
    ensures is { inked page.new.out.now page.new.at ≡ ink page.old.out.now page.old.at (payload_text p.now) }
    ensures place { page.new.out.ghost_name ≡ page.old.out.ghost_name }
{
    if p.is_empty() {
        return;
    }
    page.words(b" ");
    page.hex(p);
}

// Of a numeric error the digits as they came (R-2); else the number where the kind has one, else the payload.
fn value(page: &mut Page<'_>, kind: Kind, n: u32, p: &[u8])
    requires { page.old.at + (21 + 2 * length p.now) ≤ length page.old.out.now }
    ensures is { inked page.new.out.now page.new.at ≡ ink page.old.out.now page.old.at (value_of kind (numbered kind n) p.now) }
    ensures place { page.new.out.ghost_name ≡ page.old.out.ghost_name }
{
    if answers::is_numeric(kind) {
        spaced(page, p);
    } else if answers::has_number(kind) {
        number(page, n as u64);
    } else {
        payload(page, p);
    }
}

// The line of an answer on s; None prints nothing.
fn line(page: &mut Page<'_>, s: &[u8], a: Answer)
    requires { page.old.at + (53 + 2 * (carried a).len) ≤ length page.old.out.now }
    ensures is { inked page.new.out.now page.new.at ≡ ink page.old.out.now page.old.at (line_of a s.now) }
    ensures place { page.new.out.ghost_name ≡ page.old.out.ghost_name }
{
    if !answers::is_found(a) {
        return;
    }
    let part = answers::carried(a);
    let p = digest::payload(s, part.start, part.len);
    page.decimal(a.consumed as u64);
    spaced(page, answers::name(a.kind));
    value(page, a.kind, a.number, p);
    page.words(b"\n");
}

// The lines of s's steps under the empty table; the answer is the bytes left.
fn draw(page: &mut Page<'_>, s: &[u8]) -> usize
    requires { page.old.at + 55 * length s.now ≤ length page.old.out.now }
    ensures is { drawn page.new.out.now page.new.at result ≡ draw page.old.out.now page.old.at s.now }
    ensures place { page.new.out.ghost_name ≡ page.old.out.ghost_name }
{
    let none = &s[..0];
    let mut at = 0;
    while let Some(step) = steps::next(none, s, at) {
        line(page, &s[at..], step.answer);
        at += step.answer.consumed;
    }
    s.len() - at
}

// The memory that a report needs at most.
pub const ROOM: usize = 229376;

// Why no report is made: the memory is shorter than ROOM.
#[derive(Clone, Copy)]
pub enum ReportError {
    Short,
}

// What atread prints of the input, at the front of the memory.
pub fn report(input: &[u8], out: &mut [u8]) -> Result<usize, ReportError>
    ensures { reported result out.new ≡ report input.now out.old }
{
    if out.len() < ROOM {
        return Err(ReportError::Short);
    }
    let mut page = Page { out, at: 0 };
    if digest::LONGEST < input.len() {
        page.words(b"refused 1\n");
        return Ok(page.at);
    }
    page.words(b"records 0\n");
    let left = draw(&mut page, input);
    page.words(b"left");
    number(&mut page, left as u64);
    page.words(b"\n");
    Ok(page.at)
}
