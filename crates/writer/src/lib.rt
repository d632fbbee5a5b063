// The modem's side, for a bench (R-12): an answer is written as the modem would, and only where the digester would read it back so.
// The bytes are written into memory of the call's own and digested there, so that a refusal leaves the caller's as it was.
#![tactic(auto)]

ghost use Rattle.std.specs.Prelude.{◌≡◌, ◌≤◌, ◌+◌, length};
ghost use Rattle.ink.specs.Ink.{inked, ink};
ghost use Rattle.digest.specs.Digest.{digest};
ghost use Rattle.writer.specs.Writer.{line, ok_with, coded, prompted, written, gives, same, heard_as, heard_in, saying, laid_out, table_error, say};

use answers::{Answer, Kind};
use ink::Page;
use lines::Digester;
use table::TableError;

// Why an answer isn't written: refusal 2 with the first faulty record's number; 16, it would not be read back so; 17, the memory is too short.
#[derive(Clone, Copy)]
pub enum SayError {
    BadTable(usize),
    Unread,
    Short,
}

impl From<TableError> for SayError {
    ghost from_gives = { λ e w. w ≡ table_error e };

    fn from(e: TableError) -> SayError {
        match e {
            TableError::Faulty(k) => SayError::BadTable(k),
        }
    }
}

// The longest payload that is tried, and room for it with the CRLFs around it and an OK line.
const LONGEST: usize = answers::LONGEST;

const OWN: usize = 4112;

// A line between CRLF and CRLF.
fn put_line(page: &mut Page<'_>, payload: &[u8])
    requires { page.old.at + (4 + length payload.now) ≤ length page.old.out.now }
    ensures is { inked page.new.out.now page.new.at ≡ ink page.old.out.now page.old.at (line payload.now) }
    ensures place { page.new.out.ghost_name ≡ page.old.out.ghost_name }
{
    page.words(&lines::CRLF);
    page.words(payload);
    page.words(&lines::CRLF);
}

// An Ok: its payload as a line, unless it is empty, then the OK line.
fn put_ok(page: &mut Page<'_>, payload: &[u8])
    requires { page.old.at + (10 + length payload.now) ≤ length page.old.out.now }
    ensures is { inked page.new.out.now page.new.at ≡ ink page.old.out.now page.old.at (ok_with payload.now) }
    ensures place { page.new.out.ghost_name ≡ page.old.out.ghost_name }
{
    if !payload.is_empty() {
        put_line(page, payload);
    }
    page.words(&lines::OK);
}

// A numeric error: its head, one space, the code without leading zeros, CRLF.
fn put_coded(page: &mut Page<'_>, head: &[u8; 13], number: Option<u32>)
    requires { page.old.at + 36 ≤ length page.old.out.now }
    ensures is { inked page.new.out.now page.new.at ≡ ink page.old.out.now page.old.at (coded head.now number) }
    ensures place { page.new.out.ghost_name ≡ page.old.out.ghost_name }
{
    let Some(n) = number else {
        return;
    };
    page.words(head);
    page.words(b" ");
    page.decimal(n as u64);
    page.words(&lines::CRLF);
}

// A prompt: CRLF, its byte, a space. A number over 255 is no byte.
#[tactic(auto, unfolding(crate::specs::Writer::prompted), using(ink::specs::Laws::ink_none))]
fn put_prompt(page: &mut Page<'_>, number: Option<u32>)
    ensures is { inked page.new.out.now page.new.at ≡ ink page.old.out.now page.old.at (prompted number) }
    ensures place { page.new.out.ghost_name ≡ page.old.out.ghost_name }
{
    match number {
        Some(b) if b <= 255 => page.words(&[b'\r', b'\n', b as u8, b' ']),
        _ => {}
    }
}

// The answer, written out; nothing of another kind, nor without its number.
#[tactic(auto, unfolding(crate::specs::Writer::written), using(ink::specs::Laws::ink_none))]
fn put_answer(page: &mut Page<'_>, kind: Kind, number: Option<u32>, payload: &[u8])
    requires code { page.old.at + 36 ≤ length page.old.out.now }
    requires lines { page.old.at + (10 + length payload.now) ≤ length page.old.out.now }
    ensures is { inked page.new.out.now page.new.at ≡ ink page.old.out.now page.old.at (written kind number payload.now) }
    ensures place { page.new.out.ghost_name ≡ page.old.out.ghost_name }
{
    match kind {
        Kind::None | Kind::Unknown | Kind::NotAllowed | Kind::Custom => {}
        Kind::Ok => put_ok(page, payload),
        Kind::Prompt => put_prompt(page, number),
        Kind::Cme => put_coded(page, &lines::CME_ERROR, number),
        Kind::Cms => put_coded(page, &lines::CMS_ERROR, number),
        Kind::Error => page.words(&lines::ERROR),
        Kind::NoCarrier => page.words(&lines::NO_CARRIER),
        Kind::Busy => page.words(&lines::BUSY),
        Kind::NoAnswer => page.words(&lines::NO_ANSWER),
        Kind::NoDialtone => page.words(&lines::NO_DIALTONE),
        Kind::Notice => put_line(page, payload),
    }
}

// Is the answer's number the one given, or has it none, as given?
#[tactic(auto, unfolding(crate::specs::Writer::gives))]
fn gives(number: Option<u32>, a: Answer) -> bool
    ensures { result ≡ gives number a }
{
    let numbered = answers::has_number(a.kind);
    match number {
        None => !numbered,
        Some(n) => numbered && a.number == n,
    }
}

// Are the two the same bytes?
#[tactic(auto, unfolding(crate::specs::Writer::same))]
fn same(p: &[u8], q: &[u8]) -> bool
    ensures { result ≡ same p.now q.now }
{
    p.len() == q.len() && text::matches_at(q, 0, p)
}

// Is the answer a of the bytes this kind, number and payload, and are they consumed whole?
#[tactic(auto, unfolding(crate::specs::Writer::heard_as))]
fn heard_as(kind: Kind, number: Option<u32>, payload: &[u8], bytes: &[u8], a: Answer) -> bool
    ensures { result ≡ heard_as kind number payload.now bytes.now a }
{
    answers::is_found(a)
        && a.kind == kind
        && gives(number, a)
        && same(
            payload,
            digest::payload(bytes, a.payload.start, a.payload.len),
        )
        && a.consumed == bytes.len()
}

// Digested under the table, are the bytes heard as this kind, number and payload?
fn heard_in(table: &[u8], kind: Kind, number: Option<u32>, payload: &[u8], bytes: &[u8]) -> bool
    ensures { result ≡ heard_in kind number payload.now bytes.now (digest Digester.Verbose table.now bytes.now) }
{
    match digest::digest(Digester::Verbose, table, bytes) {
        Ok(a) => heard_as(kind, number, payload, bytes, a),
        Err(_) => false,
    }
}

// The bytes of an answer at the front of the output memory, where they are read back and fit.
#[tactic(auto, unfolding(crate::specs::Writer::laid_out))]
fn lay_out(read: bool, bytes: &[u8], out: &mut [u8]) -> Result<usize, SayError>
    ensures { saying result out.new ≡ laid_out read bytes.now out.old }
{
    if !read {
        return Err(SayError::Unread);
    }
    if out.len() < bytes.len() {
        return Err(SayError::Short);
    }
    moves::put(out, 0, bytes);
    Ok(bytes.len())
}

// Writes an answer as a modem would into the output memory: an Ok with a payload, CME, CMS, ERROR, the four connection results, a notice, a prompt.
// Digesting the bytes under the same table gives the same kind, number and payload and consumes all of them; where it wouldn't, refusal 16.
pub fn say(
    table: &[u8],
    kind: Kind,
    number: Option<u32>,
    payload: &[u8],
    out: &mut [u8],
) -> Result<usize, SayError>
    ensures { saying result out.new ≡ say table.now kind number payload.now out.old }
{
    table::check(table)?;
    // A payload over 4,096 bytes can't come back.
    if LONGEST < payload.len() {
        return Err(SayError::Unread);
    }
    let mut own = [0u8; OWN];
    let mut page = Page {
        out: &mut own,
        at: 0,
    };
    put_answer(&mut page, kind, number, payload);
    let bytes = page.text();
    let read = heard_in(table, kind, number, payload, bytes);
    lay_out(read, bytes, out)
}
