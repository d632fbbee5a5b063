// What was heard, as the digester says it and the slot keeps it: a kind, a number, where its payload, its digits and its text stand, the bytes consumed.
// An answer is made here, by one of six makers, and moved here; nobody else writes down what it consists of.
#![tactic(auto)]

ghost use Rattle.std.specs.Prelude.{◌≡◌, ◌+◌, ◌≤◌};
ghost use Rattle.answers.specs.Answer.{kind_number, has_number, numbered, stored, is_found, is_notice, is_numeric, settled, bare, nothing, made, with_number, with_digits, with_payload, with_text, carried, further, shift_within, name_of};

use text::Span;

// What was heard. Custom is a custom error; a custom success is an Ok.
#[derive(Clone, Copy, PartialEq, Eq)]
pub enum Kind {
    None,
    Ok,
    Prompt,
    Cme,
    Cms,
    Unknown,
    NotAllowed,
    Error,
    NoCarrier,
    Busy,
    NoAnswer,
    NoDialtone,
    Custom,
    Notice,
}

// An answer: its kind, its number (0 where the kind has none), the bytes consumed; and, as parts of the caller's input, its payload, a numeric error's digits
// as they came (R-2), and the text of a CONNECT line (R-3).
#[derive(Clone, Copy)]
pub struct Answer {
    pub kind: Kind,
    pub number: u32,
    pub payload: Span,
    pub digits: Span,
    pub text: Span,
    pub consumed: usize,
}

// Why nothing is digested: the input is over LONGEST bytes; a record of the table breaks a rule, the first such by its number.
#[derive(Clone, Copy)]
pub enum DigestError {
    TooLong,
    BadTable(usize),
}

// The number of each kind, in the order in which they stand above, by which a lent array has it.
pub fn kind_number(kind: Kind) -> u64
    ensures { result ≡ kind_number kind }
{
    kind as u64
}

// The kind as the tools print it.
pub fn name(kind: Kind) -> &'static [u8]
    ensures { result.now ≡ name_of kind }
{
    match kind {
        Kind::None => b"none",
        Kind::Ok => b"ok",
        Kind::Prompt => b"prompt",
        Kind::Cme => b"cme",
        Kind::Cms => b"cms",
        Kind::Unknown => b"unknown",
        Kind::NotAllowed => b"notallowed",
        Kind::Error => b"error",
        Kind::NoCarrier => b"nocarrier",
        Kind::Busy => b"busy",
        Kind::NoAnswer => b"noanswer",
        Kind::NoDialtone => b"nodialtone",
        Kind::Custom => b"custom",
        Kind::Notice => b"notice",
    }
}

// Has the kind a number? A CME or CMS code, a prompt byte, the table number of a notice or custom error.
pub fn has_number(kind: Kind) -> bool
    ensures { result ≡ has_number kind }
{
    matches!(
        kind,
        Kind::Prompt | Kind::Cme | Kind::Cms | Kind::Custom | Kind::Notice
    )
}

// The number that is stored for a kind: n where it has one, else 0.
pub fn number_of(kind: Kind, n: u32) -> u32
    ensures { result ≡ stored (numbered kind n) }
{
    if has_number(kind) { n } else { 0 }
}

// Is the answer another than None?
pub fn is_found(a: Answer) -> bool
    ensures { result ≡ is_found a }
{
    !matches!(a.kind, Kind::None)
}

// Is it a notice? Those go to the queue, other answers to the slot.
pub fn is_notice(kind: Kind) -> bool
    ensures { result ≡ is_notice kind }
{
    matches!(kind, Kind::Notice)
}

// Is it a numeric error? Those have digits (R-2), and no other kind has.
pub fn is_numeric(kind: Kind) -> bool
    ensures { result ≡ is_numeric kind }
{
    matches!(kind, Kind::Cme | Kind::Cms | Kind::Unknown)
}

// A part of length 0 has place 0.
fn settled(part: Span) -> Span
    ensures { result ≡ settled part }
{
    let start = if part.len == 0 { 0 } else { part.start };
    Span { start, ..part }
}

// A part that isn't there.
const NOWHERE: Span = Span { start: 0, len: 0 };

// A kind alone.
pub fn bare(kind: Kind, consumed: usize) -> Answer
    ensures { result ≡ bare kind consumed }
{
    Answer {
        kind,
        number: 0,
        payload: NOWHERE,
        digits: NOWHERE,
        text: NOWHERE,
        consumed,
    }
}

// None.
pub fn nothing(consumed: usize) -> Answer
    ensures { result ≡ nothing consumed }
{
    bare(Kind::None, consumed)
}

// A kind with its number, where it has one, its payload, its digits and its text.
fn made(kind: Kind, n: u32, payload: Span, digits: Span, text: Span, consumed: usize) -> Answer
    ensures { result ≡ made kind n payload digits text consumed }
{
    Answer {
        kind,
        number: number_of(kind, n),
        payload: settled(payload),
        digits: settled(digits),
        text: settled(text),
        consumed,
    }
}

// A kind with its number, where it has one.
pub fn with_number(kind: Kind, n: u32, consumed: usize) -> Answer
    ensures { result ≡ with_number kind n consumed }
{
    made(kind, n, NOWHERE, NOWHERE, NOWHERE, consumed)
}

// The same with the digits of a numeric error (R-2).
pub fn with_digits(kind: Kind, n: u32, digits: Span, consumed: usize) -> Answer
    ensures { result ≡ with_digits kind n digits consumed }
{
    made(kind, n, NOWHERE, digits, NOWHERE, consumed)
}

// The same with a payload.
pub fn with_payload(kind: Kind, n: u32, payload: Span, consumed: usize) -> Answer
    ensures { result ≡ with_payload kind n payload consumed }
{
    made(kind, n, payload, NOWHERE, NOWHERE, consumed)
}

// An Ok with its payload and the text of its CONNECT line (R-3).
pub fn with_text(payload: Span, text: Span, consumed: usize) -> Answer
    ensures { result ≡ with_text payload text consumed }
{
    made(Kind::Ok, 0, payload, NOWHERE, text, consumed)
}

// The part of the input that goes along with the answer: a numeric error's digits (R-2), else the payload.
pub fn carried(a: Answer) -> Span
    ensures { result ≡ carried a }
{
    if is_numeric(a.kind) {
        a.digits
    } else {
        a.payload
    }
}

// The bytes that an input may have, and so a place or a count.
pub const LONGEST: usize = 4096;

// A part seen from d bytes further to the front.
fn further(part: Span, d: usize) -> Span
    requires { part.start + d ≤ 8192 }
    ensures { result ≡ further d part }
{
    settled(Span {
        start: part.start + d,
        ..part
    })
}

// The same answer seen from d bytes further to the front. Numbers that are no input's leave it as it is.
#[tactic(auto, unfolding(crate::specs::Answer::shift, crate::specs::Answer::shift_within))]
pub fn shifted(a: Answer, d: usize) -> Answer
    ensures { result ≡ shift_within d a }
{
    let inside = a.payload.start <= LONGEST
        && a.digits.start <= LONGEST
        && a.text.start <= LONGEST
        && a.consumed <= LONGEST
        && d <= LONGEST;
    if !inside {
        return a;
    }
    Answer {
        payload: further(a.payload, d),
        digits: further(a.digits, d),
        text: further(a.text, d),
        consumed: a.consumed + d,
        ..a
    }
}
