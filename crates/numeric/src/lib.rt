// The digester for modems left in numeric mode, V0 (R-1): an answer ends in one of V.250's decimal codes and a CR, with no CRLF before it.
// The work grows with the input's length and no faster: one walk from line start to line start looks at each byte once for a CR, at three bytes of each line start
// and at two of each line's end; the blanks at the two ends of an Ok's payload are looked at once more.
// No public function has a `requires`.
#![tactic(auto)]

ghost use Rattle.std.specs.Prelude.{◌≡◌, ◌&&◌, ◌≤◌, ◌<◌, ◌+◌, length, get_or};
ghost use Rattle.text.specs.Text.{past};
ghost use Rattle.answers.specs.Answer.{outcome};
ghost use Rattle.numeric.specs.Numeric.{lone_cr, kind_of, is_listed, leftmost, behind, along, said, digest_unchecked, digest};
ghost use Rattle.numeric.specs.Heard.{HeardIn};
ghost use Rattle.numeric.specs.Laws.{not_cr, line_behind, coded};

use answers::{Answer, DigestError, Kind};
use text::Span;

// The kind that a code stands for: CONNECT is an Ok, RING a notice; None for a byte that is no code.
#[tactic(auto, unfolding(crate::specs::Numeric::kind_of))]
fn kind_of(b: u8) -> Kind
    ensures { result ≡ kind_of b }
{
    match b {
        b'0' | b'1' => Kind::Ok,
        b'2' => Kind::Notice,
        b'3' => Kind::NoCarrier,
        b'4' => Kind::Error,
        b'6' => Kind::NoDialtone,
        b'7' => Kind::Busy,
        b'8' => Kind::NoAnswer,
        _ => Kind::None,
    }
}

// Is there a CR at i with no LF behind it? At the input's end there is none.
#[tactic(auto, unfolding(crate::specs::Numeric::lone_cr))]
fn is_lone(s: &[u8], i: usize) -> bool
    ensures { result ≡ lone_cr s.now i }
{
    i < s.len() && s[i] == b'\r' && text::byte_at(s, i + 1) != b'\n'
}

// Is b one of the digits that are codes?
#[tactic(auto, unfolding(crate::specs::Numeric::kind_of))]
fn is_listed(b: u8) -> bool
    ensures { result ≡ is_listed b }
{
    matches!(b, b'0'..=b'4' | b'6'..=b'8')
}

// Is the line start p a code: one of the digits, then a lone CR?
fn is_code(s: &[u8], p: usize) -> bool
    requires { p < length s.now }
    ensures { result ≡ is_listed (get_or s.now p 0) && lone_cr s.now (p + 1) }
{
    is_listed(s[p]) && is_lone(s, p + 1)
}

// The first CR at or after `from`, or the end.
fn next_cr(s: &[u8], from: usize) -> usize
    ensures { result ≡ past not_cr s.now from }
{
    for place in from..s.len() {
        if s[place] == b'\r' {
            return place;
        }
    }
    from.max(s.len())
}

// A line start, and where what stands before it begins: behind the last lone CR, or at the first byte.
#[derive(Clone, Copy)]
pub struct Line {
    pub start: usize,
    pub from: usize,
}

// The line behind the CR at `cr`, of which what stands before began at `from` so far.
#[tactic(auto, unfolding(crate::specs::Laws::line_behind))]
fn line_behind(s: &[u8], cr: usize, from: usize) -> Line
    requires { cr < length s.now }
    ensures { result ≡ line_behind s.now cr from }
{
    if is_lone(s, cr) {
        let next = cr + 1;
        return Line {
            start: next,
            from: next,
        };
    }
    Line {
        start: cr + 2,
        from,
    }
}

// The leftmost code, with where what stands before it begins, by a walk from line start to line start.
// A `for` would be no plainer: a line is as long as it is, and no range has such steps.
fn leftmost(s: &[u8]) -> Option<Line>
    ensures { result ≡ coded s.now (leftmost s.now) }
{
    let mut line = Line { start: 0, from: 0 };
    while line.start < s.len() {
        if is_code(s, line.start) {
            return Some(line);
        }
        let cr = next_cr(s, line.start);
        if cr == s.len() {
            return None;
        }
        line = line_behind(s, cr, line.from);
    }
    None
}

// What goes along with the code b at p: with an Ok what stands before it, from `from` on, trimmed; with a RING the digit; with another nothing.
#[tactic(auto, unfolding(crate::specs::Numeric::along))]
fn along(s: &[u8], p: usize, from: usize, b: u8) -> Span
    requires { from ≡ behind s.now p }
    ensures { result ≡ along s.now p b }
{
    match b {
        b'0' | b'1' => text::trimmed_part(s, from, p),
        b'2' => Span { start: p, len: 1 },
        _ => Span { start: 0, len: 0 },
    }
}

// RING is a notice under a number that no table's record has.
const RING: u32 = 255;

// What the code at the line says; it is consumed through its CR.
#[tactic(auto, unfolding(crate::specs::Numeric::said))]
fn said(s: &[u8], line: Line) -> Answer
    requires { (line.start + 2 ≤ length s.now) × (line.from ≡ behind s.now line.start) }
    ensures { result ≡ said s.now line.start }
{
    let Line { start, from } = line;
    let b = s[start];
    answers::with_payload(kind_of(b), RING, along(s, start, from, b), start + 2)
}

// What the input was, by its leftmost code; with none it is None, 0. It asks for no table: the ingress has checked that there is none.
pub fn digest_unchecked(input: &[u8]) -> Answer
    ensures { result ≡ digest_unchecked input.now }
{
    match leftmost(input) {
        Some(line) => said(input, line),
        None => answers::nothing(0),
    }
}

// What the input was, or the refusal. There are no tokens in V0, so the table is to be empty; another is faulty from its first record on.
// None exactly when no line start of the input holds a code; else the leftmost code decides, and the rest begins at a line start (`HeardIn`).
#[tactic(auto, unfolding(crate::specs::Numeric::digest))]
pub fn digest(table: &[u8], input: &[u8]) -> Result<Answer, DigestError>
    ensures is { outcome result ≡ digest table.now input.now }
    ensures heard { HeardIn input.now (outcome result) }
{
    if answers::LONGEST < input.len() {
        return Err(DigestError::TooLong);
    }
    if !table.is_empty() {
        return Err(DigestError::BadTable(0));
    }
    Ok(digest_unchecked(input))
}
