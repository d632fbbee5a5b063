// What may stand at a place of the buffer, one function for each form: the numeric errors, the prompts, the custom lines and the notices.
// They answer by places what atat's `parser` module reads with nom; the order in which the forms are tried is the digester's.
// Every function is total: a place past the end holds nothing, and an empty text has a stated answer.
#![tactic(auto)]

ghost use Rattle.std.specs.Prelude.{◌≡◌, [], ◌∷◌, ◌+◌, ◌*◌, ◌≤◌};
ghost use Rattle.text.specs.Text.{stands, find_in};
ghost use Rattle.parser.specs.Parser.{line_ending, is_digit, run_at, tail_at, custom_prompt, wrapped, breaks_off, notice_text};

use text::Blanks;

// How long the line ending at `place` is: 2 for CRLF, 1 for LF, 0 for none.
#[tactic(auto, unfolding(crate::specs::Parser::line_ending))]
pub fn line_ending(buf: &[u8], place: usize) -> usize
    ensures { result ≡ line_ending buf.now place }
{
    if text::matches_at(buf, place, b"\n") {
        1
    } else if text::matches_at(buf, place, &lines::CRLF) {
        2
    } else {
        0
    }
}

// Is b one of the ten digits?
#[tactic(auto, unfolding(crate::specs::Parser::is_digit))]
pub fn is_digit(b: u8) -> bool
    ensures { result ≡ is_digit b }
{
    b.is_ascii_digit()
}

// A number with one digit more, without a multiply (R-5): ten times the number is eight times and twice it.
fn appended(number: u64, twice: u64, digit: u64) -> u64
    requires { (number ≤ u32.MAX) × (twice ≡ number * 2) × (digit ≤ 9) }
    ensures { result ≡ number * 10 + digit }
{
    (number << 3) + twice + digit
}

// The longest run of digits from `from` on: its number and its end, or none where the number is over MOST. With no digit there it is 0 and ends at `from`.
// Twice the number is made where the number is, a digit before it is used: of eight times and twice a number in one sum an optimising compiler makes a multiply
// again. MOST is 32 bits wide, so that a digit more always fits into 64.
#[tactic(auto, using(crate::specs::Laws::sofar_none, crate::specs::Laws::run_end, crate::specs::Laws::run_stop, crate::specs::Laws::run_large, crate::specs::Laws::run_more, crate::specs::Laws::digit_bounds))]
pub fn digits_at<const MOST: u32>(buf: &[u8], from: usize) -> Option<(u32, usize)>
    ensures { result ≡ run_at MOST buf.now from }
{
    let most = u64::from(MOST);
    let mut number: u64 = 0;
    let mut twice: u64 = 0;
    for i in from..buf.len() {
        let b = buf[i];
        if !is_digit(b) {
            return Some((number as u32, i));
        }
        let next = appended(number, twice, u64::from(b - b'0'));
        if most < next {
            return None;
        }
        number = next;
        twice = next << 1;
    }
    Some((number as u32, from.max(buf.len())))
}

// A numeric error: its code, where its digits start and stop, and where it ends.
#[derive(Clone, Copy)]
pub struct Digits {
    pub code: u32,
    pub start: usize,
    pub stop: usize,
    pub end: usize,
}

// The largest code of a numeric error.
const CODE: u32 = 65_535;

// The rest of a numeric error behind its head: run blanks, the digits, LF or CRLF.
#[tactic(auto, using(crate::specs::Laws::tail_large, crate::specs::Laws::tail_bare, crate::specs::Laws::tail_open, crate::specs::Laws::tail_is, crate::specs::Laws::ending_fits))]
pub fn tail_at(buf: &[u8], place: usize) -> Option<Digits>
    ensures { result ≡ tail_at buf.now place }
{
    let start = text::skip(Blanks::Run, buf, place);
    let (code, stop) = digits_at::<CODE>(buf, start)?;
    if stop <= start {
        return None;
    }
    let ending = line_ending(buf, stop);
    if ending == 0 {
        return None;
    }
    Some(Digits {
        code,
        start,
        stop,
        end: stop + ending,
    })
}

// The byte's first place at or after `from`.
pub fn find_byte(buf: &[u8], from: usize, byte: u8) -> Option<usize>
    ensures { result ≡ find_in (byte ∷ []) buf.now from }
{
    if buf.len() < seek::SHORT {
        return seek::find_byte(buf, from, byte);
    }
    seek::find(buf, from, &[byte], 0, 0)
}

// A custom prompt: do the bytes from `from` on, without trailing run blanks, end in the text?
#[tactic(auto, using(crate::specs::Laws::custom_past, crate::specs::Laws::custom_room, crate::specs::Laws::custom_short, crate::specs::Laws::custom_is))]
pub fn custom_prompt(buf: &[u8], from: usize, x: &[u8]) -> bool
    ensures { result ≡ custom_prompt x.now buf.now from }
{
    if buf.len() < from {
        return x.is_empty();
    }
    let n = text::kept(Blanks::Run, &buf[from..]);
    x.len() <= n && text::matches_at(buf, from + (n - x.len()), x)
}

// A custom line: do CRLF, the text and CRLF stand in buf at `place`?
#[tactic(auto, using(crate::specs::Laws::line_none, crate::specs::Laws::line_room, crate::specs::Laws::line_off, crate::specs::Laws::line_end_lem))]
fn custom_at(buf: &[u8], place: usize, x: &[u8]) -> bool
    ensures { result ≡ stands (wrapped x.now) buf.now place }
{
    text::matches_at(buf, place, &lines::CRLF)
        && text::matches_at(buf, place + 2, x)
        && text::matches_at(buf, place + 2 + x.len(), &lines::CRLF)
}

// The custom line's first place at or after `from`.
#[tactic(auto, using(text::specs::Steps::find_here, text::specs::Steps::find_next, text::specs::Steps::find_end, crate::specs::Laws::line_past))]
pub fn find_custom(buf: &[u8], from: usize, x: &[u8]) -> Option<usize>
    ensures { result ≡ find_in (wrapped x.now) buf.now from }
{
    for place in from..buf.len() {
        if custom_at(buf, place, x) {
            return Some(place);
        }
    }
    None
}

// A notice of rule 2: matched with its end, unfinished, or no match. Three cases, so neither an Option nor a Result.
#[derive(Clone, Copy)]
pub enum Notice {
    Ended(usize),
    Unfinished,
    Nothing,
}

// Does the input end before or inside the text that is to stand at `at`, right after it, or after it and one CR?
#[tactic(auto, using(crate::specs::Laws::broken_past, crate::specs::Laws::broken_within, crate::specs::Laws::broken_over, crate::specs::Laws::broken_off, crate::specs::Laws::broken_cr))]
fn breaks_off(buf: &[u8], at: usize, x: &[u8]) -> bool
    ensures { result ≡ breaks_off x.now buf.now at }
{
    if buf.len() < at {
        return true;
    }
    let left = buf.len() - at;
    if left <= x.len() {
        return text::matches_at(x, 0, &buf[at..]);
    }
    left <= x.len() + 1
        && text::matches_at(buf, at, x)
        && text::matches_at(buf, at + x.len(), b"\r")
}

// A notice of rule 2 from its text on, which is to stand at `at`: then either CRLF, or `:` and everything through the next CRLF.
#[tactic(auto, using(crate::specs::Laws::text_broken, crate::specs::Laws::text_off, crate::specs::Laws::text_bare, crate::specs::Laws::text_other, crate::specs::Laws::text_through, crate::specs::Laws::text_open))]
pub fn notice_text(buf: &[u8], at: usize, x: &[u8]) -> Notice
    ensures { result ≡ notice_text x.now buf.now at }
{
    if breaks_off(buf, at, x) {
        return Notice::Unfinished;
    }
    if !text::matches_at(buf, at, x) {
        return Notice::Nothing;
    }
    let end = at + x.len();
    if text::matches_at(buf, end, &lines::CRLF) {
        return Notice::Ended(end + 2);
    }
    if !text::matches_at(buf, end, b":") {
        return Notice::Nothing;
    }
    match text::find(buf, end + 1, &lines::CRLF) {
        Some(k) => Notice::Ended(k + 2),
        None => Notice::Nothing,
    }
}
