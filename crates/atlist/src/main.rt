// atlist: reads standard input as a parameter list (R-4) and prints a line for each of its elements, or the refusal with its place marked under the payload.
// It promises only that it doesn't trip. What a payload holds is `lists::read`'s promise; how it is shown is held to tests/atlist. bin/atlist makes the status.
#![tactic(auto)]

use ink::Page;
use lists::ListError;
use pieces::{Element, Kind, NUMBERS};
use std::io;

// The longest payload; and that with a line ending and one byte more, so that a longer input is seen to be.
const LONGEST: usize = 65536;

const INPUT: usize = 65539;

// The memory that a report needs at most, which is fixed, since there is no heap: the texts of strings are part of the payload, and without them an element's line has fewer than 64 bytes.
const ROOM: usize = 81920;

// How many columns of a payload are shown at most, the mark's with them; and how many of those before the mark, where the payload goes on far enough behind it.
const COLUMNS: usize = 76;

const BEFORE: usize = 38;

// A number behind a text.
fn behind(page: &mut Page<'_>, t: &[u8], n: u64) {
    page.words(t);
    page.decimal(n);
}

// The value of a number or a range; the text of a string, as it stands between the quotes: escapes are left, and of an empty string nothing is shown.
fn value(page: &mut Page<'_>, payload: &[u8], e: Element) {
    match e.kind {
        Kind::Number => behind(page, b" ", e.low),
        Kind::Range => {
            behind(page, b" ", e.low);
            behind(page, b"-", e.high);
        }
        Kind::String => {
            let quoted = text::part(payload, e.place, e.end.saturating_sub(e.place));
            if let [_, inner @ .., _] = quoted
                && !inner.is_empty()
            {
                page.words(b" ");
                page.words(inner);
            }
        }
        Kind::Empty | Kind::List => {}
    }
}

// The line of an element.
fn line(page: &mut Page<'_>, payload: &[u8], e: Element) {
    page.decimal(e.place as u64);
    behind(page, b" ", e.depth as u64);
    page.words(name(e.kind));
    value(page, payload, e);
    page.words(b"\n");
}

// The payload, of a long one the part around the place, and under it the mark, which for the payload's end stands behind the last byte.
fn marked(page: &mut Page<'_>, payload: &[u8], place: usize) {
    let len = payload.len();
    let from = place
        .saturating_sub(BEFORE)
        .min(len.saturating_sub(COLUMNS - 1));
    let part = text::part(payload, from, len.saturating_sub(from).min(COLUMNS));
    for b in part {
        page.words(&[column(*b)]);
    }
    page.words(b"\n");
    let blanks = [b' '; COLUMNS];
    page.words(text::part(&blanks, 0, place.saturating_sub(from)));
    page.words(b"^\n");
}

// A refusal: its number, its place, what it means, and the place marked.
fn refusal(page: &mut Page<'_>, payload: &[u8], e: ListError) {
    behind(page, b"refused ", e.number() as u64);
    behind(page, b" at ", e.place() as u64);
    page.words(meaning(e));
    marked(page, payload, e.place());
}

// The input without the one line ending, LF or CRLF, that it may end in.
fn payload_of(input: &[u8]) -> &[u8] {
    match input.strip_suffix(b"\n") {
        Some(line) => line.strip_suffix(b"\r").unwrap_or(line),
        None => input,
    }
}

// The kind's name, a space before it.
fn name(kind: Kind) -> &'static [u8] {
    match kind {
        Kind::Empty => b" empty",
        Kind::Number => b" number",
        Kind::Range => b" range",
        Kind::String => b" string",
        Kind::List => b" list",
    }
}

// What a refusal means, in words.
fn meaning(e: ListError) -> &'static [u8] {
    match e {
        ListError::Malformed(_) => b": malformed: the grammar can't go on here\n",
        ListError::TooDeep(_) => b": too deep: a bracket opens within 4 others\n",
        ListError::TooLarge(_) => b": number too large: over 4,294,967,295\n",
        ListError::TooMany(_) => b": too many elements: this one is over 256\n",
    }
}

// A byte in one column: itself where it can be printed, else `?`.
fn column(b: u8) -> u8 {
    if matches!(b, b' '..=b'~') { b } else { b'?' }
}

// What is printed of a payload.
fn report(page: &mut Page<'_>, payload: &[u8]) {
    if LONGEST < payload.len() {
        page.words(b"too long\n");
        return;
    }
    let mut elements = [0; NUMBERS];
    match lists::read(payload, &mut elements) {
        Ok(count) => {
            for i in 0..count {
                line(page, payload, pieces::element_at(&elements, i));
            }
            behind(page, b"elements ", count as u64);
            page.words(b"\n");
        }
        Err(e) => refusal(page, payload, e),
    }
}

fn main(rt: HostRuntime) -> io::Result<()> {
    let mut input = [0; INPUT];
    let n = intake::read_full(&mut rt.stdin(), &mut input)?;
    let mut mem = [0; ROOM];
    let mut page = Page {
        out: &mut mem,
        at: 0,
    };
    report(&mut page, payload_of(&input[..n]));
    rt.write_all(page.text())
}
