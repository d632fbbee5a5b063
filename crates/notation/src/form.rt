// The digester that a line chooses, its form, and the state or the old queue that it starts from where it has one.
use lines::Digester;
use selector::Selector;

// The digester that the first field chooses (R-1, R-3), and the fields behind that word; without a word it is document 01's, and all fields count.
pub fn first_word(line: &[u8]) -> (Selector, &[u8]) {
    if let Some(rest) = line.strip_prefix(b"connect ") {
        return (Selector::Verbal(Digester::Connect), rest);
    }
    if let Some(rest) = line.strip_prefix(b"numeric ") {
        return (Selector::Numeric, rest);
    }
    let rest = line.strip_prefix(b"verbose ").unwrap_or(line);
    (Selector::Verbal(Digester::Verbose), rest)
}

// A written state, number by number as the notation has it. The slot holds an Ok.
#[derive(Clone, Copy)]
pub struct Start {
    pub end: usize,
    pub signalled: bool,
    pub len: usize,
    pub slot_lost: u32,
    pub start: usize,
    pub count: usize,
    pub queue_lost: u32,
    pub serial: u32,
}

// The forms: a digest case, and an ingress case from nothing or from a written state.
#[derive(Clone, Copy)]
pub enum Form {
    Digest,
    Fresh,
    From(Start),
}

// The number k of a written state or queue.
fn number_at(s: &[u8], k: usize) -> Option<u32> {
    fields::number(fields::part_of(s, k, b','), u32::MAX)
}

// END,SIGNALLED,LENGTH,SLOT-LOST,START,COUNT,QUEUE-LOST,SERIAL
fn started(s: &[u8]) -> Option<Start> {
    if fields::parts(s, b',') != 8 {
        return None;
    }
    Some(Start {
        end: number_at(s, 0)? as usize,
        signalled: fields::number(fields::part_of(s, 1, b','), 1)? == 1,
        len: number_at(s, 2)? as usize,
        slot_lost: number_at(s, 3)?,
        start: number_at(s, 4)? as usize,
        count: number_at(s, 5)? as usize,
        queue_lost: number_at(s, 6)?,
        serial: number_at(s, 7)?,
    })
}

// The numbers START, COUNT and LOST of the line convert START,COUNT,LOST OLD-MEMORY NEW-MEMORY.
pub fn conversion_of(line: &[u8]) -> Option<(usize, usize, u32)> {
    let s = fields::part_of(line, 1, b' ');
    if fields::parts(line, b' ') != 4 || fields::parts(s, b',') != 3 {
        return None;
    }
    let start = number_at(s, 0)? as usize;
    let count = number_at(s, 1)? as usize;
    Some((start, count, number_at(s, 2)?))
}

// Has the line list INPUT (R-4) its one field?
pub fn is_list(line: &[u8]) -> bool {
    fields::parts(line, b' ') == 2
}

// A comma in the first field tells the form, else the number of fields.
pub fn form_of(line: &[u8]) -> Option<Form> {
    let first = fields::part_of(line, 0, b' ');
    match (fields::parts(line, b' '), first.contains(&b',')) {
        (6, true) => Some(Form::From(started(first)?)),
        (2, false) => Some(Form::Digest),
        (5, false) => Some(Form::Fresh),
        _ => None,
    }
}
