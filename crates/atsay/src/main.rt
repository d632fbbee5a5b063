// atsay: reads a script, an answer a line in atread's words, and writes what a modem would say (R-12) to standard output; or nothing, and to standard error
// which line it is and why. Line 0 is bin/atsay's: blank, or the table of its options. The script is what follows.
// It promises only that it doesn't trip. That an answer is read back so is `writer::say`'s promise; how a line is read is held to tests/atsay. bin/atsay makes the status.
#![tactic(auto)]

use answers::Kind;
use fields::{LENGTH, Memory};
use std::io;
use table::TableError;
use text::Blanks;
use words::Misspelt;
use writer::SayError;

// The longest script; and that with the longest line 0 (a fault of any table shows in its first 2,305 bytes) and one byte more, so that a longer input is seen to be.
const LONGEST: usize = 65536;

const INPUT: usize = 70154;

// The memory that a script's answers need at most: no line writes more for its length than `cme 1`, which has six bytes with its line ending, and writes 17.
const ROOM: usize = 196608;

// What is wrong with a line: it doesn't read, or it is refused.
#[derive(Clone, Copy)]
enum Fault {
    Word,
    Number,
    Payload(Misspelt),
    Behind,
    Hex,
    LateTable,
    SecondTable,
    BadTable(usize),
    OtherKind,
    Unread,
    Short,
}

impl From<Misspelt> for Fault {
    fn from(m: Misspelt) -> Fault {
        Fault::Payload(m)
    }
}

impl From<TableError> for Fault {
    fn from(e: TableError) -> Fault {
        let TableError::Faulty(k) = e;
        Fault::BadTable(k)
    }
}

impl From<SayError> for Fault {
    fn from(e: SayError) -> Fault {
        match e {
            SayError::BadTable(k) => Fault::BadTable(k),
            SayError::Unread => Fault::Unread,
            SayError::Short => Fault::Short,
        }
    }
}

// Before the table, behind it, behind an answer.
#[derive(Clone, Copy)]
enum Stage {
    Begun,
    Tabled,
    Answered,
}

// A script on its way: how far it has come, its table, the memory of a payload, and the answers written one behind the other.
// There is no heap, so that lengths stand beside memories of a fixed size.
#[derive(Drop)]
struct Script {
    stage: Stage,
    table: Memory,
    table_len: usize,
    payload: Memory,
    out: [u8; ROOM],
    written: usize,
}

// Is an answer of the kind ever written? What else stands in its line isn't looked at where it isn't.
fn is_written(kind: Kind) -> bool {
    !matches!(
        kind,
        Kind::None | Kind::Unknown | Kind::NotAllowed | Kind::Custom
    )
}

fn has_payload(kind: Kind) -> bool {
    matches!(kind, Kind::Ok | Kind::Notice)
}

// The first word, and what stands behind the spaces behind it.
fn first_word(s: &[u8]) -> (&[u8], &[u8]) {
    let Some((word, rest)) = fields::split_once(s, b' ') else {
        return (s, b"");
    };
    match rest.iter().position(|b| *b != b' ') {
        Some(from) => (word, &rest[from..]),
        None => (word, b""),
    }
}

// The number at the front, where the kind has one, and what stands behind it.
fn number_first(kind: Kind, s: &[u8]) -> Result<(Option<u32>, &[u8]), Fault> {
    if !answers::has_number(kind) {
        return Ok((None, s));
    }
    let (word, rest) = first_word(s);
    let n = words::number(word).ok_or(Fault::Number)?;
    Ok((Some(n), rest))
}

impl Script {
    // The table, once, before any answer.
    fn take_table(&mut self, s: &[u8]) -> Result<(), Fault> {
        match self.stage {
            Stage::Begun => {}
            Stage::Tabled => return Err(Fault::SecondTable),
            Stage::Answered => return Err(Fault::LateTable),
        }
        let n = data::plain(s, &mut self.table).ok_or(Fault::Hex)?;
        table::check(text::part(&self.table, 0, n))?;
        self.stage = Stage::Tabled;
        self.table_len = n;
        Ok(())
    }

    // An answer of a kind, of which s has its number and its payload, written behind those before it.
    fn take_answer(&mut self, kind: Kind, s: &[u8]) -> Result<(), Fault> {
        let (number, rest) = number_first(kind, s)?;
        if !rest.is_empty() && !has_payload(kind) {
            return Err(Fault::Behind);
        }
        let payload = words::payload_of(rest, &mut self.payload)?;
        let table = text::part(&self.table, 0, self.table_len);
        let out = self.out.get_mut(self.written..).ok_or(Fault::Short)?;
        let n = writer::say(table, kind, number, payload, out)?;
        self.written = self.written.saturating_add(n);
        self.stage = Stage::Answered;
        Ok(())
    }

    // Any line. Blank ones and comments are passed over.
    fn take_line(&mut self, line: &[u8]) -> Result<(), Fault> {
        let t = text::trim(Blanks::Run, line);
        let line = text::part(line, t.start, t.len);
        if line.is_empty() || line.starts_with(b"#") {
            return Ok(());
        }
        let (word, rest) = first_word(line);
        if matches!(word, b"table") {
            return self.take_table(rest);
        }
        let kind = words::kind_named(word).ok_or(Fault::Word)?;
        if !is_written(kind) {
            return Err(Fault::OtherKind);
        }
        self.take_answer(kind, rest)
    }

    // All lines; or the number of the line that is wrong.
    fn take_lines(&mut self, input: &[u8]) -> Result<(), (usize, Fault)> {
        for (number, line) in input.split(|b| *b == b'\n').enumerate() {
            if let Err(f) = self.take_line(line) {
                return Err((number, f));
            }
        }
        Ok(())
    }
}

// What is wrong with a payload.
fn misspelt(m: Misspelt) -> &'static str {
    match m {
        Misspelt::Hex => "its payload must be HEX, two digits a byte, or text in double quotes",
        Misspelt::Unclosed => "its text has no closing quote",
        Misspelt::Unprintable => "its text has a byte that can not be printed; HEX takes any byte",
        Misspelt::Escape => "a backslash in its text may only begin \\r \\n \\\" \\\\",
        Misspelt::Behind => "something stands behind its end",
        Misspelt::Long => "its payload is longer than there is memory for",
    }
}

// What is wrong in a line that doesn't read.
fn misread(f: Fault) -> &'static str {
    match f {
        Fault::Word => {
            "its first word is none of ok cme cms error nocarrier busy noanswer nodialtone prompt notice table"
        }
        Fault::Number => "its number must be decimal, at most 4,294,967,295, with no zero in front",
        Fault::Payload(m) => misspelt(m),
        Fault::Behind => "something stands behind its end",
        Fault::Hex => "its table must be HEX, two digits a byte",
        Fault::LateTable => "a table must stand before the first answer",
        Fault::SecondTable => "a table was given before, in the options or in a line above",
        _ => "the answers are longer than there is memory for",
    }
}

// Why a line is wrong.
fn tell_why(rt: &impl Eprint, f: Fault) -> io::Result<()> {
    match f {
        Fault::BadTable(k) => {
            eprintln!(rt; "refused 2: the table is faulty in its record {k}, counted from 0")
        }
        Fault::OtherKind => eprintln!(rt; "refused 16: answers of this kind are not written"),
        Fault::Unread => eprintln!(rt; "refused 16: it would not be read back so"),
        _ => {
            let why = misread(f);
            eprintln!(rt; "it does not read: {why}")
        }
    }
}

// Writes the answers, or tells which line is wrong and why. Line 0 is that of the options.
fn answer(rt: &(impl Print + Eprint), input: &[u8]) -> io::Result<()> {
    let mut script = Script {
        stage: Stage::Begun,
        table: [0; LENGTH],
        table_len: 0,
        payload: [0; LENGTH],
        out: [0; ROOM],
        written: 0,
    };
    if let Err((line, f)) = script.take_lines(input) {
        if line == 0 {
            rt.eprint("the options: ")?;
        } else {
            eprint!(rt; "line {line}: ")?;
        }
        return tell_why(rt, f);
    }
    let written = text::part(&script.out, 0, script.written);
    if rt.write_all(written).is_err() {
        rt.eprint("the answers could not be written\n")?;
    }
    Ok(())
}

// Is the script, which begins behind line 0, too long? So is an input that fills its memory.
fn is_long(input: &[u8]) -> bool {
    INPUT <= input.len()
        || fields::split_once(input, b'\n').is_some_and(|(_, script)| LONGEST < script.len())
}

fn main(rt: HostRuntime) -> io::Result<()> {
    let mut input = [0; INPUT];
    let n = intake::read_full(&mut rt.stdin(), &mut input)?;
    let all = &input[..n];
    if is_long(all) {
        return rt.eprint("the script is over 65,536 bytes\n");
    }
    answer(&rt, all)
}
