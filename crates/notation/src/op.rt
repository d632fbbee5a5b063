// The ops of a script, read.
use answers::Kind;
use fields::Memory;
use ink::Page;

// An op, with its bytes, which were read into the piece's memory.
#[derive(Clone, Copy)]
pub enum Op<'a> {
    Write(&'a [u8]),
    Advance(usize, &'a [u8]),
    WriteWith(&'a [u8]),
    AdvanceWith(&'a [u8]),
    Forget,
    Clear,
    Reset(u32),
    ResetNext,
    Take,
    Look,
    Signal(Kind, u32, &'a [u8]),
}

// An op with bytes: W, A, F, G or O.
fn op_of_bytes<'a>(letter: u8, bytes: &'a [u8]) -> Option<Op<'a>> {
    match letter {
        b'W' => Some(Op::Write(bytes)),
        b'A' => Some(Op::Advance(bytes.len(), bytes)),
        b'F' => Some(Op::WriteWith(bytes)),
        b'G' => Some(Op::AdvanceWith(bytes)),
        b'O' => Some(Op::Signal(Kind::Ok, 0, bytes)),
        _ => None,
    }
}

// A CME code of E, with the digits behind a comma or, with no comma, its own in decimal; they are put into the piece's memory.
fn op_of_code<'a>(s: &[u8], piece: &'a mut Memory) -> Option<Op<'a>> {
    match fields::split_once(s, b',') {
        Some((code, digits)) => {
            let n = fields::number(code, 65535)?;
            Some(Op::Signal(Kind::Cme, n, data::data(digits, piece)?))
        }
        None => {
            let n = fields::number(s, 65535)?;
            let mut page = Page { out: piece, at: 0 };
            page.decimal(n as u64);
            let Page { out, at } = page;
            Some(Op::Signal(Kind::Cme, n, text::part(out, 0, at)))
        }
    }
}

// Reads an op, its bytes into the piece's memory.
pub fn read_op<'a>(s: &[u8], piece: &'a mut Memory) -> Option<Op<'a>> {
    match s {
        b"C" => Some(Op::Clear),
        b"X" => Some(Op::Forget),
        b"R" => Some(Op::ResetNext),
        b"T" => Some(Op::Take),
        b"B" => Some(Op::Signal(Kind::Busy, 0, b"")),
        b"L" => Some(Op::Look),
        [b'M', n @ ..] => Some(Op::Advance(fields::number(n, u32::MAX)? as usize, b"")),
        [b'P', n @ ..] => Some(Op::Signal(Kind::Prompt, fields::number(n, 255)?, b"")),
        [b'R', n @ ..] => Some(Op::Reset(fields::number(n, u32::MAX)?)),
        [b'E', code @ ..] => op_of_code(code, piece),
        [letter, bytes @ ..] => op_of_bytes(*letter, data::data(bytes, piece)?),
        [] => None,
    }
}

// Is it one of those that findings are kept for, F, G or X?
pub fn has_findings(op: Op<'_>) -> bool {
    matches!(op, Op::WriteWith(_) | Op::AdvanceWith(_) | Op::Forget)
}

// Does each op of a script read? The script `-` has none.
pub fn are_good(ops: &[u8], piece: &mut Memory) -> bool {
    if !fields::is_none(ops) {
        for op in ops.split(|b| *b == b';') {
            if read_op(op, piece).is_none() {
                return false;
            }
        }
    }
    true
}
