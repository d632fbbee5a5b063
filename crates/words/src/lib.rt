// An answer's words as people write them, read: the names of the kinds, a number, a payload in hex or as a text in quotes. The program atsay and the notation's case
// `say` (R-12) read by it. It promises only that it doesn't trip; what they make of it is held to stored files.
#![tactic(auto)]

use answers::Kind;
use fields::Memory;

// What is wrong with a payload: it is neither hex nor a text, its quote isn't closed, a byte of it isn't printable or no escape, something stands behind it, it is too long.
#[derive(Clone, Copy)]
pub enum Misspelt {
    Hex,
    Unclosed,
    Unprintable,
    Escape,
    Behind,
    Long,
}

const KINDS: [Kind; 14] = [
    Kind::None,
    Kind::Ok,
    Kind::Prompt,
    Kind::Cme,
    Kind::Cms,
    Kind::Unknown,
    Kind::NotAllowed,
    Kind::Error,
    Kind::NoCarrier,
    Kind::Busy,
    Kind::NoAnswer,
    Kind::NoDialtone,
    Kind::Custom,
    Kind::Notice,
];

// The kind of a name, in the words of atread and of the notation.
pub fn kind_named(word: &[u8]) -> Option<Kind> {
    KINDS
        .iter()
        .copied()
        .find(|kind| answers::name(*kind) == word)
}

// A number as it is written: one with a zero before it would come back without.
pub fn number(s: &[u8]) -> Option<u32> {
    match s {
        [b'0', _, ..] => None,
        _ => fields::number(s, u32::MAX),
    }
}

// A text from behind its opening quote on, put at the front of the memory, as a part of it. Nothing may stand behind its closing quote.
// n counts what was put, which no range over s does: an escape is two bytes.
fn quoted<'a>(s: &[u8], mem: &'a mut Memory) -> Result<&'a [u8], Misspelt> {
    let mut n = 0;
    let mut bytes = s.iter();
    while let Some(b) = bytes.next() {
        let spelt = match *b {
            b'"' if bytes.next().is_none() => return Ok(&mem[..n]),
            b'"' => return Err(Misspelt::Behind),
            b'\\' => match bytes.next() {
                Some(b'r') => b'\r',
                Some(b'n') => b'\n',
                Some(b'"') => b'"',
                Some(b'\\') => b'\\',
                _ => return Err(Misspelt::Escape),
            },
            b' '..=b'~' => *b,
            _ => return Err(Misspelt::Unprintable),
        };
        *mem.get_mut(n).ok_or(Misspelt::Long)? = spelt;
        n += 1;
    }
    Err(Misspelt::Unclosed)
}

// A payload, in quotes or in hex, put at the front of the memory, as a part of it.
pub fn payload_of<'a>(s: &[u8], mem: &'a mut Memory) -> Result<&'a [u8], Misspelt> {
    if let Some(text) = s.strip_prefix(b"\"") {
        return quoted(text, mem);
    }
    match data::plain(s, mem) {
        Some(n) => Ok(&mem[..n]),
        None => Err(Misspelt::Hex),
    }
}
