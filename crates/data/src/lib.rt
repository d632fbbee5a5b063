// Bytes as a field of the notation has them: in hex, a byte many times as COUNT*HH, parts joined by `+`, and `-` for none.
// It is part of a harness and promises only that it doesn't trip.
#![tactic(auto)]

ghost use Rattle.std.specs.Prelude.{◌≤◌, length, IfSome};

use fields::Memory;

// The byte of two digits.
fn byte_of(pair: &[u8]) -> Option<u8> {
    let [high, low] = pair else {
        return None;
    };
    let high = char::from(*high).to_digit(16)?;
    let low = char::from(*low).to_digit(16)?;
    u8::try_from(high * 16 + low).ok()
}

// Bytes in hex, put at the front of the memory; how many they are, if they fit. Two digits are one byte, so n is no place in s.
pub fn plain(s: &[u8], mem: &mut [u8]) -> Option<usize>
    ensures { IfSome result (λ n. n ≤ length mem.new) }
{
    let mut n = 0;
    for pair in s.chunks(2) {
        *mem.get_mut(n)? = byte_of(pair)?;
        n += 1;
    }
    Some(n)
}

// COUNT*HH: one byte, many times.
fn repeated(count: &[u8], byte: &[u8], mem: &mut [u8]) -> Option<usize>
    ensures { IfSome result (λ n. n ≤ length mem.new) }
{
    let n = fields::number(count, 65536)? as usize;
    let b = byte_of(byte)?;
    mem.get_mut(..n)?.fill(b);
    Some(n)
}

// One part of a field, which isn't empty.
fn data_part(s: &[u8], mem: &mut [u8]) -> Option<usize>
    ensures { IfSome result (λ n. n ≤ length mem.new) }
{
    if s.is_empty() {
        return None;
    }
    match fields::split_once(s, b'*') {
        Some((count, byte)) => repeated(count, byte, mem),
        None => plain(s, mem),
    }
}

// A field of bytes, put at the front of the memory, as a part of it.
pub fn data<'a>(s: &[u8], mem: &'a mut Memory) -> Option<&'a mut [u8]> {
    let mut n = 0;
    if !fields::is_none(s) {
        for part in s.split(|b| *b == b'+') {
            n += data_part(part, &mut mem[n..])?;
        }
    }
    mem.get_mut(..n)
}

// The field k of a line, likewise.
pub fn field<'a>(line: &[u8], k: usize, mem: &'a mut Memory) -> Option<&'a mut [u8]> {
    data(fields::part_of(line, k, b' '), mem)
}
