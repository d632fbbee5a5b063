// What a line of the notation is made of: parts that stand apart by a byte, and numbers. The notation is in crates/notation/src/lib.rt.
// It is part of a harness and promises only that it doesn't trip.
#![tactic(auto)]

// How long a memory of the harness is: one more than a line may be.
pub const LENGTH: usize = 65536;

pub type Memory = [u8; LENGTH];

// Is it `-`, which stands for no bytes and for no ops?
pub fn is_none(s: &[u8]) -> bool {
    matches!(s, b"-")
}

// How many parts s has where the byte b stands between them.
pub fn parts(s: &[u8], b: u8) -> usize {
    s.split(|x| *x == b).count()
}

// The part k, from 0; no bytes where there are fewer.
pub fn part_of(s: &[u8], k: usize, b: u8) -> &[u8] {
    s.split(|x| *x == b).nth(k).unwrap_or(b"")
}

// What stands before the first byte b and what stands behind it, where s has one.
pub fn split_once(s: &[u8], b: u8) -> Option<(&[u8], &[u8])> {
    let at = s.iter().position(|x| *x == b)?;
    Some((&s[..at], &s[at + 1..]))
}

// A decimal number of at least one digit, at most `most`.
pub fn number(s: &[u8], most: u32) -> Option<u32> {
    if s.is_empty() {
        return None;
    }
    let mut n: u32 = 0;
    for b in s {
        let digit = char::from(*b).to_digit(10)?;
        n = n.checked_mul(10)?.checked_add(digit)?;
    }
    Some(n).filter(|n| *n <= most)
}
