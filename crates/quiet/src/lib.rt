// R-14: what tells from the findings so far, and few of the bytes, that a digest of a buffer would find nothing and consume nothing.
// The findings may be anyone's: a text that they say was found counts only where it stands. Every function is total: no public function has a `requires`.
#![tactic(auto)]

ghost use Rattle.std.specs.Prelude.{◌≡◌};
ghost use Rattle.lines.specs.Lines.{fixed_text};
ghost use Rattle.quiet.specs.Quiet.{counts, no_fixed, unended, no_number, no_text, no_line, no_custom, no_byte, still};
ghost use Rattle.quiet.specs.Customs.{OnlyNotices};

use findings::Findings;
use lines::{Digester, Fixed};
use selector::Selector;

// Does the text end at `end` in s?
#[tactic(auto, unfolding(crate::specs::Quiet::counts))]
fn counts(s: &[u8], end: usize, text: Fixed) -> bool
    ensures { result ≡ counts (fixed_text text) s.now end }
{
    let n = lines::fixed_len(text);
    n <= end && lines::fixed_at(s, end - n, text)
}

// The lines but NA, in the order of their ends.
const LINES: [Fixed; 8] = [
    Fixed::Ok,
    Fixed::Connect,
    Fixed::Error,
    Fixed::CommandNotSupport,
    Fixed::NoCarrier,
    Fixed::Busy,
    Fixed::NoAnswer,
    Fixed::NoDialtone,
];

// None of the nine lines is there.
#[tactic(auto, unfolding(crate::specs::Quiet::no_fixed))]
fn no_fixed(f: Findings, s: &[u8]) -> bool
    ensures { result ≡ no_fixed f s.now }
{
    let mut none = true;
    for i in 0..8 {
        none &= !counts(s, f.ends[i], LINES[i]);
    }
    none & !counts(s, f.na, Fixed::Na)
}

// The head of a numeric error isn't there, or no LF is behind it, the last one ending at lf.
#[tactic(auto, unfolding(crate::specs::Quiet::unended))]
fn unended(s: &[u8], lf: usize, end: usize, head: Fixed) -> bool
    ensures { result ≡ unended (fixed_text head) s.now lf end }
{
    (lf <= end) | !counts(s, end, head)
}

// The heads of the numeric errors, in the order of their ends, which are behind those of the lines.
const HEADS: [Fixed; 3] = [Fixed::Cme, Fixed::Cms, Fixed::Modem];

// No numeric error is ended.
#[tactic(auto, unfolding(crate::specs::Quiet::no_number))]
fn no_number(f: Findings, s: &[u8]) -> bool
    ensures { result ≡ no_number f s.now }
{
    let mut none = true;
    for i in 0..3 {
        none &= unended(s, f.lf, f.ends[8 + i], HEADS[i]);
    }
    none
}

// No CONNECT line with text begins that the digester would hear (R-3).
#[tactic(auto, unfolding(crate::specs::Quiet::no_text))]
fn no_text(digester: Digester, s: &[u8]) -> bool
    ensures { result ≡ no_text digester s.now }
{
    !lines::hears_text(digester) || lines::find_fixed(s, 0, Fixed::ConnectText).is_none()
}

// No line is finished: each has four bytes at least, and ends in LF. Or the table has no record, and none of the other lines is there.
#[tactic(auto, unfolding(crate::specs::Quiet::no_line))]
fn no_line(digester: Digester, table: &[u8], f: Findings, s: &[u8]) -> bool
    ensures { result ≡ no_line digester table.now f s.now }
{
    f.lf <= 3 || table.is_empty() && no_fixed(f, s) & no_number(f, s) && no_text(digester, s)
}

// The byte that ends at `end` is no prompt.
#[tactic(auto, unfolding(crate::specs::Quiet::no_byte), using(crate::specs::Laws::counts_past, crate::specs::Laws::counts_byte, crate::specs::Laws::counts_early))]
fn no_byte(s: &[u8], end: usize) -> bool
    ensures { result ≡ no_byte s.now end }
{
    end == 0 || s.len() < end || !matches!(s[end - 1], b'>' | b'@')
}

// Are the table's records notices alone? Marks and lengths are read and no more, since it is asked at each byte.
fn only_notices(table: &[u8]) -> bool
    ensures { OnlyNotices table.now result }
{
    let mut rest = table;
    while let [b'U', b'R', len, tail @ ..] = rest {
        let Some(next) = tail.get(usize::from(*len)..) else {
            return false;
        };
        rest = next;
    }
    rest.is_empty()
}

// The bytes s end in no custom prompt; a table of notices alone, as most are, has none.
#[tactic(auto, unfolding(crate::specs::Quiet::no_custom))]
fn no_custom(table: &[u8], s: &[u8]) -> bool
    ensures { result ≡ no_custom table.now s.now }
{
    only_notices(table) || items::custom_prompts(table, s, 0).is_none()
}

// Would a digest of s find nothing and consume nothing, for all that f tells of s? The cheap questions come first. In V0 (R-1) the findings tell nothing.
#[tactic(auto, unfolding(crate::specs::Quiet::still))]
pub fn is_still(selector: Selector, table: &[u8], f: Findings, s: &[u8]) -> bool
    ensures { result ≡ still selector table.now f s.now }
{
    match selector {
        Selector::Numeric => false,
        Selector::Verbal(digester) => {
            no_line(digester, table, f, s)
                && no_byte(s, f.last)
                && no_custom(table, s)
                && level::skipped(s) == 0
        }
    }
}
