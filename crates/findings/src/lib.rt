// What the bytes of a buffer have to say about the fixed lines, kept beside the buffer and carried on as more come in (R-14): each byte is looked at once.
// Every public function is total, for findings that nobody found too. Those that begin with `none` and are carried on over a buffer as it grows are what `start` finds in it.
#![tactic(auto)]

ghost use Rattle.std.specs.Prelude.{◌≡◌, []};
ghost use Rattle.text.specs.Text.{is_blank};
ghost use Rattle.findings.specs.Findings.{not_lf, na_end, last_end, findings_of, extended, findings_in, numbers_of};

use lines::Fixed;
use scan::TEXTS;
use text::Blanks;

// How many bytes these are about, the table's state after them, and where the first occurrence of each of the eleven texts ends;
// where the first NA line ends, the last byte that is no run blank, and the last LF. An end is 0 for none, as the C interface lends it.
#[derive(Clone, Copy)]
pub struct Findings {
    pub seen: usize,
    pub state: usize,
    pub ends: [usize; TEXTS],
    pub na: usize,
    pub last: usize,
    pub lf: usize,
}

// The findings of no bytes.
#[tactic(auto, unfolding(crate::specs::Findings::findings_of, scan::specs::Scan::scanned, scan::specs::Scan::fresh, scan::specs::Scan::run, scan::specs::Scan::end_of, text::specs::Text::find_in, text::specs::Text::keep))]
pub fn none() -> Findings
    ensures { result ≡ findings_of [] }
{
    Findings {
        seen: 0,
        state: 0,
        ends: [0; TEXTS],
        na: 0,
        last: 0,
        lf: 0,
    }
}

// All bytes of an NA line but its last: so many of it may stand in what was looked at before.
const BACK: usize = 5;

// Where the first NA line ends: at e where that isn't 0, else none ends in the first n bytes.
#[tactic(auto, unfolding(crate::specs::Findings::na_end, scan::specs::Scan::end_of), using(crate::specs::Steps::na_fits))]
fn na_end(s: &[u8], n: usize, e: usize) -> usize
    ensures { result ≡ na_end s.now n e }
{
    if e != 0 {
        return e;
    }
    match lines::find_fixed(s, n.saturating_sub(BACK), Fixed::Na) {
        Some(p) => p + lines::fixed_len(Fixed::Na),
        None => 0,
    }
}

// Where the last byte that is no run blank ends: at e where there is none behind the first n. It is looked for from the end.
fn last_end(s: &[u8], n: usize, e: usize) -> usize
    ensures { result ≡ last_end (is_blank Blanks.Run) s.now n e }
{
    if s.len() <= n {
        return e;
    }
    let k = text::kept(Blanks::Run, &s[n..]);
    if k == 0 {
        return e;
    }
    n + k
}

// The same of the last LF.
fn lf_end(s: &[u8], n: usize, e: usize) -> usize
    ensures { result ≡ last_end not_lf s.now n e }
{
    for last in (n..s.len()).rev() {
        if s[last] == b'\n' {
            return last + 1;
        }
    }
    e
}

// The findings f, whoever says so, carried on over the bytes of s behind those that they are about. Past the end of s there are none.
#[tactic(auto, unfolding(crate::specs::Findings::extended))]
pub fn extend(f: Findings, s: &[u8]) -> Findings
    ensures { result ≡ extended f s.now }
{
    let ends = f.ends;
    let known = scan::Findings {
        seen: f.seen,
        state: f.state,
        ends,
    };
    let texts = scan::extend(known, s);
    let ends = texts.ends;
    Findings {
        seen: texts.seen,
        state: texts.state,
        ends,
        na: na_end(s, f.seen, f.na),
        last: last_end(s, f.seen, f.last),
        lf: lf_end(s, f.seen, f.lf),
    }
}

// The findings of s.
#[tactic(auto, using(crate::proofs::Laws::extended_none))]
pub fn start(s: &[u8]) -> Findings
    ensures { result ≡ findings_of s.now }
{
    extend(none(), s)
}

// Findings as a caller lends them through the C interface: how many numbers they are. They stand written out, which proves as it stands; of a loop each would have to be named in its proof.
pub const NUMBERS: usize = 16;

// The findings of sixteen numbers, any sixteen.
pub fn of_numbers(numbers: &[u64; NUMBERS]) -> Findings
    ensures { result ≡ findings_in numbers.now }
{
    let ends = [
        numbers[2] as usize,
        numbers[3] as usize,
        numbers[4] as usize,
        numbers[5] as usize,
        numbers[6] as usize,
        numbers[7] as usize,
        numbers[8] as usize,
        numbers[9] as usize,
        numbers[10] as usize,
        numbers[11] as usize,
        numbers[12] as usize,
    ];
    Findings {
        seen: numbers[0] as usize,
        state: numbers[1] as usize,
        ends,
        na: numbers[13] as usize,
        last: numbers[14] as usize,
        lf: numbers[15] as usize,
    }
}

// Findings as their sixteen numbers.
pub fn lay(numbers: &mut [u64; NUMBERS], f: Findings)
    ensures { numbers.new ≡ numbers_of f }
{
    let ends = f.ends;
    *numbers = [
        f.seen as u64,
        f.state as u64,
        ends[0] as u64,
        ends[1] as u64,
        ends[2] as u64,
        ends[3] as u64,
        ends[4] as u64,
        ends[5] as u64,
        ends[6] as u64,
        ends[7] as u64,
        ends[8] as u64,
        ends[9] as u64,
        ends[10] as u64,
        f.na as u64,
        f.last as u64,
        f.lf as u64,
    ];
}
