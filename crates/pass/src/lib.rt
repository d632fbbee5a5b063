// One pass over buf for the fixed texts that may stand anywhere in it (R-6): the first OK line, which ranks before the others, or where the others first stand.
// A place where none of them may begin is passed over, many at a time; only where more than one may begin is the table of `scan` laid out.
#![tactic(auto)]

ghost use Rattle.std.specs.Prelude.{◌≡◌, ◌≤◌, ◌+◌, length};
ghost use Rattle.seek.specs.Seek.{any_of};
ghost use Rattle.pass.specs.Pass.{lines_at, heads_at, passed};
ghost use Rattle.pass.specs.declared.Passed.TheVariants.{Others};
ghost use Rattle.pass.specs.Begin.{may_begin, begin_from, Clear, end_here, ends_here};

use lines::Fixed;
use places::{Heads, Lines, Places};
use scan::TEXTS;

// What a pass finds: the first OK line, or, where there is none, the others. No `Result`: neither is a failure.
#[derive(Clone, Copy)]
pub enum Passed {
    Ok(usize),
    Others(Lines, Places),
}

// May one of the eleven texts begin at p? Each has LF behind its CR, and as the second byte of its line a letter from K to U, or C with M behind it.
#[tactic(auto, unfolding(crate::specs::Begin::may_begin))]
fn may_begin(s: &[u8], p: usize) -> bool
    requires { p + 5 ≤ length s.now }
    ensures { result ≡ may_begin s.now p }
{
    let b = s[p + 3];
    (s[p + 1] == b'\n') & (((b'K' <= b) & (b <= b'U')) | ((b == b'C') & (s[p + 4] == b'M')))
}

// May one begin at one of the n places from `at` on? It goes through all n, so that a processor may take many at once.
#[tactic(auto, unfolding(seek::specs::Seek::any_of))]
fn any_begins(s: &[u8], at: usize, n: usize) -> bool
    requires { at + n + 4 ≤ length s.now }
    ensures { result ≡ any_of (begin_from s.now at) n }
{
    let mut any = false;
    for j in 0..n {
        any |= may_begin(s, at + j);
    }
    any
}

// May one begin at p? Of a place by itself the LF is asked first: most have none there.
#[tactic(auto, using(crate::proofs::Clears::no_begin))]
fn begins_at(s: &[u8], p: usize) -> bool
    requires { p + 5 ≤ length s.now }
    ensures { result ≡ may_begin s.now p }
{
    s[p + 1] == b'\n' && may_begin(s, p)
}

// The first place from `from` on at which one may begin, place by place, or the end.
#[tactic(auto, using(crate::proofs::Clears::clear_here, crate::proofs::Clears::clear_join, crate::proofs::Clears::clear_one, crate::proofs::Clears::clear_end))]
fn begin_near(s: &[u8], from: usize) -> usize
    requires { from ≤ length s.now }
    ensures { Clear s.now from result }
{
    for p in from..s.len().saturating_sub(4) {
        if begins_at(s, p) {
            return p;
        }
    }
    s.len()
}

// The places that are passed over at once where none may begin, and how many bytes are looked at for that.
const BLOCK: usize = 64;

const BLOCK_BYTES: usize = 68;

// The same from CR to CR, and over blocks of places.
#[tactic(auto, using(crate::proofs::Clears::clear_here, crate::proofs::Clears::clear_join, crate::proofs::Clears::clear_block, crate::proofs::Clears::clear_none, crate::proofs::Clears::cr_inside, crate::proofs::Clears::clear_cr))]
fn begin_from(s: &[u8], from: usize) -> usize
    requires { from ≤ length s.now }
    ensures { Clear s.now from result }
{
    let mut i = from;
    // no `for`: the next block begins at the next CR
    while BLOCK_BYTES <= s.len() - i {
        let Some(p) = seek::find_cr(s, i) else {
            return s.len();
        };
        if s.len() - p < BLOCK_BYTES || any_begins(s, p, BLOCK) {
            return begin_near(s, p);
        }
        i = p + BLOCK;
    }
    begin_near(s, i)
}

// The same: in a short input, or near the end of a long one, place by place and without a call. A CRLF at `from`, as rule 1 leaves it, is asked about by itself,
// since the line behind it may be a long one.
#[tactic(auto, using(crate::proofs::Clears::clear_here))]
fn begin(s: &[u8], from: usize) -> usize
    requires { from ≤ length s.now }
    ensures { Clear s.now from result }
{
    if s.len() - from < BLOCK_BYTES {
        return begin_near(s, from);
    }
    if s[from + 1] != b'\n' {
        return begin_from(s, from);
    }
    if may_begin(s, from) {
        return from;
    }
    begin_from(s, from + 2)
}

// By the ends of the texts, in the table's order: those of the lines but OK.
fn lines_at(ends: &[usize; TEXTS]) -> Lines
    ensures { result ≡ lines_at ends.now }
{
    Lines {
        connect: ends[1],
        error: ends[2],
        unsupported: ends[3],
        carrier: ends[4],
        busy: ends[5],
        answer: ends[6],
        dialtone: ends[7],
    }
}

// And those of the heads, from e on.
fn heads_at(e: usize, ends: &[usize; TEXTS]) -> Places
    ensures { result ≡ heads_at e ends.now }
{
    let heads = Heads {
        cme: ends[8],
        cms: ends[9],
        modem: ends[10],
    };
    Places {
        from: e,
        heads: Some(heads),
    }
}

// What a pass finds from e on where no OK line is, by those ends.
fn others(e: usize, ends: &[usize; TEXTS]) -> Passed
    ensures { result ≡ Others (lines_at ends.now) (heads_at e ends.now) }
{
    Passed::Others(lines_at(ends), heads_at(e, ends))
}

// Where the text ends if it stands at p, else 0.
#[tactic(auto, unfolding(crate::specs::Begin::end_here), using(crate::specs::Laws::here_room))]
fn end_here(s: &[u8], p: usize, text: Fixed) -> usize
    ensures { result ≡ end_here s.now p text }
{
    if lines::fixed_at(s, p, text) {
        p + lines::fixed_len(text)
    } else {
        0
    }
}

// The ends of the texts, where nothing but what stands at p may stand, and that isn't OK.
fn ends_here(s: &[u8], p: usize) -> [usize; TEXTS]
    ensures { result ≡ ends_here s.now p }
{
    [
        0,
        end_here(s, p, Fixed::Connect),
        end_here(s, p, Fixed::Error),
        end_here(s, p, Fixed::CommandNotSupport),
        end_here(s, p, Fixed::NoCarrier),
        end_here(s, p, Fixed::Busy),
        end_here(s, p, Fixed::NoAnswer),
        end_here(s, p, Fixed::NoDialtone),
        end_here(s, p, Fixed::Cme),
        end_here(s, p, Fixed::Cms),
        end_here(s, p, Fixed::Modem),
    ]
}

// What stands in s, from e on. Where nothing may begin there is nothing; an OK line at the first place where something may is the first; and where nothing may begin behind that place,
// only what stands there counts.
#[tactic(auto, using(crate::specs::Laws::pass_none, crate::specs::Laws::pass_ok, crate::specs::Laws::pass_here, crate::specs::Laws::pass_room, crate::specs::Laws::pass_found, crate::specs::Laws::pass_others, crate::proofs::Clears::clear_here))]
pub fn pass(s: &[u8], e: usize) -> Passed
    ensures { result ≡ passed s.now e }
{
    if s.len() <= e {
        return others(e, &[0; TEXTS]);
    }
    let p = begin(s, e);
    if s.len() <= p {
        return others(e, &[0; TEXTS]);
    }
    if lines::fixed_at(s, p, Fixed::Ok) {
        return Passed::Ok(p);
    }
    if s.len() <= begin_from(s, p + 1) {
        return others(e, &ends_here(s, p));
    }
    let ends = scan::scan(s, p).ends;
    if 0 < ends[0] {
        return Passed::Ok(ends[0] - 6);
    }
    others(e, &ends)
}
